//! The limits, as numbers.

ghost use Rattle.std.specs.Prelude.{◌≡◌};
ghost use Rattle.sgf_tree.specs.Limits.{most_file_bytes};
ghost use Rattle.sgf_tree.specs.declared.reader.TheConstants.{MOST_BYTES};

/// The limits are these numbers. It has no code.
pub fn limit_laws()
    ensures bytes { MOST_BYTES ≡ most_file_bytes }
{}
