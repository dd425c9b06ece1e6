//! The limits, as numbers.

ghost use Rattle.std.specs.Prelude.{◌≡◌};
ghost use Rattle.desk_io.specs.Limits.{most_lines};
ghost use Rattle.desk_io.specs.declared.lines.TheConstants.{MOST_LINES};

/// The limits are these numbers. It has no code.
pub fn limit_laws()
    ensures lines { MOST_LINES ≡ most_lines }
{}
