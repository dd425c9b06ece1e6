//! The limits, as numbers.

ghost use Rattle.std.specs.Prelude.{◌≡◌};
ghost use Rattle.sgf_go.specs.Limits.{most_komi, most_prisoners};
ghost use Rattle.sgf_go.specs.declared.komi.TheConstants.{MOST_KOMI};
ghost use Rattle.sgf_go.specs.declared.settings.TheConstants.{MOST_PRISONERS};

/// The limits are these numbers. It has no code.
pub fn limit_laws()
    ensures komi { MOST_KOMI ≡ most_komi }
    ensures prisoners { MOST_PRISONERS ≡ most_prisoners }
{}
