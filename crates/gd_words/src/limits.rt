//! The limits, as numbers.

ghost use Rattle.std.specs.Prelude.{◌≡◌};
ghost use Rattle.gd_words.specs.Limits.{most_file_moves, most_parts};
ghost use Rattle.gd_words.specs.declared.choice.TheConstants.{MOST_MOVES, MOST_PARTS};

/// The limits are these numbers. It has no code.
pub fn limit_laws()
    ensures moves { MOST_MOVES ≡ most_file_moves }
    ensures parts { MOST_PARTS ≡ most_parts }
{}
