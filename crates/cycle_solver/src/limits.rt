//! The limits, as numbers.

ghost use Rattle.std.specs.Prelude.{◌≡◌};
ghost use Rattle.cycle_solver.specs.Limits.{most_captures};
ghost use Rattle.cycle_solver.specs.declared.limits.TheConstants.{MOST_CAPTURES};

/// Where kos are admitted each region is to be steady for both colours with at most so many captures that return.
pub const MOST_CAPTURES: u8 = 32;

/// The limits are these numbers. It has no code.
pub fn limit_laws()
    ensures captures { MOST_CAPTURES ≡ most_captures }
{}
