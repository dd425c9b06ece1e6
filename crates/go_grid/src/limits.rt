//! The limits, as numbers.

ghost use Rattle.std.specs.Prelude.{◌≡◌};
ghost use Rattle.go_grid.specs.Limits.{most_points};
ghost use Rattle.go_grid.specs.declared.grid.TheConstants.{MOST_POINTS};

/// The limits are these numbers. It has no code.
pub fn limit_laws()
    ensures points { MOST_POINTS ≡ most_points }
{}
