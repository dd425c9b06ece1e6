//! The limits, as numbers.

ghost use Rattle.std.specs.Prelude.{◌≡◌};
ghost use Rattle.local_play.specs.Limits.{most_places};
ghost use Rattle.local_play.specs.declared.places.TheConstants.{MOST_PLACES};

/// The limits are these numbers. It has no code.
pub fn limit_laws()
    ensures places { MOST_PLACES ≡ most_places }
{}
