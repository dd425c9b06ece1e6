//! A law of placings, the contract of a function that does nothing.

ghost use Rattle.go_play.specs.Laws.{PlacingHasOneOutcome};

/// A stone that is placed leads to one board.
pub fn placing_laws()
    ensures { PlacingHasOneOutcome }
{}
