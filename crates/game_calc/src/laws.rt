//! The law of lines, the contract of a function that does nothing.

ghost use Rattle.game_calc.specs.Laws.{OneLineReading};

/// A line comes to one thing: what it asks for, or one fault.
pub fn line_laws()
    ensures one { OneLineReading }
{}
