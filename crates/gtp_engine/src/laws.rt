//! Laws of sessions.

ghost use Rattle.gtp_engine.specs.Laws.{HasOneBeginning, HasOneText, MoveKeepsWin};

/// An engine that has won keeps its win: after the move that it generates the other side is to move and loses. A session over
/// told files has one text, and what breaks off is a front part of it. It has no code.
pub fn session_laws()
    ensures win { MoveKeepsWin }
    ensures one_text { HasOneText }
    ensures one_beginning { HasOneBeginning }
{}
