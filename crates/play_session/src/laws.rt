//! Laws of sessions.

ghost use Rattle.play_session.specs.Laws.{
  HasOneBeginning,
  HasOneText,
  SessionKeepsSimpleKo,
  WinIsKept,
  WonSessionsEnd,
};

/// An engine that has won keeps its win: after each of its moves the opponent is to move and loses, and no session ends in
/// the opponent's win; where kos are admitted too, the game ends won within a number of moves, and none is taken back at
/// once. A session has one text, and whatever it begins with is a front part of it. It has no code.
pub fn session_laws()
    ensures win { WinIsKept }
    ensures ends { WonSessionsEnd }
    ensures ko { SessionKeepsSimpleKo }
    ensures one_text { HasOneText }
    ensures one_beginning { HasOneBeginning }
{}
