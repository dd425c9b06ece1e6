//! Laws of board sessions, the contract of a function that does nothing.

ghost use Rattle.board_session.specs.CycleLaws.{GameGoesOnWithCycles, OneKindIsToldWithCycles, WinIsKeptWithCycles};
ghost use Rattle.board_session.specs.GeneratedLaws.{BoardsStaySettled, GameGoesOn, OneKindIsTold, WinIsKept};
ghost use Rattle.board_session.specs.Laws.{MovesStand};

/// The position of each state is that of the setup and the moves that stand. It has no code.
pub fn board_laws()
    ensures stand { MovesStand }
{}

/// From a won game the move that a colour is told leads to a lost one for the other, and after one that puts no stone the
/// state opens the very game to which it leads. A colour is told one kind of thing in a state. Boards without declared
/// points stay settled. It has no code.
pub fn generating_laws()
    ensures win { WinIsKept }
    ensures on { GameGoesOn }
    ensures one { OneKindIsTold }
    ensures settled { BoardsStaySettled }
{}

/// The same of games in which kos can arise. It has no code.
pub fn cycle_laws()
    ensures win { WinIsKeptWithCycles }
    ensures on { GameGoesOnWithCycles }
    ensures one { OneKindIsToldWithCycles }
{}
