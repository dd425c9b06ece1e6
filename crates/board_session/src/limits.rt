//! The limits of a board session.

use endgame_solver::Limits;

/// What bounds the games that are opened, and how files are read. There is no tax.
#[derive(Clone, Copy)]
pub struct BoardLimits {
    /// The limits of a game.
    pub game: Limits,
    /// Whether the points that a file marks are declared.
    pub territory: bool,
    /// Whether regions may have cycles.
    pub cycles: bool,
}
