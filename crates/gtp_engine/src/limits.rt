//! The limits of an engine.

use endgame_solver::Limits;

/// What bounds the games of an engine, and how it reads files. There is no tax.
#[derive(Clone, Copy)]
pub struct EngineLimits {
    /// The limits of a game.
    pub game: Limits,
    /// Whether the points that a file marks are declared.
    pub territory: bool,
    /// Whether regions may have cycles.
    pub cycles: bool,
}
