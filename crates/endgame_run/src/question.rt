//! What a job asks for, and a game that begins.

use board_session::BoardLimits;
use endgame_questions::{GameTerms, Inquiry, Line, Report};
use go_grid::Colour;
use gtp_engine::EngineLimits;
use play_session::Session;

/// A game of the file of a word on these terms, and the engine's colour, where it isn't the side to move.
#[derive(Clone, Copy)]
pub(crate) struct Match<'a> {
    pub terms: GameTerms,
    /// Whether regions may have cycles.
    pub cycles: bool,
    pub engine: Option<Colour>,
    pub word: &'a str,
}

/// What a job asks for.
#[derive(Clone, Copy)]
pub(crate) enum Asked<'a> {
    Answer(Inquiry<'a>),
    Game(Match<'a>),
    /// The text of the board that a number draws.
    Trial(u32),
    /// The answer to an expression.
    Calc(Line<'a>),
    /// The engine, within limits.
    Gtp(EngineLimits),
    /// The engine that keeps a board, within limits.
    BoardGtp(BoardLimits),
}

/// A game that begins, or the report on why it can't.
#[derive(Drop)]
pub(crate) enum Opened {
    Game(Session),
    Fault(Report),
}
