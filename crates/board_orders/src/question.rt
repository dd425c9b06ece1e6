//! Questions about a state.

use go_grid::Colour;

/// What a command asks for.
#[derive(Clone, Copy)]
pub enum Question {
    Size,
    Komi,
    Handicap,
    Board,
    History,
    Stones(Colour),
    Captures(Colour),
}
