//! What analyses of a position tell.

ghost use Rattle.std.specs.Prelude.{◌≡◌, ◌≢◌, IfSome, IfNone};
ghost use Rattle.board_orders.specs.Orders.{status_word};
ghost use Rattle.board_orders.specs.declared.topic.Status.{Status};

use go_grid::Colour;

/// What the game that a position opens tells.
#[derive(Clone, Copy)]
pub enum Topic {
    /// The ten best stones.
    Best,
    Margin,
    Moves,
    Line,
    /// The score of a finished game.
    Score,
}

/// What stones of a finished game are.
#[derive(Clone, Copy)]
pub enum Status {
    Alive,
    Dead,
    Seki,
}

/// What an analysis of the present position tells: of the game with the colour to move, or which stones have a status.
#[derive(Clone, Copy)]
pub enum Analysis {
    Game(Topic, Colour),
    Stones(Status),
}

/// The status that a word names.
pub(crate) fn read_status(word: &[u8]) -> Option<Status>
    ensures some { IfSome result (λ status. word.now ≡ status_word status) }
    ensures none { IfNone result ((status : Status) → word.now ≢ status_word status) }
{
    if word == b"alive".as_slice() {
        return Some(Status::Alive);
    }
    if word == b"dead".as_slice() {
        return Some(Status::Dead);
    }
    if word == b"seki".as_slice() {
        return Some(Status::Seki);
    }
    None
}
