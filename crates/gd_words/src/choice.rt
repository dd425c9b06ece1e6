//! The options of the command line.

ghost use Rattle.std.specs.Prelude.{◌≡◌, IfSome, IfNone};
ghost use Rattle.gd_words.specs.Choice.{IsChoice};
ghost use Rattle.gd_words.specs.declared.choice.Choice.{Choice};

use crate::value::{read_answer, read_colour, read_count};
use go_grid::Colour;
use local_graph::MOST_POSITIONS;
use sgf_go::{MOST_PRISONERS, read_komi};

/// The most moves before the end of the line that an option may say.
pub const MOST_MOVES: u32 = 999_999;

/// The most parts of a form that an option may allow.
pub const MOST_PARTS: u32 = 4_000;

/// An option with its value.
#[derive(Clone, Copy)]
pub(crate) enum Choice {
    /// The komi in half-points.
    Komi(i64),
    Turn(Colour),
    After(u32),
    BlackPrisoners(u32),
    WhitePrisoners(u32),
    Positions(u32),
    Parts(u32),
    Engine(Colour),
    /// Whether there is a tax of two points for each group.
    Tax(bool),
    /// Whether the points that a file marks are declared.
    Territory(bool),
    /// Whether regions may have cycles.
    Cycles(bool),
    /// Whether the engine keeps a board.
    KeepBoard(bool),
}

/// The option that a name and a value say.
pub(crate) fn read_choice(name: &str, value: &str) -> Option<Choice>
    ensures some { IfSome result (λ choice. IsChoice name.now value.now choice) }
    ensures none { IfNone result ((choice : Choice) → ¬ IsChoice name.now value.now choice) }
{
    match name {
        "--komi" => Some(Choice::Komi(read_komi(value.as_bytes())?)),
        "--turn" => Some(Choice::Turn(read_colour(value)?)),
        "--after" => Some(Choice::After(read_count(0, MOST_MOVES, value)?)),
        "--black-prisoners" => Some(Choice::BlackPrisoners(read_count(0, MOST_PRISONERS, value)?)),
        "--white-prisoners" => Some(Choice::WhitePrisoners(read_count(0, MOST_PRISONERS, value)?)),
        "--positions" => Some(Choice::Positions(read_count(1, MOST_POSITIONS, value)?)),
        "--parts" => Some(Choice::Parts(read_count(1, MOST_PARTS, value)?)),
        "--as" => Some(Choice::Engine(read_colour(value)?)),
        "--tax" => Some(Choice::Tax(read_answer(value)?)),
        "--territory" => Some(Choice::Territory(read_answer(value)?)),
        "--cycles" => Some(Choice::Cycles(read_answer(value)?)),
        "--board" => Some(Choice::KeepBoard(read_answer(value)?)),
        _ => None,
    }
}
