//! What the words of a line ask for.

ghost use Rattle.std.specs.Prelude.{◌≤◌, ◌+◌, ℕ, map, IfSome, IfNone};
ghost use Rattle.gtp_engine.specs.Request.{Asks, FitsArguments, FitsAlone, FitsOne, FitsTwo, Order};
ghost use Rattle.gtp_engine.specs.inner.Viewed.{asked_of, order_of};
ghost use Rattle.board_words.specs.Numbers.{IsNumberWord};

use crate::command::{Command, read_command};
use crate::moves::{Wanted, read_wanted};
use board_words::read_number;
use go_grid::Colour;
use gtp_words::read_colour;
use sgf_go::read_komi;

/// The greatest number of a file's move.
const LAST_MOVE: u64 = 1_000_000;

/// A command with its arguments.
#[derive(Clone, Copy)]
pub(crate) enum Request<'a> {
    ProtocolVersion,
    Name,
    Version,
    KnownCommand(&'a [u8]),
    ListCommands,
    BoardSize(u64),
    ClearBoard,
    /// The komi in half-points.
    Komi(i64),
    Play(Colour, Wanted),
    GenMove(Colour),
    /// A file, and how many of its moves are replayed, if not all.
    LoadSgf(&'a [u8], Option<u32>),
    Quit,
}

/// What words ask for.
#[derive(Clone, Copy)]
pub(crate) enum Asked<'a> {
    Something(Request<'a>),
    /// There is no such command.
    Unknown,
    /// The arguments don't fit the command.
    Misfit,
}

/// The request of a command without an argument.
fn alone<'a>(command: Command) -> Option<Request<'a>>
    ensures some { IfSome result (λ request. FitsAlone command (order_of request)) }
    ensures none { IfNone result ((order : Order) → ¬ FitsAlone command order) }
{
    match command {
        Command::ProtocolVersion => Some(Request::ProtocolVersion),
        Command::Name => Some(Request::Name),
        Command::Version => Some(Request::Version),
        Command::ListCommands => Some(Request::ListCommands),
        Command::ClearBoard => Some(Request::ClearBoard),
        Command::Quit => Some(Request::Quit),
        _ => None,
    }
}

/// The request of a command with one argument.
fn with_one<'a>(command: Command, word: &'a [u8]) -> Option<Request<'a>>
    ensures some { IfSome result (λ request. FitsOne command word.now (order_of request)) }
    ensures none { IfNone result ((order : Order) → ¬ FitsOne command word.now order) }
{
    match command {
        Command::KnownCommand => Some(Request::KnownCommand(word)),
        Command::BoardSize => Some(Request::BoardSize(read_number(word)?)),
        Command::Komi => Some(Request::Komi(read_komi(word)?)),
        Command::GenMove => Some(Request::GenMove(read_colour(word)?)),
        Command::LoadSgf => Some(Request::LoadSgf(word, None)),
        _ => None,
    }
}

/// How many moves come before the move of a number.
fn read_moves(word: &[u8]) -> Option<u32>
    ensures some { IfSome result (λ moves. IsNumberWord word.now (moves + 1)
        × (moves + 1 ≤ LAST_MOVE)) }
    ensures none { IfNone result ((moves : ℕ) → IsNumberWord word.now (moves + 1)
        → ¬ (moves + 1 ≤ LAST_MOVE)) }
{
    let number = read_number(word)?;
    if number < 1 || number > LAST_MOVE {
        return None;
    }
    Some((number - 1) as u32)
}

/// The request of a command with two arguments.
fn with_two<'a>(command: Command, first: &'a [u8], second: &[u8]) -> Option<Request<'a>>
    ensures some { IfSome result (λ request. FitsTwo command first.now second.now
        (order_of request)) }
    ensures none { IfNone result ((order : Order) → ¬ FitsTwo command first.now second.now order) }
{
    match command {
        Command::Play => Some(Request::Play(read_colour(first)?, read_wanted(second)?)),
        Command::LoadSgf => match read_moves(second) {
            Some(moves) => Some(Request::LoadSgf(first, Some(moves))),
            None => None,
        },
        _ => None,
    }
}

/// The request of a command with arguments.
fn fit<'a>(command: Command, arguments: &[&'a [u8]]) -> Option<Request<'a>>
    ensures some { IfSome result (λ request. FitsArguments command (map (λ w. w.now) arguments.now)
        (order_of request)) }
    ensures none { IfNone result ((order : Order)
        → ¬ FitsArguments command (map (λ w. w.now) arguments.now) order) }
{
    match arguments {
        [] => alone(command),
        [word] => with_one(command, word),
        [first, second] => with_two(command, first, second),
        _ => None,
    }
}

/// What words ask for.
pub(crate) fn read_asked<'a>(words: &[&'a [u8]]) -> Asked<'a>
    ensures { Asks (map (λ w. w.now) words.now) (asked_of result) }
{
    let [word, arguments @ ..] = words else {
        return Asked::Unknown;
    };
    let Some(command) = read_command(word) else {
        return Asked::Unknown;
    };
    match fit(command, arguments) {
        Some(request) => Asked::Something(request),
        None => Asked::Misfit,
    }
}
