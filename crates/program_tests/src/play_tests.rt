//! Games over lines in memory.

ghost use Rattle.std.specs.Prelude.{◌≤◌};

use crate::asserts::{all_won, none_wrong};
use crate::endings::{Ends, status_by};
use crate::every_line::games_won;
use crate::runs::{
    Failing, FailingRow, NOTHING_FAILS, first_failing_wrong, is_right, is_right_in_pieces,
};
use std::alloc::{AllocError, Global};

/// The lines of a whole game on `.X.X.O.O.` / `XXXXXOOOO`, Black the engine and to move.
const LINES: &[u8] = b"ea\nea\naa\nhello\nhalf\nspend\nspend";

const GAME: &str =
    "engine ea\nrefused occupied\nrefused occupied\nrefused not contested\nrefused line\nrefused no half\n\
    played spend\nengine spend\nplayed spend\nengine spend\nwinner black\n";

const UNFINISHED: &str = "engine ea\nrefused occupied\nplayed spend\nengine spend\ninput ended\n";

const AS_BLACK: &str = "play~c~--as~black";

const READ_FAILS: Failing = Failing {
    read: 0,
    ..NOTHING_FAILS
};

const NO_SECOND_READ: Failing = Failing {
    read: 1,
    ..NOTHING_FAILS
};

const NO_SECOND_WRITE: Failing = Failing {
    write: 1,
    ..NOTHING_FAILS
};

/// Games over the lines of the source.
static GAMES: [FailingRow; 9] = [
    (
        AS_BLACK,
        b"spend\nspend\n",
        500,
        NO_SECOND_READ,
        Ends::CannotRead,
        "engine ea\nplayed spend\nengine spend\nfault cannot read\n",
    ),
    (AS_BLACK, LINES, 500, NOTHING_FAILS, Ends::Done, GAME),
    ("play~c", LINES, 500, NOTHING_FAILS, Ends::Done, GAME),
    (
        AS_BLACK,
        b"ea\nspend\n",
        500,
        NOTHING_FAILS,
        Ends::Done,
        UNFINISHED,
    ),
    (
        AS_BLACK,
        LINES,
        500,
        READ_FAILS,
        Ends::CannotRead,
        "engine ea\nfault cannot read\n",
    ),
    (
        AS_BLACK,
        LINES,
        500,
        NO_SECOND_WRITE,
        Ends::CannotWrite,
        "engine ea\n",
    ),
    (
        AS_BLACK,
        LINES,
        16,
        READ_FAILS,
        Ends::CannotWrite,
        "engine ea\nfault ",
    ),
    (
        "play~b~--positions~8",
        LINES,
        500,
        NOTHING_FAILS,
        Ends::RegionLimit,
        "fault region ea positions over 8\n",
    ),
    (
        "play~c~--as~white~--turn~black",
        b"ea\nspend\n",
        500,
        NOTHING_FAILS,
        Ends::Done,
        "played ea\nengine spend\nplayed spend\nengine spend\ninput ended\n",
    ),
];

#[test]
fn plays_over_the_lines(rt: HostRuntime) {
    none_wrong(&rt, first_failing_wrong(rt.alloc(), &GAMES));
}

/// Lines, and the text of the game over them.
static LINES_IN_PIECES: [(&[u8], &str); 2] = [
    (LINES, GAME),
    (
        b"\x0b spend\t\r\n\nSpend\nspend half\n  spend",
        "engine ea\nplayed spend\nengine spend\nrefused line\nrefused line\nrefused line\n\
        played spend\nengine spend\nwinner black\n",
    ),
];

/// Whether lines in pieces of a size give a text.
fn is_taken(alloc: Global, lines: &[u8], piece: usize, text: &str) -> bool
    requires { 1 ≤ piece }
{
    is_right_in_pieces(
        alloc,
        AS_BLACK,
        lines,
        piece,
        500,
        NOTHING_FAILS,
        Ends::Done,
        text.as_bytes(),
    )
}

/// The first of the lines that don't give their text in pieces of a size.
fn wrong_lines(alloc: Global, piece: usize) -> Option<usize>
    requires { 1 ≤ piece }
{
    for (at, row) in LINES_IN_PIECES.iter().enumerate() {
        if !is_taken(alloc, row.0, piece, row.1) {
            return Some(at);
        }
    }
    None
}

#[test]
fn takes_lines_in_pieces(rt: HostRuntime) {
    none_wrong(&rt, wrong_lines(rt.alloc(), 1));
    none_wrong(&rt, wrong_lines(rt.alloc(), 2));
    none_wrong(&rt, wrong_lines(rt.alloc(), 100));
    none_wrong(&rt, wrong_lines(rt.alloc(), 1000));
}

/// Appends the text so many times.
pub(crate) fn append(bytes: &mut Vec<u8>, text: &[u8], count: usize) -> Result<(), AllocError> {
    for _ in 0..count {
        bytes.extend_from_slice(text)?;
    }
    Ok(())
}

const WHOLE: &str = "engine ea\nplayed spend\nengine spend\ninput ended\n";

const CUT: &str = "engine ea\nplayed spend\nengine spend\nrefused line\ninput ended\n";

/// Numbers of blanks behind `spend`, and the text. What is left of a line that was cut is a line of its own.
static BLANKS: [(usize, &str); 3] = [(250, WHOLE), (251, CUT), (252, CUT)];

/// Appends `spend` with so many blanks behind it.
fn append_spend(lines: &mut Vec<u8>, blanks: usize) -> Result<(), AllocError> {
    append(lines, b"spend", 1)?;
    append(lines, b" ", blanks)?;
    append(lines, b"\n", 1)
}

/// Whether that gives the text.
fn is_cut_so(alloc: Global, lines: &mut Vec<u8>, blanks: usize, text: &str) -> bool {
    append_spend(lines, blanks) == Ok(()) && is_taken(alloc, lines, 7, text)
}

/// The first of the numbers of blanks that gives another text.
fn wrong_blanks(alloc: Global) -> Option<usize> {
    for (at, row) in BLANKS.iter().enumerate() {
        if !is_cut_so(alloc, &mut Vec::new(alloc), row.0, row.1) {
            return Some(at);
        }
    }
    None
}

#[test]
fn a_line_is_cut_after_256_bytes(rt: HostRuntime) {
    none_wrong(&rt, wrong_blanks(rt.alloc()));
}

/// Appends what is written where so many lines are refused.
fn append_refusals(text: &mut Vec<u8>, count: usize) -> Result<(), AllocError> {
    append(text, b"engine ea\n", 1)?;
    append(text, b"refused line\n", count)?;
    append(text, b"fault lines\n", 1)
}

/// Whether the game goes so.
fn has_too_many_lines(alloc: Global, lines: &mut Vec<u8>, text: &mut Vec<u8>) -> bool {
    append(lines, b"x\n", 10_000) == Ok(())
        && append_refusals(text, 10_000) == Ok(())
        && is_right(
            alloc,
            AS_BLACK,
            lines,
            200_000,
            NOTHING_FAILS,
            Ends::TooManyLines,
            text,
        )
}

/// The same of new lines and a new text.
fn ends_at_ten_thousand(alloc: Global) -> bool {
    has_too_many_lines(alloc, &mut Vec::new(alloc), &mut Vec::new(alloc))
}

#[test]
fn reads_ten_thousand_lines(rt: HostRuntime) {
    assert!(rt; ends_at_ten_thousand(rt.alloc()));
    assert!(rt; status_by(Ends::TooManyLines).code() == 9);
}

/// What the opponent may try at each turn.
static TRIES: [&[u8]; 5] = [b"eb\n", b"fb\n", b"gb\n", b"spend\n", b"half\n"];

#[test]
fn an_engine_that_wins_never_loses(rt: HostRuntime) {
    let alloc = rt.alloc();
    all_won(&rt, games_won(alloc, "play~f", &TRIES, b"winner black"), 4);
    let words = "play~d~--turn~white~--as~black";
    all_won(&rt, games_won(alloc, words, &TRIES, b"winner black"), 4);
}
