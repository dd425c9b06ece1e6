//! Sessions of the engine.

use crate::asserts::none_wrong;
use crate::endings::Ends;
use crate::runs::{Failing, FailingRow, NOTHING_FAILS, first_failing_wrong, is_right};
use std::alloc::{AllocError, Global};

const LOADED: &[u8] =
    b"1 protocol_version\nloadsgf c\ngenmove b\nplay w e2\nplay b pass\nplay w pass\ngenmove b\ngenmove w\ngenmove b\n\
    genmove b\ngenmove w\nquit\nname\n";

const LOADED_TEXT: &str =
    "=1 2\n\n= \n\n= E2\n\n? illegal move\n\n? not in turn\n\n= \n\n= pass\n\n= pass\n\n= pass\n\n? not in turn\n\n= resign\n\n= \n\n";

const FRESH: &[u8] = b"genmove b\nboardsize 26\nloadsgf nothing\nfrob\nkomi\nknown_command half\n";

const FRESH_TEXT: &str =
    "? cannot solve\n\n? unacceptable size\n\n? cannot load file\n\n? unknown command\n\n? syntax error\n\n= false\n\n";

const NO_FIRST_LOAD: Failing = Failing {
    load: 0,
    ..NOTHING_FAILS
};

const NO_SECOND_READ: Failing = Failing {
    read: 1,
    ..NOTHING_FAILS
};

const NO_SECOND_WRITE: Failing = Failing {
    write: 1,
    ..NOTHING_FAILS
};

/// Sessions of the engine.
static SESSIONS: [FailingRow; 8] = [
    ("gtp", LOADED, 500, NOTHING_FAILS, Ends::Done, LOADED_TEXT),
    ("gtp", FRESH, 500, NOTHING_FAILS, Ends::Done, FRESH_TEXT),
    (
        "gtp~--positions~1~--parts~1",
        b"loadsgf c\ngenmove b",
        500,
        NOTHING_FAILS,
        Ends::Done,
        "= \n\n? cannot solve\n\n",
    ),
    (
        "gtp",
        b"loadsgf c\nloadsgf c\n",
        500,
        NO_FIRST_LOAD,
        Ends::Done,
        "? cannot load file\n\n= \n\n",
    ),
    (
        "gtp",
        b"2 name\nversion\n",
        500,
        NO_SECOND_READ,
        Ends::CannotRead,
        "=2 gdsolve\n\nfault cannot read\n",
    ),
    (
        "gtp",
        b"name\nversion\n",
        500,
        NO_SECOND_WRITE,
        Ends::CannotWrite,
        "= gdsolve\n\n",
    ),
    (
        "gtp",
        b"name\n",
        5,
        NOTHING_FAILS,
        Ends::CannotWrite,
        "= gds",
    ),
    (
        "gtp~c",
        b"name\n",
        500,
        NOTHING_FAILS,
        Ends::Usage,
        "fault usage\n",
    ),
];

#[test]
fn answers_the_lines(rt: HostRuntime) {
    none_wrong(&rt, first_failing_wrong(rt.alloc(), &SESSIONS));
}

/// Empty lines, what stands behind them, how the session ends, and what is written.
type Blanks = (usize, &'static [u8], Ends, &'static str);

static MANY_LINES: [Blanks; 4] = [
    (9_999, b"", Ends::Done, ""),
    (9_999, b"quit\nname\n", Ends::Done, "= \n\n"),
    (
        9_999,
        b"name",
        Ends::TooManyLines,
        "= gdsolve\n\nfault lines\n",
    ),
    (10_000, b"quit\n", Ends::TooManyLines, "fault lines\n"),
];

/// So many empty lines and what stands behind them.
fn lines_of(alloc: Global, blanks: usize, last: &[u8]) -> Result<Vec<u8>, AllocError> {
    let mut lines = vec![in alloc; b'\n'; blanks]?;
    lines.extend_from_slice(last)?;
    Ok(lines)
}

/// Whether the engine answers them so.
fn is_answered(alloc: Global, row: &Blanks) -> bool {
    match lines_of(alloc, row.0, row.1) {
        Ok(lines) => is_right(
            alloc,
            "gtp",
            &lines,
            500,
            NOTHING_FAILS,
            row.2,
            row.3.as_bytes(),
        ),
        Err(_error) => false,
    }
}

/// The first of these sessions that comes to something else.
fn wrong_session(alloc: Global) -> Option<usize> {
    for (at, row) in MANY_LINES.iter().enumerate() {
        if !is_answered(alloc, row) {
            return Some(at);
        }
    }
    None
}

#[test]
fn reads_ten_thousand_lines(rt: HostRuntime) {
    none_wrong(&rt, wrong_session(rt.alloc()));
}
