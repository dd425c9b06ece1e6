//! Sessions of the engine over a shelf, a source and a sink in memory.

ghost use Rattle.std.specs.Prelude.{◌≤◌};

use crate::asserts::{all_won, none_wrong};
use crate::engine_lines::{Words, games_won};
use crate::engine_rooms::{Session, room_for, session_over};
use crate::runs::{Failing, NOTHING_FAILS, Outside};
use gtp_engine::GtpEnd;
use std::alloc::Global;

/// Whether a session over an outside ends and writes so.
fn ends_so(alloc: Global, outside: &mut Outside, end: GtpEnd, wants: &[u8]) -> bool {
    match session_over(alloc, outside) {
        Some(session) => session.end == end && outside.out.written() == wants,
        None => false,
    }
}

/// The same of a session over lines in pieces of a size.
fn is_answered(
    alloc: Global,
    text: &[u8],
    piece: usize,
    failing: Failing,
    end: GtpEnd,
    wants: &[u8],
) -> bool
    requires { 1 ≤ piece }
{
    match room_for(alloc, text, piece, failing) {
        Ok(mut outside) => {
            let right = ends_so(alloc, &mut outside, end, wants);
            drop(outside);
            right
        }
        Err(_error) => false,
    }
}

/// Lines, the end of the session and what is written.
static SESSIONS: [(&[u8], GtpEnd, &[u8]); 4] = [
    (
        b"1 protocol_version\nloadsgf c\ngenmove b\nplay w e2\nplay b pass\nplay w pass\ngenmove b\ngenmove w\n\
            genmove b\ngenmove b\ngenmove w\nquit\nname\n",
        GtpEnd::Quit,
        b"=1 2\n\n= \n\n= E2\n\n? illegal move\n\n? not in turn\n\n= \n\n= pass\n\n= pass\n\n= pass\n\n? not in turn\n\n\
            = resign\n\n= \n\n",
    ),
    (
        b"genmove b\nboardsize 26\nloadsgf e\nfrob\nkomi\nknown_command half",
        GtpEnd::InputEnded,
        b"? cannot solve\n\n? unacceptable size\n\n? cannot load file\n\n? unknown command\n\n? syntax error\n\n= false\n\n",
    ),
    (
        b"known_command\nboardsize\nkomi\nplay\nplay b\ngenmove\nloadsgf\nprotocol_version x\nname x\nversion x\n\
            known_command a b\nlist_commands x\nboardsize 9 9\nclear_board x\nkomi 1 2\nplay b a1 a1\ngenmove b b\n\
            loadsgf c 1 1\nquit x\nboardsize x\nkomi x\nplay x a1\nplay b i1\nplay b a01\nplay b a26\ngenmove x\n\
            loadsgf c x\nloadsgf c 0\n",
        GtpEnd::InputEnded,
        b"? syntax error\n\n? syntax error\n\n? syntax error\n\n? syntax error\n\n? syntax error\n\n\
            ? syntax error\n\n? syntax error\n\n? syntax error\n\n? syntax error\n\n? syntax error\n\n\
            ? syntax error\n\n? syntax error\n\n? syntax error\n\n? syntax error\n\n? syntax error\n\n\
            ? syntax error\n\n? syntax error\n\n? syntax error\n\n? syntax error\n\n? syntax error\n\n\
            ? syntax error\n\n? syntax error\n\n? syntax error\n\n? syntax error\n\n? syntax error\n\n\
            ? syntax error\n\n? syntax error\n\n? syntax error\n\n",
    ),
    (
        b"loadsgf c 1000001\n\t \n# name\n7\n12345678901 name\n007\tna\x01me # x\nboardsize 00000000002\nplay b z25\nkomi .5\n\
            KOMI 1\nknown_command quit\n",
        GtpEnd::InputEnded,
        b"? syntax error\n\n?7 unknown command\n\n? unknown command\n\n=007 gdsolve\n\n? syntax error\n\n? cannot solve\n\n\
            = \n\n? unknown command\n\n= true\n\n",
    ),
];

/// The first row that isn't answered so where the lines come in pieces of a size.
fn first_wrong(alloc: Global, piece: usize) -> Option<usize>
    requires { 1 ≤ piece }
{
    for (at, row) in SESSIONS.iter().enumerate() {
        if !is_answered(alloc, row.0, piece, NOTHING_FAILS, row.1, row.2) {
            return Some(at);
        }
    }
    None
}

#[test]
fn answers_lines(rt: HostRuntime) {
    none_wrong(&rt, first_wrong(rt.alloc(), 1));
    none_wrong(&rt, first_wrong(rt.alloc(), 7));
    none_wrong(&rt, first_wrong(rt.alloc(), 5_000));
}

/// Whether a session with one call that fails ends so, after one answer.
fn ends_at_fault(alloc: Global, failing: Failing, end: GtpEnd) -> bool {
    is_answered(alloc, b"name\nname\n", 5, failing, end, b"= gdsolve\n\n")
}

const NO_SECOND_READ: Failing = Failing {
    read: 1,
    ..NOTHING_FAILS
};

const NO_SECOND_WRITE: Failing = Failing {
    write: 1,
    ..NOTHING_FAILS
};

#[test]
fn ends_at_faults(rt: HostRuntime) {
    assert!(rt; ends_at_fault(rt.alloc(), NO_SECOND_READ, GtpEnd::ReadFault));
    assert!(rt; ends_at_fault(rt.alloc(), NO_SECOND_WRITE, GtpEnd::WriteFault));
}

const NO_SECOND_LOAD: Failing = Failing {
    load: 1,
    ..NOTHING_FAILS
};

/// Loads, of which the second fails, and one of a name that is no text.
const LOADS: &[u8] = b"loadsgf c\nloadsgf c 1\ngenmove w\nloadsgf c\nloadsgf \xff\n";

const LOADED: &[u8] = b"= \n\n? cannot load file\n\n= E2\n\n= \n\n? cannot load file\n\n";

/// Whether a session had three loads, of which the second failed, and went to the end of the input.
fn has_loads(session: Session) -> bool {
    session.end == GtpEnd::InputEnded
        && session.loads == 3
        && session.failed == 1
        && session.first_failed == Some(1)
}

/// Whether a session over these loads comes to that, and writes this.
fn notes_loads(alloc: Global, outside: &mut Outside) -> bool {
    match session_over(alloc, outside) {
        Some(session) => has_loads(session) && outside.out.written() == LOADED,
        None => false,
    }
}

/// The same over the shelf of these tests.
fn are_loads_noted(alloc: Global) -> bool {
    match room_for(alloc, LOADS, 64, NO_SECOND_LOAD) {
        Ok(mut outside) => {
            let right = notes_loads(alloc, &mut outside);
            drop(outside);
            right
        }
        Err(_error) => false,
    }
}

#[test]
fn notes_failed_loads(rt: HostRuntime) {
    assert!(rt; are_loads_noted(rt.alloc()));
}

/// Whether a session over so many empty lines ends so and writes nothing.
fn is_silent(alloc: Global, count: usize, end: GtpEnd) -> bool {
    match vec![in alloc; b'\n'; count] {
        Ok(text) => is_answered(alloc, &text, 4_096, NOTHING_FAILS, end, b""),
        Err(_error) => false,
    }
}

#[test]
fn ends_after_ten_thousand_lines(rt: HostRuntime) {
    assert!(rt; is_silent(rt.alloc(), 9_999, GtpEnd::InputEnded));
    assert!(rt; is_silent(rt.alloc(), 10_000, GtpEnd::TooManyLines));
}

const WHITE: Words<'static> = Words {
    generate: b"genmove w",
    play: b"play b ",
};

const BLACK: Words<'static> = Words {
    generate: b"genmove b",
    play: b"play w ",
};

#[test]
fn wins_against_every_line(rt: HostRuntime) {
    all_won(&rt, games_won(rt.alloc(), b"loadsgf corridor", WHITE), 4);
    all_won(&rt, games_won(rt.alloc(), b"loadsgf atari", BLACK), 4);
}
