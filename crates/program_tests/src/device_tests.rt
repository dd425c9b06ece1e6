//! Devices that fail, and files that are cut.

use crate::asserts::{none_wrong, nowhere_wrong};
use crate::endings::Ends;
use crate::files::{COPY, ONE_POINT, shelf};
use crate::run_tests::{ONE_POINT_TEXT, POINT_SAFE, SEVEN_TEXT};
use crate::runs::{Failing, NEVER, NOTHING_FAILS, are_right, is_right, is_right_in_pieces};
use crate::write_counts::{Counts, counts};
use desk_io::MemoryShelf;
use sgf_tree::TreeFault;
use std::alloc::Global;

/// One contested point, worth nothing but the move.
const POINT_VALUES: &str =
    "regions 1\nregion ea points 1 positions 3\nvalue *\nstops 0 0\nmean 0\ntemperature 0\n\
    left 0:0\nright 0:0\n";

const NO_READ: &str = "fault cannot read\n";

const NO_LOAD_FIRST: Failing = Failing {
    load: 0,
    ..NOTHING_FAILS
};

const NO_LOAD_AGAIN: Failing = Failing {
    load: 1,
    ..NOTHING_FAILS
};

const NO_READ_FIRST: Failing = Failing {
    read: 0,
    ..NOTHING_FAILS
};

const NO_WRITE_FIRST: Failing = Failing {
    write: 0,
    ..NOTHING_FAILS
};

/// The commands that write one text, and that text for one contested point.
static TEXTS: [(&str, &str); 3] = [
    ("solve", ONE_POINT_TEXT),
    ("safe", POINT_SAFE),
    ("values", POINT_VALUES),
];

/// The name of a file, the calls that fail, how the run ends, and what is written where it isn't the command's text.
static FAILING_CALLS: [(&str, Failing, Ends, Option<&str>); 6] = [
    ("c", NO_LOAD_FIRST, Ends::CannotRead, Some(NO_READ)),
    ("c", NO_LOAD_AGAIN, Ends::Done, None),
    ("-", NO_LOAD_FIRST, Ends::Done, None),
    ("c", NO_READ_FIRST, Ends::Done, None),
    ("c", NO_WRITE_FIRST, Ends::CannotWrite, Some("")),
    ("nowhere", NOTHING_FAILS, Ends::CannotRead, Some(NO_READ)),
];

/// Whether a command on a file ends and writes so.
fn ends_so(
    alloc: Global,
    words: &[&str],
    failing: Failing,
    ends: Ends,
    told: Option<&str>,
    whole: &str,
) -> bool {
    let text = match told {
        Some(text) => text.as_bytes(),
        None => whole.as_bytes(),
    };
    are_right(alloc, words, ONE_POINT, 7, 500, failing, ends, text)
}

/// The first of the calls that a command doesn't answer so.
fn wrong_call(alloc: Global, command: &str, whole: &str) -> Option<usize> {
    for (at, row) in FAILING_CALLS.iter().enumerate() {
        if !ends_so(alloc, &[command, row.0], row.1, row.2, row.3, whole) {
            return Some(at);
        }
    }
    None
}

/// The first of the commands that doesn't answer some call so, and the call.
fn wrong_command(alloc: Global) -> Option<(usize, usize)> {
    for (at, row) in TEXTS.iter().enumerate() {
        if let Some(call) = wrong_call(alloc, row.0, row.1) {
            return Some((at, call));
        }
    }
    None
}

#[test]
fn calls_that_fail_are_told(rt: HostRuntime) {
    nowhere_wrong(&rt, wrong_command(rt.alloc()));
}

/// Whether a command over the source fails with this read.
fn fails_with_read(alloc: Global, words: &str, read: u64) -> bool {
    let failing = Failing {
        read,
        ..NOTHING_FAILS
    };
    let (ends, text) = (Ends::CannotRead, NO_READ.as_bytes());
    is_right(alloc, words, ONE_POINT, 500, failing, ends, text)
}

/// The first read with which a command over the source doesn't fail. Seven reads give the file, and the eighth its end.
fn wrong_read(alloc: Global, words: &str) -> Option<u64> {
    for read in 0..8 {
        if !fails_with_read(alloc, words, read) {
            return Some(read);
        }
    }
    None
}

/// Whether a command over the source fails with each of its reads, and ends with the text where none fails.
fn fails_with_each_read(alloc: Global, words: &str, text: &str) -> bool {
    let (ends, text) = (Ends::Done, text.as_bytes());
    wrong_read(alloc, words) == None
        && is_right_in_pieces(alloc, words, ONE_POINT, 1, 500, NOTHING_FAILS, ends, text)
}

#[test]
fn reads_that_fail_are_told(rt: HostRuntime) {
    let alloc = rt.alloc();
    assert!(rt; fails_with_each_read(alloc, "solve~-", ONE_POINT_TEXT));
    assert!(rt; fails_with_each_read(alloc, "safe~-", POINT_SAFE));
    assert!(rt; fails_with_each_read(alloc, "values~-", POINT_VALUES));
}

/// Runs whose text the sink has no room for.
static CUT_RUNS: [(&str, &[u8], &str); 6] = [
    ("trial~7", b"", SEVEN_TEXT),
    ("solve~c", b"", ONE_POINT_TEXT),
    ("safe~c", b"", POINT_SAFE),
    ("values~c", b"", POINT_VALUES),
    ("solve~-", b"(;SZ[6])", "fault region aa points 36\n"),
    (
        "play~c",
        b"ea\nspend\n",
        "engine ea\nrefused occupied\nplayed spend\nengine spend\ninput ended\n",
    ),
];

/// Whether the sink has the front part of the text that it has room for.
fn has_front(alloc: Global, words: &str, file: &[u8], front: &[u8]) -> bool {
    let ends = Ends::CannotWrite;
    is_right(alloc, words, file, front.len(), NOTHING_FAILS, ends, front)
}

/// The first room below the length of the text for which that isn't so.
fn wrong_room(alloc: Global, words: &str, file: &[u8], text: &[u8]) -> Option<usize> {
    for room in 0..text.len() {
        if !has_front(alloc, words, file, &text[..room]) {
            return Some(room);
        }
    }
    None
}

/// The first of the runs with such a room, and the room.
fn wrong_front(alloc: Global) -> Option<(usize, usize)> {
    for (at, row) in CUT_RUNS.iter().enumerate() {
        if let Some(room) = wrong_room(alloc, row.0, row.1, row.2.as_bytes()) {
            return Some((at, room));
        }
    }
    None
}

#[test]
fn a_full_sink_has_a_front_part(rt: HostRuntime) {
    nowhere_wrong(&rt, wrong_front(rt.alloc()));
}

/// The read and the write of the same game that fail, how the run ends and what is written.
type CutGame = (u64, u64, Ends, &'static str);

static CUT_GAMES: [CutGame; 8] = [
    (NEVER, 0, Ends::CannotWrite, ""),
    (NEVER, 1, Ends::CannotWrite, "engine ea\n"),
    (NEVER, 2, Ends::CannotWrite, "engine ea\nrefused occupied\n"),
    (
        NEVER,
        3,
        Ends::CannotWrite,
        "engine ea\nrefused occupied\nplayed spend\n",
    ),
    (
        NEVER,
        4,
        Ends::CannotWrite,
        "engine ea\nrefused occupied\nplayed spend\nengine spend\n",
    ),
    (0, NEVER, Ends::CannotRead, "engine ea\nfault cannot read\n"),
    (
        1,
        NEVER,
        Ends::CannotRead,
        "engine ea\nrefused occupied\nfault cannot read\n",
    ),
    (
        2,
        NEVER,
        Ends::CannotRead,
        "engine ea\nrefused occupied\nplayed spend\nengine spend\nfault cannot read\n",
    ),
];

/// Whether the game goes so.
fn is_cut_so(alloc: Global, row: &CutGame) -> bool {
    let failing = Failing {
        read: row.0,
        write: row.1,
        ..NOTHING_FAILS
    };
    let text = row.3.as_bytes();
    is_right(alloc, "play~c", b"ea\nspend\n", 500, failing, row.2, text)
}

/// The first of the games that doesn't go so.
fn wrong_game(alloc: Global) -> Option<usize> {
    for (at, row) in CUT_GAMES.iter().enumerate() {
        if !is_cut_so(alloc, row) {
            return Some(at);
        }
    }
    None
}

#[test]
fn a_session_is_written_turn_by_turn(rt: HostRuntime) {
    none_wrong(&rt, wrong_game(rt.alloc()));
}

/// Words outside the grammar.
static FAULTY_WORDS: [&str; 12] = [
    "",
    "solve",
    "solve~c~--komi",
    "solve~c~--komi~0.25",
    "solve~c~--parts~0",
    "solve~c~--turn~red",
    "solve~c~--turn~black~--turn~white",
    "solve~c~--as~black",
    "safe~c~--parts~5",
    "play~-",
    "trial~x",
    "mend~c",
];

/// Whether the words are refused, and nothing is written where the first write fails.
fn are_refused(alloc: Global, words: &str) -> bool {
    let usage = b"fault usage\n";
    is_right(
        alloc,
        words,
        b"",
        500,
        NO_WRITE_FIRST,
        Ends::CannotWrite,
        b"",
    ) && is_right(alloc, words, b"", 500, NOTHING_FAILS, Ends::Usage, usage)
}

/// The first of the words that aren't refused so.
fn wrong_words(alloc: Global) -> Option<usize> {
    for (at, words) in FAULTY_WORDS.iter().enumerate() {
        if !are_refused(alloc, words) {
            return Some(at);
        }
    }
    None
}

#[test]
fn faulty_words_on_a_failing_sink_write_nothing(rt: HostRuntime) {
    none_wrong(&rt, wrong_words(rt.alloc()));
}

/// Whether a file has this fault in its tree.
fn has_tree_fault(alloc: Global, file: &[u8], fault: TreeFault, text: &[u8]) -> bool {
    let ends = Ends::BadTree(fault);
    is_right(alloc, "solve~-", file, 500, NOTHING_FAILS, ends, text)
}

/// Whether the file is no tree or cut short after so many bytes.
fn is_cut_short(alloc: Global, file: &[u8]) -> bool {
    // The tree begins with the two bytes behind the first line.
    if file.len() < 20 {
        return has_tree_fault(alloc, file, TreeFault::NoTree, b"fault file no tree\n");
    }
    has_tree_fault(alloc, file, TreeFault::CutShort, b"fault file cut short\n")
}

/// The first length at which a file isn't told to be cut.
fn wrong_length(alloc: Global, file: &[u8]) -> Option<usize> {
    for len in 0..file.len() {
        if !is_cut_short(alloc, &file[..len]) {
            return Some(len);
        }
    }
    None
}

#[test]
fn a_file_that_is_cut_is_told(rt: HostRuntime) {
    none_wrong(&rt, wrong_length(rt.alloc(), COPY));
}

static COUNTS: [Counts; 8] = [
    ("trial~7", 1, 6),
    ("solve~c", 1, 9),
    ("safe~c", 1, 9),
    ("values~c", 1, 8),
    ("solve~-", 1, 1),
    ("solve", 1, 1),
    ("play~nowhere", 1, 1),
    ("play~c", 5, 5),
];

/// The first row of the table of counts that isn't so, over a shelf that each run only reads.
fn wrong_counts_on(alloc: Global, shelf: &mut MemoryShelf) -> Option<usize> {
    for (at, row) in COUNTS.iter().enumerate() {
        if !counts(alloc, shelf, row) {
            return Some(at);
        }
    }
    None
}

/// The same over the shelf of the tests; the first row where there is no memory for it.
fn wrong_counts(alloc: Global) -> Option<usize> {
    match shelf(alloc, NEVER) {
        Ok(mut shelf) => wrong_counts_on(alloc, &mut shelf),
        Err(_error) => Some(0),
    }
}

#[test]
fn a_text_and_each_line_of_a_game_are_one_write(rt: HostRuntime) {
    none_wrong(&rt, wrong_counts(rt.alloc()));
}
