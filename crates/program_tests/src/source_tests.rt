//! Files of the source.

use crate::asserts::none_wrong;
use crate::endings::{Ends, Wrong, is_ended};
use crate::files::{COPY, ONE_POINT, TIE};
use crate::play_tests::append;
use crate::run_tests::{HALF_TEXT, ONE_POINT_TEXT, TIE_TEXT, WHITE_TIE_TEXT};
use crate::runs::{
    NOTHING_FAILS, Outside, Row, begins_so, first_wrong, is_right, is_right_in_pieces, outside_of,
    status_over,
};
use desk_io::MemoryShelf;
use sgf_tree::TreeFault;
use std::alloc::{AllocError, Global};

const WIDE_TEXT: &str =
    "side black\npurse black 24\npurse white 0\nhalf none\nregions 0\npositions 0\nwinner black\nmove spend\n";

/// One point without a liberty for any stone.
const SINGLE_TEXT: &str = "side black\npurse black 0\npurse white 0\nhalf none\nregions 1\n\
    region aa points 1 positions 1\npositions 1\nwinner white\nmove none\n";

const OPEN_SAFE: &str =
    "chain ba black stones 1 open\nattack ca aa\ngroups black 0\ngroups white 0\nregion aa points 4\n";

const COPY_TEXT: &str = "side white\npurse black 3\npurse white 8\nhalf white\nregions 1\n\
    region ea points 1 positions 3\npositions 3\nwinner white\nmove ea\n";

/// Files of the source, whole and faulty.
static SOURCE_RUNS: [Row; 23] = [
    ("solve~-", TIE, Ends::Done, TIE_TEXT),
    (
        "solve~-",
        b"x(y(;SZ[8:2]AB[ba][da][ab:db]AW[ea][ga][eb:hb])",
        Ends::Done,
        TIE_TEXT,
    ),
    ("solve~-", b"(;SZ[01]AB[])", Ends::Done, SINGLE_TEXT),
    (
        "solve~-",
        b"(;SZ[25:25]AB[aa:yx][by])",
        Ends::Done,
        WIDE_TEXT,
    ),
    ("solve~-", ONE_POINT, Ends::Done, ONE_POINT_TEXT),
    ("solve~-", COPY, Ends::Done, COPY_TEXT),
    ("solve~-", b"(;SZ[1])", Ends::Done, SINGLE_TEXT),
    (
        "solve~-",
        b"(;SZ[6])",
        Ends::RegionLimit,
        "fault region aa points 36\n",
    ),
    (
        "solve~-",
        b"",
        Ends::BadTree(TreeFault::NoTree),
        "fault file no tree\n",
    ),
    (
        "solve~-",
        b"(;SZ[8:2]AB[ba",
        Ends::BadTree(TreeFault::CutShort),
        "fault file cut short\n",
    ),
    (
        "solve~-",
        b"(;SZ[9]]",
        Ends::BadTree(TreeFault::BadByte(7)),
        "fault file bad byte 7\n",
    ),
    (
        "solve~-",
        b"(;GM[2])",
        Ends::BadSetup(Wrong::Game),
        "fault file wrong game\n",
    ),
    (
        "solve~-",
        b"(;SZ[26])",
        Ends::BadSetup(Wrong::Size),
        "fault file bad size\n",
    ),
    (
        "solve~-",
        b"(;KM[6.75])",
        Ends::BadSetup(Wrong::Komi),
        "fault file bad komi\n",
    ),
    (
        "solve~-",
        b"(;SZ[3]AB[da])",
        Ends::BadSetup(Wrong::Point(0)),
        "fault file bad point at node 0\n",
    ),
    (
        "solve~-",
        b"(;PL[x])",
        Ends::BadSetup(Wrong::Side),
        "fault file bad side\n",
    ),
    (
        "solve~-",
        b"(;SZ[3];B[aa];W[aa])",
        Ends::BadSetup(Wrong::Occupied(2)),
        "fault file occupied at node 2\n",
    ),
    (
        "solve~-",
        b"(;SZ[2:2]AB[ba][ab];W[aa])",
        Ends::BadSetup(Wrong::Suicide(1)),
        "fault file suicide at node 1\n",
    ),
    (
        "solve~-",
        b"(;SZ[2:1]AB[aa]AW[ba])",
        Ends::BadSetup(Wrong::NoLiberty(0)),
        "fault file no liberty at aa\n",
    ),
    (
        "solve~-",
        b"(;SZ[8:2]AW[aa:hb]AB[ba][da][da][ab:db]AW[ea][ga][eb:hb])",
        Ends::BadSetup(Wrong::NoLiberty(0)),
        "fault file no liberty at aa\n",
    ),
    (
        "solve~-",
        b"(;SZ[8:2]AB[ba][da][ab:db]AW[ea][ga][eb:hb]PL[W])",
        Ends::Done,
        WHITE_TIE_TEXT,
    ),
    (
        "solve~-",
        b"(;SZ[8:2]AB[ba][da][ab:db]AW[ea][ga][eb:hb];B[];W[tt];B[])",
        Ends::Done,
        WHITE_TIE_TEXT,
    ),
    (
        "solve~-",
        b"(;SZ[8:2]KM[0.5]PL[W]AB[ba][da][ab:db]AW[ea][ga][eb:hb])",
        Ends::Done,
        HALF_TEXT,
    ),
];

#[test]
fn answers_files_of_the_source(rt: HostRuntime) {
    none_wrong(&rt, first_wrong(rt.alloc(), &SOURCE_RUNS));
}

/// Files of the source, and their chains.
static SOURCE_CHAINS: [Row; 4] = [
    ("safe~-", b"(;SZ[4:1]AB[ba])", Ends::Done, OPEN_SAFE),
    (
        "safe~-",
        b"(;SZ[6])",
        Ends::Done,
        "groups black 0\ngroups white 0\nregion aa points 36\n",
    ),
    (
        "safe~-",
        b"(;SZ[2:1]AB[aa]AW[ba])",
        Ends::BadSetup(Wrong::NoLiberty(0)),
        "fault file no liberty at aa\n",
    ),
    (
        "safe~-",
        b"",
        Ends::BadTree(TreeFault::NoTree),
        "fault file no tree\n",
    ),
];

#[test]
fn says_which_chains_of_the_source_are_alive(rt: HostRuntime) {
    none_wrong(&rt, first_wrong(rt.alloc(), &SOURCE_CHAINS));
}

/// How many trees are opened, what stands behind them, and the fault.
type Deep = (usize, &'static [u8], TreeFault, &'static str);

static DEEP: [Deep; 3] = [
    (1001, b"", TreeFault::TooDeep, "fault file too deep\n"),
    (1000, b"", TreeFault::CutShort, "fault file cut short\n"),
    (
        999,
        b"((",
        TreeFault::BadByte(1999),
        "fault file bad byte 1999\n",
    ),
];

/// Whether a file to which so many open trees and the rest are appended has the fault.
fn has_fault(alloc: Global, file: &mut Vec<u8>, row: &Deep) -> bool {
    append(file, b"(;", row.0) == Ok(())
        && append(file, row.1, 1) == Ok(())
        && is_right(
            alloc,
            "solve~-",
            file,
            200,
            NOTHING_FAILS,
            Ends::BadTree(row.2),
            row.3.as_bytes(),
        )
}

/// The first row that isn't so.
fn wrong_depth(alloc: Global) -> Option<usize> {
    for (at, row) in DEEP.iter().enumerate() {
        if !has_fault(alloc, &mut Vec::new(alloc), row) {
            return Some(at);
        }
    }
    None
}

#[test]
fn a_tree_too_deep_is_refused(rt: HostRuntime) {
    none_wrong(&rt, wrong_depth(rt.alloc()));
}

/// Adds a file of so many blanks to a shelf.
fn add_long(alloc: Global, shelf: &mut MemoryShelf, len: usize) -> Result<(), AllocError> {
    shelf.add("long", vec![in alloc; b' '; len]?)
}

/// Whether a file of so many blanks, on the shelf, ends so.
fn is_long_on(alloc: Global, outside: &mut Outside, len: usize, word: &str, ends: Ends) -> bool {
    add_long(alloc, &mut outside.shelf, len) == Ok(())
        && is_ended(status_over(alloc, &["solve", word], outside), ends)
}

/// The same where it is in the source too.
fn is_long_in(alloc: Global, file: &[u8], word: &str, ends: Ends) -> bool {
    match outside_of(alloc, file, 5000, 100, NOTHING_FAILS) {
        Ok(mut outside) => {
            let right = is_long_on(alloc, &mut outside, file.len(), word, ends);
            drop(outside);
            right
        }
        Err(_error) => false,
    }
}

/// The same of a new file of so many blanks, in the source and on the shelf.
fn is_long(alloc: Global, len: usize, ends: Ends) -> bool {
    match vec![in alloc; b' '; len] {
        Ok(file) => {
            is_long_in(alloc, &file, "-", ends) && is_long_in(alloc, &file, "long", ends)
        }
        Err(_error) => false,
    }
}

#[test]
fn a_file_too_long_is_refused(rt: HostRuntime) {
    assert!(rt; is_long(rt.alloc(), 1_048_577, Ends::TooLong));
    assert!(rt; is_long(rt.alloc(), 1_048_576, Ends::BadTree(TreeFault::NoTree)));
}

/// Whether the file, in pieces of 4,096 bytes, ends with the text.
fn is_read(alloc: Global, file: &[u8], ends: Ends, text: &[u8]) -> bool {
    is_right_in_pieces(alloc, "solve~-", file, 4096, 500, NOTHING_FAILS, ends, text)
}

/// Appends a file with a long comment.
fn append_comment(file: &mut Vec<u8>) -> Result<(), AllocError> {
    append(file, b"(;C[", 1)?;
    append(file, b"x", 1_048_570)?;
    append(file, b"])", 1)
}

/// Whether that file is read.
fn is_long_read(alloc: Global, file: &mut Vec<u8>) -> bool {
    append_comment(file) == Ok(())
        && is_read(
            alloc,
            file,
            Ends::RegionLimit,
            b"fault region aa points 361\n",
        )
}

/// Whether a file of many open trees is read.
fn is_deep_read(alloc: Global, file: &mut Vec<u8>) -> bool {
    let ends = Ends::BadTree(TreeFault::TooDeep);
    append(file, b"(;", 524_288) == Ok(()) && is_read(alloc, file, ends, b"fault file too deep\n")
}

/// Whether both are.
fn are_read(alloc: Global) -> bool {
    is_long_read(alloc, &mut Vec::new(alloc)) && is_deep_read(alloc, &mut Vec::new(alloc))
}

#[test]
fn long_files_are_read(rt: HostRuntime) {
    assert!(rt; are_read(rt.alloc()));
}

/// Whether the saved game, replayed as the words say, ends so, and what is written begins so.
fn is_replayed(alloc: Global, words: &[&str], ends: Ends, beginning: &[u8]) -> bool {
    match outside_of(alloc, COPY, 7, 500, NOTHING_FAILS) {
        Ok(mut outside) => {
            let right = begins_so(alloc, words, &mut outside, ends, beginning);
            drop(outside);
            right
        }
        Err(_error) => false,
    }
}

#[test]
fn a_game_is_replayed_as_far_as_asked(rt: HostRuntime) {
    let alloc = rt.alloc();
    // Before Black's first move the white stone at `ca` stands, and stones are taken back and forth.
    let first = ["solve", "-", "--after", "0"];
    assert!(rt; is_replayed(alloc, &first, Ends::Cycle, b"fault cycle aa "));
    let (third, text) = ("solve~-~--after~3", COPY_TEXT.as_bytes());
    assert!(rt; is_right(alloc, third, COPY, 500, NOTHING_FAILS, Ends::Done, text));
}
