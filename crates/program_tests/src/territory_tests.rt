//! Points that a file marks, with the option that declares them and without it, and the texts of declared points.

ghost use Rattle.go_grid.specs.Chain.{IsSettled};

use crate::asserts::none_wrong;
use crate::endings::{Ends, Wrong};
use crate::files::{TWICE, WALLS};
use crate::run_tests::TIE_TEXT;
use crate::runs::{Row, first_wrong};
use drawings::declared_board;
use go_grid::{Board, Colour};
use report::{Terms, board_text, safe_text};
use std::alloc::Global;

/// `X.O..O.`: the three points behind Black's stone are marked for Black, and the next one for White.
const MARKED: &[u8] = b"(;SZ[7:1]AB[aa]AW[ca][fa]TB[ba:da]TW[ea])";

const MARKED_BOARD: &str =
    "size 7 1\nside black\nkomi 0\nprisoners black 0\nprisoners white 0\nrow X.O..O.\n";

const TWICE_SAFE: &str = "groups black 0\ngroups white 0\nregion aa points 9\n";

/// Marks that aren't asked for, files without marks, and words in and outside the grammar.
static UNMARKED: [Row; 9] = [
    ("board~-", MARKED, Ends::Done, MARKED_BOARD),
    ("board~-~--territory~no", MARKED, Ends::Done, MARKED_BOARD),
    ("safe~-", TWICE, Ends::Done, TWICE_SAFE),
    ("solve~a~--territory~yes", b"", Ends::Done, TIE_TEXT),
    (
        "solve~a~--territory~yes~--tax~no",
        b"",
        Ends::Done,
        TIE_TEXT,
    ),
    (
        "solve~a~--territory~yes~--tax~yes",
        b"",
        Ends::Usage,
        "fault usage\n",
    ),
    ("safe~a~--territory~2", b"", Ends::Usage, "fault usage\n"),
    (
        "gtp~--territory~yes",
        b"loadsgf c\ngenmove b\n",
        Ends::Done,
        "= \n\n= E2\n\n",
    ),
    (
        "gtp~--tax~no~--territory~yes",
        b"",
        Ends::Usage,
        "fault usage\n",
    ),
];

#[test]
fn declares_what_is_asked_for(rt: HostRuntime) {
    none_wrong(&rt, first_wrong(rt.alloc(), &UNMARKED));
}

const SEALED_BOARD: &str =
    "size 7 1\nside black\nkomi 0\nprisoners black 2\nprisoners white 1\nrow XbbXOO.\n";

const TOUCHING: &[u8] = b"(;SZ[6:3]TB[aa:cc]TW[da:fc])";

const TOUCHING_BOARD: &str = "size 6 3\nside black\nkomi 0\nprisoners black 3\nprisoners white 5\n\
    row bbXOww\nrow bbXOww\nrow bbXOww\n";

const TOUCHING_SAFE: &str = "chain ca black stones 3 alive\nchain da white stones 3 alive\n\
    counted aa black points 6 held 6\ncounted ea white points 6 held 6\n\
    groups black 1\ngroups white 1\n";

const WHOLE_TEXT: &str =
    "side black\npurse black 9\npurse white 0\nhalf none\nregions 0\npositions 0\n\
    winner black\nmove spend\n";

/// Files with marks that are asked for.
static SEALED: [Row; 11] = [
    ("board~-~--territory~yes", MARKED, Ends::Done, SEALED_BOARD),
    (
        "board~-~--territory~yes~--white-prisoners~2",
        TOUCHING,
        Ends::Done,
        TOUCHING_BOARD,
    ),
    (
        "safe~-~--territory~yes",
        TOUCHING,
        Ends::Done,
        TOUCHING_SAFE,
    ),
    (
        "solve~-~--territory~yes",
        b"(;SZ[3]TB[aa:cc])",
        Ends::Done,
        WHOLE_TEXT,
    ),
    (
        "safe~-~--territory~yes",
        TWICE,
        Ends::BadSetup(Wrong::MarkedTwice(1)),
        "fault file marked twice at ba\n",
    ),
    (
        "solve~-~--territory~yes",
        b"(;SZ[3:1]AW[aa]TB[ba])",
        Ends::BadSetup(Wrong::NoLiberty(0)),
        "fault file no liberty at aa\n",
    ),
    (
        "line~-~--territory~yes",
        WALLS,
        Ends::Done,
        "side black\nkomi 0\nwinner black\nthreshold 0\nline 1 black:da\n",
    ),
    (
        "margin~-~--territory~yes",
        WALLS,
        Ends::Done,
        "side black\nkomi 0\nwinner black\nblack first 0\nwhite first -0.5\n",
    ),
    (
        "moves~-~--territory~yes",
        WALLS,
        Ends::Done,
        "side black\nkomi 0\nwinner black\nstone da wins 0\nstone db wins 0\nstone dc wins 0\n\
        spend loses\n",
    ),
    (
        "values~-~--territory~yes",
        b"(;SZ[7:3]AB[ca:cc]AW[ea:ec][ab]TB[aa:bc]TW[fa:gc])",
        Ends::Done,
        "regions 1\nregion da points 3 positions 27\nvalue *\nstops 0 0\nmean 0\ntemperature 0\n\
        left 0:0\nright 0:0\n",
    ),
    (
        "gtp~--territory~yes",
        b"loadsgf walls\ngenmove b\nplay w a1\nplay w d2\nloadsgf twice\nloadsgf walls 1\nplay w pass\n\
        boardsize 1\ngenmove b\nquit\n",
        Ends::Done,
        "= \n\n= D3\n\n? illegal move\n\n= \n\n? cannot load file\n\n= \n\n= \n\n= \n\n= resign\n\n= \n\n",
    ),
];

#[test]
fn declares_the_marks(rt: HostRuntime) {
    none_wrong(&rt, first_wrong(rt.alloc(), &SEALED));
}

const TERMS: Terms = Terms {
    side: Colour::White,
    komi_halves: -1,
    black_prisoners: 2,
    white_prisoners: 1,
};

/// Columns and rows of a drawing, and a text of the board that it shows.
type Drawn = (u8, u8, &'static [u8], &'static str);

/// Texts of `board`.
static BOARDS: [Drawn; 2] = [
    (
        7,
        1,
        b"XbbXO.w",
        "size 7 1\nside white\nkomi -0.5\nprisoners black 2\nprisoners white 1\nrow XbbXO.w\n",
    ),
    (
        2,
        2,
        b"bbbX",
        "size 2 2\nside white\nkomi -0.5\nprisoners black 2\nprisoners white 1\nrow bb\nrow bX\n",
    ),
];

/// Whether `board` writes this.
fn has_board_text(alloc: Global, board: &Board, wanted: &str) -> bool {
    match board_text(alloc, board, TERMS) {
        Ok(text) => text.as_slice() == wanted.as_bytes(),
        Err(_error) => false,
    }
}

/// Whether `board` writes so of a drawing.
fn is_board(alloc: Global, row: &Drawn) -> bool {
    match declared_board(alloc, row.0, row.1, row.2) {
        Ok(board) => has_board_text(alloc, &board, row.3),
        Err(_error) => false,
    }
}

/// The first drawing of which `board` writes another text.
fn first_wrong_board(alloc: Global) -> Option<usize> {
    for (at, row) in BOARDS.iter().enumerate() {
        if !is_board(alloc, row) {
            return Some(at);
        }
    }
    None
}

#[test]
fn declared_points_have_letters(rt: HostRuntime) {
    none_wrong(&rt, first_wrong_board(rt.alloc()));
}

/// Texts of `safe`.
static CHAINS: [Drawn; 3] = [
    (
        5,
        1,
        b"XbX.O",
        "chain aa black stones 1 alive\nchain ca black stones 1 alive\nchain ea white stones 1 open\n\
        attack da\ncounted ba black points 1 held 1\ncounted da black points 2 held 3\n\
        groups black 1\ngroups white 0\n",
    ),
    (
        5,
        2,
        b"wwwwwwwwww",
        "counted aa white points 10 held 10\ngroups black 0\ngroups white 0\n",
    ),
    (
        6,
        1,
        b"bXO...",
        "chain ba black stones 1 alive\nchain ca white stones 1 open\nattack da\n\
        counted aa black points 1 held 1\ngroups black 1\ngroups white 0\nregion ca points 4\n",
    ),
];

/// Whether `safe` writes this of a board whose declared points are closed off.
fn is_safe_text(alloc: Global, board: &Board, wanted: &str) -> bool
    requires { IsSettled board.now }
{
    match safe_text(alloc, board) {
        Ok(text) => text.as_slice() == wanted.as_bytes(),
        Err(_error) => false,
    }
}

/// Whether the board's declared points are closed off, and `safe` writes this of it.
fn has_safe_text(alloc: Global, board: &Board, wanted: &str) -> bool {
    match board.unsettled() {
        Ok(None) => is_safe_text(alloc, board, wanted),
        _ => false,
    }
}

/// Whether `safe` writes so of a drawing.
fn are_chains(alloc: Global, row: &Drawn) -> bool {
    match declared_board(alloc, row.0, row.1, row.2) {
        Ok(board) => has_safe_text(alloc, &board, row.3),
        Err(_error) => false,
    }
}

/// The first drawing of which `safe` writes another text, or one whose declared points aren't closed off.
fn first_wrong_chains(alloc: Global) -> Option<usize> {
    for (at, row) in CHAINS.iter().enumerate() {
        if !are_chains(alloc, row) {
            return Some(at);
        }
    }
    None
}

#[test]
fn declared_points_are_counted(rt: HostRuntime) {
    none_wrong(&rt, first_wrong_chains(rt.alloc()));
}
