//! Worked records.

ghost use Rattle.std.specs.Prelude.{◌≤◌, length};

use crate::asserts::none_wrong;
use go_grid::{Board, Cell, Colour, Point};
use sgf_go::{GoError, Settings, Setup, SetupFault, position, read_komi};
use sgf_tree::read;
use std::alloc::{AllocError, Global};

/// A file with settings, and what comes of them: the board row by row with `X` for Black and `O` for White, and `b` and
/// `w` at points that are declared for them.
#[derive(Clone, Copy)]
struct Case {
    file: &'static [u8],
    after: Option<u32>,
    komi: Option<i8>,
    turn: Option<Colour>,
    black_before: u8,
    territory: bool,
    board: &'static [u8],
    black: u64,
    white: u64,
    halves: i64,
    side: Colour,
}

/// Nothing set, no prisoners, no komi, Black to move.
const PLAIN: Case = Case {
    file: b"(;SZ[1])",
    after: None,
    komi: None,
    turn: None,
    black_before: 0,
    territory: false,
    board: b".",
    black: 0,
    white: 0,
    halves: 0,
    side: Colour::Black,
};

/// The stone at `ca` is taken by the first move; two passes follow.
const SAVED: &[u8] =
    b"Saved game (copy)\n(;FF[4]GaMe[1]SiZe[9:2]KM[6.5]C[a \\] b]AB[ba][da][ab:bb][db:eb]AW[ca][fa][ha][fb:ib](;B[cb]C[takes];W[tt];Black[tt])(;B[ea]))";

const fn on(file: &'static [u8], board: &'static [u8], side: Colour) -> Case {
    Case {
        file,
        board,
        side,
        ..PLAIN
    }
}

/// The same with the points that the last node marks declared, and the prisoners that Black and White get by it.
const fn marked(file: &'static [u8], board: &'static [u8], black: u64, white: u64) -> Case {
    Case {
        territory: true,
        black,
        white,
        ..on(file, board, Colour::Black)
    }
}

/// The same where the line ends before the first move after so many.
const fn ended(after: u32, file: &'static [u8], board: &'static [u8], side: Colour) -> Case {
    Case {
        after: Some(after),
        ..on(file, board, side)
    }
}

/// The position, or what is wrong with the record; no fault where memory ran out or there is no tree.
fn answer(alloc: Global, case: &Case) -> Result<Setup, Option<SetupFault>>
    requires { length case.now.file.now ≤ 1048576 }
{
    let komi = match case.komi {
        Some(halves) => Some(i64::from(halves)),
        None => None,
    };
    let settings = Settings {
        after: case.after,
        komi,
        turn: case.turn,
        black_prisoners: u64::from(case.black_before),
        white_prisoners: 0,
        territory: case.territory,
    };
    match read(alloc, case.file) {
        Ok(tree) => match position(alloc, &tree, &settings) {
            Ok(setup) => Ok(setup),
            Err(GoError::Fault(fault)) => Err(Some(fault)),
            Err(GoError::Memory(_)) => Err(None),
        },
        Err(_) => Err(None),
    }
}

/// What is wrong with a file of less than a hundred bytes, where its marks count or not.
pub(crate) fn fault_in(alloc: Global, file: &'static [u8], territory: bool) -> Option<SetupFault> {
    if file.len() >= 100 {
        return None;
    }
    let case = Case {
        file,
        territory,
        ..PLAIN
    };
    match answer(alloc, &case) {
        Ok(_setup) => None,
        Err(fault) => fault,
    }
}

/// The letters of a board.
fn drawn(alloc: Global, board: &Board) -> Result<Vec<u8>, AllocError> {
    let mut letters = Vec::new(alloc);
    for number in 0..board.size().area() {
        letters.push(
            match (board.get(Point(number)), board.declared_for(Point(number))) {
                (Cell::Black, _) => b'X',
                (Cell::White, _) => b'O',
                (Cell::Empty, None) => b'.',
                (Cell::Empty, Some(Colour::Black)) => b'b',
                (Cell::Empty, Some(Colour::White)) => b'w',
            },
        )?;
    }
    Ok(letters)
}

/// A value of `KM` and the komi that it names, in half points.
static KOMI: [(&[u8], Option<i64>); 22] = [
    (b"6.50", Some(13)),
    (b"-0.5", Some(-1)),
    (b".5", Some(1)),
    (b"6.75", None),
    (b"-0", Some(0)),
    (b"+7.", Some(14)),
    (b"6.", Some(12)),
    (b"0.000", Some(0)),
    (b"999999.5", Some(1999999)),
    (b"-999999.5", Some(-1999999)),
    (b"1000000", None),
    (b"0000001", Some(2)),
    (b"4294967296", None),
    (b"", None),
    (b".", None),
    (b"-", None),
    (b"+-1", None),
    (b"1.05", None),
    (b"1.5x", None),
    (b" 1", None),
    (b"1,5", None),
    (b"1.5.", None),
];

/// The first row of the table of komi that isn't so.
fn wrong_komi() -> Option<usize> {
    for (at, (text, want)) in KOMI.iter().enumerate() {
        if read_komi(text) != *want {
            return Some(at);
        }
    }
    None
}

#[test]
fn komi(rt: HostRuntime) {
    none_wrong(&rt, wrong_komi());
}

/// A file, its board and the side to move, where nothing is set, and there are no prisoners and no komi.
static PLAIN_FILES: [(&[u8], &[u8], Colour); 11] = [
    (b"(;SZ[1])", b".", Colour::Black),
    (
        b"(;SZ[9:2]AB[ba][da][ab:eb]AW[fa][ha][fb:ib])",
        b".X.X.O.O.XXXXXOOOO",
        Colour::Black,
    ),
    (b"(;SZ[4:2]AB[cb:ba])", b".XX..XX.", Colour::Black),
    (b"(;SZ[4:2]AB[bb:ca])", b".XX..XX.", Colour::Black),
    (b"(;SZ[4:2]AB[ca:bb])", b".XX..XX.", Colour::Black),
    (b"(;SZ[3:2]AB[aa:ca]AE[ba]AW[aa])", b"O.X...", Colour::Black),
    (b"(;SZ[3:1]KM[]HA[2]AB[ba];PL[W])", b".X.", Colour::White),
    (b"(;SZ[3:1]B[aa][ba];PL[b])", b"X..", Colour::Black),
    (b"(;SZ[3:1]B[aa]B[ba]AE[ca]PL[b])", b"XX.", Colour::White),
    (b"(;SZ[3:1];B[tt];W[ ];W[aa];W[])", b"O..", Colour::Black),
    (b"(;SZ[6:1]TB[aa:ca]TW[ca:fa])", b"......", Colour::Black),
];

/// The same where the line ends before the first move after so many.
static ENDED: [(u32, &[u8], &[u8], Colour); 5] = [
    (1, b"(;SZ[3:1];B[aa];AB[ca];W[zz])", b"X.X", Colour::White),
    (1, b"(;SZ[3:1]B[aa]B[ba];B[zz])", b"XX.", Colour::White),
    (1, b"(;SZ[3:1];W[];B[aa])", b"...", Colour::Black),
    (2, b"(;SZ[3:1];W[];B[aa])", b"X..", Colour::White),
    (0, b"(;SZ[3:1]AB[aa]B[ba])", b"...", Colour::Black),
];

/// A file, its board with the points that the last node marks declared, and the prisoners that Black and White get by it.
static MARKED: [(&[u8], &[u8], u64, u64); 8] = [
    (
        b"(;SZ[7:1]AB[aa]AW[ca][fa]TB[ba:da]TW[ea])",
        b"XbbXOO.",
        2,
        1,
    ),
    (b"(;SZ[6:2]TB[aa:cb]TW[da:fb])", b"bbXOwwbbXOww", 2, 2),
    (b"(;SZ[3:1]AB[aa][ca]AW[ba]TB[ba])", b"XbX", 1, 0),
    (b"(;SZ[4:1]AB[aa]AW[ca]TB[ba:da])", b"Xbbb", 1, 0),
    (b"(;SZ[4:1]AB[aa]AW[ca]TB[ba:ca]TW[ca])", b"XbX.", 2, 0),
    (b"(;SZ[4:1]AB[ca]TB[aa:ba]TW[ca])", b"bXO.", 1, 2),
    (b"(;SZ[3:1]TB[zz];TB[ aa:ca ][])", b"bbb", 0, 0),
    (b"(;SZ[3:1]TB[aa:ca];N[x])", b"...", 0, 0),
];

/// Files with settings, komi or prisoners.
static CASES: [Case; 9] = [
    Case {
        file: SAVED,
        black: 1,
        halves: 13,
        board: b".X.X.O.O.XXXXXOOOO",
        side: Colour::White,
        ..PLAIN
    },
    Case {
        file: SAVED,
        after: Some(0),
        halves: 13,
        board: b".XOX.O.O.XX.XXOOOO",
        ..PLAIN
    },
    Case {
        file: b"(;SZ[\t3:01 ]KM[\n1.5]AB[ ][ ba ])",
        halves: 3,
        board: b".X.",
        ..PLAIN
    },
    Case {
        file: b"(;GM[1][2]SZ[3:1][9]SZ[5]KM[1]KM[x]PL[white]PL[x]GM[2])",
        halves: 2,
        board: b"...",
        side: Colour::White,
        ..PLAIN
    },
    Case {
        file: b"(;SZ[3:2]AB[aa]AW[ba];W[ab])",
        white: 1,
        board: b".O.O..",
        ..PLAIN
    },
    Case {
        file: b"(;SZ[4:1]AW[ba:ca]AB[aa];B[da])",
        black_before: 4,
        black: 6,
        board: b"X..X",
        side: Colour::White,
        ..PLAIN
    },
    Case {
        file: b"(;SZ[3:1]PL[x];W[aa])",
        turn: Some(Colour::White),
        board: b"O..",
        side: Colour::White,
        ..PLAIN
    },
    Case {
        file: b"(;SZ[1]KM[x])",
        komi: Some(-5),
        halves: -5,
        ..PLAIN
    },
    Case {
        file: b"(;SZ[3:1]TB[aa:ca]B[aa])",
        after: Some(0),
        territory: true,
        board: b"...",
        ..PLAIN
    },
];

/// Whether the position is the case's.
fn shows(alloc: Global, setup: &Setup, case: &Case) -> Result<bool, AllocError> {
    let letters = drawn(alloc, setup.board())?;
    Ok(
        letters.as_slice() == case.board
            && setup.black_prisoners() == case.black
            && setup.white_prisoners() == case.white
            && setup.komi_halves() == case.halves
            && setup.side() == case.side,
    )
}

/// Whether the case's file has its position.
fn is_so(alloc: Global, case: &Case) -> bool {
    if case.file.len() >= 200 {
        return false;
    }
    match answer(alloc, case) {
        Ok(setup) => shows(alloc, &setup, case) == Ok(true),
        Err(_) => false,
    }
}

/// The first row of the table of plain files that isn't so.
fn wrong_plain(alloc: Global) -> Option<usize> {
    for (at, row) in PLAIN_FILES.iter().enumerate() {
        if !is_so(alloc, &on(row.0, row.1, row.2)) {
            return Some(at);
        }
    }
    None
}

/// The first row of the table of lines that end early that isn't so.
fn wrong_ended(alloc: Global) -> Option<usize> {
    for (at, row) in ENDED.iter().enumerate() {
        if !is_so(alloc, &ended(row.0, row.1, row.2, row.3)) {
            return Some(at);
        }
    }
    None
}

/// The first row of the table of marked files that isn't so.
fn wrong_marked(alloc: Global) -> Option<usize> {
    for (at, row) in MARKED.iter().enumerate() {
        if !is_so(alloc, &marked(row.0, row.1, row.2, row.3)) {
            return Some(at);
        }
    }
    None
}

/// The first other case that isn't so.
fn wrong_case(alloc: Global) -> Option<usize> {
    for (at, case) in CASES.iter().enumerate() {
        if !is_so(alloc, case) {
            return Some(at);
        }
    }
    None
}

#[test]
fn plain_positions(rt: HostRuntime) {
    none_wrong(&rt, wrong_plain(rt.alloc()));
}

#[test]
fn positions_of_lines_that_end(rt: HostRuntime) {
    none_wrong(&rt, wrong_ended(rt.alloc()));
}

#[test]
fn marked_positions(rt: HostRuntime) {
    none_wrong(&rt, wrong_marked(rt.alloc()));
}

#[test]
fn other_positions(rt: HostRuntime) {
    none_wrong(&rt, wrong_case(rt.alloc()));
}

/// Whether a file has a board of so many points, the last of them black.
fn ends_black(alloc: Global, case: &Case, points: usize) -> Result<bool, AllocError> {
    if case.file.len() >= 200 {
        return Ok(false);
    }
    match answer(alloc, case) {
        Ok(setup) => {
            let letters = drawn(alloc, setup.board())?;
            Ok(letters.len() == points && letters.last() == Some(&b'X'))
        }
        Err(_) => Ok(false),
    }
}

/// On a board of 20 columns `tt` is a point.
#[test]
fn last_point_of_a_large_board(rt: HostRuntime) {
    let case = on(b"(;SZ[20];B[tt])", b"", Colour::White);
    assert!(rt; ends_black(rt.alloc(), &case, 400) == Ok(true));
}
