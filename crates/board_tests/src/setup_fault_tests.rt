//! What is wrong with records.

use crate::asserts::none_wrong;
use crate::position_tests::fault_in;
use go_grid::Point;
use sgf_go::SetupFault;
use std::alloc::Global;

/// What is wrong with a setup, its points by their numbers.
#[derive(Clone, Copy)]
enum Wrong {
    Game,
    Size,
    Komi,
    Side,
    Point(u32),
    Occupied(u32),
    Suicide(u32),
    NoLiberty(u16),
    MarkedTwice(u16),
}

/// The fault by its own name.
fn fault_of(wrong: Wrong) -> SetupFault {
    match wrong {
        Wrong::Game => SetupFault::WrongGame,
        Wrong::Size => SetupFault::BadSize,
        Wrong::Komi => SetupFault::BadKomi,
        Wrong::Side => SetupFault::BadSide,
        Wrong::Point(node) => SetupFault::BadPoint(node),
        Wrong::Occupied(node) => SetupFault::Occupied(node),
        Wrong::Suicide(node) => SetupFault::Suicide(node),
        Wrong::NoLiberty(point) => SetupFault::NoLiberty(Point(point)),
        Wrong::MarkedTwice(point) => SetupFault::MarkedTwice(Point(point)),
    }
}

/// A record and what is wrong with its setup.
static FAULTS: [(&[u8], Wrong); 34] = [
    (b"(;GM[2])", Wrong::Game),
    (b"(;GM[])", Wrong::Game),
    (b"(;GM[2]SZ[26]KM[x])", Wrong::Game),
    (b"(;SZ[26])", Wrong::Size),
    (b"(;SZ[26]KM[x]AB[zz])", Wrong::Size),
    (b"(;SZ[])", Wrong::Size),
    (b"(;SZ[0])", Wrong::Size),
    (b"(;SZ[005])", Wrong::Size),
    (b"(;SZ[5:])", Wrong::Size),
    (b"(;SZ[5:6:7])", Wrong::Size),
    (b"(;SZ[5: 6])", Wrong::Size),
    (b"(;KM[6.75])", Wrong::Komi),
    (b"(;SZ[2]KM[x]AB[zz])", Wrong::Komi),
    (b"(;SZ[3]AB[da])", Wrong::Point(0)),
    (b"(;SZ[3]AW[ad];AB[da])", Wrong::Point(0)),
    (b"(;SZ[3];AE[AA])", Wrong::Point(1)),
    (b"(;SZ[3]AB[aa:da])", Wrong::Point(0)),
    (b"(;SZ[3]AB[aa-ba])", Wrong::Point(0)),
    (b"(;SZ[3]AB[aaa])", Wrong::Point(0)),
    (b"(;SZ[3];;B[aa:aa])", Wrong::Point(2)),
    (b"(;SZ[20:19];B[tt])", Wrong::Point(1)),
    (b"(;SZ[3]B[zz]AB[da]PL[x])", Wrong::Point(0)),
    (b"(;PL[x])", Wrong::Side),
    (b"(;PL[])", Wrong::Side),
    (b"(;SZ[3]B[zz]PL[x])", Wrong::Side),
    (b"(;SZ[3];B[aa];W[aa])", Wrong::Occupied(2)),
    (b"(;SZ[2:1]AB[aa:ba];W[aa])", Wrong::Occupied(1)),
    (b"(;SZ[2:2]AB[ba][ab];W[aa])", Wrong::Suicide(1)),
    (b"(;SZ[1]W[aa])", Wrong::Suicide(0)),
    (b"(;SZ[2:1]AB[aa]AW[ba])", Wrong::NoLiberty(0)),
    (b"(;SZ[4:1]AB[ba:da]AW[aa])", Wrong::NoLiberty(0)),
    (b"(;SZ[5:1]AB[ca]AW[ba][da])", Wrong::NoLiberty(2)),
    (b"(;SZ[2:1]AB[aa:ba];PL[x])", Wrong::Side),
    (
        b"(;SZ[3]AB[ba][bb]AW[aa][ab][bc][ca][cb])",
        Wrong::NoLiberty(1),
    ),
];

/// A record and what is wrong with its marks.
static MARK_FAULTS: [(&[u8], Wrong); 8] = [
    (b"(;SZ[3];B[aa];TB[zz])", Wrong::Point(2)),
    (b"(;SZ[3]TB[aa]TW[aa][a])", Wrong::Point(0)),
    (b"(;SZ[3];TB[zz]B[aa]B[aa])", Wrong::Occupied(1)),
    (b"(;SZ[3];TW[a]B[aa]PL[x])", Wrong::Side),
    (b"(;SZ[4]TW[aa:dd]TB[ca][bd][cb])", Wrong::MarkedTwice(2)),
    (b"(;SZ[3:1]AW[aa]TB[ca]TW[ca])", Wrong::MarkedTwice(2)),
    (b"(;SZ[3:1]AW[aa]TB[ba])", Wrong::NoLiberty(0)),
    (b"(;SZ[2:1]TB[aa]TW[ba])", Wrong::NoLiberty(0)),
];

/// The first row of the table of faults that isn't so.
fn wrong_fault(alloc: Global) -> Option<usize> {
    for (at, row) in FAULTS.iter().enumerate() {
        if fault_in(alloc, row.0, false) != Some(fault_of(row.1)) {
            return Some(at);
        }
    }
    None
}

/// The first row of the table of faults of marks that isn't so.
fn wrong_mark_fault(alloc: Global) -> Option<usize> {
    for (at, row) in MARK_FAULTS.iter().enumerate() {
        if fault_in(alloc, row.0, true) != Some(fault_of(row.1)) {
            return Some(at);
        }
    }
    None
}

#[test]
fn faults(rt: HostRuntime) {
    none_wrong(&rt, wrong_fault(rt.alloc()));
}

#[test]
fn mark_faults(rt: HostRuntime) {
    none_wrong(&rt, wrong_mark_fault(rt.alloc()));
}
