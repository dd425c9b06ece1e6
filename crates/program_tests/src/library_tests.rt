//! The worked call of the README of `endgame_solver`.

ghost use Rattle.std.specs.Prelude.{◌≡◌, ◌<◌};

use crate::worked_games::Opened;
use drawings::cell_of;
use endgame_solver::{Limits, SolveError, Solved};
use go_grid::{Board, Colour, Point, Size};
use go_play::Setup;
use local_play::Steps;
use std::alloc::{AllocError, Global};
use std::marker::Brand;
use std::sync::ledger::{Blank, Ledger};
use whole_rules::Move;

/// The board of the call.
fn drawn(alloc: Global) -> Option<Board> {
    let size = Size::new(9, 2)?;
    let mut board = Board::empty(alloc, size).ok()?;
    for number in 0..size.area() {
        let letter = b".X.X.O.O.XXXXXOOOO".get(usize::from(number));
        board.set(Point(number), cell_of(letter));
    }
    Some(board)
}

/// The position of the call, if its parts are one.
fn position(alloc: Global) -> Option<Setup> {
    let board = drawn(alloc)?;
    match Setup::new(board, 0, 0, 0, Colour::Black) {
        Ok(setup) => Some(setup),
        Err(_error) => None,
    }
}

/// Whether Black wins, by the stone at point 4.
fn is_answered(solved: &mut Solved) -> bool {
    solved.winner() == Colour::Black && solved.winning_move() == Some(Move::Stone(Point(4)))
}

/// The game of the call, or want of memory where there are no such limits or no position.
fn begin<L: Ledger>(alloc: Global, blank: Blank) -> Result<Solved, SolveError>
    requires name { blank.name ≡ L.name }
    requires parts { blank.parts ≡ L.parts }
    requires some { 0 < blank.parts }
{
    let Some(limits) = Limits::new(10_000, 200) else {
        return Err(SolveError::Memory(AllocError));
    };
    match position(alloc) {
        Some(setup) => Solved::begin(alloc, &setup, false, &limits, &mut Steps::<L>::new(blank)),
        None => Err(SolveError::Memory(AllocError)),
    }
}

/// Whether what was begun is solved as the README says.
fn is_solved(opened: &mut Opened) -> bool {
    match &mut opened.result {
        Ok(solved) => is_answered(solved),
        Err(_error) => false,
    }
}

/// Whether the call answers as the README says.
fn is_right(alloc: Global) -> bool {
    let mut opened = Opened {
        result: begin::<Brand>(alloc, Blank::new(1)),
    };
    let right = is_solved(&mut opened);
    // A solved game is large: as a call its drop is one step of the proof.
    drop(opened);
    right
}

#[test]
fn readme(rt: HostRuntime) {
    assert!(rt; is_right(rt.alloc()));
}
