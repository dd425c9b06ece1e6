//! Captures of one chain after the other.

ghost use Rattle.std.specs.Prelude.{◌≡◌, ℕ, ◌<◌, ◌↔◌, [], true, length, IfOk, MatchOption};
ghost use Rattle.std.specs.Bool.{OnFalse, OnTrue};
ghost use Rattle.go_grid.specs.Board.{HasStone, IsEmpty, IsUndeclared, other};
ghost use Rattle.go_play.specs.Place.{IsPlaced, IsSuicide};
ghost use Rattle.benson_attack.specs.inner.Reached.{AllAlive, Captures, Follows, Presses};

use go_grid::{Board, Cell, Colour, Point, Points};
use go_play::place;
use std::alloc::{AllocError, Global};

/// A board that unanswered placings of one colour reach, with the placings.
#[derive(Drop)]
pub(crate) struct Run {
    pub(crate) board: Board,
    pub(crate) placings: Vec<Point>,
}

impl Run {
    /// The run of no placing.
    pub(crate) fn begin(alloc: Global, board: &Board) -> Result<Run, AllocError>
        ensures { IfOk result (λ run. (run.board ≡ board.now) × (run.placings.items ≡ [])) }
    {
        Ok(Run {
            board: board.copy()?,
            placings: Vec::new(alloc),
        })
    }

    /// Its placings.
    pub(crate) fn listed(&self) -> Result<Vec<Point>, AllocError>
        ensures { IfOk result (λ placings. placings.items ≡ self.now.placings.items) }
    {
        self.placings.clone()
    }

    /// The same run once more.
    fn copy(&self) -> Result<Run, AllocError>
        ensures { IfOk result (λ run. (run.board ≡ self.now.board)
            × (run.placings.items ≡ self.now.placings.items)) }
    {
        Ok(Run {
            board: self.board.copy()?,
            placings: self.placings.clone()?,
        })
    }
}

/// Whether a point holds a stone of the colour.
pub(crate) fn holds(board: &Board, point: Point, colour: Colour) -> bool
    requires { point < length board.now.cells }
    ensures { (result ≡ true) ↔ HasStone board.now colour point }
{
    match colour {
        Colour::Black => board.get(point).is(Cell::Black),
        Colour::White => board.get(point).is(Cell::White),
    }
}

/// Places a stone at an empty point if that is legal.
fn try_place(board: &mut Board, point: Point, colour: Colour) -> bool
    requires { IsEmpty board.old point }
    ensures placed { OnTrue result (IsPlaced board.old point colour board.new) }
    ensures refused { OnFalse result ((board.new ≡ board.old) × IsSuicide board.old point colour) }
{
    place(board, point, colour).is_ok()
}

/// Places a stone at an empty point if it isn't declared and that is legal.
fn try_press(board: &mut Board, point: Point, colour: Colour) -> bool
    requires { IsEmpty board.old point }
    ensures placed { OnTrue result (IsUndeclared board.old point
        × IsPlaced board.old point colour board.new) }
    ensures refused { OnFalse result ((board.new ≡ board.old)
        × (IsUndeclared board.old point → IsSuicide board.old point colour)) }
{
    board.declared_for(point).is_none() && try_place(board, point, colour)
}

/// Places a stone at the lowest liberty of the victim's chain that isn't declared and where that is legal.
fn press(board: &mut Board, victim: Point, colour: Colour) -> Option<Point>
    requires { HasStone board.old (other colour) victim }
    ensures { Presses colour victim board.old board.new result }
{
    let liberties = board.liberties(colour.other(), victim);
    for number in 0..board.size().area() {
        let point = Point(number);
        if liberties.contains(point) && try_press(board, point, colour) {
            return Some(point);
        }
    }
    None
}

/// Places at liberties of the victim's chain that aren't declared until it is taken, or until no such placing is legal.
/// Tells whether it was taken.
pub(crate) fn capture(run: &mut Run, victim: Point, colour: Colour) -> Result<bool, AllocError>
    requires { HasStone run.old.board (other colour) victim }
    ensures { IfOk result (Captures colour victim run.old run.new) }
{
    'pressing: while holds(&run.board, victim, colour.other()) {
        match press(&mut run.board, victim, colour) {
            Some(point) => run.placings.push(point)?,
            None => return Ok(false),
        }
    }
    Ok(true)
}

/// The run after the capture of the first chain that can be captured, or `None` where there is none: then each
/// stone of the other colour that stands lives without answers. The marks are stones that do, and are not tried.
pub(crate) fn advance(run: &Run, colour: Colour, alive: &Points) -> Result<Option<Run>, AllocError>
    ensures { IfOk result (λ next. MatchOption next (AllAlive colour alive.now run.now)
        (Follows colour run.now)) }
{
    let mut left = run.board.stones(colour.other()).difference(alive);
    for number in 0..run.board.size().area() {
        let victim = Point(number);
        if left.contains(victim) {
            let mut trial = run.copy()?;
            if capture(&mut trial, victim, colour)? {
                return Ok(Some(trial));
            }
            left = left.difference(&run.board.chain(colour.other(), victim));
        }
    }
    Ok(None)
}
