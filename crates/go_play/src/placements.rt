//! Placing a stone, with what it takes off the board.

ghost use Rattle.std.specs.Prelude.{◌≡◌, ◌<◌, ◌↔◌, ◌⊎◌, List, true, length};
ghost use Rattle.go_grid.specs.Board.{Board, IsEmpty, other, stone};
ghost use Rattle.go_grid.specs.Marks.{IsMarked, Marks};
ghost use Rattle.go_grid.specs.declared.grid.Cell.{Cell};
ghost use Rattle.go_grid.specs.Play.{IsWithout};
ghost use Rattle.go_play.specs.Place.{Breathes, IsCleared, IsSameGround, IsTaken, PlacesStone};
ghost use Rattle.go_play.specs.inner.Place.{with_stone};
ghost use Rattle.go_play.specs.inner.Tried.{AreJudged, IsTried, IsLost, Judges};

use go_grid::{Board, Cell, Colour, NearPoints, Point, Points, adjoin, fill, part_touches};
use thiserror::Error;

/// Why a stone may not be placed.
#[derive(Clone, Copy, PartialEq, Eq, Debug, Error)]
pub enum PlaceError {
    /// The point isn't empty.
    #[error("the point isn't empty")]
    Occupied,
    /// With all that it takes off the board, the new stone's chain has no liberty.
    #[error("the new stone's chain has no liberty")]
    Suicide,
}

/// What stands on a board after a new stone, before any is taken off.
#[derive(Drop)]
struct Tried {
    own: Points,
    theirs: Points,
    empty: Points,
}

/// A new stone at an empty point, as sets of points.
fn try_stone(board: &Board, point: Point, colour: Colour) -> Tried
    requires { IsEmpty board.now point }
    ensures { IsTried board.now point colour result }
{
    let _size = board.size();
    let mut own = board.stones(colour);
    own.insert(point);
    let mut empty = board.empties();
    empty.remove(point);
    Tried {
        own,
        theirs: board.stones(colour.other()),
        empty,
    }
}

/// Looks at the other colour's chain at a point, and adds it to the taken stones if it has no liberty.
fn judge_chain(
    board: &Board,
    point: Point,
    colour: Colour,
    tried: &Tried,
    stone: Point,
    judged: &mut Points,
    taken: &mut Points,
)
    requires tried { IsTried board.now point colour tried.now }
    requires theirs { IsMarked tried.now.theirs stone }
    requires judged { AreJudged (with_stone board.now point colour) (other colour)
        judged.old taken.old }
    ensures judged { AreJudged (with_stone board.now point colour) (other colour)
        judged.new taken.new }
    ensures taken { Marks taken.new (λ q. IsMarked taken.old q
        ⊎ IsLost (with_stone board.now point colour) (other colour) stone q) }
{
    let size = board.size();
    let chain = fill(size, &tried.theirs, stone);
    *judged = judged.union(&chain);
    if !adjoin(size, &chain, &tried.empty) {
        *taken = taken.union(&chain);
    }
}

/// Adds the chain at a point to the taken stones, if it is the other colour's and has no liberty. A chain that was
/// looked at from another of its stones isn't walked over again.
fn take_chain(
    board: &Board,
    point: Point,
    colour: Colour,
    tried: &Tried,
    stone: Point,
    judged: &mut Points,
    taken: &mut Points,
)
    requires tried { IsTried board.now point colour tried.now }
    requires judged { AreJudged (with_stone board.now point colour) (other colour)
        judged.old taken.old }
    ensures judged { AreJudged (with_stone board.now point colour) (other colour)
        judged.new taken.new }
    ensures taken { Marks taken.new (λ q. IsMarked taken.old q
        ⊎ IsLost (with_stone board.now point colour) (other colour) stone q) }
{
    if tried.theirs.contains(stone) && !judged.contains(stone) {
        judge_chain(board, point, colour, tried, stone, judged, taken);
    }
}

/// The stones that a new stone takes.
fn taken(board: &Board, point: Point, colour: Colour, tried: &Tried) -> Points
    requires point { point < length board.now.cells }
    requires tried { IsTried board.now point colour tried.now }
    ensures { Marks result (IsTaken board.now point colour) }
{
    let mut around = NearPoints::new();
    around.look_around(board.size(), point);
    let mut judged = Points::new();
    let mut taken = Points::new();
    for stone in around.as_slice() {
        take_chain(board, point, colour, tried, *stone, &mut judged, &mut taken);
    }
    taken
}

/// Whether the new stone's chain has a liberty once the taken stones are gone.
fn stands(board: &Board, point: Point, colour: Colour, tried: &Tried, taken: &Points) -> bool
    requires empty { IsEmpty board.now point }
    requires tried { IsTried board.now point colour tried.now }
    requires taken { Marks taken.now (IsTaken board.now point colour) }
    ensures { (cells : List Cell) → IsCleared board.now point colour cells
        → (result ≡ true) ↔ Breathes board.now cells colour point }
{
    part_touches(board.size(), &tried.own, point, &tried.empty.union(taken))
}

/// The stones that a new stone takes, or why it is refused.
fn judge(board: &Board, point: Point, colour: Colour) -> Result<Points, PlaceError>
    requires { point < length board.now.cells }
    ensures { Judges board.now point colour result }
{
    if !board.get(point).is(Cell::Empty) {
        return Err(PlaceError::Occupied);
    }
    let tried = try_stone(board, point, colour);
    let taken = taken(board, point, colour, &tried);
    if stands(board, point, colour, &tried, &taken) {
        Ok(taken)
    } else {
        Err(PlaceError::Suicide)
    }
}

/// Empties the points of a set.
fn take_off(board: &mut Board, points: &Points)
    ensures ground { IsSameGround board.old board.new }
    ensures cells { IsWithout board.old.cells (IsMarked points.now) board.new.cells }
{
    for number in 0..board.size().area() {
        let point = Point(number);
        if points.contains(point) {
            board.set(point, Cell::Empty);
        }
    }
}

/// Places a stone and takes off each chain of the other colour next to it that has no liberty left.
/// Gives the number of stones taken, or leaves the board as it was: `Occupied` where the point isn't empty,
/// else `Suicide` where the new stone's own chain would then have no liberty.
pub fn place(board: &mut Board, point: Point, colour: Colour) -> Result<u16, PlaceError>
    requires { point < length board.old.cells }
    ensures { PlacesStone board.old point colour board.new result }
{
    let taken = judge(board, point, colour)?;
    let number = taken.len();
    board.set(point, stone(colour));
    take_off(board, &taken);
    Ok(number)
}

/// What `place` would answer; the board stays as it is.
pub fn allowed(board: &Board, point: Point, colour: Colour) -> Result<u16, PlaceError>
    requires { point < length board.now.cells }
    ensures { (h : Board) × PlacesStone board.now point colour h result }
{
    let taken = judge(board, point, colour)?;
    Ok(taken.len())
}

/// The cell with a stone of the colour.
fn stone(colour: Colour) -> Cell
    ensures { result ≡ stone colour }
{
    match colour {
        Colour::Black => Cell::Black,
        Colour::White => Cell::White,
    }
}
