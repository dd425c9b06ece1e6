//! The sealing of the points that are marked as territory.

ghost use Rattle.std.specs.Prelude.{map, false, get_or, [], ◌≡◌, ◌≤◌, ◌<◌, ◌+◌, ◌*◌, ◌↔◌, ◌⊎◌, ℕ, true, length, IfSome, IfNone, IfOk, MatchOption, OnOk, ◌^◌};
ghost use Rattle.std.specs.Bool.{OnTrue, OnFalse};
ghost use Rattle.go_grid.specs.declared.grid.Colour.{Colour};
ghost use Rattle.go_grid.specs.Board.{DeclaresNothing, IsClosedOff, NextTo, stone};
ghost use Rattle.go_grid.specs.Marks.{IsMarked, Marks};
ghost use Rattle.sgf_tree.specs.Reading.{property_text, node_text};
ghost use Rattle.sgf_go.specs.inner.Setup.{AnswersPart};
ghost use Rattle.sgf_go.specs.inner.Territory.{AreEdges, AreMarked, marking, marks_of};
ghost use Rattle.sgf_go.specs.Setup.{Counts, TerritoryPart};
ghost use Rattle.sgf_go.specs.Territory.{Becomes, IsDead, IsFirstTwice, IsGain, IsHeldBy, IsMarkedTwice, IsOnEdge, IsSealed, MarksTerritory, Seals};

use crate::fault::{GoError, SetupFault};
use crate::marks::{MarkedPoints, marked_points};
use crate::replay::Replay;
use go_grid::{Board, Cell, Colour, NearPoints, Point, Points};
use sgf_tree::{MOST_BYTES, Node, Property};
use std::alloc::AllocError;

/// Whether a point is the colour's.
fn is_held_by(board: &Board, marks: &MarkedPoints, colour: Colour, point: Point) -> bool
    requires { point < length board.now.cells }
    ensures { (result ≡ true) ↔ IsHeldBy board.now (marking marks.now) colour point }
{
    marks.of(colour).contains(point)
        || (board.colour_at(point) == Some(colour) && !marks.of(colour.other()).contains(point))
}

/// Whether a point of the board next to a point isn't the colour's.
fn is_open(board: &Board, marks: &MarkedPoints, colour: Colour, point: Point) -> bool
    requires { point < length board.now.cells }
    ensures open { OnTrue result ((q : ℕ) × (q < length board.now.cells)
        × NextTo board.now.columns point q × ¬ IsHeldBy board.now (marking marks.now) colour q) }
    ensures closed { OnFalse result ((q : ℕ) → q < length board.now.cells
        → NextTo board.now.columns point q → IsHeldBy board.now (marking marks.now) colour q) }
{
    let mut around = NearPoints::new();
    around.look_around(board.size(), point);
    for near in around.as_slice() {
        if !is_held_by(board, marks, colour, *near) {
            return true;
        }
    }
    false
}

/// Whether a point is on the edge of the colour's marked points.
fn is_on_edge(board: &Board, marks: &MarkedPoints, colour: Colour, point: Point) -> bool
    requires { point < length board.now.cells }
    ensures { (result ≡ true) ↔ IsOnEdge board.now (marking marks.now) colour point }
{
    marks.of(colour).contains(point) && is_open(board, marks, colour, point)
}

/// The edge of a colour's marked points.
fn edge_of(board: &Board, marks: &MarkedPoints, colour: Colour) -> Points
    requires { (p : ℕ) → marking marks.now colour p → p < length board.now.cells }
    ensures { Marks result (IsOnEdge board.now (marking marks.now) colour) }
{
    Points::chosen(
        board.size().area(),
        |point| is_on_edge(board, marks, colour, point),
    )
}

/// The edges of both colours.
fn edges(board: &Board, marks: &MarkedPoints) -> MarkedPoints
    requires { (c : Colour) (p : ℕ) → marking marks.now c p → p < length board.now.cells }
    ensures { AreEdges board.now (marking marks.now) result }
{
    MarkedPoints {
        black: edge_of(board, marks, Colour::Black),
        white: edge_of(board, marks, Colour::White),
    }
}

/// The lowest point that is marked for both colours.
fn marked_twice(board: &Board, marks: &MarkedPoints) -> Option<Point>
    requires { (c : Colour) (p : ℕ) → marking marks.now c p → p < length board.now.cells }
    ensures some { IfSome result (IsFirstTwice (marking marks.now)) }
    ensures none { IfNone result ((p : ℕ) → ¬ IsMarkedTwice (marking marks.now) p) }
{
    for number in 0..board.size().area() {
        let point = Point(number);
        if marks.black.contains(point) && marks.white.contains(point) {
            return Some(point);
        }
    }
    None
}

/// The colour for which a point is marked, if it is.
fn colour_of(marks: &MarkedPoints, point: Point) -> Option<Colour>
    ensures some { IfSome result (λ c. marking marks.now c point) }
    ensures none { IfNone result ((c : Colour) → ¬ marking marks.now c point) }
{
    if marks.black.contains(point) {
        return Some(Colour::Black);
    }
    if marks.white.contains(point) {
        return Some(Colour::White);
    }
    None
}

/// The stone of a colour.
fn stone(colour: Colour) -> Cell
    ensures { result ≡ stone colour }
{
    match colour {
        Colour::Black => Cell::Black,
        Colour::White => Cell::White,
    }
}

/// What a point holds, and for whom it is declared.
#[derive(Clone, Copy)]
struct SealedPoint {
    cell: Cell,
    declared: Option<Colour>,
}

/// What a point becomes by the sealing.
#[tactic(auto, using(crate::proofs::SealLemmas::becomes_rest, crate::proofs::SealLemmas::becomes_edge, crate::proofs::SealLemmas::becomes_inner))]
fn seal_point(marks: &MarkedPoints, edges: &MarkedPoints, was: Cell, point: Point) -> SealedPoint
    requires once { ¬ IsMarkedTwice (marking marks.now) point }
    requires edges { (c : Colour) → marking edges.now c point → marking marks.now c point }
    ensures { Becomes (marking marks.now)
        (marking edges.now) point was result.cell result.declared }
{
    match colour_of(marks, point) {
        None => SealedPoint {
            cell: was,
            declared: None,
        },
        Some(colour) => {
            if edges.of(colour).contains(point) {
                SealedPoint {
                    cell: stone(colour),
                    declared: None,
                }
            } else {
                SealedPoint {
                    cell: Cell::Empty,
                    declared: Some(colour),
                }
            }
        }
    }
}

/// Seals the marked points of a board.
fn seal_board(
    board: &mut Board,
    marks: &MarkedPoints,
    edges: &MarkedPoints,
) -> Result<(), AllocError>
    requires once { (p : ℕ) → ¬ IsMarkedTwice (marking marks.now) p }
    requires edges { AreEdges board.old (marking marks.now) edges.now }
    ensures { OnOk result (IsSealed (marking marks.now) board.old board.new) }
{
    let mut declared = Vec::new(board.allocator());
    for number in 0..board.size().area() {
        let point = Point(number);
        let sealed = seal_point(marks, edges, board.get(point), point);
        board.set(point, sealed.cell);
        declared.push(sealed.declared)?;
    }
    board.declare(declared);
    Ok(())
}

/// The stones of the other colour on a colour's marked points.
fn dead_stones(board: &Board, marks: &MarkedPoints, colour: Colour) -> Points
    requires { (p : ℕ) → marking marks.now colour p → p < length board.now.cells }
    ensures { Marks result (IsDead board.now (marking marks.now) colour) }
{
    let (marked, stones) = (marks.of(colour), board.stones(colour.other()));
    Points::chosen(board.size().area(), |point| {
        marked.contains(point) && stones.contains(point)
    })
}

/// The prisoners that a colour gets by the sealing.
fn gain(board: &Board, marks: &MarkedPoints, edges: &MarkedPoints, colour: Colour) -> u64
    requires within { (p : ℕ) → marking marks.now colour p → p < length board.now.cells }
    requires edges { AreEdges board.now (marking marks.now) edges.now }
    ensures value { IsGain board.now (marking marks.now) colour result }
    ensures few { result ≤ 2 * 65535 }
{
    u64::from(edges.of(colour).len()) + u64::from(dead_stones(board, marks, colour).len())
}

impl Replay {
    /// Seals the marked points.
    #[tactic(auto, using(crate::proofs::SealLemmas::seals))]
    fn seal(&mut self, marks: &MarkedPoints) -> Result<(), AllocError>
        requires within { (c : Colour) (p : ℕ) → marking marks.now c p
            → p < length self.old.board.cells }
        requires once { (p : ℕ) → ¬ IsMarkedTwice (marking marks.now) p }
        requires black { self.old.black ≤ 2 ^ 32 }
        requires white { self.old.white ≤ 2 ^ 32 }
        ensures sealed { OnOk result (Seals (marking marks.now) self.old self.new) }
        ensures black { OnOk result (self.new.black ≤ self.old.black + 2 * 65535) }
        ensures white { OnOk result (self.new.white ≤ self.old.white + 2 * 65535) }
    {
        let edges = edges(&self.board, marks);
        let black = gain(&self.board, marks, &edges, Colour::Black);
        let white = gain(&self.board, marks, &edges, Colour::White);
        seal_board(&mut self.board, marks, &edges)?;
        self.black += black;
        self.white += white;
        Ok(())
    }

    /// Seals what the properties of a node mark.
    #[tactic(auto, using(crate::proofs::SealLemmas::bad_marked, crate::proofs::SealLemmas::marked_within))]
    fn mark_territory(&mut self, node: u32, properties: &[Property]) -> Result<(), GoError>
        requires black { self.old.black ≤ 2 ^ 32 }
        requires white { self.old.white ≤ 2 ^ 32 }
        ensures answer { AnswersPart (MarksTerritory node
            (map property_text properties.now)) self.old self.new result }
        ensures closed { OnOk result (IsClosedOff self.new.board) }
        ensures black { OnOk result (self.new.black ≤ self.old.black + 2 * 65535) }
        ensures white { OnOk result (self.new.white ≤ self.old.white + 2 * 65535) }
    {
        let Some(marks) = marked_points(&self.board, properties) else {
            return Err(GoError::Fault(SetupFault::BadPoint(node)));
        };
        match marked_twice(&self.board, &marks) {
            Some(point) => Err(GoError::Fault(SetupFault::MarkedTwice(point))),
            None => Ok(self.seal(&marks)?),
        }
    }

    /// Seals what the last node read marks, where that is asked for.
    pub(crate) fn read_territory(&mut self, asked: bool, line: &[Node]) -> Result<(), GoError>
        requires last { IfSome self.old.last (λ n. n < length line.now) }
        requires undeclared { DeclaresNothing self.old.board }
        requires black { self.old.black ≤ 2 ^ 32 }
        requires white { self.old.white ≤ 2 ^ 32 }
        ensures answer { AnswersPart (TerritoryPart asked
            (map node_text line.now)) self.old self.new result }
        ensures closed { OnOk result (IsClosedOff self.new.board) }
        ensures undeclared { OnOk result ((asked ≡ false) → DeclaresNothing self.new.board) }
        ensures black { OnOk result (self.new.black ≤ self.old.black + 2 * 65535) }
        ensures white { OnOk result (self.new.white ≤ self.old.white + 2 * 65535) }
    {
        if !asked {
            return Ok(());
        }
        match self.last {
            None => Ok(()),
            Some(node) => self.mark_territory(node, &line[node as usize].properties),
        }
    }
}
