//! The points that a node marks as territory.

ghost use Rattle.std.specs.Prelude.{map, Any, true, ◌≡◌, ◌≤◌, ◌<◌, ◌*◌, ◌↔◌, ◌⊎◌, length, IfSome, IfNone};
ghost use Rattle.std.specs.Bool.{OnTrue, OnFalse};
ghost use Rattle.go_grid.specs.Board.{HasStone};
ghost use Rattle.go_grid.specs.Marks.{IsMarked, Marks};
ghost use Rattle.sgf_tree.specs.Reading.{property_text};
ghost use Rattle.sgf_go.specs.inner.Reading.{rectangle};
ghost use Rattle.sgf_go.specs.inner.Territory.{AreMarked, Adds, AddsAll, marks_of};
ghost use Rattle.sgf_go.specs.Values.{IsInRectangle, trimmed};
ghost use Rattle.sgf_go.specs.Territory.{HasBadMark, HasValue, Names, NamesNothing, mark_name};
ghost use Rattle.go_grid.specs.declared.grid.Colour.{Colour};

use crate::properties::is_named;
use crate::replay::area_on;
use crate::values::{Area, trim};
use go_grid::{Board, Colour, Point, Points, Size};
use sgf_tree::Property;

/// A set of points for each colour.
#[derive(Drop)]
pub(crate) struct MarkedPoints {
    pub(crate) black: Points,
    pub(crate) white: Points,
}

impl MarkedPoints {
    /// The colour's points.
    pub(crate) fn of(&self, colour: Colour) -> &Points
        ensures { result.now ≡ marks_of self.now colour }
    {
        match colour {
            Colour::Black => &self.black,
            Colour::White => &self.white,
        }
    }
}

/// Whether a point lies in an area.
fn lies_in(size: Size, area: Area, point: Point) -> bool
    ensures { (result ≡ true) ↔ IsInRectangle size.columns (rectangle area) point }
{
    let columns = u16::from(size.columns);
    let (column, row) = (point.0 % columns, point.0 / columns);
    area.left <= column && column <= area.right && area.top <= row && row <= area.bottom
}

/// The points of an area.
fn area_points(size: Size, area: Area) -> Points
    requires column { area.right < size.columns }
    requires row { area.bottom < size.rows }
    ensures { Marks result (IsInRectangle size.columns (rectangle area)) }
{
    Points::chosen(size.area(), |point| lies_in(size, area, point))
}

/// Adds the points that a value names, if it names some or is empty.
#[tactic(auto, using(crate::proofs::MarkLemmas::adds_nothing, crate::proofs::MarkLemmas::adds_area, crate::proofs::MarkLemmas::names_nothing))]
fn mark_value(points: &mut Points, board: &Board, value: &[u8]) -> bool
    ensures added { OnTrue result (Adds (λ p. Names board.now p)
        (NamesNothing board.now) (trimmed value.now) points.old points.new) }
    ensures bad { OnFalse result (NamesNothing board.now (trimmed value.now)) }
{
    let text = trim(value);
    if text.is_empty() {
        return true;
    }
    match area_on(board, text) {
        None => false,
        Some(area) => {
            *points = points.union(&area_points(board.size(), area));
            true
        }
    }
}

/// Adds the points that the values name, if each names some or is empty.
fn mark_values(points: &mut Points, board: &Board, values: &[Vec<u8>]) -> bool
    ensures added { OnTrue result (AddsAll (λ p v. Names board.now p (trimmed v.items))
        (λ v. NamesNothing board.now (trimmed v.items)) values.now points.old points.new) }
    ensures bad { OnFalse result (Any (λ v. NamesNothing board.now
        (trimmed v.items)) values.now) }
{
    for at in 0..values.len() {
        if !mark_value(points, board, &values[at]) {
            return false;
        }
    }
    true
}

/// The same of a property, if it has the name.
#[tactic(auto, using(crate::proofs::MarkLemmas::adds_unnamed))]
fn mark_property(points: &mut Points, board: &Board, name: &[u8], property: &Property) -> bool
    ensures added { OnTrue result (Adds (λ p. HasValue name.now (Names board.now p))
        (HasValue name.now (NamesNothing board.now))
        (property_text property.now) points.old points.new) }
    ensures bad { OnFalse result (HasValue name.now (NamesNothing board.now)
        (property_text property.now)) }
{
    if !is_named(property, name) {
        return true;
    }
    mark_values(points, board, &property.values)
}

/// The same of each property that has the name.
fn mark_properties(points: &mut Points, board: &Board, name: &[u8], properties: &[Property]) -> bool
    ensures added { OnTrue result (AddsAll (λ p x. HasValue name.now (Names board.now p)
        (property_text x)) (λ x. HasValue name.now (NamesNothing board.now)
        (property_text x)) properties.now points.old points.new) }
    ensures bad { OnFalse result (Any (λ x. HasValue name.now (NamesNothing board.now)
        (property_text x)) properties.now) }
{
    for at in 0..properties.len() {
        if !mark_property(points, board, name, &properties[at]) {
            return false;
        }
    }
    true
}

/// The points that the properties name for a colour, or none where a value names nothing.
fn named_points(board: &Board, colour: Colour, properties: &[Property]) -> Option<Points>
    ensures some { IfSome result (λ points. Marks points (λ p. Any (HasValue
        (mark_name colour) (Names board.now p)) (map property_text properties.now))) }
    ensures good { IfSome result (λ _. ¬ Any (HasValue (mark_name colour)
        (NamesNothing board.now)) (map property_text properties.now)) }
    ensures none { IfNone result (Any (HasValue (mark_name colour)
        (NamesNothing board.now)) (map property_text properties.now)) }
{
    let mut points = Points::new();
    if mark_properties(&mut points, board, mark_name(colour), properties) {
        Some(points)
    } else {
        None
    }
}

/// The property that marks points for a colour.
fn mark_name(colour: Colour) -> &'static [u8]
    ensures { result.now ≡ mark_name colour }
{
    match colour {
        Colour::Black => b"TB",
        Colour::White => b"TW",
    }
}

/// The points of the board among these that hold no stone of the colour.
fn without_stones(board: &Board, colour: Colour, points: &Points) -> Points
    ensures { Marks result (λ p. (p < length board.now.cells) × IsMarked points.now p
        × ¬ HasStone board.now colour p) }
{
    let stones = board.stones(colour);
    Points::chosen(board.size().area(), |point| {
        points.contains(point) && !stones.contains(point)
    })
}

/// The points that the properties of a node mark, or none where a value names nothing.
#[tactic(auto, using(crate::proofs::MarkLemmas::good_both))]
pub(crate) fn marked_points(board: &Board, properties: &[Property]) -> Option<MarkedPoints>
    ensures some { IfSome result (λ m. AreMarked (map property_text properties.now)
        board.now m) }
    ensures good { IfSome result (λ _. ¬ HasBadMark (map property_text properties.now)
        board.now) }
    ensures none { IfNone result (HasBadMark (map property_text properties.now) board.now) }
{
    let black = named_points(board, Colour::Black, properties)?;
    let white = named_points(board, Colour::White, properties)?;
    Some(MarkedPoints {
        black: without_stones(board, Colour::Black, &black),
        white: without_stones(board, Colour::White, &white),
    })
}
