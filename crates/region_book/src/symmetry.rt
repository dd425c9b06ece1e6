//! The symmetries of the square, and where places stand after them.

ghost use Rattle.std.specs.Prelude.{◌≡◌, ◌*◌, ◌/◌, ◌%◌, ◌<◌, ◌≤◌, ◌⊎◌, length};
ghost use Rattle.region_book.specs.Image.{BeginsAt, IsOnBoard, column_of, one_of, row_of, side};

use go_grid::{Point, Region, Size};

/// One of the eight symmetries of the square: columns and rows change places or not, and then the columns and the rows
/// are each turned over or not.
#[derive(Clone, Copy)]
pub struct Symmetry {
    pub exchange: bool,
    pub columns: bool,
    pub rows: bool,
}

/// A column and a row.
#[derive(Clone, Copy)]
pub(crate) struct Stand {
    pub(crate) column: u16,
    pub(crate) row: u16,
}

/// A column or row of the largest board, counted from the other side where it is turned over.
fn side(over: bool, number: u16) -> u16
    requires { number ≤ 24 }
    ensures value { result ≡ side over number }
    ensures small { result ≤ 24 }
{
    if over { 24 - number } else { number }
}

/// The first, or the second where the two change places.
fn one_of(exchange: bool, first: u16, second: u16) -> u16
    ensures { result ≡ one_of exchange first second }
{
    if exchange { second } else { first }
}

/// Where a point stands.
fn stand_of(size: Size, point: Point) -> Stand
    requires { point < size.columns * size.rows }
    ensures column { result.column ≡ point % size.columns }
    ensures row { result.row ≡ point / size.columns }
    ensures column_small { result.column ≤ 24 }
    ensures row_small { result.row ≤ 24 }
{
    let columns = u16::from(size.columns);
    Stand {
        column: point.0 % columns,
        row: point.0 / columns,
    }
}

/// Where a place of a region stands after a symmetry.
pub(crate) fn turned(region: &Region, symmetry: Symmetry, place: usize) -> Stand
    requires { place < length region.now.points }
    ensures column { result.column ≡ column_of region.now symmetry place }
    ensures row { result.row ≡ row_of region.now symmetry place }
    ensures column_small { result.column ≤ 24 }
    ensures row_small { result.row ≤ 24 }
{
    let shape = region;
    let at = stand_of(shape.size, shape.points[place]);
    let column = one_of(symmetry.exchange, at.column, at.row);
    let row = one_of(symmetry.exchange, at.row, at.column);
    Stand {
        column: side(symmetry.columns, column),
        row: side(symmetry.rows, row),
    }
}

/// The number of places of a region.
pub(crate) fn places(region: &Region) -> usize
    ensures value { result ≡ length region.now.points }
    ensures some { 0 < result }
    ensures board { IsOnBoard region.now }
{
    let shape = region;
    shape.points.len()
}

/// The lower of two numbers.
fn lower(a: u16, b: u16) -> u16
    ensures one { (result ≡ a) ⊎ (result ≡ b) }
    ensures first { result ≤ a }
    ensures second { result ≤ b }
{
    if a <= b {
        return a;
    }
    b
}

/// Where a region begins after a symmetry.
pub(crate) fn begin(region: &Region, symmetry: Symmetry) -> Stand
    ensures begins { BeginsAt region.now symmetry result.column result.row }
    ensures board { IsOnBoard region.now }
{
    let count = places(region);
    let first = turned(region, symmetry, 0);
    let mut column = first.column;
    let mut row = first.row;
    for place in 1..count {
        let at = turned(region, symmetry, place);
        column = lower(column, at.column);
        row = lower(row, at.row);
    }
    Stand { column, row }
}
