//! Handicap stones.

ghost use Rattle.std.specs.Prelude.{true, ◌≡◌, ◌↔◌, ◌<◌, ◌≤◌, ◌*◌, All, length, map, IfOk, IfSome, IfNone, OnErr, string_bytes};
ghost use Rattle.board_orders.specs.Handicaps.{HasMiddle, HasPlaces, IsAstray, IsBare, NamesPoint, fixed_points, line_at, margin, place_point, places};
ghost use Rattle.board_orders.specs.Orders.BoardOrder.{fixed_handicap, free_handicap};
ghost use Rattle.std.specs.Option.{option_map};
ghost use Rattle.board_orders.specs.States.{present};
ghost use Rattle.board_orders.specs.inner.Doing.{AreRead, IsPut, IsSetOut};
ghost use Rattle.board_orders.specs.Doing.{IsDone};

use crate::refusal::{Refusal, refuse};
use crate::session::BoardSession;
use crate::texts::vertices_text;
use crate::wanted::find_point;
use go_grid::{Board, Cell, Colour, Point, Size};
use go_play::place;
use gtp_words::read_vertex;
use item_list::ItemList;
use std::alloc::{AllocError, Global};

/// Whether no stone stands on the board.
fn is_bare(board: &Board) -> bool
    ensures { (result ≡ true) ↔ IsBare board.now }
{
    'points: for number in 0..board.size().area() {
        if !board.get(Point(number)).is(Cell::Empty) {
            return false;
        }
    }
    true
}

/// The point of a board of the size that a word names.
fn read_point(size: Size, word: &[u8]) -> Option<Point>
    ensures some { IfSome result (NamesPoint size.columns size.rows word.now) }
    ensures on_board { IfSome result (λ p. p < size.columns * size.rows) }
    ensures none { IfNone result (IsAstray size.columns size.rows word.now) }
{
    match read_vertex(word) {
        Some(vertex) => find_point(size, vertex),
        None => None,
    }
}

/// The points of a board of the size that words name.
fn read_points(alloc: Global, size: Size, words: &[&[u8]]) -> Result<Option<Vec<Point>>, AllocError>
    ensures { IfOk result (λ points. AreRead size.columns size.rows (map (λ w. w.now) words.now)
        (option_map (λ v. v.items) points)) }
{
    let mut points = Vec::new(alloc);
    'words: for at in 0..words.len() {
        match read_point(size, words[at]) {
            Some(point) => points.push(point)?,
            None => return Ok(None),
        }
    }
    Ok(Some(points))
}

/// The board with Black stones at the points, where they may be placed.
fn put_stones(board: &Board, points: &[Point]) -> Result<Option<Board>, AllocError>
    requires { All (λ p. p < board.now.columns * board.now.rows) points.now }
    ensures { IfOk result (IsPut board.now points.now) }
{
    let mut held = board.copy()?;
    'stones: for at in 0..points.len() {
        let _size = held.size();
        match place(&mut held, points[at], Colour::Black) {
            Ok(_number) => {}
            Err(_) => return Ok(None),
        }
    }
    Ok(Some(held))
}

/// How far the outer lines lie from the edge.
fn margin(lines: u8) -> u8
    ensures { result ≡ margin lines }
{
    if lines < 13 { 2 } else { 3 }
}

/// The first, the middle or the last of three lines among so many.
fn line_at(lines: u8, place: u8) -> u8
    requires { 7 ≤ lines }
    ensures value { result ≡ line_at lines place }
    ensures within { result < lines }
{
    if place == 0 {
        return margin(lines);
    }
    if place == 1 {
        return lines / 2;
    }
    lines - 1 - margin(lines)
}

/// The point of a place.
fn place_point(size: Size, place: u8) -> Point
    requires columns { 7 ≤ size.columns }
    requires rows { 7 ≤ size.rows }
    ensures value { result ≡ place_point size.columns size.rows place }
    ensures on_board { result < size.columns * size.rows }
{
    let row = u16::from(line_at(size.rows, place / 3));
    let column = u16::from(line_at(size.columns, place % 3));
    Point(row * u16::from(size.columns) + column)
}

/// The places of so many stones.
fn places(number: u64) -> &'static [u8]
    ensures { result.now ≡ places number }
{
    if number == 2 {
        return &[6, 2];
    }
    if number == 3 {
        return &[6, 2, 0];
    }
    if number == 4 {
        return &[6, 2, 0, 8];
    }
    if number == 5 {
        return &[6, 2, 0, 8, 4];
    }
    if number == 6 {
        return &[6, 2, 0, 8, 3, 5];
    }
    if number == 7 {
        return &[6, 2, 0, 8, 3, 5, 4];
    }
    if number == 8 {
        return &[6, 2, 0, 8, 3, 5, 7, 1];
    }
    &[6, 2, 0, 8, 3, 5, 7, 1, 4]
}

/// Whether the board has a middle line both ways, and room beside it.
fn has_middle(size: Size) -> bool
    ensures { (result ≡ true) ↔ HasMiddle size.columns size.rows }
{
    size.columns >= 9 && size.rows >= 9 && size.columns % 2 == 1 && size.rows % 2 == 1
}

/// Whether the board has room for so many fixed stones.
fn has_places(size: Size, number: u64) -> bool
    ensures { (result ≡ true) ↔ HasPlaces size.columns size.rows number }
{
    if size.columns < 7 || size.rows < 7 || number < 2 {
        return false;
    }
    number <= 4 || (number <= 9 && has_middle(size))
}

/// The points of so many fixed stones.
fn fixed_points(alloc: Global, size: Size, number: u64) -> Result<Vec<Point>, AllocError>
    requires columns { 7 ≤ size.columns }
    requires rows { 7 ≤ size.rows }
    ensures value { IfOk result (λ points. points.items
        ≡ fixed_points size.columns size.rows number) }
    ensures on_board { IfOk result (λ points. All (λ p. p < size.columns * size.rows)
        points.items) }
{
    let places = places(number);
    let mut points = Vec::new(alloc);
    'places: for at in 0..places.len() {
        points.push(place_point(size, places[at]))?;
    }
    Ok(points)
}

impl BoardSession {
    /// Begins with Black stones at the points, where they may be placed.
    fn set_out(
        &mut self,
        id: &[u8],
        text: &[u8],
        why: Refusal,
        points: &[Point],
    ) -> Result<ItemList<u8>, AllocError>
        requires { All (λ p. p < (present self.old).board.columns * (present self.old).board.rows)
            points.now }
        ensures set { IfOk result (λ reply. IsSetOut
            text.now why points.now id.now self.old reply self.new) }
        ensures same { OnErr result (self.new ≡ self.old) }
    {
        let board = put_stones(&self.present().board, points)?;
        match board {
            Some(board) => self.begin_with(id, text, board, points.len()),
            None => refuse(self.allocator(), id, why),
        }
    }

    /// Handicap stones at the points that words name.
    pub(crate) fn set_free(
        &mut self,
        id: &[u8],
        words: &[&[u8]],
    ) -> Result<ItemList<u8>, AllocError>
        ensures set { IfOk result (λ reply. IsDone
            (free_handicap (map (λ w. w.now) words.now)) id.now self.old reply self.new) }
        ensures same { OnErr result (self.new ≡ self.old) }
    {
        let alloc = self.allocator();
        if !is_bare(&self.present().board) {
            return refuse(alloc, id, Refusal::BoardNotEmpty);
        }
        let size = self.present().board.size();
        let points = read_points(alloc, size, words)?;
        match points {
            Some(points) => self.set_out(id, b"", Refusal::BadVertexList, &points),
            None => refuse(alloc, id, Refusal::BadVertexList),
        }
    }

    /// Handicap stones at their fixed points.
    pub(crate) fn set_fixed(&mut self, id: &[u8], number: u64) -> Result<ItemList<u8>, AllocError>
        ensures set { IfOk result (λ reply. IsDone
            (fixed_handicap number) id.now self.old reply self.new) }
        ensures same { OnErr result (self.new ≡ self.old) }
    {
        let alloc = self.allocator();
        if !is_bare(&self.present().board) {
            return refuse(alloc, id, Refusal::BoardNotEmpty);
        }
        let size = self.present().board.size();
        if !has_places(size, number) {
            return refuse(alloc, id, Refusal::BadNumberOfStones);
        }
        let points = fixed_points(alloc, size, number)?;
        let text = vertices_text(alloc, size, &points)?;
        self.set_out(id, text.as_bytes(), Refusal::BadNumberOfStones, &points)
    }
}
