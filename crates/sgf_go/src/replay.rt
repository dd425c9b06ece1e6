//! The nodes of a main line, one after the other.

ghost use Rattle.std.specs.Prelude.{map, sum_by, Some, None, ◌≡◌, ◌≤◌, ◌<◌, ◌+◌, ◌*◌, length, IfSome, OnOk};
ghost use Rattle.std.specs.Option.{option_map};
ghost use Rattle.sgf_go.specs.inner.Reading.{rectangle};
ghost use Rattle.sgf_go.specs.Values.{IsInRectangle, Says, IsArea, trimmed};
ghost use Rattle.sgf_go.specs.inner.Values.{IsInRow};
ghost use Rattle.go_grid.specs.Name.{IsName};
ghost use Rattle.sgf_go.specs.Setup.{Follows, Counts, IsSet, SetsValue, For, SetsProperty, MovesAsChosen, stone_at, Moves, MovesProperty, NodePart, LinePart, moved, with_taken, is_pass, TurnsByProperty};
ghost use Rattle.sgf_tree.specs.Reading.{property_text, node_text};

use crate::fault::SetupFault;
use crate::properties::{ends_before, first_of, mover, read_side, set_cell, value_of};
use crate::values::{Area, read_area, read_point, trim};
use go_grid::{Board, Cell, Colour, Point};
use go_play::{PlaceError, place};
use sgf_tree::{MOST_BYTES, Node, Property};

/// How things stand along the line: the board, the stones that each side's moves have taken, the side to move, the
/// moves and passes so far, and the last node read.
#[derive(Drop)]
pub struct Replay {
    pub board: Board,
    pub black: u64,
    pub white: u64,
    pub side: Colour,
    pub played: u32,
    pub last: Option<u32>,
}

/// An area that a text names on a board.
pub(crate) fn area_on(board: &Board, text: &[u8]) -> Option<Area>
    ensures value { Says (IsArea board.now.columns board.now.rows text.now)
        (option_map rectangle result) }
    ensures within { IfSome result (λ a. (a.right < board.now.columns)
        × (a.bottom < board.now.rows)) }
{
    read_area(board.size(), text)
}

/// A point that a text names on a board.
fn point_on(board: &Board, text: &[u8]) -> Option<Point>
    ensures value { Says (IsName board.now.columns board.now.rows text.now) result }
    ensures within { IfSome result (λ p. p < length board.now.cells) }
{
    read_point(board.size(), text)
}

/// Sets the points of a row from one column to another.
#[tactic(auto, using(crate::proofs::AreaLemmas::row_start, crate::proofs::AreaLemmas::row_step, crate::proofs::AreaLemmas::row_end))]
fn set_row(board: &mut Board, row: u16, left: u16, right: u16, cell: Cell)
    requires column { right < board.old.columns }
    requires row { row < board.old.rows }
    ensures { IsSet board.old (IsInRow board.old.columns row left right) cell board.new }
{
    let size = board.size();
    let start = row * u16::from(size.columns);
    for column in left..right + 1 {
        board.set(Point(start + column), cell);
    }
}

/// Sets the points of an area.
#[tactic(auto, using(crate::proofs::AreaLemmas::area_start, crate::proofs::AreaLemmas::area_step, crate::proofs::AreaLemmas::area_end))]
fn set_area(board: &mut Board, area: Area, cell: Cell)
    requires column { area.right < board.old.columns }
    requires row { area.bottom < board.old.rows }
    ensures { IsSet board.old (IsInRectangle board.old.columns (rectangle area)) cell board.new }
{
    let _size = board.size();
    for row in area.top..area.bottom + 1 {
        set_row(board, row, area.left, area.right, cell);
    }
}

impl Replay {
    /// A value of AB, AW or AE.
    #[tactic(auto, using(crate::proofs::PartLemmas::sets_nothing, crate::proofs::PartLemmas::sets_area, crate::proofs::PartLemmas::sets_fault))]
    fn set_value(&mut self, node: u32, cell: Cell, value: &[u8]) -> Result<(), SetupFault>
        ensures follows { Follows (SetsValue node cell
            (trimmed value.now)) self.old self.new result }
        ensures played { self.new.played ≡ self.old.played }
        ensures black { self.new.black ≡ self.old.black }
        ensures white { self.new.white ≡ self.old.white }
    {
        let text = trim(value);
        if text.is_empty() {
            return Ok(());
        }
        match area_on(&self.board, text) {
            None => Err(SetupFault::BadPoint(node)),
            Some(area) => {
                set_area(&mut self.board, area, cell);
                Ok(())
            }
        }
    }

    /// The values of AB, AW or AE, in order.
    #[tactic(auto, using(crate::proofs::PartLemmas::goes_step, crate::proofs::PartLemmas::goes_fault, crate::proofs::PartLemmas::goes_end))]
    fn set_values(&mut self, node: u32, cell: Cell, values: &[Vec<u8>]) -> Result<(), SetupFault>
        ensures follows { Follows (For (λ v. SetsValue node cell
            (trimmed v.items)) values.now) self.old self.new result }
        ensures played { self.new.played ≡ self.old.played }
        ensures black { self.new.black ≡ self.old.black }
        ensures white { self.new.white ≡ self.old.white }
    {
        for at in 0..values.len() {
            self.set_value(node, cell, &values[at])?;
        }
        Ok(())
    }

    /// A move or pass more.
    fn count_move(&mut self, colour: Colour)
        requires { self.old.played < MOST_BYTES }
        ensures { self.new ≡ moved colour self.old }
    {
        self.side = colour.other();
        self.played += 1;
    }

    /// Stones that a move took.
    fn take(&mut self, colour: Colour, taken: u16)
        requires counts { Counts self.old }
        requires few { self.old.played ≤ MOST_BYTES }
        ensures { self.new ≡ with_taken colour taken self.old }
    {
        match colour {
            Colour::Black => self.black += u64::from(taken),
            Colour::White => self.white += u64::from(taken),
        }
    }

    /// A move at a point.
    fn put_stone(&mut self, node: u32, colour: Colour, point: Point) -> Result<(), SetupFault>
        requires point { point < length self.old.board.cells }
        requires counts { Counts self.old }
        requires few { self.old.played < MOST_BYTES }
        ensures follows { Follows (MovesAsChosen node colour (stone_at point))
            self.old self.new result }
        ensures counts { OnOk result (Counts self.new) }
        ensures played { OnOk result (self.new.played ≡ self.old.played + 1) }
    {
        let _size = self.board.size();
        match place(&mut self.board, point, colour) {
            Ok(taken) => {
                self.take(colour, taken);
                self.count_move(colour);
                Ok(())
            }
            Err(PlaceError::Occupied) => Err(SetupFault::Occupied(node)),
            Err(PlaceError::Suicide) => Err(SetupFault::Suicide(node)),
        }
    }

    /// A property that sets points, or any other.
    #[tactic(auto, using(crate::proofs::PartLemmas::follows_values, crate::proofs::PartLemmas::follows_nothing))]
    fn set_property(&mut self, node: u32, property: &Property) -> Result<(), SetupFault>
        ensures follows { Follows (SetsProperty node
            (property_text property.now)) self.old self.new result }
        ensures played { self.new.played ≡ self.old.played }
        ensures black { self.new.black ≡ self.old.black }
        ensures white { self.new.white ≡ self.old.white }
    {
        match set_cell(property) {
            Some(cell) => self.set_values(node, cell, &property.values),
            None => Ok(()),
        }
    }

    /// The properties of a node that set points.
    fn set_properties(&mut self, node: u32, properties: &[Property]) -> Result<(), SetupFault>
        ensures follows { Follows (For (λ p. SetsProperty node
            (property_text p)) properties.now) self.old self.new result }
        ensures played { OnOk result (self.new.played ≡ self.old.played) }
        ensures black { OnOk result (self.new.black ≡ self.old.black) }
        ensures white { OnOk result (self.new.white ≡ self.old.white) }
    {
        for at in 0..properties.len() {
            self.set_property(node, &properties[at])?;
        }
        Ok(())
    }

    /// A property that moves, or any other.
    #[tactic(auto, using(crate::proofs::PartLemmas::moves_by, crate::proofs::PartLemmas::moves_nothing))]
    fn move_property(&mut self, node: u32, property: &Property) -> Result<(), SetupFault>
        requires counts { Counts self.old }
        requires few { self.old.played < MOST_BYTES }
        ensures follows { Follows (MovesProperty node
            (property_text property.now)) self.old self.new result }
        ensures counts { OnOk result (Counts self.new) }
        ensures played { OnOk result (self.new.played ≤ self.old.played + 1) }
    {
        match mover(property) {
            Some(colour) => self.play(node, colour, first_of(property)),
            None => Ok(()),
        }
    }

    /// The properties of a node that move.
    fn move_properties(&mut self, node: u32, properties: &[Property]) -> Result<(), SetupFault>
        requires counts { Counts self.old }
        requires few { self.old.played + length properties.now ≤ MOST_BYTES }
        ensures follows { Follows (For (λ p. MovesProperty node
            (property_text p)) properties.now) self.old self.new result }
        ensures counts { OnOk result (Counts self.new) }
        ensures played { OnOk result (self.new.played ≤ self.old.played + length properties.now) }
    {
        for at in 0..properties.len() {
            self.move_property(node, &properties[at])?;
        }
        Ok(())
    }

    /// PL, where the settings give no turn.
    fn set_side(&mut self, turn: Option<Colour>, properties: &[Property]) -> Result<(), SetupFault>
        ensures follows { Follows (TurnsByProperty turn
            (map property_text properties.now)) self.old self.new result }
        ensures played { self.new.played ≡ self.old.played }
        ensures black { self.new.black ≡ self.old.black }
        ensures white { self.new.white ≡ self.old.white }
    {
        if turn.is_some() {
            return Ok(());
        }
        match value_of(properties, b"PL") {
            None => Ok(()),
            Some(text) => match read_side(text) {
                None => Err(SetupFault::BadSide),
                Some(colour) => {
                    self.side = colour;
                    Ok(())
                }
            },
        }
    }

    /// A node: its setup, then its side, then its moves.
    #[tactic(auto, using(crate::proofs::PartLemmas::node_follows, crate::proofs::PartLemmas::node_fault, crate::proofs::PartLemmas::side_fault, crate::proofs::PartLemmas::counts_same))]
    fn read_node(
        &mut self,
        turn: Option<Colour>,
        node: u32,
        properties: &[Property],
    ) -> Result<(), SetupFault>
        requires counts { Counts self.old }
        requires few { self.old.played + length properties.now ≤ MOST_BYTES }
        ensures follows { Follows (NodePart turn node
            (map property_text properties.now)) self.old self.new result }
        ensures counts { OnOk result (Counts self.new) }
        ensures played { OnOk result (self.new.played ≤ self.old.played + length properties.now) }
        ensures last { OnOk result (self.new.last ≡ Some node) }
    {
        self.set_properties(node, properties)?;
        self.set_side(turn, properties)?;
        self.move_properties(node, properties)?;
        self.last = Some(node);
        Ok(())
    }

    /// The nodes of a line, up to the first move after so many.
    #[tactic(auto, using(std::proofs::lemmas::List::Sums::sum_by_more_le))]
    pub(crate) fn read_line(
        &mut self,
        after: Option<u32>,
        turn: Option<Colour>,
        line: &[Node],
    ) -> Result<(), SetupFault>
        requires start { self.old.played ≡ 0 }
        requires unread { self.old.last ≡ None }
        requires counts { Counts self.old }
        requires nodes { length line.now ≤ MOST_BYTES }
        requires few { sum_by (λ n. length n.properties.items) line.now ≤ MOST_BYTES }
        ensures follows { Follows (LinePart after turn 0
            (map node_text line.now)) self.old self.new result }
        ensures counts { OnOk result (Counts self.new) }
        ensures played { OnOk result (self.new.played ≤ MOST_BYTES) }
        ensures last { OnOk result (IfSome self.new.last (λ n. n < length line.now)) }
    {
        'nodes: for at in 0..line.len() {
            let properties = line[at].properties.as_slice();
            if ends_before(after, properties, self.played) {
                return Ok(());
            }
            self.read_node(turn, at as u32, properties)?;
        }
        Ok(())
    }

    /// A move by its text.
    fn play(&mut self, node: u32, colour: Colour, value: &[u8]) -> Result<(), SetupFault>
        requires counts { Counts self.old }
        requires few { self.old.played < MOST_BYTES }
        ensures follows { Follows (Moves node (Some colour)
            (trimmed value.now)) self.old self.new result }
        ensures counts { OnOk result (Counts self.new) }
        ensures played { OnOk result (self.new.played ≡ self.old.played + 1) }
    {
        let text = trim(value);
        if is_pass_on(&self.board, text) {
            self.count_move(colour);
            return Ok(());
        }
        match point_on(&self.board, text) {
            Some(point) => self.put_stone(node, colour, point),
            None => Err(SetupFault::BadPoint(node)),
        }
    }
}

/// Whether a text is a pass on a board.
fn is_pass_on(board: &Board, text: &[u8]) -> bool
    ensures { result ≡ is_pass board.now text.now }
{
    if text.is_empty() {
        return true;
    }
    let size = board.size();
    text == b"tt".as_slice() && size.columns <= 19 && size.rows <= 19
}
