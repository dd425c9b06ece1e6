//! Cycles of local moves.

use go_grid::Colour;
use item_list::ItemList;

/// A local move by its colour and place.
#[derive(Clone, Copy, Debug, PartialEq, Eq)]
pub struct CycleMove {
    pub colour: Colour,
    pub place: u8,
}

/// A list of local moves.
pub type CycleList = ItemList<CycleMove>;
