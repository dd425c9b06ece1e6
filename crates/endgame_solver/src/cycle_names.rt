//! Cycles of moves with points of the board.

use go_grid::{Colour, Point};
use item_list::ItemList;

/// A list of stones, each with its colour and its point of the board.
pub type CycleNames = ItemList<(Colour, Point)>;
