//! What is known of a place of an image.

use std::hash::Hash;

/// A place of an image: its row and its column, whether a black or a white stone stands there, and whether it is next to alive
/// stones of a colour. Places are ordered row by row.
#[derive(Clone, Copy, Debug, PartialEq, Eq, PartialOrd, Ord, Hash)]
pub struct Spot {
    pub row: u16,
    pub column: u16,
    pub black: bool,
    pub white: bool,
    pub beside_black: bool,
    pub beside_white: bool,
}
