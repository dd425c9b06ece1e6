//! Shapes, and how positions are turned into them.

use crate::spots::Spot;
use std::hash::Hash;

/// The shape of a local position. Two positions have equal shapes exactly where one is the other turned, mirrored or with
/// its colours exchanged.
#[derive(PartialEq, Eq, Hash, Drop)]
pub struct Shape {
    pub(crate) spots: Vec<Spot>,
}

/// How a position is turned into its shape: place `i` of the region goes to place `places[i]` of the shape, and the colours
/// are exchanged exactly where `colours` is true. Entries past the region's places are 0.
#[derive(Clone, Copy, Debug)]
pub struct Turn {
    pub places: [u8; 32],
    pub colours: bool,
}
