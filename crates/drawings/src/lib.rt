//! Boards and regions for tests, drawn row by row with X for black and O for white. No program uses them.
#![tactic(auto)]

mod boards;
mod joined_regions;
mod regions;

pub use boards::{board, cell_of, declared_board};
pub use joined_regions::{JoinedDrawing, joined_region};
pub use regions::{Drawing, region};
