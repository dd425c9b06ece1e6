//! Placing stones, and positions from which a game opens.
#![tactic(auto)]

mod laws;
mod placements;
mod setup;

pub use laws::placing_laws;
pub use placements::{PlaceError, allowed, place};
pub use setup::{PositionError, Setup};
