//! Games that the engine plays, with or without kos.
#![tactic(auto)]

mod cycle_player;
mod kept;
mod player;

pub use cycle_player::{CyclePlayer, MOST_MOVES};
pub use player::Player;
