//! The regions of play of a settled board.
#![tactic(auto)]

mod cuts;
mod laws;
mod region_touches;

pub use cuts::{cut, cut_territory};
pub use laws::local_play_laws;
