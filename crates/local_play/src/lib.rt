//! Local play in a region of play: the stones around it are alive and never change, so what a stone does in it is
//! decided by the region alone.
#![tactic(auto)]

mod expansions;
mod limits;
mod links;
mod local;
mod local_move;
mod local_moves;
mod places;
mod sides;
mod steps;

pub use expansions::{expand, list_moves};
pub use limits::limit_laws;
pub use links::Links;
pub use local::{Local, start};
pub use local_move::LocalMove;
pub use local_moves::LocalMoves;
pub use places::{Cells, MOST_PLACES};
pub use steps::Steps;
