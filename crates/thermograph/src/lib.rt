//! Thermographs of games (Siegel, Combinatorial Game Theory): how the stops change when each move costs t, and the mean
//! and the temperature that this shows.
#![tactic(auto)]

mod breaks;
mod drawings;
mod error;
mod followers;
mod meeting;
mod scaffold;
mod side;
mod thermographs;
mod wall;

pub use error::ThermoError;
pub use thermographs::{Thermograph, draw};
pub use wall::Wall;
