//! The whole game where regions have cycles: who wins, and with how many captures that return.
#![tactic(auto)]

mod asked;
mod asking;
mod book;
mod changes;
mod cycle_game;
mod engine_turns;
mod faults;
mod holding_moves;
mod keeping_moves;
mod laws;
mod least_budgets;
mod limits;
mod negatives;
mod one_sum;
mod region_game;
mod shape_games;
mod shapes;
mod shared_games;
mod solved_regions;
mod thresholds;
mod views;
mod winning_moves;

pub use asking::{Present, Start, captures_of, start_of, winner_of};
pub use cycle_game::{CycleGame, CycleReport};
pub use faults::CycleError;
pub use laws::{cycle_shape_laws, cycle_threshold_laws};
pub use limits::{MOST_CAPTURES, limit_laws};
pub use region_game::{RegionGame, values_for};
pub use shape_games::region_games;
pub use shared_games::RegionGames;
pub use thresholds::Thresholds;
