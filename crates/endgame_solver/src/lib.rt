//! The decomposition of the whole game into its regions of play.
#![tactic(auto)]

mod asked;
mod balance;
mod cycle_names;
mod engine_choice;
mod faults;
mod known;
mod laws;
mod limits;
mod line_of_play;
mod outcomes;
mod region_values;
mod regions_of_play;
mod solved;
mod solved_regions;
mod thresholds;
mod view_book;
mod views;
mod winning_moves;

pub use balance::balance_of;
pub use cycle_names::CycleNames;
pub use faults::SolveError;
pub use known::{Known, first_known};
pub use laws::{decomposition_laws, line_laws, shape_laws, threshold_laws};
pub use limits::{Limits, MOST_PARTS, limit_laws};
pub use regions_of_play::{Opening, first_large, opening_of};
pub use solved::{RegionReport, Solved};
pub use thresholds::{margin_of, raised};
pub use winning_moves::is_stone_at;
