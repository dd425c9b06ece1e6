//! The texts that the commands write where kos can arise.
#![tactic(auto)]

mod cycle_analysis;
mod cycle_solution;
mod cycle_values;

pub use cycle_analysis::{cycle_margin_text, cycle_moves_text};
pub use cycle_solution::cycle_solve_text;
pub use cycle_values::cycle_values_text;
