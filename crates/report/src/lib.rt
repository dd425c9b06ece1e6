//! The texts that the commands write, where no ko can arise.
#![tactic(auto)]

mod analysis;
mod board;
mod chains;
mod komi;
mod play_line;
mod safety;
mod score;
mod solution;
mod top_stones;
mod trial;
mod values;

pub use analysis::{margin_text, moves_text};
pub use board::{Terms, board_text};
pub use komi::{write_komi, write_komi_pair};
pub use play_line::line_text;
pub use safety::safe_text;
pub use score::{Score, score_of};
pub use solution::{solve_text, write_chosen, write_count, write_region, write_state};
pub use top_stones::top_stones_text;
pub use trial::trial_text;
pub use values::{ValuesError, add_region, show_value, values_text};
