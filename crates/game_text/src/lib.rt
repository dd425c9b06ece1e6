//! The texts of canonical forms: how they are written, and how they are read.
#![tactic(auto)]

mod errors;
mod laws;
mod named_games;
mod names;
mod numbers;
mod pending;
mod reading;
mod text;
mod texts;
mod writing;

pub use errors::{ReadError, WriteError};
pub use laws::{named_text_laws, text_laws};
pub use numbers::number_text;
pub use reading::read;
pub use text::Text;
pub use writing::write;
