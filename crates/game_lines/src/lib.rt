//! The lines that show a game: its text, stops, mean, temperature and the walls of its thermograph.
#![tactic(auto)]

mod picture;
mod showing;

pub use showing::{ShowError, Showing, show, write_labelled, write_showing};
