//! The words of faults that keep a position from being solved, with its points named as in records or as in the Go Text
//! Protocol.
#![tactic(auto)]

mod naming;
mod words;

pub use naming::{Naming, write_point_name};
pub use words::{cycle_words, fault_words, form_words, points_words, positions_words};
