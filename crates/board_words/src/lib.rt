//! The words of a board and of numbers, and lines of words.
#![tactic(auto)]

mod komi;
mod numbers;
mod words;

pub use komi::write_komi_word;
pub use numbers::{is_numeral, read_number};
pub use words::{colour_word, write_name, write_point, write_words};
