//! The words of the command line.
#![tactic(auto)]

mod choice;
mod chosen;
mod job;
mod laws;
mod limits;
mod value;
mod words;

pub use choice::{MOST_MOVES, MOST_PARTS};
pub use job::{Command, CycleQuestion, Job, Question};
pub use laws::words_laws;
pub use limits::limit_laws;
pub use words::{Usage, read};
