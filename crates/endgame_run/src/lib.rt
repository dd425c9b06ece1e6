//! The top call: words, a shelf, a source and a sink go in, and a status comes out.
#![tactic(auto)]

mod console;
mod engine;
mod file_limit;
mod game;
mod opening;
mod program;
mod question;
mod top;

pub use endgame_questions::Status;
pub use program::{code_of_run, start};
pub use sgf_go::FileFault;
pub use top::run;
