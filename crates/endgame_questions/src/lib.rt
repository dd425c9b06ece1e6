//! What one text answers: questions about the position of a file, expressions and boards of numbers, with the status of each.
#![tactic(auto)]

mod answering;
mod calc;
mod cycles;
mod ending;
mod faults;
mod file;
mod finding;
mod question;
mod refusal;
mod solving;
mod status;
mod terms;
mod trial;

pub use answering::run_question;
pub use calc::run_calc;
pub use cycles::refused_with_cycles;
pub use ending::finish;
pub use finding::find_position;
pub use question::{Found, Inquiry, Line, Report};
pub use solving::refused;
pub use status::Status;
pub use terms::GameTerms;
pub use trial::run_trial;
