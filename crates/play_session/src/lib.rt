//! The player of a solved game over lines.
#![tactic(auto)]

mod end;
mod fault;
mod laws;
mod replies;
mod reply;
mod session;
mod words;

pub use end::SessionEnd;
pub use laws::session_laws;
pub use session::{MOST_TURNS, Session};
