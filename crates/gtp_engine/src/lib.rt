//! An engine for the Go Text Protocol over a solved game.
#![tactic(auto)]

mod command;
mod engine;
mod laws;
mod limits;
mod moves;
mod playing;
mod reply;
mod request;
mod session;
mod setups;
mod turns;

pub use engine::Engine;
pub use gtp_words::{Answer, GtpEnd};
pub use laws::session_laws;
pub use limits::EngineLimits;
