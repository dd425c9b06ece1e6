//! A board session of the Go Text Protocol, for clients that keep a board of their own: it plays by the rules of placing.
#![tactic(auto)]

mod advice;
mod analysis;
mod cycle_advice;
mod cycle_analysis;
mod engine;
mod generating;
mod laws;
mod limits;
mod lines;
mod settling;
mod statuses;
mod topic;

pub use engine::BoardEngine;
pub use laws::{board_laws, cycle_laws, generating_laws};
pub use limits::BoardLimits;
