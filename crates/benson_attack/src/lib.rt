//! Attacks on stones that don't live without answers: placings that nobody answers and that take them
//! off the board.
#![tactic(auto)]

mod attacks;
mod campaign;
mod captures;
mod errors;
mod laws;

pub use attacks::{Attacks, attack};
pub use errors::AttackError;
pub use laws::alive_laws;
