//! Laws of the verdict, and of a run: what follows of the contract of the top call. There is no code.
#![tactic(auto)]

mod laws;

pub use laws::{run_laws, step_laws, verdict_laws};
