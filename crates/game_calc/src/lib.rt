//! A calculator of games: sums of canonical forms.
#![tactic(auto)]

mod amounts;
mod answers;
mod errors;
mod expressions;
mod laws;
mod numbers;
mod pair;
mod pending;
mod returns;
mod sums;
mod table;
mod tokens;

pub use answers::answer;
pub use errors::{CalcError, CalcFault};
pub use laws::line_laws;
pub use sums::add;
