//! The rules of the whole game: stones on contested points, purses and the token of a half-point, and plain
//! recursion over them.
#![tactic(auto)]

mod laws;
mod money;
mod opening;
mod plain;
mod states;

pub use laws::{opening_laws, whole_laws};
pub use money::{Purses, Token};
pub use plain::plain_winner;
pub use states::{Move, MoveError, Whole};
