//! A pool of lists of numbers. The lists lie in chunks that never move, and none crosses from one into another.
#![tactic(auto)]

mod cells;
mod chunk;
mod place;
mod pool;

// A crate can name a pool in a contract only if the types of its fields are exported.
#[doc(hidden)]
pub use cells::{Base, Deed, Places};
#[doc(hidden)]
pub use chunk::Chunk;
#[doc(hidden)]
pub use place::Place;
pub use pool::ListPool;
