//! Generated boards: a number draws sixteen corridors through the walls of a board.
#![tactic(auto)]

mod boards;
mod corridors;

pub use boards::make;
