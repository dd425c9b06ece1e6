//! The position at the end of the main line of a game record.
#![tactic(auto)]

mod fault;
mod komi;
mod limits;
mod marks;
mod properties;
mod replay;
mod settings;
mod setup;
mod territory;
mod values;

pub use fault::{FileFault, GoError, SetupFault};
pub use go_play::Setup;
pub use komi::{MOST_KOMI, read_komi};
pub use limits::limit_laws;
pub use settings::{MOST_PRISONERS, Settings};
pub use setup::{one_position, position, size_of_board};
pub use values::trim;
