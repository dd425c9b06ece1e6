//! The outside of a program: where it reads and where it writes, each with a count of faults.
#![tactic(auto)]

mod adapters;
mod calls;
mod file_shelf;
mod limits;
mod lines;
mod memory;
mod memory_shelf;
mod outside;
mod shelf;

pub use adapters::{StdSink, StdSource};
pub use file_shelf::FileShelf;
pub use limits::limit_laws;
pub use lines::{FoundLine, LineReader, MOST_LINES};
pub use memory::{MemorySink, MemorySource};
pub use memory_shelf::MemoryShelf;
pub use outside::{Failed, Sink, Source};
pub use shelf::{LoadError, Loaded, Shelf};
