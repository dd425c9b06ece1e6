//! How a session ends.

/// How a session ends, as the engine sees it.
#[derive(Clone, Copy)]
pub enum SessionEnd {
    /// The opponent has no move left.
    Won,
    /// The engine has no move left.
    Lost,
    /// The input is at its end.
    InputEnded,
    /// A read failed.
    ReadFault,
    /// A write failed.
    WriteFault,
    /// The opponent is to move, and 10,000 lines were read.
    TooManyLines,
}
