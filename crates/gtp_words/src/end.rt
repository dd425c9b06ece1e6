//! How a session ends.

/// How a session ends.
#[derive(Clone, Copy, PartialEq, Eq)]
pub enum GtpEnd {
    /// A line said so.
    Quit,
    /// The input is at its end.
    InputEnded,
    /// A read failed.
    ReadFault,
    /// A write failed.
    WriteFault,
    /// 10,000 lines were read, and none of them ended the session.
    TooManyLines,
    /// Memory was refused.
    Memory,
}
