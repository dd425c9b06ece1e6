//! What a run ends with.

ghost use Rattle.std.specs.Prelude.{◌≡◌};

use game_calc::CalcFault;
use sgf_go::FileFault;

/// What a run ends with.
#[derive(Clone, Copy, Debug, PartialEq, Eq)]
pub enum Status {
    /// The text of the command was written, or the game or session went to its end or to that of the input.
    Done,
    /// The words are outside the grammar of the command line.
    Usage,
    /// A read or a load failed, or the shelf tells that it has no such file.
    CannotRead,
    /// A write failed.
    CannotWrite,
    /// The file has a fault.
    BadFile(FileFault),
    /// The moves of a region lead back to an earlier position.
    Cycle,
    /// A region has more than 32 points, or more positions than the limit.
    RegionLimit,
    /// A value has more parts than the limit, or a number past the bounds of a `Dyadic`.
    FormLimit,
    /// Memory was refused.
    Memory,
    /// 10,000 lines were read, and the opponent was to move in a game, or none of them ended the engine's session.
    TooManyLines,
    /// The file has more than 1,048,576 bytes.
    TooLong,
    /// The expression is outside the grammar of the calculator.
    BadExpression(CalcFault),
    /// A game or a sum of the expression, or its answer, is past the limits.
    CalcLimit,
    /// A region isn't steady with any number of captures that return up to 32.
    CaptureLimit,
}

impl Status {
    ghost use Rattle.endgame_questions.specs.Codes.{code_of};

    /// The number of the status, with which the program ends.
    pub fn code(&self) -> u8
        ensures { result ≡ code_of self.now }
    {
        match self {
            Status::Done => 0,
            Status::Usage => 1,
            Status::CannotRead => 2,
            Status::CannotWrite => 3,
            Status::BadFile(_) => 4,
            Status::Cycle => 5,
            Status::RegionLimit => 6,
            Status::FormLimit => 7,
            Status::Memory => 8,
            Status::TooManyLines => 9,
            Status::TooLong => 10,
            Status::BadExpression(_) => 12,
            Status::CalcLimit => 13,
            Status::CaptureLimit => 14,
        }
    }
}
