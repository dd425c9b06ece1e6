//! How runs end, as plain values that a table can hold.

use endgame_run::{FileFault, Status};
use game_calc::CalcFault;
use go_grid::Point;
use sgf_go::SetupFault;
use sgf_tree::TreeFault;

/// What is wrong with the setup of a file, its points by their numbers.
#[derive(Clone, Copy)]
pub(crate) enum Wrong {
    Game,
    Size,
    Komi,
    Side,
    Point(u32),
    Occupied(u32),
    Suicide(u32),
    NoLiberty(u16),
    MarkedTwice(u16),
}

/// How a run ends.
#[derive(Clone, Copy)]
pub(crate) enum Ends {
    Done,
    Usage,
    CannotRead,
    CannotWrite,
    BadTree(TreeFault),
    BadSetup(Wrong),
    Cycle,
    RegionLimit,
    FormLimit,
    TooManyLines,
    TooLong,
    BadExpression(CalcFault),
    CalcLimit,
}

/// The fault by its own name.
fn fault_of(wrong: Wrong) -> SetupFault {
    match wrong {
        Wrong::Game => SetupFault::WrongGame,
        Wrong::Size => SetupFault::BadSize,
        Wrong::Komi => SetupFault::BadKomi,
        Wrong::Side => SetupFault::BadSide,
        Wrong::Point(node) => SetupFault::BadPoint(node),
        Wrong::Occupied(node) => SetupFault::Occupied(node),
        Wrong::Suicide(node) => SetupFault::Suicide(node),
        Wrong::NoLiberty(point) => SetupFault::NoLiberty(Point(point)),
        Wrong::MarkedTwice(point) => SetupFault::MarkedTwice(Point(point)),
    }
}

/// The status of a run that ends so.
pub(crate) fn status_by(ends: Ends) -> Status {
    match ends {
        Ends::Done => Status::Done,
        Ends::Usage => Status::Usage,
        Ends::CannotRead => Status::CannotRead,
        Ends::CannotWrite => Status::CannotWrite,
        Ends::BadTree(fault) => Status::BadFile(FileFault::Tree(fault)),
        Ends::BadSetup(wrong) => Status::BadFile(FileFault::Setup(fault_of(wrong))),
        Ends::Cycle => Status::Cycle,
        Ends::RegionLimit => Status::RegionLimit,
        Ends::FormLimit => Status::FormLimit,
        Ends::TooManyLines => Status::TooManyLines,
        Ends::TooLong => Status::TooLong,
        Ends::BadExpression(fault) => Status::BadExpression(fault),
        Ends::CalcLimit => Status::CalcLimit,
    }
}

/// Whether a run that ended with this status ended so.
pub(crate) fn is_ended(status: Status, ends: Ends) -> bool {
    status == status_by(ends)
}
