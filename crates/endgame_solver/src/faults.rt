//! Why a position isn't solved.

ghost use Rattle.std.specs.Prelude.{◌≡◌, alloc_error};
ghost use Rattle.endgame_solver.specs.declared.faults.SolveError.TheVariants.{Memory};

use crate::cycle_names::CycleNames;
use go_grid::Point;
use std::alloc::{AllocError, AllocFailed};
use std::fmt;

/// Why a position isn't solved. A region is named by its lowest point.
#[derive(Drop, thiserror::Error)]
pub enum SolveError {
    /// A region has more than 32 points. Their number.
    #[error(fmt = large_region)]
    Points(Point, u16),
    /// More positions of a region are reachable than the limit.
    #[error("too many positions in a region")]
    Positions(Point),
    /// Legal moves of a region that lead back to the position after so many of them. The positions before the last are all
    /// different.
    #[error("a cycle of moves in a region")]
    Cycle(Point, CycleNames, usize),
    /// The value of a reachable position has more parts than the limit, or a number past the bounds of a `Dyadic`.
    #[error("a value without a form in a region")]
    Form(Point),
    #[error("out of memory")]
    Memory(AllocError),
}

impl fmt::Debug for SolveError {
    fn fmt<W: fmt::Write>(&self, f: &mut fmt::Formatter<W>) -> fmt::Result {
        fmt::Display::fmt(self, f)
    }
}

fn large_region<W: fmt::Write>(
    _lowest: &Point,
    points: &u16,
    f: &mut fmt::Formatter<W>,
) -> fmt::Result {
    write!(f, "a region of {points} points")
}

impl From<AllocError> for SolveError {
    ghost from_gives = { λ cause e. e ≡ Memory cause };

    fn from(error: AllocError) -> SolveError {
        SolveError::Memory(error)
    }
}

impl<T: Drop> From<AllocFailed<T>> for SolveError {
    ghost from_gives = { λ _ e. e ≡ Memory alloc_error };

    fn from(_: AllocFailed<T>) -> SolveError {
        SolveError::Memory(AllocError)
    }
}
