//! Why a position with cycles isn't solved.

ghost use Rattle.std.specs.Prelude.{◌≡◌, alloc_error};
ghost use Rattle.cycle_solver.specs.declared.faults.CycleError.TheVariants.{Memory};

use go_grid::Point;
use std::alloc::{AllocError, AllocFailed};
use std::fmt;

/// Why a position isn't solved. A region is named by its lowest point.
#[derive(Clone, Copy, PartialEq, Eq, thiserror::Error)]
pub enum CycleError {
    /// A region has more than 32 points. Their number.
    #[error(fmt = large_region)]
    Points(Point, u16),
    /// More positions of a region are reachable than the limit.
    #[error("too many positions in a region")]
    Positions(Point),
    /// A value that is needed has more parts than the limit, or a number past the bounds of a `Dyadic`.
    #[error("a value without a form in a region")]
    Form(Point),
    /// The region is steady for some colour at no budget of captures up to the most.
    #[error("too many captures that return in a region")]
    Captures(Point),
    #[error("out of memory")]
    Memory(AllocError),
}

impl fmt::Debug for CycleError {
    fn fmt<W: fmt::Write>(&self, f: &mut fmt::Formatter<W>) -> fmt::Result {
        fmt::Display::fmt(self, f)
    }
}

fn large_region<W: fmt::Write>(
    _lowest: &Point,
    points: &u16,
    f: &mut fmt::Formatter<W>,
) -> fmt::Result {
    write!(f, "a region of {points} points")
}

impl From<AllocError> for CycleError {
    ghost from_gives = { λ cause e. e ≡ Memory cause };

    fn from(error: AllocError) -> CycleError {
        CycleError::Memory(error)
    }
}

impl<T: Drop> From<AllocFailed<T>> for CycleError {
    ghost from_gives = { λ _ e. e ≡ Memory alloc_error };

    fn from(_: AllocFailed<T>) -> CycleError {
        CycleError::Memory(AllocError)
    }
}
