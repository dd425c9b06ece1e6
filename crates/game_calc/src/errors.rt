//! Refusals.

ghost use Rattle.std.specs.Prelude.{◌≡◌, alloc_error};
ghost use Rattle.game_calc.specs.declared.errors.CalcError.TheVariants as calc;

use std::alloc::{AllocError, AllocFailed};
use std::fmt;
use thiserror::Error;

/// What is wrong in a line. A byte that fits no rule and a number that is none are told by their place, counted from 0;
/// the line may also end too soon, or nest its braces or its parentheses deeper than 1,000.
#[derive(Clone, Copy, Debug, PartialEq, Eq)]
pub enum CalcFault {
    Byte(usize),
    Number(usize),
    CutShort,
    Deep,
}

/// Why a line has no answer: it is no expression, a step of it or its answer is past the limits, or memory is wanting.
#[derive(Clone, Copy, PartialEq, Eq, Error)]
pub enum CalcError {
    #[error("no expression")]
    Fault(CalcFault),
    #[error("past the limits")]
    Limit,
    #[error("out of memory")]
    Memory(AllocError),
}

impl fmt::Debug for CalcError {
    fn fmt<W: fmt::Write>(&self, f: &mut fmt::Formatter<W>) -> fmt::Result {
        fmt::Display::fmt(self, f)
    }
}

impl From<AllocError> for CalcError {
    ghost from_gives = { λ cause e. e ≡ calc.Memory cause };

    fn from(cause: AllocError) -> Self {
        CalcError::Memory(cause)
    }
}

impl<T: Drop> From<AllocFailed<T>> for CalcError {
    ghost from_gives = { λ _ e. e ≡ calc.Memory alloc_error };

    fn from(_: AllocFailed<T>) -> Self {
        CalcError::Memory(AllocError)
    }
}
