//! Why a file is not read.

ghost use Rattle.std.specs.Prelude.{◌≡◌, alloc_error};
ghost use Rattle.sgf_tree.specs.declared.fault.SgfError.TheVariants.{Memory};

use std::alloc::{AllocError, AllocFailed};
use std::fmt;
use thiserror::Error;

/// What is wrong with a file: no tree begins in it, a byte fits no rule of the grammar (its place, counted from 0 over
/// the whole file), it ends within the first tree, or more than 1,000 trees are open at once.
#[derive(Clone, Copy, PartialEq, Eq, Error)]
pub enum TreeFault {
    #[error("no tree")]
    NoTree,
    #[error(fmt = bad_byte)]
    BadByte(u32),
    #[error("cut short")]
    CutShort,
    #[error("too deep")]
    TooDeep,
}

fn bad_byte<W: fmt::Write>(place: &u32, f: &mut fmt::Formatter<W>) -> fmt::Result {
    write!(f, "bad byte {place}")
}

// As the message: what a derive writes is dearer to prove.
impl fmt::Debug for TreeFault {
    fn fmt<W: fmt::Write>(&self, f: &mut fmt::Formatter<W>) -> fmt::Result {
        fmt::Display::fmt(self, f)
    }
}

/// Why a file was not read.
#[derive(Clone, Copy, Error)]
pub enum SgfError {
    #[error(transparent)]
    Fault(TreeFault),
    #[error(transparent)]
    Memory(AllocError),
}

impl fmt::Debug for SgfError {
    fn fmt<W: fmt::Write>(&self, f: &mut fmt::Formatter<W>) -> fmt::Result {
        fmt::Display::fmt(self, f)
    }
}

impl From<AllocError> for SgfError {
    ghost from_gives = { λ cause e. e ≡ Memory cause };

    fn from(cause: AllocError) -> Self {
        SgfError::Memory(cause)
    }
}

impl<T: Drop> From<AllocFailed<T>> for SgfError {
    ghost from_gives = { λ _ e. e ≡ Memory alloc_error };

    fn from(_: AllocFailed<T>) -> Self {
        SgfError::Memory(AllocError)
    }
}
