//! Refusals.

ghost use Rattle.std.specs.Prelude.{◌≡◌, alloc_error};
ghost use Rattle.game_canon.specs.declared.errors.FormError.TheVariants as form;
ghost use Rattle.game_text.specs.declared.errors.ReadError.TheVariants as reading;
ghost use Rattle.game_text.specs.declared.errors.WriteError.TheVariants as writing;
ghost use Rattle.game_text.specs.Refusals.{passed_on};

use game_canon::FormError;
use std::alloc::{AllocError, AllocFailed};
use std::fmt;
use thiserror::Error;

/// Why a form has no text: the text has more bytes than allowed, its braces nest deeper than 1,000, or memory is wanting.
#[derive(Clone, Copy, PartialEq, Eq, Error)]
pub enum WriteError {
    #[error("too long")]
    Long,
    #[error("too deep")]
    Deep,
    #[error("out of memory")]
    Memory(AllocError),
}

impl fmt::Debug for WriteError {
    fn fmt<W: fmt::Write>(&self, f: &mut fmt::Formatter<W>) -> fmt::Result {
        fmt::Display::fmt(self, f)
    }
}

impl From<AllocError> for WriteError {
    ghost from_gives = { λ cause e. e ≡ writing.Memory cause };

    fn from(cause: AllocError) -> Self {
        WriteError::Memory(cause)
    }
}

/// Why a text names no form. A byte that fits no rule and a number that is none are told by their place, counted from 0;
/// the text may also end too soon, nest its braces deeper than 1,000, or have a form in it that is no number and has too
/// many parts, or that is a number past the bounds of a `Dyadic`; or memory is wanting.
#[derive(Clone, Copy, PartialEq, Eq, Error)]
pub enum ReadError {
    #[error(fmt = bad_byte)]
    BadByte(usize),
    #[error(fmt = bad_number)]
    BadNumber(usize),
    #[error("cut short")]
    CutShort,
    #[error("too deep")]
    Deep,
    #[error("too many parts")]
    Parts,
    #[error("a number past the bounds")]
    Bounds,
    #[error("out of memory")]
    Memory(AllocError),
}

// Each message with a number is a function of its own, which is far cheaper to prove than one in all.

fn bad_byte<W: fmt::Write>(place: &usize, f: &mut fmt::Formatter<W>) -> fmt::Result {
    write!(f, "bad byte {place}")
}

fn bad_number<W: fmt::Write>(place: &usize, f: &mut fmt::Formatter<W>) -> fmt::Result {
    write!(f, "bad number at byte {place}")
}

impl fmt::Debug for ReadError {
    fn fmt<W: fmt::Write>(&self, f: &mut fmt::Formatter<W>) -> fmt::Result {
        fmt::Display::fmt(self, f)
    }
}

impl From<AllocError> for ReadError {
    ghost from_gives = { λ cause e. e ≡ reading.Memory cause };

    fn from(cause: AllocError) -> Self {
        ReadError::Memory(cause)
    }
}

impl<T: Drop> From<AllocFailed<T>> for ReadError {
    ghost from_gives = { λ _ e. e ≡ reading.Memory alloc_error };

    fn from(_: AllocFailed<T>) -> Self {
        ReadError::Memory(AllocError)
    }
}

impl From<FormError> for ReadError {
    ghost from_gives = { λ cause e. e ≡ passed_on cause };

    fn from(cause: FormError) -> Self {
        match cause {
            FormError::Parts => ReadError::Parts,
            FormError::Bounds => ReadError::Bounds,
            FormError::Memory(cause) => ReadError::Memory(cause),
        }
    }
}
