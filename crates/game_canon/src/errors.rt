//! Refusals.

ghost use Rattle.std.specs.Prelude.{◌≡◌};
ghost use Rattle.game_canon.specs.declared.errors.FormError.TheVariants.{Memory};

use std::alloc::AllocError;
use std::fmt;
use thiserror::Error;

/// Why a form is refused: it has too many parts, a number of it is past the bounds of a `Dyadic`, or memory is wanting.
#[derive(Clone, Copy, PartialEq, Eq, Error)]
pub enum FormError {
    #[error("too many parts")]
    Parts,
    #[error("a number past the bounds")]
    Bounds,
    #[error("out of memory")]
    Memory(AllocError),
}

impl fmt::Debug for FormError {
    fn fmt<W: fmt::Write>(&self, f: &mut fmt::Formatter<W>) -> fmt::Result {
        fmt::Display::fmt(self, f)
    }
}

impl From<AllocError> for FormError {
    ghost from_gives = { λ cause e. e ≡ Memory cause };

    fn from(cause: AllocError) -> Self {
        FormError::Memory(cause)
    }
}
