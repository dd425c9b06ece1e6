//! Refusals.

ghost use Rattle.std.specs.Prelude.{◌≡◌, alloc_error};
ghost use Rattle.benson_attack.specs.declared.errors.AttackError.TheVariants.{Memory};

use std::alloc::{AllocError, AllocFailed};
use thiserror::Error;

/// Why there is no attack: the stone lives without answers, or memory is wanting.
#[derive(Clone, Copy, Debug, PartialEq, Eq, Error)]
pub enum AttackError {
    #[error("the stone is alive")]
    Alive,
    #[error(transparent)]
    Memory(AllocError),
}

impl From<AllocError> for AttackError {
    ghost from_gives = { λ cause e. e ≡ Memory cause };

    fn from(cause: AllocError) -> Self {
        AttackError::Memory(cause)
    }
}
