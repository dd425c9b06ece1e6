//! Refusals.

ghost use Rattle.std.specs.Prelude.{◌≡◌};
ghost use Rattle.thermograph.specs.declared.error.ThermoError.TheVariants.{Memory};

use std::alloc::AllocError;
use thiserror::Error;

/// Why a thermograph is not drawn: a break point of it or of one of its parts is past the bounds of a `Dyadic`, or memory
/// is wanting.
#[derive(Clone, Copy, Debug, PartialEq, Eq, Error)]
pub enum ThermoError {
    #[error("a break point past the bounds")]
    Bounds,
    #[error("out of memory")]
    Memory(AllocError),
}

impl From<AllocError> for ThermoError {
    ghost from_gives = { λ cause e. e ≡ Memory cause };

    fn from(cause: AllocError) -> Self {
        ThermoError::Memory(cause)
    }
}
