//! Ids of values in half of their length, which is what large regions keep.

ghost use Rattle.std.specs.Prelude.{◌≡◌, IfOk};

use game_store::GameId;
use std::alloc::{AllocError, Global};

/// The id of a value in 4 bytes.
pub type ShortId = u32;

/// The id in 4 bytes. Want of memory where so many forms would have to be stored that it doesn't fit.
pub(crate) fn shortened(id: GameId) -> Result<ShortId, AllocError>
    ensures { IfOk result (λ short. short ≡ id) }
{
    if id >= 1 << 32 {
        return Err(AllocError);
    }
    Ok(id as ShortId)
}

/// The ids at their full length.
pub(crate) fn lengthened(alloc: Global, ids: &[ShortId]) -> Result<Vec<GameId>, AllocError>
    ensures { IfOk result (λ long. long.items ≡ ids.now) }
{
    let mut long = Vec::with_capacity(alloc, ids.len())?;
    for id in ids {
        long.push(GameId::from(*id))?;
    }
    Ok(long)
}
