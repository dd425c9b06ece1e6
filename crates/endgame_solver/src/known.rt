//! What a new game begins with.

ghost use Rattle.std.specs.Prelude.{IfOk};
ghost use Rattle.sum_outcome.specs.Memo.{Fits};

use game_store::Store;
use std::alloc::{AllocError, Global};
use sum_outcome::{MOST_ENTRIES, Search};

/// A store with 0 in it, and a search that knows it.
#[derive(Drop)]
pub struct Known {
    pub store: Store,
    pub search: Search,
}

/// Takes note of 0.
fn note_zero(known: &mut Known) -> Result<(), AllocError>
    requires { Fits known.old.store known.old.search }
    ensures { Fits known.new.store known.new.search }
{
    known.search.note_zero(&mut known.store)
}

/// A store and a search for a new game.
pub fn first_known(alloc: Global) -> Result<Known, AllocError>
    ensures { IfOk result (λ known. Fits known.store known.search) }
{
    let search = Search::new(alloc, MOST_ENTRIES)?;
    let mut known = Known {
        store: Store::new(alloc),
        search,
    };
    match note_zero(&mut known) {
        Ok(()) => Ok(known),
        Err(fault) => {
            drop(known);
            Err(fault)
        }
    }
}
