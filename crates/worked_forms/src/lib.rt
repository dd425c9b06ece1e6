//! Forms for tests, by their options. No program uses them.
#![tactic(auto)]

ghost use Rattle.std.specs.Prelude.{ℕ, ◌<◌, length, slice_index, IsTrue};

use dyadic_num::Dyadic;
use game_canon::{FormError, canonical};
use game_store::{GameId, Store};
use std::alloc::Global;

/// The most parts that a form for tests may have.
const MOST_PARTS: u32 = 2000;

/// Whether all the ids are the store's.
fn are_ids(store: &Store, ids: &[GameId]) -> bool
    ensures { IsTrue result → (j : ℕ) → j < length ids.now
        → slice_index ids.now j < length store.now }
{
    for id in ids {
        if *id >= store.len() {
            return false;
        }
    }
    true
}

/// The canonical form with these options, or a refusal where an id isn't the store's.
pub fn form(
    alloc: Global,
    store: &mut Store,
    left: &[GameId],
    right: &[GameId],
) -> Result<GameId, FormError> {
    if !are_ids(store, left) || !are_ids(store, right) {
        return Err(FormError::Bounds);
    }
    canonical(alloc, store, left, right, MOST_PARTS)
}

/// The id of a fraction.
pub fn fraction(store: &mut Store, numerator: i128, exponent: u8) -> Option<GameId> {
    store.number(Dyadic::part(numerator, exponent)?).ok()
}
