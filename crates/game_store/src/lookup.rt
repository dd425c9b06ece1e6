//! Look-ups along the chains of slots with one fingerprint.

ghost use Rattle.std.specs.Prelude.{◌≡◌, ◌<◌, ℕ, length, IfSome, IfNone, IsTrue, ◌↔◌};
ghost use Rattle.game_store.specs.inner.Chain.{entries_of, fingerprint, fingerprints, latest_of, slot_at, HasBefores};
ghost use Rattle.game_store.specs.inner.Meaning.{entry_at, held, Within, IsWithin};
ghost use Rattle.game_store.specs.Meaning.Wanted.{number, options};
ghost use Rattle.game_store.specs.Forms.{wanted};

use crate::{Entry, Form, Slot};
use dyadic_num::Dyadic;
use list_pool::ListPool;

/// The slot at a place.
pub(crate) fn read_slot(slots: &[Slot], place: usize) -> Slot
    requires { place < length slots.now }
    ensures { result ≡ slot_at slots.now place }
{
    slots[place]
}

/// Whether the entry holds this number.
fn holds_number(entry: Entry, pool: &ListPool, x: Dyadic) -> bool
    ensures { IsTrue result ↔ (held pool.now.lists entry ≡ number x) }
{
    match entry {
        Entry::Number(y) => x.units() == y.units(),
        Entry::Options { .. } => false,
    }
}

/// Whether the entry holds these options.
fn holds_options(entry: Entry, pool: &ListPool, left: &[u64], right: &[u64]) -> bool
    requires { IsWithin pool.now.lists entry }
    ensures { IsTrue result ↔ (held pool.now.lists entry ≡ options left.now right.now) }
{
    match entry {
        Entry::Number(_) => false,
        Entry::Options { place, left_count } => {
            let (its_left, its_right) = pool.get(place).split_at(left_count);
            its_left == left && its_right == right
        }
    }
}

/// Whether the entry holds this form.
fn holds(entry: Entry, pool: &ListPool, form: &Form<'_>) -> bool
    requires { IsWithin pool.now.lists entry }
    ensures { IsTrue result ↔ (held pool.now.lists entry ≡ wanted form.now) }
{
    match form {
        Form::Number(x) => holds_number(entry, pool, *x),
        Form::Options { left, right } => holds_options(entry, pool, left, right),
    }
}

/// The place of the slot that holds this form, from the latest with its fingerprint back.
pub(crate) fn find(
    slots: &[Slot],
    pool: &ListPool,
    latest: Option<u64>,
    form: &Form<'_>,
) -> Option<u64>
    requires within { Within pool.now.lists (entries_of slots.now) }
    requires befores { HasBefores pool.now.lists slots.now }
    requires latest { latest ≡ latest_of (fingerprints pool.now.lists slots.now) (length slots.now)
        (fingerprint (wanted form.now)) }
    ensures found { IfSome result (λ i. (i < length slots.now)
        × (held pool.now.lists (entry_at (entries_of slots.now) i) ≡ wanted form.now)) }
    ensures absent { IfNone result ((i : ℕ) → i < length slots.now
        → held pool.now.lists (entry_at (entries_of slots.now) i) ≡ wanted form.now → ⊥) }
{
    let mut at = latest;
    while let Some(id) = at {
        let slot = read_slot(slots, id as usize);
        if holds(slot.entry, pool, form) {
            return Some(id);
        }
        at = slot.before;
    }
    None
}
