//! The parts of a form.

ghost use Rattle.std.specs.Prelude.{◌≡◌, ◌<◌, ◌+◌, [], ◌∷◌, length, false, ◌^◌, IfOk, IfNone, OnOk, IsTrue, MatchOption};
ghost use Rattle.short_games.specs.Tree.{Has, tree_at};
ghost use Rattle.short_games.specs.Number.{IsNumberTree};
ghost use Rattle.game_store.specs.Meaning.{pick, listed, form, AreIds};
ghost use Rattle.short_games.specs.Parts.{IsOption, HasParts, HasMoreParts};
ghost use Rattle.game_canon.specs.inner.Followers.{IsGrown, HasBelow, HasMoreBelow};

use crate::ids::nothing_found;
use game_store::{Form, GameId, Store};
use indexmap::IndexSet;
use std::alloc::{AllocError, Global};

/// Whether the form is no number.
fn is_part(store: &Store, id: GameId) -> bool
    requires { id < length store.now }
    ensures part { IsTrue result → IsNumberTree (tree_at store.now id) → ⊥ }
    ensures number { result ≡ false → IsNumberTree (tree_at store.now id) }
{
    match store.node(id) {
        Form::Number(_) => false,
        Form::Options { .. } => true,
    }
}

/// Adds those of the forms that are no numbers.
fn add_parts(store: &Store, found: &mut IndexSet<GameId>, ids: &[GameId]) -> Result<(), AllocError>
    requires { AreIds store.now ids.now }
    ensures { OnOk result (IsGrown store.now (Has
        (pick store.now ids.now)) found.old.keys found.new.keys) }
{
    for id in ids {
        if !is_part(store, *id) {
            continue;
        }
        found.insert(*id)?;
    }
    Ok(())
}

/// Adds those of the form's options that are no numbers.
fn add_options(store: &Store, found: &mut IndexSet<GameId>, id: GameId) -> Result<(), AllocError>
    requires { id < length store.now }
    ensures { OnOk result (IsGrown store.now (IsOption
        (tree_at store.now id)) found.old.keys found.new.keys) }
{
    match store.node(id) {
        Form::Number(_) => Ok(()),
        Form::Options { left, right } => {
            add_parts(store, found, left)?;
            add_parts(store, found, right)?;
            Ok(())
        }
    }
}

/// How many different parts the forms have together, where nothing is found yet. None where more than `limit` were found
/// before the end.
fn count_found(
    store: &Store,
    found: &mut IndexSet<GameId>,
    left: &[GameId],
    right: &[GameId],
    limit: usize,
) -> Result<Option<usize>, AllocError>
    requires found { found.old.keys ≡ [] }
    requires left { AreIds store.now left.now }
    requires right { AreIds store.now right.now }
    ensures count { IfOk result (λ count. MatchOption count
        (HasMoreBelow (listed store.now left.now right.now) limit)
        (λ n. HasBelow (listed store.now left.now right.now) n)) }
    ensures ended { IfOk result (λ count. IfNone count (limit < 2 ^ 63)) }
{
    let _count = store.len();
    add_parts(store, found, left)?;
    add_parts(store, found, right)?;
    let mut place = 0;
    'following: while place < found.len() {
        if found.len() > limit {
            return Ok(None);
        }
        let id = found.as_slice()[place];
        add_options(store, found, id)?;
        place += 1;
    }
    Ok(Some(found.len()))
}

/// How many different parts the forms have together. None where more than `limit` were found before the end.
fn count_parts(
    alloc: Global,
    store: &Store,
    left: &[GameId],
    right: &[GameId],
    limit: usize,
) -> Result<Option<usize>, AllocError>
    requires left { AreIds store.now left.now }
    requires right { AreIds store.now right.now }
    ensures count { IfOk result (λ count. MatchOption count
        (HasMoreBelow (listed store.now left.now right.now) limit)
        (λ n. HasBelow (listed store.now left.now right.now) n)) }
    ensures ended { IfOk result (λ count. IfNone count (limit < 2 ^ 63)) }
{
    let mut found = nothing_found(alloc);
    count_found(store, &mut found.ids, left, right, limit)
}

/// Whether the form with these options, which is no number, has more than `limit` parts. They are counted only where the store
/// has so many forms: each other part is one of them.
pub(crate) fn has_more_parts(
    alloc: Global,
    store: &Store,
    left: &[GameId],
    right: &[GameId],
    limit: u32,
) -> Result<bool, AllocError>
    requires left { AreIds store.now left.now }
    requires right { AreIds store.now right.now }
    requires no_number { IsNumberTree (form store.now left.now right.now) → ⊥ }
    ensures more { IfOk result (λ more. IsTrue more
        → HasMoreParts (form store.now left.now right.now) limit) }
    ensures few { IfOk result (λ more. more ≡ false
        → HasMoreParts (form store.now left.now right.now) limit → ⊥) }
{
    if store.len() < u64::from(limit) {
        return Ok(false);
    }
    match count_parts(alloc, store, left, right, limit as usize)? {
        Some(count) => Ok(count >= limit as usize),
        None => Ok(true),
    }
}

/// How many parts the form has: its different followers, itself among them, that are no numbers. A number has none.
pub fn parts(alloc: Global, store: &Store, a: GameId) -> Result<u64, AllocError>
    requires { a < length store.now }
    ensures { IfOk result (λ n. HasParts (tree_at store.now a) n) }
{
    match count_parts(alloc, store, &[a], &[], usize::MAX)? {
        Some(count) => Ok(count as u64),
        // The limit is past the number of all followers.
        None => unreachable!(),
    }
}
