//! The forms that a form is made of.

ghost use Rattle.std.specs.Prelude.{◌<◌, length, IfOk, OnOk, MatchOption};
ghost use Rattle.short_games.specs.Tree.{tree_at};
ghost use Rattle.game_store.specs.Meaning.{AreIds, IsAscending};
ghost use Rattle.game_canon.specs.Reachable.{AreReachable};
ghost use Rattle.game_canon.specs.inner.Reachable.{AreFrom, IsJoined, IsLastBelow, IsFollowed};

use crate::ids::{Ids, place_of, put_in};
use game_store::{Form, GameId, Store};
use smallvec::SmallVec;
use std::alloc::{AllocError, Global};

/// Puts the others among ascending ids.
fn add_ids(ids: &mut Ids, others: &[GameId]) -> Result<(), AllocError>
    requires { IsAscending ids.old.items }
    ensures { OnOk result (IsJoined ids.old.items others.now
        (length others.now) ids.new.items) }
{
    for id in others {
        put_in(ids, *id)?;
    }
    Ok(())
}

/// Puts the options of a form that is no number among ascending ids.
fn add_inner(store: &Store, ids: &mut Ids, id: GameId) -> Result<(), AllocError>
    requires id { id < length store.now }
    requires ascends { IsAscending ids.old.items }
    ensures { OnOk result (IsFollowed store.now ids.old.items id ids.new.items) }
{
    match store.node(id) {
        Form::Number(_) => Ok(()),
        Form::Options { left, right } => {
            add_ids(ids, left)?;
            add_ids(ids, right)?;
            Ok(())
        }
    }
}

/// The greatest of ascending ids that is below `end`.
fn last_below(ids: &[GameId], end: GameId) -> Option<GameId>
    requires { IsAscending ids.now }
    ensures { MatchOption result (AreFrom ids.now end) (λ id. IsLastBelow ids.now end id) }
{
    let place = place_of(ids, end);
    if place == 0 {
        return None;
    }
    Some(ids[place - 1])
}

/// The form, its parts and their options, in ascending order of their ids: options come before the form.
pub fn reachable(alloc: Global, store: &Store, a: GameId) -> Result<SmallVec<GameId, 8>, AllocError>
    requires { a < length store.now }
    ensures { IfOk result (λ v. AreReachable store.now (tree_at store.now a) v.items) }
{
    let mut ids = Ids::from_slice(alloc, &[a])?;
    let mut end = store.len();
    'following: while let Some(id) = last_below(&ids, end) {
        add_inner(store, &mut ids, id)?;
        end = id;
    }
    Ok(ids)
}
