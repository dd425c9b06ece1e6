//! Changes of a form that change each of its options alike: to its negative, or to its sum with a number.

ghost use Rattle.std.specs.Prelude.{◌≡◌, ◌<◌, ◌++◌, ◌∷◌, ℕ, [], length, slice_index, IfOk, IfErr, OnOk, MatchOption};
ghost use Rattle.short_games.specs.TextOrder.{IsCanonicalTree};
ghost use Rattle.short_games.specs.Tree.{tree_at};
ghost use Rattle.short_games.specs.Number.{number_tree};
ghost use Rattle.game_store.specs.Meaning.{Extends, IsAscending};
ghost use Rattle.game_canon.specs.Reachable.{AreReachable};
ghost use Rattle.game_canon.specs.inner.Changes.{IsPastShift, noted, shifted, left_list, right_list, IsChanged, AreNoted, AreKnown, IsMapped, AreClosed, AreDone, IsRefusedAt, IsRefused};

use crate::errors::FormError;
use crate::ids::{Ids, arrange, is_at, place_of};
use crate::reachable_forms::reachable;
use dyadic_num::Dyadic;
use game_store::{Form, GameId, Store};
use std::alloc::{AllocError, Global};

/// What a form is changed to: its negative, or its sum with a number.
#[derive(Clone, Copy)]
pub(crate) enum Change {
    Negate,
    Add(Dyadic),
}

/// For ids in ascending order the ids of the changed forms, as far as forms are changed.
#[derive(Clone, Copy)]
struct Changed<'a> {
    ids: &'a [GameId],
    afters: &'a [GameId],
}

/// The id that stands for another after the change.
fn after_of(changed: &Changed<'_>, id: GameId) -> Option<GameId>
    requires { IsAscending changed.now.ids.now }
    ensures { result ≡ noted changed.now.ids.now changed.now.afters.now id }
{
    let place = place_of(changed.ids, id);
    if !is_at(changed.ids, place, id) {
        return None;
    }
    if place >= changed.afters.len() {
        return None;
    }
    Some(changed.afters[place])
}

/// The number after the change. None exactly where it is past the bounds.
fn shift(change: Change, y: Dyadic) -> Option<Dyadic>
    ensures { MatchOption result (IsPastShift change y) (λ z. z ≡ shifted change y) }
{
    match change {
        Change::Negate => Some(y.neg()),
        Change::Add(x) => y.add(x),
    }
}

/// The form of a number after the change.
fn changed_number(store: &mut Store, change: Change, y: Dyadic) -> Result<GameId, FormError>
    ensures value { IfOk result (λ k. IsChanged store.new change (number_tree y) k) }
    ensures refusal { IfErr result (λ error. IsRefusedAt change (number_tree y) error) }
    ensures kept { Extends store.old store.new }
{
    let Some(z) = shift(change, y) else {
        return Err(FormError::Bounds);
    };
    Ok(store.number(z)?)
}

/// The ids that stand for these, in ascending order.
fn changed_list(alloc: Global, changed: &Changed<'_>, ids: &[GameId]) -> Result<Ids, AllocError>
    requires ascends { IsAscending changed.now.ids.now }
    requires known { AreKnown (noted changed.now.ids.now changed.now.afters.now) ids.now }
    ensures { IfOk result (λ v. IsMapped (noted changed.now.ids.now changed.now.afters.now)
        ids.now v.items) }
{
    let mut found = Ids::new(alloc);
    for id in ids {
        match after_of(changed, *id) {
            Some(after) => found.push(after)?,
            // Options are changed before the forms that they stand in.
            None => unreachable!(),
        }
    }
    arrange(&mut found);
    Ok(found)
}

/// The options of a changed form.
#[derive(Drop)]
struct Lists {
    left: Ids,
    right: Ids,
}

/// The options after the change: where the form is negated the sides change.
fn changed_lists(
    alloc: Global,
    changed: &Changed<'_>,
    change: Change,
    left: &[GameId],
    right: &[GameId],
) -> Result<Lists, AllocError>
    requires ascends { IsAscending changed.now.ids.now }
    requires left { AreKnown (noted changed.now.ids.now changed.now.afters.now) left.now }
    requires right { AreKnown (noted changed.now.ids.now changed.now.afters.now) right.now }
    ensures left { IfOk result (λ v. IsMapped (noted changed.now.ids.now changed.now.afters.now)
        (left_list change left.now right.now) v.left.items) }
    ensures right { IfOk result (λ v. IsMapped (noted changed.now.ids.now changed.now.afters.now)
        (right_list change left.now right.now) v.right.items) }
{
    let left = changed_list(alloc, changed, left)?;
    let right = changed_list(alloc, changed, right)?;
    match change {
        Change::Negate => Ok(Lists {
            left: right,
            right: left,
        }),
        Change::Add(_) => Ok(Lists { left, right }),
    }
}

/// The form after the change, where its options are changed.
fn changed_form(
    alloc: Global,
    store: &mut Store,
    changed: &Changed<'_>,
    change: Change,
    id: GameId,
) -> Result<GameId, FormError>
    requires id { id < length store.old }
    requires ascends { IsAscending changed.now.ids.now }
    requires noted { AreNoted store.old
        (noted changed.now.ids.now changed.now.afters.now) change id }
    ensures value { IfOk result (λ k. IsChanged store.new change (tree_at store.old id) k) }
    ensures refusal { IfErr result (λ error. IsRefusedAt change (tree_at store.old id) error) }
    ensures kept { Extends store.old store.new }
{
    match store.node(id) {
        Form::Number(y) => changed_number(store, change, y),
        Form::Options { left, right } => {
            let made = {
                let lists = changed_lists(alloc, changed, change, left, right)?;
                store.intern(&lists.left, &lists.right)
            };
            Ok(made?)
        }
    }
}

/// Notes the id of the next changed form.
fn note(afters: &mut Ids, after: GameId) -> Result<(), AllocError>
    ensures { OnOk result (afters.new.items ≡ afters.old.items ++ after ∷ []) }
{
    afters.push(after)?;
    Ok(())
}

/// Changes the forms, of which options come before what they are options of, and lists the ids that stand for theirs.
fn change_all(
    alloc: Global,
    store: &mut Store,
    afters: &mut Ids,
    change: &Change,
    ids: &[GameId],
) -> Result<(), FormError>
    requires empty { afters.old.items ≡ [] }
    requires closed { AreClosed store.old ids.now }
    ensures done { OnOk result (AreDone store.old store.new change.now
        (noted ids.now afters.new.items) ids.now (length ids.now)) }
    ensures refusal { IfErr result (λ error. (j : ℕ) × (j < length ids.now)
        × IsRefusedAt change.now (tree_at store.old (slice_index ids.now j)) error) }
    ensures kept { Extends store.old store.new }
{
    for id in ids {
        let after = changed_form(alloc, store, &Changed { ids, afters }, *change, *id)?;
        note(afters, after)?;
    }
    Ok(())
}

/// The canonical form of a form after the change, where these ids name all that it is made of.
fn change_reached(
    alloc: Global,
    store: &mut Store,
    change: &Change,
    a: GameId,
    ids: &[GameId],
) -> Result<GameId, FormError>
    requires id { a < length store.old }
    requires reached { AreReachable store.old (tree_at store.old a) ids.now }
    ensures value { IfOk result (λ id. IsChanged store.new change.now (tree_at store.old a) id) }
    ensures refusal { IfErr result (λ error. IsRefused change.now (tree_at store.old a) error) }
    ensures kept { Extends store.old store.new }
{
    let _count = store.len();
    let mut afters = Ids::new(alloc);
    change_all(alloc, store, &mut afters, change, ids)?;
    let changed = Changed {
        ids,
        afters: &afters,
    };
    match after_of(&changed, a) {
        Some(after) => Ok(after),
        // The game itself is the last of its followers.
        None => unreachable!(),
    }
}

/// The canonical form of a form after the change. `Bounds` exactly where one of its numbers goes past the bounds.
pub(crate) fn change_form(
    alloc: Global,
    store: &mut Store,
    a: GameId,
    change: Change,
) -> Result<GameId, FormError>
    requires { a < length store.old }
    ensures value { IfOk result (λ id. IsChanged store.new change (tree_at store.old a) id) }
    ensures refusal { IfErr result (λ error. IsRefused change (tree_at store.old a) error) }
    ensures canonical { IsCanonicalTree (tree_at store.old a) }
    ensures kept { Extends store.old store.new }
{
    let _count = store.len();
    let ids = reachable(alloc, store, a)?;
    change_reached(alloc, store, &change, a, &ids)
}
