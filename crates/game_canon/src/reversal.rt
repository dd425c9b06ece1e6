//! Options that are reversible through an answer.

ghost use Rattle.std.specs.Prelude.{ℕ, ◌≡◌, ◌<◌, ◌⊎◌, [], length, slice_index, IfOk, IsTrue, OnOk, MatchOption};
ghost use Rattle.std.specs.Bool.{OnTrue, OnFalse};
ghost use Rattle.short_games.specs.Tree.{Has, tree_at};
ghost use Rattle.short_games.specs.Number.{IsNumberTree};
ghost use Rattle.game_store.specs.Meaning.{pick, AreIds};
ghost use Rattle.game_canon.specs.inner.Comparisons.{recalled};
ghost use Rattle.game_canon.specs.inner.Games.{beside, HasForm, IsKnown};
ghost use Rattle.game_canon.specs.inner.Sides.{Covers, AreFree, IsRefilled, IsReplaced, IsReversal, IsIrreversible, IsDone, IsSmaller};

use crate::comparisons::Comparisons;
use crate::domination::best_in_order;
use crate::games::Games;
use crate::ids::{Ids, is_at, put};
use crate::side::{Side, far_of, form_covers, near_of};
use game_store::{Form, GameId, Store};
use std::alloc::{AllocError, Global};

/// The other side's options of the form beside the store. It covers none of them.
fn moves_against<'a>(games: &Games<'a>, side: Side) -> &'a [GameId]
    ensures { (j : ℕ) → j < length result.now → Covers side
        (tree_at games.now.store.now (slice_index result.now j)) (beside games.now) → ⊥ }
{
    match games.unstored {
        Some(form) => far_of(side, form.left, form.right),
        None => &[],
    }
}

/// From a place on in ascending ids, the place of the first that isn't below an id.
fn place_from(ids: &[GameId], start: usize, id: GameId) -> usize {
    let mut place = start;
    'below: while place < ids.len() && ids[place] < id {
        place += 1;
    }
    place
}

/// The first of the games that the form beside the store covers.
fn first_covered(
    alloc: Global,
    memo: &mut Comparisons,
    games: &Games<'_>,
    side: Side,
    ids: &[GameId],
) -> Result<Option<GameId>, AllocError>
    requires known { IsKnown games.now (recalled memo.old) }
    requires form { HasForm games.now }
    requires ids { AreIds games.now.store.now ids.now }
    ensures found { IfOk result (λ found. MatchOption found
        ((j : ℕ) → j < length ids.now → Covers side
        (tree_at games.now.store.now (slice_index ids.now j)) (beside games.now) → ⊥)
        (λ id. (id < length games.now.store.now)
        × Has (pick games.now.store.now ids.now) (tree_at games.now.store.now id)
        × Covers side (tree_at games.now.store.now id) (beside games.now))) }
    ensures known { IsKnown games.now (recalled memo.new) }
{
    let moves = moves_against(games, side);
    let mut place = 0;
    for id in ids {
        place = place_from(moves, place, *id);
        if is_at(moves, place, *id) {
            continue;
        }
        if form_covers(alloc, memo, games, side, *id)? {
            return Ok(Some(*id));
        }
    }
    Ok(None)
}

/// An answer to the move to `id` after which the side has nothing that it hasn't in the form beside the store. None is
/// looked for to a number.
fn answer_to(
    alloc: Global,
    memo: &mut Comparisons,
    games: &Games<'_>,
    side: Side,
    id: GameId,
) -> Result<Option<GameId>, AllocError>
    requires known { IsKnown games.now (recalled memo.old) }
    requires form { HasForm games.now }
    requires id { id < length games.now.store.now }
    ensures found { IfOk result (λ found. MatchOption found
        (IsNumberTree (tree_at games.now.store.now id)
        ⊎ IsIrreversible side (beside games.now) (tree_at games.now.store.now id))
        (λ answer. IsReversal side games.now.store.now (beside games.now) id answer)) }
    ensures known { IsKnown games.now (recalled memo.new) }
{
    match games.store.node(id) {
        Form::Number(_) => Ok(None),
        Form::Options { left, right } => {
            first_covered(alloc, memo, games, side, far_of(side, left, right))
        }
    }
}

/// The last reversible option of the side: its place, and the answer that reverses it. What is stored last has the most
/// answers, and the options that come in its place are mostly there already.
fn reversible(
    alloc: Global,
    memo: &mut Comparisons,
    games: &Games<'_>,
    side: Side,
    ids: &[GameId],
) -> Result<Option<(usize, GameId)>, AllocError>
    requires known { IsKnown games.now (recalled memo.old) }
    requires form { HasForm games.now }
    requires ids { AreIds games.now.store.now ids.now }
    ensures found { IfOk result (λ found. MatchOption found
        (IsDone side games.now.store.now (beside games.now) ids.now)
        (λ at. (at.0 < length ids.now) × IsReversal side games.now.store.now (beside games.now)
        (slice_index ids.now at.0) at.1)) }
    ensures known { IsKnown games.now (recalled memo.new) }
{
    let mut place = ids.len();
    'places: while place > 0 {
        place -= 1;
        if let Some(answer) = answer_to(alloc, memo, games, side, ids[place])? {
            return Ok(Some((place, answer)));
        }
    }
    Ok(None)
}

/// Puts into an empty list the ids with that at `place` replaced by the side's options of the answer, or by nothing where
/// the answer is a number.
fn put_replaced(
    store: &Store,
    side: Side,
    ids: &[GameId],
    place: usize,
    answer: GameId,
    all: &mut Ids,
) -> Result<(), AllocError>
    requires ids { AreIds store.now ids.now }
    requires place { place < length ids.now }
    requires answer { answer < length store.now }
    requires empty { all.old.items ≡ [] }
    ensures replaced { OnOk result (IsReplaced side store.now ids.now
        place answer all.new.items) }
    ensures refilled { OnOk result (IsRefilled ids.now place all.new.items) }
{
    all.extend_from_slice(&ids[..place])?;
    all.extend_from_slice(&ids[place + 1..])?;
    match store.node(answer) {
        Form::Number(_) => Ok(()),
        Form::Options { left, right } => all.extend_from_slice(near_of(side, left, right)),
    }
}

/// The side's options, of which none is dominated, with that at `place` bypassed, which the answer reverses, and the
/// dominated ones dropped.
fn bypassed(
    alloc: Global,
    memo: &mut Comparisons,
    games: &Games<'_>,
    side: Side,
    ids: &[GameId],
    place: usize,
    answer: GameId,
) -> Result<Ids, AllocError>
    requires known { IsKnown games.now (recalled memo.old) }
    requires form { HasForm games.now }
    requires ids { AreIds games.now.store.now ids.now }
    requires free { AreFree side (pick games.now.store.now ids.now) }
    requires place { place < length ids.now }
    requires reversal { IsReversal side games.now.store.now (beside games.now)
        (slice_index ids.now place) answer }
    ensures smaller { IfOk result (λ v. IsSmaller side games.now.store.now
        (beside games.now) ids.now v.items) }
    ensures known { IsKnown games.now (recalled memo.new) }
{
    let mut all = Ids::new(alloc);
    put_replaced(games.store, side, ids, place, answer, &mut all)?;
    // None of the others covers another, so the new ones alone are compared with all.
    let (free, more) = all.split_at(ids.len() - 1);
    best_in_order(alloc, memo, games, side, free, more)
}

/// Bypasses one reversible option of the side's, of which none is dominated, and drops the dominated ones, where there is a
/// reversible one. The answer is whether there was one.
pub(crate) fn bypass(
    alloc: Global,
    memo: &mut Comparisons,
    games: &Games<'_>,
    side: Side,
    ids: &mut Ids,
) -> Result<bool, AllocError>
    requires known { IsKnown games.now (recalled memo.old) }
    requires form { HasForm games.now }
    requires ids { AreIds games.now.store.now ids.old.items }
    requires free { AreFree side (pick games.now.store.now ids.old.items) }
    ensures smaller { IfOk result (λ more. OnTrue more (IsSmaller side games.now.store.now
        (beside games.now) ids.old.items ids.new.items)) }
    ensures done { IfOk result (λ more. OnFalse more (IsDone side games.now.store.now
        (beside games.now) ids.old.items × (ids.new.items ≡ ids.old.items))) }
    ensures known { IsKnown games.now (recalled memo.new) }
{
    match reversible(alloc, memo, games, side, ids)? {
        Some((place, answer)) => {
            let best = bypassed(alloc, memo, games, side, ids, place, answer)?;
            put(ids, best);
            Ok(true)
        }
        None => Ok(false),
    }
}
