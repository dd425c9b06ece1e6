//! Options that aren't dominated.

ghost use Rattle.std.specs.Prelude.{ℕ, ◌≡◌, ◌<◌, ◌↔◌, List, [], ◌∷◌, ◌++◌, length, slice_index, IfOk, IsTrue, OnOk};
ghost use Rattle.short_games.specs.Tree.{tree_at};
ghost use Rattle.game_store.specs.Meaning.{pick, AreIds, IsAscending};
ghost use Rattle.game_canon.specs.inner.Comparisons.{recalled};
ghost use Rattle.game_canon.specs.inner.Games.{IsKnown};
ghost use Rattle.game_canon.specs.inner.Sides.{Covers, AreBest, AreFree, IsWithout};

use crate::comparisons::Comparisons;
use crate::games::Games;
use crate::ids::{Ids, arrange, put};
use crate::side::{Side, is_covered};
use game_store::GameId;
use std::alloc::{AllocError, Global};

/// Whether none of the games covers that of `id`.
pub(crate) fn none_covers(
    alloc: Global,
    memo: &mut Comparisons,
    games: &Games<'_>,
    side: Side,
    ids: &[GameId],
    id: GameId,
) -> Result<bool, AllocError>
    requires known { IsKnown games.now (recalled memo.old) }
    requires ids { AreIds games.now.store.now ids.now }
    requires id { id < length games.now.store.now }
    ensures answer { IfOk result (λ answer. IsTrue answer ↔
        ((j : ℕ) → j < length ids.now → Covers side (tree_at games.now.store.now id)
        (tree_at games.now.store.now (slice_index ids.now j)) → ⊥)) }
    ensures known { IsKnown games.now (recalled memo.new) }
{
    for other in ids {
        if is_covered(alloc, memo, games, side, id, *other)? {
            return Ok(false);
        }
    }
    Ok(true)
}

/// Puts those of the games that `top` doesn't cover into an empty list.
fn put_uncovered(
    alloc: Global,
    memo: &mut Comparisons,
    games: &Games<'_>,
    side: Side,
    ids: &[GameId],
    top: GameId,
    left: &mut Ids,
) -> Result<(), AllocError>
    requires known { IsKnown games.now (recalled memo.old) }
    requires ids { AreIds games.now.store.now ids.now }
    requires top { top < length games.now.store.now }
    requires empty { left.old.items ≡ [] }
    ensures without { OnOk result (IsWithout side games.now.store.now
        ids.now top left.new.items) }
    ensures known { IsKnown games.now (recalled memo.new) }
{
    for id in ids {
        if is_covered(alloc, memo, games, side, *id, top)? {
            continue;
        }
        left.push(*id)?;
    }
    Ok(())
}

/// Takes `top` in among the games, and drops those that it covers.
fn take_in(
    alloc: Global,
    memo: &mut Comparisons,
    games: &Games<'_>,
    side: Side,
    best: &mut Ids,
    top: GameId,
) -> Result<(), AllocError>
    requires known { IsKnown games.now (recalled memo.old) }
    requires ids { AreIds games.now.store.now best.old.items }
    requires top { top < length games.now.store.now }
    ensures with_top { OnOk result ((ws : List ℕ) × IsWithout side games.now.store.now
        best.old.items top ws × (best.new.items ≡ ws ++ top ∷ [])) }
    ensures known { IsKnown games.now (recalled memo.new) }
{
    let mut left = Ids::new(alloc);
    put_uncovered(alloc, memo, games, side, best, top, &mut left)?;
    left.push(top)?;
    put(best, left);
    Ok(())
}

/// Takes games in among the best, of which none covers another, and drops what isn't best any more.
fn take_in_all(
    alloc: Global,
    memo: &mut Comparisons,
    games: &Games<'_>,
    side: Side,
    best: &mut Ids,
    ids: &[GameId],
) -> Result<(), AllocError>
    requires known { IsKnown games.now (recalled memo.old) }
    requires best { AreBest side games.now.store.now best.old.items best.old.items }
    requires ids { AreIds games.now.store.now ids.now }
    ensures best { OnOk result (AreBest side games.now.store.now
        (best.old.items ++ ids.now) best.new.items) }
    ensures known { IsKnown games.now (recalled memo.new) }
{
    for id in ids {
        if !none_covers(alloc, memo, games, side, best, *id)? {
            continue;
        }
        take_in(alloc, memo, games, side, best, *id)?;
    }
    Ok(())
}

/// The best for the side of games of which none covers another, and others, in ascending order of their ids.
pub(crate) fn best_in_order(
    alloc: Global,
    memo: &mut Comparisons,
    games: &Games<'_>,
    side: Side,
    free: &[GameId],
    ids: &[GameId],
) -> Result<Ids, AllocError>
    requires known { IsKnown games.now (recalled memo.old) }
    requires free_ids { AreIds games.now.store.now free.now }
    requires free { AreFree side (pick games.now.store.now free.now) }
    requires ids { AreIds games.now.store.now ids.now }
    ensures best { IfOk result (λ v. AreBest side games.now.store.now
        (free.now ++ ids.now) v.items) }
    ensures ascends { IfOk result (λ v. IsAscending v.items) }
    ensures known { IsKnown games.now (recalled memo.new) }
{
    let mut best = Ids::from_slice(alloc, free)?;
    take_in_all(alloc, memo, games, side, &mut best, ids)?;
    arrange(&mut best);
    Ok(best)
}

/// The best of the games for the side, in ascending order of their ids.
pub(crate) fn best(
    alloc: Global,
    memo: &mut Comparisons,
    games: &Games<'_>,
    side: Side,
    ids: &[GameId],
) -> Result<Ids, AllocError>
    requires known { IsKnown games.now (recalled memo.old) }
    requires ids { AreIds games.now.store.now ids.now }
    ensures best { IfOk result (λ v. AreBest side games.now.store.now ids.now v.items) }
    ensures ascends { IfOk result (λ v. IsAscending v.items) }
    ensures known { IsKnown games.now (recalled memo.new) }
{
    let mut best = Ids::new(alloc);
    take_in_all(alloc, memo, games, side, &mut best, ids)?;
    arrange(&mut best);
    Ok(best)
}
