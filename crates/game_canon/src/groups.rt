//! The best of the options of a sum of two games. They come in two groups, by the game that was moved in, and none of a group covers
//! another of it.

ghost use Rattle.std.specs.Prelude.{IfOk, ◌++◌};
ghost use Rattle.game_store.specs.Meaning.{AreIds, IsAscending, pick};
ghost use Rattle.game_canon.specs.Groups.{AreGroups};
ghost use Rattle.game_canon.specs.inner.Comparisons.{recalled};
ghost use Rattle.game_canon.specs.inner.Games.{IsKnown};
ghost use Rattle.game_canon.specs.inner.Sides.{AreBest, AreFree, IsUncovered};

use crate::comparisons::Comparisons;
use crate::domination::none_covers;
use crate::games::Games;
use crate::ids::{Ids, arrange};
use crate::side::Side;
use game_store::GameId;
use std::alloc::{AllocError, Global};

/// How many of the options of each side are of the first group.
#[derive(Clone, Copy)]
pub struct Cuts {
    pub left: usize,
    pub right: usize,
}

/// Those of the games that none of the others covers.
fn uncovered(
    alloc: Global,
    memo: &mut Comparisons,
    games: &Games<'_>,
    side: Side,
    ids: &[GameId],
    others: &[GameId],
) -> Result<Ids, AllocError>
    requires known { IsKnown games.now (recalled memo.old) }
    requires ids { AreIds games.now.store.now ids.now }
    requires others { AreIds games.now.store.now others.now }
    ensures uncovered { IfOk result (λ v. IsUncovered side games.now.store.now
        ids.now others.now v.items) }
    ensures known { IsKnown games.now (recalled memo.new) }
{
    let mut left = Ids::new(alloc);
    for id in ids {
        if !none_covers(alloc, memo, games, side, others, *id)? {
            continue;
        }
        left.push(*id)?;
    }
    Ok(left)
}

/// The best for the side of games in two groups.
fn best_of_groups(
    alloc: Global,
    memo: &mut Comparisons,
    games: &Games<'_>,
    side: Side,
    first: &[GameId],
    second: &[GameId],
) -> Result<Ids, AllocError>
    requires known { IsKnown games.now (recalled memo.old) }
    requires first_ids { AreIds games.now.store.now first.now }
    requires second_ids { AreIds games.now.store.now second.now }
    requires first_free { AreFree side (pick games.now.store.now first.now) }
    requires second_free { AreFree side (pick games.now.store.now second.now) }
    ensures best { IfOk result (λ v. AreBest side games.now.store.now
        (first.now ++ second.now) v.items) }
    ensures known { IsKnown games.now (recalled memo.new) }
{
    let later = uncovered(alloc, memo, games, side, second, first)?;
    let mut best = uncovered(alloc, memo, games, side, first, &later)?;
    best.extend_from_slice(&later)?;
    Ok(best)
}

/// The best of the options of a side, in ascending order of their ids, where so many of the first are a group and the others another.
pub(crate) fn best_by_groups(
    alloc: Global,
    memo: &mut Comparisons,
    games: &Games<'_>,
    side: Side,
    ids: &[GameId],
    cut: usize,
) -> Result<Ids, AllocError>
    requires known { IsKnown games.now (recalled memo.old) }
    requires ids { AreIds games.now.store.now ids.now }
    requires groups { AreGroups games.now.store.now ids.now cut }
    ensures best { IfOk result (λ v. AreBest side games.now.store.now ids.now v.items) }
    ensures ascends { IfOk result (λ v. IsAscending v.items) }
    ensures known { IsKnown games.now (recalled memo.new) }
{
    let (first, second) = ids.split_at(cut);
    let mut best = best_of_groups(alloc, memo, games, side, first, second)?;
    arrange(&mut best);
    Ok(best)
}
