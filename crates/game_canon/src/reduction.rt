//! The reduction of a form that is no number: dominated options go, and reversible ones are bypassed, until there is none
//! (Conway).

ghost use Rattle.std.specs.Prelude.{ℕ, ◌≡◌, IfOk, IfSome, OnOk};
ghost use Rattle.short_games.specs.Number.{IsNumber};
ghost use Rattle.short_games.specs.Tree.{AreDistinct};
ghost use Rattle.short_games.specs.Threshold.{IsFloor, IsCeiling};
ghost use Rattle.game_store.specs.Meaning.{listed, AreIds};
ghost use Rattle.game_canon.specs.Comparisons.{AreRight};
ghost use Rattle.game_canon.specs.inner.Comparisons.{recalled};
ghost use Rattle.game_canon.specs.inner.Games.{beside, IsFormBeside, IsKnown};
ghost use Rattle.game_canon.specs.Groups.{AreGroups};
ghost use Rattle.game_canon.specs.inner.Sides.{IsStart, StartsWith, IsReducedForm};

use crate::comparisons::{Comparisons, nothing_known};
use crate::domination::best;
use crate::games::{Games, Standing, games_beside, games_of};
use crate::groups::{Cuts, best_by_groups};
use crate::ids::{Ids, put};
use crate::reversal::bypass;
use crate::side::Side;
use dyadic_num::EXPONENT;
use game_store::{Bound, GameId, Store};
use std::alloc::{AllocError, Global};

/// The options of both sides.
#[derive(Drop)]
pub(crate) struct Lists {
    pub(crate) left: Ids,
    pub(crate) right: Ids,
}

/// A copy of the options.
fn copied(alloc: Global, left: &[GameId], right: &[GameId]) -> Result<Lists, AllocError>
    ensures left { IfOk result (λ lists. lists.left.items ≡ left.now) }
    ensures right { IfOk result (λ lists. lists.right.items ≡ right.now) }
{
    let left = Ids::from_slice(alloc, left)?;
    let right = Ids::from_slice(alloc, right)?;
    Ok(Lists { left, right })
}

/// Bypasses every reversible one of the options of the form beside the store, of which none is dominated.
fn bypass_lists(
    alloc: Global,
    memo: &mut Comparisons,
    games: &Games<'_>,
    left: &mut Ids,
    right: &mut Ids,
) -> Result<(), AllocError>
    requires known { IsKnown games.now (recalled memo.old) }
    requires form { IsFormBeside games.now left.old.items right.old.items }
    requires start { IsStart games.now.store.now left.old.items right.old.items }
    ensures { OnOk result (IsReducedForm games.now.store.now
        (beside games.now) left.new.items right.new.items) }
{
    'rounds: loop {
        if bypass(alloc, memo, games, Side::Left, left)? {
            continue;
        }
        if !bypass(alloc, memo, games, Side::Right, right)? {
            return Ok(());
        }
    }
}

/// The options of the form beside the store, of which none is dominated, with every reversible one bypassed.
fn bypass_all(
    alloc: Global,
    memo: &mut Comparisons,
    games: &Games<'_>,
    left: &[GameId],
    right: &[GameId],
) -> Result<Lists, AllocError>
    requires known { IsKnown games.now (recalled memo.old) }
    requires form { IsFormBeside games.now left.now right.now }
    requires start { IsStart games.now.store.now left.now right.now }
    ensures { IfOk result (λ lists. IsReducedForm games.now.store.now
        (beside games.now) lists.left.items lists.right.items) }
{
    let mut lists = copied(alloc, left, right)?;
    bypass_lists(alloc, memo, games, &mut lists.left, &mut lists.right)?;
    Ok(lists)
}

/// The best of the options of both sides, in ascending order.
fn best_of_both(
    alloc: Global,
    memo: &mut Comparisons,
    games: &Games<'_>,
    left: &[GameId],
    right: &[GameId],
) -> Result<Lists, AllocError>
    requires known { IsKnown games.now (recalled memo.old) }
    requires left { AreIds games.now.store.now left.now }
    requires right { AreIds games.now.store.now right.now }
    ensures starts { IfOk result (λ lists. StartsWith games.now.store.now
        left.now right.now lists.left.items lists.right.items) }
    ensures known { IsKnown games.now (recalled memo.new) }
{
    let left = best(alloc, memo, games, Side::Left, left)?;
    let right = best(alloc, memo, games, Side::Right, right)?;
    Ok(Lists { left, right })
}

/// The same where the options of each side come in two groups.
fn best_by_both_groups(
    alloc: Global,
    memo: &mut Comparisons,
    games: &Games<'_>,
    left: &[GameId],
    right: &[GameId],
    cuts: Cuts,
) -> Result<Lists, AllocError>
    requires known { IsKnown games.now (recalled memo.old) }
    requires left { AreIds games.now.store.now left.now }
    requires right { AreIds games.now.store.now right.now }
    requires left_groups { AreGroups games.now.store.now left.now cuts.left }
    requires right_groups { AreGroups games.now.store.now right.now cuts.right }
    ensures starts { IfOk result (λ lists. StartsWith games.now.store.now
        left.now right.now lists.left.items lists.right.items) }
    ensures known { IsKnown games.now (recalled memo.new) }
{
    let left = best_by_groups(alloc, memo, games, Side::Left, left, cuts.left)?;
    let right = best_by_groups(alloc, memo, games, Side::Right, right, cuts.right)?;
    Ok(Lists { left, right })
}

/// The best of the options of both sides, in ascending order. What is found out of the store's games is remembered.
fn best_lists(
    alloc: Global,
    store: &Store,
    memo: &mut Comparisons,
    left: &[GameId],
    right: &[GameId],
    cuts: Option<Cuts>,
) -> Result<Lists, AllocError>
    requires memo { AreRight store.now (recalled memo.old) }
    requires left { AreIds store.now left.now }
    requires right { AreIds store.now right.now }
    requires left_groups { IfSome cuts (λ c. AreGroups store.now left.now c.left) }
    requires right_groups { IfSome cuts (λ c. AreGroups store.now right.now c.right) }
    ensures starts { IfOk result (λ lists. StartsWith store.now
        left.now right.now lists.left.items lists.right.items) }
    ensures memo { AreRight store.now (recalled memo.new) }
    ensures distinct { AreDistinct store.now }
{
    let none = nothing_known(alloc);
    let stored = games_of(store, &none);
    match cuts {
        Some(cuts) => best_by_both_groups(alloc, memo, &stored, left, right, cuts),
        None => best_of_both(alloc, memo, &stored, left, right),
    }
}

/// The options of a form that is no number, in ascending order, of which none is dominated or reversible any more. The
/// floor and the ceiling are the form's. What is found out of the store's games on the way to the undominated ones is
/// remembered.
pub(crate) fn reduced(
    alloc: Global,
    store: &Store,
    memo: &mut Comparisons,
    left: &[GameId],
    right: &[GameId],
    cuts: Option<Cuts>,
    floor: Bound,
    ceiling: Bound,
) -> Result<Lists, AllocError>
    requires memo { AreRight store.now (recalled memo.old) }
    requires left { AreIds store.now left.now }
    requires right { AreIds store.now right.now }
    requires left_groups { IfSome cuts (λ c. AreGroups store.now left.now c.left) }
    requires right_groups { IfSome cuts (λ c. AreGroups store.now right.now c.right) }
    requires no_number { IsNumber (listed store.now left.now right.now) → ⊥ }
    requires floor { IsFloor EXPONENT (listed store.now left.now right.now) floor }
    requires ceiling { IsCeiling EXPONENT (listed store.now left.now right.now) ceiling }
    ensures reduced { IfOk result (λ lists. IsReducedForm store.now
        (listed store.now left.now right.now) lists.left.items lists.right.items) }
    ensures memo { AreRight store.now (recalled memo.new) }
{
    let lists = best_lists(alloc, store, memo, left, right, cuts)?;
    let standing = Standing { floor, ceiling };
    let games = games_beside(store, memo, &lists.left, &lists.right, &standing);
    let mut beside = nothing_known(alloc);
    bypass_all(alloc, &mut beside, &games, &lists.left, &lists.right)
}
