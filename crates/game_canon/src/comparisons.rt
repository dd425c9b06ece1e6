//! Comparisons that are remembered.

ghost use Rattle.std.specs.Prelude.{◌≡◌, ℕ, [], None, OnOk, OnErr};
ghost use Rattle.game_canon.specs.inner.Comparisons.{recalled, with_answer, Forgets, Finds};
ghost use Rattle.game_canon.specs.FormComparisons.{has_place};

use game_store::GameId;
use indexmap::IndexMap;
use std::alloc::{AllocError, Global};

/// Answers for pairs of ids below this may stand in a table.
pub(crate) const NEAR: GameId = 512;

/// How many comparisons the map holds at most. Then it forgets all, and from then on there is a table.
const MOST: usize = 1 << 15;

/// For pairs of ids, whether the first game is at most the second: of pairs of ids below `NEAR` in a table, if there is one,
/// and else in a map.
#[derive(Drop)]
pub(crate) struct Comparisons {
    pub(crate) near: Vec<Option<bool>>,
    pub(crate) far: IndexMap<(GameId, GameId), bool>,
}

/// Nothing is remembered yet.
pub(crate) fn nothing_known(alloc: Global) -> Comparisons
    ensures near { result.near.items ≡ [] }
    ensures far { result.far.entries ≡ [] }
    ensures unknown { (a b : ℕ) → recalled result a b ≡ None }
{
    Comparisons {
        near: Vec::new(alloc),
        far: IndexMap::new(alloc),
    }
}

/// Whether the answer for a pair has a place in the table.
fn has_place(memo: &Comparisons, a: GameId, b: GameId) -> bool
    ensures { result ≡ has_place memo.now.near.items a b }
{
    a < NEAR && b < NEAR && ((a * NEAR + b) as usize) < memo.near.len()
}

/// The answer for a pair, if it stands in the table.
pub(crate) fn recall_near(memo: &Comparisons, a: GameId, b: GameId) -> Option<bool>
    ensures { Finds (recalled memo.now) a b result }
{
    if !has_place(memo, a, b) {
        return None;
    }
    memo.near[(a * NEAR + b) as usize]
}

/// The answer for a pair, if it is remembered.
pub(crate) fn recall(memo: &Comparisons, a: GameId, b: GameId) -> Option<bool>
    ensures { result ≡ recalled memo.now a b }
{
    if has_place(memo, a, b) {
        return memo.near[(a * NEAR + b) as usize];
    }
    memo.far.get(&(a, b)).copied()
}

/// Remembers the answer for a pair.
pub(crate) fn remember(
    memo: &mut Comparisons,
    a: GameId,
    b: GameId,
    answer: bool,
) -> Result<(), AllocError>
    ensures noted { OnOk result ((c d : ℕ) → recalled memo.new c d ≡ with_answer
        (recalled memo.old) a b answer c d) }
    ensures kept { OnErr result ((c d : ℕ) → recalled memo.new c d ≡ recalled memo.old c d) }
{
    if has_place(memo, a, b) {
        memo.near[(a * NEAR + b) as usize] = Some(answer);
        return Ok(());
    }
    memo.far.insert((a, b), answer)?;
    Ok(())
}

/// Makes an empty table where comparisons are many, if there is memory for it, and forgets all then.
fn make_table(alloc: Global, memo: &mut Comparisons)
    ensures { Forgets (recalled memo.old) (recalled memo.new) }
{
    if memo.far.len() < MOST || !memo.near.is_empty() {
        return;
    }
    if let Ok(table) = vec![in alloc; None; (NEAR * NEAR) as usize] {
        memo.near = table;
        memo.far.clear();
    }
}

/// Lets the map forget all where there are too many.
fn clear_map(memo: &mut Comparisons)
    ensures { Forgets (recalled memo.old) (recalled memo.new) }
{
    if memo.far.len() >= MOST {
        memo.far.clear();
    }
}

/// Keeps down how many comparisons stand in the map.
pub(crate) fn limit(alloc: Global, memo: &mut Comparisons)
    ensures { Forgets (recalled memo.old) (recalled memo.new) }
{
    make_table(alloc, memo);
    clear_map(memo);
}
