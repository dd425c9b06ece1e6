//! The sum of two canonical forms.

ghost use Rattle.std.specs.Prelude.{◌≡◌, ◌<◌, ℕ, Some, length, slice_index, IfOk, IfErr, OnOk};
ghost use Rattle.short_games.specs.Sum.{◌+ᵍ◌};
ghost use Rattle.short_games.specs.Tree.{tree_at};
ghost use Rattle.game_store.specs.Meaning.{Extends};
ghost use Rattle.game_canon.specs.inner.Changes.{AreClosed, AreKnown};
ghost use Rattle.game_canon.specs.FormComparisons.{AreFormComparisonsRight};
ghost use Rattle.game_canon.specs.Outcomes.{IsCanonicalId};
ghost use Rattle.game_calc.specs.Steps.{IsOutOfLimits, IsStepRefusal};
ghost use Rattle.game_calc.specs.inner.Returns.{IsSmall};
ghost use Rattle.game_calc.specs.inner.Steps.{IsPairRefusal};
ghost use Rattle.game_calc.specs.inner.Table.{noted, Grows, AreNotedSumsRight, AreRowsKnown, AreInnerKnown};

use crate::numbers::sum_with_number;
use crate::pair::{number_of, pair_sum};
use crate::returns::later;
use crate::table::{Sums, note_sum};
use game_canon::{FormComparisons, FormError, reachable};
use game_store::{GameId, Store};
use indexmap::IndexMap;
use std::alloc::Global;

/// Notes the sums of a place of one form with all places of the other, of which options come first. Answers the latest
/// form among the sums, or the one before them.
fn add_row(
    alloc: Global,
    store: &mut Store,
    sums: &mut Sums,
    comparisons: &mut FormComparisons,
    a: GameId,
    places: &[GameId],
    before: Option<GameId>,
    parts_limit: u32,
) -> Result<Option<GameId>, FormError>
    requires a { a < length store.old }
    requires places { AreClosed store.old places.now }
    requires inner { AreInnerKnown store.old (noted sums.old) a places.now }
    requires before { IsSmall store.old parts_limit before }
    requires right { AreNotedSumsRight store.old parts_limit (noted sums.old) }
    requires comparisons { AreFormComparisonsRight store.old comparisons.old }
    ensures latest { IfOk result (IsSmall store.new parts_limit) }
    ensures known { OnOk result (AreKnown (λ i. noted sums.new a i) places.now) }
    ensures right { OnOk result (AreNotedSumsRight store.new parts_limit (noted sums.new)) }
    ensures comparisons { OnOk result (AreFormComparisonsRight store.new comparisons.new) }
    ensures grows { OnOk result (Grows (noted sums.old) (noted sums.new)) }
    ensures refusal { IfErr result (λ error. (j : ℕ) × (j < length places.now)
        × IsPairRefusal (tree_at store.old a +ᵍ tree_at store.old
        (slice_index places.now j)) parts_limit error) }
    ensures kept { Extends store.old store.new }
{
    let _count = store.len();
    let mut latest = before;
    'adding: for place in places {
        let sum = pair_sum(
            alloc,
            store,
            sums,
            comparisons,
            a,
            *place,
            latest,
            parts_limit,
        )?;
        note_sum(sums, a, *place, sum)?;
        latest = later(latest, sum);
    }
    Ok(latest)
}

/// Notes the sums of all places of one form with all places of the other, of which options come first.
fn add_all(
    alloc: Global,
    store: &mut Store,
    sums: &mut Sums,
    comparisons: &mut FormComparisons,
    first: &[GameId],
    second: &[GameId],
    parts_limit: u32,
) -> Result<(), FormError>
    requires first { AreClosed store.old first.now }
    requires second { AreClosed store.old second.now }
    requires right { AreNotedSumsRight store.old parts_limit (noted sums.old) }
    requires comparisons { AreFormComparisonsRight store.old comparisons.old }
    ensures known { OnOk result (AreRowsKnown (noted sums.new) first.now second.now
        (length first.now)) }
    ensures right { OnOk result (AreNotedSumsRight store.new parts_limit (noted sums.new)) }
    ensures comparisons { OnOk result (AreFormComparisonsRight store.new comparisons.new) }
    ensures refusal { IfErr result (λ error. (i j : ℕ) × (i < length first.now)
        × (j < length second.now) × IsPairRefusal
        (tree_at store.old (slice_index first.now i) +ᵍ tree_at store.old
        (slice_index second.now j)) parts_limit error) }
    ensures kept { Extends store.old store.new }
{
    let _count = store.len();
    let mut latest = None;
    'adding: for place in first {
        latest = add_row(
            alloc,
            store,
            sums,
            comparisons,
            *place,
            second,
            latest,
            parts_limit,
        )?;
    }
    Ok(())
}

/// The canonical form of the sum of two forms, by the table of pairs of their places, each pair once.
fn add_by_table(
    alloc: Global,
    store: &mut Store,
    a: GameId,
    b: GameId,
    parts_limit: u32,
) -> Result<GameId, FormError>
    requires a { a < length store.old }
    requires b { b < length store.old }
    ensures value { IfOk result (λ id. IsCanonicalId store.new
        (tree_at store.old a +ᵍ tree_at store.old b) id) }
    ensures within { IfOk result (λ _. IsOutOfLimits parts_limit (tree_at store.old a)
        (tree_at store.old b) → ⊥) }
    ensures refusal { IfErr result (λ error. IsStepRefusal parts_limit (tree_at store.old a)
        (tree_at store.old b) error) }
    ensures kept { Extends store.old store.new }
{
    let _count = store.len();
    let first = reachable(alloc, store, a)?;
    let second = reachable(alloc, store, b)?;
    let mut sums = IndexMap::new(alloc);
    let mut comparisons = FormComparisons::new(alloc);
    add_all(
        alloc,
        store,
        &mut sums,
        &mut comparisons,
        &first,
        &second,
        parts_limit,
    )?;
    let _new_count = store.len();
    match sums.get(&(a, b)).copied() {
        Some(sum) => Ok(sum),
        // The pair itself was the last to be noted.
        None => unreachable!(),
    }
}

/// The canonical form of the sum of two forms. `Parts` or `Bounds` exactly where for some place of the one and some place
/// of the other the canonical form of the sum has more parts than the limit, or a number past the bounds of a `Dyadic`.
/// Every id keeps its form, whatever the answer.
pub fn add(
    alloc: Global,
    store: &mut Store,
    a: GameId,
    b: GameId,
    parts_limit: u32,
) -> Result<GameId, FormError>
    requires a { a < length store.old }
    requires b { b < length store.old }
    ensures value { IfOk result (λ id. IsCanonicalId store.new
        (tree_at store.old a +ᵍ tree_at store.old b) id) }
    ensures within { IfOk result (λ _. IsOutOfLimits parts_limit (tree_at store.old a)
        (tree_at store.old b) → ⊥) }
    ensures refusal { IfErr result (λ error. IsStepRefusal parts_limit (tree_at store.old a)
        (tree_at store.old b) error) }
    ensures kept { Extends store.old store.new }
{
    if let Some(x) = number_of(store, b) {
        return sum_with_number(alloc, store, a, x, parts_limit);
    }
    if let Some(x) = number_of(store, a) {
        return sum_with_number(alloc, store, b, x, parts_limit);
    }
    add_by_table(alloc, store, a, b, parts_limit)
}
