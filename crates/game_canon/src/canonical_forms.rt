//! The canonical form of a form.

ghost use Rattle.std.specs.Prelude.{ℕ, ◌≡◌, ◌<◌, ◌+◌, ◌^◌, length, IfOk, IfErr, IfSome};
ghost use Rattle.short_games.specs.Number.{IsNumber};
ghost use Rattle.short_games.specs.Threshold.{IsFloor, IsCeiling};
ghost use Rattle.short_games.specs.Tree.{tree_at};
ghost use Rattle.short_games.specs.TextOrder.{IsCanonicalTree};
ghost use Rattle.game_store.specs.Meaning.{form, listed, AreIds, Extends, IsAscending, IsIdOf};
ghost use Rattle.short_games.specs.Parts.{HasMoreParts};
ghost use Rattle.game_canon.specs.FormComparisons.{AreFormComparisonsRight};
ghost use Rattle.game_canon.specs.Groups.{AreGroups};
ghost use Rattle.game_canon.specs.Outcomes.{IsCanonicalId, AreWithin, AreOptionsWithin, IsPastBounds, IsCause};

use crate::errors::FormError;
use crate::followers::has_more_parts;
use crate::form_comparisons::FormComparisons;
use crate::groups::Cuts;
use crate::reduction::reduced;
use crate::thresholds::{Value, number_value};
use dyadic_num::EXPONENT;
use game_store::{Bound, GameId, Store};
use std::alloc::Global;

/// Stores the canonical form with these options, which is no number, unless it has too many parts.
fn entered(
    alloc: Global,
    store: &mut Store,
    left: &[GameId],
    right: &[GameId],
    parts_limit: u32,
) -> Result<GameId, FormError>
    requires left_ids { AreIds store.old left.now }
    requires right_ids { AreIds store.old right.now }
    requires left_ascends { IsAscending left.now }
    requires right_ascends { IsAscending right.now }
    requires left_some { 0 < length left.now }
    requires right_some { 0 < length right.now }
    requires canonical { IsCanonicalTree (form store.old left.now right.now) }
    requires no_number { IsNumber (form store.old left.now right.now) → ⊥ }
    ensures value { IfOk result (λ id. IsIdOf store.new (form store.old left.now right.now) id) }
    ensures parts { IfOk result (λ id. HasMoreParts (tree_at store.new id) parts_limit → ⊥) }
    ensures refusal { IfErr result (λ error. IsCause
        (form store.old left.now right.now) parts_limit error) }
    ensures kept { Extends store.old store.new }
{
    if has_more_parts(alloc, store, left, right, parts_limit)? {
        return Err(FormError::Parts);
    }
    Ok(store.intern(left, right)?)
}

/// The canonical form of a form that is no number, with its floor and its ceiling.
fn reduced_form(
    alloc: Global,
    store: &mut Store,
    comparisons: &mut FormComparisons,
    left: &[GameId],
    right: &[GameId],
    cuts: Option<Cuts>,
    floor: Bound,
    ceiling: Bound,
    parts_limit: u32,
) -> Result<GameId, FormError>
    requires comparisons { AreFormComparisonsRight store.old comparisons.old }
    requires left { AreIds store.old left.now }
    requires right { AreIds store.old right.now }
    requires left_groups { IfSome cuts (λ c. AreGroups store.old left.now c.left) }
    requires right_groups { IfSome cuts (λ c. AreGroups store.old right.now c.right) }
    requires no_number { IsNumber (listed store.old left.now right.now) → ⊥ }
    requires floor { IsFloor EXPONENT (listed store.old left.now right.now) floor }
    requires ceiling { IsCeiling EXPONENT (listed store.old left.now right.now) ceiling }
    ensures value { IfOk result (λ id. IsCanonicalId store.new
        (listed store.old left.now right.now) id) }
    ensures parts { IfOk result (λ id. HasMoreParts (tree_at store.new id) parts_limit → ⊥) }
    ensures refusal { IfErr result (λ error. IsCause
        (listed store.old left.now right.now) parts_limit error) }
    ensures sizes { IfOk result (λ id. (b : ℕ)
        → AreOptionsWithin b (listed store.old left.now right.now)
        → AreWithin (b + 2 ^ EXPONENT) (tree_at store.new id)) }
    ensures comparisons { AreFormComparisonsRight store.new comparisons.new }
    ensures kept { Extends store.old store.new }
{
    comparisons.limit(alloc);
    let known = &mut comparisons.known;
    let lists = reduced(alloc, store, known, left, right, cuts, floor, ceiling)?;
    let _count = store.len();
    entered(alloc, store, &lists.left, &lists.right, parts_limit)
}

/// The canonical form of the form with these options, which come in two groups a side where cuts are given.
fn canonical_by(
    alloc: Global,
    store: &mut Store,
    comparisons: &mut FormComparisons,
    left: &[GameId],
    right: &[GameId],
    cuts: Option<Cuts>,
    parts_limit: u32,
) -> Result<GameId, FormError>
    requires comparisons { AreFormComparisonsRight store.old comparisons.old }
    requires left { AreIds store.old left.now }
    requires right { AreIds store.old right.now }
    requires left_groups { IfSome cuts (λ c. AreGroups store.old left.now c.left) }
    requires right_groups { IfSome cuts (λ c. AreGroups store.old right.now c.right) }
    ensures value { IfOk result (λ id. IsCanonicalId store.new
        (listed store.old left.now right.now) id) }
    ensures bounds { IfOk result (λ id. IsPastBounds (listed store.old left.now right.now) → ⊥) }
    ensures parts { IfOk result (λ id. HasMoreParts (tree_at store.new id) parts_limit → ⊥) }
    ensures refusal { IfErr result (λ error. IsCause
        (listed store.old left.now right.now) parts_limit error) }
    ensures sizes { IfOk result (λ id. (b : ℕ)
        → AreOptionsWithin b (listed store.old left.now right.now)
        → AreWithin (b + 2 ^ EXPONENT) (tree_at store.new id)) }
    ensures comparisons { AreFormComparisonsRight store.new comparisons.new }
    ensures kept { Extends store.old store.new }
{
    match number_value(store, left, right) {
        Value::Number(x) => Ok(store.number(x)?),
        Value::PastBounds => Err(FormError::Bounds),
        Value::NoNumber { floor, ceiling } => reduced_form(
            alloc,
            store,
            comparisons,
            left,
            right,
            cuts,
            floor,
            ceiling,
            parts_limit,
        ),
    }
}

/// The canonical form of the form with these options, as `canonical` makes it, where comparisons are remembered from form
/// to form. They have to be right for the store, and are so afterwards, whatever the answer.
pub fn canonical_with(
    alloc: Global,
    store: &mut Store,
    comparisons: &mut FormComparisons,
    left: &[GameId],
    right: &[GameId],
    parts_limit: u32,
) -> Result<GameId, FormError>
    requires comparisons { AreFormComparisonsRight store.old comparisons.old }
    requires left { AreIds store.old left.now }
    requires right { AreIds store.old right.now }
    ensures value { IfOk result (λ id. IsCanonicalId store.new
        (listed store.old left.now right.now) id) }
    ensures bounds { IfOk result (λ id. IsPastBounds (listed store.old left.now right.now) → ⊥) }
    ensures parts { IfOk result (λ id. HasMoreParts (tree_at store.new id) parts_limit → ⊥) }
    ensures refusal { IfErr result (λ error. IsCause
        (listed store.old left.now right.now) parts_limit error) }
    ensures sizes { IfOk result (λ id. (b : ℕ)
        → AreOptionsWithin b (listed store.old left.now right.now)
        → AreWithin (b + 2 ^ EXPONENT) (tree_at store.new id)) }
    ensures comparisons { AreFormComparisonsRight store.new comparisons.new }
    ensures kept { Extends store.old store.new }
{
    canonical_by(alloc, store, comparisons, left, right, None, parts_limit)
}

/// The same where so many of the first options of each side, and the others, are groups in which no game is at most another, so that
/// only games of two groups are compared: the options of a sum, by the game that was moved in.
pub fn canonical_of_groups(
    alloc: Global,
    store: &mut Store,
    comparisons: &mut FormComparisons,
    left: &[GameId],
    right: &[GameId],
    cuts: Cuts,
    parts_limit: u32,
) -> Result<GameId, FormError>
    requires comparisons { AreFormComparisonsRight store.old comparisons.old }
    requires left { AreIds store.old left.now }
    requires right { AreIds store.old right.now }
    requires left_groups { AreGroups store.old left.now cuts.left }
    requires right_groups { AreGroups store.old right.now cuts.right }
    ensures value { IfOk result (λ id. IsCanonicalId store.new
        (listed store.old left.now right.now) id) }
    ensures bounds { IfOk result (λ id. IsPastBounds (listed store.old left.now right.now) → ⊥) }
    ensures parts { IfOk result (λ id. HasMoreParts (tree_at store.new id) parts_limit → ⊥) }
    ensures refusal { IfErr result (λ error. IsCause
        (listed store.old left.now right.now) parts_limit error) }
    ensures sizes { IfOk result (λ id. (b : ℕ)
        → AreOptionsWithin b (listed store.old left.now right.now)
        → AreWithin (b + 2 ^ EXPONENT) (tree_at store.new id)) }
    ensures comparisons { AreFormComparisonsRight store.new comparisons.new }
    ensures kept { Extends store.old store.new }
{
    canonical_by(
        alloc,
        store,
        comparisons,
        left,
        right,
        Some(cuts),
        parts_limit,
    )
}

/// The canonical form of the form with these options (Conway). `Bounds` where its value is a number past the bounds of a
/// `Dyadic`, and `Parts` where it is no number and has more than `parts_limit` parts. The size of each number of the
/// answer is at most 1 above the greatest size of a number of the options. Every id keeps its form, whatever the answer.
pub fn canonical(
    alloc: Global,
    store: &mut Store,
    left: &[GameId],
    right: &[GameId],
    parts_limit: u32,
) -> Result<GameId, FormError>
    requires left { AreIds store.old left.now }
    requires right { AreIds store.old right.now }
    ensures value { IfOk result (λ id. IsCanonicalId store.new
        (listed store.old left.now right.now) id) }
    ensures bounds { IfOk result (λ id. IsPastBounds (listed store.old left.now right.now) → ⊥) }
    ensures parts { IfOk result (λ id. HasMoreParts (tree_at store.new id) parts_limit → ⊥) }
    ensures refusal { IfErr result (λ error. IsCause
        (listed store.old left.now right.now) parts_limit error) }
    ensures sizes { IfOk result (λ id. (b : ℕ)
        → AreOptionsWithin b (listed store.old left.now right.now)
        → AreWithin (b + 2 ^ EXPONENT) (tree_at store.new id)) }
    ensures kept { Extends store.old store.new }
{
    let mut comparisons = FormComparisons::new(alloc);
    canonical_with(alloc, store, &mut comparisons, left, right, parts_limit)
}
