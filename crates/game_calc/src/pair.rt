//! The sum of a pair of places, where the sums after each move are noted.

ghost use Rattle.std.specs.Prelude.{◌≡◌, ◌<◌, ℕ, List, length, IfOk, IfErr, OnOk, MatchOption};
ghost use Rattle.short_games.specs.Number.{IsNumberTree, number_tree};
ghost use Rattle.short_games.specs.Sum.{◌+ᵍ◌};
ghost use Rattle.short_games.specs.Tree.{tree_at};
ghost use Rattle.game_store.specs.Meaning.{listed, AreIds, Extends};
ghost use Rattle.short_games.specs.Parts.{HasMoreParts};
ghost use Rattle.game_canon.specs.inner.Changes.{AreKnown};
ghost use Rattle.game_canon.specs.FormComparisons.{AreFormComparisonsRight};
ghost use Rattle.game_canon.specs.Groups.{AreGroups};
ghost use Rattle.game_canon.specs.Outcomes.{IsCanonicalId, IsCause};
ghost use Rattle.game_calc.specs.inner.Returns.{IsSmall};
ghost use Rattle.game_calc.specs.inner.Steps.{IsPairRefusal};
ghost use Rattle.game_calc.specs.inner.Table.{noted, beside, AreNoted, AddsSums, AddsMoves, AreMovesKnown, AreNotedSumsRight};

use crate::returns::returned;
use crate::table::{Summand, Sums, noted_sum};
use dyadic_num::Dyadic;
use game_canon::{Cuts, FormComparisons, FormError, canonical_of_groups};
use game_store::{Form, GameId, Store};
use std::alloc::{AllocError, Global};

/// The options of a sum, by player.
#[derive(Drop)]
struct Options {
    left: Vec<GameId>,
    right: Vec<GameId>,
}

/// Adds the sums after moves to these ids, with the other game beside them.
fn add_sums(
    sums: &Sums,
    summand: Summand,
    ids: &[GameId],
    other: GameId,
    found: &mut Vec<GameId>,
) -> Result<(), AllocError>
    requires { AreKnown (beside (noted sums.now) summand other) ids.now }
    ensures { OnOk result
        (AddsSums (beside (noted sums.now) summand other) ids.now found.old.items found.new.items) }
{
    'adding: for id in ids {
        match noted_sum(sums, summand, *id, other) {
            Some(sum) => found.push(sum)?,
            // The sums of all options were noted before.
            None => unreachable!(),
        }
    }
    Ok(())
}

/// Adds the sums after each move in a game, where it is no number, with the other game beside it.
fn add_moves(
    store: &Store,
    sums: &Sums,
    summand: Summand,
    moved: GameId,
    other: GameId,
    options: &mut Options,
) -> Result<(), AllocError>
    requires moved { moved < length store.now }
    requires known { AreMovesKnown store.now (beside (noted sums.now) summand other) moved }
    ensures { OnOk result (AddsMoves store.now
        (beside (noted sums.now) summand other) moved options.old.left.items
        options.old.right.items options.new.left.items options.new.right.items) }
{
    match store.node(moved) {
        Form::Number(_) => Ok(()),
        Form::Options { left, right } => {
            add_sums(sums, summand, left, other, &mut options.left)?;
            add_sums(sums, summand, right, other, &mut options.right)?;
            Ok(())
        }
    }
}

/// How many options there are by now.
fn cuts_behind(options: &Options) -> Cuts
    ensures left { result.left ≡ length options.now.left.items }
    ensures right { result.right ≡ length options.now.right.items }
{
    Cuts {
        left: options.left.len(),
        right: options.right.len(),
    }
}

/// The number that a form is.
pub(crate) fn number_of(store: &Store, id: GameId) -> Option<Dyadic>
    requires { id < length store.now }
    ensures { MatchOption result (IsNumberTree (tree_at store.now id) → ⊥)
        (λ x. tree_at store.now id ≡ number_tree x) }
{
    match store.node(id) {
        Form::Number(x) => Some(x),
        Form::Options { .. } => None,
    }
}

/// The numbers that both forms are.
fn both_numbers(store: &Store, a: GameId, b: GameId) -> Option<(Dyadic, Dyadic)>
    requires a { a < length store.now }
    requires b { b < length store.now }
    ensures { MatchOption result (IsNumberTree (tree_at store.now a)
        → IsNumberTree (tree_at store.now b) → ⊥)
        (λ p. (tree_at store.now a ≡ number_tree p.0) × (tree_at store.now b ≡ number_tree p.1)) }
{
    let x = number_of(store, a)?;
    let y = number_of(store, b)?;
    Some((x, y))
}

/// The sum of two numbers. `Bounds` exactly where it is past the bounds of a `Dyadic`.
fn number_sum(
    store: &mut Store,
    x: Dyadic,
    y: Dyadic,
    parts_limit: u32,
) -> Result<GameId, FormError>
    ensures value { IfOk result (λ id. IsCanonicalId store.new
        (number_tree x +ᵍ number_tree y) id) }
    ensures parts { IfOk result (λ id. HasMoreParts (tree_at store.new id) parts_limit → ⊥) }
    ensures refusal { IfErr result (λ error. IsPairRefusal
        (number_tree x +ᵍ number_tree y) parts_limit error) }
    ensures kept { Extends store.old store.new }
{
    let Some(sum) = x.add(y) else {
        return Err(FormError::Bounds);
    };
    Ok(store.number(sum)?)
}

/// The canonical form of the form with these options, which come in two groups: the one to which it is found to return, or else as
/// `canonical_of_groups` makes it.
fn form_of(
    alloc: Global,
    store: &mut Store,
    comparisons: &mut FormComparisons,
    left: &[GameId],
    right: &[GameId],
    cuts: Cuts,
    latest: Option<GameId>,
    parts_limit: u32,
) -> Result<GameId, FormError>
    requires left { AreIds store.old left.now }
    requires right { AreIds store.old right.now }
    requires left_groups { AreGroups store.old left.now cuts.left }
    requires right_groups { AreGroups store.old right.now cuts.right }
    requires latest { IsSmall store.old parts_limit latest }
    requires comparisons { AreFormComparisonsRight store.old comparisons.old }
    ensures value { IfOk result (λ id. IsCanonicalId store.new
        (listed store.old left.now right.now) id) }
    ensures parts { IfOk result (λ id. HasMoreParts (tree_at store.new id) parts_limit → ⊥) }
    ensures refusal { IfErr result (λ error. IsCause
        (listed store.old left.now right.now) parts_limit error) }
    ensures comparisons { AreFormComparisonsRight store.new comparisons.new }
    ensures kept { Extends store.old store.new }
{
    let _count = store.len();
    if let Some(id) = returned(store, left, right, latest) {
        return Ok(id);
    }
    canonical_of_groups(alloc, store, comparisons, left, right, cuts, parts_limit)
}

/// The canonical form of the sum of two forms: that of the same two the other way round, where it is noted; two numbers are
/// added; else its options are the sums after each move in a game that is no number (number avoidance, Conway).
pub(crate) fn pair_sum(
    alloc: Global,
    store: &mut Store,
    sums: &Sums,
    comparisons: &mut FormComparisons,
    a: GameId,
    b: GameId,
    latest: Option<GameId>,
    parts_limit: u32,
) -> Result<GameId, FormError>
    requires a { a < length store.old }
    requires b { b < length store.old }
    requires latest { IsSmall store.old parts_limit latest }
    requires first { AreMovesKnown store.old (λ i. noted sums.now i b) a }
    requires second { AreMovesKnown store.old (λ i. noted sums.now a i) b }
    requires right { AreNotedSumsRight store.old parts_limit (noted sums.now) }
    requires comparisons { AreFormComparisonsRight store.old comparisons.old }
    ensures value { IfOk result (λ id. IsCanonicalId store.new
        (tree_at store.old a +ᵍ tree_at store.old b) id) }
    ensures parts { IfOk result (λ id. HasMoreParts (tree_at store.new id) parts_limit → ⊥) }
    ensures refusal { IfErr result (λ error. IsPairRefusal
        (tree_at store.old a +ᵍ tree_at store.old b) parts_limit error) }
    ensures comparisons { AreFormComparisonsRight store.new comparisons.new }
    ensures kept { Extends store.old store.new }
{
    let _count = store.len();
    if let Some(sum) = noted_sum(sums, Summand::Second, a, b) {
        return Ok(sum);
    }
    if let Some((x, y)) = both_numbers(store, a, b) {
        return number_sum(store, x, y, parts_limit);
    }
    let mut options = Options {
        left: Vec::new(alloc),
        right: Vec::new(alloc),
    };
    add_moves(store, sums, Summand::First, a, b, &mut options)?;
    let cuts = cuts_behind(&options);
    add_moves(store, sums, Summand::Second, b, a, &mut options)?;
    form_of(
        alloc,
        store,
        comparisons,
        &options.left,
        &options.right,
        cuts,
        latest,
        parts_limit,
    )
}
