//! Sums that are equal to a form that came out before: each move in them is one of that form's, or is answered by moving
//! back to it.

ghost use Rattle.std.specs.Prelude.{ℕ, ◌<◌, List, length, IfSome, IsTrue, Some};
ghost use Rattle.short_games.specs.Order.{◌≡ᵍ◌};
ghost use Rattle.short_games.specs.Parts.{IsFollower, HasMoreParts};
ghost use Rattle.short_games.specs.Tree.{Tree, Has, tree_at};
ghost use Rattle.game_store.specs.Meaning.{pick, listed, AreIds};
ghost use Rattle.game_canon.specs.Outcomes.{IsCanonicalId};
ghost use Rattle.game_calc.specs.inner.Returns.{far, AreAmong, AreMet, IsMet, IsSmall, ReturnsTo, Stands};

use game_store::{Form, GameId, Store};

/// A side of a game.
#[derive(Clone, Copy)]
pub(crate) enum Side {
    Left,
    Right,
}

/// Whether the id stands in the list.
fn stands(ids: &[GameId], id: GameId) -> bool
    ensures { IsTrue result → Stands ids.now id }
{
    for other in ids {
        if *other == id {
            return true;
        }
    }
    false
}

/// Whether the id is found in the list, which is searched as one in ascending order.
fn is_found(ids: &[GameId], id: GameId) -> bool
    ensures { IsTrue result → Stands ids.now id }
{
    match ids.binary_search(&id) {
        Ok(_) => true,
        Err(_) => false,
    }
}

/// Whether each of the ids stands in the other list.
fn are_among(ids: &[GameId], others: &[GameId]) -> bool
    ensures { IsTrue result → AreAmong ids.now others.now (length ids.now) }
{
    'passing: for id in ids {
        if !stands(others, *id) {
            return false;
        }
    }
    true
}

/// The first of the ids that doesn't stand in the other list.
fn first_other(ids: &[GameId], others: &[GameId]) -> Option<GameId>
    ensures { IfSome result (λ id. Stands ids.now id) }
{
    for id in ids {
        if !stands(others, *id) {
            return Some(*id);
        }
    }
    None
}

/// The other side's options of a game, and none of a number.
fn answers(store: &Store, side: Side, id: GameId) -> &[GameId]
    requires { id < length store.now }
    ensures ids { AreIds store.now result.now }
    ensures options { (X : Tree) → Has (pick store.now result.now) X
        → Has (far side (tree_at store.now id)) X }
{
    match (store.node(id), side) {
        (Form::Number(_), _) => &[],
        (Form::Options { right, .. }, Side::Left) => right,
        (Form::Options { left, .. }, Side::Right) => left,
    }
}

/// Whether a move stands in the list, or the other side can answer it by moving to `x`.
fn is_met(store: &Store, side: Side, near: &[GameId], x: GameId, id: GameId) -> bool
    requires { id < length store.now }
    ensures { IsTrue result → IsMet store.now side near.now x id }
{
    if is_found(near, id) {
        return true;
    }
    is_found(answers(store, side, id), x)
}

/// Whether each of the moves stands in the list, or the other side can answer it by moving to `x`.
fn are_met(store: &Store, side: Side, near: &[GameId], x: GameId, ids: &[GameId]) -> bool
    requires { AreIds store.now ids.now }
    ensures { IsTrue result → AreMet store.now side near.now x ids.now (length ids.now) }
{
    'passing: for id in ids {
        if !is_met(store, side, near, x, *id) {
            return false;
        }
    }
    true
}

/// Whether the form with the first two lists of options has all moves of `x`, which has the other two, and returns to it
/// by all its other moves.
fn returns_to(
    store: &Store,
    left: &[GameId],
    right: &[GameId],
    its_left: &[GameId],
    its_right: &[GameId],
    x: GameId,
) -> bool
    requires left { AreIds store.now left.now }
    requires right { AreIds store.now right.now }
    ensures { IsTrue result
        → ReturnsTo store.now left.now right.now its_left.now its_right.now x }
{
    if !are_among(its_left, left) {
        return false;
    }
    if !are_among(its_right, right) {
        return false;
    }
    if !are_met(store, Side::Left, its_left, x, left) {
        return false;
    }
    are_met(store, Side::Right, its_right, x, right)
}

/// Whether the form with these options is found to be equal to that of `x`.
fn is_form_of(store: &Store, left: &[GameId], right: &[GameId], x: GameId) -> bool
    requires left { AreIds store.now left.now }
    requires right { AreIds store.now right.now }
    requires x { x < length store.now }
    ensures { IsTrue result → listed store.now left.now right.now ≡ᵍ tree_at store.now x }
{
    match store.node(x) {
        Form::Number(_) => false,
        Form::Options {
            left: its_left,
            right: its_right,
        } => returns_to(store, left, right, its_left, its_right, x),
    }
}

/// The first Right option of the game that doesn't stand in the list, or else the game.
fn candidate(store: &Store, latest: GameId, right: &[GameId]) -> GameId
    requires { latest < length store.now }
    ensures held { result < length store.now }
    ensures follower { IsFollower (tree_at store.now latest) (tree_at store.now result) }
{
    match first_other(answers(store, Side::Left, latest), right) {
        Some(id) => id,
        None => latest,
    }
}

/// A form equal to that with these options, where the latest form or one of its options is found to be one.
pub(crate) fn returned(
    store: &Store,
    left: &[GameId],
    right: &[GameId],
    latest: Option<GameId>,
) -> Option<GameId>
    requires left { AreIds store.now left.now }
    requires right { AreIds store.now right.now }
    requires latest { IfSome latest (λ id. id < length store.now) }
    ensures { IfSome result (λ id. IsCanonicalId store.now (listed store.now left.now right.now) id
        × ((limit : ℕ) → IsSmall store.now limit latest
        → HasMoreParts (tree_at store.now id) limit → ⊥)) }
{
    let latest = latest?;
    let id = candidate(store, latest, right);
    let _count = store.len();
    if is_form_of(store, left, right, id) {
        return Some(id);
    }
    None
}

/// The later of two forms.
pub(crate) fn later(latest: Option<GameId>, id: GameId) -> Option<GameId>
    ensures { (Ts : List Tree) (limit : ℕ) → IsSmall Ts limit latest
        → IsSmall Ts limit (Some id) → IsSmall Ts limit result }
{
    match latest {
        Some(before) if id < before => Some(before),
        _ => Some(id),
    }
}
