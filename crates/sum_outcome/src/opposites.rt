//! Games of a sum that cancel. 0 may stand for both.

ghost use Rattle.std.specs.Prelude.{◌≡◌, ◌<◌, length, IfSome, Some, IsTrue, slice_index};
ghost use Rattle.short_games.specs.Tree.{tree_at};
ghost use Rattle.short_games.specs.Number.{number_tree};
ghost use Rattle.game_store.specs.Meaning.{AreIds};
ghost use Rattle.sum_outcome.specs.inner.Incentives.{IsKnownRight};
ghost use Rattle.sum_outcome.specs.inner.Memo.{IsRight, StaysRight};
ghost use Rattle.sum_outcome.specs.Opposites.{IsZero, MayBeTakenOut};
ghost use Rattle.sum_outcome.specs.inner.Opposites.{Cancel, AreOpposite, MayCancel};

use crate::incentives::{Incentives, MovePair, is_at_least};
use crate::memo::Memo;
use game_stops::{left_stop, right_stop};
use game_store::{Form, GameId, Store};
use std::alloc::Global;

/// Whether the first game's stops are the second's with their signs and sides turned, as those of opposite games are.
fn has_opposite_stops(store: &Store, game: GameId, other: GameId) -> bool
    requires game { game < length store.now }
    requires other { other < length store.now }
{
    left_stop(store, game) == right_stop(store, other).neg()
        && right_stop(store, game) == left_stop(store, other).neg()
}

/// Whether the id is that of a game that is no number, behind 0.
fn may_cancel(store: &Store, zero: GameId, id: GameId) -> bool
    requires { id < length store.now }
    ensures { IsTrue result → zero < id }
{
    match store.node(id) {
        Form::Number(_) => false,
        Form::Options { .. } => zero < id,
    }
}

/// Whether two games are known to cancel: that the one is at least 0 less the other, and at most.
fn do_cancel(
    alloc: Global,
    store: &Store,
    known: &mut Incentives,
    zero: GameId,
    game: GameId,
    other: GameId,
) -> bool
    requires zero { IsZero store.now (Some zero) }
    requires game { game < length store.now }
    requires other { other < length store.now }
    requires right { IsKnownRight store.now known.old }
    ensures answer { IsTrue result → Cancel (tree_at store.now game) (tree_at store.now other) }
    ensures behind { IsTrue result → zero < other }
    ensures right { IsKnownRight store.now known.new }
    ensures cap { known.new.answers.cap ≡ known.old.answers.cap }
{
    if !may_cancel(store, zero, other) {
        return false;
    }
    if !has_opposite_stops(store, game, other) {
        return false;
    }
    let above = MovePair {
        game: zero,
        option: game,
        other,
        other_option: zero,
    };
    let Some(true) = is_at_least(alloc, store, known, above) else {
        return false;
    };
    let below = MovePair {
        game: other,
        option: zero,
        other: zero,
        other_option: game,
    };
    let Some(true) = is_at_least(alloc, store, known, below) else {
        return false;
    };
    true
}

/// A later place of a game that cancels the one at a place.
fn opposite_of(
    alloc: Global,
    store: &Store,
    known: &mut Incentives,
    zero: GameId,
    sum: &[GameId],
    place: usize,
) -> Option<usize>
    requires zero { IsZero store.now (Some zero) }
    requires ids { AreIds store.now sum.now }
    requires place { place < length sum.now }
    requires right { IsKnownRight store.now known.old }
    ensures opposite { IfSome result (λ other. AreOpposite store.now sum.now zero place other) }
    ensures right { IsKnownRight store.now known.new }
    ensures cap { known.new.answers.cap ≡ known.old.answers.cap }
{
    if !may_cancel(store, zero, sum[place]) {
        return None;
    }
    'others: for other in place + 1..sum.len() {
        if do_cancel(alloc, store, known, zero, sum[place], sum[other]) {
            return Some(other);
        }
    }
    None
}

/// Two places of games that cancel.
fn opposite_places(
    alloc: Global,
    store: &Store,
    known: &mut Incentives,
    zero: GameId,
    sum: &[GameId],
) -> Option<(usize, usize)>
    requires zero { IsZero store.now (Some zero) }
    requires ids { AreIds store.now sum.now }
    requires right { IsKnownRight store.now known.old }
    ensures opposite { IfSome result (λ p. AreOpposite store.now sum.now zero p.0 p.1) }
    ensures right { IsKnownRight store.now known.new }
    ensures cap { known.new.answers.cap ≡ known.old.answers.cap }
{
    'places: for place in 0..sum.len() {
        if let Some(other) = opposite_of(alloc, store, known, zero, sum, place) {
            return Some((place, other));
        }
    }
    None
}

/// Two places of a sum at which games cancel, and the id of 0, which may stand there.
#[derive(Clone, Copy)]
pub(crate) struct Opposites {
    pub(crate) zero: GameId,
    pub(crate) first: usize,
    pub(crate) second: usize,
}

/// Games of the sum that cancel, where 0 is known.
pub(crate) fn find_opposites(store: &Store, memo: &mut Memo, sum: &[GameId]) -> Option<Opposites>
    requires ids { AreIds store.now sum.now }
    requires right { IsRight store.now memo.old }
    ensures opposite { IfSome result (MayCancel store.now sum.now) }
    ensures right { StaysRight store.now memo.old memo.new }
{
    let zero = memo.zero?;
    let (first, second) = opposite_places(memo.alloc, store, &mut memo.incentives, zero, sum)?;
    Some(Opposites {
        zero,
        first,
        second,
    })
}

/// A game and its negative may be taken out of a sum.
pub fn opposites_laws()
    ensures { MayBeTakenOut }
{}
