//! The search of a sum. Games that cancel are taken out. Where stops don't tell who loses then, it tries moves in the games
//! that are no numbers. Beside such a game no move in a number is needed (number avoidance, Conway), and none whose incentive
//! one in another game dominates.

ghost use Rattle.std.specs.Prelude.{◌≡◌, ◌<◌, ◌↔◌, length, IsTrue, MatchOption};
ghost use Rattle.std.specs.Bool.{OnFalse};
ghost use Rattle.short_games.specs.Tree.{Tree, Has, tree_at};
ghost use Rattle.short_games.specs.Number.{IsNumberTree};
ghost use Rattle.short_games.specs.TextOrder.{IsCanonicalTree};
ghost use Rattle.game_store.specs.Meaning.{pick, AreIds};
ghost use Rattle.game_players.specs.Players.{LosesGame};
ghost use Rattle.sum_outcome.specs.Sums.{sum_tree, IsBounded};
ghost use Rattle.sum_outcome.specs.inner.Memo.{IsRight, StaysRight};
ghost use Rattle.sum_outcome.specs.inner.Incentives.{IsPlaceSettled};
ghost use Rattle.sum_outcome.specs.inner.Opposites.{MayCancel};
ghost use Rattle.sum_outcome.specs.inner.Search.{HasNonNumber, IsSign, WinsAt};

use crate::incentives::{is_dominated, is_repeated, moves};
use crate::memo::{Memo, key_in};
use crate::opposites::{Opposites, find_opposites};
use dyadic_num::Dyadic;
use game_stops::{left_stop, right_stop};
use game_store::{Form, GameId, Store};
use go_grid::Colour;
use std::cmp::Ordering;

/// Whether a player who is to move loses a game of this sign.
fn loses_at(sign: Ordering, side: Colour) -> bool
    ensures { (G : Tree) → IsSign sign G → IsTrue result ↔ LosesGame side G }
{
    match side {
        Colour::Black => sign.is_le(),
        Colour::White => sign.is_ge(),
    }
}

/// Whether the game is a number.
fn is_number(store: &Store, id: GameId) -> bool
    requires { id < length store.now }
    ensures number { IsTrue result ↔ IsNumberTree (tree_at store.now id) }
    ensures canonical { IsCanonicalTree (tree_at store.now id) }
{
    match store.node(id) {
        Form::Number(_) => true,
        Form::Options { .. } => false,
    }
}

/// The sign of the sum where its stops tell it: it is above 0 where the right stops and the number add up to more, and
/// below 0 where the left stops and the number add up to less. Of numbers alone the stops are the sum.
fn sign_by_stops(store: &Store, sum: &[GameId], number: Dyadic) -> Option<Ordering>
    requires ids { AreIds store.now sum.now }
    requires bounds { IsBounded (pick store.now sum.now) number }
    ensures { MatchOption result (HasNonNumber store.now sum.now)
        (λ sign. IsSign sign (sum_tree store.now sum.now number)) }
{
    let mut low = number.units();
    let mut high = number.units();
    let mut numbers = true;
    'adding: for id in sum {
        low += right_stop(store, *id).units();
        high += left_stop(store, *id).units();
        numbers &= is_number(store, *id);
    }
    if low > 0 {
        return Some(Ordering::Greater);
    }
    if high < 0 {
        return Some(Ordering::Less);
    }
    if numbers { Some(Ordering::Equal) } else { None }
}

/// Whether a player who is to move loses the sum. What is decided is remembered.
#[cycle(search)]
pub(crate) fn loses_sum(
    store: &Store,
    memo: &mut Memo,
    sum: &mut [GameId],
    number: Dyadic,
    side: Colour,
) -> bool
    requires ids { AreIds store.now sum.old }
    requires bounds { IsBounded (pick store.now sum.old) number }
    requires right { IsRight store.now memo.old }
    ensures same { sum.new ≡ sum.old }
    ensures answer { IsTrue result ↔ LosesGame side (sum_tree store.now sum.old number) }
    ensures right { StaysRight store.now memo.old memo.new }
{
    if let Some(opposites) = find_opposites(store, memo, sum) {
        return loses_without(store, memo, sum, number, side, opposites);
    }
    if let Some(sign) = sign_by_stops(store, sum, number) {
        return loses_at(sign, side);
    }
    let Some(key) = key_in(store, memo, sum, number, side) else {
        return loses_by_moves(store, memo, sum, number, side);
    };
    if let Some(lost) = memo.recall(&key) {
        return lost;
    }
    let lost = loses_by_moves(store, memo, sum, number, side);
    memo.remember(key, lost);
    lost
}

/// Whether a player who is to move loses the sum without the games at two places, which cancel. 0 stands for them meanwhile.
#[cycle(search)]
fn loses_without(
    store: &Store,
    memo: &mut Memo,
    sum: &mut [GameId],
    number: Dyadic,
    side: Colour,
    opposites: Opposites,
) -> bool
    requires ids { AreIds store.now sum.old }
    requires bounds { IsBounded (pick store.now sum.old) number }
    requires opposite { MayCancel store.now sum.old opposites }
    requires right { IsRight store.now memo.old }
    ensures same { sum.new ≡ sum.old }
    ensures answer { IsTrue result ↔ LosesGame side (sum_tree store.now sum.old number) }
    ensures right { StaysRight store.now memo.old memo.new }
{
    let Opposites {
        zero,
        first,
        second,
    } = opposites;
    let game = sum[first];
    let other = sum[second];
    sum[first] = zero;
    sum[second] = zero;
    let lost = loses_sum(store, memo, sum, number, side);
    sum[second] = other;
    sum[first] = game;
    lost
}

/// Whether no move in a game that is no number wins. Of equal games the first is enough, and moves that others dominate are
/// left out.
#[cycle(search)]
fn loses_by_moves(
    store: &Store,
    memo: &mut Memo,
    sum: &mut [GameId],
    number: Dyadic,
    side: Colour,
) -> bool
    requires ids { AreIds store.now sum.old }
    requires bounds { IsBounded (pick store.now sum.old) number }
    requires hot { HasNonNumber store.now sum.old }
    requires right { IsRight store.now memo.old }
    ensures same { sum.new ≡ sum.old }
    ensures answer { IsTrue result ↔ LosesGame side (sum_tree store.now sum.old number) }
    ensures right { StaysRight store.now memo.old memo.new }
{
    'places: for place in 0..sum.len() {
        if is_repeated(sum, place) {
            continue;
        }
        if wins_at(store, memo, sum, place, number, side) {
            return false;
        }
    }
    true
}

/// Whether a player who is to move wins by a move in the game at a place, which is no number. Moves that others dominate are
/// left to those.
#[cycle(search)]
fn wins_at(
    store: &Store,
    memo: &mut Memo,
    sum: &mut [GameId],
    place: usize,
    number: Dyadic,
    side: Colour,
) -> bool
    requires ids { AreIds store.now sum.old }
    requires bounds { IsBounded (pick store.now sum.old) number }
    requires place { place < length sum.old }
    requires right { IsRight store.now memo.old }
    ensures same { sum.new ≡ sum.old }
    ensures wins { IsTrue result → WinsAt store.now sum.old number side place }
    ensures settled { OnFalse result (IsPlaceSettled store.now sum.old number side place) }
    ensures right { StaysRight store.now memo.old memo.new }
{
    let id = sum[place];
    let options = moves(store, id, side);
    'options: for option in options {
        if is_dominated(
            memo.alloc,
            store,
            &mut memo.incentives,
            sum,
            place,
            *option,
            side,
        ) {
            continue;
        }
        sum[place] = *option;
        let lost = loses_sum(store, memo, sum, number, side.other());
        sum[place] = id;
        if lost {
            return true;
        }
    }
    false
}
