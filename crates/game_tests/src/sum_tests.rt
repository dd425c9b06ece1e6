//! Who loses sums of small games.

ghost use Rattle.std.specs.Prelude.{◌≡◌, ◌<◌, ◌≤◌, ◌^◌, pos, length, unsigned_abs, IfOk, IfSome};
ghost use Rattle.short_games.specs.Number.{num};
ghost use Rattle.short_games.specs.Tree.{tree_at};
ghost use Rattle.game_store.specs.Meaning.{IsIdOf, Extends};
ghost use Rattle.short_games.specs.Examples.{choice, star as the_star};
ghost use Rattle.sum_outcome.specs.Memo.{Fits};
ghost use Rattle.sum_outcome.specs.inner.Examples.{IsSmall, AreSmall};

use dyadic_num::Dyadic;
use game_canon::add_number;
use game_store::{GameId, Store};
use go_grid::Colour;
use std::alloc::{AllocError, Global};
use sum_outcome::{MOST_ENTRIES, Search};

/// The game `{0|0}`.
pub(crate) fn star(store: &mut Store) -> Result<GameId, AllocError>
    ensures value { IfOk result (λ id. IsIdOf store.new the_star id) }
    ensures kept { Extends store.old store.new }
{
    let zero = store.number(Dyadic::whole(0))?;
    store.intern(&[zero], &[zero])
}

/// The game `{1|{0|0}}`.
fn one_or_star(store: &mut Store, star: GameId) -> Result<GameId, AllocError>
    requires star { IsIdOf store.old the_star star }
    ensures value { IfOk result (λ id. IsIdOf store.new (choice (num 0 (pos 1)) the_star) id) }
    ensures kept { Extends store.old store.new }
{
    let one = store.number(Dyadic::whole(1))?;
    store.intern(&[one], &[star])
}

/// Whether a player loses the sum of the games and so many halves.
pub(crate) fn loses(
    search: &mut Search,
    store: &Store,
    sum: &mut [GameId],
    halves: i128,
    side: Colour,
) -> Option<bool>
    requires games { AreSmall store.now sum.old }
    requires few { length sum.old ≤ 40 }
    requires halves { unsigned_abs halves ≤ 100 }
    requires fits { Fits store.now search.old }
    ensures same { sum.new ≡ sum.old }
    ensures fits { Fits store.now search.new }
{
    let number = Dyadic::part(halves, 1)?;
    Some(search.loses(store, sum, number, side))
}

/// The two games.
fn both(store: &mut Store) -> Result<(GameId, GameId), AllocError>
    ensures star { IfOk result (λ games. IsIdOf store.new the_star games.0) }
    ensures other { IfOk result (λ games. IsIdOf store.new
        (choice (num 0 (pos 1)) the_star) games.1) }
{
    let star = star(store)?;
    let other = one_or_star(store, star)?;
    Ok((star, other))
}

/// Whether who is to move loses: star, and two; `{1|{0|0}}` with one less, two less and half of one less, with Black to
/// move; and 1 with White to move.
fn lose(search: &mut Search, store: &Store, star: GameId, other: GameId) -> [Option<bool>; 6]
    requires star { IsIdOf store.now the_star star }
    requires other { IsIdOf store.now (choice (num 0 (pos 1)) the_star) other }
    requires fits { Fits store.now search.old }
{
    [
        loses(search, store, &mut [star], 0, Colour::Black),
        loses(search, store, &mut [star, star], 0, Colour::Black),
        loses(search, store, &mut [other], -2, Colour::Black),
        loses(search, store, &mut [other], -4, Colour::Black),
        loses(search, store, &mut [other], -1, Colour::Black),
        loses(search, store, &mut [], 2, Colour::White),
    ]
}

/// Who loses.
const LOSERS: [Option<bool>; 6] = [
    Some(false),
    Some(true),
    Some(false),
    Some(true),
    Some(false),
    Some(true),
];

/// Whether these lose, where at most one sum is remembered.
fn are_losers(alloc: Global, store: &mut Store) -> Result<bool, AllocError> {
    let (star, other) = both(store)?;
    let mut search = Search::new(alloc, 1)?;
    Ok(lose(&mut search, store, star, other) == LOSERS)
}

#[test]
fn sums(rt: HostRuntime) {
    assert!(&rt; are_losers(rt.alloc(), &mut Store::new(rt.alloc())) == Ok(true));
}

/// Whether Black, who is to move, loses 40 times a game with so many halves, and 39 times.
fn loses_many(
    search: &mut Search,
    store: &Store,
    game: GameId,
    halves: i128,
) -> (Option<bool>, Option<bool>)
    requires game { game < length store.now }
    requires small { IsSmall (tree_at store.now game) }
    requires halves { unsigned_abs halves ≤ 100 }
    requires fits { Fits store.now search.old }
    ensures { Fits store.now search.new }
{
    let even = loses(search, store, &mut [game; 40], halves, Colour::Black);
    let odd = loses(search, store, &mut [game; 39], halves, Colour::Black);
    (even, odd)
}

/// Whether Black loses many of star, and of `{1|{0|0}}` with 20 less, and with 19 and a half less.
fn lose_many(
    search: &mut Search,
    store: &Store,
    star: GameId,
    other: GameId,
) -> [(Option<bool>, Option<bool>); 3]
    requires star { IsIdOf store.now the_star star }
    requires other { IsIdOf store.now (choice (num 0 (pos 1)) the_star) other }
    requires fits { Fits store.now search.old }
{
    [
        loses_many(search, store, star, 0),
        loses_many(search, store, other, -40),
        loses_many(search, store, other, -39),
    ]
}

/// Whether Black loses 40 and 39 times each game.
const MANY_LOSERS: [(Option<bool>, Option<bool>); 3] = [
    (Some(true), Some(false)),
    (Some(true), Some(true)),
    (Some(false), Some(false)),
];

/// Whether these lose many games.
fn are_many_losers(alloc: Global, store: &mut Store) -> Result<bool, AllocError> {
    let (star, other) = both(store)?;
    let mut search = Search::new(alloc, 10_000)?;
    Ok(lose_many(&mut search, store, star, other) == MANY_LOSERS)
}

#[test]
fn many_games(rt: HostRuntime) {
    assert!(&rt; are_many_losers(rt.alloc(), &mut Store::new(rt.alloc())) == Ok(true));
}

/// The game with each whole number from -14 to 15 added to it.
fn shifted(alloc: Global, store: &mut Store, game: GameId) -> Option<Vec<GameId>>
    requires { IsIdOf store.old (choice (num 0 (pos 1)) the_star) game }
    ensures { IfSome result (λ games. AreSmall store.new games.items × (length games.items ≡ 30)) }
{
    let mut games = Vec::new(alloc);
    'adding: for n in -14..16 {
        let Ok(sum) = add_number(alloc, store, game, Dyadic::whole(n)) else {
            return None;
        };
        let Ok(()) = games.push(sum) else {
            return None;
        };
    }
    Some(games)
}

/// Whether White loses by moving first, and whether Black does, where stops of different games leave 13 and -5.
fn lose_by_stops(search: &mut Search, store: &Store, sum: &mut [GameId]) -> [Option<bool>; 2]
    requires games { AreSmall store.now sum.old }
    requires few { length sum.old ≤ 40 }
    requires fits { Fits store.now search.old }
{
    [
        loses(search, store, sum, -4, Colour::White),
        loses(search, store, sum, -100, Colour::Black),
    ]
}

/// Whether who moves first loses the sum, as a search tells that remembers at most one.
fn are_lost(alloc: Global, store: &Store, sum: &mut [GameId]) -> Result<bool, AllocError>
    requires games { AreSmall store.now sum.old }
    requires few { length sum.old ≤ 40 }
{
    let mut search = Search::new(alloc, 1)?;
    Ok(lose_by_stops(&mut search, store, sum) == [Some(true), Some(true)])
}

/// The same of the different games.
fn are_different_lost(alloc: Global, store: &mut Store) -> Result<bool, AllocError> {
    let (_star, other) = both(store)?;
    match shifted(alloc, store, other) {
        Some(mut games) => are_lost(alloc, store, &mut games),
        None => Ok(false),
    }
}

#[test]
fn different_games(rt: HostRuntime) {
    assert!(&rt; are_different_lost(rt.alloc(), &mut Store::new(rt.alloc())) == Ok(true));
}
