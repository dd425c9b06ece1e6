//! Sums of three small games, by the search and by trying every move.

ghost use Rattle.std.specs.Prelude.{◌≡◌, ◌<◌, ◌≤◌, ◌^◌, length, unsigned_abs, IfOk, IfSome, [], ◌∷◌};
ghost use Rattle.game_store.specs.Meaning.{Extends};
ghost use Rattle.sum_outcome.specs.Memo.{Fits};
ghost use Rattle.sum_outcome.specs.inner.Examples.{IsSmallId, AreSmall};

use crate::sum_tests::loses;
use dyadic_num::Dyadic;
use game_canon::canonical;
use game_store::{Form, GameId, Store};
use go_grid::Colour;
use std::alloc::{AllocError, Global};
use sum_outcome::Search;

/// The whole number.
fn whole(store: &mut Store, n: i32) -> Option<GameId>
    requires { unsigned_abs n ≤ 4 }
    ensures small { IfSome result (IsSmallId store.new (2 ^ 62)) }
    ensures kept { Extends store.old store.new }
{
    let Ok(id) = store.number(Dyadic::whole(n)) else {
        return None;
    };
    Some(id)
}

/// The game `{l|r}` of the forms.
fn choice(alloc: Global, store: &mut Store, left: GameId, right: GameId) -> Option<GameId>
    requires left { IsSmallId store.old (2 ^ 62) left }
    requires right { IsSmallId store.old (2 ^ 62) right }
    ensures small { IfSome result (IsSmallId store.new (2 ^ 64)) }
    ensures kept { Extends store.old store.new }
{
    let Ok(id) = canonical(alloc, store, &[left], &[right], 9) else {
        return None;
    };
    Some(id)
}

/// The game `{l|r}` of the numbers.
fn switch(alloc: Global, store: &mut Store, left: i32, right: i32) -> Option<GameId>
    requires left { unsigned_abs left ≤ 4 }
    requires right { unsigned_abs right ≤ 4 }
    ensures small { IfSome result (IsSmallId store.new (2 ^ 64)) }
    ensures kept { Extends store.old store.new }
{
    let left = whole(store, left)?;
    let right = whole(store, right)?;
    choice(alloc, store, left, right)
}

/// The number that a form is.
fn value(store: &Store, id: GameId) -> Option<i128> {
    if id >= store.len() {
        return None;
    }
    match store.node(id) {
        Form::Number(x) => Some(x.units()),
        Form::Options { .. } => None,
    }
}

/// What numbers come to.
fn sum_of(store: &Store, games: (GameId, GameId, GameId), number: Dyadic) -> Option<i128> {
    let first = value(store, games.0)?;
    let second = value(store, games.1)?;
    let third = value(store, games.2)?;
    Some(
        number
            .units()
            .wrapping_add(first)
            .wrapping_add(second)
            .wrapping_add(third),
    )
}

/// A player's options of a form.
fn options(store: &Store, id: GameId, side: Colour) -> &[GameId] {
    if id >= store.len() {
        return &[];
    }
    match (store.node(id), side) {
        (Form::Number(_), _) => &[],
        (Form::Options { left, .. }, Colour::Black) => left,
        (Form::Options { right, .. }, Colour::White) => right,
    }
}

/// Whether a player who is to move loses, by trying every move in games that are no numbers.
#[cycle(plain)]
fn loses_plainly(
    store: &Store,
    games: (GameId, GameId, GameId),
    number: Dyadic,
    side: Colour,
    fuel: u32,
) -> Option<bool> {
    if let Some(total) = sum_of(store, games, number) {
        return Some(match side {
            Colour::Black => total <= 0,
            Colour::White => total >= 0,
        });
    }
    let (first, second, third) = games;
    if wins_in_first(store, (first, second, third), number, side, fuel)? {
        return Some(false);
    }
    if wins_in_first(store, (second, third, first), number, side, fuel)? {
        return Some(false);
    }
    let wins = wins_in_first(store, (third, first, second), number, side, fuel)?;
    Some(!wins)
}

/// Whether a move in the first game wins.
#[cycle(plain)]
fn wins_in_first(
    store: &Store,
    games: (GameId, GameId, GameId),
    number: Dyadic,
    side: Colour,
    fuel: u32,
) -> Option<bool> {
    let less = fuel.checked_sub(1)?;
    let (first, second, third) = games;
    'options: for option in options(store, first, side) {
        if loses_plainly(store, (*option, second, third), number, side.other(), less)? {
            return Some(true);
        }
    }
    Some(false)
}

/// Whether the search answers as plain play does, of three games and so many halves.
fn agree(
    search: &mut Search,
    store: &Store,
    games: (GameId, GameId, GameId),
    halves: i128,
    side: Colour,
) -> Option<bool>
    requires games { AreSmall store.now (games.0 ∷ (games.1 ∷ (games.2 ∷ []))) }
    requires halves { unsigned_abs halves ≤ 100 }
    requires fits { Fits store.now search.old }
    ensures { Fits store.now search.new }
{
    let answer = loses(
        search,
        store,
        &mut [games.0, games.1, games.2],
        halves,
        side,
    )?;
    let plain = loses_plainly(store, games, Dyadic::part(halves, 1)?, side, 9)?;
    Some(answer == plain)
}

/// The same for both players.
fn both_agree(
    search: &mut Search,
    store: &Store,
    games: (GameId, GameId, GameId),
    halves: i128,
) -> Option<bool>
    requires games { AreSmall store.now (games.0 ∷ (games.1 ∷ (games.2 ∷ []))) }
    requires halves { unsigned_abs halves ≤ 100 }
    requires fits { Fits store.now search.old }
    ensures { Fits store.now search.new }
{
    if !agree(search, store, games, halves, Colour::Black)? {
        return Some(false);
    }
    agree(search, store, games, halves, Colour::White)
}

/// The same for some numbers beside the games.
fn all_agree(search: &mut Search, store: &Store, games: (GameId, GameId, GameId)) -> Option<bool>
    requires games { AreSmall store.now (games.0 ∷ (games.1 ∷ (games.2 ∷ []))) }
    requires fits { Fits store.now search.old }
    ensures { Fits store.now search.new }
{
    if !both_agree(search, store, games, -3)? {
        return Some(false);
    }
    if !both_agree(search, store, games, -1)? {
        return Some(false);
    }
    if !both_agree(search, store, games, 0)? {
        return Some(false);
    }
    both_agree(search, store, games, -4)
}

/// The options of the nth of nine games.
fn numbers(n: u32) -> (i32, i32)
    ensures left { unsigned_abs result.0 ≤ 4 }
    ensures right { unsigned_abs result.1 ≤ 4 }
{
    match n % 9 {
        0 => (0, 0),
        1 => (1, 0),
        2 => (0, -1),
        3 => (1, -1),
        4 => (2, 0),
        5 => (3, -1),
        6 => (2, 1),
        7 => (4, 0),
        _ => (-1, 1),
    }
}

/// Three of the games, by a number of three digits to the base 9.
fn three_games(alloc: Global, store: &mut Store, n: u32) -> Option<(GameId, GameId, GameId)>
    ensures small { IfSome result (λ g. AreSmall store.new (g.0 ∷ (g.1 ∷ (g.2 ∷ [])))) }
    ensures kept { Extends store.old store.new }
{
    let (left, right) = numbers(n);
    let first = switch(alloc, store, left, right)?;
    let (left, right) = numbers(n / 9);
    let second = switch(alloc, store, left, right)?;
    let (left, right) = numbers(n / 81);
    let third = switch(alloc, store, left, right)?;
    Some((first, second, third))
}

/// Whether the search answers as plain play does, of three games and some numbers.
fn agree_on(alloc: Global, search: &mut Search, store: &mut Store, n: u32) -> Option<bool>
    requires { Fits store.old search.old }
    ensures { Fits store.new search.new }
{
    let games = three_games(alloc, store, n)?;
    all_agree(search, store, games)
}

/// A search that knows 0, which is put into the store.
fn knowing(alloc: Global, store: &mut Store) -> Result<Search, AllocError>
    ensures { IfOk result (Fits store.new) }
{
    let mut search = Search::new(alloc, 1000)?;
    search.note_zero(store)?;
    Ok(search)
}

/// The first number of three games of which the search answers otherwise.
fn wrong_sum(alloc: Global, search: &mut Search, store: &mut Store) -> Option<u32>
    requires { Fits store.old search.old }
{
    'sums: for n in 0..729 {
        if agree_on(alloc, search, store, n) != Some(true) {
            return Some(n);
        }
    }
    None
}

/// The same of a search that knows 0.
fn differs(alloc: Global, store: &mut Store) -> Result<Option<u32>, AllocError> {
    let mut search = knowing(alloc, store)?;
    Ok(wrong_sum(alloc, &mut search, store))
}

#[test]
fn plain_play(rt: HostRuntime) {
    assert!(&rt; differs(rt.alloc(), &mut Store::new(rt.alloc())) == Ok(None));
}
