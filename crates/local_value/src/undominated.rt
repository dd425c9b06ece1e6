//! Options without those that numbers show to be dominated (Conway).

ghost use Rattle.std.specs.Prelude.{ℕ, ◌≡◌, ◌/◌, ◌%◌, ◌<◌, length, true, Contains, IfOk, IfSome};
ghost use Rattle.local_value.specs.Remembered.{side};
ghost use Rattle.local_value.specs.inner.Options.{leader_of, IsNoBetter, IsOptionAmong, IsLed, AreEnough};
ghost use Rattle.local_value.specs.inner.OptionSets.{HasNoRepeats};

use game_store::{GameId, Store};
use go_grid::Colour;
use std::alloc::{AllocError, Global};

/// The player whose option a number is.
fn player_of(option: u32) -> Colour
    ensures { option % 2 ≡ side result }
{
    if option % 2 == 0 {
        return Colour::Black;
    }
    Colour::White
}

/// Whether numbers show that an option is no better for the player than another.
fn is_no_better(store: &Store, player: Colour, option: u32, other: u32) -> bool
    requires option { option / 2 < length store.now }
    requires other { other / 2 < length store.now }
    ensures { result ≡ true → IsNoBetter player store.now option other }
{
    let game = GameId::from(option / 2);
    let rival = GameId::from(other / 2);
    match player {
        Colour::Black => store.ceiling(game) <= store.floor(rival),
        Colour::White => store.ceiling(rival) <= store.floor(game),
    }
}

/// Whether an option goes further than another: by its floor for Black, by its ceiling for White.
fn is_further(store: &Store, player: Colour, option: u32, other: Option<u32>) -> bool
    requires option { option / 2 < length store.now }
    requires other { IfSome other (λ o. o / 2 < length store.now) }
{
    let Some(other) = other else {
        return true;
    };
    let game = GameId::from(option / 2);
    let rival = GameId::from(other / 2);
    match player {
        Colour::Black => store.floor(game) > store.floor(rival),
        Colour::White => store.ceiling(game) < store.ceiling(rival),
    }
}

/// The player's option that goes furthest, if there is one.
fn leader(store: &Store, player: Colour, options: &[u32]) -> Option<u32>
    requires { (n : ℕ) → Contains options.now n → n / 2 < length store.now }
    ensures { IfSome result (IsOptionAmong player options.now) }
{
    let mut best = None;
    for option in options {
        if player_of(*option).is(player) && is_further(store, player, *option, best) {
            best = Some(*option);
        }
    }
    best
}

/// The options of both players that go furthest.
#[derive(Clone, Copy)]
pub(crate) struct Leaders {
    pub(crate) black: Option<u32>,
    pub(crate) white: Option<u32>,
}

impl Leaders {
    /// That of a player.
    fn of(&self, player: Colour) -> Option<u32>
        ensures { result ≡ leader_of player self.now.black self.now.white }
    {
        match player {
            Colour::Black => self.black,
            Colour::White => self.white,
        }
    }
}

/// Whether the player's option that goes furthest is another one, which numbers show to be as good.
fn is_dominated(store: &Store, player: Colour, option: u32, best: Option<u32>) -> bool
    requires option { option / 2 < length store.now }
    requires best { IfSome best (λ o. o / 2 < length store.now) }
    ensures { result ≡ true → IsLed player store.now best option }
{
    match best {
        Some(best) => best != option && is_no_better(store, player, option, best),
        None => false,
    }
}

/// The options without those that numbers show to be dominated.
pub(crate) fn without_dominated(
    alloc: Global,
    store: &Store,
    options: &[u32],
) -> Result<Vec<u32>, AllocError>
    requires known { (n : ℕ) → Contains options.now n → n / 2 < length store.now }
    requires once { HasNoRepeats options.now }
    ensures enough { IfOk result (λ kept. AreEnough store.now options.now kept.items) }
    ensures once { IfOk result (λ kept. HasNoRepeats kept.items) }
{
    let leaders = Leaders {
        black: leader(store, Colour::Black, options),
        white: leader(store, Colour::White, options),
    };
    let mut kept = Vec::with_capacity(alloc, options.len())?;
    for option in options {
        let player = player_of(*option);
        if is_dominated(store, player, *option, leaders.of(player)) {
            continue;
        }
        kept.push(*option)?;
    }
    Ok(kept)
}
