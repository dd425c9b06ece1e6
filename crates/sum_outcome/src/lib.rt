//! Who loses a sum of games by moving first.
#![tactic(auto)]

ghost use Rattle.std.specs.Prelude.{◌≡◌, ◌<◌, ◌≤◌, ◌↔◌, List, length, IfOk, IsTrue};
ghost use Rattle.short_games.specs.Tree.{Tree};
ghost use Rattle.game_store.specs.Meaning.{pick, AreIds, Extends};
ghost use Rattle.game_players.specs.Players.{LosesGame};
ghost use Rattle.sum_outcome.specs.Sums.{sum_tree, IsBounded};
ghost use Rattle.sum_outcome.specs.Memo.{blank_search, Fits, IsWithinEntries, FitsGrownStores};

mod incentives;
mod key;
mod memo;
mod opposites;
mod outcome;

use crate::memo::Memo;
pub use crate::opposites::opposites_laws;
use crate::outcome::loses_sum;
use dyadic_num::Dyadic;
use game_store::{GameId, Store};
use go_grid::Colour;
use std::alloc::{AllocError, Global};
use std::marker::Model;
use std::num::NonZeroUsize;

/// The most sums that a search may remember.
pub const MOST_ENTRIES: usize = 1_000_000;

/// A search of sums, which remembers who loses those that it has decided. Contracts see how many it may remember, and what it
/// remembers.
#[derive(Drop)]
pub struct Search {
    memo: Memo,
}

impl Model for Search {
    ghost use Rattle.sum_outcome.specs.Memo.{Search, IsWithinEntries};
    ghost use Rattle.sum_outcome.specs.inner.Memo.{remembered, HasBounds};

    ghost Value = { Search };

    ghost view = { λ s. remembered s.memo };

    ghost invariant = { λ s. IsWithinEntries (remembered s.memo) × HasBounds s.memo };
}

impl Search {
    /// A search that may remember so many sums, from 1 to 1,000,000.
    pub fn new(alloc: Global, entries: usize) -> Result<Search, AllocError>
        requires some { 1 ≤ entries }
        requires most { entries ≤ MOST_ENTRIES }
        ensures empty { IfOk result (λ search. search ≡ blank_search entries) }
        ensures fits { IfOk result (λ search. (Ts : List Tree) → Fits Ts search) }
    {
        let most = NonZeroUsize::new(entries).unwrap_or(NonZeroUsize::MIN);
        let memo = Memo::new(alloc, most)?;
        Ok(Search { memo })
    }

    /// Takes note of 0 in a store, which it makes there if need be. From then on games that cancel are taken out of sums:
    /// those whose ids are greater than that of 0, so this is best done before other forms are made.
    pub fn note_zero(&mut self, store: &mut Store) -> Result<(), AllocError>
        requires { Fits store.old self.old }
        ensures kept { Extends store.old store.new }
        ensures fits { Fits store.new self.new }
        ensures entries { self.new.entries ≡ self.old.entries }
    {
        self.memo.zero = Some(store.number(Dyadic::whole(0))?);
        Ok(())
    }

    /// Whether a player who is to move loses the sum of the listed games and the number: Black where it is at most 0,
    /// White where it is at least 0. The size of the number and for each game the greatest size of a number in its form
    /// have to add up to less than 2^59. The list is as before at the end. What the search remembers has to fit the store.
    pub fn loses(&mut self, store: &Store, sum: &mut [GameId], number: Dyadic, side: Colour) -> bool
        requires ids { AreIds store.now sum.old }
        requires bounds { IsBounded (pick store.now sum.old) number }
        requires fits { Fits store.now self.old }
        ensures answer { IsTrue result ↔ LosesGame side (sum_tree store.now sum.old number) }
        ensures same { sum.new ≡ sum.old }
        ensures fits { Fits store.now self.new }
        ensures entries { self.new.entries ≡ self.old.entries }
        ensures within { IsWithinEntries self.new }
    {
        let lost = loses_sum(store, &mut self.memo, sum, number, side);
        let _sums = self.memo.sums.len();
        let _incentives = self.memo.incentives.answers.len();
        lost
    }
}

/// A search that fits a store fits it after more forms were interned.
pub fn fits_laws()
    ensures { FitsGrownStores }
{}
