//! Sums of games and stones that are remembered.

ghost use Rattle.std.specs.Prelude.{◌≡◌, ◌<◌, [], length, Contains, IfSome, true};
ghost use Rattle.local_value.specs.inner.Tables.{Learns};

use crate::chains::{Chains, MULTIPLIER};
use game_store::GameId;
use std::alloc::{AllocError, Global};
use std::marker::Model;

/// How many sums are remembered at most. Then all are forgotten.
const MOST_SUMS: usize = 1 << 16;

/// A game, so many stones to the good of Black, and their sum.
#[derive(Clone, Copy)]
pub(crate) struct KnownSum {
    pub(crate) game: GameId,
    pub(crate) sum: GameId,
    pub(crate) stones: i32,
}

/// Ids of sums under games and stones. Contracts see the list of all three. What was remembered may be forgotten.
#[derive(Drop)]
pub(crate) struct SumTable {
    chains: Chains,
    sums: Vec<KnownSum>,
}

impl Model for SumTable {
    ghost use Rattle.std.specs.Prelude.{ℕ, ◌≡◌, ℤ, List, length, map};
    ghost use Rattle.local_value.specs.inner.Tables.{known_sum};

    ghost Value = { List ((ℕ × ℤ) × ℕ) };

    ghost view = { λ t. map known_sum t.sums.items };

    ghost invariant = { λ t. t.chains ≡ length t.sums.items };
}

/// The hash of a game and stones.
fn hash_of(game: GameId, stones: i32) -> u32 {
    let size = u64::from(stones.unsigned_abs());
    let spread = game
        .rotate_left(12)
        .wrapping_add(2 * size + u64::from(stones < 0))
        .wrapping_mul(MULTIPLIER);
    (spread >> 32) as u32
}

/// Whether a sum is that of a game and stones.
fn is_of(known: KnownSum, game: GameId, stones: i32) -> bool
    ensures { result ≡ true → (known.game ≡ game) × (known.stones ≡ stones) }
{
    known.game == game && known.stones == stones
}

impl SumTable {
    /// Nothing is remembered yet.
    pub(crate) fn new(alloc: Global) -> SumTable
        ensures { result ≡ [] }
    {
        SumTable {
            chains: Chains::new(alloc),
            sums: Vec::new(alloc),
        }
    }

    /// The sum at a place, if it is that of the game and the stones.
    fn sum_at(&self, place: usize, game: GameId, stones: i32) -> Option<GameId>
        requires { place < length self.now }
        ensures { IfSome result (λ id. Contains self.now ((game, stones), id)) }
    {
        let known = self.sums[place];
        if is_of(known, game, stones) {
            return Some(known.sum);
        }
        None
    }

    /// The sum of a game and stones, if it is remembered.
    pub(crate) fn find(&self, game: GameId, stones: i32) -> Option<GameId>
        ensures { IfSome result (λ id. Contains self.now ((game, stones), id)) }
    {
        let mut link = self.chains.latest(hash_of(game, stones));
        'looking: while link > 0 {
            let place = (link - 1) as usize;
            if let Some(sum) = self.sum_at(place, game, stones) {
                return Some(sum);
            }
            link = self.chains.before(place);
        }
        None
    }

    /// Puts a sum behind the others.
    fn add(
        &mut self,
        alloc: Global,
        game: GameId,
        stones: i32,
        sum: GameId,
    ) -> Result<(), AllocError>
        ensures { Learns self.old ((game, stones), sum) self.new }
    {
        if self.sums.len() >= MOST_SUMS {
            return Err(AllocError);
        }
        self.sums.reserve(1)?;
        self.chains.add(alloc, hash_of(game, stones))?;
        self.sums.push_reserved(KnownSum { game, sum, stones });
        Ok(())
    }

    /// Forgets all.
    fn clear(&mut self)
        ensures { self.new ≡ [] }
    {
        self.chains.clear();
        self.sums.clear();
    }

    /// Remembers a sum, or forgets all where memory or room is wanting.
    pub(crate) fn remember(&mut self, alloc: Global, game: GameId, stones: i32, sum: GameId)
        ensures { Learns self.old ((game, stones), sum) self.new }
    {
        if self.add(alloc, game, stones, sum).is_err() {
            self.clear();
        }
    }
}
