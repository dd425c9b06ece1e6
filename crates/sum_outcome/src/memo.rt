//! Sums that a search has decided.

ghost use Rattle.std.specs.Prelude.{◌≡◌, List, IfOk, IfSome};
ghost use Rattle.std.specs.NonZero.{non_zero_usize_get};
ghost use Rattle.short_games.specs.Tree.{Tree};
ghost use Rattle.game_store.specs.Meaning.{pick, AreIds};
ghost use Rattle.sum_outcome.specs.Memo.{blank_search};
ghost use Rattle.sum_outcome.specs.Sums.{IsBounded};
ghost use Rattle.sum_outcome.specs.inner.Memo.{remembered, AreSame, IsAmong, AreKept, NoneIsNew, IsKeyOf, IsRight, StaysRight, IsRecalled, Learns};

use crate::incentives::Incentives;
use crate::key::{Key, key_of};
use dyadic_num::Dyadic;
use game_canon::SumComparisons;
use game_store::{GameId, Store};
use go_grid::Colour;
use lru::LruCache;
use std::alloc::{AllocError, Global};
use std::num::NonZeroUsize;

/// How many bytes a search takes at once and holds back: enough for some thousands of sums and comparisons.
const HELD_BACK: usize = 1 << 20;

/// Whether the player who is to move loses, for sums by their keys.
type Sums = LruCache<Key, bool>;

/// What is kept of a sum, which becomes the latest that was used.
fn look_up(sums: &mut Sums, key: &Key) -> Option<bool>
    ensures found { IfSome result (λ lost. IsAmong AreSame sums.old.entries key.now lost) }
    ensures kept { NoneIsNew sums.old.entries sums.new.entries }
    ensures cap { sums.new.cap ≡ sums.old.cap }
{
    sums.get(key).copied()
}

/// The older half of what is kept gives way.
fn shed(sums: &mut Sums)
    ensures kept { NoneIsNew sums.old.entries sums.new.entries }
    ensures cap { sums.new.cap ≡ sums.old.cap }
{
    let most = sums.len() / 2;
    'shedding: while sums.len() > most {
        let _oldest = sums.pop_lru();
    }
}

/// Makes room where memory is wanting: what was held back is given free, or else the older half of the sums gives way.
fn make_room(sums: &mut Sums, held: &mut Vec<u8>, alloc: Global)
    ensures kept { NoneIsNew sums.old.entries sums.new.entries }
    ensures cap { sums.new.cap ≡ sums.old.cap }
{
    if held.capacity() > 0 {
        *held = Vec::new(alloc);
    } else {
        shed(sums);
    }
}

/// Keeps an answer for a sum. Where memory is wanting room is made once, and where that isn't enough it is left out.
fn keep(sums: &mut Sums, held: &mut Vec<u8>, alloc: Global, key: Key, lost: bool)
    ensures kept { AreKept AreSame sums.old.entries key lost sums.new.entries }
    ensures cap { sums.new.cap ≡ sums.old.cap }
{
    match sums.put(key, lost) {
        Ok(_) => {}
        Err(refused) => {
            make_room(sums, held, alloc);
            let (key, lost) = refused.value;
            let _kept = sums.put(key, lost);
        }
    }
}

/// Who loses sums, and which moves are as good as others. Of each the latest that were used stay.
#[derive(Drop)]
pub(crate) struct Memo {
    pub(crate) sums: Sums,
    pub(crate) incentives: Incentives,
    /// The id of 0, which may stand for games that cancel.
    pub(crate) zero: Option<GameId>,
    /// Memory that is held back from the beginning for when it is wanting.
    pub(crate) held: Vec<u8>,
    pub(crate) alloc: Global,
}

impl Memo {
    /// Nothing is remembered yet. The room for entries grows as they come; what is held back is taken at once.
    pub(crate) fn new(alloc: Global, entries: NonZeroUsize) -> Result<Memo, AllocError>
        ensures empty { IfOk result
            (λ memo. remembered memo ≡ blank_search (non_zero_usize_get entries)) }
        ensures room { IfOk result (λ memo. memo.incentives.answers.cap ≡ memo.sums.cap) }
    {
        Ok(Memo {
            sums: LruCache::sparse(alloc, entries)?,
            incentives: Incentives {
                answers: LruCache::sparse(alloc, entries)?,
                comparisons: SumComparisons::new(alloc),
            },
            zero: None,
            held: Vec::with_capacity(alloc, HELD_BACK)?,
            alloc,
        })
    }

    /// Whether the player who is to move loses, where it is remembered.
    pub(crate) fn recall(&mut self, key: &Key) -> Option<bool>
        ensures answer { IfSome result (IsRecalled self.old key.now) }
        ensures right { (Ts : List Tree) → IsRight Ts self.old → StaysRight Ts self.old self.new }
    {
        look_up(&mut self.sums, key)
    }

    /// Remembers whether the player who is to move loses. It is left out where memory is wanting.
    pub(crate) fn remember(&mut self, key: Key, lost: bool)
        ensures { Learns key lost self.old self.new }
    {
        keep(&mut self.sums, &mut self.held, self.alloc, key, lost);
    }
}

/// The key of a sum for the player who is to move, unless memory is wanting even where room was made.
pub(crate) fn key_in(
    store: &Store,
    memo: &mut Memo,
    sum: &[GameId],
    number: Dyadic,
    side: Colour,
) -> Option<Key>
    requires ids { AreIds store.now sum.now }
    requires bounds { IsBounded (pick store.now sum.now) number }
    ensures key { IfSome result (λ key. IsKeyOf store.now sum.now number side key) }
    ensures right { (Ts : List Tree) → IsRight Ts memo.old → StaysRight Ts memo.old memo.new }
{
    if let Some(key) = key_of(memo.alloc, store, sum, number, side) {
        return Some(key);
    }
    make_room(&mut memo.sums, &mut memo.held, memo.alloc);
    key_of(memo.alloc, store, sum, number, side)
}
