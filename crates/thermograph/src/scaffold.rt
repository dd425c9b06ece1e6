//! Scaffolds, each from the walls of the options on one side.

ghost use Rattle.std.specs.Prelude.{true, cond, ◌≡◌, ◌+◌, ◌*◌, unsigned_abs, ◌<◌, ◌≤◌, ◌↔◌, ℕ, pos, ◌+ℤ◌, ◌-ℤ◌, ◌≤ℤ◌, IfOk};
ghost use Rattle.std.specs.Int.{int_max};
ghost use Rattle.dyadic_num.specs.Units.{IsInReach};
ghost use Rattle.thermograph.specs.inner.Breaks.{IsInRange};
ghost use Rattle.short_games.specs.WallGrids.{Bends};
ghost use Rattle.thermograph.specs.inner.Scaffolds.{rise, line, picked, IsKnown, EachWall, IsClear, IsAlong, IsStraight, IsTraced};

use crate::breaks::{Break, break_after, value};
use crate::side::Side;
use dyadic_num::LIMIT;
use game_store::GameId;
use std::alloc::{AllocError, Global};

/// The greater of two, or the second where there is no first.
fn higher(first: bool, greatest: i128, height: i128) -> i128
    ensures { result ≡ cond first height (int_max greatest height) }
{
    if first { height } else { greatest.max(height) }
}

/// Whether `to` is `from`, or as far above it as the distance.
fn is_along(from: i128, to: i128, rising: bool, distance: u128) -> bool
    requires from { IsInRange from }
    requires distance { distance ≤ 2 * unsigned_abs LIMIT }
    ensures { result ≡ true ↔ (to ≡ from +ℤ pos (cond rising distance 0)) }
{
    let step = if rising { distance as i128 } else { 0 };
    to == from + step
}

/// The place that is as far before `next` as `from` is below `height`.
fn place_before(next: u128, from: i128, height: i128) -> u128
    requires from { IsInRange from }
    requires height { IsInRange height }
    requires order { from ≤ℤ height }
    requires room { (height -ℤ from) ≤ℤ pos next }
    ensures { pos result ≡ pos next -ℤ (height -ℤ from) }
{
    next - (height - from) as u128
}

/// The scaffold on one side of a game: of the walls at the ids, which are those of its options there.
#[derive(Clone, Copy)]
pub(crate) struct Scaffold<'a> {
    pub(crate) side: Side,
    pub(crate) walls: &'a [Vec<Break>],
    pub(crate) ids: &'a [GameId],
}

impl Scaffold<'_> {
    /// The greatest of the walls at `t`, turned over on the right side.
    fn rise(&self, t: u128) -> i128
        requires known { IsKnown self.now }
        requires t { t ≤ 2 * unsigned_abs LIMIT }
        ensures value { result ≡ rise self.now t }
        ensures range { IsInRange result }
    {
        let mut greatest = 0;
        for (i, id) in self.ids.iter().enumerate() {
            let height = self.side.turn(value(&self.walls[*id as usize], t));
            greatest = higher(i == 0, greatest, height);
        }
        greatest
    }

    /// The scaffold at `t`.
    pub(crate) fn at(&self, t: u128) -> i128
        requires known { IsKnown self.now }
        requires t { t ≤ 2 * unsigned_abs LIMIT }
        ensures value { result ≡ line self.now t }
        ensures range { IsInReach result }
    {
        self.side.turn(self.rise(t) - t as i128)
    }

    /// The place of the first break point of a wall after `start`, or `end` where there is none before it.
    fn next_break(&self, start: u128, end: u128) -> u128
        requires known { IsKnown self.now }
        requires order { start < end }
        ensures after { start < result }
        ensures within { result ≤ end }
        ensures clear { EachWall (IsClear start result)
            (picked self.now.walls.now self.now.ids.now) }
    {
        let mut next = end;
        for id in self.ids {
            next = break_after(&self.walls[*id as usize], start, next);
        }
        next
    }

    /// The last place up to `end` to which the walls' greatest goes from its value at `start` without a change, or
    /// rising all the way.
    fn last_along(&self, rising: bool, start: u128, end: u128) -> u128
        requires known { IsKnown self.now }
        requires order { start ≤ end }
        requires end { end ≤ unsigned_abs LIMIT }
        ensures after { start ≤ result }
        ensures within { result ≤ end }
        ensures along { IsAlong (rise self.now) rising start result }
        ensures last { result < end → IsAlong (rise self.now) rising start (result + 1) → ⊥ }
    {
        let from = self.rise(start);
        let mut place = start;
        while place < end {
            let next = self.next_break(place, end);
            let height = self.rise(next);
            if !is_along(from, height, rising, next - start) {
                if rising {
                    return place;
                }
                return place_before(next, from, height);
            }
            place = next;
        }
        place
    }

    /// The first place after `start`, up to `end`, at which the scaffold's slope changes.
    pub(crate) fn next_bend(&self, start: u128, end: u128) -> u128
        requires known { IsKnown self.now }
        requires order { start < end }
        requires end { end ≤ unsigned_abs LIMIT }
        ensures after { start < result }
        ensures within { result ≤ end }
        ensures straight { IsStraight (line self.now) start result }
        ensures bends { result < end → Bends (line self.now) result }
        ensures even { (t : ℕ) → start < t → t < result → Bends (line self.now) t → ⊥ }
    {
        let flat = self.last_along(false, start, end);
        if start < flat {
            return flat;
        }
        self.last_along(true, start, end)
    }

    /// The break points of the scaffold from 0 to `end`.
    pub(crate) fn trace(&self, alloc: Global, end: u128) -> Result<Vec<Break>, AllocError>
        requires known { IsKnown self.now }
        requires end { end ≤ unsigned_abs LIMIT }
        ensures { IfOk result (λ breaks. IsTraced (line self.now) end breaks.items) }
    {
        let mut breaks = Vec::new(alloc);
        breaks.push(Break {
            at: 0,
            value: self.at(0),
        })?;
        let mut at = 0;
        while at < end {
            at = self.next_bend(at, end);
            let value = self.at(at);
            breaks.push(Break { at, value })?;
        }
        Ok(breaks)
    }
}
