//! Where two scaffolds meet.

ghost use Rattle.std.specs.Prelude.{true, ◌≡◌, ◌+◌, ◌*◌, unsigned_abs, ◌<◌, ◌↔◌, ◌≤◌, pos, ◌-ℤ◌, ◌≤ℤ◌, ◌<ℤ◌};
ghost use Rattle.thermograph.specs.inner.Scaffolds.{line, IsKnown, Stays, AreApart, IsStraight, IsCrossing};
ghost use Rattle.thermograph.specs.declared.side.Side.TheVariants as the_side;

use crate::scaffold::Scaffold;
use dyadic_num::LIMIT;

/// The greatest number within the bounds. Scaffolds meet there at the latest.
const LAST: u128 = LIMIT as u128 - 1;

/// Whether the left scaffold is no longer greater at `t`.
fn have_met(left: &Scaffold<'_>, right: &Scaffold<'_>, t: u128) -> bool
    requires left { IsKnown left.now }
    requires right { IsKnown right.now }
    requires t { t ≤ 2 * unsigned_abs LIMIT }
    ensures { result ≡ true ↔ (line left.now t ≤ℤ line right.now t) }
{
    left.at(t) <= right.at(t)
}

/// How far the left scaffold is above the right one at `t`.
fn distance(left: &Scaffold<'_>, right: &Scaffold<'_>, t: u128) -> u128
    requires left { IsKnown left.now }
    requires right { IsKnown right.now }
    requires t { t ≤ 2 * unsigned_abs LIMIT }
    requires apart { line right.now t <ℤ line left.now t }
    ensures value { pos result ≡ line left.now t -ℤ line right.now t }
    ensures most { result ≤ 8 * unsigned_abs LIMIT }
{
    (left.at(t) - right.at(t)) as u128
}

/// Whether from `place` to `next` the left scaffold falls and the right one rises.
fn both_move(left: &Scaffold<'_>, right: &Scaffold<'_>, place: u128, next: u128) -> bool
    requires left { IsKnown left.now }
    requires right { IsKnown right.now }
    requires place { place ≤ unsigned_abs LIMIT }
    requires next { next ≤ unsigned_abs LIMIT }
    ensures { result ≡ true ↔ ((line left.now next <ℤ line left.now place)
        × (line right.now place <ℤ line right.now next)) }
{
    left.at(next) < left.at(place) && right.at(place) < right.at(next)
}

/// How far from `place` two scaffolds meet that are straight from there to `next`, where they have met.
fn steps_to_meeting(left: &Scaffold<'_>, right: &Scaffold<'_>, place: u128, next: u128) -> u128
    requires left { IsKnown left.now }
    requires right { IsKnown right.now }
    requires left_side { left.now.side ≡ the_side.Left }
    requires right_side { right.now.side ≡ the_side.Right }
    requires order { place < next }
    requires next { next ≤ unsigned_abs LIMIT }
    requires left_straight { IsStraight (line left.now) place next }
    requires right_straight { IsStraight (line right.now) place next }
    requires apart { line right.now place <ℤ line left.now place }
    requires met { line left.now next ≤ℤ line right.now next }
    ensures within { place + result ≤ next }
    ensures crossing { IsCrossing (line left.now) (line right.now) place (place + result) }
{
    let distance = distance(left, right, place);
    if both_move(left, right, place, next) {
        return (distance + 1) / 2;
    }
    distance
}

/// The first place where the left scaffold is not greater.
pub(crate) fn first_meeting(left: &Scaffold<'_>, right: &Scaffold<'_>) -> u128
    requires left { IsKnown left.now }
    requires right { IsKnown right.now }
    requires left_side { left.now.side ≡ the_side.Left }
    requires right_side { right.now.side ≡ the_side.Right }
    requires stays { Stays (line left.now) (line right.now) }
    ensures within { result < unsigned_abs LIMIT }
    ensures met { line left.now result ≤ℤ line right.now result }
    ensures first { AreApart (line left.now) (line right.now) result }
{
    let mut place = 0;
    'walking: while !have_met(left, right, place) {
        let next = left
            .next_bend(place, LAST)
            .min(right.next_bend(place, LAST));
        if have_met(left, right, next) {
            return place + steps_to_meeting(left, right, place, next);
        }
        place = next;
    }
    place
}
