//! Places on the number line, where floors and ceilings of games are.

ghost use Rattle.std.specs.Prelude.{◌≡◌, ◌+ℤ◌, ◌-ℤ◌, ◌<ℤ◌, ℤ, pos, neg_ℤ, MatchOption, ◌+◌};
ghost use Rattle.dyadic_num.specs.Units.{IsInBounds, IsInReach, IsInside, IsSimplest};
ghost use Rattle.short_games.specs.Stops.{IsHalf};
ghost use Rattle.game_store.specs.Places.{IsFloorRange, IsCeilingRange};

use dyadic_num::{Dyadic, EXPONENT, LIMIT, simplest_inside};
use std::marker::Model;

/// A place on the number line: at a number, just below it or just above it. Contracts see it as a whole number of half
/// parts of 2^-60: twice as many as the number has parts, or one less or one more.
#[derive(Clone, Copy, Debug, PartialEq, Eq, PartialOrd, Ord)]
pub struct Bound {
    half_units: i128,
}

impl Model for Bound {
    ghost use Rattle.std.specs.Prelude.{ℤ};

    ghost Value = { ℤ };

    ghost use Rattle.dyadic_num.specs.Units.{IsInReach};

    ghost view = { λ b. b.half_units };

    ghost invariant = { λ b. IsInReach b.half_units };

    ghost inverse = { λ h. record { half_units = h } };
}

/// Half of a whole number, rounded down.
fn half_down(n: i128) -> i128
    ensures { IsHalf result n }
{
    if n % 2 < 0 { n / 2 - 1 } else { n / 2 }
}

impl Bound {
    /// The place of a number.
    pub fn at(x: Dyadic) -> Bound
        ensures place { result ≡ x +ℤ x }
        ensures bounds { IsInBounds x }
    {
        Bound {
            half_units: x.units() * 2,
        }
    }

    /// The place just below the last number past the bounds, -2^60.
    pub fn below_all() -> Bound
        ensures { result ≡ neg_ℤ (LIMIT +ℤ LIMIT +ℤ pos 1) }
    {
        Bound {
            half_units: -(LIMIT + LIMIT + 1),
        }
    }

    /// The place just above the first number past the bounds, 2^60.
    pub fn above_all() -> Bound
        ensures { result ≡ LIMIT +ℤ LIMIT +ℤ pos 1 }
    {
        Bound {
            half_units: LIMIT + LIMIT + 1,
        }
    }

    /// The next place down.
    pub fn just_below(self) -> Bound
        requires { IsInReach (self -ℤ pos 1) }
        ensures { result ≡ self -ℤ pos 1 }
    {
        Bound {
            half_units: self.half_units - 1,
        }
    }

    /// The next place up.
    pub fn just_above(self) -> Bound
        requires { IsInReach (self +ℤ pos 1) }
        ensures { result ≡ self +ℤ pos 1 }
    {
        Bound {
            half_units: self.half_units + 1,
        }
    }

    /// The sum of the two as numbers of half parts.
    pub fn plus(self, other: Bound) -> Bound
        requires { IsInReach (self +ℤ other) }
        ensures { result ≡ self +ℤ other }
    {
        Bound {
            half_units: self.half_units + other.half_units,
        }
    }

    /// The greatest number that isn't above the place.
    pub fn number_at_most(self) -> Dyadic
        requires { IsCeilingRange self }
        ensures { IsHalf result self }
    {
        Dyadic::from_units(half_down(self.half_units))
    }

    /// The least number that isn't below the place.
    pub fn number_at_least(self) -> Dyadic
        requires { IsFloorRange self }
        ensures { IsHalf result (self +ℤ pos 1) }
    {
        Dyadic::from_units(half_down(self.half_units + 1))
    }

    /// The number at the place. None where it is beside a number, and where its number is past the bounds.
    pub fn number(self) -> Option<Dyadic>
        ensures { MatchOption result ((x : ℤ) → IsInBounds x → self ≡ x +ℤ x → ⊥)
            (λ x. self ≡ x +ℤ x) }
    {
        let units = self.half_units / 2;
        if units * 2 != self.half_units {
            return None;
        }
        Dyadic::of_units(units)
    }

    /// The place of the simplest number strictly between the places `low` and `high`, where half parts of 2^-60 count too.
    pub fn simplest_between(low: Bound, high: Bound) -> Bound
        requires { (low +ℤ pos 1) <ℤ high }
        ensures { IsSimplest (EXPONENT + 1) (λ h. IsInside low high h) result }
    {
        Bound {
            half_units: simplest_inside(low.half_units, high.half_units, EXPONENT as u32 + 1),
        }
    }
}
