//! Dyadic numbers, the values of short games that are numbers (Conway, On Numbers and Games): exact sums, the order,
//! and the simplest number between two.
#![tactic(auto)]

ghost use Rattle.std.specs.Prelude.{◌≡◌, ◌+◌, ◌^◌, ◌<◌, ℕ, ℤ, pos, ◌+ℤ◌, ◌*ℤ◌, ◌<ℤ◌, ◌≤◌, unsigned_abs, neg_ℤ, MatchOption};
ghost use Rattle.dyadic_num.specs.Units.{IsInBounds, IsInReach, IsFraction, IsLowest, IsBetween, IsInside, IsSimplest, IsSimplestBetween, IsOrdered};
ghost use Rattle.dyadic_num.specs.inner.Units.{low_end, high_end, IsSmall};

mod limits;

pub use limits::limit_laws;
use std::cmp::Ordering;
use std::marker::Model;

/// The exponent of the least parts: each number is a whole number of parts of 2^-60.
pub const EXPONENT: u8 = 60;

/// The first size past the bounds, 2^60, in parts of 2^-60.
pub const LIMIT: i128 = 1 << (2 * EXPONENT);

/// A fraction by a power of two, of a size below 2^60 and with a denominator of at most 2^60. Contracts see it as the
/// whole number of its parts of 2^-60.
#[derive(Clone, Copy, Debug, PartialEq, Eq)]
pub struct Dyadic {
    units: i128,
}

impl Model for Dyadic {
    ghost use Rattle.std.specs.Prelude.{ℤ};

    ghost Value = { ℤ };

    ghost use Rattle.dyadic_num.specs.Units.{IsInBounds};

    ghost view = { λ d. d.units };

    ghost invariant = { λ d. IsInBounds d.units };

    ghost inverse = { λ u. record { units = u } };
}

/// Half of a whole number, where it is even.
fn half_of(n: i128) -> Option<i128>
    ensures { MatchOption result ((h : ℤ) → h +ℤ h ≡ n → ⊥) (λ h. h +ℤ h ≡ n) }
{
    if n % 2 == 0 { Some(n / 2) } else { None }
}

impl Dyadic {
    /// A whole number.
    pub fn whole(n: i32) -> Dyadic
        ensures { result ≡ n *ℤ pos (2 ^ EXPONENT) }
    {
        Dyadic {
            units: n as i128 * (1 << EXPONENT),
        }
    }

    /// The fraction `numerator / 2^exponent`. None exactly where it is past the bounds.
    pub fn part(numerator: i128, exponent: u8) -> Option<Dyadic>
        ensures { MatchOption result ((u : ℤ) → IsInBounds u → IsFraction u numerator exponent → ⊥)
            (λ u. IsFraction u numerator exponent) }
    {
        let mut units = numerator;
        let mut at = exponent;
        'scaling: while at != EXPONENT {
            if at > EXPONENT {
                units = half_of(units)?;
                at -= 1;
            } else {
                units = Dyadic::of_units(units)?.units * 2;
                at += 1;
            }
        }
        Dyadic::of_units(units)
    }

    /// The number's numerator and exponent, in lowest terms.
    fn lowest_terms(self) -> (i128, u8)
        ensures lowest { IsLowest self result.0 result.1 }
    {
        let mut numerator = self.units;
        let mut exponent = EXPONENT;
        'halving: while exponent > 0 {
            let Some(half) = half_of(numerator) else {
                return (numerator, exponent);
            };
            numerator = half;
            exponent -= 1;
        }
        (numerator, exponent)
    }

    /// The numerator in lowest terms: the number is `numerator / 2^exponent`.
    pub fn numerator(self) -> i128
        ensures { (e : ℕ) × IsLowest self result e }
    {
        let (numerator, _exponent) = self.lowest_terms();
        numerator
    }

    /// The exponent of the denominator in lowest terms, at most 60: the number is `numerator / 2^exponent`.
    pub fn exponent(self) -> u8
        ensures lowest { (n : ℤ) × IsLowest self n result }
        ensures most { result ≤ EXPONENT }
    {
        let (_numerator, exponent) = self.lowest_terms();
        exponent
    }

    /// The number of parts of 2^-60 that make the number.
    pub fn units(self) -> i128
        ensures count { result ≡ self }
        ensures bounds { IsInBounds self }
    {
        self.units
    }

    /// The number that so many parts of 2^-60 make. None exactly where it is past the bounds.
    pub fn of_units(units: i128) -> Option<Dyadic>
        ensures { MatchOption result (IsInBounds units → ⊥) (λ d. d ≡ units) }
    {
        if -LIMIT < units && units < LIMIT {
            Some(Dyadic { units })
        } else {
            None
        }
    }

    /// The number that so many parts of 2^-60 make, which are within the bounds.
    pub fn from_units(units: i128) -> Dyadic
        requires { IsInBounds units }
        ensures { result ≡ units }
    {
        Dyadic { units }
    }

    /// The sum. None exactly where it is past the bounds.
    pub fn add(self, other: Dyadic) -> Option<Dyadic>
        ensures { MatchOption result (IsInBounds (self +ℤ other) → ⊥) (λ sum. sum ≡ self +ℤ other) }
    {
        Dyadic::of_units(self.units + other.units)
    }

    /// The number with the other sign.
    pub fn neg(self) -> Dyadic
        ensures { result ≡ neg_ℤ self }
    {
        Dyadic { units: -self.units }
    }

    /// The order by value.
    pub fn cmp(&self, other: &Dyadic) -> Ordering
        ensures { IsOrdered result self.now other.now }
    {
        self.units.cmp(&other.units)
    }

    /// Half the number. None exactly where it is past the bounds.
    pub fn half(self) -> Option<Dyadic>
        ensures { MatchOption result ((h : ℤ) → h +ℤ h ≡ self → ⊥) (λ h. h +ℤ h ≡ self) }
    {
        Some(Dyadic {
            units: half_of(self.units)?,
        })
    }
}

/// The same for bounds of at least 0: the multiple after `low` of the greatest power of two of which one lies between.
fn simplest_above(low: u128, high: u128, exponent: u32) -> u128
    requires exponent { exponent ≤ EXPONENT + 1 }
    requires room { low + 1 < high }
    requires reach { IsInReach (pos high) }
    ensures { IsSimplest exponent (λ u. IsInside (pos low) (pos high) u) (pos result) }
{
    let mut shift = exponent;
    'steps: while (low / (1 << shift) + 1) * (1 << shift) >= high {
        shift -= 1;
    }
    (low / (1 << shift) + 1) * (1 << shift)
}

/// The simplest number above `low` and below `high`, all three in parts of 2^-`exponent`.
pub fn simplest_inside(low: i128, high: i128, exponent: u32) -> i128
    requires exponent { exponent ≤ EXPONENT + 1 }
    requires room { (low +ℤ pos 1) <ℤ high }
    requires low_reach { IsInReach low }
    requires high_reach { IsInReach high }
    ensures { IsSimplest exponent (λ u. IsInside low high u) result }
{
    if low >= 0 {
        return simplest_above(low as u128, high as u128, exponent) as i128;
    }
    if high <= 0 {
        return -(simplest_above((-high) as u128, (-low) as u128, exponent) as i128);
    }
    0
}

/// The lower bound in parts of 2^-60. What is absent is the last number past the bounds.
fn low_end(low: Option<Dyadic>) -> i128
    ensures end { result ≡ low_end low }
    ensures small { IsSmall low }
{
    match low {
        Some(low) => low.units,
        None => -LIMIT,
    }
}

/// The upper bound in parts of 2^-60. What is absent is the first number past the bounds.
fn high_end(high: Option<Dyadic>) -> i128
    ensures end { result ≡ high_end high }
    ensures small { IsSmall high }
{
    match high {
        Some(high) => high.units,
        None => LIMIT,
    }
}

/// The simplest number above `low` and below `high` (Conway's simplicity rule); `None` sets no bound. Among the numbers
/// of this type that lie strictly between, the least exponent goes first and then the least size. None exactly where no
/// such number lies between.
pub fn simplest_between(low: Option<Dyadic>, high: Option<Dyadic>) -> Option<Dyadic>
    ensures { MatchOption result ((u : ℤ) → IsBetween low high u → ⊥)
        (λ u. IsSimplestBetween low high u) }
{
    let low = low_end(low);
    let high = high_end(high);
    if high - low <= 1 {
        return None;
    }
    Some(Dyadic {
        units: simplest_inside(low, high, EXPONENT as u32),
    })
}
