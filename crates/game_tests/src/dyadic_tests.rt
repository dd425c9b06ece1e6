//! Fractions, halves and the simplest number between two.

use crate::asserts::none_wrong;
use dyadic_num::{Dyadic, EXPONENT, simplest_between};

/// The numerator and the exponent of the simplest number between two fractions.
fn between(low: Option<(i128, u8)>, high: Option<(i128, u8)>) -> Option<(i128, u8)> {
    let low = match low {
        Some((numerator, exponent)) => Some(Dyadic::part(numerator, exponent)?),
        None => None,
    };
    let high = match high {
        Some((numerator, exponent)) => Some(Dyadic::part(numerator, exponent)?),
        None => None,
    };
    let found = simplest_between(low, high)?;
    Some((found.numerator(), found.exponent()))
}

/// The numerator and the exponent of a fraction in lowest terms.
fn lowest(numerator: i128, exponent: u8) -> Option<(i128, u8)> {
    let number = Dyadic::part(numerator, exponent)?;
    Some((number.numerator(), number.exponent()))
}

/// A numerator and an exponent, and the same in lowest terms.
static FRACTIONS: [((i128, u8), Option<(i128, u8)>); 7] = [
    ((2, 2), Some((1, 1))),
    ((1, EXPONENT + 1), None),
    ((-12, 2), Some((-3, 0))),
    ((0, 255), Some((0, 0))),
    ((1 << 100, 120), Some((1, 20))),
    ((1 << EXPONENT, 0), None),
    ((1 - (1 << EXPONENT), 0), Some((1 - (1 << EXPONENT), 0))),
];

/// The first of the fractions with other lowest terms.
fn wrong_fraction() -> Option<usize> {
    for (at, row) in FRACTIONS.iter().enumerate() {
        if lowest(row.0.0, row.0.1) != row.1 {
            return Some(at);
        }
    }
    None
}

#[test]
fn fractions(rt: HostRuntime) {
    none_wrong(&rt, wrong_fraction());
}

/// Two bounds, and the simplest number between them.
type Simplest = (Option<(i128, u8)>, Option<(i128, u8)>, Option<(i128, u8)>);

static SIMPLEST: [Simplest; 6] = [
    (Some((0, 0)), Some((1, 0)), Some((1, 1))),
    (Some((1, 0)), Some((3, 0)), Some((2, 0))),
    (None, None, Some((0, 0))),
    (Some((1, 0)), Some((1, 0)), None),
    (Some((0, 0)), Some((1, EXPONENT)), None),
    (Some((-3, 2)), Some((-1, 2)), Some((-1, 1))),
];

/// The first of the bounds with another number between them.
fn wrong_bounds() -> Option<usize> {
    for (at, row) in SIMPLEST.iter().enumerate() {
        if between(row.0, row.1) != row.2 {
            return Some(at);
        }
    }
    None
}

#[test]
fn simplest(rt: HostRuntime) {
    none_wrong(&rt, wrong_bounds());
}

/// Whether the least number above 0 has no half, adds up to 0 with its negative, and is greater than 0.
fn is_least(least: Dyadic) -> bool {
    least.half().is_none()
        && least.add(least.neg()) == Some(Dyadic::whole(0))
        && least.cmp(&Dyadic::whole(0)).is_gt()
}

/// Whether there is a least number above 0.
fn has_least() -> bool {
    match Dyadic::part(1, EXPONENT) {
        Some(least) => is_least(least),
        None => false,
    }
}

#[test]
fn sums_and_halves(rt: HostRuntime) {
    assert!(rt; has_least() && Dyadic::whole(3).half() == Dyadic::part(3, 1));
}
