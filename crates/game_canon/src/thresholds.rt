//! Which number a form is, where it is one.

ghost use Rattle.std.specs.Prelude.{ℕ, ◌↔◌, ◌<ℤ◌, ◌≡◌, ℤ, length, IfNone};
ghost use Rattle.game_store.specs.Places.{IsFloorRange, IsCeilingRange};
ghost use Rattle.game_store.specs.Meaning.{listed, AreIds};
ghost use Rattle.dyadic_num.specs.Units.{IsAboveBound, IsBelowBound};
ghost use Rattle.game_canon.specs.inner.Bounds.{AreAllFrom, AreAllUpTo, AreAllWithin, HasCeilingFrom, HasFloorUpTo, AreFloorRange, AreCeilingRange, IsValue, IsWorth, lower, upper};

use dyadic_num::Dyadic;
use game_store::{Bound, GameId, Store};

/// What a form is worth: a number, a number past the bounds of a `Dyadic`, or no number, with its floor and ceiling.
#[derive(Clone, Copy)]
pub(crate) enum Value {
    Number(Dyadic),
    PastBounds,
    NoNumber { floor: Bound, ceiling: Bound },
}

/// The lesser of a bound, if there is one, and `k`.
fn lesser(bound: Option<Bound>, k: Bound) -> Bound
    ensures both { (h : ℤ) → (IsBelowBound bound h × (h <ℤ k)) ↔ (h <ℤ result) }
    ensures small { AreCeilingRange bound → IsCeilingRange k → IsCeilingRange result }
{
    match bound {
        Some(bound) => bound.min(k),
        None => k,
    }
}

/// The greater of a bound, if there is one, and `k`.
fn greater(bound: Option<Bound>, k: Bound) -> Bound
    ensures both { (h : ℤ) → (IsAboveBound bound h × (k <ℤ h)) ↔ (result <ℤ h) }
    ensures small { AreFloorRange bound → IsFloorRange k → IsFloorRange result }
{
    match bound {
        Some(bound) => bound.max(k),
        None => k,
    }
}

/// The least ceiling of the games.
fn least_ceiling(store: &Store, ids: &[GameId]) -> Option<Bound>
    requires { AreIds store.now ids.now }
    ensures bound { AreAllFrom store.now ids.now (length ids.now) result }
    ensures some { IfNone result (length ids.now ≡ 0) }
    ensures small { AreCeilingRange result }
    ensures near { (b : ℕ) → AreAllWithin store.now ids.now (length ids.now) b
        → HasCeilingFrom result b }
{
    let mut least = None;
    for id in ids {
        least = Some(lesser(least, store.ceiling(*id)));
    }
    least
}

/// The greatest floor of the games.
fn greatest_floor(store: &Store, ids: &[GameId]) -> Option<Bound>
    requires { AreIds store.now ids.now }
    ensures bound { AreAllUpTo store.now ids.now (length ids.now) result }
    ensures some { IfNone result (length ids.now ≡ 0) }
    ensures small { AreFloorRange result }
    ensures near { (b : ℕ) → AreAllWithin store.now ids.now (length ids.now) b
        → HasFloorUpTo result b }
{
    let mut greatest = None;
    for id in ids {
        greatest = Some(greater(greatest, store.floor(*id)));
    }
    greatest
}

/// The lower end of the numbers that fit, where there may be no bound.
fn low_end(low: Option<Bound>) -> Bound
    ensures { result ≡ lower low }
{
    match low {
        Some(low) => low,
        None => Bound::below_all(),
    }
}

/// The upper end of the numbers that fit, where there may be no bound.
fn high_end(high: Option<Bound>) -> Bound
    ensures { result ≡ upper high }
{
    match high {
        Some(high) => high,
        None => Bound::above_all(),
    }
}

/// The number at a place, where there is one within the bounds.
fn number_at(place: Bound) -> Value
    ensures { IsWorth place result }
{
    match place.number() {
        Some(x) => Value::Number(x),
        None => Value::PastBounds,
    }
}

/// What the form with these options is worth. It is a number where a number lies strictly between the greatest floor of
/// its Left options and the least ceiling of its Right ones, namely the simplest of these numbers (Conway).
pub(crate) fn number_value(store: &Store, left: &[GameId], right: &[GameId]) -> Value
    requires left { AreIds store.now left.now }
    requires right { AreIds store.now right.now }
    ensures { IsValue (listed store.now left.now right.now) result }
{
    let low = low_end(greatest_floor(store, left));
    let high = high_end(least_ceiling(store, right));
    let floor = high.just_below();
    let ceiling = low.just_above();
    if floor <= low {
        return Value::NoNumber { floor, ceiling };
    }
    number_at(Bound::simplest_between(low, high))
}
