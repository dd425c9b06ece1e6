//! What purses and the token are worth.

ghost use Rattle.std.specs.Prelude.{◌≡◌, ◌≤◌, ◌^◌, ◌+ℤ◌, ◌*ℤ◌, neg_ℤ, pos, unsigned_abs};
ghost use Rattle.endgame_solver.specs.SumGame.{AreModest, balance, halves};

use dyadic_num::{Dyadic, EXPONENT};
use whole_rules::{Purses, Token};

/// What the token is worth to Black, in halves of a point.
fn token_halves(token: Token) -> i128
    ensures value { result ≡ halves token }
    ensures small { unsigned_abs result ≤ 1 }
{
    match token {
        Token::Nobody => 0,
        Token::Black => 1,
        Token::White => -1,
    }
}

/// What the first number is more than the second.
fn difference(first: u64, second: u64) -> i128
    ensures { result ≡ pos first +ℤ neg_ℤ (pos second) }
{
    i128::from(first) - i128::from(second)
}

/// So many points and halves, in halves of a point.
fn in_halves(points: i128, halves: i128) -> i128
    requires points { unsigned_abs points ≤ 2 ^ 42 }
    requires halves { unsigned_abs halves ≤ 1 }
    ensures { result ≡ (points +ℤ points) +ℤ halves }
{
    points + points + halves
}

/// Half a point, in the parts of a `Dyadic`.
const HALF_POINT: i128 = 1 << (EXPONENT - 1);

/// So many halves of a point.
pub(crate) fn of_halves(halves: i128) -> Dyadic
    requires { unsigned_abs halves ≤ 2 ^ 47 }
    ensures { result ≡ halves *ℤ HALF_POINT }
{
    Dyadic::from_units(halves * HALF_POINT)
}

/// Black's purse less White's, with the token, in halves of a point.
pub(crate) fn balance_halves(purses: Purses) -> i128
    requires { AreModest purses }
    ensures halves { result ≡ balance purses }
    ensures small { unsigned_abs result ≤ 2 ^ 45 }
{
    let points = difference(purses.black, purses.white);
    in_halves(points, token_halves(purses.token))
}

/// Black's purse less White's, and 1/2 more where the token is Black's, 1/2 less where it is White's.
pub fn balance_of(purses: Purses) -> Dyadic
    requires { AreModest purses }
    ensures { result ≡ balance purses *ℤ pos (2 ^ 59) }
{
    of_halves(balance_halves(purses))
}
