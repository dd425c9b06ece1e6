//! Names of points.

ghost use Rattle.std.specs.Prelude.{◌≡◌, ℕ, ◌+◌, ◌*◌, ◌<◌, MatchOption, IfSome};
ghost use Rattle.go_grid.specs.Name.{IsName};

use crate::grid::{Point, Size};

/// The name of a point of a board of the size: its column letter and then its row letter, `a` for 0, as in SGF.
pub fn name(size: Size, point: Point) -> [u8; 2]
    requires { point < size.columns * size.rows }
    ensures { IsName size.columns size.rows result point }
{
    let columns = u16::from(size.columns);
    let column = point.0 % columns;
    let row = point.0 / columns;
    [letter(column), letter(row)]
}

/// The letter of a number, `a` for 0.
fn letter(number: u16) -> u8
    requires { number < 25 }
    ensures { result ≡ 97 + number }
{
    b'a' + number as u8
}

/// The number of a letter below a bound, 0 for `a`.
fn number_of(letter: u8, bound: u8) -> Option<u16>
    ensures { MatchOption result ((n : ℕ) → n < bound → ¬ (letter ≡ 97 + n))
        (λ n. (n < bound) × (letter ≡ 97 + n)) }
{
    let number = letter.checked_sub(b'a')?;
    if number < bound {
        Some(u16::from(number))
    } else {
        None
    }
}

/// The point that two letters name, if they name one.
fn named(size: Size, letters: &[u8; 2]) -> Option<Point>
    ensures { MatchOption result ((p : ℕ) → ¬ IsName size.columns size.rows letters.now p)
        (λ p. IsName size.columns size.rows letters.now p) }
{
    let column = number_of(letters[0], size.columns)?;
    let row = number_of(letters[1], size.rows)?;
    Some(Point(row * u16::from(size.columns) + column))
}

/// The point of a name, or `None` where its letters name no point of a board of the size.
#[tactic(auto, using(crate::proofs::NameLemmas::one_point))]
pub fn point_of(size: Size, name: [u8; 2]) -> Option<Point>
    ensures named { MatchOption result ((p : ℕ) → ¬ IsName size.columns size.rows name p)
        (λ p. IsName size.columns size.rows name p) }
    ensures only { IfSome result (λ p. (q : ℕ) → IsName size.columns size.rows name q → q ≡ p) }
{
    named(size, &name)
}
