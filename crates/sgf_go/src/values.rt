//! What the values of properties say.

ghost use Rattle.std.specs.Prelude.{reverse, ◌≡◌, ◌≤◌, ◌<◌, ◌*◌, length, drop, take, IfSome};
ghost use Rattle.std.specs.Option.{option_map};
ghost use Rattle.sgf_go.specs.Values.{trimmed, trimmed_front, rectangle_between, Says, IsArea};
ghost use Rattle.go_grid.specs.Name.{IsName};
ghost use Rattle.sgf_go.specs.inner.Reading.{rectangle};

use crate::komi::rest_of;
use go_grid::{Point, Size, point_of};
use sgf_tree::is_white;

/// Columns and rows from the one to the other, ends included.
#[derive(Clone, Copy, PartialEq, Eq)]
pub(crate) struct Area {
    pub(crate) left: u16,
    pub(crate) right: u16,
    pub(crate) top: u16,
    pub(crate) bottom: u16,
}

/// The rectangle with two points as opposite corners.
#[tactic(auto, using(std::proofs::lemmas::Nat::mod_below, std::proofs::lemmas::Nat::div_below))]
fn between(size: Size, first: Point, second: Point) -> Area
    requires first { first < size.columns * size.rows }
    requires second { second < size.columns * size.rows }
    ensures value { rectangle result ≡ rectangle_between size.columns first second }
    ensures column { result.right < size.columns }
    ensures row { result.bottom < size.rows }
{
    let columns = u16::from(size.columns);
    let (x, y) = (first.0 % columns, first.0 / columns);
    let (z, w) = (second.0 % columns, second.0 / columns);
    Area {
        left: x.min(z),
        right: x.max(z),
        top: y.min(w),
        bottom: y.max(w),
    }
}

/// A point or a rectangle.
pub(crate) fn read_area(size: Size, text: &[u8]) -> Option<Area>
    ensures value { Says (IsArea size.columns size.rows text.now) (option_map rectangle result) }
    ensures within { IfSome result (λ a. (a.right < size.columns) × (a.bottom < size.rows)) }
{
    match text {
        [x, y] => {
            let point = point_of(size, [*x, *y])?;
            Some(between(size, point, point))
        }
        [x, y, b':', z, w] => {
            let first = point_of(size, [*x, *y])?;
            let second = point_of(size, [*z, *w])?;
            Some(between(size, first, second))
        }
        _ => None,
    }
}

/// A point.
pub(crate) fn read_point(size: Size, text: &[u8]) -> Option<Point>
    ensures value { Says (IsName size.columns size.rows text.now) result }
    ensures within { IfSome result (λ p. p < size.columns * size.rows) }
{
    match text {
        [x, y] => point_of(size, [*x, *y]),
        _ => None,
    }
}

/// The place behind the white space at the front.
#[tactic(auto, using(crate::proofs::TrimLemmas::front_white, crate::proofs::TrimLemmas::front_other, crate::proofs::TrimLemmas::front_none))]
fn front_end(bytes: &[u8]) -> usize
    ensures within { result ≤ length bytes.now }
    ensures value { drop result bytes.now ≡ trimmed_front bytes.now }
{
    let mut at = 0;
    while at < bytes.len() {
        if !is_white(bytes[at]) {
            return at;
        }
        at += 1;
    }
    at
}

/// The place where the white space at the end begins.
#[tactic(auto, using(crate::proofs::TrimLemmas::back_white, crate::proofs::TrimLemmas::back_other, crate::proofs::TrimLemmas::back_none))]
fn back_start(bytes: &[u8]) -> usize
    ensures within { result ≤ length bytes.now }
    ensures value { take result bytes.now ≡ reverse (trimmed_front (reverse bytes.now)) }
{
    let mut end = bytes.len();
    while end > 0 {
        if !is_white(bytes[end - 1]) {
            return end;
        }
        end -= 1;
    }
    end
}

/// A text without the white space at its ends.
pub fn trim(bytes: &[u8]) -> &[u8]
    ensures { result.now ≡ trimmed bytes.now }
{
    let front = rest_of(bytes, front_end(bytes));
    &front[..back_start(front)]
}
