//! Stops and thermographs of small games.

ghost use Rattle.std.specs.Prelude.{◌<◌, length, IfSome};

use crate::asserts::none_wrong;
use dyadic_num::{Dyadic, EXPONENT};
use game_stops::{left_stop, right_stop};
use game_store::{GameId, Store};
use game_text::read;
use std::alloc::Global;
use std::rt::HostRuntime;
use thermograph::{ThermoError, Thermograph, Wall, draw};

/// A quarter, in parts of 2^-60.
const QUARTER: i128 = 1 << (EXPONENT - 2);

/// The text of a game, and its stops in quarters.
static STOPS: [(&str, i32, i32); 16] = [
    ("^", 0, 0),
    ("1/2", 2, 2),
    ("{2|1/2}", 8, 2),
    ("{2|-1}", 8, -4),
    ("{1/2|1}", 3, 3),
    ("{-7|-2}", -12, -12),
    ("{1|+-1}", 4, 4),
    ("{{3|0}|-1}", 0, -4),
    ("{{2|-1}|0}", -4, -4),
    ("{4|{2|0}}", 16, 8),
    ("{{4|3}|{1|0}}", 12, 4),
    ("{{4|2}|0}", 8, 0),
    ("{{5|1},{3|2}|0}", 8, 0),
    ("{0|{0|-4}}", 0, 0),
    // three ups, and up and star 2
    ("{0|{0|{0|*}}}", 0, 0),
    ("{*2,^,{*,0|0}|*3,^,{*,0|0}}", 0, 0),
];

/// The text of a game, and its thermograph in quarters: its left and its right wall, its mean and its temperature.
type Drawn = (
    &'static str,
    &'static [(i32, i32)],
    &'static [(i32, i32)],
    i32,
    Option<i32>,
);

static THERMOGRAPHS: [Drawn; 18] = [
    ("3", &[(0, 12)], &[(0, 12)], 12, None),
    ("^", &[(0, 0)], &[(0, 0)], 0, Some(0)),
    ("{2|0}", &[(0, 8), (4, 4)], &[(0, 0), (4, 4)], 4, Some(4)),
    ("{1|*}", &[(0, 4), (2, 2)], &[(0, 0), (2, 2)], 2, Some(2)),
    (
        "{2|{1|*}}",
        &[(0, 8), (3, 5)],
        &[(0, 4), (2, 4), (3, 5)],
        5,
        Some(3),
    ),
    ("{2|-1}", &[(0, 8), (6, 2)], &[(0, -4), (6, 2)], 2, Some(6)),
    (
        "{4|{2|0}}",
        &[(0, 16), (6, 10)],
        &[(0, 8), (4, 8), (6, 10)],
        10,
        Some(6),
    ),
    (
        "{{4|3}|{1|0}}",
        &[(0, 12), (2, 12), (6, 8)],
        &[(0, 4), (2, 4), (6, 8)],
        8,
        Some(6),
    ),
    (
        "{{4|2}|0}",
        &[(0, 8), (4, 8), (6, 6)],
        &[(0, 0), (6, 6)],
        6,
        Some(6),
    ),
    (
        "{{5|1},{3|2}|0}",
        &[(0, 8), (2, 8), (5, 5)],
        &[(0, 0), (5, 5)],
        5,
        Some(5),
    ),
    (
        "{{3|0}|-1}",
        &[(0, 0), (4, 0)],
        &[(0, -4), (4, 0)],
        0,
        Some(4),
    ),
    ("{0|{0|-4}}", &[(0, 0)], &[(0, 0)], 0, Some(0)),
    ("{1|+-1}", &[(0, 4)], &[(0, 4)], 4, Some(0)),
    ("{1/2|1}", &[(0, 3)], &[(0, 3)], 3, None),
    ("{-7|-2}", &[(0, -12)], &[(0, -12)], -12, None),
    ("{{2|-1}|0}", &[(0, -4)], &[(0, -4)], -4, None),
    // three ups, and up and star 2
    ("{0|{0|{0|*}}}", &[(0, 0)], &[(0, 0)], 0, Some(0)),
    (
        "{*2,^,{*,0|0}|*3,^,{*,0|0}}",
        &[(0, 0)],
        &[(0, 0)],
        0,
        Some(0),
    ),
];

/// The id of the game that a text names, where it is the store's.
fn named(alloc: Global, store: &mut Store, text: &str) -> Option<GameId>
    ensures { IfSome result (λ id. id < length store.new) }
{
    let Ok(id) = read(alloc, store, text.as_bytes(), 500) else {
        return None;
    };
    if id < store.len() { Some(id) } else { None }
}

/// Whether the number is so many quarters.
fn is_quarters(x: Dyadic, quarters: i32) -> bool {
    x.units() == quarters as i128 * QUARTER
}

/// Whether the wall has exactly these break points.
fn has_points(wall: &Wall, quarters: &[(i32, i32)]) -> bool {
    let points = wall.as_slice();
    if points.len() != quarters.len() {
        return false;
    }
    for (i, (t, x)) in quarters.iter().enumerate() {
        let (at, value) = points[i];
        if !is_quarters(at, *t) || !is_quarters(value, *x) {
            return false;
        }
    }
    true
}

/// Whether the temperature is this one.
fn has_temperature(drawn: Option<Dyadic>, quarters: Option<i32>) -> bool {
    match (drawn, quarters) {
        (Some(t), Some(quarters)) => is_quarters(t, quarters),
        (None, None) => true,
        _ => false,
    }
}

/// Whether the game that a text names has these stops.
fn has_stops(alloc: Global, store: &mut Store, text: &str, left: i32, right: i32) -> bool {
    let Some(id) = named(alloc, store, text) else {
        return false;
    };
    is_quarters(left_stop(store, id), left) && is_quarters(right_stop(store, id), right)
}

/// The first of the games with other stops.
fn wrong_stops(alloc: Global) -> Option<usize> {
    for (at, row) in STOPS.iter().enumerate() {
        if !has_stops(alloc, &mut Store::new(alloc), row.0, row.1, row.2) {
            return Some(at);
        }
    }
    None
}

#[test]
fn stops_of_games(rt: HostRuntime) {
    none_wrong(&rt, wrong_stops(rt.alloc()));
}

/// Whether the thermograph is the one of the row.
fn is_thermograph(drawn: &Thermograph, row: &Drawn) -> bool {
    has_points(&drawn.left, row.1)
        && has_points(&drawn.right, row.2)
        && is_quarters(drawn.mean, row.3)
        && has_temperature(drawn.temperature, row.4)
}

/// Whether the thermograph of the game that a text names is the one of the row.
fn is_drawn(alloc: Global, store: &mut Store, row: &Drawn) -> bool {
    let Some(id) = named(alloc, store, row.0) else {
        return false;
    };
    match draw(alloc, store, id) {
        Ok(drawn) => is_thermograph(&drawn, row),
        Err(_error) => false,
    }
}

/// The first of the games with another thermograph.
fn wrong_thermograph(alloc: Global) -> Option<usize> {
    for (at, row) in THERMOGRAPHS.iter().enumerate() {
        if !is_drawn(alloc, &mut Store::new(alloc), row) {
            return Some(at);
        }
    }
    None
}

#[test]
fn thermographs(rt: HostRuntime) {
    none_wrong(&rt, wrong_thermograph(rt.alloc()));
}

/// Whether the thermograph of the game that a text names is past the bounds.
fn is_past_the_bounds(alloc: Global, store: &mut Store, text: &str) -> bool {
    let Some(id) = named(alloc, store, text) else {
        return false;
    };
    match draw(alloc, store, id) {
        Ok(_drawn) => false,
        Err(error) => matches!(error, ThermoError::Bounds),
    }
}

#[test]
fn past_the_bounds(rt: HostRuntime) {
    let text = "{1/1152921504606846976|0}";
    assert!(&rt; is_past_the_bounds(rt.alloc(), &mut Store::new(rt.alloc()), text));
}
