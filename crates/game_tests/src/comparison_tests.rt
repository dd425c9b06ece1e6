//! The order of two games, and negatives.

ghost use Rattle.std.specs.Prelude.{◌<◌, length, IfSome};

use crate::asserts::none_wrong;
use game_canon::{Order, compare, negate};
use game_store::{GameId, Store};
use game_text::read;
use std::alloc::Global;
use std::rt::HostRuntime;

/// The texts of two games, and how the first stands to the second.
static ORDERS: [(&str, &str, Order); 12] = [
    ("{-1|1}", "0", Order::Equal),
    ("{1,{0|0}|{0|0}}", "{1|*}", Order::Equal),
    ("0", "*", Order::Confused),
    ("*", "1", Order::Less),
    ("2", "{1|*}", Order::Greater),
    ("{1|0}", "1", Order::Confused),
    ("{1|0}", "2", Order::Less),
    ("^", "0", Order::Greater),
    ("^", "*", Order::Confused),
    ("v", "^", Order::Less),
    // double up, which exceeds star
    ("{0|{*,0|0}}", "*", Order::Greater),
    ("{2|-2}", "{1|-1}", Order::Confused),
];

/// The texts of a game and of its negative.
static NEGATIVES: [(&str, &str); 8] = [
    ("0", "0"),
    ("-7", "7"),
    ("1/2", "-1/2"),
    ("*", "*"),
    ("^", "v"),
    ("{1|-1}", "{1|-1}"),
    ("{1|*}", "{*|-1}"),
    ("{2|{1|*}}", "{{*|-1}|-2}"),
];

/// The ids of the games that two texts name, where both are the store's.
fn pair(alloc: Global, store: &mut Store, a: &str, b: &str) -> Option<(GameId, GameId)>
    ensures { IfSome result (λ pair. (pair.0 < length store.new) × (pair.1 < length store.new)) }
{
    let a = read(alloc, store, a.as_bytes(), 500).ok()?;
    let b = read(alloc, store, b.as_bytes(), 500).ok()?;
    if a < store.len() && b < store.len() {
        Some((a, b))
    } else {
        None
    }
}

/// How the first of two games stands to the second.
fn order_between(alloc: Global, store: &mut Store, a: &str, b: &str) -> Option<Order> {
    let (a, b) = pair(alloc, store, a, b)?;
    compare(alloc, store, a, b).ok()
}

/// Whether the second game is the negative of the first, and the first that of the second.
fn are_negatives(alloc: Global, store: &mut Store, a: &str, b: &str) -> Option<bool> {
    let (a, b) = pair(alloc, store, a, b)?;
    let of_first = negate(alloc, store, a).ok()?;
    let of_second = negate(alloc, store, b).ok()?;
    Some(of_first == b && of_second == a)
}

/// The first row of the table of orders that isn't so.
fn wrong_order(alloc: Global) -> Option<usize> {
    for (at, row) in ORDERS.iter().enumerate() {
        if order_between(alloc, &mut Store::new(alloc), row.0, row.1) != Some(row.2) {
            return Some(at);
        }
    }
    None
}

/// The first row of the table of negatives that isn't so.
fn wrong_negative(alloc: Global) -> Option<usize> {
    for (at, row) in NEGATIVES.iter().enumerate() {
        if are_negatives(alloc, &mut Store::new(alloc), row.0, row.1) != Some(true) {
            return Some(at);
        }
    }
    None
}

#[test]
fn orders(rt: HostRuntime) {
    none_wrong(&rt, wrong_order(rt.alloc()));
}

#[test]
fn negatives(rt: HostRuntime) {
    none_wrong(&rt, wrong_negative(rt.alloc()));
}
