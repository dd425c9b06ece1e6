//! The order of two games of a store.

ghost use Rattle.std.specs.Prelude.{◌<◌, ◌↔◌, length, IfOk, IsTrue};
ghost use Rattle.short_games.specs.Tree.{Tree, tree_at};
ghost use Rattle.short_games.specs.Order.{◌≤ᵍ◌};
ghost use Rattle.game_canon.specs.Comparisons.{AreRight};
ghost use Rattle.game_canon.specs.Orders.{IsOrder};
ghost use Rattle.game_canon.specs.inner.Comparisons.{recalled};
ghost use Rattle.game_canon.specs.inner.Games.{trees, AreGames};

use crate::at_most::at_most;
use crate::comparisons::{Comparisons, nothing_known};
use crate::games::{Games, games_of};
use game_store::{GameId, Store};
use std::alloc::{AllocError, Global};

/// How two games compare.
#[derive(Clone, Copy, PartialEq, Eq)]
pub enum Order {
    Less,
    Equal,
    Greater,
    Confused,
}

/// The order, by whether each is at most the other.
fn order_of(below: bool, above: bool) -> Order
    ensures { (G H : Tree) → IsTrue below ↔ (G ≤ᵍ H) → IsTrue above ↔ (H ≤ᵍ G)
        → IsOrder result G H }
{
    match (below, above) {
        (true, true) => Order::Equal,
        (true, false) => Order::Less,
        (false, true) => Order::Greater,
        (false, false) => Order::Confused,
    }
}

/// The order of two of the games.
fn order_in(
    alloc: Global,
    memo: &mut Comparisons,
    games: &Games<'_>,
    a: GameId,
    b: GameId,
) -> Result<Order, AllocError>
    requires games { AreGames games.now }
    requires a { a < length (trees games.now) }
    requires b { b < length (trees games.now) }
    requires right { AreRight (trees games.now) (recalled memo.old) }
    ensures { IfOk result (λ order. IsOrder order (tree_at (trees games.now) a)
        (tree_at (trees games.now) b)) }
{
    let below = at_most(alloc, memo, games, a, b)?;
    let above = at_most(alloc, memo, games, b, a)?;
    Ok(order_of(below, above))
}

/// The order of two of the games, of which nothing is known yet.
fn order_among(alloc: Global, games: &Games<'_>, a: GameId, b: GameId) -> Result<Order, AllocError>
    requires games { AreGames games.now }
    requires a { a < length (trees games.now) }
    requires b { b < length (trees games.now) }
    ensures { IfOk result (λ order. IsOrder order (tree_at (trees games.now) a)
        (tree_at (trees games.now) b)) }
{
    let mut memo = nothing_known(alloc);
    order_in(alloc, &mut memo, games, a, b)
}

/// The order of two games (Conway): the first is at most the second where no Left option of the first is at least the
/// second, and no Right option of the second at most the first.
pub fn compare(alloc: Global, store: &Store, a: GameId, b: GameId) -> Result<Order, AllocError>
    requires a { a < length store.now }
    requires b { b < length store.now }
    ensures { IfOk result (λ order. IsOrder order (tree_at store.now a) (tree_at store.now b)) }
{
    let none = nothing_known(alloc);
    let games = games_of(store, &none);
    order_among(alloc, &games, a, b)
}
