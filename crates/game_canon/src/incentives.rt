//! The order of incentives.

ghost use Rattle.std.specs.Prelude.{◌<◌, ◌↔◌, length, IfOk, IsTrue};
ghost use Rattle.short_games.specs.Order.{◌≤ᵍ◌};
ghost use Rattle.short_games.specs.Tree.{tree_at};
ghost use Rattle.short_games.specs.SumLaws.{incentive};
ghost use Rattle.game_canon.specs.SumComparisons.{AreComparisonsRight};

use crate::sum_comparisons::SumComparisons;
use crate::sums::{SumPair, cancelled, make_room};
use crate::sums_at_most::sums_at_most;
use game_store::{GameId, Store};
use std::alloc::{AllocError, Global};

/// Whether the incentive `option - game` is at least the incentive `other_option - other`. That is whether to move from
/// `game` to `option` and leave `other` is at least as good as to leave `game` and move from `other` to `other_option`.
/// Any four games will do, of any size.
pub fn incentive_at_least(
    alloc: Global,
    store: &Store,
    game: GameId,
    option: GameId,
    other: GameId,
    other_option: GameId,
) -> Result<bool, AllocError>
    requires game { game < length store.now }
    requires option { option < length store.now }
    requires other { other < length store.now }
    requires other_option { other_option < length store.now }
    ensures { IfOk result (λ answer. IsTrue answer ↔
        (incentive (tree_at store.now other) (tree_at store.now other_option) ≤ᵍ incentive
        (tree_at store.now game) (tree_at store.now option))) }
{
    let mut comparisons = SumComparisons::new(alloc);
    compare_incentives(
        alloc,
        &mut comparisons,
        store,
        game,
        option,
        other,
        other_option,
    )
}

/// The same as `incentive_at_least`, with comparisons that were remembered from earlier questions. They have to be right
/// for the store, and are so afterwards, also where memory is wanting.
pub fn compare_incentives(
    alloc: Global,
    comparisons: &mut SumComparisons,
    store: &Store,
    game: GameId,
    option: GameId,
    other: GameId,
    other_option: GameId,
) -> Result<bool, AllocError>
    requires game { game < length store.now }
    requires option { option < length store.now }
    requires other { other < length store.now }
    requires other_option { other_option < length store.now }
    requires right { AreComparisonsRight store.now comparisons.old }
    ensures answer { IfOk result (λ answer. IsTrue answer ↔
        (incentive (tree_at store.now other) (tree_at store.now other_option) ≤ᵍ incentive
        (tree_at store.now game) (tree_at store.now option))) }
    ensures right { AreComparisonsRight store.now comparisons.new }
{
    let pair = SumPair {
        first: game,
        second: other_option,
        third: option,
        fourth: other,
    };
    make_room(&mut comparisons.known);
    sums_at_most(alloc, &mut comparisons.known, store, cancelled(pair))
}
