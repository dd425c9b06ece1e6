//! Where one sum has the values of both players, one question serves both.

ghost use Rattle.std.specs.Prelude.{◌≡◌, IsTrue};
ghost use Rattle.go_grid.specs.declared.grid.Colour.TheVariants.{Black, White};
ghost use Rattle.cycle_solver.specs.Changes.{IsSomeChange, places_after};
ghost use Rattle.cycle_solver.specs.Held.{IsSeen, IsSeenFor, enough};
ghost use Rattle.cycle_solver.specs.inner.OneSum.{HasOneValue, HaveOneSum};

use crate::asking::{ENOUGH, Present};
use crate::changes::Change;
use game_store::GameId;
use go_grid::Colour;

/// Whether the ids are the same.
pub(crate) fn is_same_id(a: GameId, b: GameId) -> bool
    ensures { IsTrue result → a ≡ b }
{
    a == b
}

/// Whether the sums are the same.
pub(crate) fn are_same_ids(a: &[GameId], b: &[GameId]) -> bool
    ensures { IsTrue result → a.now ≡ b.now }
{
    if a.len() != b.len() {
        return false;
    }
    'places: for place in 0..a.len() {
        if !is_same_id(a[place], b[place]) {
            return false;
        }
    }
    true
}

/// Whether the position that a stone leads to has one value for both players.
fn has_one_value(present: &Present<'_>, change: Change) -> bool
    requires seen { IsSeen present.now }
    requires change { IsSomeChange present.now change }
    ensures { IsTrue result → HasOneValue present.now.games.now change.stone }
{
    match change.stone {
        None => true,
        Some((k, place)) => is_same_id(
            present.games.value_with(k, Colour::Black, ENOUGH, place),
            present.games.value_with(k, Colour::White, ENOUGH, place),
        ),
    }
}

/// Whether one sum has both players' values behind a move.
pub(crate) fn is_one_behind(
    present: &Present<'_>,
    low: &[GameId],
    high: &[GameId],
    change: Change,
) -> bool
    requires low { IsSeenFor present.now Black enough low.now }
    requires high { IsSeenFor present.now White enough high.now }
    requires change { IsSomeChange present.now change }
    ensures { IsTrue result → HaveOneSum present.now.games.now
        (places_after present.now.places.now change.stone) }
{
    are_same_ids(low, high) && has_one_value(present, change)
}
