//! Both sides of a game in one.

ghost use Rattle.std.specs.Prelude.{◌≡◌, ◌<◌, ◌↔◌, length, IfOk, IsTrue};
ghost use Rattle.short_games.specs.Tree.{tree_at};
ghost use Rattle.game_canon.specs.inner.Comparisons.{recalled};
ghost use Rattle.game_canon.specs.inner.Games.{beside, HasForm, IsKnown};
ghost use Rattle.game_canon.specs.inner.Sides.{Covers, near_list, far_list};

use crate::at_most::at_most;
use crate::comparisons::Comparisons;
use crate::games::Games;
use game_store::GameId;
use std::alloc::{AllocError, Global};

/// A side of a game.
#[derive(Clone, Copy)]
pub(crate) enum Side {
    Left,
    Right,
}

/// The options of the side.
pub(crate) fn near_of<'a>(side: Side, left: &'a [GameId], right: &'a [GameId]) -> &'a [GameId]
    ensures { result.now ≡ near_list side left.now right.now }
{
    match side {
        Side::Left => left,
        Side::Right => right,
    }
}

/// The options of the other side.
pub(crate) fn far_of<'a>(side: Side, left: &'a [GameId], right: &'a [GameId]) -> &'a [GameId]
    ensures { result.now ≡ far_list side left.now right.now }
{
    match side {
        Side::Left => right,
        Side::Right => left,
    }
}

/// Whether the game of `b` is for the side at least as good as that of `a`.
pub(crate) fn is_covered(
    alloc: Global,
    memo: &mut Comparisons,
    games: &Games<'_>,
    side: Side,
    a: GameId,
    b: GameId,
) -> Result<bool, AllocError>
    requires known { IsKnown games.now (recalled memo.old) }
    requires a { a < length games.now.store.now }
    requires b { b < length games.now.store.now }
    ensures answer { IfOk result (λ answer. IsTrue answer ↔ Covers side
        (tree_at games.now.store.now a) (tree_at games.now.store.now b)) }
    ensures known { IsKnown games.now (recalled memo.new) }
{
    match side {
        Side::Left => at_most(alloc, memo, games, a, b),
        Side::Right => at_most(alloc, memo, games, b, a),
    }
}

/// Whether the form beside the store is for the side at least as good as the game of `id`.
pub(crate) fn form_covers(
    alloc: Global,
    memo: &mut Comparisons,
    games: &Games<'_>,
    side: Side,
    id: GameId,
) -> Result<bool, AllocError>
    requires known { IsKnown games.now (recalled memo.old) }
    requires form { HasForm games.now }
    requires id { id < length games.now.store.now }
    ensures answer { IfOk result (λ answer. IsTrue answer ↔ Covers side
        (tree_at games.now.store.now id) (beside games.now)) }
    ensures known { IsKnown games.now (recalled memo.new) }
{
    let form = games.store.len();
    match side {
        Side::Left => at_most(alloc, memo, games, id, form),
        Side::Right => at_most(alloc, memo, games, form, id),
    }
}
