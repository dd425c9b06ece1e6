//! Stops of games: the numbers that a game comes to when the two sides move in turn and stop at the first number
//! (Siegel, Combinatorial Game Theory).
#![tactic(auto)]

ghost use Rattle.std.specs.Prelude.{◌<◌, length};
ghost use Rattle.short_games.specs.Tree.{tree_at};
ghost use Rattle.short_games.specs.Stops.{IsLeftStop, IsRightStop};

use dyadic_num::{Dyadic, EXPONENT};
use game_store::{GameId, Store};

/// The left stop of a game: of a number the number, otherwise the greatest right stop of a Left option.
pub fn left_stop(store: &Store, id: GameId) -> Dyadic
    requires { id < length store.now }
    ensures { IsLeftStop EXPONENT (tree_at store.now id) result }
{
    store.ceiling(id).number_at_most()
}

/// The right stop of a game: of a number the number, otherwise the least left stop of a Right option.
pub fn right_stop(store: &Store, id: GameId) -> Dyadic
    requires { id < length store.now }
    ensures { IsRightStop EXPONENT (tree_at store.now id) result }
{
    store.floor(id).number_at_least()
}
