//! What of a sum matters to who loses it.

ghost use Rattle.std.specs.Prelude.{◌≡◌, IfSome, cond};
ghost use Rattle.go_grid.specs.declared.grid.Colour.TheVariants.{Black, White};
ghost use Rattle.game_store.specs.Meaning.{pick, AreIds};
ghost use Rattle.sum_outcome.specs.Sums.{IsBounded};
ghost use Rattle.sum_outcome.specs.inner.Memo.{IsKeyOf};

use dyadic_num::Dyadic;
use game_store::{Form, GameId, Store};
use go_grid::Colour;
use std::alloc::Global;

/// The games of a sum that are no numbers, in ascending order, what the numbers add up to in parts of 2^-60, and whether
/// Black is to move. Sums that differ by order alone, or by where numbers stand, have the same key.
#[derive(PartialEq, Eq, Hash, Drop)]
pub(crate) struct Key {
    games: Vec<GameId>,
    number: i128,
    black: bool,
}

/// Whether it is Black.
fn is_black(side: Colour) -> bool
    ensures { cond result Black White ≡ side }
{
    match side {
        Colour::Black => true,
        Colour::White => false,
    }
}

/// The key of a sum for the player who is to move, unless memory is wanting.
pub(crate) fn key_of(
    alloc: Global,
    store: &Store,
    sum: &[GameId],
    number: Dyadic,
    side: Colour,
) -> Option<Key>
    requires ids { AreIds store.now sum.now }
    requires bounds { IsBounded (pick store.now sum.now) number }
    ensures { IfSome result (λ key. IsKeyOf store.now sum.now number side key) }
{
    let mut games = Vec::new(alloc);
    let mut total = number.units();
    'splitting: for id in sum {
        match store.node(*id) {
            Form::Number(x) => total += x.units(),
            Form::Options { .. } => {
                let Ok(()) = games.push(*id) else {
                    return None;
                };
            }
        }
    }
    games.sort_unstable();
    Some(Key {
        games,
        number: total,
        black: is_black(side),
    })
}
