//! The negative of a form.

ghost use Rattle.std.specs.Prelude.{ℕ, ◌<◌, ◌↔◌, length, IfOk};
ghost use Rattle.short_games.specs.Tree.{neg, tree_at};
ghost use Rattle.game_store.specs.Meaning.{Extends};
ghost use Rattle.short_games.specs.Parts.{HasMoreParts};
ghost use Rattle.game_canon.specs.Outcomes.{AreWithin, IsCanonicalId};

use crate::change::{Change, change_form};
use crate::errors::FormError;
use game_store::{GameId, Store};
use std::alloc::{AllocError, Global};

/// The canonical form of the negative: the form with the sides exchanged at every level. It has as many parts, and numbers
/// of the same sizes. Every id keeps its form, whatever the answer.
pub fn negate(alloc: Global, store: &mut Store, a: GameId) -> Result<GameId, AllocError>
    requires { a < length store.old }
    ensures value { IfOk result (λ id. IsCanonicalId store.new (neg (tree_at store.old a)) id) }
    ensures parts { IfOk result (λ id. (n : ℕ)
        → HasMoreParts (tree_at store.new id) n ↔ HasMoreParts (tree_at store.old a) n) }
    ensures sizes { IfOk result (λ id. (b : ℕ)
        → AreWithin b (tree_at store.new id) ↔ AreWithin b (tree_at store.old a)) }
    ensures kept { Extends store.old store.new }
{
    match change_form(alloc, store, a, Change::Negate) {
        Ok(id) => Ok(id),
        Err(FormError::Memory(cause)) => Err(cause),
        // The negative has as many parts as the game, and numbers of the same size.
        Err(_) => unreachable!(),
    }
}
