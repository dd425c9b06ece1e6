//! The sum of a form and a number.

ghost use Rattle.std.specs.Prelude.{◌<◌, ◌≡◌, ◌↔◌, ◌+ℤ◌, ℤ, pos, length, IsTrue, IfOk, IfErr};
ghost use Rattle.short_games.specs.Sum.{◌+ᵍ◌};
ghost use Rattle.short_games.specs.Tree.{tree_at};
ghost use Rattle.short_games.specs.Number.{number_tree};
ghost use Rattle.game_store.specs.Meaning.{Extends};
ghost use Rattle.short_games.specs.Parts.{IsNumberOf};
ghost use Rattle.game_canon.specs.Outcomes.{IsCanonicalId};
ghost use Rattle.game_canon.specs.Changes.{HasNumberPastBounds, IsSumRefusal};

use crate::change::{Change, change_form};
use crate::errors::FormError;
use dyadic_num::Dyadic;
use game_store::{GameId, Store};
use std::alloc::Global;

/// Whether the number is 0.
fn is_zero(x: Dyadic) -> bool
    ensures { IsTrue result ↔ (x ≡ pos 0) }
{
    x.units() == 0
}

/// The canonical form of the sum of a form and a number: where the form is no number, the number is added to each of its
/// options (translation). `Bounds` exactly where a number of the sum's canonical form is past the bounds of a `Dyadic`;
/// never `Parts`. Its numbers are those of `a`, each with `x` added. Every id keeps its form, whatever the answer.
pub fn add_number(
    alloc: Global,
    store: &mut Store,
    a: GameId,
    x: Dyadic,
) -> Result<GameId, FormError>
    requires { a < length store.old }
    ensures value { IfOk result (λ id. IsCanonicalId store.new
        (tree_at store.old a +ᵍ number_tree x) id) }
    ensures numbers { IfOk result (λ id. (y : ℤ)
        → IsNumberOf (tree_at store.old a) y ↔ IsNumberOf (tree_at store.new id) (y +ℤ x)) }
    ensures bounds { IfOk result (λ id. HasNumberPastBounds (tree_at store.new id) → ⊥) }
    ensures refusal { IfErr result (λ error. IsSumRefusal
        (tree_at store.old a +ᵍ number_tree x) error) }
    ensures kept { Extends store.old store.new }
{
    let _count = store.len();
    if is_zero(x) {
        return Ok(a);
    }
    let sum = change_form(alloc, store, a, Change::Add(x))?;
    let _new_count = store.len();
    Ok(sum)
}
