//! The sum of a form and a number.

ghost use Rattle.std.specs.Prelude.{◌<◌, length, IfOk, IfErr};
ghost use Rattle.short_games.specs.Number.{number_tree};
ghost use Rattle.short_games.specs.Sum.{◌+ᵍ◌};
ghost use Rattle.short_games.specs.Tree.{tree_at};
ghost use Rattle.game_store.specs.Meaning.{Extends};
ghost use Rattle.game_canon.specs.Outcomes.{IsCanonicalId};
ghost use Rattle.game_calc.specs.Steps.{IsOutOfLimits, IsStepRefusal};

use dyadic_num::Dyadic;
use game_canon::{FormError, add_number, parts};
use game_store::{GameId, Store};
use std::alloc::Global;

/// The canonical form of the sum of a form and a number. The sums of the form's places with the number are the places of
/// that, so that it alone is looked at.
pub(crate) fn sum_with_number(
    alloc: Global,
    store: &mut Store,
    a: GameId,
    x: Dyadic,
    parts_limit: u32,
) -> Result<GameId, FormError>
    requires { a < length store.old }
    ensures value { IfOk result (λ id. IsCanonicalId store.new
        (tree_at store.old a +ᵍ number_tree x) id) }
    ensures within { IfOk result (λ _. IsOutOfLimits parts_limit (tree_at store.old a)
        (number_tree x) → ⊥) }
    ensures refusal { IfErr result (λ error. IsStepRefusal parts_limit (tree_at store.old a)
        (number_tree x) error) }
    ensures kept { Extends store.old store.new }
{
    let _count = store.len();
    let sum = add_number(alloc, store, a, x)?;
    let count = parts(alloc, store, sum)?;
    if count > u64::from(parts_limit) {
        return Err(FormError::Parts);
    }
    Ok(sum)
}
