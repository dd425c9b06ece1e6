//! The table of sums: for pairs of ids, the id of the canonical form of their sum.

ghost use Rattle.std.specs.Prelude.{◌≡◌, ℕ, OnOk};
ghost use Rattle.game_calc.specs.inner.Table.{noted, beside, with_sum};

use game_store::GameId;
use indexmap::IndexMap;
use std::alloc::AllocError;

/// For pairs of ids, the id of their sum.
pub(crate) type Sums = IndexMap<(GameId, GameId), GameId>;

/// The game of a sum in which a move is made.
#[derive(Clone, Copy)]
pub(crate) enum Summand {
    First,
    Second,
}

/// The sum that is noted for a game and the one beside it.
pub(crate) fn noted_sum(
    sums: &Sums,
    summand: Summand,
    moved: GameId,
    other: GameId,
) -> Option<GameId>
    ensures { result ≡ beside (noted sums.now) summand other moved }
{
    match summand {
        Summand::First => sums.get(&(moved, other)).copied(),
        Summand::Second => sums.get(&(other, moved)).copied(),
    }
}

/// Notes the sum of a pair.
pub(crate) fn note_sum(sums: &mut Sums, a: GameId, b: GameId, sum: GameId) -> Result<(), AllocError>
    ensures { OnOk result ((c d : ℕ) → noted sums.new c d ≡ with_sum (noted sums.old) a b sum c d) }
{
    sums.insert((a, b), sum)?;
    Ok(())
}
