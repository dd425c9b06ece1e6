//! Plain recursion over whole states, for tests on small boards.

ghost use Rattle.std.specs.Prelude.{◌≡◌, ◌+◌, ◌*◌, ◌^◌, ◌<◌, ◌↔◌, true, IfOk};
ghost use Rattle.whole_rules.specs.WholeGame.{IsMove, IsLegal};
ghost use Rattle.whole_rules.specs.PlainWinner.{IsOutcome};

use crate::states::{Move, Whole};
use go_grid::Colour;
use std::alloc::{AllocError, Global};

/// The state after a legal move.
fn after(state: &Whole, chosen: Move) -> Result<Whole, AllocError>
    requires legal { IsLegal state.now chosen }
    requires black { state.now.purses.black < 2 ^ 62 }
    requires white { state.now.purses.white < 2 ^ 62 }
    ensures { IfOk result (λ next. IsMove state.now chosen next) }
{
    let mut next = state.copy()?;
    match next.apply(chosen) {
        Ok(()) => Ok(next),
        // The caller gives legal moves only.
        Err(_) => unreachable!(),
    }
}

/// The winner, where the mover wins or loses within `depth` moves.
fn winner_within(alloc: Global, state: &Whole, depth: u32) -> Result<Option<Colour>, AllocError>
    requires black { state.now.purses.black + 627 * depth < 2 ^ 62 }
    requires white { state.now.purses.white + 627 * depth < 2 ^ 62 }
    ensures { IfOk result (λ winner. IsOutcome depth state.now winner) }
{
    let _size = state.board().size();
    let side = state.side();
    let moves = state.moves_in(alloc)?;
    if depth == 0 {
        if moves.is_empty() {
            return Ok(Some(side.other()));
        }
        return Ok(None);
    }
    let mut decided = true;
    for chosen in &moves {
        let next = after(state, *chosen)?;
        match winner_within(alloc, &next, depth - 1)? {
            Some(winner) => {
                if winner.is(side) {
                    return Ok(Some(side));
                }
            }
            None => decided = false,
        }
    }
    if decided {
        return Ok(Some(side.other()));
    }
    Ok(None)
}

/// The winner by plain recursion over whole states, to a depth in plies: the mover where the mover wins within so many
/// moves, the opponent where the mover loses within so many, and else `None`. It looks at every play and recurses as deep
/// as the depth; for tests on small boards.
pub fn plain_winner(alloc: Global, state: &Whole, depth: u32) -> Result<Option<Colour>, AllocError>
    requires black { state.now.purses.black < 2 ^ 61 }
    requires white { state.now.purses.white < 2 ^ 61 }
    ensures { IfOk result (λ winner. IsOutcome depth state.now winner) }
{
    winner_within(alloc, state, depth)
}
