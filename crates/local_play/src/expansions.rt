//! All local moves of a position.

ghost use Rattle.std.specs.Prelude.{◌≡◌, ℕ, ◌+◌, ◌≤◌, List, length, IfOk, OnOk};
ghost use Rattle.go_grid.specs.declared.grid.Cell.{Cell};
ghost use Rattle.go_grid.specs.declared.region.Touch.{Touch};
ghost use Rattle.local_play.specs.Packed.{pack};
ghost use Rattle.local_play.specs.Moves.{ListsLocalMoves, IsPosition};
ghost use Rattle.local_play.specs.Links.{IsTable};

use crate::links::Links;
use crate::local::Local;
use crate::local_move::LocalMove;
use crate::local_moves::LocalMoves;
use crate::places::MOST_PLACES;
use crate::steps::Steps;
use go_grid::Region;
use std::alloc::{AllocError, Global};
use std::sync::ledger::Ledger;

/// Makes the list that of all legal local moves of a position of the region that the links are of: Black's by place and
/// then White's. It takes one step.
pub fn list_moves<L: Ledger>(
    links: &Links,
    from: Local,
    steps: &mut Steps<L>,
    moves: &mut Vec<LocalMove>,
) -> Result<(), AllocError>
    ensures moves { (touch : List Touch) (cells : List Cell) → IsTable touch links.now
        → length cells ≡ length touch → from ≡ pack cells
        → OnOk result (ListsLocalMoves touch cells moves.new.items) }
    ensures step { steps.new ≡ steps.old + 1 }
{
    moves.clear();
    let mut left = LocalMoves::of(links, from, steps);
    'turns: loop {
        'listing: while let Some(found) = left.next(links) {
            moves.push(found)?;
        }
        if !left.pass_on() {
            return Ok(());
        }
    }
}

/// All legal local moves of a position of the region, which has at most 32 points: Black's by place and then White's. It
/// takes one step.
pub fn expand<L: Ledger>(
    alloc: Global,
    region: &Region,
    from: Local,
    steps: &mut Steps<L>,
) -> Result<Vec<LocalMove>, AllocError>
    requires few { length region.now.points ≤ MOST_PLACES }
    requires from { IsPosition (length region.now.points) from }
    ensures moves { (cells : List Cell) → length cells ≡ length region.now.points
        → from ≡ pack cells
        → IfOk result (λ moves. ListsLocalMoves region.now.touch cells moves.items) }
    ensures step { steps.new ≡ steps.old + 1 }
{
    let mut moves = Vec::new(alloc);
    list_moves(&Links::of(region), from, steps, &mut moves)?;
    Ok(moves)
}
