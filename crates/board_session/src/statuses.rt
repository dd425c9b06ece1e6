//! The stones of a finished game that live, and those that are dead.

ghost use Rattle.std.specs.Prelude.{◌<◌, ◌*◌, All, IfOk};
ghost use Rattle.go_grid.specs.Chain.{IsSettled};
ghost use Rattle.go_grid.specs.Marks.{Lists, Marks};
ghost use Rattle.benson_life.specs.Territory.{IsTerritory};
ghost use Rattle.board_session.specs.Analysing.{HasStatus};
ghost use Rattle.board_session.specs.inner.Analysing.{RepliesStones};

use crate::advice::unsettled_words;
use benson_life::Territory;
use board_orders::{Status, accept, refuse_unscored, vertices_text};
use go_grid::{Board, Point, Points};
use item_list::ItemList;
use std::alloc::{AllocError, Global};

/// The stones of a status.
fn stones_of(board: &Board, territory: &Territory, status: Status) -> Points
    requires { IsTerritory board.now territory.now }
    ensures { Marks result (HasStatus status board.now) }
{
    let (black, white) = (&territory.black, &territory.white);
    match status {
        Status::Alive => black.alive.union(&white.alive),
        Status::Dead => black
            .counted
            .union(&white.counted)
            .difference(&board.empties()),
        Status::Seki => Points::new(),
    }
}

/// The stones of a status on a settled board, lowest first.
fn list_stones(alloc: Global, board: &Board, status: Status) -> Result<Vec<Point>, AllocError>
    requires { IsSettled board.now }
    ensures stones { IfOk result (λ points. Lists points.items (HasStatus status board.now)) }
    ensures on_board { IfOk result (λ points.
        All (λ p. p < board.now.columns * board.now.rows) points.items) }
{
    let _size = board.size();
    let territory = Territory::of(alloc, board)?;
    stones_of(board, &territory, status).to_list(alloc)
}

/// The reply with the stones of a status on a settled board.
fn tell_stones(
    alloc: Global,
    id: &[u8],
    board: &Board,
    status: Status,
) -> Result<ItemList<u8>, AllocError>
    requires { IsSettled board.now }
    ensures { IfOk result (RepliesStones status board.now id.now) }
{
    let stones = list_stones(alloc, board, status)?;
    let text = vertices_text(alloc, board.size(), &stones)?;
    accept(alloc, id, text.as_bytes())
}

/// The reply with the stones of a status.
pub(crate) fn report_stones(
    alloc: Global,
    id: &[u8],
    board: &Board,
    status: Status,
) -> Result<ItemList<u8>, AllocError>
    ensures { IfOk result (RepliesStones status board.now id.now) }
{
    if let Some(point) = board.unsettled()? {
        let words = unsettled_words(alloc, board, point)?;
        return refuse_unscored(alloc, id, &words);
    }
    tell_stones(alloc, id, board, status)
}
