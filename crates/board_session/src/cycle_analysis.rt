//! Analyses of the present position where kos can arise.

ghost use Rattle.std.specs.Prelude.{◌≤◌, ◌+◌, List, IfOk};
ghost use Rattle.go_grid.specs.Region.{Region};
ghost use Rattle.region_cut.specs.Cut.{AreRegionsOfPlay};
ghost use Rattle.endgame_solver.specs.Faults.{most_steps};
ghost use Rattle.board_session.specs.declared.topic.CycleTopic.{CycleTopic};
ghost use Rattle.board_session.specs.inner.Analysing.{RepliesInWithCycles, RepliesOnWithCycles};

use crate::analysis::show;
use crate::cycle_advice::words_of;
use crate::topic::CycleTopic;
use board_orders::refuse_unsolved;
use cycle_report::{cycle_margin_text, cycle_moves_text};
use cycle_solver::{CycleGame, MOST_CAPTURES};
use endgame_solver::Limits;
use fault_words::Naming;
use item_list::ItemList;
use local_play::Steps;
use sgf_go::Setup;
use std::alloc::{AllocError, Global};
use std::sync::ledger::Ledger;

/// The reply with the thresholds.
fn reply_margin(
    alloc: Global,
    id: &[u8],
    game: &mut CycleGame,
    komi_halves: i64,
) -> Result<ItemList<u8>, AllocError>
    ensures { IfOk result (RepliesOnWithCycles CycleTopic.Margin game.old.state komi_halves
        id.now) }
{
    let text = cycle_margin_text(alloc, game, komi_halves)?;
    show(alloc, id, text.as_slice())
}

/// The reply with the moves and what each is worth.
fn reply_moves(
    alloc: Global,
    id: &[u8],
    game: &mut CycleGame,
    komi_halves: i64,
) -> Result<ItemList<u8>, AllocError>
    ensures { IfOk result (RepliesOnWithCycles CycleTopic.Moves game.old.state komi_halves
        id.now) }
{
    let text = cycle_moves_text(alloc, Naming::Gtp, game, komi_halves)?;
    show(alloc, id, text.as_slice())
}

/// The reply on a topic of a game with cycles that opens with this komi in half-points.
fn reply_on(
    alloc: Global,
    id: &[u8],
    topic: CycleTopic,
    game: &mut CycleGame,
    komi_halves: i64,
) -> Result<ItemList<u8>, AllocError>
    ensures { IfOk result (RepliesOnWithCycles topic game.old.state komi_halves id.now) }
{
    match topic {
        CycleTopic::Margin => reply_margin(alloc, id, game, komi_halves),
        CycleTopic::Moves => reply_moves(alloc, id, game, komi_halves),
    }
}

/// The reply on a topic of a position.
pub(crate) fn reply_with_cycles<L: Ledger>(
    alloc: Global,
    id: &[u8],
    topic: CycleTopic,
    setup: &Setup,
    limits: &Limits,
    steps: &mut Steps<L>,
) -> Result<ItemList<u8>, AllocError>
    ensures replied { IfOk result (RepliesInWithCycles limits.now topic setup.now id.now) }
    ensures steps { (regions : List Region) → AreRegionsOfPlay setup.now.board regions
        → steps.new ≤ steps.old + most_steps limits.now regions }
{
    let size = setup.board().size();
    match CycleGame::begin(alloc, setup, false, limits, MOST_CAPTURES, steps) {
        Ok(mut game) => {
            let reply = reply_on(alloc, id, topic, &mut game, setup.komi_halves());
            drop(game);
            reply
        }
        Err(fault) => {
            let words = words_of(alloc, size, limits, fault)?;
            refuse_unsolved(alloc, id, &words)
        }
    }
}
