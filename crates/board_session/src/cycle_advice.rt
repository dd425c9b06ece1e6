//! What a colour is told that asks for a move, where kos can arise.

ghost use Rattle.std.specs.Prelude.{◌≡◌, ◌≤◌, ◌<◌, ◌+◌, ◌*◌, List, IfOk, string_bytes};
ghost use Rattle.go_grid.specs.Region.{Region};
ghost use Rattle.gtp_words.specs.Vertices.{vertex_text};
ghost use Rattle.region_cut.specs.Cut.{AreRegionsOfPlay};
ghost use Rattle.endgame_solver.specs.Faults.{most_steps};
ghost use Rattle.engine_player.specs.Played.{KeepsNothing};
ghost use Rattle.board_session.specs.Cycles.{AdvisesWithCycles, AreCycleFaultWords, captures_words};
ghost use Rattle.board_session.specs.Generating.{PayFor, after_passes};
ghost use Rattle.board_session.specs.inner.Cycles.{IsToldWithCycles, NamesPoint};
ghost use Rattle.board_session.specs.inner.Generating.{advice_of};

use crate::advice::{Advice, pay};
use board_orders::Tally;
use cycle_solver::{CycleError, MOST_CAPTURES};
use endgame_solver::Limits;
use engine_player::CyclePlayer;
use fault_words::{Naming, form_words, points_words, positions_words};
use go_grid::{Colour, Point, Size};
use gtp_words::point_text;
use local_play::Steps;
use sgf_go::Setup;
use std::alloc::{AllocError, Global};
use std::sync::ledger::Ledger;

/// The words on a region that isn't steady.
#[tactic(auto, unfolding(crate::specs::Cycles::captures_words))]
fn captures_words(alloc: Global, size: Size, lowest: Point) -> Result<String, AllocError>
    requires { lowest < size.columns * size.rows }
    ensures { IfOk result (λ text. string_bytes text
        ≡ captures_words (vertex_text size.columns size.rows) lowest) }
{
    let name = point_text(alloc, size, lowest)?;
    format!(in alloc; "captures {name}")
}

/// The words on a fault of a position whose board has the size, or the want of memory that it is.
pub(crate) fn words_of(
    alloc: Global,
    size: Size,
    limits: &Limits,
    fault: CycleError,
) -> Result<String, AllocError>
    requires { NamesPoint (size.columns * size.rows) fault }
    ensures { IfOk result (λ text. AreCycleFaultWords (vertex_text size.columns size.rows)
        limits.now fault (string_bytes text)) }
{
    match fault {
        CycleError::Points(lowest, points) => {
            points_words(alloc, Naming::Gtp, size, lowest, points)
        }
        CycleError::Positions(lowest) => {
            positions_words(alloc, Naming::Gtp, size, lowest, limits.positions())
        }
        CycleError::Form(lowest) => form_words(alloc, Naming::Gtp, size, lowest),
        CycleError::Captures(lowest) => captures_words(alloc, size, lowest),
        CycleError::Memory(cause) => Err(cause),
    }
}

/// Takes a point out of a purse for each pass of its colour.
fn take_passes(game: &mut CyclePlayer, passes: Tally)
    requires pay { PayFor passes game.old.state.purses }
    requires nothing { KeepsNothing game.old.keeping }
    ensures { game.new ≡ record game.old { state = after_passes passes game.old.state } }
{
    game.take_out(Colour::Black, passes.of(Colour::Black));
    game.take_out(Colour::White, passes.of(Colour::White));
}

/// What the side to move is told in a game that begins so.
fn tell(alloc: Global, game: &mut CyclePlayer, passes: Tally) -> Result<Advice, AllocError>
    requires nothing { KeepsNothing game.old.keeping }
    ensures { IfOk result (λ advice. IsToldWithCycles passes game.old (advice_of advice)) }
{
    if !pay(game.whole(), passes) {
        return Ok(Advice::Unopened(String::from_str(alloc, "purse")?));
    }
    take_passes(game, passes);
    match game.choose() {
        Some(chosen) => Ok(Advice::Chosen(chosen)),
        None => Ok(Advice::Resigned),
    }
}

/// What the colour to move is told in a position.
pub(crate) fn open_with_cycles<L: Ledger>(
    alloc: Global,
    setup: &Setup,
    passes: Tally,
    limits: &Limits,
    steps: &mut Steps<L>,
) -> Result<Advice, AllocError>
    ensures advised { IfOk result (λ advice. AdvisesWithCycles limits.now setup.now passes
        (advice_of advice)) }
    ensures steps { (regions : List Region) → AreRegionsOfPlay setup.now.board regions
        → steps.new ≤ steps.old + most_steps limits.now regions }
{
    let size = setup.board().size();
    match CyclePlayer::begin(alloc, setup, false, limits, MOST_CAPTURES, steps) {
        Ok(mut game) => {
            let advice = tell(alloc, &mut game, passes);
            drop(game);
            advice
        }
        Err(fault) => {
            let words = words_of(alloc, size, limits, fault)?;
            Ok(Advice::Unopened(words))
        }
    }
}
