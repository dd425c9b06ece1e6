//! What a colour is told that asks for a move.

ghost use Rattle.std.specs.Prelude.{◌≡◌, ◌≤◌, ◌<◌, ◌+◌, ◌↔◌, true, List, length, IfOk, string_bytes};
ghost use Rattle.go_grid.specs.Region.{Region};
ghost use Rattle.region_cut.specs.Cut.{AreRegionsOfPlay};
ghost use Rattle.endgame_solver.specs.Faults.{most_steps};
ghost use Rattle.board_session.specs.Cycles.{AdvisesWith};
ghost use Rattle.board_session.specs.Generating.{Advises, PayFor, after_passes, board_move, unsettled_words};
ghost use Rattle.board_session.specs.inner.Generating.{IsTold, advice_of};

use crate::cycle_advice::open_with_cycles;
use board_orders::{BoardMove, Tally};
use endgame_solver::{Limits, Solved};
use fault_words::{Naming, fault_words};
use go_grid::{Board, Colour, Point};
use gtp_words::point_text;
use local_play::Steps;
use sgf_go::Setup;
use std::alloc::{AllocError, Global};
use std::sync::ledger::Ledger;
use whole_rules::{Move, Whole};

/// What the colour to move is told: a move, or that there is none, or why the position opens no game.
#[derive(Drop)]
pub(crate) enum Advice {
    Chosen(Move),
    Resigned,
    Unopened(String),
}

/// The move of a session that stands for a move of a game.
pub(crate) fn board_move(chosen: Move) -> BoardMove
    ensures { result ≡ board_move chosen }
{
    match chosen {
        Move::Stone(point) => BoardMove::Stone(point),
        Move::Spend => BoardMove::Pass,
        Move::Half => BoardMove::Half,
    }
}

/// The words on a board that isn't settled, by its first point that is not.
pub(crate) fn unsettled_words(
    alloc: Global,
    board: &Board,
    point: Point,
) -> Result<String, AllocError>
    requires { point < length board.now.cells }
    ensures { IfOk result (λ text. string_bytes text ≡ unsettled_words board.now point) }
{
    let name = point_text(alloc, board.size(), point)?;
    format!(in alloc; "no liberty at {name}")
}

/// Whether each purse holds a point for each pass of its colour.
pub(crate) fn pay(whole: &Whole, passes: Tally) -> bool
    ensures { (result ≡ true) ↔ PayFor passes whole.now.purses }
{
    passes.of(Colour::Black) <= whole.purse(Colour::Black)
        && passes.of(Colour::White) <= whole.purse(Colour::White)
}

/// Takes a point out of a purse for each pass of its colour.
fn take_passes(game: &mut Solved, passes: Tally)
    requires { PayFor passes game.old.state.purses }
    ensures { game.new ≡ record game.old { state = after_passes passes game.old.state } }
{
    game.take_out(Colour::Black, passes.of(Colour::Black));
    game.take_out(Colour::White, passes.of(Colour::White));
}

/// What the side to move is told in a game that begins so.
fn tell(alloc: Global, game: &mut Solved, passes: Tally) -> Result<Advice, AllocError>
    ensures { IfOk result (λ advice. IsTold passes game.old.state (advice_of advice)) }
{
    if !pay(game.whole(), passes) {
        return Ok(Advice::Unopened(String::from_str(alloc, "purse")?));
    }
    take_passes(game, passes);
    match game.choose() {
        Some(chosen) => Ok(Advice::Chosen(chosen)),
        None => Ok(Advice::Resigned),
    }
}

/// What the colour to move is told in a position.
fn open<L: Ledger>(
    alloc: Global,
    setup: &Setup,
    passes: Tally,
    limits: &Limits,
    steps: &mut Steps<L>,
) -> Result<Advice, AllocError>
    ensures advised { IfOk result (λ advice. Advises limits.now setup.now passes
        (advice_of advice)) }
    ensures steps { (regions : List Region) → AreRegionsOfPlay setup.now.board regions
        → steps.new ≤ steps.old + most_steps limits.now regions }
{
    let size = setup.board().size();
    match Solved::begin(alloc, setup, false, limits, steps) {
        Ok(mut game) => {
            let advice = tell(alloc, &mut game, passes);
            drop(game);
            advice
        }
        Err(fault) => {
            let words = fault_words(alloc, Naming::Gtp, size, limits, fault)?;
            Ok(Advice::Unopened(words))
        }
    }
}

/// What the colour to move is told, which has passed so often, with cycles admitted or without.
pub(crate) fn advise<L: Ledger>(
    alloc: Global,
    setup: &Setup,
    passes: Tally,
    limits: &Limits,
    cycles: bool,
    steps: &mut Steps<L>,
) -> Result<Advice, AllocError>
    ensures advised { IfOk result (λ advice. AdvisesWith cycles limits.now setup.now passes
        (advice_of advice)) }
    ensures steps { (regions : List Region) → AreRegionsOfPlay setup.now.board regions
        → steps.new ≤ steps.old + most_steps limits.now regions }
{
    if cycles {
        return open_with_cycles(alloc, setup, passes, limits, steps);
    }
    open(alloc, setup, passes, limits, steps)
}
