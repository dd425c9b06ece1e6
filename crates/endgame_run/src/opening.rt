//! Sessions that begin with the position of a file.

ghost use Rattle.std.specs.Prelude.{◌≡◌, ◌≤◌, ◌+◌, List, [], false, true, IfOk};
ghost use Rattle.go_grid.specs.Region.{Region};
ghost use Rattle.whole_rules.specs.Opening.{MayTax};
ghost use Rattle.endgame_solver.specs.Faults.{most_steps};
ghost use Rattle.region_cut.specs.Cut.{AreRegionsOfPlay};
ghost use Rattle.endgame_run.specs.Game.{IsEngine};
ghost use Rattle.endgame_run.specs.inner.Top.{IsBegun};

use crate::question::{Match, Opened};
use cycle_solver::MOST_CAPTURES;
use endgame_questions::{GameTerms, refused, refused_with_cycles};
use endgame_solver::Solved;
use engine_player::{CyclePlayer, Player};
use go_grid::Colour;
use local_play::Steps;
use play_session::Session;
use sgf_go::Setup;
use std::alloc::{AllocError, Global};
use std::sync::ledger::Ledger;

/// The session of a game in which the engine has the colour, or else the side to move.
fn session_of(player: Player, engine: Option<Colour>, setup: &Setup) -> Session
    ensures game { result.game ≡ player }
    ensures engine { IsEngine engine setup.now result.engine }
    ensures fresh { result.held ≡ [] }
{
    Session::new(player, engine.unwrap_or(setup.side()))
}

/// The session of a position that is solved on these terms.
fn begin_plain<L: Ledger>(
    alloc: Global,
    setup: &Setup,
    terms: &GameTerms,
    engine: Option<Colour>,
    steps: &mut Steps<L>,
) -> Result<Opened, AllocError>
    requires taxed { MayTax terms.now.tax setup.now.board }
    ensures begun { IfOk result (IsBegun terms.now false engine setup.now) }
    ensures steps { (regions : List Region) → AreRegionsOfPlay setup.now.board regions
        → steps.new ≤ steps.old + most_steps terms.now.limits regions }
{
    let size = setup.board().size();
    match Solved::begin(alloc, setup, terms.tax, &terms.limits, steps) {
        Ok(solved) => {
            let player = Player::without_cycles(solved);
            Ok(Opened::Game(session_of(player, engine, setup)))
        }
        Err(fault) => {
            let report = refused(alloc, size, &terms.limits, fault)?;
            Ok(Opened::Fault(report))
        }
    }
}

/// The same where regions may have cycles.
fn begin_with_cycles<L: Ledger>(
    alloc: Global,
    setup: &Setup,
    terms: &GameTerms,
    engine: Option<Colour>,
    steps: &mut Steps<L>,
) -> Result<Opened, AllocError>
    requires taxed { MayTax terms.now.tax setup.now.board }
    ensures begun { IfOk result (IsBegun terms.now true engine setup.now) }
    ensures steps { (regions : List Region) → AreRegionsOfPlay setup.now.board regions
        → steps.new ≤ steps.old + most_steps terms.now.limits regions }
{
    let size = setup.board().size();
    match CyclePlayer::begin(alloc, setup, terms.tax, &terms.limits, MOST_CAPTURES, steps) {
        Ok(game) => {
            let player = Player::with_cycles(game);
            Ok(Opened::Game(session_of(player, engine, setup)))
        }
        Err(fault) => {
            let report = refused_with_cycles(alloc, size, &terms.limits, fault)?;
            Ok(Opened::Fault(report))
        }
    }
}

/// The session of a position on the terms of a game, with cycles admitted or without.
pub(crate) fn begin<L: Ledger>(
    alloc: Global,
    setup: &Setup,
    game: &Match<'_>,
    steps: &mut Steps<L>,
) -> Result<Opened, AllocError>
    requires taxed { MayTax game.now.terms.tax setup.now.board }
    ensures begun { IfOk result (IsBegun game.now.terms game.now.cycles game.now.engine
        setup.now) }
    ensures steps { (regions : List Region) → AreRegionsOfPlay setup.now.board regions
        → steps.new ≤ steps.old + most_steps game.now.terms.limits regions }
{
    if game.cycles {
        return begin_with_cycles(alloc, setup, &game.terms, game.engine, steps);
    }
    begin_plain(alloc, setup, &game.terms, game.engine, steps)
}
