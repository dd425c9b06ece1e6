//! Moves in a running game.

ghost use Rattle.std.specs.Prelude.{◌≡◌, ◌≤◌, ◌+◌, List, IfOk, OnErr, false, true};
ghost use Rattle.endgame_solver.specs.Faults.{most_steps};
ghost use Rattle.go_grid.specs.Region.{Region};
ghost use Rattle.region_cut.specs.Cut.{AreRegionsOfPlay};
ghost use Rattle.gtp_engine.specs.inner.Playing.{IsActed, IsCycleFault, IsFault, IsOpened};
ghost use Rattle.engine_player.specs.Room.{CanTake};

use crate::moves::{Wanted, find_move, write_move};
use crate::reply::{Refusal, accept, refuse};
use cycle_solver::{CycleError, MOST_CAPTURES};
use endgame_solver::{Limits, SolveError, Solved};
use engine_player::{CyclePlayer, Player};
use game_text::Text;
use local_play::Steps;
use sgf_go::Setup;
use std::alloc::{AllocError, Global};
use std::sync::ledger::Ledger;

/// What the side to move is asked to do.
#[derive(Clone, Copy)]
pub(crate) enum Action {
    Play(Wanted),
    Generate,
}

/// Keeps a want of memory apart from the faults of a position.
fn unless_memory(fault: SolveError) -> Result<(), AllocError>
    ensures { IfOk result (λ _. IsFault fault) }
{
    match fault {
        SolveError::Points(_, _) => Ok(()),
        SolveError::Positions(_) => Ok(()),
        SolveError::Cycle(_, _, _) => Ok(()),
        SolveError::Form(_) => Ok(()),
        SolveError::Memory(cause) => Err(cause),
    }
}

/// Keeps a want of memory apart from the faults of a position whose regions may have cycles.
fn unless_wanted(fault: CycleError) -> Result<(), AllocError>
    ensures { IfOk result (λ _. IsCycleFault fault) }
{
    match fault {
        CycleError::Points(_, _) => Ok(()),
        CycleError::Positions(_) => Ok(()),
        CycleError::Form(_) => Ok(()),
        CycleError::Captures(_) => Ok(()),
        CycleError::Memory(cause) => Err(cause),
    }
}

/// The game that a setup opens, where its regions of play are sound within the limits.
fn open_plain<L: Ledger>(
    alloc: Global,
    setup: &Setup,
    limits: &Limits,
    steps: &mut Steps<L>,
) -> Result<Option<Player>, AllocError>
    ensures opened { IfOk result (IsOpened false limits.now setup.now) }
    ensures steps { (regions : List Region) → AreRegionsOfPlay setup.now.board regions
        → steps.new ≤ steps.old + most_steps limits.now regions }
{
    match Solved::begin(alloc, setup, false, limits, steps) {
        Ok(solved) => Ok(Some(Player::without_cycles(solved))),
        Err(fault) => {
            unless_memory(fault)?;
            Ok(None)
        }
    }
}

/// The game that a setup opens, where its regions of play are steady within the limits.
fn open_with_cycles<L: Ledger>(
    alloc: Global,
    setup: &Setup,
    limits: &Limits,
    steps: &mut Steps<L>,
) -> Result<Option<Player>, AllocError>
    ensures opened { IfOk result (IsOpened true limits.now setup.now) }
    ensures steps { (regions : List Region) → AreRegionsOfPlay setup.now.board regions
        → steps.new ≤ steps.old + most_steps limits.now regions }
{
    match CyclePlayer::begin(alloc, setup, false, limits, MOST_CAPTURES, steps) {
        Ok(game) => Ok(Some(Player::with_cycles(game))),
        Err(fault) => {
            unless_wanted(fault)?;
            Ok(None)
        }
    }
}

/// The game that a setup opens within the limits, with cycles admitted or without, if it opens one.
pub(crate) fn open<L: Ledger>(
    alloc: Global,
    setup: &Setup,
    limits: &Limits,
    cycles: bool,
    steps: &mut Steps<L>,
) -> Result<Option<Player>, AllocError>
    ensures opened { IfOk result (IsOpened cycles limits.now setup.now) }
    ensures steps { (regions : List Region) → AreRegionsOfPlay setup.now.board regions
        → steps.new ≤ steps.old + most_steps limits.now regions }
{
    if cycles {
        return open_with_cycles(alloc, setup, limits, steps);
    }
    open_plain(alloc, setup, limits, steps)
}

/// Plays a move, where it is legal.
fn play(alloc: Global, id: &[u8], game: &mut Player, wanted: Wanted) -> Result<Text, AllocError>
    requires room { CanTake 1 game.old }
    ensures acted { IfOk result
        (λ reply. IsActed (Action.Play wanted) id.now game.old reply game.new) }
    ensures same { OnErr result (game.new ≡ game.old) }
{
    let played = accept(alloc, id, b"")?;
    let illegal = refuse(alloc, id, Refusal::IllegalMove)?;
    let Some(chosen) = find_move(game.whole().board().size(), wanted) else {
        return Ok(illegal);
    };
    match game.play(chosen) {
        Ok(()) => Ok(played),
        Err(_) => Ok(illegal),
    }
}

/// Plays the engine's move, where the side to move has one.
fn generate(alloc: Global, id: &[u8], game: &mut Player) -> Result<Text, AllocError>
    requires room { CanTake 1 game.old }
    ensures acted { IfOk result (λ reply. IsActed Action.Generate id.now game.old reply game.new) }
    ensures same { OnErr result (game.new ≡ game.old) }
{
    let Some(chosen) = game.choose() else {
        let reply = accept(alloc, id, b"resign")?;
        return Ok(reply);
    };
    let text = write_move(alloc, game.whole().board().size(), &chosen)?;
    let reply = accept(alloc, id, text.as_slice())?;
    game.make(chosen);
    Ok(reply)
}

/// Does what the side to move is asked to do.
pub(crate) fn act(
    alloc: Global,
    id: &[u8],
    game: &mut Player,
    action: Action,
) -> Result<Text, AllocError>
    requires room { CanTake 1 game.old }
    ensures acted { IfOk result (λ reply. IsActed action id.now game.old reply game.new) }
    ensures same { OnErr result (game.new ≡ game.old) }
{
    match action {
        Action::Play(wanted) => play(alloc, id, game, wanted),
        Action::Generate => generate(alloc, id, game),
    }
}
