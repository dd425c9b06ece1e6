//! Games that the engine plays where kos can arise.

ghost use Rattle.std.specs.Prelude.{◌≡◌, ◌≤◌, ◌<◌, ◌+◌, ℕ, List, false, IfOk, MatchOption, OnErr, Option, length};
ghost use Rattle.go_grid.specs.Region.{Region};
ghost use Rattle.region_cut.specs.Cut.{AreRegionsOfPlay};
ghost use Rattle.whole_rules.specs.Opening.{MayTax};
ghost use Rattle.go_grid.specs.Board.{Board};
ghost use Rattle.whole_rules.specs.Purses.{purse, taken_out};
ghost use Rattle.whole_rules.specs.WholeGame.{Applies, Whole};
ghost use Rattle.whole_budgets.specs.EngineLaws.{IsReached};
ghost use Rattle.endgame_solver.specs.Faults.{most_steps};
ghost use Rattle.endgame_solver.specs.Solved.{HasMove};
ghost use Rattle.whole_budgets.specs.EnginePlay.{EngineMoves, Serves};
ghost use Rattle.engine_player.specs.Played.{AnswersMove, BeginsPlay, EnginePlays, KeepsNothing, Played};
ghost use Rattle.cycle_solver.specs.Keeping.{HasRoom};
ghost use Rattle.engine_player.specs.Room.{HasMovesLeft};
ghost use Rattle.engine_player.specs.inner.Kept.{IsPaid, IsPrepared, KeepsPrepared, kept_of};

use crate::kept::Kept;
use cycle_solver::{CycleError, CycleGame};
use endgame_solver::Limits;
use go_grid::Colour;
use local_play::Steps;
use sgf_go::Setup;
use std::alloc::{AllocError, Global};
use std::marker::Model;
use std::sync::ledger::Ledger;
use whole_rules::{Move, MoveError, Whole};

/// The most moves of one game in which kos can arise. What they pay in fits the purses.
pub const MOST_MOVES: u32 = 1_073_741_824;

/// A game in which kos can arise, and what each colour keeps for which the engine has moved. Contracts see the state, the regions
/// of play, what is kept and how many moves were made.
#[derive(Drop)]
pub struct CyclePlayer {
    game: CycleGame,
    black: Kept,
    white: Kept,
    /// Where budgets are reduced before a move.
    scratch: Vec<usize>,
    moves: u32,
}

impl Model for CyclePlayer {
    ghost use Rattle.engine_player.specs.Played.{Played};
    ghost use Rattle.engine_player.specs.inner.Kept.{IsFitPlayer, seen_as};

    ghost Value = { Played };

    ghost view = { λ p. seen_as p.game p.black p.white p.moves };

    ghost invariant = { λ p. IsFitPlayer p.game p.black p.white p.scratch.items
        p.moves };
}

/// What a game begins with beside its position: both colours keep nothing, and there is a list where budgets are reduced.
#[derive(Drop)]
struct Beginning {
    black: Kept,
    white: Kept,
    scratch: Vec<usize>,
}

/// What a game of so many regions begins with.
fn begin_keeping(alloc: Global, regions: usize) -> Result<Beginning, AllocError>
    ensures nothing { IfOk result (λ begun. (begun.black.is_kept ≡ false)
        × (begun.white.is_kept ≡ false)) }
    ensures many { IfOk result (λ begun. (length begun.black.budgets.items ≡ regions)
        × (length begun.white.budgets.items ≡ regions) × (length begun.scratch.items ≡ regions)) }
{
    let black = Kept::nothing(alloc, regions)?;
    let white = Kept::nothing(alloc, regions)?;
    let scratch = vec![in alloc; 0; regions]?;
    Ok(Beginning {
        black,
        white,
        scratch,
    })
}

/// Puts the least budgets of the side to move into the scratch, if it keeps some or wins.
fn prepare(game: &mut CycleGame, kept: &Kept, scratch: &mut [usize]) -> bool
    requires many { length kept.now.budgets.items ≡ length game.old.regions }
    requires room { length scratch.old ≡ length game.old.regions }
    requires reached { (g : Board) × IsReached g game.old.regions game.old.state }
    requires serves { Serves game.old.regions game.old.state.side game.old.state
        (kept_of kept.now) }
    ensures prepared { IsPrepared game.old (kept_of kept.now) result scratch.new }
    ensures many { length scratch.new ≡ length game.old.regions }
    ensures same { game.new ≡ game.old }
{
    if kept.is_kept {
        scratch.copy_from_slice(&kept.budgets);
        game.reduce(scratch);
        return true;
    }
    match game.mover_captures() {
        None => false,
        Some(captures) => {
            scratch.fill(captures);
            game.reduce(scratch);
            true
        }
    }
}

/// The engine's move, where the scratch is room for budgets.
fn chosen_move(game: &mut CycleGame, kept: &Kept, scratch: &mut [usize]) -> Option<Move>
    requires many { length kept.now.budgets.items ≡ length game.old.regions }
    requires room { length scratch.old ≡ length game.old.regions }
    requires reached { (g : Board) × IsReached g game.old.regions game.old.state }
    requires serves { Serves game.old.regions game.old.state.side game.old.state
        (kept_of kept.now) }
    ensures choice { MatchOption result (¬ HasMove game.old.state) (λ m. (t : Whole)
        × (left : Option (List ℕ))
        × EngineMoves game.old.regions game.old.state (kept_of kept.now) m t left) }
    ensures many { length scratch.new ≡ length game.old.regions }
    ensures same { game.new ≡ game.old }
{
    if prepare(game, kept, scratch) {
        return game.keeping_move(scratch);
    }
    match game.held_off() {
        Some(holding) => Some(holding),
        None => game.whole().first_move(),
    }
}

/// Pays for a move with what was prepared, if anything was.
fn pay_prepared(game: &CycleGame, scratch: &mut [usize], are_kept: bool, chosen: Move)
    requires many { length scratch.old ≡ length game.now.regions }
    requires keeps { KeepsPrepared game.now are_kept scratch.old chosen }
    ensures paid { IsPaid game.now are_kept chosen scratch.old scratch.new }
    ensures many { length scratch.new ≡ length game.now.regions }
{
    if are_kept {
        game.pay(chosen, scratch);
    }
}

/// Makes the engine's move for a colour that keeps this, and keeps what is left of its budgets.
fn make_move(
    game: &mut CycleGame,
    kept: &mut Kept,
    scratch: &mut [usize],
    moves: &mut u32,
    chosen: Move,
)
    requires many { length kept.old.budgets.items ≡ length game.old.regions }
    requires room { length scratch.old ≡ length game.old.regions }
    requires reached { (g : Board) × IsReached g game.old.regions game.old.state }
    requires serves { Serves game.old.regions game.old.state.side game.old.state
        (kept_of kept.old) }
    requires chosen { (t : Whole) × (left : Option (List ℕ))
        × EngineMoves game.old.regions game.old.state (kept_of kept.old) chosen t left }
    requires purses { HasRoom game.old.state }
    requires few { moves.old < MOST_MOVES }
    ensures made { EngineMoves game.old.regions game.old.state (kept_of kept.old) chosen
        game.new.state (kept_of kept.new) }
    ensures many { length kept.new.budgets.items ≡ length game.old.regions }
    ensures room { length scratch.new ≡ length game.old.regions }
    ensures regions { game.new.regions ≡ game.old.regions }
    ensures counted { moves.new ≡ moves.old + 1 }
{
    let are_kept = prepare(game, kept, scratch);
    let asked = chosen;
    pay_prepared(game, scratch, are_kept, asked);
    match game.play(chosen) {
        Ok(()) => {
            kept.put(scratch, are_kept);
            *moves += 1;
        }
        // The engine's move is legal.
        Err(_) => unreachable!(),
    }
}

/// Makes a move by hand of a colour that keeps this, and then keeps nothing.
fn move_by_hand(
    game: &mut CycleGame,
    kept: &mut Kept,
    moves: &mut u32,
    chosen: Move,
) -> Result<(), MoveError>
    requires purses { HasRoom game.old.state }
    requires few { moves.old < MOST_MOVES }
    ensures applied { Applies game.old.state chosen game.new.state result }
    ensures regions { game.new.regions ≡ game.old.regions }
    ensures forgotten { IfOk result (λ _. (kept.new ≡ record kept.old { is_kept = false })
        × (moves.new ≡ moves.old + 1)) }
    ensures same { OnErr result ((kept.new ≡ kept.old) × (moves.new ≡ moves.old)) }
{
    match game.play(chosen) {
        Ok(()) => {
            kept.forget();
            *moves += 1;
            Ok(())
        }
        Err(error) => Err(error),
    }
}

impl CyclePlayer {
    /// The game that a position opens, with or without a tax, in which nothing is kept yet. It refuses as
    /// `CycleGame::begin` does, and takes as many steps.
    pub fn begin<L: Ledger>(
        alloc: Global,
        setup: &Setup,
        tax: bool,
        limits: &Limits,
        most: u8,
        steps: &mut Steps<L>,
    ) -> Result<CyclePlayer, CycleError>
        requires taxed { MayTax tax setup.now.board }
        ensures begun { BeginsPlay setup.now tax limits.now most result }
        ensures steps { (regions : List Region) → AreRegionsOfPlay setup.now.board regions
            → steps.new ≤ steps.old + most_steps limits.now regions }
    {
        let _size = setup.board().size();
        let game = CycleGame::begin(alloc, setup, tax, limits, most, steps)?;
        match begin_keeping(alloc, game.regions()) {
            Ok(begun) => Ok(CyclePlayer {
                game,
                black: begun.black,
                white: begun.white,
                scratch: begun.scratch,
                moves: 0,
            }),
            Err(cause) => {
                drop(game);
                Err(CycleError::Memory(cause))
            }
        }
    }

    /// The present state.
    pub fn whole(&self) -> &Whole
        ensures { result.now ≡ self.now.state }
    {
        self.game.whole()
    }

    /// Takes points out of a player's purse, which is no move: the side to move stays. No colour may keep anything yet.
    pub fn take_out(&mut self, colour: Colour, points: u64)
        requires points { points ≤ purse colour self.old.state.purses }
        requires nothing { KeepsNothing self.old.keeping }
        ensures { self.new ≡ record self.old {
          state = record self.old.state {
            purses = taken_out colour points self.old.state.purses;
          };
        } }
    {
        self.game.take_out(colour, points);
    }

    /// The engine's move for the side to move. None exactly where there is no move.
    pub fn choose(&mut self) -> Option<Move>
        ensures choice { MatchOption result (¬ HasMove self.old.state)
            (λ m. (after : Played) × EnginePlays self.old m after) }
        ensures same { self.new ≡ self.old }
    {
        match self.game.whole().side() {
            Colour::Black => chosen_move(&mut self.game, &self.black, &mut self.scratch),
            Colour::White => chosen_move(&mut self.game, &self.white, &mut self.scratch),
        }
    }

    /// Makes the move that the engine has chosen for the side to move.
    pub fn make(&mut self, chosen: Move)
        requires chosen { (after : Played) × EnginePlays self.old chosen after }
        requires room { HasMovesLeft 1 self.old.keeping }
        ensures made { EnginePlays self.old chosen self.new }
    {
        match self.game.whole().side() {
            Colour::Black => make_move(
                &mut self.game,
                &mut self.black,
                &mut self.scratch,
                &mut self.moves,
                chosen,
            ),
            Colour::White => make_move(
                &mut self.game,
                &mut self.white,
                &mut self.scratch,
                &mut self.moves,
                chosen,
            ),
        }
    }

    /// Makes a move of the side to move by hand, which takes away what its colour keeps, or leaves the game as it was where the
    /// move is illegal.
    pub fn play(&mut self, chosen: Move) -> Result<(), MoveError>
        requires room { HasMovesLeft 1 self.old.keeping }
        ensures { AnswersMove self.old chosen result self.new }
    {
        match self.game.whole().side() {
            Colour::Black => {
                move_by_hand(&mut self.game, &mut self.black, &mut self.moves, chosen)
            }
            Colour::White => {
                move_by_hand(&mut self.game, &mut self.white, &mut self.moves, chosen)
            }
        }
    }
}
