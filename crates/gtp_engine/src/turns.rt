//! Turns: of a running game, and of one that a setup opens.

ghost use Rattle.std.specs.Prelude.{◌≡◌, ◌↔◌, ◌≤◌, ◌⊎◌, ◌+◌, List, Some, true, IfOk, OnErr};
ghost use Rattle.endgame_solver.specs.Faults.{most_steps};
ghost use Rattle.go_grid.specs.Region.{Region};
ghost use Rattle.region_cut.specs.Cut.{AreRegionsOfPlay};
ghost use Rattle.engine_player.specs.EngineGame.{EngineGame};
ghost use Rattle.engine_player.specs.Room.{CanTake};
ghost use Rattle.gtp_engine.specs.Kept.{HasRoomFor};
ghost use Rattle.gtp_engine.specs.Session.{with_side};
ghost use Rattle.gtp_engine.specs.Steps.{OpensWithin};
ghost use Rattle.gtp_engine.specs.inner.Doing.{IsFresh, IsRunning, IsTurnTaken, with_table};
ghost use Rattle.gtp_engine.specs.inner.Playing.{IsActed, IsOpened};

use crate::engine::Engine;
use crate::playing::{Action, act, open};
use crate::reply::{Refusal, refuse};
use engine_player::Player;
use game_text::Text;
use go_grid::Colour;
use local_play::Steps;
use std::alloc::AllocError;
use std::mem;
use std::sync::ledger::Ledger;

impl Engine {
    /// A turn of the colour in the running game.
    fn go_on(&mut self, id: &[u8], colour: Colour, action: Action) -> Result<Text, AllocError>
        requires running { IsRunning self.old }
        requires room { HasRoomFor 1 self.old.table }
        ensures taken { IfOk result
            (λ reply. IsTurnTaken colour action id.now self.old reply self.new) }
        ensures same { OnErr result (self.new ≡ self.old) }
    {
        let alloc = self.setup.board().allocator();
        match &mut self.game {
            Some(game) => {
                if !game.whole().side().is(colour) {
                    let reply = refuse(alloc, id, Refusal::NotInTurn)?;
                    return Ok(reply);
                }
                let reply = act(alloc, id, game, action)?;
                Ok(reply)
            }
            // A setup is opened before a turn is taken.
            None => unreachable!(),
        }
    }

    /// The game that the setup opens with the colour to move, if it opens one.
    fn opened<L: Ledger>(
        &self,
        colour: Colour,
        steps: &mut Steps<L>,
    ) -> Result<Option<Player>, AllocError>
        ensures opened { IfOk result (IsOpened self.now.limits.cycles
            self.now.limits.game (with_side self.now.table.setup colour)) }
        ensures steps { (regions : List Region)
            → AreRegionsOfPlay self.now.table.setup.board regions
            → steps.new ≤ steps.old + most_steps self.now.limits.game regions }
    {
        let setup = self.setup.with_side(colour)?;
        let alloc = self.setup.board().allocator();
        let game = open(alloc, &setup, &self.limits.game, self.limits.cycles, steps);
        drop(setup);
        game
    }

    /// Begins a game with the colour to move.
    fn start(&mut self, colour: Colour, game: Player)
        ensures { self.new ≡ with_table self.old
            (record { setup = with_side self.old.table.setup colour; game = Some game }) }
    {
        self.setup.turn_to(colour);
        // A game is large: as a call its drop is one step of the proof.
        drop(mem::replace(&mut self.game, Some(game)));
    }

    /// The first turn in a game that the setup has opened with the colour to move.
    fn begin(
        &mut self,
        id: &[u8],
        colour: Colour,
        action: Action,
        mut game: Player,
    ) -> Result<Text, AllocError>
        requires room { CanTake 1 game }
        ensures begun { IfOk result (λ reply. (after : EngineGame)
            × IsActed action id.now game reply after
            × (self.new ≡ with_table self.old
            (record { setup = with_side self.old.table.setup colour; game = Some after }))) }
        ensures same { OnErr result (self.new ≡ self.old) }
    {
        match act(self.setup.board().allocator(), id, &mut game, action) {
            Ok(reply) => {
                self.start(colour, game);
                Ok(reply)
            }
            Err(cause) => {
                drop(game);
                Err(cause)
            }
        }
    }

    /// A turn of the colour in the game that the fresh setup opens.
    fn set_out<L: Ledger>(
        &mut self,
        id: &[u8],
        colour: Colour,
        action: Action,
        steps: &mut Steps<L>,
    ) -> Result<Text, AllocError>
        requires fresh { IsFresh self.old }
        ensures taken { IfOk result
            (λ reply. IsTurnTaken colour action id.now self.old reply self.new) }
        ensures same { OnErr result (self.new ≡ self.old) }
        ensures steps { (regions : List Region)
            → AreRegionsOfPlay self.old.table.setup.board regions
            → steps.new ≤ steps.old + most_steps self.old.limits.game regions }
    {
        let opened = self.opened(colour, steps)?;
        match opened {
            Some(game) => self.begin(id, colour, action, game),
            None => refuse(self.setup.board().allocator(), id, Refusal::CannotSolve),
        }
    }

    /// A turn of the colour.
    pub(crate) fn take_turn<L: Ledger>(
        &mut self,
        id: &[u8],
        colour: Colour,
        action: Action,
        steps: &mut Steps<L>,
    ) -> Result<Text, AllocError>
        requires room { HasRoomFor 1 self.old.table }
        ensures taken { IfOk result
            (λ reply. IsTurnTaken colour action id.now self.old reply self.new) }
        ensures same { OnErr result (self.new ≡ self.old) }
        ensures steps { (steps.new ≡ steps.old)
            ⊎ OpensWithin self.old.limits self.old.table steps.old steps.new }
    {
        if self.is_running() {
            return self.go_on(id, colour, action);
        }
        self.set_out(id, colour, action, steps)
    }
}
