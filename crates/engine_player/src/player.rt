//! A game that the engine plays.

ghost use Rattle.std.specs.Prelude.{◌≡◌, IfSome, MatchOption, None, Some};
ghost use Rattle.endgame_solver.specs.Solved.{Chooses, HasMove};
ghost use Rattle.whole_rules.specs.WholeGame.{IsLegal, IsMove};
ghost use Rattle.engine_player.specs.EngineGame.{EngineGoes, GoesByHand, IsEngineMove};
ghost use Rattle.engine_player.specs.Room.{CanTake};

use crate::cycle_player::CyclePlayer;
use endgame_solver::Solved;
use std::marker::Model;
use whole_rules::{Move, MoveError, Whole};

/// A game whose regions have no cycles, or may have them.
#[derive(Drop)]
pub(crate) enum Game {
    Plain(Solved),
    Cycles(CyclePlayer),
}

/// A game that the engine plays, for either colour. Contracts see its state, and where kos are admitted what each colour keeps.
#[derive(Drop)]
pub struct Player {
    game: Game,
}

impl Model for Player {
    ghost use Rattle.engine_player.specs.EngineGame.{EngineGame};
    ghost use Rattle.engine_player.specs.inner.Viewed.{seen_of};

    ghost Value = { EngineGame };

    ghost view = { λ p. seen_of p.game };
}

/// Makes the move that was chosen.
fn make(solved: &mut Solved, chosen: Move)
    requires { Chooses solved.old.state chosen }
    ensures { IsMove solved.old.state chosen solved.new.state }
{
    match solved.play(chosen) {
        Ok(()) => {}
        // The move that is chosen is legal.
        Err(_) => unreachable!(),
    }
}

impl Player {
    /// A game whose regions have no cycles.
    pub fn without_cycles(solved: Solved) -> Player
        ensures { result ≡ record { state = solved.state; keeping = None } }
    {
        Player {
            game: Game::Plain(solved),
        }
    }

    /// A game in which kos can arise.
    pub fn with_cycles(game: CyclePlayer) -> Player
        ensures { result ≡ record { state = game.state; keeping = Some game.keeping } }
    {
        Player {
            game: Game::Cycles(game),
        }
    }

    /// The present state.
    pub fn whole(&self) -> &Whole
        ensures { result.now ≡ self.now.state }
    {
        match &self.game {
            Game::Plain(solved) => solved.whole(),
            Game::Cycles(game) => game.whole(),
        }
    }

    /// The engine's move for the side to move. None exactly where there is no move.
    pub fn choose(&mut self) -> Option<Move>
        ensures choice { MatchOption result (¬ HasMove self.old.state)
            (λ m. IsEngineMove self.old m) }
        ensures legal { IfSome result (λ m. IsLegal self.old.state m) }
        ensures same { self.new ≡ self.old }
    {
        match &mut self.game {
            Game::Plain(solved) => solved.choose(),
            Game::Cycles(game) => game.choose(),
        }
    }

    /// Makes the move that the engine has chosen for the side to move.
    pub fn make(&mut self, chosen: Move)
        requires chosen { IsEngineMove self.old chosen }
        requires room { CanTake 1 self.old }
        ensures made { EngineGoes self.old chosen self.new }
    {
        match &mut self.game {
            Game::Plain(solved) => make(solved, chosen),
            Game::Cycles(game) => game.make(chosen),
        }
    }

    /// Makes a move of the side to move by hand, or leaves the game as it was where the move is illegal.
    pub fn play(&mut self, chosen: Move) -> Result<(), MoveError>
        requires room { CanTake 1 self.old }
        ensures { GoesByHand self.old chosen result self.new }
    {
        match &mut self.game {
            Game::Plain(solved) => solved.play(chosen),
            Game::Cycles(game) => game.play(chosen),
        }
    }
}
