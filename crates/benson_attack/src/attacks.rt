//! Attacks.

ghost use Rattle.std.specs.Prelude.{◌≡◌, ℕ, IfOk, Err};
ghost use Rattle.go_grid.specs.declared.grid.Colour.{Colour};
ghost use Rattle.go_grid.specs.Chain.{IsSettled, StoneAt};
ghost use Rattle.go_grid.specs.Board.{HasStone, other};
ghost use Rattle.benson_life.specs.Life.{IsAlive};
ghost use Rattle.benson_life.specs.Territory.{IsTerritory};
ghost use Rattle.benson_attack.specs.Attack.{IsAttack};
ghost use Rattle.benson_attack.specs.Attacks.{AreAttacks};
ghost use Rattle.benson_attack.specs.declared.errors.AttackError.TheVariants.{Alive};

use crate::campaign::Campaign;
use crate::errors::AttackError;
use benson_life::Territory;
use go_grid::{Board, Colour, Point};
use std::alloc::{AllocError, Global};

/// How the stones of a board that aren't alive are taken by placings that nobody answers.
#[derive(Drop)]
pub struct Attacks {
    on_black: Campaign,
    on_white: Campaign,
}

impl Attacks {
    /// The attacks on the stones of a settled board with this territory.
    pub fn of(alloc: Global, board: &Board, territory: &Territory) -> Result<Attacks, AllocError>
        requires settled { IsSettled board.now }
        requires territory { IsTerritory board.now territory.now }
        ensures { IfOk result (AreAttacks board.now) }
    {
        Ok(Attacks {
            on_black: Campaign::of(alloc, board, Colour::White, &territory.black.alive)?,
            on_white: Campaign::of(alloc, board, Colour::Black, &territory.white.alive)?,
        })
    }

    /// An attack on the stone at a point: legal placings of the other colour, none of them answered or at a declared
    /// point, after which the point holds no stone of its colour. There are no more of them than the board has points. `Alive` exactly
    /// where the stone lives without answers (Benson 1976).
    pub fn on(&self, alloc: Global, board: &Board, stone: Point) -> Result<Vec<Point>, AttackError>
        requires attacks { AreAttacks board.now self.now }
        requires settled { IsSettled board.now }
        requires stone { StoneAt board.now stone }
        ensures attack { IfOk result (λ placings. (c : Colour) → HasStone board.now c stone
            → IsAttack board.now c stone placings.items) }
        ensures open { IfOk result (λ _. (c : Colour) → ¬ IsAlive board.now c stone) }
        ensures alive { result ≡ Err Alive → (c : Colour) → HasStone board.now c stone
            → IsAlive board.now c stone }
    {
        match board.colour_at(stone) {
            Some(Colour::Black) => self.on_black.on(alloc, board, stone),
            Some(Colour::White) => self.on_white.on(alloc, board, stone),
            // The caller asks of a stone only.
            None => unreachable!(),
        }
    }
}

/// An attack on the stone at a point of a settled board, as `Attacks::on` finds it.
pub fn attack(alloc: Global, board: &Board, stone: Point) -> Result<Vec<Point>, AttackError>
    requires settled { IsSettled board.now }
    requires stone { StoneAt board.now stone }
    ensures attack { IfOk result (λ placings. (c : Colour) → HasStone board.now c stone
        → IsAttack board.now c stone placings.items) }
    ensures open { IfOk result (λ _. (c : Colour) → ¬ IsAlive board.now c stone) }
    ensures alive { result ≡ Err Alive → (c : Colour) → HasStone board.now c stone
        → IsAlive board.now c stone }
{
    let territory = Territory::of(alloc, board)?;
    let attacks = Attacks::of(alloc, board, &territory)?;
    attacks.on(alloc, board, stone)
}
