//! All captures that unanswered placings of one colour come to.

ghost use Rattle.std.specs.Prelude.{◌≡◌, ℕ, IfOk, Err, MatchOption};
ghost use Rattle.go_grid.specs.Chain.{IsSettled};
ghost use Rattle.go_grid.specs.Board.{HasStone, other};
ghost use Rattle.go_grid.specs.Marks.{Marks};
ghost use Rattle.benson_life.specs.Life.{IsAlive};
ghost use Rattle.benson_attack.specs.inner.Attack.{Takes};
ghost use Rattle.benson_attack.specs.Attacks.{IsCampaign};
ghost use Rattle.benson_attack.specs.inner.Attacks.{IsTakenBy};
ghost use Rattle.benson_attack.specs.declared.errors.AttackError.TheVariants.{Alive};

use crate::captures::{Run, advance, capture, holds};
use crate::errors::AttackError;
use go_grid::{Board, Colour, Point, Points};
use std::alloc::{AllocError, Global};

/// The boards that captures by one colour reach one after the other, until each stone of the other colour that
/// stands is alive.
#[derive(Drop)]
pub(crate) struct Campaign {
    /// The colour that places.
    pub(crate) by: Colour,
    pub(crate) runs: Vec<Run>,
}

impl Campaign {
    /// The captures by a colour on a settled board. The marks are the stones of the other colour that are alive.
    pub(crate) fn of(
        alloc: Global,
        board: &Board,
        by: Colour,
        alive: &Points,
    ) -> Result<Campaign, AllocError>
        requires settled { IsSettled board.now }
        requires alive { Marks alive.now (IsAlive board.now (other by)) }
        ensures by { IfOk result (λ c. c.by ≡ by) }
        ensures campaign { IfOk result (IsCampaign board.now) }
    {
        let mut runs = Vec::new(alloc);
        let mut run = Run::begin(alloc, board)?;
        'capturing: loop {
            match advance(&run, by, alive)? {
                Some(next) => {
                    runs.push(run)?;
                    run = next;
                }
                None => break 'capturing,
            }
        }
        runs.push(run)?;
        Ok(Campaign { by, runs })
    }

    /// The number of the first run that takes a stone.
    fn taking(&self, board: &Board, stone: Point) -> Option<usize>
        requires campaign { IsCampaign board.now self.now }
        requires stone { HasStone board.now (other self.now.by) stone }
        ensures { MatchOption result (IsAlive board.now (other self.now.by) stone)
            (λ i. IsTakenBy board.now self.now.by stone self.now.runs.items i) }
    {
        'looking: for (i, run) in self.runs.iter().enumerate() {
            if !holds(&run.board, stone, self.by.other()) {
                return Some(i);
            }
        }
        None
    }

    /// Placings that take a stone of the other colour: those of a capture of its chain alone where there is one,
    /// and else those of the first run that takes it.
    pub(crate) fn on(
        &self,
        alloc: Global,
        board: &Board,
        stone: Point,
    ) -> Result<Vec<Point>, AttackError>
        requires settled { IsSettled board.now }
        requires campaign { IsCampaign board.now self.now }
        requires stone { HasStone board.now (other self.now.by) stone }
        ensures taken { IfOk result (λ placings. Takes board.now self.now.by stone placings.items) }
        ensures alive { result ≡ Err Alive → IsAlive board.now (other self.now.by) stone }
    {
        let Some(first) = self.taking(board, stone) else {
            return Err(AttackError::Alive);
        };
        let mut alone = Run::begin(alloc, board)?;
        if capture(&mut alone, stone, self.by)? {
            return Ok(alone.placings);
        }
        let placings = self.runs[first].listed()?;
        Ok(placings)
    }
}
