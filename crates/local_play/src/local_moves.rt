//! The local moves of a position, one after another.

ghost use Rattle.std.specs.Prelude.{◌≡◌, ℕ, ◌+◌, ◌<◌, ◌≤◌, List, [], length, true, IfSome, MatchOption};
ghost use Rattle.go_grid.specs.declared.grid.Cell.{Cell};
ghost use Rattle.go_grid.specs.declared.region.Touch.{Touch};
ghost use Rattle.local_play.specs.Packed.{pack};
ghost use Rattle.local_play.specs.Links.{IsTable};
ghost use Rattle.local_play.specs.GivenMoves.{HaveGiven, HaveGivenTurn, IsGiven, IsPassed, tries_left};
ghost use Rattle.local_play.specs.inner.Taking.{IsTaken};

use crate::links::Links;
use crate::local::Local;
use crate::local_move::{LocalMove, Turn};
use crate::places::{MOST_PLACES, Places};
use crate::steps::Steps;
use go_grid::Colour;
use std::sync::ledger::Ledger;

/// The legal local moves of a position that are still to be given: Black's by place and then White's.
#[derive(Clone, Copy)]
pub struct LocalMoves {
    /// Whose moves come next.
    turn: Turn,
    /// The empty places that its stone wasn't tried at.
    rest: Places,
}

impl LocalMoves {
    /// All moves of a position of the region that the links are of. It takes one step.
    #[inline(always)]
    pub fn of<L: Ledger>(links: &Links, from: Local, steps: &mut Steps<L>) -> LocalMoves
        ensures none { (touch : List Touch) (cells : List Cell) → IsTable touch links.now
            → length cells ≡ length touch → from ≡ pack cells
            → HaveGiven touch cells [] result }
        ensures step { steps.new ≡ steps.old + 1 }
    {
        steps.tick();
        let turn = Turn::of(links, from);
        LocalMoves {
            turn,
            rest: turn.empty,
        }
    }

    /// The next empty place at which a stone is tried.
    #[inline(always)]
    fn take_place(&mut self) -> Option<usize>
        ensures taken { (touch : List Touch) (cells : List Cell) (given : List LocalMove)
            → HaveGiven touch cells given self.old
            → IsTaken touch cells given self.new result }
        ensures small { IfSome result (λ place. place < MOST_PLACES) }
        ensures fewer { MatchOption result (tries_left self.new ≤ tries_left self.old)
            (λ _. tries_left self.new < tries_left self.old) }
    {
        let Some(place) = self.rest.first() else {
            return None;
        };
        self.rest = self.rest.without(Places::of(place));
        Some(place)
    }

    /// The next move of the colour whose turn it is, until there is none.
    #[inline(always)]
    pub fn next(&mut self, links: &Links) -> Option<LocalMove>
        ensures given { (touch : List Touch) (cells : List Cell) (given : List LocalMove)
            → IsTable touch links.now → HaveGiven touch cells given self.old
            → IsGiven touch cells given self.new result }
        ensures fewer { MatchOption result (tries_left self.new ≤ tries_left self.old)
            (λ _. tries_left self.new < tries_left self.old) }
    {
        'trying: while let Some(place) = self.take_place() {
            if let Some(found) = self.turn.try_stone(links, place) {
                return Some(found);
            }
        }
        None
    }

    /// It is White's turn after Black's. Answers whether it was Black's.
    #[inline(always)]
    pub fn pass_on(&mut self) -> bool
        ensures given { (touch : List Touch) (cells : List Cell) (given : List LocalMove)
            → HaveGivenTurn touch cells given self.old
            → IsPassed touch cells given self.new result }
        ensures fewer { result ≡ true → tries_left self.new < tries_left self.old }
    {
        match self.turn.colour {
            Colour::Black => {
                self.turn = self.turn.other();
                self.rest = self.turn.empty;
                true
            }
            Colour::White => false,
        }
    }
}
