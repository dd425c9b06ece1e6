//! Solved games in whose regions kos can arise.

ghost use Rattle.std.specs.Prelude.{◌≡◌, ◌+◌, ◌<◌, ◌≤◌, ◌↔◌, List, [], ◌∷◌, MatchOption, None, length};
ghost use Rattle.go_grid.specs.Region.{Region};
ghost use Rattle.region_cut.specs.Cut.{AreRegionsOfPlay};
ghost use Rattle.whole_rules.specs.Opening.{MayTax};
ghost use Rattle.endgame_solver.specs.Faults.{most_steps};
ghost use Rattle.whole_rules.specs.FirstWinningMove.{IsFirstWinning, IsWinner};
ghost use Rattle.whole_rules.specs.Purses.{purse, taken_out};
ghost use Rattle.whole_rules.specs.WholeGame.{IsLegal};
ghost use Rattle.whole_rules.specs.declared.states.Move.TheVariants.{Stone};
ghost use Rattle.endgame_solver.specs.Regions.{region_at};
ghost use Rattle.cycle_solver.specs.Begun.{Begun, IsReport};
ghost use Rattle.cycle_solver.specs.Thresholds.{AreThresholdsFrom};
ghost use Rattle.cycle_solver.specs.Winner.{TellsCaptures, TellsWinner, TellsWinnerAfter};

use crate::asked::Answered;
use crate::asking::{ENOUGH, Present, captures_of, winner_of};
use crate::changes::change_of;
use crate::faults::CycleError;
use crate::shared_games::RegionGames;
use crate::solved_regions::solve_openings;
use crate::thresholds::{Thresholds, thresholds_after, thresholds_of};
use crate::winning_moves::{first_winning_move, winner_after};
use endgame_solver::{Limits, opening_of};
use game_store::{GameId, Store};
use go_grid::{Colour, Point, Region};
use local_play::Steps;
use sgf_go::Setup;
use std::alloc::Global;
use std::marker::Model;
use std::sync::ledger::Ledger;
use sum_outcome::Search;
use whole_rules::{Move, Whole};

/// What is known of a region at the opening: its lowest point, how many points it has, how many positions are reachable, and
/// the values of the opening for Black and for White, with a budget of captures that return that is enough.
#[derive(Clone, Copy)]
pub struct CycleReport {
    pub lowest: Point,
    pub points: u16,
    pub positions: u64,
    pub low: GameId,
    pub high: GameId,
}

/// A state of the whole game with its regions of play, in which kos can arise, all of whose positions have their values
/// for each budget of captures that return. Contracts see the regions, the trees of the store and the present state.
#[derive(Drop)]
pub struct CycleGame {
    pub(crate) whole: Whole,
    pub(crate) store: Store,
    pub(crate) regions: Vec<Region>,
    pub(crate) games: RegionGames,
    /// The places of the regions' present positions in their graphs.
    pub(crate) places: Vec<usize>,
    /// Black's values of the present positions.
    pub(crate) low: Vec<GameId>,
    /// White's values of the present positions.
    pub(crate) high: Vec<GameId>,
    /// It fits the store, so what it remembers serves all questions.
    pub(crate) search: Search,
    /// What was answered on stones of the present state by Black's values.
    pub(crate) low_asked: Vec<Answered>,
    /// What was answered on them by White's values.
    pub(crate) high_asked: Vec<Answered>,
}

impl Model for CycleGame {
    ghost use Rattle.endgame_solver.specs.Solved.{Solved};
    ghost use Rattle.endgame_solver.specs.Code.{solved_code};
    ghost use Rattle.sum_outcome.specs.Memo.{Fits};
    ghost use Rattle.go_grid.specs.Board.{other};
    ghost use Rattle.cycle_solver.specs.Held.{IsKept};
    ghost use Rattle.cycle_solver.specs.inner.Asked.{AreAnswers};

    ghost Value = { Solved };

    ghost coded = { solved_code };

    ghost view = { λ s. record { regions = s.regions.items; trees = s.store; state = s.whole } };

    ghost invariant = { λ s. IsKept s.regions.items s.games s.places.items s.low.items
        s.high.items s.store s.whole × Fits s.store s.search
        × AreAnswers s.store s.low.items (other s.whole.side) s.low_asked.items
        × AreAnswers s.store s.high.items (other s.whole.side) s.high_asked.items };
}

impl CycleGame {
    /// The game that a position opens, with or without a tax, for which nothing may be declared: its regions,
    /// each with its graph and the values of all its positions. Or the first region of more than 32 points; or else the first
    /// with too many positions, a value without a form, or more than `most` captures that return before it is steady. It takes
    /// at most one step for each position of each region.
    pub fn begin<L: Ledger>(
        alloc: Global,
        setup: &Setup,
        tax: bool,
        limits: &Limits,
        most: u8,
        steps: &mut Steps<L>,
    ) -> Result<CycleGame, CycleError>
        requires taxed { MayTax tax setup.now.board }
        ensures begun { Begun setup.now tax limits.now most result }
        ensures steps { (regions : List Region) → AreRegionsOfPlay setup.now.board regions
            → steps.new ≤ steps.old + most_steps limits.now regions }
    {
        let opening = opening_of(alloc, setup, tax)?;
        let found = solve_openings(alloc, &opening.regions, limits, most, steps)?;
        let known = found.known;
        let start = found.start;
        Ok(CycleGame {
            whole: opening.whole,
            store: known.store,
            regions: opening.regions,
            games: found.games,
            places: start.places,
            low: start.low,
            high: start.high,
            search: known.search,
            low_asked: Vec::new(alloc),
            high_asked: Vec::new(alloc),
        })
    }

    /// The present state.
    pub fn whole(&self) -> &Whole
        ensures { result.now ≡ self.now.state }
    {
        &self.whole
    }

    /// The store of the values.
    pub fn store(&self) -> &Store
        ensures { result.now ≡ self.now.trees }
    {
        &self.store
    }

    /// The number of regions of play.
    pub fn regions(&self) -> usize
        ensures { result ≡ length self.now.regions }
    {
        self.regions.len()
    }

    /// What is known of a region's opening, by the region's number.
    pub fn region_report(&self, i: usize) -> CycleReport
        requires { i < length self.now.regions }
        ensures report { IsReport self.now.trees (region_at self.now.regions i) result }
        ensures on_board { result.lowest < length self.now.state.board.cells }
    {
        let points = &self.regions[i].points;
        CycleReport {
            lowest: points[0],
            points: points.len() as u16,
            positions: self.games.positions(i) as u64,
            low: self.games.value_with(i, Colour::Black, ENOUGH, 0),
            high: self.games.value_with(i, Colour::White, ENOUGH, 0),
        }
    }

    /// Takes points out of a player's purse, which is no move: the side to move stays.
    pub fn take_out(&mut self, colour: Colour, points: u64)
        requires { points ≤ purse colour self.old.state.purses }
        ensures { self.new ≡ record self.old {
          state = record self.old.state {
            purses = taken_out colour points self.old.state.purses;
          };
        } }
    {
        self.whole.take_out(colour, points);
    }

    /// The winner of the present state by plain recursion. None exactly where there is none.
    pub fn winner(&mut self) -> Option<Colour>
        ensures winner { TellsWinner self.old.state result }
        ensures same { self.new ≡ self.old }
    {
        let present = Present {
            whole: &self.whole,
            regions: &self.regions,
            games: &self.games,
            places: &self.places,
            store: &self.store,
        };
        winner_of(&present, &mut self.search, &mut self.low, &mut self.high)
    }

    /// With how many captures that return in each region the winner of the present state wins at least. None exactly where
    /// there is no winner.
    pub fn captures(&mut self) -> Option<usize>
        ensures captures { TellsCaptures self.old.regions self.old.state result }
        ensures same { self.new ≡ self.old }
    {
        let present = Present {
            whole: &self.whole,
            regions: &self.regions,
            games: &self.games,
            places: &self.places,
            store: &self.store,
        };
        captures_of(&present, &mut self.search, &mut self.low, &mut self.high)
    }

    /// The first winning move of the present state: stones by point, then `Spend`, then `Half`. None exactly where the side
    /// to move isn't the winner.
    pub fn winning_move(&mut self) -> Option<Move>
        ensures first { IsFirstWinning self.old.state result }
        ensures none { (result ≡ None) ↔ (¬ IsWinner self.old.state self.old.state.side) }
        ensures same { self.new ≡ self.old }
    {
        let present = Present {
            whole: &self.whole,
            regions: &self.regions,
            games: &self.games,
            places: &self.places,
            store: &self.store,
        };
        match present.whole.side() {
            Colour::Black => first_winning_move(&present, &mut self.search, &mut self.low),
            Colour::White => first_winning_move(&present, &mut self.search, &mut self.high),
        }
    }

    /// The winner of the state that a move of the side to move leads to, if it has one. None exactly where the move is
    /// illegal.
    pub fn winner_after(&mut self, chosen: Move) -> Option<Option<Colour>>
        ensures winner { MatchOption result (¬ IsLegal self.old.state chosen)
            (λ x. IsLegal self.old.state chosen × TellsWinnerAfter self.old.state chosen x) }
        ensures same { self.new ≡ self.old }
    {
        let present = Present {
            whole: &self.whole,
            regions: &self.regions,
            games: &self.games,
            places: &self.places,
            store: &self.store,
        };
        winner_after(
            &present,
            &mut self.search,
            &mut self.low,
            &mut self.high,
            &self.low_asked,
            &self.high_asked,
            chosen,
        )
    }

    /// Up to which komi, in half-points, Black wins, and above which White does, where this player moves first, and the board and
    /// the prisoners are those with which the present state opens with the given komi.
    pub fn thresholds(&mut self, komi_halves: i64, first: Colour) -> Thresholds
        ensures thresholds { AreThresholdsFrom self.old.state komi_halves first [] result }
        ensures same { self.new ≡ self.old }
    {
        let present = Present {
            whole: &self.whole,
            regions: &self.regions,
            games: &self.games,
            places: &self.places,
            store: &self.store,
        };
        thresholds_of(
            &present,
            &mut self.search,
            &mut self.low,
            &mut self.high,
            komi_halves,
            first,
        )
    }

    /// The same after a stone of the side to move. None exactly where the stone is illegal.
    pub fn stone_thresholds(&mut self, komi_halves: i64, point: Point) -> Option<Thresholds>
        ensures thresholds { MatchOption result (¬ IsLegal self.old.state (Stone point))
            (λ both. IsLegal self.old.state (Stone point)
            × AreThresholdsFrom self.old.state komi_halves self.old.state.side
            (point ∷ []) both) }
        ensures same { self.new ≡ self.old }
    {
        let present = Present {
            whole: &self.whole,
            regions: &self.regions,
            games: &self.games,
            places: &self.places,
            store: &self.store,
        };
        let change = change_of(&present, Move::Stone(point))?;
        Some(thresholds_after(
            &present,
            &mut self.search,
            &mut self.low,
            &mut self.high,
            &mut self.low_asked,
            &mut self.high_asked,
            komi_halves,
            change,
        ))
    }
}
