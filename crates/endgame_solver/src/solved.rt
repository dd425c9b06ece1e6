//! Solved games.

ghost use Rattle.std.specs.Prelude.{◌≡◌, ℕ, ℤ, ◌+◌, ◌<◌, ◌≤◌, ◌^◌, ◌↔◌, List, [], ◌∷◌, length, unsigned_abs, All, None, IfOk, IfSome, IsTrue, MatchOption};
ghost use Rattle.go_grid.specs.Region.{Region};
ghost use Rattle.go_grid.specs.Board.{other};
ghost use Rattle.whole_rules.specs.declared.states.Move.TheVariants.{Stone};
ghost use Rattle.whole_rules.specs.FirstWinningMove.{IsFirstWinning, IsLosing, IsWinner, IsWinning};
ghost use Rattle.whole_rules.specs.Purses.{purse, taken_out};
ghost use Rattle.whole_rules.specs.Threshold.{stones};
ghost use Rattle.whole_rules.specs.Walls.{Plays};
ghost use Rattle.whole_rules.specs.WholeGame.{Applies, IsLegal, IsMove};
ghost use Rattle.sum_outcome.specs.Memo.{Fits};
ghost use Rattle.game_players.specs.Players.{LosesGame};
ghost use Rattle.sum_outcome.specs.Sums.{sum_tree};
ghost use Rattle.endgame_solver.specs.Regions.{region_at};
ghost use Rattle.endgame_solver.specs.Faults.{most_steps};
ghost use Rattle.endgame_solver.specs.PlayLine.{IsLineFrom};
ghost use Rattle.endgame_solver.specs.Thresholds.{IsThresholdFrom};
ghost use Rattle.endgame_solver.specs.inner.Line.{HasFewStones, TellsNext};
ghost use Rattle.endgame_solver.specs.inner.Thresholds.{IsMargin};
ghost use Rattle.region_cut.specs.Cut.{AreRegionsOfPlay};
ghost use Rattle.whole_rules.specs.Opening.{MayTax};
ghost use Rattle.endgame_solver.specs.Solved.{Begun, IsNumberOfShapes, IsPresent, ArePresent, IsReport, balance_units};

use crate::asked::{Answered, stone_margin};
use crate::balance::balance_of;
use crate::faults::SolveError;
use crate::limits::Limits;
use crate::line_of_play::next_stone;
use crate::outcomes::outcome;
use crate::regions_of_play::opening_of;
use crate::solved_regions::solve_openings;
use crate::thresholds::{margin, raised};
use crate::view_book::Book;
use crate::winning_moves::{
    Present, first_winning_move, mover_loses, positions_seen, stone_edge, value_seen,
};
use dyadic_num::Dyadic;
use game_store::{GameId, Store};
use go_grid::{Colour, Point, Region};
use go_play::Setup;
use local_play::Steps;
use std::alloc::{AllocError, Global};
use std::marker::Model;
use std::sync::ledger::Ledger;
use sum_outcome::Search;
use whole_rules::{Move, MoveError, Whole};

/// What is known of a region at the opening: its lowest point, how many points it has, how many positions are reachable,
/// and the value of the opening.
#[derive(Clone, Copy)]
pub struct RegionReport {
    pub lowest: Point,
    pub points: u16,
    pub positions: u64,
    pub value: GameId,
}

/// A state of the whole game with its regions of play, all of whose positions have their values. Contracts see the
/// regions, the trees of the store and the present state.
#[derive(Drop)]
pub struct Solved {
    whole: Whole,
    store: Store,
    regions: Vec<Region>,
    /// The graphs and the values of the regions, one graph for each shape of an opening.
    book: Book,
    /// The place of each region's present position in its graph.
    places: Vec<usize>,
    /// The values of the present positions.
    sum: Vec<GameId>,
    /// It fits the store, so what it remembers serves all questions.
    search: Search,
    /// What was answered on stones of the present state, once for each two games that stones of it take and put.
    asked: Vec<Answered>,
}

impl Model for Solved {
    ghost use Rattle.endgame_solver.specs.Solved.{Solved};
    ghost use Rattle.endgame_solver.specs.inner.Views.{IsHeldInBook};
    ghost use Rattle.endgame_solver.specs.inner.Asked.{AreAnswers};
    ghost use Rattle.go_grid.specs.Board.{other};
    ghost use Rattle.sum_outcome.specs.Memo.{Fits};
    ghost use Rattle.endgame_solver.specs.Code.{solved_code};

    ghost Value = { Solved };

    ghost coded = { solved_code };

    ghost view = { λ s. record { regions = s.regions.items; trees = s.store; state = s.whole } };

    ghost invariant = { λ s. IsHeldInBook s.regions.items s.book s.places.items s.sum.items
        s.store s.whole × Fits s.store s.search
        × AreAnswers s.store s.sum.items (other s.whole.side) s.asked.items };
}

impl Solved {
    /// The game that a position opens, with or without a tax, for which nothing may be declared: its regions, each with
    /// its graph and the values of all its positions. Or the first region of more than 32 points; or else the first with too many positions,
    /// a cycle or a value without a form. It takes at most one step for each position of each region.
    pub fn begin<L: Ledger>(
        alloc: Global,
        setup: &Setup,
        tax: bool,
        limits: &Limits,
        steps: &mut Steps<L>,
    ) -> Result<Solved, SolveError>
        requires taxed { MayTax tax setup.now.board }
        ensures begun { Begun setup.now tax limits.now result }
        ensures steps { (regions : List Region) → AreRegionsOfPlay setup.now.board regions
            → steps.new ≤ steps.old + most_steps limits.now regions }
    {
        let _most = limits.positions();
        let opening = opening_of(alloc, setup, tax)?;
        let found = solve_openings(alloc, &opening.regions, limits, steps)?;
        let known = found.known;
        let start = found.start;
        Ok(Solved {
            whole: opening.whole,
            store: known.store,
            regions: opening.regions,
            book: found.book,
            places: start.places,
            sum: start.sum,
            search: known.search,
            asked: Vec::new(alloc),
        })
    }

    /// The present state.
    pub fn whole(&self) -> &Whole
        ensures { result.now ≡ self.now.state }
    {
        &self.whole
    }

    /// The store of the values.
    pub fn store(&self) -> &Store
        ensures { result.now ≡ self.now.trees }
    {
        &self.store
    }

    /// The number of regions of play.
    pub fn regions(&self) -> usize
        ensures { result ≡ length self.now.regions }
    {
        self.regions.len()
    }

    /// The number of different shapes of the openings of the regions.
    pub fn shapes(&self) -> usize
        ensures { IsNumberOfShapes self.now.regions result }
    {
        self.book.graphs.len()
    }

    /// What is known of a region's opening, by the region's number.
    pub fn region_report(&self, i: usize) -> RegionReport
        requires { i < length self.now.regions }
        ensures report { IsReport self.now.trees (region_at self.now.regions i) result }
        ensures on_board { result.lowest < length self.now.state.board.cells }
    {
        let points = &self.regions[i].points;
        RegionReport {
            lowest: points[0],
            points: points.len() as u16,
            positions: positions_seen(&self.book, i) as u64,
            value: value_seen(&self.book, i, 0),
        }
    }

    /// The value of the present position of a region.
    pub fn present(&self, i: usize) -> GameId
        requires { i < length self.now.regions }
        ensures { IsPresent self.now i result }
    {
        self.sum[i]
    }

    /// Black's purse less White's, and 1/2 more where the token is Black's, 1/2 less where it is White's.
    pub fn balance(&self) -> Dyadic
        ensures { result ≡ balance_units self.now.state }
    {
        balance_of(self.whole.purses())
    }

    /// The winner of the present state by plain recursion. It is who isn't to move exactly where the sum of the present
    /// values and the balance is at most 0 for Black to move, at least 0 for White.
    pub fn winner(&mut self) -> Colour
        ensures plain { IsWinner self.old.state result }
        ensures sum { (ids : List ℕ) → ArePresent self.old ids
            → (result ≡ other self.old.state.side) ↔ LosesGame self.old.state.side
            (sum_tree self.old.trees ids (balance_units self.old.state)) }
        ensures same { self.new ≡ self.old }
    {
        let side = self.whole.side();
        let present = Present {
            whole: &self.whole,
            regions: &self.regions,
            book: &self.book,
            places: &self.places,
            store: &self.store,
        };
        if mover_loses(&present, &mut self.search, &mut self.sum) {
            return side.other();
        }
        side
    }

    /// The first winning move of the present state: stones by point, then `Spend`, then `Half`. None exactly where the
    /// side to move loses.
    pub fn winning_move(&mut self) -> Option<Move>
        ensures first { IsFirstWinning self.old.state result }
        ensures none { (result ≡ None) ↔ IsLosing self.old.state }
        ensures same { self.new ≡ self.old }
    {
        let present = Present {
            whole: &self.whole,
            regions: &self.regions,
            book: &self.book,
            places: &self.places,
            store: &self.store,
        };
        first_winning_move(&present, &mut self.search, &mut self.sum)
    }

    /// Up to which komi, in half-points, Black wins where this player moves first, and the board and the prisoners are those
    /// with which the present state opens with the given komi.
    pub fn threshold(&mut self, komi_halves: i64, first: Colour) -> i64
        ensures threshold { IsThresholdFrom self.old.state komi_halves first [] result }
        ensures small { unsigned_abs komi_halves ≤ 2 ^ 24 → unsigned_abs result ≤ 2 ^ 47 }
        ensures same { self.new ≡ self.old }
    {
        let present = Present {
            whole: &self.whole,
            regions: &self.regions,
            book: &self.book,
            places: &self.places,
            store: &self.store,
        };
        let beyond = margin(&present, &mut self.search, &mut self.sum, first);
        raised(komi_halves, beyond)
    }

    /// Up to which komi, in half-points, Black wins after a stone of the side to move, where the board and the prisoners are
    /// those with which the present state opens with the given komi. None exactly where the stone is illegal.
    pub fn stone_threshold(&mut self, komi_halves: i64, point: Point) -> Option<i64>
        ensures threshold { MatchOption result (¬ IsLegal self.old.state (Stone point))
            (λ K. IsLegal self.old.state (Stone point)
            × IsThresholdFrom self.old.state komi_halves self.old.state.side (point ∷ []) K) }
        ensures small { unsigned_abs komi_halves ≤ 2 ^ 24
            → IfSome result (λ K. unsigned_abs K ≤ 2 ^ 47) }
        ensures same { self.new ≡ self.old }
    {
        let present = Present {
            whole: &self.whole,
            regions: &self.regions,
            book: &self.book,
            places: &self.places,
            store: &self.store,
        };
        let beyond = stone_margin(
            &present,
            &mut self.search,
            &mut self.sum,
            &mut self.asked,
            point,
        )?;
        Some(raised(komi_halves, beyond))
    }

    /// How many halves of a point the threshold of the side to move is above the komi.
    fn beyond(&mut self) -> i64
        ensures beyond { IsMargin self.old.state self.old.state.side [] result }
        ensures small { unsigned_abs result ≤ 2 ^ 46 }
        ensures few { HasFewStones self.old.state }
        ensures same { self.new ≡ self.old }
    {
        let side = self.whole.side();
        let present = Present {
            whole: &self.whole,
            regions: &self.regions,
            book: &self.book,
            places: &self.places,
            store: &self.store,
        };
        margin(&present, &mut self.search, &mut self.sum, side)
    }

    /// The next stone of the line of play, where the threshold is so many halves of a point above the komi.
    fn next_stone(&mut self, beyond: i64) -> Option<Point>
        requires small { unsigned_abs beyond ≤ 2 ^ 46 }
        ensures next { TellsNext self.old.regions self.old.state beyond result }
        ensures legal { IfSome result (λ p. IsLegal self.old.state (Stone p)) }
        ensures same { self.new ≡ self.old }
    {
        let present = Present {
            whole: &self.whole,
            regions: &self.regions,
            book: &self.book,
            places: &self.places,
            store: &self.store,
        };
        next_stone(&present, &mut self.search, &mut self.sum, beyond)
    }

    /// Plays a legal stone.
    fn put(&mut self, point: Point)
        requires { IsLegal self.old.state (Stone point) }
        ensures moved { IsMove self.old.state (Stone point) self.new.state }
        ensures regions { self.new.regions ≡ self.old.regions }
        ensures trees { self.new.trees ≡ self.old.trees }
    {
        let _played = self.play(Move::Stone(point));
    }

    /// The line of play of the present state, where that is an opening: as long as some region is no number, the best stone
    /// in such regions, of the greatest threshold where Black moves and the least where White does, and of several the first
    /// by point. The stones are played.
    pub fn line(&mut self, alloc: Global) -> Result<Vec<Point>, AllocError>
        ensures line { IfOk result (λ line. (k : ℤ)
            → IsLineFrom self.old.regions self.old.state k line.items) }
        ensures played { IfOk result (λ line. Plays self.old.state (stones line.items)
            self.new.state) }
        ensures on_board { IfOk result
            (λ line. All (λ p. p < length self.old.state.board.cells) line.items) }
        ensures regions { self.new.regions ≡ self.old.regions }
        ensures trees { self.new.trees ≡ self.old.trees }
    {
        let beyond = self.beyond();
        let mut line = Vec::new(alloc);
        'stones: while let Some(point) = self.next_stone(beyond) {
            line.push(point)?;
            self.put(point);
        }
        Ok(line)
    }

    /// Whether a move of the side to move leads to a state whose mover loses. None exactly where the move is illegal.
    pub fn wins(&mut self, chosen: Move) -> Option<bool>
        ensures wins { MatchOption result (¬ IsLegal self.old.state chosen)
            (λ wins. IsLegal self.old.state chosen
            × (IsTrue wins ↔ IsWinning self.old.state chosen)) }
        ensures same { self.new ≡ self.old }
    {
        let present = Present {
            whole: &self.whole,
            regions: &self.regions,
            book: &self.book,
            places: &self.places,
            store: &self.store,
        };
        outcome(
            &present,
            &mut self.search,
            &mut self.sum,
            &self.asked,
            chosen,
        )
    }

    /// Takes points out of a player's purse, which is no move: the side to move stays.
    pub fn take_out(&mut self, colour: Colour, points: u64)
        requires { points ≤ purse colour self.old.state.purses }
        ensures { self.new ≡ record self.old {
          state = record self.old.state {
            purses = taken_out colour points self.old.state.purses;
          };
        } }
    {
        self.whole.take_out(colour, points);
    }

    /// Makes a move of the side to move, or leaves the game as it was where the move is illegal, as `Whole::apply` does.
    pub fn play(&mut self, chosen: Move) -> Result<(), MoveError>
        ensures applied { Applies self.old.state chosen self.new.state result }
        ensures regions { self.new.regions ≡ self.old.regions }
        ensures trees { self.new.trees ≡ self.old.trees }
    {
        self.asked.clear();
        let Move::Stone(point) = chosen else {
            return self.whole.apply(chosen);
        };
        let side = self.whole.side();
        let edge = stone_edge(&self.regions, &self.book, &self.places, point, side);
        self.whole.apply(chosen)?;
        if let Some((k, edge)) = edge {
            self.places[k] = edge.next;
            self.sum[k] = value_seen(&self.book, k, edge.next);
        }
        Ok(())
    }
}
