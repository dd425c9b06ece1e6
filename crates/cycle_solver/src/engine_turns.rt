//! Moves that are made, and what the engine asks for its own: budgets, and moves that keep them or hold off.

ghost use Rattle.std.specs.Prelude.{◌≡◌, ◌<◌, ◌↔◌, List, ℕ, IfSome, IsTrue, MatchOption, None, length, replicate};
ghost use Rattle.whole_rules.specs.declared.states.Move.{Move};
ghost use Rattle.whole_rules.specs.FirstWinningMove.{IsWinner};
ghost use Rattle.whole_rules.specs.WholeGame.{Applies, IsMove, Whole};
ghost use Rattle.whole_budgets.specs.EnginePlay.{AreLeastCaptures, AreListedAfter, AreReducedBelow, HoldsOff, IsFirstKeeping, KeepsWinning, WinsWithList};
ghost use Rattle.go_grid.specs.declared.grid.Colour.TheVariants.{Black, White};
ghost use Rattle.cycle_solver.specs.Changes.{IsBehind, places_after};
ghost use Rattle.cycle_solver.specs.Held.{AreSummed, IsSeenFor, enough};
ghost use Rattle.cycle_solver.specs.Keeping.{HasRoom, IsFirstOf, Keeps};

use crate::asking::{ENOUGH, Present, mover_captures};
use crate::changes::{change_of, put_change};
use crate::cycle_game::CycleGame;
use crate::holding_moves::first_holding;
use crate::keeping_moves::{first_keeping, pay};
use crate::least_budgets::{reduce, wins_listed};
use game_store::GameId;
use go_grid::Colour;
use whole_rules::{Move, MoveError, Whole};

/// Puts the values behind a move into both players' sums. What a legal stone changes comes back: its region and the place that
/// it leads to.
fn put_values(
    present: &Present<'_>,
    low: &mut [GameId],
    high: &mut [GameId],
    chosen: Move,
) -> Option<(usize, usize)>
    requires low { IsSeenFor present.now Black enough low.old }
    requires high { IsSeenFor present.now White enough high.old }
    ensures behind { IsBehind present.now chosen result }
    ensures low { AreSummed present.now.games.now (places_after present.now.places.now result)
        Black enough low.new }
    ensures high { AreSummed present.now.games.now (places_after present.now.places.now result)
        White enough high.new }
{
    let change = change_of(present, chosen)?;
    let _low = put_change(present, low, change, Colour::Black, ENOUGH);
    let _high = put_change(present, high, change, Colour::White, ENOUGH);
    change.stone
}

/// Puts the place that a stone leads to, if there is one.
fn put_place(places: &mut [usize], stone: Option<(usize, usize)>)
    requires known { IfSome stone (λ x. x.0 < length places.old) }
    ensures { places.new ≡ places_after places.old stone }
{
    if let Some((k, place)) = stone {
        places[k] = place;
    }
}

/// Whether both purses can take what one more move pays in.
fn has_room(whole: &Whole) -> bool
    ensures { IsTrue result ↔ HasRoom whole.now }
{
    let most = (1 << 41) - 33;
    whole.purse(Colour::Black) <= most && whole.purse(Colour::White) <= most
}

impl CycleGame {
    /// Whether the purses can take what one more move pays in. Where kos can arise, no number of moves bounds a game.
    pub fn has_room(&self) -> bool
        ensures { IsTrue result ↔ HasRoom self.now.state }
    {
        has_room(&self.whole)
    }

    /// Makes a move of the side to move, or leaves the game as it was where the move is illegal.
    pub fn play(&mut self, chosen: Move) -> Result<(), MoveError>
        requires room { HasRoom self.old.state }
        ensures applied { Applies self.old.state chosen self.new.state result }
        ensures regions { self.new.regions ≡ self.old.regions }
        ensures trees { self.new.trees ≡ self.old.trees }
    {
        let present = Present {
            whole: &self.whole,
            regions: &self.regions,
            games: &self.games,
            places: &self.places,
            store: &self.store,
        };
        self.low_asked.clear();
        self.high_asked.clear();
        let asked = chosen;
        let stone = put_values(&present, &mut self.low, &mut self.high, asked);
        put_place(&mut self.places, stone);
        self.whole.apply(chosen)
    }

    /// Whether a player wins with a budget for each region.
    pub fn wins_with(&mut self, player: Colour, budgets: &[usize]) -> bool
        requires { length budgets.now ≡ length self.old.regions }
        ensures wins { IsTrue result
            ↔ WinsWithList self.old.regions player self.old.state budgets.now }
        ensures same { self.new ≡ self.old }
    {
        let present = Present {
            whole: &self.whole,
            regions: &self.regions,
            games: &self.games,
            places: &self.places,
            store: &self.store,
        };
        match player {
            Colour::Black => wins_listed(
                &present,
                &mut self.search,
                &mut self.low,
                Colour::Black,
                budgets,
            ),
            Colour::White => wins_listed(
                &present,
                &mut self.search,
                &mut self.high,
                Colour::White,
                budgets,
            ),
        }
    }

    /// With how many captures that return in each region the side to move wins at least. None exactly where it isn't the winner.
    pub fn mover_captures(&mut self) -> Option<usize>
        ensures captures { MatchOption result
            (¬ IsWinner self.old.state self.old.state.side)
            (λ n. AreLeastCaptures self.old.regions self.old.state self.old.state.side n) }
        ensures wins { IfSome result (λ n. WinsWithList self.old.regions self.old.state.side
            self.old.state (replicate (length self.old.regions) n)) }
        ensures same { self.new ≡ self.old }
    {
        let present = Present {
            whole: &self.whole,
            regions: &self.regions,
            games: &self.games,
            places: &self.places,
            store: &self.store,
        };
        match present.whole.side() {
            Colour::Black => mover_captures(&present, &mut self.search, &mut self.low),
            Colour::White => mover_captures(&present, &mut self.search, &mut self.high),
        }
    }

    /// Reduces budgets with which the side to move wins to the least that serve, one region after the other.
    pub fn reduce(&mut self, budgets: &mut [usize])
        requires many { length budgets.old ≡ length self.old.regions }
        requires wins { WinsWithList self.old.regions self.old.state.side self.old.state
            budgets.old }
        ensures reduced { AreReducedBelow self.old.regions self.old.state
            (length self.old.regions) budgets.old budgets.new }
        ensures many { length budgets.new ≡ length self.old.regions }
        ensures wins { WinsWithList self.old.regions self.old.state.side self.old.state
            budgets.new }
        ensures same { self.new ≡ self.old }
    {
        let present = Present {
            whole: &self.whole,
            regions: &self.regions,
            games: &self.games,
            places: &self.places,
            store: &self.store,
        };
        match present.whole.side() {
            Colour::Black => reduce(&present, &mut self.search, &mut self.low, budgets),
            Colour::White => reduce(&present, &mut self.search, &mut self.high, budgets),
        }
    }

    /// The first move behind which the side to move wins with the budgets that it leaves. None exactly where no move does so,
    /// and not where that side wins with the budgets.
    pub fn keeping_move(&mut self, budgets: &[usize]) -> Option<Move>
        requires { length budgets.now ≡ length self.old.regions }
        ensures first { MatchOption result ((m : Move) (t : Whole) (cs : List ℕ)
            → ¬ KeepsWinning self.old.regions self.old.state budgets.now m t cs)
            (λ m. (t : Whole) × (cs : List ℕ)
            × IsFirstKeeping self.old.regions self.old.state budgets.now m t cs) }
        ensures found { (result ≡ None) → ¬ WinsWithList self.old.regions self.old.state.side
            self.old.state budgets.now }
        ensures same { self.new ≡ self.old }
    {
        let present = Present {
            whole: &self.whole,
            regions: &self.regions,
            games: &self.games,
            places: &self.places,
            store: &self.store,
        };
        match present.whole.side() {
            Colour::Black => first_keeping(&present, &mut self.search, &mut self.low, budgets),
            Colour::White => first_keeping(&present, &mut self.search, &mut self.high, budgets),
        }
    }

    /// Takes from the budgets what a move uses up that keeps the side to move winning.
    pub fn pay(&self, chosen: Move, budgets: &mut [usize])
        requires many { length budgets.old ≡ length self.now.regions }
        requires keeps { Keeps self.now.regions self.now.state budgets.old chosen }
        ensures { (t : Whole) → IsMove self.now.state chosen t
            → AreListedAfter self.now.regions self.now.state chosen t
            budgets.old budgets.new }
    {
        let present = Present {
            whole: &self.whole,
            regions: &self.regions,
            games: &self.games,
            places: &self.places,
            store: &self.store,
        };
        pay(&present, chosen, budgets);
    }

    /// The first move behind which the other side isn't the winner. None exactly where there is none.
    pub fn held_off(&mut self) -> Option<Move>
        ensures first { IsFirstOf (HoldsOff self.old.state) result }
        ensures same { self.new ≡ self.old }
    {
        let present = Present {
            whole: &self.whole,
            regions: &self.regions,
            games: &self.games,
            places: &self.places,
            store: &self.store,
        };
        match present.whole.side() {
            Colour::Black => first_holding(&present, &mut self.search, &mut self.high),
            Colour::White => first_holding(&present, &mut self.search, &mut self.low),
        }
    }
}
