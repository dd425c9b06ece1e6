//! The first winning move, and who wins behind a move.

ghost use Rattle.std.specs.Prelude.{◌≡◌, ◌↔◌, IsTrue, MatchOption};
ghost use Rattle.go_grid.specs.Board.{other};
ghost use Rattle.go_grid.specs.declared.grid.Colour.TheVariants.{Black, White};
ghost use Rattle.sum_outcome.specs.Memo.{Fits};
ghost use Rattle.whole_rules.specs.declared.states.Move.TheVariants.{Stone};
ghost use Rattle.whole_rules.specs.FirstWinningMove.{IsFirstWinning, IsWinning};
ghost use Rattle.whole_rules.specs.WholeGame.{IsLegal};
ghost use Rattle.endgame_solver.specs.inner.Held.{IsFirstStone};
ghost use Rattle.cycle_solver.specs.Held.{IsSeenFor, enough};
ghost use Rattle.cycle_solver.specs.Winner.{TellsWinnerAfter};
ghost use Rattle.cycle_solver.specs.inner.Asked.{AreAnswers};

use crate::asked::{Answered, wins_behind};
use crate::asking::{Present, wins};
use crate::changes::{change_of, wins_after};
use crate::one_sum::is_one_behind;
use game_store::GameId;
use go_grid::{Colour, Point};
use sum_outcome::Search;
use whole_rules::Move;

/// Whether a move of the side to move wins. The sum has that side's values.
fn move_wins(present: &Present<'_>, search: &mut Search, sum: &mut [GameId], chosen: Move) -> bool
    requires seen { IsSeenFor present.now present.now.whole.now.side enough sum.old }
    requires fits { Fits present.now.store.now search.old }
    ensures wins { IsTrue result ↔ IsWinning present.now.whole.now chosen }
    ensures same { sum.new ≡ sum.old }
    ensures fits { Fits present.now.store.now search.new }
{
    let side = present.whole.side();
    match change_of(present, chosen) {
        None => false,
        Some(change) => wins_after(present, search, sum, change, side),
    }
}

/// Whether a stone of the side to move wins, as at contested points alone it may. The sum has that side's values.
fn stone_wins(present: &Present<'_>, search: &mut Search, sum: &mut [GameId], point: Point) -> bool
    requires seen { IsSeenFor present.now present.now.whole.now.side enough sum.old }
    requires fits { Fits present.now.store.now search.old }
    ensures wins { IsTrue result ↔ IsWinning present.now.whole.now (Stone point) }
    ensures same { sum.new ≡ sum.old }
    ensures fits { Fits present.now.store.now search.new }
{
    if !present.whole.contested(point) {
        return false;
    }
    move_wins(present, search, sum, Move::Stone(point))
}

/// The lowest point at which a stone wins.
fn winning_stone(present: &Present<'_>, search: &mut Search, sum: &mut [GameId]) -> Option<Point>
    requires seen { IsSeenFor present.now present.now.whole.now.side enough sum.old }
    requires fits { Fits present.now.store.now search.old }
    ensures first { IsFirstStone present.now.whole.now result }
    ensures same { sum.new ≡ sum.old }
    ensures fits { Fits present.now.store.now search.new }
{
    'points: for number in 0..present.whole.board().size().area() {
        if stone_wins(present, search, sum, Point(number)) {
            return Some(Point(number));
        }
    }
    None
}

/// The first move that wins: a stone, else a point given back, else the half, which needs no question where the side to
/// move wins by no other move. The sum has the values of the side to move.
pub(crate) fn first_winning_move(
    present: &Present<'_>,
    search: &mut Search,
    sum: &mut [GameId],
) -> Option<Move>
    requires seen { IsSeenFor present.now present.now.whole.now.side enough sum.old }
    requires fits { Fits present.now.store.now search.old }
    ensures first { IsFirstWinning present.now.whole.now result }
    ensures same { sum.new ≡ sum.old }
    ensures fits { Fits present.now.store.now search.new }
{
    let side = present.whole.side();
    if !wins(present, search, sum, side) {
        return None;
    }
    if let Some(point) = winning_stone(present, search, sum) {
        return Some(Move::Stone(point));
    }
    if move_wins(present, search, sum, Move::Spend) {
        return Some(Move::Spend);
    }
    Some(Move::Half)
}

/// Who wins behind a move of the side to move, if somebody does. None exactly where the move is illegal.
pub(crate) fn winner_after(
    present: &Present<'_>,
    search: &mut Search,
    low: &mut [GameId],
    high: &mut [GameId],
    low_asked: &[Answered],
    high_asked: &[Answered],
    chosen: Move,
) -> Option<Option<Colour>>
    requires low { IsSeenFor present.now Black enough low.old }
    requires high { IsSeenFor present.now White enough high.old }
    requires fits { Fits present.now.store.now search.old }
    requires low_right { AreAnswers present.now.store.now low.old
        (other present.now.whole.now.side) low_asked.now }
    requires high_right { AreAnswers present.now.store.now high.old
        (other present.now.whole.now.side) high_asked.now }
    ensures winner { MatchOption result (¬ IsLegal present.now.whole.now chosen)
        (λ x. IsLegal present.now.whole.now chosen
        × TellsWinnerAfter present.now.whole.now chosen x) }
    ensures low { low.new ≡ low.old }
    ensures high { high.new ≡ high.old }
    ensures fits { Fits present.now.store.now search.new }
{
    let change = change_of(present, chosen)?;
    if wins_behind(present, search, low, low_asked, change, Colour::Black) {
        return Some(Some(Colour::Black));
    }
    if is_one_behind(present, low, high, change) {
        return Some(Some(Colour::White));
    }
    if wins_behind(present, search, high, high_asked, change, Colour::White) {
        return Some(Some(Colour::White));
    }
    Some(None)
}
