//! Which moves are legal, and which of them win.

ghost use Rattle.std.specs.Prelude.{◌↔◌, IsTrue, MatchOption, ◌≡◌};
ghost use Rattle.go_grid.specs.Board.{other};
ghost use Rattle.whole_rules.specs.declared.states.Move.TheVariants.{Half, Stone};
ghost use Rattle.whole_rules.specs.FirstWinningMove.{IsWinning};
ghost use Rattle.whole_rules.specs.WholeGame.{IsLegal};
ghost use Rattle.sum_outcome.specs.Memo.{Fits};
ghost use Rattle.endgame_solver.specs.inner.Asked.{AreAnswers};
ghost use Rattle.endgame_solver.specs.inner.Views.{IsSeen};

use crate::asked::{Answered, loses_after};
use crate::balance::balance_of;
use crate::winning_moves::{Present, spend_wins, stone_edge, value_seen};
use game_store::GameId;
use go_grid::Point;
use sum_outcome::Search;
use whole_rules::Move;

/// Whether a stone of the side to move at the point wins. None where the stone is illegal.
fn stone_outcome(
    present: &Present<'_>,
    search: &mut Search,
    sum: &mut [GameId],
    answered: &[Answered],
    point: Point,
) -> Option<bool>
    requires seen { IsSeen present.now sum.old }
    requires fits { Fits present.now.store.now search.old }
    requires right { AreAnswers present.now.store.now sum.old (other present.now.whole.now.side)
        answered.now }
    ensures wins { MatchOption result (¬ IsLegal present.now.whole.now (Stone point))
        (λ wins. IsLegal present.now.whole.now (Stone point)
        × (IsTrue wins ↔ IsWinning present.now.whole.now (Stone point))) }
    ensures same { sum.new ≡ sum.old }
    ensures fits { Fits present.now.store.now search.new }
{
    if !present.whole.contested(point) {
        return None;
    }
    let side = present.whole.side();
    let Some((k, edge)) = stone_edge(present.regions, present.book, present.places, point, side)
    else {
        return None;
    };
    let purses = present.whole.purses().paid_in(side, u64::from(edge.taken));
    let after = value_seen(present.book, k, edge.next);
    let first = side.other();
    let lost = loses_after(
        present.store,
        search,
        sum,
        answered,
        k,
        after,
        purses,
        first,
    );
    Some(lost)
}

/// Whether the half wins.
fn half_wins(present: &Present<'_>, search: &mut Search, sum: &mut [GameId]) -> bool
    requires seen { IsSeen present.now sum.old }
    requires fits { Fits present.now.store.now search.old }
    ensures wins { IsTrue result ↔ IsWinning present.now.whole.now Half }
    ensures same { sum.new ≡ sum.old }
    ensures fits { Fits present.now.store.now search.new }
{
    if present.whole.token().is_nobody() {
        return false;
    }
    let side = present.whole.side();
    let purses = present.whole.purses().halved(side);
    search.loses(present.store, sum, balance_of(purses), side.other())
}

/// Whether a legal move wins. None where the move is illegal.
pub(crate) fn outcome(
    present: &Present<'_>,
    search: &mut Search,
    sum: &mut [GameId],
    answered: &[Answered],
    chosen: Move,
) -> Option<bool>
    requires seen { IsSeen present.now sum.old }
    requires fits { Fits present.now.store.now search.old }
    requires right { AreAnswers present.now.store.now sum.old (other present.now.whole.now.side)
        answered.now }
    ensures wins { MatchOption result (¬ IsLegal present.now.whole.now chosen)
        (λ wins. IsLegal present.now.whole.now chosen
        × (IsTrue wins ↔ IsWinning present.now.whole.now chosen)) }
    ensures same { sum.new ≡ sum.old }
    ensures fits { Fits present.now.store.now search.new }
{
    match chosen {
        Move::Stone(point) => stone_outcome(present, search, sum, answered, point),
        Move::Spend => {
            if present.whole.purse(present.whole.side()) == 0 {
                return None;
            }
            Some(spend_wins(present, search, sum))
        }
        Move::Half => {
            if present.whole.token().is_nobody() {
                return None;
            }
            Some(half_wins(present, search, sum))
        }
    }
}
