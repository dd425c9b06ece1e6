//! The engine's move.

ghost use Rattle.std.specs.Prelude.{◌≡◌, MatchOption};
ghost use Rattle.endgame_solver.specs.Solved.{Chooses, HasMove};

use crate::solved::Solved;
use whole_rules::Move;

impl Solved {
    /// The first winning move, or the first move where no move wins. None exactly where there is no move.
    pub fn choose(&mut self) -> Option<Move>
        ensures choice { MatchOption result (¬ HasMove self.old.state)
            (λ m. Chooses self.old.state m) }
        ensures same { self.new ≡ self.old }
    {
        let first = match self.whole().first_move() {
            Some(first) => first,
            None => return None,
        };
        match self.winning_move() {
            Some(winning) => Some(winning),
            None => Some(first),
        }
    }
}
