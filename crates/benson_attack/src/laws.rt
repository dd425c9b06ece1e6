//! What lives is what stands.

ghost use Rattle.std.specs.Prelude.{◌↔◌, ℕ};
ghost use Rattle.go_grid.specs.declared.grid.Colour.{Colour};
ghost use Rattle.go_grid.specs.Chain.{IsSettled};
ghost use Rattle.go_grid.specs.Board.{Board, HasStone};
ghost use Rattle.go_play.specs.Place.{Stands};
ghost use Rattle.benson_life.specs.Life.{IsAlive};

/// On a settled board a stone is alive exactly where it still stands after every list of legal and unanswered
/// placings of the other colour at points that aren't declared (Benson 1976).
pub fn alive_laws()
    ensures { (g : Board) (c : Colour) (s : ℕ) → IsSettled g → HasStone g c s
        → IsAlive g c s ↔ Stands g c s }
{}
