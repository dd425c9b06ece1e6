//! Benson's theorem, and that held points pay for groups.

ghost use Rattle.std.specs.Prelude.{ℕ, ◌*◌, ◌≤◌, List, Contains};
ghost use Rattle.go_grid.specs.declared.grid.Colour.{Colour};
ghost use Rattle.go_grid.specs.Chain.{IsSettled};
ghost use Rattle.go_grid.specs.Board.{Board, DeclaresNothing};
ghost use Rattle.go_play.specs.Place.{Stands};
ghost use Rattle.benson_life.specs.Groups.{IsNumberOfGroups};
ghost use Rattle.benson_life.specs.Held.{IsHeld};
ghost use Rattle.benson_life.specs.Life.{IsHealthy};

/// On a settled board each stone of a healthy list still stands after every list of legal and unanswered placings
/// of the other colour at points that aren't declared (Benson 1976).
pub fn benson_laws()
    ensures { (g : Board) (c : Colour) (S : List ℕ) → IsSettled g → IsHealthy g c S
        → (s : ℕ) → Contains S s → Stands g c s }
{}

/// On a settled board where nothing is declared, each colour holds two points or more for each of its groups: a group has
/// two counted regions of its own, with an empty point in each.
pub fn tax_laws()
    ensures { (g : Board) (c : Colour) (held groups : ℕ) → IsSettled g → DeclaresNothing g
        → IsHeld g c held → IsNumberOfGroups g c groups
        → 2 * groups ≤ held }
{}
