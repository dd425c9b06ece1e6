//! That local play is finite, and that cycles take both ways.

ghost use Rattle.std.specs.Prelude.{List};
ghost use Rattle.go_grid.specs.declared.grid.Cell.{Cell};
ghost use Rattle.go_grid.specs.declared.region.Touch.{Touch};
ghost use Rattle.local_graph.specs.FiniteLocalPlay.{FewPositions, ShortPlay};
ghost use Rattle.local_graph.specs.Returns.{CyclesTakeBothWays, ShortBetweenCaptures};

/// Local play is finite: at most 3 to the number of places positions are reachable. Without a cycle, each list of local
/// moves from the opening is shorter than the list of the reachable positions. It has no code.
pub fn finite_local_play()
    ensures few { (touch : List Touch) (opening : List Cell) → FewPositions touch opening }
    ensures short { (touch : List Touch) (opening : List Cell) → ShortPlay touch opening }
{}

/// Cycles take both ways: each has a capture by Black and one by White. So local moves with few returning captures by one
/// colour are few. It has no code.
pub fn cycles_take_both_ways()
    ensures both { (touch : List Touch) (opening : List Cell) → CyclesTakeBothWays touch opening }
    ensures short { (touch : List Touch) (opening : List Cell)
        → ShortBetweenCaptures touch opening }
{}
