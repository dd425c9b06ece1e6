//! The laws: decomposition, that shapes keep values, that thresholds exist, and that a line of play loses nothing.

ghost use Rattle.endgame_solver.specs.Decomposition.{WholeDecomposes};
ghost use Rattle.endgame_solver.specs.Laws.{Decomposes, PlayIsBounded, PursesAreBalance};
ghost use Rattle.endgame_solver.specs.Bookkeeping.{PursesFollow, RegionsFollow};
ghost use Rattle.endgame_solver.specs.PlayLine.{BestStoneLosesNothing, HasOneLine, LineLosesNothing, NoStoneIsBetter};
ghost use Rattle.endgame_solver.specs.ShapeValues.{ShapesKeepValues};
ghost use Rattle.endgame_solver.specs.Thresholds.{FirstMoveCostsAHalf, StonesServeEachKomi, ThresholdIsInSum, ThresholdsExist};

/// Who loses is the sign of a sum (Müller 1999): of any game of several parts in which play ends, whatever type `P` their
/// positions have, and of the whole game over the regions of play. It has no code.
pub fn decomposition_laws<P>()
    ensures parts { Decomposes P }
    ensures bounded { PlayIsBounded P }
    ensures balance { PursesAreBalance }
    ensures whole { WholeDecomposes }
    ensures purses { PursesFollow }
    ensures regions { RegionsFollow }
{}

/// Positions of one shape have equal trees, or each is the other's negative where the colours are exchanged. It has no code.
pub fn shape_laws()
    ensures { ShapesKeepValues }
{}

/// On a settled board whose regions have no cycle there is exactly one threshold for each player who moves first and after
/// all stones, Black's is at least White's less one half, and it stands in the sum of the regions' trees. It has no code.
pub fn threshold_laws()
    ensures stones { StonesServeEachKomi }
    ensures exist { ThresholdsExist }
    ensures half { FirstMoveCostsAHalf }
    ensures sum { ThresholdIsInSum }
{}

/// On a settled board whose regions have no cycle no stone has a better threshold than the state in which it is played, and
/// the best stone in a region that is no number has that threshold. It rests on number avoidance (Conway). So a line of play
/// loses nothing, and there is at most one. It has no code.
pub fn line_laws()
    ensures stones { NoStoneIsBetter }
    ensures best { BestStoneLosesNothing }
    ensures line { LineLosesNothing }
    ensures one { HasOneLine }
{}
