//! The laws of thresholds where kos can arise, and of regions of one shape.

ghost use Rattle.cycle_solver.specs.ShapeBudgets.{ShapesKeepBudgetTrees, ShapesKeepSteadyValues};
ghost use Rattle.cycle_solver.specs.Thresholds.{BothThresholdsExist, MovingFirstCostsAHalf, ThresholdsAreInOrder};

/// On a settled board whose regions are steady there is exactly one threshold for each player, whoever moves first and after all
/// stones; Black's is at most White's; and each is, where Black moves first, at least what it is where White does less one half.
/// It has no code.
pub fn cycle_threshold_laws()
    ensures exist { BothThresholdsExist }
    ensures order { ThresholdsAreInOrder }
    ensures half { MovingFirstCostsAHalf }
{}

/// Positions of one shape have equal trees with a budget, and equal values; where the colours are exchanged, each is the
/// negative of the other's for the other colour. It has no code.
pub fn cycle_shape_laws()
    ensures trees { ShapesKeepBudgetTrees }
    ensures values { ShapesKeepSteadyValues }
{}
