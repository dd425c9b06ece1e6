//! Laws of the trees of positions.

ghost use Rattle.local_trees.specs.Laws.{DepthIsFree, OneTree, TreesExist};
ghost use Rattle.local_trees.specs.BudgetLaws.{BudgetTreesExist, OneBudgetTree, BudgetDepthIsEnough, SteadyStays, BudgetsNeedCycles, ExchangeNegates};

/// A local position has a tree of each depth, which is one as a game, and its depth doesn't matter once no play is longer.
pub fn position_tree_laws()
    ensures exist { TreesExist }
    ensures one { OneTree }
    ensures depth { DepthIsFree }
{}

/// A local position in which a colour has a budget of captures that return has a tree of each depth, one as a game, and more
/// moves than its bound change nothing. What is steady stays; without a cycle budgets change nothing; and exchanged colours
/// make the trees for a budget of the one colour the negatives of those for the other. It has no code.
pub fn budget_tree_laws()
    ensures exist { BudgetTreesExist }
    ensures one { OneBudgetTree }
    ensures depth { BudgetDepthIsEnough }
    ensures steady { SteadyStays }
    ensures acyclic { BudgetsNeedCycles }
    ensures exchanged { ExchangeNegates }
{}
