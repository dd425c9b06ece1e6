//! Laws of play with budgets, and of an engine that keeps them.

ghost use Rattle.whole_budgets.specs.BudgetPlayLaws.{
  BudgetsWinTheGame,
  GreaterBudgetsWin,
  OneWinsWithBudgets,
  SomeCapturesWin,
  StonesReturnLocally,
};
ghost use Rattle.whole_budgets.specs.BudgetSums.{BudgetsDecompose, SteadyDecides};
ghost use Rattle.whole_budgets.specs.EngineLaws.{
  HasOneMove,
  IsPlainWithoutCycles,
  KeepsSimpleKo,
  KeptServes,
  WonGamesEnd,
  WonGamesEndAnew,
};
ghost use Rattle.whole_budgets.specs.KoRuleLaws.{
  KoRulesAreOnReturns,
  KoRulesExist,
  NoCapturesWinUnderRules,
};
ghost use Rattle.whole_budgets.specs.SimpleKo.{WinnersStandUnderSimpleKo};
ghost use Rattle.whole_budgets.specs.SituationalSuperko.{WinnersStandUnderSuperko};

/// What a player wins with a budget of captures that return, the other player being free of one, that player wins by plain
/// recursion, and with every greater budget; and who wins by plain recursion wins with some budget. In a region of
/// play of a settled board a stone uses up budget exactly where its local move does. It has no code.
pub fn budget_play_laws()
    ensures game { BudgetsWinTheGame }
    ensures greater { GreaterBudgetsWin }
    ensures some { SomeCapturesWin }
    ensures one { OneWinsWithBudgets }
    ensures local { StonesReturnLocally }
{}

/// What a player wins without a capture that returns that player wins under every ko rule that forbids only such captures and
/// boards that were there before, as simple ko, situational and positional superko do. Under simple ko every
/// winner stands, and under situational superko where nobody owns the token. It has no code.
pub fn ko_rule_laws()
    ensures win { NoCapturesWinUnderRules }
    ensures named { KoRulesAreOnReturns }
    ensures exist { KoRulesExist }
    ensures simple { WinnersStandUnderSimpleKo }
    ensures superko { WinnersStandUnderSuperko }
{}

/// Who wins with budgets is the sign of the sum of trees with these budgets, or with smaller ones at which the regions are
/// steady; and where all regions are steady, so is who wins by plain recursion. It has no code.
pub fn budget_sum_laws()
    ensures budgets { BudgetsDecompose }
    ensures steady { SteadyDecides }
{}

/// A game that the engine's colour wins ends won, within a number of moves that the opponent can't put off, and also where
/// the engine finds its budgets anew at each turn; on the way the engine never takes back a ko at once. On a board of at most
/// 625 points the engine has one move; without a cycle its move is the first that wins, or the first where none does; and what
/// it keeps goes on winning. It has no code.
pub fn engine_budget_laws()
    ensures ends { WonGamesEnd }
    ensures anew { WonGamesEndAnew }
    ensures ko { KeepsSimpleKo }
    ensures serves { KeptServes }
    ensures one { HasOneMove }
    ensures plain { IsPlainWithoutCycles }
{}
