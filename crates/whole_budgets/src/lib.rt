//! Play on whole boards in which one player has a budget of captures that return for each region and the other is free, an
//! engine that keeps such budgets, and play under ko rules.
#![tactic(auto)]

mod laws;

pub use laws::{budget_play_laws, budget_sum_laws, engine_budget_laws, ko_rule_laws};
