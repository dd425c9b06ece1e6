//! The trees of local positions, also where one colour has a budget of captures that return.
#![tactic(auto)]

mod laws;

pub use laws::{budget_tree_laws, position_tree_laws};
