//! The values of the positions of a local graph.
#![tactic(auto)]

mod budget_values;
mod budgets;
mod chains;
mod form_table;
mod laws;
mod layer_edges;
mod memo;
mod option_set;
mod options;
mod short_ids;
mod steady_values;
mod sum_table;
mod undominated;
mod value_memo;
mod values;

pub use budget_values::{value_steady, value_steady_with};
pub use budgets::BudgetError;
pub use laws::steady_values_laws;
pub use short_ids::ShortId;
pub use steady_values::{Layer, SteadyValues};
pub use value_memo::ValueMemo;
pub use values::{Values, value_all, value_compact};
