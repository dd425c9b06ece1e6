//! The order of games and their canonical forms, over ids of a store.
#![tactic(auto)]

mod at_most;
mod canonical_forms;
mod change;
mod comparisons;
mod domination;
mod errors;
mod followers;
mod form_comparisons;
mod games;
mod groups;
mod ids;
mod incentives;
mod negation;
mod order;
mod reachable_forms;
mod reduction;
mod reversal;
mod side;
mod sum_comparisons;
mod sums;
mod sums_at_most;
mod thresholds;
mod translation;

pub use canonical_forms::{canonical, canonical_of_groups, canonical_with};
pub use errors::FormError;
pub use followers::parts;
pub use form_comparisons::FormComparisons;
pub use groups::Cuts;
pub use incentives::{compare_incentives, incentive_at_least};
pub use negation::negate;
pub use order::{Order, compare};
pub use reachable_forms::reachable;
pub use sum_comparisons::{SumComparisons, comparisons_laws};
pub use translation::add_number;
