//! Life without answers: the stones that stand whatever the other player does (Benson 1976), the points that
//! they count, and the points that stay contested.
#![tactic(auto)]

mod chain_groups;
mod counted_points;
mod eyes;
mod laws;
mod living_chains;
mod surveys;
mod territory;
mod walls;

pub use chain_groups::groups;
pub use counted_points::held;
pub use laws::{benson_laws, tax_laws};
pub use territory::{Life, Territory, alive, alive_set, contested, counted};
