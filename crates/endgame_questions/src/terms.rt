//! How a position is opened.

use endgame_solver::Limits;

/// Within which limits a position is opened, and whether there is a tax.
#[derive(Clone, Copy)]
pub struct GameTerms {
    pub limits: Limits,
    pub tax: bool,
}
