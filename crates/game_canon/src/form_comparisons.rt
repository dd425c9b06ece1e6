//! Comparisons of forms that are remembered from form to form.

ghost use Rattle.std.specs.Prelude.{◌≡◌, List, []};
ghost use Rattle.short_games.specs.Tree.{Tree};
ghost use Rattle.game_canon.specs.FormComparisons.{AreFormComparisonsRight};

use crate::comparisons::{Comparisons, limit, nothing_known};
use std::alloc::Global;
use std::marker::Model;

/// Comparisons of forms of a store. Contracts see them as a table and a list of pairs of ids, each with whether the first
/// game is at most the second.
#[derive(Drop)]
pub struct FormComparisons {
    pub(crate) known: Comparisons,
}

impl Model for FormComparisons {
    ghost use Rattle.game_canon.specs.FormComparisons.{ComparedForms};

    ghost Value = { ComparedForms };

    ghost view = { λ s. (s.known.near.items, s.known.far.entries) };
}

impl FormComparisons {
    /// Nothing is remembered yet.
    pub fn new(alloc: Global) -> FormComparisons
        ensures empty { result ≡ ([], []) }
        ensures right { (Ts : List Tree) → AreFormComparisonsRight Ts result }
    {
        FormComparisons {
            known: nothing_known(alloc),
        }
    }

    /// Forgets some where there are too many.
    pub(crate) fn limit(&mut self, alloc: Global)
        ensures { (Ts : List Tree) → AreFormComparisonsRight Ts self.old
            → AreFormComparisonsRight Ts self.new }
    {
        limit(alloc, &mut self.known);
    }
}
