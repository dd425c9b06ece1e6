//! Comparisons of sums that are remembered from question to question.

ghost use Rattle.std.specs.Prelude.{◌≡◌, []};
ghost use Rattle.game_canon.specs.FormComparisons.{FormsStayRightInGrownStores};
ghost use Rattle.game_canon.specs.SumComparisons.{StayRightInGrownStores};

use crate::sums::SumAnswers;
use indexmap::IndexMap;
use std::alloc::Global;
use std::marker::Model;

/// Comparisons of sums of two games of a store. Contracts see them as the pairs of sums, each with whether the first is at
/// most the second.
#[derive(Drop)]
pub struct SumComparisons {
    pub(crate) known: SumAnswers,
}

impl Model for SumComparisons {
    ghost use Rattle.game_canon.specs.SumComparisons.{Compared};

    ghost Value = { Compared };

    ghost view = { λ s. s.known.entries };
}

impl SumComparisons {
    /// Nothing is remembered yet.
    pub fn new(alloc: Global) -> SumComparisons
        ensures { result ≡ [] }
    {
        SumComparisons {
            known: IndexMap::new(alloc),
        }
    }
}

/// Comparisons, of sums or of forms, that are right for a store are right for it after more forms were interned.
pub fn comparisons_laws()
    ensures sums { StayRightInGrownStores }
    ensures forms { FormsStayRightInGrownStores }
{}
