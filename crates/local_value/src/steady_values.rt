//! The values of all positions of a graph with each budget that matters.

ghost use Rattle.std.specs.Prelude.{ℕ, ◌≡◌, ◌+◌, ◌-◌, ◌<◌, [], ◌∷◌, ◌++◌, length, OnOk};
ghost use Rattle.local_value.specs.BudgetValues.{layer_with};

use crate::short_ids::ShortId;
use item_list::ItemList;
use std::alloc::AllocError;
use std::marker::Model;

/// The ids of values with one budget, one for each position of a graph, by its place.
pub type Layer = ItemList<ShortId>;

/// The values of all positions with each budget up to the least at which the region is steady.
#[derive(Drop)]
pub struct SteadyValues {
    /// By budget, the values by place.
    layers: Vec<Layer>,
}

impl Model for SteadyValues {
    ghost use Rattle.std.specs.Prelude.{ℕ, ◌<◌, List, length};

    ghost Value = { List (List ℕ) };

    ghost view = { λ s. s.layers.items };

    ghost invariant = { λ s. 0 < length s.layers.items };
}

impl SteadyValues {
    /// The layers, by budget.
    pub(crate) fn new(layers: Vec<Layer>) -> SteadyValues
        requires { 0 < length layers.items }
        ensures { result ≡ layers.items }
    {
        SteadyValues { layers }
    }

    /// The least budget at which the region is steady.
    pub fn budget(&self) -> usize
        ensures { result + 1 ≡ length self.now }
    {
        self.layers.len() - 1
    }

    /// The values with a budget. With one that is greater than the least steady one they are those with that.
    pub fn with(&self, budget: usize) -> &Layer
        ensures { result.now ≡ layer_with self.now budget }
    {
        if budget < self.layers.len() {
            &self.layers[budget]
        } else {
            &self.layers[self.layers.len() - 1]
        }
    }

    /// The values with the least budget at which the region is steady.
    pub fn values(&self) -> &Layer
        ensures { result.now ≡ layer_with self.now (length self.now - 1) }
    {
        self.with(self.budget())
    }
}

/// Puts a layer behind the others.
pub(crate) fn append(layers: &mut Vec<Layer>, layer: Layer) -> Result<(), AllocError>
    ensures { OnOk result (layers.new.items ≡ layers.old.items ++ layer ∷ []) }
{
    Ok(layers.push(layer)?)
}
