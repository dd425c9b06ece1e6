//! Laws of the values of positions.

ghost use Rattle.local_value.specs.BudgetValues.{LayersServe};

/// The layers of steady values serve each budget: a greater one than the last layer's has that layer's values. It has no code.
pub fn steady_values_laws()
    ensures { LayersServe }
{}
