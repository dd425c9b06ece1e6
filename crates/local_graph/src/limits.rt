//! The limits, as numbers.

ghost use Rattle.std.specs.Prelude.{◌≡◌};
ghost use Rattle.local_graph.specs.Limits.{most_positions};
ghost use Rattle.local_graph.specs.declared.graph.TheConstants.{MOST_POSITIONS};

/// The limits are these numbers. It has no code.
pub fn limit_laws()
    ensures positions { MOST_POSITIONS ≡ most_positions }
{}
