//! A law of stores, the contract of a function that does nothing.

ghost use Rattle.game_store.specs.Laws.{IdsTellValues};

/// Two ids of one store are equal exactly where the values of their games are.
pub fn id_laws()
    ensures { IdsTellValues }
{}
