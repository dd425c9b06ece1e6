//! What graphs needed that were valued, for those that follow.

ghost use Rattle.std.specs.Prelude.{ℕ, List};
ghost use Rattle.short_games.specs.Tree.{Tree};
ghost use Rattle.local_value.specs.Remembered.{IsRememberedRight};

use crate::memo::Memo;
use std::alloc::Global;
use std::marker::Model;

/// Sums, canonical forms of options and comparisons that were needed to value graphs. Contracts see lists of them. What was
/// remembered may be forgotten.
#[derive(Drop)]
pub struct ValueMemo {
    pub(crate) known: Memo,
}

impl Model for ValueMemo {
    ghost use Rattle.local_value.specs.Remembered.{Remembered};
    ghost use Rattle.local_value.specs.inner.Memo.{remembered};

    ghost Value = { Remembered };

    ghost view = { λ m. remembered m.known };
}

impl ValueMemo {
    /// Nothing is remembered yet.
    pub fn new(alloc: Global) -> ValueMemo
        ensures { (Ts : List Tree) (limit : ℕ) → IsRememberedRight Ts limit result }
    {
        ValueMemo {
            known: Memo::new(alloc),
        }
    }
}
