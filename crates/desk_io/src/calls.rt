// The calls that an object in memory got, and those that fail.
ghost use Rattle.std.specs.Prelude.{◌≡◌, [], ◌∷◌, ◌++◌, OnOk, OnErr};
ghost use Rattle.desk_io.specs.Memory.{Calls, counted, fails_next, uncalled};
ghost use Rattle.desk_io.specs.Outside.{next_number};

use std::alloc::{AllocError, Global};
use std::marker::Model;

/// Counts the calls of an object, and tells those that are to fail by their numbers, from 0.
#[derive(Drop)]
pub(crate) struct CallCounter {
    next: u64,
    failing: Vec<u64>,
    faults: u64,
}

impl Model for CallCounter {
    ghost Value = { Calls };

    ghost view = { λ c. record { next = c.next; failing = c.failing.items; faults = c.faults } };
}

impl CallCounter {
    /// Before the first call.
    pub(crate) fn new(failing: Vec<u64>) -> Self
        ensures { result ≡ uncalled failing.items }
    {
        CallCounter {
            next: 0,
            failing,
            faults: 0,
        }
    }

    /// Where the numbers of the calls that fail are kept.
    pub(crate) fn allocator(&self) -> Global {
        *self.failing.allocator()
    }

    /// The call of this number fails too. At an error all is as before.
    pub(crate) fn fail_at(&mut self, call: u64) -> Result<(), AllocError>
        ensures ok { OnOk result
            (self.new ≡ record self.old { failing = self.old.failing ++ call ∷ [] }) }
        ensures err { OnErr result (self.new ≡ self.old) }
    {
        Ok(self.failing.push(call)?)
    }

    /// Notes a fault.
    pub(crate) fn add_fault(&mut self)
        ensures { self.new ≡ record self.old { faults = next_number self.old.faults } }
    {
        self.faults = self.faults.saturating_add(1);
    }

    /// Counts a call, and answers whether it fails.
    pub(crate) fn count(&mut self) -> bool
        ensures fails { result ≡ fails_next self.old }
        ensures counted { self.new ≡ counted self.old (fails_next self.old) }
    {
        let call = self.next;
        self.next = call.saturating_add(1);
        if self.failing.contains(&call) {
            self.add_fault();
            return true;
        }
        false
    }
}
