//! The loads of files that a session has asked for.

ghost use Rattle.std.specs.Prelude.{◌≡◌, ◌<◌, OnOk, OnErr};
ghost use Rattle.gtp_words.specs.Loads.{AreLoads, failed_more, made_more, unloaded};

use std::alloc::{AllocError, Global};
use std::marker::Model;

/// More loads than a session can have.
pub const MOST_LOADS: u32 = 1_000_000;

/// How many loads there were, and the numbers of those that failed, counted from 0.
#[derive(Drop)]
pub struct Loads {
    count: u32,
    failures: Vec<u32>,
}

impl Model for Loads {
    ghost use Rattle.gtp_words.specs.Loads.{AreLoads, Loads};

    ghost Value = { Loads };

    ghost view = { λ l. record { count = l.count; failures = l.failures.items } };

    ghost invariant = { λ l. AreLoads (record {
      count = l.count;
      failures = l.failures.items;
    }) };
}

impl Loads {
    /// No load yet.
    pub fn new(alloc: Global) -> Loads
        ensures { result ≡ unloaded }
    {
        Loads {
            count: 0,
            failures: Vec::new(alloc),
        }
    }

    /// How many loads there were.
    pub fn count(&self) -> u32
        ensures { result ≡ self.now.count }
    {
        self.count
    }

    /// The numbers of the loads that failed, in ascending order.
    pub fn failures(&self) -> &[u32]
        ensures value { result.now ≡ self.now.failures }
        ensures numbered { AreLoads self.now }
    {
        &self.failures
    }

    /// Notes a load that was made.
    pub fn note_made(&mut self)
        requires few { self.old.count < MOST_LOADS }
        ensures { self.new ≡ made_more self.old }
    {
        self.count += 1;
    }

    /// Notes a load that failed, or leaves all as it was where memory is refused.
    pub fn note_failed(&mut self) -> Result<(), AllocError>
        requires few { self.old.count < MOST_LOADS }
        ensures noted { OnOk result (self.new ≡ failed_more self.old) }
        ensures same { OnErr result (self.new ≡ self.old) }
    {
        self.failures.push(self.count)?;
        self.count += 1;
        Ok(())
    }
}
