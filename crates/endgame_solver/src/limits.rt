//! Limits of solving.

ghost use Rattle.std.specs.Prelude.{◌≡◌};
ghost use Rattle.endgame_solver.specs.Limits.{AreInRange, MakesLimits, most_parts};
ghost use Rattle.endgame_solver.specs.declared.limits.TheConstants.{MOST_PARTS};

use local_graph::MOST_POSITIONS;
use std::marker::Model;

/// The most parts of the form of a value.
pub const MOST_PARTS: u32 = 4_000;

/// How many positions a region may have, from 1 to 1,000,000, and how many parts the form of a value, from 1 to 4,000.
#[derive(Clone, Copy)]
pub struct Limits {
    positions: u32,
    parts: u32,
}

impl Model for Limits {
    ghost use Rattle.endgame_solver.specs.Limits.{AreInRange, Limits};

    ghost Value = { Limits };

    ghost view = { λ l. record { positions = l.positions; parts = l.parts } };

    ghost invariant = { λ l. AreInRange (record { positions = l.positions; parts = l.parts }) };

    ghost inverse = { λ l. record { positions = l.positions; parts = l.parts } };
}

impl Limits {
    /// The limits with these numbers, where both are in range.
    pub fn new(positions: u32, parts: u32) -> Option<Limits>
        ensures { MakesLimits (record { positions = positions; parts = parts }) result }
    {
        if positions < 1 || positions > MOST_POSITIONS {
            return None;
        }
        if parts < 1 || parts > MOST_PARTS {
            return None;
        }
        Some(Limits { positions, parts })
    }

    /// How many positions a region may have.
    pub fn positions(&self) -> u32
        ensures value { result ≡ self.now.positions }
        ensures range { AreInRange self.now }
    {
        self.positions
    }

    /// How many parts the form of a value may have.
    pub fn parts(&self) -> u32
        ensures value { result ≡ self.now.parts }
        ensures range { AreInRange self.now }
    {
        self.parts
    }
}

/// The limit of parts is this number. It has no code.
pub fn limit_laws()
    ensures parts { MOST_PARTS ≡ most_parts }
{}
