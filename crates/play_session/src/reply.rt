//! A line of output in a fixed array.

ghost use Rattle.std.specs.Prelude.{◌≡◌, ◌+◌, ◌≤◌, ◌<◌, [], ◌∷◌, ◌++◌, length, take};

use std::marker::Model;

/// A text of at most 32 bytes. Contracts see the list of them.
#[derive(Drop)]
pub(crate) struct Reply {
    bytes: [u8; 32],
    len: usize,
}

impl Model for Reply {
    ghost use Rattle.std.specs.Prelude.{◌≤◌, List, ℕ, take};

    ghost Value = { List ℕ };

    ghost view = { λ r. take r.len r.bytes };

    ghost invariant = { λ r. r.len ≤ 32 };
}

impl Reply {
    /// The empty text.
    pub fn new() -> Reply
        ensures { result ≡ [] }
    {
        Reply {
            bytes: [0; 32],
            len: 0,
        }
    }

    /// Appends a byte.
    pub fn push(&mut self, byte: u8)
        requires { length self.old < 32 }
        ensures { self.new ≡ self.old ++ byte ∷ [] }
    {
        self.bytes[self.len] = byte;
        self.len += 1;
    }

    /// Appends bytes.
    #[tactic(auto, using(std::proofs::Common::append_assoc, std::proofs::lemmas::List::take_more, std::proofs::lemmas::List::take_all))]
    pub fn push_all(&mut self, text: &[u8])
        requires { length self.old + length text.now ≤ 32 }
        ensures { self.new ≡ self.old ++ text.now }
    {
        for byte in text {
            self.push(*byte);
        }
    }

    /// The bytes.
    pub fn as_slice(&self) -> &[u8]
        ensures { result.now ≡ self.now }
    {
        &self.bytes[..self.len]
    }
}
