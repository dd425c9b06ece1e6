// What reads and what writes, as the rest of the program sees it.
ghost use Rattle.std.specs.Prelude.{ℕ, List};
ghost use Rattle.std.specs.declared.option.Option.{Option};
ghost use Rattle.std.specs.Io.{ReadsAtMost};
ghost use Rattle.desk_io.specs.Outside.{Appends, HasCause, TakesBytes};

use thiserror::Error;

/// A read or a write failed. It comes only where the count of faults rose in the call, or stands at 2^64 - 1.
#[derive(Clone, Copy, Debug, PartialEq, Eq, Error)]
#[error("a read or a write failed")]
pub struct Failed;

/// What bytes are read from.
pub trait Source {
    /// The bytes that are left, where the source tells them.
    ghost left: { Self → Option (List ℕ) };

    /// How often a read has failed. It never falls.
    ghost faults: { Self → ℕ };

    /// Puts bytes at the front of `buf` and answers how many. 0 into a buffer that isn't empty is the end. At `Failed`
    /// nothing was taken.
    fn read(&mut self, buf: &mut [u8]) -> Result<usize, Failed>
        ensures bound { ReadsAtMost result buf.new }
        ensures bytes { TakesBytes (left self.old) (left self.new) result buf.new }
        ensures cause { HasCause (faults self.old) (faults self.new) result };
}

/// What bytes are written to.
pub trait Sink {
    /// The bytes that the sink has got, where it tells them.
    ghost holds: { Self → Option (List ℕ) };

    /// How often a write has failed. It never falls.
    ghost faults: { Self → ℕ };

    /// Appends all of `bytes`. At `Failed` a front part of them was appended.
    fn write(&mut self, bytes: &[u8]) -> Result<(), Failed>
        ensures bytes { Appends (holds self.old) (holds self.new) result bytes.now }
        ensures cause { HasCause (faults self.old) (faults self.new) result };
}
