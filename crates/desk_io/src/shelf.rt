// Named files, as the rest of the program sees them.
ghost use Rattle.std.specs.Prelude.{◌≡◌, ℕ, List};
ghost use Rattle.std.specs.declared.option.Option.{Option};
ghost use Rattle.desk_io.specs.Files.{FailsByCount, Files, Loads, told_file};
ghost use Rattle.desk_io.specs.declared.shelf.LoadError.TheVariants.{Memory};

use std::alloc::AllocError;
use std::fmt;
use thiserror::Error;

/// How much of a file was loaded: all of it, or the first bytes up to the limit of a longer one.
#[derive(Clone, Copy, PartialEq, Eq)]
pub enum Loaded {
    Whole,
    Longer,
}

/// Why a load was refused. `Absent` comes only from a shelf that tells its files and has none of that name.
#[derive(Drop, PartialEq, Eq, Error)]
pub enum LoadError {
    #[error("no such file")]
    Absent,
    #[error("a load failed")]
    Failed,
    #[error(transparent)]
    Memory(AllocError),
}

// As the message: what a derive writes is dearer to prove.
impl fmt::Debug for LoadError {
    fn fmt<W: fmt::Write>(&self, f: &mut fmt::Formatter<W>) -> fmt::Result {
        fmt::Display::fmt(self, f)
    }
}

impl From<AllocError> for LoadError {
    ghost from_gives = { λ cause e. e ≡ Memory cause };

    fn from(cause: AllocError) -> Self {
        LoadError::Memory(cause)
    }
}

/// What files are loaded from, by their names. `Failed` comes only where the count of faults rose.
pub trait Shelf {
    /// The map from names to bytes, where the shelf tells it. No load changes it.
    ghost files: { Self → Option Files };

    /// How often a load has failed. It never falls.
    ghost faults: { Self → ℕ };

    /// One load of the file of this name leads from the one shelf to the other.
    ghost asks: { Self → List ℕ → Self → Type 0 };

    /// Appends the bytes of the file to `out`, or the first `limit` of them where it has more. At an error a front
    /// part of them was appended.
    fn load(&mut self, name: &str, limit: usize, out: &mut Vec<u8>) -> Result<Loaded, LoadError>
        ensures same { files self.new ≡ files self.old }
        ensures bytes { Loads (told_file
            (files self.old) name.now) limit out.old.items out.new.items result }
        ensures cause { FailsByCount (faults self.old) (faults self.new) result }
        ensures asked { asks self.old name.now self.new };
}
