// The real shelf, over files. It tells no content.
ghost use Rattle.std.specs.Prelude.{◌≡◌, Bool, None, Some};
ghost use Rattle.desk_io.specs.Files.{FailsByCount, Loads, has_failed, told_source};
ghost use Rattle.desk_io.specs.Files.Told.{untold};
ghost use Rattle.desk_io.specs.Outside.{faults_after};

use crate::{LoadError, Loaded, Shelf, Source, StdSource};
use std::fs;
use std::rt::Files;

/// The files of the system. It tells no map, and a missing file is `Failed`.
#[derive(Drop)]
pub struct FileShelf<'a, R: Files> {
    rt: &'a R,
    faults: u64,
}

impl<'a, R: Files> FileShelf<'a, R> {
    /// Opens files by `rt`. No load has failed yet.
    pub fn new(rt: &'a R) -> Self
        ensures { result.faults ≡ 0 }
    {
        FileShelf { rt, faults: 0 }
    }
}

impl<R: Files> Shelf for FileShelf<'_, R> {
    ghost files = { λ _. None };

    ghost faults = { λ s. s.faults };

    ghost asks = { λ s name t. (failed : Bool) × (t.faults ≡ faults_after s.faults failed) };

    fn load(&mut self, name: &str, limit: usize, out: &mut Vec<u8>) -> Result<Loaded, LoadError>
        ensures bytes { Loads untold limit out.old.items out.new.items result }
        ensures cause { FailsByCount self.old.faults self.new.faults result }
        ensures count { self.new.faults ≡ faults_after self.old.faults (has_failed result) }
        ensures asked { (failed : Bool) × (self.new.faults ≡ faults_after self.old.faults failed) }
    {
        let result = copy(self.rt, name, limit, out);
        if let Err(LoadError::Failed) = result {
            self.faults = self.faults.saturating_add(1);
        }
        result
    }
}

// Appends a file, or the first `limit` bytes of it.
fn copy<R: Files>(rt: &R, name: &str, limit: usize, out: &mut Vec<u8>) -> Result<Loaded, LoadError>
    ensures { Loads untold limit out.old.items out.new.items result }
{
    let Ok(file) = fs::open(rt, name) else {
        return Err(LoadError::Failed);
    };
    append(&mut StdSource::new(file), limit, out)
}

// Appends what a source has left, or the first `limit` bytes of it.
fn append<S: Source>(source: &mut S, limit: usize, out: &mut Vec<u8>) -> Result<Loaded, LoadError>
    ensures { Loads (told_source (S.left source.old)) limit out.old.items out.new.items result }
{
    let mut piece = [0u8; 4096];
    let mut left = limit;
    for _ in 0..u64::MAX {
        let Ok(count) = source.read(&mut piece) else {
            return Err(LoadError::Failed);
        };
        if count == 0 {
            return Ok(Loaded::Whole);
        }
        if left < count {
            out.extend_from_slice(&piece[..left])?;
            return Ok(Loaded::Longer);
        }
        out.extend_from_slice(&piece[..count])?;
        left -= count;
    }
    Err(LoadError::Failed)
}
