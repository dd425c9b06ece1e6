// A shelf in memory, whose loads fail where they are told to.
ghost use Rattle.std.specs.Prelude.{◌≡◌, [], ◌∷◌, ◌++◌, false, Some, OnOk, OnErr};
ghost use Rattle.std.specs.FinMap as map;
ghost use Rattle.desk_io.specs.Files.{FailsByCount, Loads, has_failed, told_file};
ghost use Rattle.desk_io.specs.Files.Told.{holding};
ghost use Rattle.desk_io.specs.Memory.{MemoryShelf, counted, fails_next, shelf_code, uncalled};
ghost use Rattle.desk_io.specs.inner.Memory.{files_in};

use crate::calls::CallCounter;
use crate::{LoadError, Loaded, Shelf};
use std::alloc::{AllocError, Global};
use std::collections::BTreeMap;
use std::marker::Model;

/// A shelf that tells its files. Loads fail only where `fail_at` names them.
#[derive(Drop)]
pub struct MemoryShelf {
    files: BTreeMap<String, Vec<u8>>,
    calls: CallCounter,
}

impl Model for MemoryShelf {
    ghost Value = { MemoryShelf };

    ghost coded = { shelf_code };

    ghost view = { λ s. record {
      files = files_in s.files;
      calls = s.calls;
    } };
}

impl MemoryShelf {
    /// Holds no file.
    #[tactic(auto, unfolding(crate::specs::inner::Memory::files_in))]
    pub fn new(alloc: Global) -> Self
        ensures { result ≡ record { files = map.empty; calls = uncalled [] } }
    {
        MemoryShelf {
            files: BTreeMap::new(alloc),
            calls: CallCounter::new(Vec::new(alloc)),
        }
    }

    /// Puts a file on the shelf, in the place of an earlier one of that name. At an error the shelf is as before.
    #[tactic(auto, using(crate::proofs::FilesLemmas::files_after, crate::proofs::FilesLemmas::files_same))]
    pub fn add(&mut self, name: &str, bytes: Vec<u8>) -> Result<(), AllocError>
        ensures ok { OnOk result (self.new ≡ record self.old {
          files = map.insert self.old.files name.now bytes.items;
        }) }
        ensures err { OnErr result (self.new ≡ self.old) }
    {
        let name = String::from_str(self.calls.allocator(), name)?;
        self.files.insert(name, bytes)?;
        Ok(())
    }

    /// The load of this number fails, counted from 0. At an error the shelf is as before.
    pub fn fail_at(&mut self, call: u64) -> Result<(), AllocError>
        ensures ok { OnOk result
            (self.new ≡ record self.old {
              calls = record self.old.calls {
                failing =
                    self.old.calls.failing ++ call ∷ [];
              };
            }) }
        ensures err { OnErr result (self.new ≡ self.old) }
    {
        self.calls.fail_at(call)
    }
}

/// Appends the bytes of a file, up to a limit.
fn copy(file: &[u8], limit: usize, out: &mut Vec<u8>) -> Result<Loaded, LoadError>
    ensures bytes { Loads (holding file.now) limit out.old.items out.new.items result }
    ensures memory { has_failed result ≡ false }
{
    if file.len() > limit {
        out.extend_from_slice(&file[..limit])?;
        return Ok(Loaded::Longer);
    }
    out.extend_from_slice(file)?;
    Ok(Loaded::Whole)
}

impl Shelf for MemoryShelf {
    ghost files = { λ s. Some s.files };

    ghost faults = { λ s. s.calls.faults };

    ghost asks = { λ s name t. t ≡ record s { calls = counted s.calls (fails_next s.calls) } };

    #[tactic(auto, using(crate::proofs::FilesLemmas::file_in))]
    fn load(&mut self, name: &str, limit: usize, out: &mut Vec<u8>) -> Result<Loaded, LoadError>
        ensures same { self.new.files ≡ self.old.files }
        ensures bytes { Loads (told_file
            (Some self.old.files) name.now) limit out.old.items out.new.items result }
        ensures cause { FailsByCount self.old.calls.faults self.new.calls.faults result }
        ensures named { has_failed result ≡ fails_next self.old.calls }
        ensures calls { self.new.calls ≡ counted self.old.calls (has_failed result) }
        ensures asked { self.new ≡ record self.old {
          calls = counted self.old.calls
              (fails_next self.old.calls);
        } }
    {
        if self.calls.count() {
            return Err(LoadError::Failed);
        }
        let Some(bytes) = self.files.get(name) else {
            return Err(LoadError::Absent);
        };
        copy(bytes, limit, out)
    }
}
