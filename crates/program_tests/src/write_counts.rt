//! How many writes a run makes, and how many lines they end.

use crate::runs::{NEVER, source, status_of, words_between};
use desk_io::{Failed, MemoryShelf, MemorySource, Sink};
use std::alloc::Global;

/// A sink that counts its writes and the lines that they end.
#[derive(Drop)]
struct Counter {
    writes: usize,
    lines: usize,
}

impl Sink for Counter {
    ghost use Rattle.std.specs.Prelude.{None};

    ghost holds = { λ _. None };

    ghost faults = { λ _. 0 };

    fn write(&mut self, bytes: &[u8]) -> Result<(), Failed> {
        self.writes = self.writes.saturating_add(1);
        for byte in bytes {
            if *byte == b'\n' {
                self.lines = self.lines.saturating_add(1);
            }
        }
        Ok(())
    }
}

/// Words, the number of writes that a run makes and that of the lines that they end.
pub(crate) type Counts = (&'static str, usize, usize);

/// Whether a run over these things makes so many writes and lines.
fn counts_over(
    alloc: Global,
    words: &[&str],
    shelf: &mut MemoryShelf,
    lines: &mut MemorySource,
    row: &Counts,
) -> bool {
    let mut out = Counter {
        writes: 0,
        lines: 0,
    };
    let _status = status_of(alloc, words, shelf, lines, &mut out);
    out.writes == row.1 && out.lines == row.2
}

/// The same with a source made for it.
fn counts_on(alloc: Global, words: &[&str], shelf: &mut MemoryShelf, row: &Counts) -> bool {
    match source(alloc, b"ea\nspend\n", 7, NEVER) {
        Ok(mut lines) => counts_over(alloc, words, shelf, &mut lines, row),
        Err(_error) => false,
    }
}

/// The same for the words of a row.
pub(crate) fn counts(alloc: Global, shelf: &mut MemoryShelf, row: &Counts) -> bool {
    match words_between(alloc, row.0) {
        Ok(words) => counts_on(alloc, &words, shelf, row),
        Err(_error) => false,
    }
}
