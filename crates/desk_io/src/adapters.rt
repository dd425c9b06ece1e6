// The real source and sink, over any reader and writer of std. They tell no content.
ghost use Rattle.std.specs.Prelude.{◌≡◌, None, is_err};
ghost use Rattle.std.specs.Io.{ReadsAtMost};
ghost use Rattle.std.specs.Io.KnownBytes.{ReadConsumes};
ghost use Rattle.desk_io.specs.Outside.{Appends, HasCause, PassedOn, TakesBytes, faults_after};

use crate::{Failed, Sink, Source};
use std::io::{ErrorKind, Read, Write};

/// A source over a reader. It tells no text.
#[derive(Drop)]
pub struct StdSource<R: Read + Drop> {
    reader: R,
    faults: u64,
}

impl<R: Read + Drop> StdSource<R> {
    /// Reads what `reader` gives. No read has failed yet.
    pub fn new(reader: R) -> Self
        ensures { result ≡ record { reader = reader; faults = 0 } }
    {
        StdSource { reader, faults: 0 }
    }
}

impl<R: Read + Drop> Source for StdSource<R> {
    ghost left = { λ _. None };

    ghost faults = { λ s. s.faults };

    fn read(&mut self, buf: &mut [u8]) -> Result<usize, Failed>
        ensures bound { ReadsAtMost result buf.new }
        ensures bytes { TakesBytes None None result buf.new }
        ensures count { self.new.faults ≡ faults_after self.old.faults (is_err result) }
        // What the reader tells goes through.
        ensures through { ReadConsumes (R.remaining self.old.reader)
            (R.remaining self.new.reader) result buf.new }
    {
        for _ in 0..u64::MAX {
            match self.reader.read(buf) {
                Ok(count) => return Ok(count),
                Err(error) if error.kind() == ErrorKind::Interrupted => {}
                Err(_) => break,
            }
        }
        self.faults = self.faults.saturating_add(1);
        Err(Failed)
    }
}

/// A sink over a writer, flushed at each write. It tells no content.
#[derive(Drop)]
pub struct StdSink<W: Write + Drop> {
    writer: W,
    faults: u64,
}

impl<W: Write + Drop> StdSink<W> {
    /// Writes to `writer`. No write has failed yet.
    pub fn new(writer: W) -> Self
        ensures { result ≡ record { writer = writer; faults = 0 } }
    {
        StdSink { writer, faults: 0 }
    }
}

impl<W: Write + Drop> Sink for StdSink<W> {
    ghost holds = { λ _. None };

    ghost faults = { λ s. s.faults };

    #[tactic(auto, using(crate::proofs::PieceLemmas::passed_more))]
    fn write(&mut self, bytes: &[u8]) -> Result<(), Failed>
        ensures bytes { Appends None None result bytes.now }
        ensures count { self.new.faults ≡ faults_after self.old.faults (is_err result) }
        // What the writer tells is what it was given.
        ensures through { PassedOn (W.contents self.old.writer)
            (W.contents self.new.writer) result bytes.now }
    {
        let mut sent = 0;
        for _ in 0..u64::MAX {
            if sent == bytes.len() {
                break;
            }
            match self.writer.write(&bytes[sent..]) {
                Ok(0) => break,
                Ok(count) => {
                    sent += count;
                    continue;
                }
                Err(error) if error.kind() == ErrorKind::Interrupted => continue,
                Err(_) => break,
            }
        }
        if sent == bytes.len() && self.writer.flush().is_ok() {
            return Ok(());
        }
        self.faults = self.faults.saturating_add(1);
        Err(Failed)
    }
}
