//! Lines out of a source that is read in pieces.

ghost use Rattle.std.specs.Prelude.{◌≡◌, ◌+◌, ◌<◌, ◌≤◌, ◌++◌, ◌↔◌, true, List, ℕ, [], length, take, drop, IfOk, OnErr, slice_index};
ghost use Rattle.desk_io.specs.Lines.{IsFound, IsSameInput};
ghost use Rattle.desk_io.specs.inner.Lines.{IsFeed};
ghost use Rattle.desk_io.specs.Outside.{HasCause, ended};

use crate::{Failed, Source};
use std::marker::Model;

/// The most lines that a session reads.
pub const MOST_LINES: usize = 10_000;

/// How long a line is, and how many bytes it takes with its line feed.
#[derive(Clone, Copy)]
pub struct FoundLine {
    pub line: usize,
    pub taken: usize,
}

/// Takes a source apart into lines of at most `MOST` bytes. It holds the bytes that were read and not yet used, at most
/// `MOST`. Contracts see the list of them.
#[derive(Drop)]
pub struct LineReader<const MOST: usize> {
    bytes: [u8; MOST],
    len: usize,
}

impl<const MOST: usize> Model for LineReader<MOST> {
    ghost use Rattle.std.specs.Prelude.{◌≤◌, List, ℕ, take};

    ghost Value = { List ℕ };

    ghost view = { λ i. take i.len i.bytes };

    ghost invariant = { λ i. i.len ≤ MOST };
}

impl<const MOST: usize> LineReader<MOST> {
    /// Holds nothing.
    pub fn new() -> Self
        ensures { result ≡ [] }
    {
        LineReader {
            bytes: [0; MOST],
            len: 0,
        }
    }

    /// How many bytes are held.
    fn len(&self) -> usize
        ensures value { result ≡ length self.now }
        ensures most { result ≤ MOST }
    {
        self.len
    }

    /// Whether the byte at a place is a line feed.
    fn is_feed(&self, at: usize) -> bool
        requires { at < length self.now }
        ensures { (result ≡ true) ↔ (slice_index self.now at ≡ 10) }
    {
        self.bytes[at] == b'\n'
    }

    /// The first bytes.
    pub fn front(&self, count: usize) -> &[u8]
        requires { count ≤ length self.now }
        ensures { result.now ≡ take count self.now }
    {
        &self.bytes[..count]
    }

    /// Lets the first bytes go.
    pub fn drop_front(&mut self, count: usize)
        requires { count ≤ length self.old }
        ensures { self.new ≡ drop count self.old }
    {
        self.bytes.copy_within(count..self.len, 0);
        self.len -= count;
    }

    /// Reads on, and answers how many bytes came. 0 is the end of the input.
    fn read_more<S: Source>(&mut self, lines: &mut S) -> Result<usize, Failed>
        requires { length self.old < MOST }
        ensures same { IsSameInput self.old (S.left lines.old) self.new (S.left lines.new) }
        ensures more { IfOk result (λ n. (piece : List ℕ) × (self.new ≡ self.old ++ piece)
            × (length piece ≡ n)) }
        ensures end { IfOk result (λ n. n ≡ 0 → S.left lines.new ≡ ended (S.left lines.new)) }
        ensures failed { OnErr result (self.new ≡ self.old) }
        ensures few { length self.new ≤ MOST }
        ensures cause { HasCause (S.faults lines.old) (S.faults lines.new) result }
    {
        let bytes = &mut self.bytes[..];
        let count = lines.read(&mut bytes[self.len..])?;
        self.len += count;
        Ok(count)
    }

    /// Reads on until a line feed, `MOST` bytes or all that is left are held. The place of the first line feed.
    fn next_feed<S: Source>(&mut self, lines: &mut S) -> Result<Option<usize>, Failed>
        ensures same { IsSameInput self.old (S.left lines.old) self.new (S.left lines.new) }
        ensures feed { IfOk result (λ at. IsFeed MOST self.new (S.left lines.new) at) }
        ensures few { length self.new ≤ MOST }
        ensures cause { HasCause (S.faults lines.old) (S.faults lines.new) result }
    {
        'looking: for at in 0..MOST {
            if at == self.len() && self.read_more(lines)? == 0 {
                return Ok(None);
            }
            if self.is_feed(at) {
                return Ok(Some(at));
            }
        }
        let _ = &self.bytes;
        Ok(None)
    }

    /// Finds the next line, which is held then. `None` is the end of the input. Where a read fails nothing is lost.
    pub fn find_line<S: Source>(&mut self, lines: &mut S) -> Result<Option<FoundLine>, Failed>
        requires { 1 ≤ MOST }
        ensures same { IsSameInput self.old (S.left lines.old) self.new (S.left lines.new) }
        ensures found { IfOk result (λ f. IsFound MOST self.new (S.left lines.new) f) }
        ensures few { length self.new ≤ MOST }
        ensures cause { HasCause (S.faults lines.old) (S.faults lines.new) result }
    {
        let feed = self.next_feed(lines)?;
        let len = self.len();
        if let Some(at) = feed {
            return Ok(Some(FoundLine {
                line: at,
                taken: at + 1,
            }));
        }
        if len == 0 {
            return Ok(None);
        }
        Ok(Some(FoundLine {
            line: len,
            taken: len,
        }))
    }
}
