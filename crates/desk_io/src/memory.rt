// A source and a sink in memory, which fail at the calls that they are told.
ghost use Rattle.std.specs.Prelude.{◌≡◌, ◌≤◌, ◌+◌, ◌||◌, [], length, drop, nat_lt, vec_len, vec_capacity, is_err, IfOk, Some};
ghost use Rattle.std.specs.Io.{ReadsAtMost};
ghost use Rattle.desk_io.specs.Outside.{Appends, HasCause, TakesBytes};
ghost use Rattle.desk_io.specs.Memory.{MemorySource, MemorySink, counted, fails_next, uncalled, written};

use crate::calls::CallCounter;
use crate::{Failed, Sink, Source};
use std::alloc::{AllocError, Global};
use std::marker::Model;

/// A source that tells its text. Reads fail only where they are told to.
#[derive(Drop)]
pub struct MemorySource {
    bytes: Vec<u8>,
    at: usize,
    piece: usize,
    calls: CallCounter,
}

impl Model for MemorySource {
    ghost Value = { MemorySource };

    ghost view = { λ s. record {
      left = drop s.at s.bytes.items;
      piece = s.piece;
      calls = s.calls;
    } };

    ghost invariant = { λ s. (s.at ≤ vec_len s.bytes) × (1 ≤ s.piece) };
}

impl MemorySource {
    /// Gives `bytes` in pieces of at most `piece` bytes. The calls in `failing` fail, counted from 0.
    pub fn new(bytes: Vec<u8>, piece: usize, failing: Vec<u64>) -> Self
        requires { 1 ≤ piece }
        ensures { result ≡ record {
          left = bytes.items;
          piece = piece;
          calls = uncalled
              failing.items;
        } }
    {
        MemorySource {
            bytes,
            at: 0,
            piece,
            calls: CallCounter::new(failing),
        }
    }
}

impl Source for MemorySource {
    ghost left = { λ s. Some s.left };

    ghost faults = { λ s. s.calls.faults };

    fn read(&mut self, buf: &mut [u8]) -> Result<usize, Failed>
        ensures bound { ReadsAtMost result buf.new }
        ensures bytes { TakesBytes (Some self.old.left) (Some self.new.left) result buf.new }
        ensures named { is_err result ≡ fails_next self.old.calls }
        ensures calls { self.new.calls ≡ counted self.old.calls (is_err result) }
        ensures piece { IfOk result (λ n. n ≤ self.old.piece) }
        ensures same_piece { self.new.piece ≡ self.old.piece }
    {
        if self.calls.count() {
            return Err(Failed);
        }
        let rest = &self.bytes[self.at..];
        let count = rest.len().min(self.piece).min(buf.len());
        buf[..count].copy_from_slice(&rest[..count]);
        self.at += count;
        Ok(count)
    }
}

/// A sink that tells what it has got. Writes fail where they are told to, and where a piece doesn't fit.
#[derive(Drop)]
pub struct MemorySink {
    bytes: Vec<u8>,
    room: usize,
    calls: CallCounter,
}

impl Model for MemorySink {
    ghost Value = { MemorySink };

    ghost view = { λ s. record {
      bytes = s.bytes.items;
      room = s.room;
      calls = s.calls;
    } };

    ghost invariant = { λ s. vec_len s.bytes + s.room ≤ vec_capacity s.bytes };
}

impl MemorySink {
    /// Has room for `room` bytes in all. The calls in `failing` fail and take nothing, counted from 0.
    pub fn with_room(alloc: Global, room: usize, failing: Vec<u64>) -> Result<Self, AllocError>
        ensures { IfOk result
            (λ s. s ≡ record { bytes = []; room = room; calls = uncalled failing.items }) }
    {
        Ok(MemorySink {
            bytes: Vec::with_capacity(alloc, room)?,
            room,
            calls: CallCounter::new(failing),
        })
    }

    /// The bytes that it has got.
    pub fn written(&self) -> &[u8]
        ensures { result.now ≡ self.now.bytes }
    {
        &self.bytes
    }
}

impl Sink for MemorySink {
    ghost holds = { λ s. Some s.bytes };

    ghost faults = { λ s. s.calls.faults };

    fn write(&mut self, bytes: &[u8]) -> Result<(), Failed>
        ensures refused { is_err result ≡ (fails_next self.old.calls || nat_lt self.old.room
            (length bytes.now)) }
        ensures after { self.new ≡ written self.old bytes.now (is_err result) }
    {
        if self.calls.count() {
            return Err(Failed);
        }
        let count = bytes.len().min(self.room);
        self.bytes.extend_from_slice(&bytes[..count]).unwrap();
        self.room -= count;
        if count < bytes.len() {
            self.calls.add_fault();
            return Err(Failed);
        }
        Ok(())
    }
}
