//! A reader and a writer over memory, which can be made to fail.

ghost use Rattle.std.specs.Prelude.{◌≡◌, ◌+◌, ◌-◌, ◌%◌, ◌^◌, ◌<◌, ◌≤◌, ℕ, List, [], Option, Some, length, min, take, drop, option_map, IfOk, IfErr, OnErr};
ghost use Rattle.std.specs.Prelude.{None};
ghost use Rattle.std.specs.Io.KnownBytes.{Appends, Consumes, IsAtEnd};
ghost use Rattle.ft_types.specs.Devices.{IsOneMore};
ghost use Rattle.ft_types.specs.MemoryDevices.{ready_of};

use crate::device::{Sink, Source};
use crate::errors::Failed;
use std::alloc::Global;
use std::marker::Model;
use std::result::Result;

/// A reader of bytes in memory. It fails where it has come to a place that it was given.
///
/// Contracts see the bytes that are left, after how many of them it fails, and how often it has.
pub struct MemorySource {
    bytes: Vec<u8>,
    position: usize,
    fails_at: Option<usize>,
    failures: u64,
}

impl Drop for MemorySource {
    fn drop(self) {
        let MemorySource {
            bytes: _,
            position: _,
            fails_at: _,
            failures: _,
        } = self;
    }
}

impl Model for MemorySource {
    ghost use Rattle.std.specs.Prelude.{◌≤◌, ◌-◌, drop, length, option_map};
    ghost use Rattle.ft_types.specs.MemoryDevices.{MemorySourceView};

    ghost Value = { MemorySourceView };

    ghost view = { λ s. record {
      left = drop s.position s.bytes.items;
      fails_after = option_map (λ place. place - s.position) s.fails_at;
      failures = s.failures;
    } };

    ghost invariant = { λ s. s.position ≤ length s.bytes.items };
}

impl MemorySource {
    /// A reader of all of these bytes.
    pub fn new(bytes: Vec<u8>) -> MemorySource
        ensures { result ≡ record { left = bytes.items; fails_after = None; failures = 0 } }
    {
        MemorySource {
            bytes,
            position: 0,
            fails_at: None,
            failures: 0,
        }
    }

    /// A reader that gives so many of the bytes, and then fails at each read.
    pub fn failing_at(bytes: Vec<u8>, place: usize) -> MemorySource
        ensures { result ≡ record { left = bytes.items; fails_after = Some place; failures = 0 } }
    {
        MemorySource {
            bytes,
            position: 0,
            fails_at: Some(place),
            failures: 0,
        }
    }

    /// How many of the bytes a read may give now.
    fn ready(&self) -> usize
        ensures { result ≡ ready_of self.now.left self.now.fails_after }
    {
        let all = self.bytes.len() - self.position;
        match self.fails_at {
            None => all,
            Some(place) => all.min(place.saturating_sub(self.position)),
        }
    }
}

fn put_front(piece: &mut [u8], front: &[u8])
    requires { length front.now ≤ length piece.old }
    ensures { take (length front.now) piece.new ≡ front.now }
{
    piece[..front.len()].copy_from_slice(front);
}

impl Source for MemorySource {
    ghost left = { λ s. Some s.left };

    ghost failures = { λ s. s.failures };

    fn read(&mut self, piece: &mut [u8]) -> Result<usize, Failed>
        ensures at_most { IfOk result (λ n. n ≤ length piece.new) }
        ensures taken { IfOk result (λ n. Consumes (Some self.old.left) (Some self.new.left) (take n piece.new) × (self.new.failures ≡ self.old.failures)) }
        ensures end { IfOk result (λ n. n ≡ 0 → 0 < length piece.new → IsAtEnd (Some self.new.left)) }
        ensures failed { IfErr result (λ _. (self.new.left ≡ self.old.left) × IsOneMore self.old.failures self.new.failures) }
        // It gives what is ready, as far as the piece goes, and fails only where nothing is.
        ensures ready { IfOk result (λ n. n ≡ min (ready_of self.old.left self.old.fails_after) (length piece.new)) }
        ensures place { IfOk result (λ n. self.new.fails_after ≡ option_map (λ k. k - n) self.old.fails_after) }
        ensures spent { OnErr result (ready_of self.old.left self.old.fails_after ≡ 0) }
    {
        let ready = self.ready();
        if ready == 0 && self.fails_at.is_some() {
            self.failures = self.failures.wrapping_add(1);
            return Err(Failed);
        }
        let count = ready.min(piece.len());
        let from = self.position;
        put_front(piece, &self.bytes[from..from + count]);
        self.position += count;
        Ok(count)
    }
}

/// A writer into memory. It fails once it holds so many bytes as it has room for, or where memory is refused.
///
/// Contracts see what was written, the room, and how often it has failed.
pub struct MemorySink {
    bytes: Vec<u8>,
    room: usize,
    failures: u64,
}

impl Drop for MemorySink {
    fn drop(self) {
        let MemorySink {
            bytes: _,
            room: _,
            failures: _,
        } = self;
    }
}

impl Model for MemorySink {
    ghost use Rattle.ft_types.specs.MemoryDevices.{MemorySinkView};

    ghost Value = { MemorySinkView };

    ghost view = { λ s. record { bytes = s.bytes.items; room = s.room; failures = s.failures } };
}

impl MemorySink {
    /// A writer with this room, in bytes.
    pub fn new(alloc: Global, room: usize) -> MemorySink
        ensures { result ≡ record { bytes = []; room = room; failures = 0 } }
    {
        MemorySink {
            bytes: Vec::new(alloc),
            room,
            failures: 0,
        }
    }

    /// What was written.
    pub fn bytes(&self) -> &[u8]
        ensures { result.now ≡ self.now.bytes }
    {
        self.bytes.as_slice()
    }

    /// What was written.
    pub fn into_bytes(self) -> Vec<u8>
        ensures { result.items ≡ self.bytes }
    {
        let MemorySink {
            bytes,
            room: _,
            failures: _,
        } = self;
        bytes
    }

    fn fail(&mut self) -> Failed
        ensures bytes { self.new ≡ record self.old { failures = self.new.failures } }
        ensures failures { IsOneMore self.old.failures self.new.failures }
    {
        self.failures = self.failures.wrapping_add(1);
        Failed
    }
}

impl Sink for MemorySink {
    ghost bytes = { λ s. Some s.bytes };

    ghost failures = { λ s. s.failures };

    fn write(&mut self, piece: &[u8]) -> Result<usize, Failed>
        ensures at_most { IfOk result (λ n. n ≤ length piece.now) }
        ensures some { 0 < length piece.now → IfOk result (λ n. 0 < n) }
        ensures taken { IfOk result (λ n. Appends (Some self.old.bytes) (Some self.new.bytes) (take n piece.now) × (self.new.failures ≡ self.old.failures)) }
        ensures failed { IfErr result (λ _. (self.new.bytes ≡ self.old.bytes) × IsOneMore self.old.failures self.new.failures) }
        // It takes as much as it has room for.
        ensures fits { IfOk result (λ n. n ≡ min (length piece.now) (self.old.room - length self.old.bytes)) }
        ensures room { self.new.room ≡ self.old.room }
    {
        let count = piece.len().min(self.room.saturating_sub(self.bytes.len()));
        if count == 0 && !piece.is_empty() {
            return Err(self.fail());
        }
        match self.bytes.extend_from_slice(&piece[..count]) {
            Ok(()) => Ok(count),
            Err(_) => Err(self.fail()),
        }
    }
}
