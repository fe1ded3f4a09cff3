//! Files in memory, for commands to read and make.

use crate::cases::Case;
use command_line::Files;
use ft_types::{Failed, MemorySink, MemorySource, Sink, Source};
use std::cell::{Cell, RefCell};

/// What a reader of a file finds in place of all its bytes.
#[derive(Clone, Copy)]
pub enum Change {
    Nothing,
    /// Only so many bytes.
    Front(usize),
    /// Only so many bytes, behind which the reader fails.
    Failing(usize),
    /// Another byte at a place.
    Byte(usize, u8),
}

/// Bytes by name: a text of a case file, or a file of a case.
#[derive(Drop)]
pub struct File<'t> {
    pub name: &'t str,
    pub bytes: Vec<u8>,
    pub change: Change,
    /// Whether nobody may read it.
    pub is_unread: bool,
    /// Whether somebody did.
    was_read: Cell<bool>,
}

impl<'t> File<'t> {
    /// Bytes that can all be read.
    pub fn new(name: &'t str, bytes: Vec<u8>) -> File<'t> {
        File {
            name,
            bytes,
            change: Change::Nothing,
            is_unread: false,
            was_read: Cell::new(false),
        }
    }

    /// Whether nobody read it who may not.
    pub fn is_right(&self) -> bool {
        !(self.is_unread && self.was_read.get())
    }

    fn source(&self) -> Result<MemorySource, Failed> {
        let Ok(mut bytes) = self.bytes.clone() else {
            return Err(Failed);
        };
        match self.change {
            Change::Nothing => {}
            Change::Front(length) => bytes.truncate(length),
            Change::Failing(length) => return Ok(MemorySource::failing_at(bytes, length)),
            Change::Byte(place, value) => {
                if let Some(byte) = bytes.get_mut(place) {
                    *byte = value;
                }
            }
        }
        Ok(MemorySource::new(bytes))
    }
}

/// A reader of a file in memory, which the file knows of once anything is asked of it.
#[derive(Drop)]
pub struct WatchedSource<'c> {
    source: MemorySource,
    was_read: &'c Cell<bool>,
}

impl Source for WatchedSource<'_> {
    ghost use Rattle.std.specs.Prelude.{None};

    ghost left = { λ _. None };

    ghost failures = { λ s. s.source.failures };

    fn read(&mut self, piece: &mut [u8]) -> Result<usize, Failed> {
        self.was_read.set(true);
        self.source.read(piece)
    }
}

/// A writer into memory that can be looked at once the command has ended.
#[derive(Drop)]
pub struct SharedSink<'c> {
    sink: &'c RefCell<MemorySink>,
    failures: u64,
}

impl SharedSink<'_> {
    fn try_write(&self, piece: &[u8]) -> Result<usize, Failed> {
        match self.sink.try_borrow_mut() {
            Ok(mut sink) => sink.write(piece),
            Err(_) => Err(Failed),
        }
    }
}

impl Sink for SharedSink<'_> {
    ghost use Rattle.std.specs.Prelude.{None};

    ghost bytes = { λ _. None };

    ghost failures = { λ s. s.failures };

    fn write(&mut self, piece: &[u8]) -> Result<usize, Failed> {
        if piece.is_empty() {
            return Ok(0);
        }
        match self.try_write(piece) {
            Ok(count) if count > 0 && count <= piece.len() => Ok(count),
            _ => {
                self.failures = self.failures.wrapping_add(1);
                Err(Failed)
            }
        }
    }
}

/// The files of a case: those that can be read, and the one that can be made.
#[derive(Drop)]
pub struct MemoryFiles<'c> {
    pub case: &'c Case<'c>,
    pub sink: &'c RefCell<MemorySink>,
}

impl<'c> MemoryFiles<'c> {
    /// A writer into what can be looked at.
    fn shared(&self) -> SharedSink<'c> {
        SharedSink {
            sink: self.sink,
            failures: 0,
        }
    }

    /// What comes on standard input: the file of that name, or nothing.
    fn asked(&self) -> MemorySource {
        for file in &self.case.files {
            if file.name == "input" {
                if let Ok(source) = file.source() {
                    return source;
                }
            }
        }
        MemorySource::new(Vec::new(*self.case.files.allocator()))
    }
}

impl<'c> Files for MemoryFiles<'c> {
    type Reader = WatchedSource<'c>;

    type Writer = SharedSink<'c>;

    type Input = MemorySource;

    type Output = SharedSink<'c>;

    fn reader(&mut self, name: &str) -> Result<WatchedSource<'c>, Failed> {
        for file in &self.case.files {
            if file.name == name {
                return Ok(WatchedSource {
                    source: file.source()?,
                    was_read: &file.was_read,
                });
            }
        }
        Err(Failed)
    }

    fn maker(&mut self, name: &str) -> Result<SharedSink<'c>, Failed> {
        if self.case.made != name {
            return Err(Failed);
        }
        Ok(self.shared())
    }

    fn input(&mut self) -> MemorySource {
        self.asked()
    }

    fn output(&mut self) -> SharedSink<'c> {
        self.shared()
    }
}
