//! The real files and standard streams. What they hold outside is in no contract.

ghost use Rattle.std.specs.Prelude.{None};

use command_line::Files;
use ft_types::{Failed, Sink, Source};
use std::fs;
use std::io::{Read, Stdin, Stdout, Write};

/// The files that a runtime reaches, and its standard streams.
#[derive(Drop)]
pub struct HostFiles<'a, H: fs::Files> {
    rt: &'a H,
    input: Stdin,
    output: Stdout,
}

impl<'a, H: fs::Files> HostFiles<'a, H> {
    /// The files of this runtime, beside these streams.
    pub fn new(rt: &'a H, input: Stdin, output: Stdout) -> HostFiles<'a, H> {
        HostFiles { rt, input, output }
    }
}

impl<H: fs::Files> Files for HostFiles<'_, H> {
    type Reader = HostReader<H::File>;

    type Writer = HostWriter<H::File>;

    type Input = HostReader<Stdin>;

    type Output = HostWriter<Stdout>;

    fn reader(&mut self, name: &str) -> Result<HostReader<H::File>, Failed> {
        match fs::open(self.rt, name) {
            Ok(file) => Ok(HostReader::new(file)),
            Err(_) => Err(Failed),
        }
    }

    fn maker(&mut self, name: &str) -> Result<HostWriter<H::File>, Failed> {
        match fs::create(self.rt, name) {
            Ok(file) => Ok(HostWriter::new(file)),
            Err(_) => Err(Failed),
        }
    }

    fn input(&mut self) -> HostReader<Stdin> {
        HostReader::new(self.input)
    }

    fn output(&mut self) -> HostWriter<Stdout> {
        HostWriter::new(self.output)
    }
}

/// An opened file, which tells no bytes.
#[derive(Drop)]
pub struct HostReader<R: Read + Drop> {
    reader: R,
    failures: u64,
}

impl<R: Read + Drop> HostReader<R> {
    /// A reader without failures so far.
    pub fn new(reader: R) -> HostReader<R> {
        HostReader {
            reader,
            failures: 0,
        }
    }
}

impl<R: Read + Drop> Source for HostReader<R> {
    ghost left = { λ _. None };

    ghost failures = { λ r. r.failures };

    fn read(&mut self, piece: &mut [u8]) -> Result<usize, Failed> {
        match self.reader.read(piece) {
            Ok(count) => Ok(count),
            Err(_) => {
                self.failures = self.failures.wrapping_add(1);
                Err(Failed)
            }
        }
    }
}

/// A file that is being made or a standard stream, which tells no bytes.
#[derive(Drop)]
pub struct HostWriter<W: Write + Drop> {
    writer: W,
    failures: u64,
}

impl<W: Write + Drop> HostWriter<W> {
    /// A writer without failures so far.
    pub fn new(writer: W) -> HostWriter<W> {
        HostWriter {
            writer,
            failures: 0,
        }
    }

    /// Writes what the writer has held back. Whether it could.
    pub fn flush(&mut self) -> bool {
        self.writer.flush().is_ok()
    }
}

impl<W: Write + Drop> Sink for HostWriter<W> {
    ghost bytes = { λ _. None };

    ghost failures = { λ w. w.failures };

    fn write(&mut self, piece: &[u8]) -> Result<usize, Failed> {
        if piece.is_empty() {
            return Ok(0);
        }
        match self.writer.write(piece) {
            Ok(count) if count > 0 => Ok(count),
            _ => {
                self.failures = self.failures.wrapping_add(1);
                Err(Failed)
            }
        }
    }
}
