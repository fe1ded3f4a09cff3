//! A line that is made on the stack.

ghost use Rattle.std.specs.Prelude.{◌≡◌, ℕ, ◌+◌, ◌*◌, ◌<◌, ◌≤◌, ◌++◌, ◌∷◌, [], List, length, take, decimal};
ghost use Rattle.ft_types.specs.Devices.{Writes};
ghost use Rattle.ft_types.specs.Text.{line, word};

use crate::device::{Sink, write_all};
use crate::errors::Failed;
use crate::text::word_text;
use itoa::Buffer;
use std::marker::Model;
use std::result::Result;

/// A line that is being made, of at most 96 bytes.
pub struct LineBuffer {
    bytes: [u8; 96],
    len: usize,
}

impl Drop for LineBuffer {
    fn drop(self) {
        let LineBuffer { bytes: _, len: _ } = self;
    }
}

impl Model for LineBuffer {
    ghost Value = { List ℕ };

    ghost view = { λ b. take b.len b.bytes };

    ghost invariant = { λ b. b.len ≤ 96 };
}

fn put(bytes: &mut [u8], at: usize, piece: &[u8])
    requires { at + length piece.now ≤ length bytes.old }
    ensures { take (at + length piece.now) bytes.new ≡ take at bytes.old ++ piece.now }
{
    bytes[at..at + piece.len()].copy_from_slice(piece);
}

impl LineBuffer {
    /// An empty line.
    pub fn new() -> Self
        ensures { result ≡ [] }
    {
        LineBuffer {
            bytes: [0; 96],
            len: 0,
        }
    }

    /// The text so far.
    pub fn as_slice(&self) -> &[u8]
        ensures { result.now ≡ self.now }
    {
        &self.bytes[..self.len]
    }

    /// Adds text at the end.
    pub fn push(&mut self, piece: &[u8])
        requires { length self.old + length piece.now ≤ 96 }
        ensures { self.new ≡ self.old ++ piece.now }
    {
        put(&mut self.bytes, self.len, piece);
        self.len += piece.len();
    }

    /// Adds a number at the end.
    pub fn push_number(&mut self, number: u64)
        requires { length self.old + 20 ≤ 96 }
        ensures text { self.new ≡ self.old ++ decimal number }
        ensures short { length self.new ≤ length self.old + 20 }
    {
        let mut buffer = Buffer::new();
        let text = buffer.format(number);
        self.push(text.as_bytes());
    }

    /// Adds a word at the end.
    pub fn push_word(&mut self, value: u32)
        requires { length self.old + 8 ≤ 96 }
        ensures text { self.new ≡ self.old ++ word value }
        ensures length { length self.new ≡ length self.old + 8 }
    {
        let text = word_text(value);
        self.push(&text);
    }

    /// Writes the line with a line feed at its end.
    pub fn write<W: Sink>(mut self, out: &mut W) -> Result<(), Failed>
        requires { length self < 96 }
        ensures { Writes result (W.bytes out.old) (W.bytes out.new) (W.failures out.old) (W.failures out.new) (line self) }
    {
        self.push(b"\n");
        let len = self.len;
        write_all(out, &self.bytes[..len])
    }
}
