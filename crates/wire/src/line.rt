//! Lines that are made on the stack.

ghost use Rattle.std.specs.Prelude.{◌≡◌, ℕ, ◌+◌, ◌<◌, ◌≤◌, ◌++◌, ◌∷◌, [], List, length, take, decimal};
ghost use Rattle.ft_types.specs.Devices.{Writes};
ghost use Rattle.ft_types.specs.Text.{word};

use ft_types::{Failed, LineBuffer, Sink, word_text, write_all};
use std::marker::Model;

/// The number of bytes of a line at the most, its line feed included. The longest that is written is an acknowledgement of 32 harts: it has
/// 26 bytes and 16 for each hart, so 538 at the most, and 698 if its counts were as great as a `u64` can be.
pub const LINE_LIMIT: usize = 1024;

/// A line, or a part of one. Contracts see its bytes.
#[derive(Drop)]
pub struct Line {
    bytes: [u8; LINE_LIMIT],
    len: usize,
}

impl Model for Line {
    ghost use Rattle.std.specs.Prelude.{ℕ, List, take, ◌≤◌};
    ghost use Rattle.wire.specs.declared.line.TheConstants.{LINE_LIMIT};

    ghost Value = { List ℕ };

    ghost view = { λ l. take l.len l.bytes };

    ghost invariant = { λ l. l.len ≤ LINE_LIMIT };
}

fn put(bytes: &mut [u8], at: usize, piece: &[u8])
    requires { at + length piece.now ≤ length bytes.old }
    ensures { take (at + length piece.now) bytes.new ≡ take at bytes.old ++ piece.now }
{
    bytes[at..at + piece.len()].copy_from_slice(piece);
}

impl Line {
    /// A line without bytes.
    pub(crate) fn new() -> Line
        ensures { result ≡ [] }
    {
        Line {
            bytes: [0; LINE_LIMIT],
            len: 0,
        }
    }

    /// Takes all bytes out.
    pub(crate) fn clear(&mut self)
        ensures { self.new ≡ [] }
    {
        self.len = 0;
    }

    /// The number of its bytes.
    pub(crate) fn len(&self) -> usize
        ensures value { result ≡ length self.now }
        ensures limit { result ≤ LINE_LIMIT }
    {
        self.len
    }

    /// Its bytes.
    pub fn as_slice(&self) -> &[u8]
        ensures value { result.now ≡ self.now }
        ensures limit { length result.now ≤ LINE_LIMIT }
    {
        &self.bytes[..self.len]
    }

    /// Adds bytes at the end.
    pub(crate) fn push(&mut self, piece: &[u8])
        requires { length self.old + length piece.now ≤ LINE_LIMIT }
        ensures bytes { self.new ≡ self.old ++ piece.now }
        ensures len { length self.new ≡ length self.old + length piece.now }
    {
        put(&mut self.bytes, self.len, piece);
        self.len += piece.len();
    }

    /// Adds a field behind a space.
    pub(crate) fn push_field(&mut self, field: &[u8])
        requires { length self.old + length field.now < LINE_LIMIT }
        ensures bytes { self.new ≡ self.old ++ 32 ∷ field.now }
        ensures len { length self.new ≡ length self.old + length field.now + 1 }
    {
        self.push(b" ");
        self.push(field);
    }

    /// Adds a number.
    pub(crate) fn push_digits(&mut self, number: u64)
        requires { length self.old + 20 ≤ LINE_LIMIT }
        ensures bytes { self.new ≡ self.old ++ decimal number }
        ensures len { length self.new ≤ length self.old + 20 }
    {
        let mut digits = LineBuffer::new();
        digits.push_number(number);
        self.push(digits.as_slice());
    }

    /// Adds a number behind a space.
    pub(crate) fn push_number(&mut self, number: u64)
        requires { length self.old + 21 ≤ LINE_LIMIT }
        ensures bytes { self.new ≡ self.old ++ 32 ∷ decimal number }
        ensures len { length self.new ≤ length self.old + 21 }
    {
        self.push(b" ");
        self.push_digits(number);
    }

    /// Adds a word behind a space.
    pub(crate) fn push_word(&mut self, value: u32)
        requires { length self.old + 9 ≤ LINE_LIMIT }
        ensures bytes { self.new ≡ self.old ++ 32 ∷ word value }
        ensures len { length self.new ≡ length self.old + 9 }
    {
        self.push_field(&word_text(value));
    }

    /// Writes it.
    pub fn write<W: Sink>(&self, out: &mut W) -> Result<(), Failed>
        ensures { Writes result (W.bytes out.old) (W.bytes out.new) (W.failures out.old) (W.failures out.new) self.now }
    {
        write_all(out, self.as_slice())
    }
}
