//! Text that is put before a place in bytes: a line can be made from its end, where the lengths of its numbers are not
//! asked for.

ghost use Rattle.std.specs.Prelude.{◌≡◌, ◌+◌, ◌-◌, ◌/◌, ◌%◌, ◌<◌, ◌≤◌, ◌∷◌, ◌++◌, length, drop, decimal};
ghost use Rattle.ft_types.specs.Text.{hex_digit, word};

use crate::text::byte_text;
use itoa::write_digits;

/// Puts a piece so that it ends at `end`, and says where it starts.
#[inline(always)]
pub fn put_before(bytes: &mut [u8], end: usize, piece: &[u8]) -> usize
    requires room { length piece.now ≤ end }
    requires end { end ≤ length bytes.old }
    ensures start { result + length piece.now ≡ end }
    ensures written { drop result bytes.new ≡ piece.now ++ drop end bytes.old }
{
    let start = end - piece.len();
    bytes[start..end].copy_from_slice(piece);
    start
}

/// Puts a number so that it ends at `end`, and says where it starts.
#[inline]
pub fn put_number_before(bytes: &mut [u8], end: usize, number: u64) -> usize
    requires room { 20 ≤ end }
    requires end { end ≤ length bytes.old }
    ensures start { (result ≤ end) × (end ≤ result + 20) }
    ensures written { drop result bytes.new ≡ decimal number ++ drop end bytes.old }
{
    write_digits(number, bytes, end)
}

#[inline(always)]
fn put_byte_before(bytes: &mut [u8], end: usize, byte: u32)
    requires byte { byte < 256 }
    requires room { 2 ≤ end }
    requires end { end ≤ length bytes.old }
    ensures { drop (end - 2) bytes.new ≡ hex_digit (byte / 16) ∷ hex_digit (byte % 16) ∷ drop end bytes.old }
{
    let (high, low) = byte_text(byte);
    bytes[end - 2] = high;
    bytes[end - 1] = low;
}

/// Puts a word so that it ends at `end`, and says where it starts.
#[inline]
pub fn put_word_before(bytes: &mut [u8], end: usize, value: u32) -> usize
    requires room { 8 ≤ end }
    requires end { end ≤ length bytes.old }
    ensures start { result + 8 ≡ end }
    ensures written { drop result bytes.new ≡ word value ++ drop end bytes.old }
{
    put_byte_before(bytes, end, value % 256);
    put_byte_before(bytes, end - 2, value / 256 % 256);
    put_byte_before(bytes, end - 4, value / 0x1_0000 % 256);
    put_byte_before(bytes, end - 6, value / 0x100_0000);
    end - 8
}
