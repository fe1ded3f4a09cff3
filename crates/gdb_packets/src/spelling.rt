//! The spelling of packets.

ghost use Rattle.std.specs.Prelude.{◌≡◌, ◌%◌, ◌∷◌, [], ◌++◌, OnOk, IfOk, OnErr, sum};
ghost use Rattle.std.specs.List.{flat_map};
ghost use Rattle.hex.specs.Hex.{encode_lower};
ghost use Rattle.gdb_packets.specs.Packets.{is_escaped, escape, sum_text, spelling};

use ft_types::Memory;
use std::alloc::Global;

/// The number of bytes of a packet's spelling at the most: 4,096, as gdb is told, and `$`, `#` and two digits.
pub const TEXT_LIMIT: usize = 4100;

/// Whether the byte stands in no packet as itself.
fn must_escape(byte: u8) -> bool
    ensures { result ≡ is_escaped byte }
{
    byte == b'#' || byte == b'$' || byte == b'*' || byte == b'}'
}

/// Puts a byte as it stands in a packet.
fn put_escaped(text: &mut Vec<u8>, byte: u8) -> Result<(), Memory>
    ensures { OnOk result (text.new.items ≡ text.old.items ++ escape byte) }
{
    if must_escape(byte) {
        text.push(b'}')?;
        text.push(byte - 32)?;
    } else {
        text.push(byte)?;
    }
    Ok(())
}

/// The sum of the bytes, modulo 256.
fn sum_of(bytes: &[u8]) -> u8
    ensures { result ≡ sum bytes.now % 256 }
{
    let mut total: u8 = 0;
    for byte in bytes {
        total = total.wrapping_add(*byte);
    }
    total
}

/// The two digits of the sum of the bytes.
fn sum_digits(bytes: &[u8]) -> [u8; 2]
    ensures { result ≡ sum_text bytes.now }
{
    let mut digits = [0; 2];
    let _fits = hex::encode_to_slice([sum_of(bytes)], &mut digits);
    digits
}

/// The text of the packet that says these bytes.
pub fn write_packet(alloc: Global, bytes: &[u8]) -> Result<Vec<u8>, Memory>
    ensures { IfOk result (λ text. text.items ≡ spelling bytes.now) }
{
    let mut text = Vec::new(alloc);
    text.push(b'$')?;
    for byte in bytes {
        put_escaped(&mut text, *byte)?;
    }
    let digits = sum_digits(&text[1..]);
    text.push(b'#')?;
    text.extend_from_slice(&digits)?;
    Ok(text)
}
