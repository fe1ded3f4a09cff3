//! Bytes of RAM.

ghost use Rattle.std.specs.Prelude.{◌≡◌, ◌⊎◌, ◌+◌, ◌^◌, ◌≤◌, List, ℕ, IfOk, IfSome, IfNone, false, length};
ghost use Rattle.rv32_hart.specs.Access.{in_ram};
ghost use Rattle.debugging.specs.Memories.{ShowsBytes, byte_in, memory_answer};

use ft_types::Memory;
use moments::Timeline;
use plan_lines::Bytes;
use std::alloc::Global;

/// The number of bytes that one packet shows at the most.
pub(crate) const SHOWN_LIMIT: u32 = 2048;

/// The byte of RAM so many behind an address.
fn byte_behind(line: &Timeline, first: u32, number: u32) -> Option<u8>
    ensures byte { IfSome result (λ b. b ≡ byte_in line.now.stands.machine.pages (first + number)) }
    ensures none { IfNone result ((in_ram (length line.now.stands.machine.pages) (first + number) ≡ false) ⊎ (2 ^ 32 ≤ first + number)) }
{
    let address = first.checked_add(number)?;
    line.byte(address)
}

/// The bytes of RAM from the first on, up to so many, to the end of RAM, or to what one packet shows.
fn bytes_of(alloc: Global, line: &Timeline, range: Bytes) -> Result<Vec<u8>, Memory>
    ensures { IfOk result (λ bytes. ShowsBytes line.now.stands.machine.pages range.first range.length bytes.items) }
{
    let mut bytes = Vec::new(alloc);
    for number in 0..range.length.min(SHOWN_LIMIT) {
        let Some(byte) = byte_behind(line, range.first, number) else {
            return Ok(bytes);
        };
        bytes.push(byte)?;
    }
    Ok(bytes)
}

/// The text of these bytes, or that there are none of those that were wanted.
fn bytes_text(alloc: Global, wanted: u32, bytes: &[u8]) -> Result<Vec<u8>, Memory>
    ensures { IfOk result (λ text. text.items ≡ memory_answer wanted bytes.now) }
{
    if bytes.is_empty() && wanted > 0 {
        return Ok(b"E02".to_vec(alloc)?);
    }
    let text = hex::encode(alloc, bytes)?;
    Ok(text.into_bytes())
}

/// The text of the bytes of RAM from the first on.
pub(crate) fn memory_text(alloc: Global, line: &Timeline, range: Bytes) -> Result<Vec<u8>, Memory>
    ensures { IfOk result (λ text. (bytes : List ℕ) × ShowsBytes line.now.stands.machine.pages range.first range.length bytes ×
        (text.items ≡ memory_answer range.length bytes)) }
{
    let bytes = bytes_of(alloc, line, range)?;
    bytes_text(alloc, range.length, bytes.as_slice())
}
