//! Packets that are read.

ghost use Rattle.std.specs.Prelude.{◌≡◌, ◌↔◌, ℕ, ◌++◌, ◌∷◌, List, IfOk, IfSome, IfNone, IsTrue, false};
ghost use Rattle.gdb_packets.specs.Packets.{IsPacket};
ghost use Rattle.gdb_packets.specs.machinery.Unescaped.{unescaped};

use crate::event::PacketBytes;
use crate::spelling::{TEXT_LIMIT, write_packet};
use ft_types::Memory;
use std::alloc::Global;

/// Takes a byte of a body, behind a `}` or not, and says whether it is one.
fn take_said(bytes: &mut Vec<u8>, is_behind: bool, byte: u8) -> Result<bool, Memory>
    ensures { (rest : List ℕ) → IfOk result (λ behind. bytes.new.items ++ unescaped behind rest ≡ bytes.old.items ++ unescaped is_behind (byte ∷ rest)) }
{
    if is_behind {
        bytes.push(byte.wrapping_add(32))?;
        return Ok(false);
    }
    if byte == b'}' {
        return Ok(true);
    }
    bytes.push(byte)?;
    Ok(false)
}

/// The bytes that a body says.
fn said(alloc: Global, body: &[u8]) -> Result<Vec<u8>, Memory>
    ensures { IfOk result (λ bytes. bytes.items ≡ unescaped false body.now) }
{
    let mut bytes = Vec::new(alloc);
    let mut is_behind = false;
    for byte in body {
        is_behind = take_said(&mut bytes, is_behind, *byte)?;
    }
    Ok(bytes)
}

/// Whether the text is the other.
fn is(text: &[u8], other: &[u8]) -> bool
    ensures { IsTrue result ↔ (text.now ≡ other.now) }
{
    text == other
}

/// The bytes that the packet says whose text this is.
#[tactic(auto, using(crate::proofs::Escapes::too_short))]
pub fn read_packet(alloc: Global, text: &[u8]) -> Result<Option<PacketBytes>, Memory>
    ensures found { IfOk result (λ found. IfSome found (λ bytes. IsPacket text.now bytes)) }
    ensures none { IfOk result (λ found. IfNone found ((bytes : List ℕ) → IsPacket text.now bytes → ⊥)) }
{
    if text.len() < 4 || text.len() > TEXT_LIMIT {
        return Ok(None);
    }
    let bytes = said(alloc, &text[1..text.len() - 3])?;
    let spelled = write_packet(alloc, &bytes)?;
    if is(spelled.as_slice(), text) {
        Ok(Some(PacketBytes::of(bytes)))
    } else {
        Ok(None)
    }
}
