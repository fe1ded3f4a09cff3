//! The packets of a case.

use crate::reading::Line;
use std::alloc::Global;

/// Adds a packet that says this.
fn add_packet(alloc: Global, bytes: &mut Vec<u8>, text: &str) -> Option<()> {
    let mut sum = 0u8;
    for byte in text.as_bytes() {
        sum = sum.wrapping_add(*byte);
    }
    let packet = format!(in alloc; "${text}#{sum:02x}").ok()?;
    bytes.extend_from_slice(packet.as_bytes()).ok()
}

/// What the lines say, a packet each: `+` and `-` stand for themselves.
pub fn packets_of(alloc: Global, content: &[Line<'_>]) -> Option<Vec<u8>> {
    let mut bytes = Vec::new(alloc);
    for line in content {
        match line.text {
            "+" | "-" => bytes.extend_from_slice(line.text.as_bytes()).ok()?,
            text => add_packet(alloc, &mut bytes, text)?,
        }
    }
    Some(bytes)
}
