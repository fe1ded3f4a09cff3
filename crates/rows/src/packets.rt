//! Packets of gdb's protocol: what stands on a stream, however it is cut, and how packets are spelled. Sums are those of gdb's manual: the
//! bytes between `$` and `#`, modulo 256.

use ft_types::Memory;
use gdb_packets::{Event, PacketFeed, write_packet};
use std::alloc::Global;
use std::test::Fail;

/// What is told of a stream: a packet between brackets, `!` of what is none, `+`, `-`, and `^` of an interrupt.
fn tell(told: &mut Vec<u8>, event: &Event) -> Result<(), Memory> {
    match event {
        Event::Packet(bytes) => {
            told.push(b'[')?;
            told.extend_from_slice(bytes.as_slice())?;
            told.push(b']')?;
        }
        Event::Broken => told.push(b'!')?,
        Event::Heard => told.push(b'+')?,
        Event::Again => told.push(b'-')?,
        Event::Interrupt => told.push(b'^')?,
    }
    Ok(())
}

/// What is told of these two pieces.
fn told(alloc: Global, first: &[u8], second: &[u8]) -> Result<Vec<u8>, Memory> {
    let mut told = Vec::new(alloc);
    let mut feed = PacketFeed::new(alloc);
    for piece in [first, second] {
        let (after, events) = feed.push(alloc, piece)?;
        feed = after;
        for event in &events {
            tell(&mut told, event)?;
        }
    }
    Ok(told)
}

/// Streams, and what is told of each. A sum in upper case, one that is another, a `$` or a `*` inside, a `}` before what needs none, and at the
/// end are no packets; what stands between packets says nothing; what is under way is not told.
static STREAMS: [(&[u8], &[u8]); 16] = [
    (b"", b""),
    (b"+$g#67", b"+[g]"),
    (b"$g#67$?#3f", b"[g][?]"),
    (b"$#00", b"[]"),
    (b"$m80000000,4#55-", b"[m80000000,4]-"),
    (b"\x03$QStartNoAckMode#b0", b"^[QStartNoAckMode]"),
    (b"$a}\x03b}\x04c}\nd}]#ec", b"[a#b$c*d}]"),
    (b"$a}\x03b}\x04c}\nd}]#EC$g#67", b"![g]"),
    (b"$g#68+", b"!+"),
    (b"$?#3F", b"!"),
    (b"$$#24", b"!"),
    (b"$*#2a", b"!"),
    (b"$}A#be", b"!"),
    (b"$}#7d", b"!"),
    (b"xyz#67$g#6", b""),
    (b"$g", b""),
];

#[test]
fn streams(rt: HostRuntime) -> Result<(), Fail> {
    let mut right = true;
    for (stream, wanted) in &STREAMS {
        for end in 0..stream.len() + 1 {
            let (first, second) = stream.split_at(end);
            right = right && told(rt.alloc(), first, second)?.as_slice() == *wanted;
        }
    }
    assert!(rt; right);
    Ok(())
}

/// What packets say, and their texts.
static TEXTS: [(&[u8], &[u8]); 4] = [
    (b"", b"$#00"),
    (b"OK", b"$OK#9a"),
    (b"E01", b"$E01#a6"),
    (b"a#b$c*d}", b"$a}\x03b}\x04c}\nd}]#ec"),
];

#[test]
fn spellings(rt: HostRuntime) -> Result<(), Fail> {
    let mut right = true;
    for (bytes, text) in &TEXTS {
        right = right && write_packet(rt.alloc(), bytes)?.as_slice() == *text;
    }
    assert!(rt; right);
    Ok(())
}

/// The packet of so many bytes `a`, `g`'s behind it, and what is told.
fn long(alloc: Global, length: usize) -> Result<Vec<u8>, Memory> {
    let mut bytes = Vec::new(alloc);
    for _ in 0..length {
        bytes.push(b'a')?;
    }
    told(alloc, &write_packet(alloc, &bytes)?, b"$g#67")
}

#[test]
fn lengths(rt: HostRuntime) -> Result<(), Fail> {
    let most = long(rt.alloc(), 4096)?;
    let more = long(rt.alloc(), 4097)?;
    assert!(rt; most.len() == 4101 && most.ends_with(b"a][g]"));
    assert!(rt; matches!(more.as_slice(), b"![g]"));
    Ok(())
}
