//! What a feed gives for each push. Digests are those of `sha256sum`. Whole frames, and what is made where there is no room, the cases of
//! `frames`, `notes` and `refused` show.

use fixtures::{edge, guest_with, key, piece_of};
use fragment_codec::{Feed, Frame, FrameFault, Record, write_frame};
use ft_types::{Failed, MemorySink};
use std::alloc::Global;
use std::test::Fail;

/// The opening of term 1 from boot, of the guest of the image file with the lines `harts 1`, `pages 1`, `f00000b7`, `02a00113`, `0020a423` and
/// `0000aa23`.
pub(crate) const OPENING: &[u8] = b"\
VF\x02\x021\x00\x00\x00p\xb1\xf4\xd2_A\x17\xb7\xcff\xb8\x9e\xcf4\xed)\xda\x8d\x8e\xe0\
\xbf\x8cZ\x7f\x05Q\x14Y\x92\x02TV\x01\x01\x00\x00\x00\x00\x00\x00\x00\x00\x00\x00\x00\x00\x00\x00\
\x00\x91Cq\xa6\x8a\xac\xce\xca\x03\x84\x97\xe8\x8d\x94Xy\xcd2\xd4\xe8\xda\xd4+3\xdcv\x97\
H\xd2\xf9\xe0\x1c";

/// Its hart's steps 0 to 4, without records.
const LOG: &[u8] = b"\
VF\x02\x01<\x00\x00\x00p\xb1\xf4\xd2_A\x17\xb7\xcff\xb8\x9e\xcf4\xed)\xda\x8d\x8e\xe0\
\xbf\x8cZ\x7f\x05Q\x14Y\x92\x02TV\x01\x00\x01\x00\x00\x00\x00\x00\x00\x00\x00\x00\x00\x00\x00\x00\
\x00\x00\x04\x00\x00\x00\x00\x00\x00\x00\x00\x00w\xb6DQ&\xa665wN\x15bo8G\xba\
&\x96f\xe0\xb0X_\xc1\x8b\xf1\xb6\xd9\xc01-\x9f";

/// The same steps of a guest that was given a word at count 1.
pub(crate) const WORD: &[u8] = b"\
VF\x02\x01F\x00\x00\x00p\xb1\xf4\xd2_A\x17\xb7\xcff\xb8\x9e\xcf4\xed)\xda\x8d\x8e\xe0\
\xbf\x8cZ\x7f\x05Q\x14Y\x92\x02TV\x01\x00\x01\x00\x00\x00\x00\x00\x00\x00\x00\x00\x00\x00\x00\x00\
\x00\x00\x04\x00\x00\x00\x00\x00\x00\x00\x01\x00\x02\x01\x00\x00\x00\x01*\x00\x00\x00\x0b<\xca\xc2m]\
\xa1\xd6<bd\xf1\x7f\xa0<a.\xdb\xf3\xe4\xf6n\x08?\xa9mX\xd3V\x81\xa9\x0f";

/// That frame in version 1.
pub(crate) const FIRST_WORD: &[u8] = b"\
VF\x01\x01J\x00\x00\x00p\xb1\xf4\xd2_A\x17\xb7\xcff\xb8\x9e\xcf4\xed)\xda\x8d\x8e\xe0\
\xbf\x8cZ\x7f\x05Q\x14Y\x92\x02TV\x01\x00\x01\x00\x00\x00\x00\x00\x00\x00\x00\x00\x00\x00\x00\x00\
\x00\x00\x04\x00\x00\x00\x00\x00\x00\x00\x01\x00\x02\x01\x00\x00\x00\x00\x00\x00\x00\x01*\x00\x00\x00\x9e\x0e\
K-\xde\x18\xfd\xda\xde\x88\x90\xe2o\xb9\xac2\xbc\xba\x96\x86\xd1ko\"\xfb\x8dK\x08\xc2P\
\xd9\x80";

/// A step later, at which it is noted that its first output was released.
const NOTED: &[u8] = b"\
VF\x02\x01I\x00\x00\x00p\xb1\xf4\xd2_A\x17\xb7\xcff\xb8\x9e\xcf4\xed)\xda\x8d\x8e\xe0\
\xbf\x8cZ\x7f\x05Q\x14Y\x92\x02TV\x01\x00\x01\x00\x00\x00\x01\x00\x00\x00\x03\x00\x00\x00\x00\x00\
\x00\x00\x04\x00\x00\x00\x00\x00\x00\x00\x01\x00\x03\x00\x00\x00\x00\x01\x00\x00\x00\x00\x00\x00\x00\x94`\xb9\
\xf9$\xcf\x9f\xbe\x8e\xca\xff\xf0\xd3\x04\xd2\xb7\x12,A@6\xa3\x1f\x85\xd2ca\xe3\x92\xc9\x02\
\xe4";

/// What version 1 would have of it, which tells of no note.
const FIRST_NOTED: &[u8] = b"\
VF\x01\x01M\x00\x00\x00p\xb1\xf4\xd2_A\x17\xb7\xcff\xb8\x9e\xcf4\xed)\xda\x8d\x8e\xe0\
\xbf\x8cZ\x7f\x05Q\x14Y\x92\x02TV\x01\x00\x01\x00\x00\x00\x01\x00\x00\x00\x03\x00\x00\x00\x00\x00\
\x00\x00\x04\x00\x00\x00\x00\x00\x00\x00\x01\x00\x03\x03\x00\x00\x00\x00\x00\x00\x00\x01\x00\x00\x00\x00\x00\x00\
\x00\xb6\x01T\xe4\x84S2\xd6*F\xcbg\xc4#\x7fw\x939\xf9\xa5\xab'\xb9\x87\xc2\x16\x1e\
YM\xc0\x9bV";

/// The opening, and the beginning of a frame of version 3.
const VERSION_BEHIND: &[u8] = b"\
VF\x02\x021\x00\x00\x00p\xb1\xf4\xd2_A\x17\xb7\xcff\xb8\x9e\xcf4\xed)\xda\x8d\x8e\xe0\
\xbf\x8cZ\x7f\x05Q\x14Y\x92\x02TV\x01\x01\x00\x00\x00\x00\x00\x00\x00\x00\x00\x00\x00\x00\x00\x00\
\x00\x91Cq\xa6\x8a\xac\xce\xca\x03\x84\x97\xe8\x8d\x94Xy\xcd2\xd4\xe8\xda\xd4+3\xdcv\x97\
H\xd2\xf9\xe0\x1cVF\x03";

/// The log, of which the last byte is another one.
const OTHER_DIGEST: &[u8] = b"\
VF\x02\x01<\x00\x00\x00p\xb1\xf4\xd2_A\x17\xb7\xcff\xb8\x9e\xcf4\xed)\xda\x8d\x8e\xe0\
\xbf\x8cZ\x7f\x05Q\x14Y\x92\x02TV\x01\x00\x01\x00\x00\x00\x00\x00\x00\x00\x00\x00\x00\x00\x00\x00\
\x00\x00\x04\x00\x00\x00\x00\x00\x00\x00\x00\x00w\xb6DQ&\xa665wN\x15bo8G\xba\
&\x96f\xe0\xb0X_\xc1\x8b\xf1\xb6\xd9\xc01-\x9e";

/// What a feed answers to a push: the number of frames, or that of the fault.
type Answer = Result<usize, u8>;

/// A frame of each kind, in either version, and the beginning of one of version 3. What is told comes with the last byte.
static FRAMES: [(&[u8], Answer); 6] = [
    (OPENING, Ok(1)),
    (FIRST_WORD, Ok(1)),
    (WORD, Ok(1)),
    (LOG, Ok(1)),
    (NOTED, Ok(1)),
    (b"VF\x03", Err(2)),
];

/// Pushes to one feed each. A fault is told once the frames before it were given, and from then on always.
static PUSHES: [&[(&[u8], Answer)]; 3] = [
    &[(VERSION_BEHIND, Ok(1)), (&[], Err(2)), (OPENING, Err(2))],
    &[(OTHER_DIGEST, Err(5)), (LOG, Err(5)), (&[], Err(5))],
    &[(NOTED, Ok(1)), (FIRST_NOTED, Err(6)), (NOTED, Err(6))],
];

/// The answer to a push, which is made again where memory was refused.
fn pushed(alloc: Global, feed: &mut Feed, piece: &[u8]) -> Answer {
    let answer = match feed.push(alloc, piece) {
        Err(FrameFault::Memory) => feed.push(alloc, piece),
        answer => answer,
    };
    match answer {
        Ok(frames) => Ok(frames.len()),
        Err(fault) => Err(fault.number()),
    }
}

/// Whether the last of these bytes brings that, and those before it nothing, where they are pushed one by one.
fn comes_last(alloc: Global, feed: &mut Feed, bytes: &[u8], want: Answer) -> bool {
    let mut left = bytes.len();
    for byte in bytes {
        left = left.saturating_sub(1);
        let wanted = if left == 0 { want } else { Ok(0) };
        if pushed(alloc, feed, &[*byte]) != wanted {
            return false;
        }
    }
    true
}

/// Whether these pushes are answered so.
fn are_answered(alloc: Global, feed: &mut Feed, pushes: &[(&[u8], Answer)]) -> bool {
    for (piece, want) in pushes {
        if pushed(alloc, feed, piece) != *want {
            return false;
        }
    }
    true
}

#[test]
fn byte_by_byte(rt: HostRuntime) -> Result<(), Fail> {
    let mut feed = Feed::new(rt.alloc())?;
    let mut right = true;
    for (frame, want) in &FRAMES {
        right = right && comes_last(rt.alloc(), &mut feed, frame, *want);
    }
    assert!(rt; right);
    Ok(())
}

#[test]
fn faults_stay(rt: HostRuntime) -> Result<(), Fail> {
    let mut right = true;
    for pushes in &PUSHES {
        let mut feed = Feed::new(rt.alloc())?;
        right = right && are_answered(rt.alloc(), &mut feed, pushes);
    }
    assert!(rt; right);
    Ok(())
}

/// A frame in a writer with ample room, which fails where memory is refused.
fn write_whole(alloc: Global, frame: &Frame) -> Result<MemorySink, Failed> {
    let mut sink = MemorySink::new(alloc, 10_000);
    write_frame(frame, &mut sink)?;
    Ok(sink)
}

/// The bytes of the frame of 256 edges.
fn largest(alloc: Global) -> Result<MemorySink, Fail> {
    let mut records = Vec::new(alloc);
    for at in 0..256u64 {
        records.push(Record::Edge(edge(0, at, 1, 9)))?;
    }
    let frame = piece_of(
        alloc,
        guest_with([7; 32], 2),
        key(1, 0, 0),
        0,
        256,
        &records,
    )?;
    match write_whole(alloc, &frame) {
        Ok(sink) => Ok(sink),
        Err(Failed) => Ok(write_whole(alloc, &frame)?),
    }
}

#[test]
fn the_largest_is_read(rt: HostRuntime) -> Result<(), Fail> {
    let sink = largest(rt.alloc())?;
    let bytes = sink.bytes();
    let mut feed = Feed::new(rt.alloc())?;
    assert!(rt; bytes.len() == 3684 && comes_last(rt.alloc(), &mut feed, bytes, Ok(1)));
    Ok(())
}
