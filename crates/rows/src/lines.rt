//! Lines that the processes of a pair send each other: which texts are read, and that what is read is written so. A seal is the first
//! eight digits of what sha256sum says of the image's digest and the text.

use crate::tables::{all_right, number, row};
use ft_types::{COUNT_LIMIT, Counts, Guest, Hart, Keeper, Memory, Output};
use std::alloc::Global;
use wire::{
    Acknowledgement, Answer, Handed, Keeps, Line, LineFeed, Request, acknowledgement_line,
    again_line, answer_line, fence_entry, fence_line, handed_line, keeps_line, last_fence,
    pair_line, read_acknowledgement, read_again, read_answer, read_fence, read_handed, read_keeps,
    read_pair, read_request, request_line,
};

/// SHA-256 of the image file of the lines `harts 2` and `pages 1`.
const IMAGE: [u8; 32] = [
    0x38, 0xda, 0x58, 0xe9, 0x10, 0x6f, 0x72, 0xa0, 0x60, 0x7c, 0x67, 0xed, 0xb8, 0xfb, 0x2c, 0x2c,
    0x28, 0xd3, 0x46, 0xa4, 0x8b, 0x75, 0x35, 0xa9, 0x4f, 0xa7, 0xde, 0xe7, 0xf6, 0x9e, 0x6a, 0x0b,
];

/// A guest of that image's bytes with so many harts, 1 to 32.
fn guest(harts: u8) -> Option<Guest> {
    Guest::new(IMAGE, harts)
}

/// Bytes without the line feed at their end.
pub fn without_line_feed(bytes: &[u8]) -> &[u8] {
    match bytes {
        [text @ .., b'\n'] => text,
        _ => b"no line",
    }
}

/// The text of a line, without its line feed.
pub fn text_of(line: &Line) -> &[u8] {
    without_line_feed(line.as_slice())
}

/// Whether the line is this text with a line feed.
pub fn is_line(line: &Line, text: &[u8]) -> bool {
    text_of(line) == text
}

/// Whether what an acknowledgement says is written so again, where the text is one.
fn acknowledges(guest: &Guest, text: &[u8]) -> Option<bool> {
    let acknowledgement = read_acknowledgement(guest, text)?;
    Some(is_line(&acknowledgement_line(guest, &acknowledgement), text))
}

/// The same of a keeper that says `again`.
fn begins_anew(guest: &Guest, text: &[u8]) -> Option<bool> {
    let keeper = read_again(guest, text)?;
    Some(is_line(&again_line(guest, keeper), text))
}

/// The same of a fence.
fn fences(guest: &Guest, text: &[u8]) -> Option<bool> {
    let term = read_fence(guest, text)?;
    Some(is_line(&fence_line(guest, term), text))
}

/// The same of what begins a log that is handed over.
fn hands_over(guest: &Guest, text: &[u8]) -> Option<bool> {
    let handed = read_handed(guest, text)?;
    Some(is_line(&handed_line(guest, &handed), text))
}

/// The same of a pair.
fn names_a_pair(guest: &Guest, text: &[u8]) -> Option<bool> {
    let pair = read_pair(guest, text)?;
    Some(is_line(&pair_line(guest, &pair), text))
}

/// The same of whose files a keeper's are.
fn keeps(guest: &Guest, text: &[u8]) -> Option<bool> {
    let keeps = read_keeps(guest, text)?;
    Some(is_line(&keeps_line(guest, &keeps), text))
}

/// The same of a request to harts 0 and 1.
fn asks(text: &[u8]) -> Option<bool> {
    let request = read_request(2, text)?;
    Some(is_line(&request_line(&request), text))
}

/// The same of an answer of one of them.
fn answers(text: &[u8]) -> Option<bool> {
    let answer = read_answer(2, text)?;
    Some(is_line(&answer_line(&answer), text))
}

/// Whether a text is what it is called, alone, and is written so again.
fn is_called(guest: &Guest, text: &[u8], name: &str) -> bool {
    let said = [
        acknowledges(guest, text),
        begins_anew(guest, text),
        fences(guest, text),
        hands_over(guest, text),
        names_a_pair(guest, text),
        keeps(guest, text),
        asks(text),
        answers(text),
    ];
    let wanted = match name {
        "ack" => [Some(true), None, None, None, None, None, None, None],
        "again" => [None, Some(true), None, None, None, None, None, None],
        "fence" => [None, None, Some(true), None, None, None, None, None],
        "handed" => [None, None, None, Some(true), None, None, None, None],
        "pair" => [None, None, None, None, Some(true), None, None, None],
        "keeps" => [None, None, None, None, None, Some(true), None, None],
        "request" => [None, None, None, None, None, None, Some(true), None],
        "answer" => [None, None, None, None, None, None, None, Some(true)],
        _ => [None; 8],
    };
    said == wanted
}

/// Under a seal, then requests, then answers. What is nothing has, in turn, a seal without the digest, of another text, in upper case,
/// behind two spaces, torn, not there; under a right seal a number out of its bounds; a count too few or too many, a field that is empty,
/// a leading zero.
static CALLED: &str = "\
ack 1 0 0 0 94a4c146|ack
ack 4294967295 4 281474976710655 7 09329406|ack
again 4 e7f4ef4b|again
fence 1 0b1e4405|fence
fence 10 ab65f06a|fence
handed 3 1 0 eec782f8|handed
handed 2 4 281474976710655 b6ed3a3e|handed
pair 1 1 0000000000000000 4f7dedf1|pair
pair 5 3 ffffffffffffffff e5b2b311|pair
keeps 0 1 1 0000000000000000 0000000000000000 0000000000000000 0000000000000000 0000000000000000 2ff65b58|keeps
keeps 4 5 2 0123456789abcdef ffffffffffffffff 18ed0b41d2c36cd8 0000000000a74004 18ed0b41d2c36cd9 36a9e695|keeps
ack 1 0 0 0 56fb682e|nothing
ack 1 0 0 1 94a4c146|nothing
ack 1 0 0 0 94A4C146|nothing
ack 1 0 0 0  94a4c146|nothing
ack 1 0 0 0 94a4c14|nothing
ack 1 0 0 0|nothing
94a4c146|nothing
|nothing
ack 0 0 0 0 507715d1|nothing
ack 4294967296 0 0 0 8fa38dc6|nothing
ack 1 5 0 0 aa03d616|nothing
ack 1 0 281474976710656 0 3a78dacd|nothing
fence 0 bfc526ff|nothing
handed 1 0 281474976710656 daea29b2|nothing
again 5 6b8bb7c9|nothing
ack 1 0 0 bc8ad4cc|nothing
ack 1 0 0 0 0 c1d2512a|nothing
ack 1 0 0 0  5878da4f|nothing
ack  1 0 0 0 905eeebe|nothing
ack 01 0 0 0 2356eb74|nothing
fence 1  b4fc57e1|nothing
again bf979c1e|nothing
pair 3 0 0000000000000000 cff0a0ca|nothing
pair 2 3 0000000000000000 829d510c|nothing
pair 6 3 0000000000000000 c754621d|nothing
pair 3 2 000000000000000 112d05e0|nothing
pair 3 2 00000000000000000 414f7ca4|nothing
pair 3 2 FFFFFFFFFFFFFFFF 30859c6b|nothing
pair 3 2 0000000000000000 0 44ecd8ef|nothing
pair 3 2 5f71649e|nothing
pair 03 2 0000000000000000 81784d18|nothing
keeps 1 1 1 0000000000000000 0000000000000000 0000000000000000 0000000000000000 0000000000000000 852c6899|nothing
keeps 0 1 1 0000000000000000 0000000000000000 0000000000000000 0000000000000000 d6b0303c|nothing
keeps 0 1 1 0000000000000000 0000000000000000 0000000000000000 0000000000000000 0000000000000000 0000000000000000 c85ab493|nothing
keeps 0 1 1 0000000000000000 0000000000000000 0000000000000000 0000000000000000 12 50fc1c49|nothing
pair 1 1 0000000000000000|nothing
0 timer|request
1 word 0000002a|request
1 word deadbeef 0|request
0 from 281474976710655|request
2 timer|nothing
01 timer|nothing
0 timer |nothing
0 timer 1|nothing
0  timer|nothing
0 from|nothing
0 from 281474976710656|nothing
0 from 1 2|nothing
0 word|nothing
0 word 2a|nothing
0 word 0000002a |nothing
0 word 0000002a 1 2|nothing
0 bell|nothing
0|nothing
term 1 hart 1 number 0 step 9 word 0000002a|answer
term 0 hart 1 number 0 step 9 word 0000002a|nothing
term 1 hart 2 number 0 step 9 word 0000002a|nothing
term 1 hart 1 number 0 step 9 word 0000002a |nothing
term 1 hart 1 step 9 number 0 word 0000002a|nothing
term 1 hart 1 number 0 step 9 word|nothing
";

/// The first text that is something else.
fn first_wrong(guest: &Guest, rows: &'static str) -> Option<&'static str> {
    for line in rows.lines() {
        let (text, name) = row(line);
        if !is_called(guest, text.as_bytes(), name) {
            return Some(line);
        }
    }
    None
}

/// The term, the keeper, and the counts of two harts.
fn acknowledged(guest: &Guest, text: &[u8]) -> Option<(u32, u8, [u64; 2])> {
    let Acknowledgement {
        term,
        keeper,
        counts,
    } = read_acknowledgement(guest, text)?;
    let mut row = [0; 2];
    row.copy_from_slice(counts.as_slice().get(..2)?);
    Some((term, keeper.number(), row))
}

/// The term, the keeper, and the number of bytes.
fn handed(guest: &Guest, text: &[u8]) -> Option<(u32, u8, u64)> {
    let Handed {
        term,
        keeper,
        length,
    } = read_handed(guest, text)?;
    Some((term, keeper.number(), length))
}

/// A line that says whose files they are.
const OWNER: &[u8] =
    b"keeps 4 5 2 0123456789abcdef ffffffffffffffff 18ed0b41d2c36cd8 0000000000a74004 18ed0b41d2c36cd9 36a9e695";

/// The keeper, how many there are, how many of them must hold an output, and the pair.
fn keeper_of(guest: &Guest, text: &[u8]) -> Option<(u8, u8, u8, u64)> {
    let Keeps { keeper, pair, .. } = read_keeps(guest, text)?;
    Some((
        keeper.number(),
        pair.quorum.keepers(),
        pair.quorum.need(),
        pair.name,
    ))
}

/// The numbers of a log and its fences, each with when it was made.
fn files_of(guest: &Guest, text: &[u8]) -> Option<[u64; 4]> {
    let Keeps { log, fences, .. } = read_keeps(guest, text)?;
    Some([log.number, log.born, fences.number, fences.born])
}

/// Whether the values of lines under a seal are read, and not for a guest of fewer harts.
fn sealed_values(guest: &Guest, fewer: &Guest) -> bool {
    let text = b"ack 4294967295 4 281474976710655 7 09329406".as_slice();
    let counts = [281_474_976_710_655, 7];
    let handed_text = b"handed 2 4 281474976710655 b6ed3a3e".as_slice();
    acknowledged(guest, text) == Some((4_294_967_295, 4, counts))
        && acknowledged(fewer, text).is_none()
        && handed(guest, handed_text) == Some((2, 4, 281_474_976_710_655))
        && read_fence(guest, b"fence 10 ab65f06a") == Some(10)
        && keeper_of(guest, OWNER) == Some((4, 5, 2, 0x0123_4567_89ab_cdef))
        && files_of(guest, OWNER)
            == Some([
                u64::MAX,
                0x18ed_0b41_d2c3_6cd8,
                0xa7_4004,
                0x18ed_0b41_d2c3_6cd9,
            ])
}

fn is_request(text: &[u8], request: Request) -> bool {
    read_request(2, text) == Some(request)
}

fn is_word(text: &[u8], word: u32, number: Option<u64>) -> bool {
    let hart = Hart::new(1);
    is_request(text, Request::Word { hart, word, number })
}

fn is_answer(text: &[u8], term: u32, output: Output) -> bool {
    read_answer(2, text) == Some(Answer { term, output })
}

/// Whether the values of requests and of an answer are read.
fn values() -> bool {
    let hart = Hart::new(0);
    let number = 281_474_976_710_655;
    let output = Output {
        hart: Hart::new(1),
        number: 0,
        step: 9,
        word: 42,
    };
    is_request(b"0 timer", Request::Timer(hart))
        && is_word(b"1 word 0000002a", 42, None)
        && is_word(b"1 word deadbeef 0", 0xdead_beef, Some(0))
        && is_request(b"0 from 281474976710655", Request::From { hart, number })
        && is_answer(b"term 1 hart 1 number 0 step 9 word 0000002a", 1, output)
}

/// The length of the longest line, an acknowledgement of 32 harts, where it is read again.
fn longest(guest: &Guest) -> Option<usize> {
    let acknowledgement = Acknowledgement {
        term: u32::MAX,
        keeper: Keeper::new(4),
        counts: Counts::from_slice(&[COUNT_LIMIT - 1; 32])?,
    };
    let line = acknowledgement_line(guest, &acknowledgement);
    if read_acknowledgement(guest, text_of(&line))? == acknowledgement {
        Some(line.as_slice().len())
    } else {
        None
    }
}

/// Whether the longest line has so many bytes, of a guest of this many harts.
fn is_longest(harts: u8, length: usize) -> bool {
    match guest(harts) {
        Some(guest) => longest(&guest) == Some(length),
        None => false,
    }
}

/// Files of fences, each line feed a semicolon, and the last fence of each.
static FENCES: &str = "\
|0
keeps 4 5 2 0123456789abcdef ffffffffffffffff 18ed0b41d2c36cd8 0000000000a74004 18ed0b41d2c36cd9 36a9e695;|0
keeps 4 5 2 0123456789abcdef ffffffffffffffff 18ed0b41d2c36cd8 0000000000a74004 18ed0b41d2c36cd9 36a9e695;;fence 2 5b2ab55a;|2
fence 2 5b2ab55a;|2
;fence 2 5b2ab55a;;fence 10 ab65f06a;|10
;fence 10 ab65f06a;;fence 2 5b2ab55a;|10
;fence 2 5b2ab55a;;fence 10 ab65f0|2
;fence 2 5b2ab55a;;fence 10 ab65f06a|10
;fence 2 5b2ab55a;;fence 10 8eddf10b;|2
fence 2 5b2ab55afence 10 ab65f06a;|0
";

/// Adds a text's bytes with line feeds for semicolons.
fn add_text(bytes: &mut Vec<u8>, text: &[u8]) -> Result<(), Memory> {
    for byte in text {
        bytes.push(if *byte == b';' { b'\n' } else { *byte })?;
    }
    Ok(())
}

/// The bytes of a text with line feeds for semicolons.
pub fn with_line_feeds(alloc: Global, text: &str) -> Result<Vec<u8>, Memory> {
    let mut bytes = Vec::new(alloc);
    add_text(&mut bytes, text.as_bytes())?;
    Ok(bytes)
}

/// Whether this is the last fence of a file, and one behind it is added to it where it is greater.
fn is_last(guest: &Guest, file: &mut Vec<u8>, last: u64) -> Result<bool, Memory> {
    let before = last_fence(guest, file);
    file.extend_from_slice(fence_entry(guest, 7).as_slice())?;
    let after = last_fence(guest, file);
    let greater = if last < 7 { 7 } else { last };
    Ok(u64::from(before) == last && u64::from(after) == greater)
}

/// The first file with another last fence.
fn first_unfenced(alloc: Global, guest: &Guest) -> Result<Option<&'static str>, Memory> {
    for line in FENCES.lines() {
        let (text, last) = row(line);
        let mut file = with_line_feeds(alloc, text)?;
        if !is_last(guest, &mut file, number(last))? {
            return Ok(Some(line));
        }
    }
    Ok(None)
}

#[test]
fn lines(rt: HostRuntime) -> Result<(), Memory> {
    let (Some(guest), Some(fewer)) = (guest(2), guest(1)) else {
        return Err(Memory);
    };
    all_right(&rt, first_wrong(&guest, CALLED));
    all_right(&rt, first_unfenced(rt.alloc(), &guest)?);
    assert!(rt; sealed_values(&guest, &fewer));
    assert!(rt; values());
    assert!(rt; is_longest(32, 538));
    Ok(())
}

/// Adds the texts of the lines that a feed gives for a piece, each with a stroke behind it.
fn push(
    alloc: Global,
    feed: &mut LineFeed,
    piece: &[u8],
    texts: &mut Vec<u8>,
) -> Result<(), Memory> {
    for line in feed.push(alloc, piece)?.as_slice() {
        texts.extend_from_slice(line.as_slice())?;
        texts.push(b'|')?;
    }
    Ok(())
}

/// Whether the lines of these pieces have these texts.
fn are_fed(alloc: Global, pieces: &[&[u8]], wanted: &[u8]) -> Result<bool, Memory> {
    let mut feed = LineFeed::new();
    let mut texts = Vec::new(alloc);
    for piece in pieces {
        push(alloc, &mut feed, piece, &mut texts)?;
    }
    Ok(texts.as_slice() == wanted)
}

/// Adds the bytes of a line of so many bytes and of one of two, with this byte at their ends.
fn add_lines(bytes: &mut Vec<u8>, length: usize, end: u8) -> Result<(), Memory> {
    for _ in 1..length {
        bytes.push(b'x')?;
    }
    bytes.extend_from_slice(&[end, b'y', end])?;
    Ok(())
}

/// Those lines.
fn long_line(alloc: Global, length: usize, end: u8) -> Result<Vec<u8>, Memory> {
    let mut bytes = Vec::new(alloc);
    add_lines(&mut bytes, length, end)?;
    Ok(bytes)
}

/// Whether such a line is passed over, and not the one behind it.
fn is_too_long(alloc: Global, length: usize) -> Result<bool, Memory> {
    let bytes = long_line(alloc, length, b'\n')?;
    are_fed(alloc, &[bytes.as_slice()], b"y|")
}

/// Whether a line is given that is as long as one may be.
fn is_given(alloc: Global) -> Result<bool, Memory> {
    let bytes = long_line(alloc, 1024, b'\n')?;
    let wanted = long_line(alloc, 1024, b'|')?;
    are_fed(alloc, &[bytes.as_slice()], wanted.as_slice())
}

#[test]
fn feeds(rt: HostRuntime) -> Result<(), Memory> {
    let alloc = rt.alloc();
    let pieces: [&[u8]; 6] = [b"o", b"ne", b"\n", b"", b"\ntw", b"o\nthr"];
    assert!(rt; are_fed(alloc, &[b"one\n\ntwo\nthr"], b"one||two|")?);
    assert!(rt; are_fed(alloc, &pieces, b"one||two|")?);
    assert!(rt; are_fed(alloc, &[b"\n"], b"|")?);
    assert!(rt; are_fed(alloc, &[b"one"], b"")?);
    assert!(rt; is_given(alloc)?);
    assert!(rt; is_too_long(alloc, 1025)? && is_too_long(alloc, 4000)?);
    Ok(())
}
