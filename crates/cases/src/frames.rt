//! Streams of frames, by their parts.

use crate::reading::{Block, LineNumber, Words};
use edge_log::Edge;
use fragment_codec::{Fragment, Frame, Key, Opening, Record, write_frame};
use ft_types::{Counts, Guest, Hart, MemorySink};
use guest_image::read_image;
use input_log::Input;
use std::alloc::Global;

/// Room for a frame.
const AMPLE: usize = 10_000;

/// Adds the record of a piece of this hart that the next words spell.
fn add_record(records: &mut Vec<Record>, words: &mut Words<'_>, hart: Hart) -> Option<()> {
    let kind = words.word()?;
    let at = words.number()?;
    let next = match kind {
        "edge" => Record::Edge(Edge {
            hart,
            at,
            other: words.hart()?,
            after: words.number()?,
        }),
        "word" => Record::Input(at, Input::Word(words.spelled()?)),
        "timer" => Record::Input(at, Input::Timer),
        "bell" => Record::Input(at, Input::Bell(words.hart()?)),
        "note" => Record::Note(at, words.number()?),
        _ => return None,
    };
    records.push(next).ok()?;
    Some(())
}

/// The records of a piece of this hart.
fn records(alloc: Global, words: &mut Words<'_>, hart: Hart) -> Option<Vec<Record>> {
    let mut records = Vec::new(alloc);
    for _record in 0..words.most() {
        if words.is_done() {
            break;
        }
        add_record(&mut records, words, hart)?;
    }
    Some(records)
}

fn counts(alloc: Global, words: &mut Words<'_>) -> Option<Counts> {
    let mut counts = Vec::new(alloc);
    for _count in 0..words.most() {
        if words.is_done() {
            break;
        }
        counts.push(words.number()?).ok()?;
    }
    Counts::from_slice(&counts)
}

/// The opening that these words spell: a term, its parent and its base.
fn opening(alloc: Global, guest: Guest, words: &mut Words<'_>) -> Option<Frame> {
    let term = words.small()?;
    let parent = words.small()?;
    let base = counts(alloc, words)?;
    Some(Frame::Opening(Opening::new(guest, term, parent, base)?))
}

/// The piece that these words spell: a term, a hart, a place, from where to where it reaches, and its records.
fn piece(alloc: Global, guest: Guest, words: &mut Words<'_>) -> Option<Frame> {
    let key = Key {
        term: words.small()?,
        hart: words.hart()?,
        place: words.small()?,
    };
    let from = words.number()?;
    let to = words.number()?;
    let records = records(alloc, words, key.hart)?;
    Some(Frame::Log(Fragment::new(guest, key, from, to, records)?))
}

/// A stream, and where its last part begins.
#[derive(Drop)]
struct Stream {
    bytes: Vec<u8>,
    last: usize,
}

impl Stream {
    fn add(&mut self, bytes: &[u8]) -> Option<()> {
        self.last = self.bytes.len();
        self.bytes.extend_from_slice(bytes).ok()
    }

    fn add_frame(&mut self, alloc: Global, frame: &Frame) -> Option<()> {
        let mut sink = MemorySink::new(alloc, AMPLE);
        write_frame(frame, &mut sink).ok()?;
        self.add(sink.bytes())
    }

    /// Where the byte with this number of the last part is.
    fn place(&self, words: &mut Words<'_>) -> Option<usize> {
        Some(self.last.saturating_add(words.size()?))
    }

    /// Adds what this line spells, or changes the last part.
    fn take(&mut self, alloc: Global, guest: Guest, line: &str) -> Option<()> {
        let mut words = Words::new(line);
        match words.word()? {
            "opening" => self.add_frame(alloc, &opening(alloc, guest, &mut words)?),
            "piece" => self.add_frame(alloc, &piece(alloc, guest, &mut words)?),
            "bytes" => self.add(&bytes_of_hex(alloc, words.word()?)?),
            "cut" => {
                let end = self.place(&mut words)?;
                self.bytes.truncate(end);
                Some(())
            }
            "turn" => {
                let place = self.place(&mut words)?;
                turn(&mut self.bytes, place)
            }
            _ => None,
        }
    }
}

/// The bytes that a text spells in hexadecimal.
pub fn bytes_of_hex(alloc: Global, text: &str) -> Option<Vec<u8>> {
    hex::decode(alloc, text).ok()
}

/// Turns the highest bit of the byte at this place.
pub fn turn(bytes: &mut Vec<u8>, place: usize) -> Option<()> {
    let byte = bytes.get_mut(place)?;
    *byte ^= 0x80;
    Some(())
}

/// The guest of an image.
fn guest_of(alloc: Global, image: &[u8]) -> Option<Guest> {
    Some(read_image(alloc, image).ok()?.guest())
}

/// The stream of the guest of an image that the lines of a block spell, a part each.
pub fn stream_of(alloc: Global, image: &[u8], block: &Block<'_>) -> Result<Vec<u8>, LineNumber> {
    let Some(guest) = guest_of(alloc, image) else {
        return Err(block.heading.number);
    };
    let mut stream = Stream {
        bytes: Vec::new(alloc),
        last: 0,
    };
    for part in &block.content {
        if stream.take(alloc, guest, part.text).is_none() {
            return Err(part.number);
        }
    }
    Ok(stream.bytes)
}
