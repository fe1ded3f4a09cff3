//! Guests and calls that fall by chance: what a primary recorded is cut into pieces, shuffled over streams and replayed.

use crate::calls::make_many;
use crate::starts::{image_in, opens, recorder_of};
use fixtures::{Crew, Dice, ONE_SHARED_PAGE, cut};
use fragment_codec::{Frame, write_frame};
use ft_types::{Counts, Memory, MemorySink, MemorySource};
use guest_image::Image;
use log_pieces::Sealed;
use log_streams::{Plainly, replay_streams};
use page_book::{Book, Recording};
use std::alloc::Global;
use std::test::Fail;

/// What the book's log says behind what is sealed comes to the other frames.
fn cut_more(
    alloc: Global,
    image: &Image,
    book: &Book<Recording>,
    sealed: &mut Sealed,
    frames: &mut Vec<Frame>,
) -> Result<(), Memory> {
    let mut pieces = cut(alloc, image.guest(), book, 1, sealed)?;
    Ok(frames.append(&mut pieces)?)
}

/// Many calls. What they recorded is cut once on the way.
fn record(
    alloc: Global,
    image: &Image,
    crew: &mut Crew<Recording>,
    sealed: &mut Sealed,
    dice: &mut Dice,
    frames: &mut Vec<Frame>,
) -> Result<(), Memory> {
    make_many(crew, alloc, 300, true, dice);
    let cut = cut_more(alloc, image, &crew.book, sealed, frames);
    make_many(crew, alloc, 300, true, dice);
    cut
}

/// The book of a primary that makes many calls.
fn recorded(
    alloc: Global,
    image: &Image,
    sealed: &mut Sealed,
    dice: &mut Dice,
    frames: &mut Vec<Frame>,
) -> Result<Book<Recording>, Memory> {
    let mut crew = Crew::new(recorder_of(alloc, image, 5000)?);
    let recorded = record(alloc, image, &mut crew, sealed, dice, frames);
    let book = crew.end();
    match recorded {
        Ok(()) => Ok(book),
        Err(Memory) => Err(Memory),
    }
}

/// The text of the book's machine.
fn text_of(alloc: Global, book: &Book<Recording>) -> Result<MemorySink, Memory> {
    let mut text = MemorySink::new(alloc, 1 << 20);
    match book.machine().write_text(&mut text) {
        Ok(()) => Ok(text),
        Err(_) => Err(Memory),
    }
}

/// The same, once the rest of what it recorded is cut.
fn text_behind(
    alloc: Global,
    image: &Image,
    book: &Book<Recording>,
    sealed: &mut Sealed,
    frames: &mut Vec<Frame>,
) -> Result<MemorySink, Memory> {
    cut_more(alloc, image, book, sealed, frames)?;
    text_of(alloc, book)
}

/// The text of the machine of a primary that makes many calls, and its frames. Its log is cut once on the way and once at the end.
fn text_recorded(
    alloc: Global,
    image: &Image,
    dice: &mut Dice,
    frames: &mut Vec<Frame>,
) -> Result<MemorySink, Memory> {
    let mut sealed = Sealed::new(Counts::zero(image.harts()));
    let book = recorded(alloc, image, &mut sealed, dice, frames)?;
    text_behind(alloc, image, &book, &mut sealed, frames)
}

/// Writes a frame to one of the streams.
fn put(sinks: &mut [MemorySink], frame: &Frame, dice: &mut Dice) -> Result<(), Fail> {
    let stream = usize::from(dice.roll()) % sinks.len().max(1);
    let sink = sinks.get_mut(stream).ok_or("streams")?;
    match write_frame(frame, sink) {
        Ok(()) => Ok(()),
        Err(_) => Err("frame".into()),
    }
}

/// Adds so many streams, without frames yet.
fn add_streams(alloc: Global, sinks: &mut Vec<MemorySink>, streams: u8) -> Result<(), Memory> {
    for _stream in 0..streams {
        sinks.push(MemorySink::new(alloc, 1 << 20))?;
    }
    Ok(())
}

/// Writes as many frames as there are, any of them, to any of the streams.
fn scatter(sinks: &mut [MemorySink], frames: &[Frame], dice: &mut Dice) -> Result<(), Fail> {
    for _frame in frames {
        let number = usize::from(dice.roll()) % frames.len();
        put(sinks, &frames[number], dice)?;
    }
    Ok(())
}

/// Writes each frame once, the last one first.
fn scatter_each(sinks: &mut [MemorySink], frames: &[Frame], dice: &mut Dice) -> Result<(), Fail> {
    for number in 0..frames.len() {
        put(sinks, &frames[frames.len() - 1 - number], dice)?;
    }
    Ok(())
}

/// Each frame once or more often, in any order.
fn scatter_all(sinks: &mut [MemorySink], frames: &[Frame], dice: &mut Dice) -> Result<(), Fail> {
    scatter(sinks, frames, dice)?;
    scatter(sinks, frames, dice)?;
    scatter_each(sinks, frames, dice)
}

fn add_readers(
    alloc: Global,
    readers: &mut Vec<MemorySource>,
    sinks: &[MemorySink],
) -> Result<(), Memory> {
    for sink in sinks {
        readers.push(MemorySource::new(sink.bytes().to_vec(alloc)?))?;
    }
    Ok(())
}

/// Each frame in one stream or several, once or more often, in any order.
fn shuffled(
    alloc: Global,
    frames: &[Frame],
    streams: u8,
    dice: &mut Dice,
) -> Result<Vec<MemorySource>, Fail> {
    let mut sinks = Vec::new(alloc);
    add_streams(alloc, &mut sinks, streams)?;
    scatter_all(&mut sinks, frames, dice)?;
    let mut readers = Vec::new(alloc);
    add_readers(alloc, &mut readers, &sinks)?;
    Ok(readers)
}

/// How many records the frames have.
fn records(frames: &[Frame]) -> usize {
    let mut records = 0usize;
    for frame in frames {
        if let Frame::Log(piece) = frame {
            records = records.saturating_add(piece.records().len());
        }
    }
    records
}

/// Whether a replay of these streams writes this text.
fn are_replayed(alloc: Global, image: &Image, readers: &mut [MemorySource], text: &[u8]) -> bool {
    let mut out = MemorySink::new(alloc, 1 << 20);
    let replayed = replay_streams(alloc, image, readers, &Plainly, &mut out).is_ok();
    replayed && out.bytes() == text
}

/// Whether a replay of these frames, from so many streams, writes this text.
fn lead_to(
    alloc: Global,
    image: &Image,
    frames: &[Frame],
    streams: u8,
    dice: &mut Dice,
    text: &[u8],
) -> Result<bool, Fail> {
    let mut readers = shuffled(alloc, frames, streams, dice)?;
    Ok(records(frames) > 10 && are_replayed(alloc, image, &mut readers, text))
}

/// Whether the frames of a guest that was recorded so, and the opening behind them, lead to the recorded machine.
fn are_frames_so(
    alloc: Global,
    image: &Image,
    frames: &mut Vec<Frame>,
    streams: u8,
    dice: &mut Dice,
) -> Result<bool, Fail> {
    let text = text_recorded(alloc, image, dice, frames)?;
    frames.push(opens(image.guest(), 1, 0, Counts::zero(image.harts()))?)?;
    lead_to(alloc, image, frames, streams, dice, text.bytes())
}

/// Whether the guest of an image is replayed so.
fn is_replayed_so(
    alloc: Global,
    image: &Image,
    streams: u8,
    dice: &mut Dice,
) -> Result<bool, Fail> {
    let mut frames = Vec::new(alloc);
    are_frames_so(alloc, image, &mut frames, streams, dice)
}

/// Whether a guest of so many harts that was recorded so is replayed to the recorded machine, from so many streams.
fn is_replayed(alloc: Global, harts: u8, streams: u8, seed: u64) -> Result<bool, Fail> {
    let mut dice = Dice::new(seed);
    let image = image_in(alloc, &ONE_SHARED_PAGE.file(alloc, harts, &mut dice)?)?;
    is_replayed_so(alloc, &image, streams, &mut dice)
}

/// The first of three seeds whose guest of so many harts is replayed to another machine.
fn first_missed(alloc: Global, harts: u8) -> Result<Option<u8>, Fail> {
    for seed in 1..4u8 {
        let streams = harts.wrapping_mul(3).wrapping_add(seed) % 8 + 1;
        let state = u64::from(seed) * 0x9e37 + u64::from(harts);
        if !is_replayed(alloc, harts, streams, state)? {
            return Ok(Some(seed));
        }
    }
    Ok(None)
}

#[test]
fn what_is_recorded_by_chance_is_replayed(rt: HostRuntime) -> Result<(), Fail> {
    for harts in 2..9u8 {
        assert_eq!(rt; first_missed(rt.alloc(), harts)?, None, "{harts} harts");
    }
    Ok(())
}
