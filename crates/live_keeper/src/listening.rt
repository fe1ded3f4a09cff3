//! A thread for each input: it opens the path, reads it to its end, and opens it again where it is a FIFO.

use crate::desk::Desk;
use crate::events::Event;
use ends::{
    Attempts, Door, Fault, Frames, FramesFault, Gone, Host, NamedFile, Taker, Why, bring, is_fifo,
};
use fragment_codec::FrameFault;
use ft_types::{Guest, Memory};
use stations::{WrittenFeed, WrittenFrame, is_of};
use std::alloc::Global;
use std::fs::File;
use std::io::Read;
use std::sync::Arc;
use std::thread;

/// How many bytes are read at once, as many as a FIFO holds: all that came while the log was brought to disk goes there together.
const PIECE: usize = 65_536;

/// An input.
#[derive(Drop)]
struct Input<T: Drop> {
    number: usize,
    path: String,
    /// Whose frames it is to bring.
    guest: Guest,
    to: Door<Event, T>,
    /// Where it is told that the input is at fault.
    desk: Arc<Desk, Global>,
}

/// Tells that the keeper can't go on.
fn fail<H: Host, T: Taker<H>>(rt: &H, input: &Input<T>, fault: Fault) -> Gone {
    let _told = bring(rt, &input.to, Event::Failed(fault));
    Gone
}

/// Tells that the input is at fault: what stands behind that is passed over.
fn pass<H: Host, T: Taker<H>>(rt: &H, input: &Input<T>, fault: FramesFault) -> Result<(), Gone> {
    let fault = Fault::Frames(Frames::Input(input.number), fault);
    bring(rt, &input.to, Event::Passed(fault))
}

/// Has frames taken, up to the first of another guest. Whether there is none.
fn bring_all<H: Host, T: Taker<H>>(
    rt: &H,
    input: &Input<T>,
    mut frames: Vec<WrittenFrame>,
) -> Result<bool, Gone> {
    let foreign = frames
        .iter()
        .position(|frame| !is_of(frame.frame(), &input.guest));
    if let Some(place) = foreign {
        frames.truncate(place);
    }
    if !frames.is_empty() {
        bring(rt, &input.to, Event::Frames(input.number, frames))?;
    }
    match foreign {
        Some(_) => {
            pass(rt, input, FramesFault::Guest)?;
            Ok(false)
        }
        None => Ok(true),
    }
}

/// Takes the next piece of a connection: its frames are taken all at once. Its feed, unless something is at fault.
fn take<H: Host, T: Taker<H>>(
    rt: &H,
    input: &Input<T>,
    feed: WrittenFeed,
    piece: &[u8],
) -> Result<Option<WrittenFeed>, Gone> {
    match feed.push(rt.alloc(), piece) {
        Ok((frames, feed)) => {
            if bring_all(rt, input, frames)? {
                Ok(Some(feed))
            } else {
                Ok(None)
            }
        }
        Err(FrameFault::Memory) => Err(fail(rt, input, Fault::Memory)),
        Err(fault) => {
            pass(rt, input, FramesFault::Frame(fault.number()))?;
            Ok(None)
        }
    }
}

/// How a connection ended.
#[derive(Clone, Copy)]
enum End {
    /// Whoever writes has left.
    Left,
    /// The path can't be opened, or read.
    Failed(Why),
}

/// Reads a connection whose frames are sound, up to its end, or to what is at fault: then none.
fn read_sound<H: Host, T: Taker<H>>(
    rt: &H,
    input: &Input<T>,
    file: &mut File,
    piece: &mut [u8],
) -> Result<Option<End>, Gone> {
    let Ok(mut feed) = WrittenFeed::new(rt.alloc()) else {
        return Err(fail(rt, input, Fault::Memory));
    };
    for _ in rt.forever() {
        let count = match file.read(piece) {
            Ok(count) => count,
            Err(error) => return Ok(Some(End::Failed(Why::of(&error)))),
        };
        // The empty piece at the end brings out a fault behind the last frame.
        let sound = take(rt, input, feed, &piece[..count])?;
        if count == 0 {
            return Ok(Some(End::Left));
        }
        match sound {
            Some(next) => feed = next,
            None => return Ok(None),
        }
    }
    Err(Gone)
}

/// Passes over the rest of a connection.
fn pass_over<H: Host>(rt: &H, file: &mut File, piece: &mut [u8]) -> End {
    for _ in rt.forever() {
        match file.read(piece) {
            Ok(0) => return End::Left,
            Ok(_) => {}
            Err(error) => return End::Failed(Why::of(&error)),
        }
    }
    End::Left
}

/// One connection, to its end. Where something is at fault and another connection may come, all frames are asked for until this one has ended.
fn read<H: Host, T: Taker<H>>(
    rt: &H,
    input: &Input<T>,
    file: &mut File,
    comes_again: bool,
) -> Result<End, Gone> {
    let mut piece = [0; PIECE];
    if let Some(end) = read_sound(rt, input, file, &mut piece)? {
        return Ok(end);
    }
    if !comes_again {
        return Ok(pass_over(rt, file, &mut piece));
    }
    input.desk.hear(rt, true);
    let end = pass_over(rt, file, &mut piece);
    input.desk.hear(rt, false);
    Ok(end)
}

/// One connection behind the other. The file of one stays open until the next one is, so that whoever writes there meanwhile meets a reader.
fn listen_on<H: Host, T: Taker<H>>(rt: &H, input: &Input<T>) -> Result<(), Gone> {
    let mut attempts = Attempts::new();
    let mut before = None;
    for _ in rt.forever() {
        let opened = rt.open(input.path.as_str());
        drop(before.take());
        let end = match opened {
            Ok(mut file) => {
                let comes_again = is_fifo(&file);
                attempts.open(comes_again);
                let end = read(rt, input, &mut file, comes_again)?;
                if !comes_again && matches!(end, End::Left) {
                    return bring(rt, &input.to, Event::Ended);
                }
                before = Some(file);
                end
            }
            Err(error) => End::Failed(Why::of(&error)),
        };
        match end {
            End::Left => attempts.go_well(),
            End::Failed(why) => {
                let fault = Fault::File(NamedFile::Input(input.number), why);
                if attempts.fail(rt, &fault, input.path.as_str()) {
                    return Err(fail(rt, input, fault));
                }
            }
        }
    }
    Err(Gone)
}

/// Starts a thread that listens on the input with this number.
fn listen<H: Host, T: Taker<H>>(
    rt: &H,
    guest: Guest,
    number: usize,
    path: &str,
    desk: &Arc<Desk, Global>,
    to: &Door<Event, T>,
) -> Result<(), Memory> {
    let own = *rt;
    let input = Input {
        number,
        path: String::from_str(rt.alloc(), path)?,
        guest,
        to: to.copy()?,
        desk: Arc::try_clone(desk)?,
    };
    match thread::spawn(rt, move || {
        let _ended = listen_on(&own, &input);
    }) {
        Ok(_thread) => Ok(()),
        Err(_) => Err(Memory),
    }
}

/// Starts threads that listen on all inputs.
pub(crate) fn listen_all<H: Host, T: Taker<H>>(
    rt: &H,
    guest: Guest,
    paths: &[&str],
    desk: &Arc<Desk, Global>,
    to: &Door<Event, T>,
) -> Result<(), Memory> {
    for number in 0..paths.len() {
        listen(rt, guest, number, paths[number], desk, to)?;
    }
    Ok(())
}
