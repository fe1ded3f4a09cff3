//! A keeper over a log in memory: what it acknowledges, what it comes back with, and what is handed over behind a fence.

ghost use Rattle.std.specs.Prelude.{⊤};

use crate::bytes::{FIRST_WORD, OPENING as OPENING_BYTES, WORD};
use crate::come::{Come, frame_of, guest_of};
use fixtures::guest_with;
use ft_types::{Count, Guest, Keeper, Term, first_line};
use stations::{
    FenceFault, FencedLog, FilesFault, HandedOver, KeeperFiles, KeeperStation, TERM_REACH,
    WrittenFeed, WrittenFrame, fence_off, handshake, is_of, read_frames,
};
use std::alloc::Global;
use std::result::Result;
use std::test::Fail;
use wire::{Handed, read_handed};

/// A log and its last fence in memory.
#[derive(Drop)]
struct Shelf {
    log: Vec<u8>,
    fence: Term,
}

impl KeeperFiles for Shelf {
    ghost acts = { λ _ _. ⊤ };

    fn read_log(&mut self, alloc: Global) -> Result<Vec<u8>, FilesFault> {
        match Vec::from_slice(alloc, &self.log) {
            Ok(bytes) => Ok(bytes),
            Err(_) => Err(FilesFault::Memory),
        }
    }

    fn cut(&mut self, size: usize) -> Result<(), FilesFault> {
        self.log.truncate(size);
        Ok(())
    }

    fn add(&mut self, bytes: &[u8]) -> Result<(), FilesFault> {
        match self.log.extend_from_slice(bytes) {
            Ok(()) => Ok(()),
            Err(_) => Err(FilesFault::Memory),
        }
    }

    fn sync(&mut self) -> Result<(), FilesFault> {
        Ok(())
    }

    fn last_fence(&mut self, _alloc: Global) -> Result<Term, FilesFault> {
        Ok(self.fence)
    }

    fn add_fence(&mut self, term: Term) -> Result<(), FilesFault> {
        self.fence = term;
        Ok(())
    }
}

/// The number of the keeper.
const NUMBER: u8 = 3;

/// What it acknowledges: a term and a count of the one hart.
type Told = Option<(Term, Count)>;

/// A keeper begins over the log.
fn begin(alloc: Global, shelf: &mut Shelf) -> Result<KeeperStation, Fail> {
    match KeeperStation::begin(alloc, guest_of(1), Keeper::new(NUMBER), shelf) {
        Ok(station) => Ok(station),
        Err(_) => Err("the log is a keeper's".into()),
    }
}

/// It logs what came, and acknowledges.
fn log(alloc: Global, station: KeeperStation, shelf: &mut Shelf) -> Result<Told, Fail> {
    let Ok((_station, said)) = station.log_and_acknowledge(alloc, shelf) else {
        return Err("the log takes it".into());
    };
    match said {
        Some(it) if it.keeper == Keeper::new(NUMBER) => match it.counts.as_slice() {
            [count] => Ok(Some((it.term, *count))),
            _ => Err("one hart".into()),
        },
        Some(_) => Err("the keeper's own number".into()),
        None => Ok(None),
    }
}

/// A frame, and its bytes.
fn written(alloc: Global, come: &Come) -> Result<WrittenFrame, Fail> {
    let frame = frame_of(alloc, guest_of(1), come)?;
    Ok(WrittenFrame::write(alloc, frame)?)
}

/// Whether the frame is far for the keeper.
fn is_far(alloc: Global, station: &KeeperStation, come: &Come) -> Result<bool, Fail> {
    Ok(station.is_far(&written(alloc, come)?))
}

/// A keeper begins, takes these frames, logs them, acknowledges, and is killed.
fn keep(alloc: Global, shelf: &mut Shelf, comes: &[Come]) -> Result<Told, Fail> {
    let mut station = begin(alloc, shelf)?;
    for come in comes {
        let _put = station.take(alloc, written(alloc, come)?)?;
    }
    log(alloc, station, shelf)
}

/// What is left of a log, and what was handed over, with how many frames of the guest; none where its last fence is not below the term, or out of reach.
type Left = (Shelf, Option<(Handed, usize)>);

/// A log is handed over to a term.
fn hand(alloc: Global, shelf: Shelf, term: Term) -> Result<Left, Fail> {
    match fence_off(alloc, shelf, term) {
        Ok(fenced) => handed(alloc, fenced),
        Err(refused) => match refused.fault {
            FenceFault::Fenced(_) | FenceFault::Far(_) => Ok((refused.files, None)),
            FenceFault::Files(_) => Err("the fence is put")?,
        },
    }
}

/// What the line says, and how many frames of the guest stand behind it: all bytes that it says.
fn read(alloc: Global, bytes: &[u8]) -> Result<(Handed, usize), Fail> {
    let Some((text, frames)) = first_line(bytes) else {
        return Err("a line".into());
    };
    let Some(handed) = read_handed(&guest_of(1), text) else {
        return Err("a line that hands a log over".into());
    };
    let front = read_frames(alloc, frames)?;
    if front.size != frames.len() || handed.length != front.size as u64 {
        return Err("whole frames".into());
    }
    let mut own = 0usize;
    for frame in &front.frames {
        own = own.saturating_add(usize::from(is_of(frame, &guest_of(1))));
    }
    Ok((handed, own))
}

/// A log that is fenced off is handed over.
fn handed(alloc: Global, fenced: FencedLog<Shelf>) -> Result<Left, Fail> {
    let Ok(HandedOver { bytes, files }) = fenced.hand_over(alloc, &guest_of(1), Keeper::new(NUMBER))
    else {
        return Err("the log is handed over".into());
    };
    Ok((files, Some(read(alloc, &bytes)?)))
}

const OPENING: Come = Come::Opening(1, 0, &[0]);

const TO_FOUR: Come = Come::Piece(1, 0, 0, 0, 4, &[]);

const TO_SIX: Come = Come::Piece(1, 0, 1, 4, 6, &[]);

const TO_NINE: Come = Come::Piece(1, 0, 2, 6, 9, &[]);

/// What comes to a keeper that begins, and what it acknowledges.
type Row = (&'static [Come], Told);

static BEFORE: [Row; 4] = [
    (&[], None),
    (&[OPENING, TO_FOUR], Some((1, 4))),
    (&[], Some((1, 4))),
    (&[TO_FOUR, TO_SIX], Some((1, 6))),
];

/// Behind the fence 2 nothing of term 1 is acknowledged; what comes is logged all the same.
static BEHIND: [Row; 2] = [
    (&[TO_NINE], None),
    (&[Come::Opening(2, 1, &[6])], Some((2, 6))),
];

/// Whether each row is acknowledged so.
fn are_acknowledged(alloc: Global, shelf: &mut Shelf, rows: &[Row]) -> Result<bool, Fail> {
    for (comes, told) in rows {
        if keep(alloc, shelf, comes)? != *told {
            return Ok(false);
        }
        // A killed keeper left the beginning of a frame.
        shelf.log.extend_from_slice(b"V")?;
    }
    Ok(true)
}

/// Whether rows are acknowledged before a log is handed over, once, and behind that.
fn is_handed_once(alloc: Global, mut shelf: Shelf) -> Result<bool, Fail> {
    let before = are_acknowledged(alloc, &mut shelf, &BEFORE)?;
    let whole = Handed {
        term: 2,
        keeper: Keeper::new(NUMBER),
        length: shelf.log.len().saturating_sub(1) as u64,
    };
    let (shelf, once) = hand(alloc, shelf, 2)?;
    let (mut shelf, again) = hand(alloc, shelf, 2)?;
    let is_once = once == Some((whole, 3)) && again.is_none();
    Ok(before && is_once && are_acknowledged(alloc, &mut shelf, &BEHIND)?)
}

/// Terms for which a log is fenced off, one behind the other, and whether it is.
static REACHED: [(Term, bool); 7] = [
    (u32::MAX, false),
    (TERM_REACH + 1, false),
    (TERM_REACH, true),
    (2 * TERM_REACH + 1, false),
    (2 * TERM_REACH, true),
    (2 * TERM_REACH, false),
    (2 * TERM_REACH + 1, true),
];

/// Whether a log is handed over to each of these terms, or not, and then has the last fence that was put.
fn is_handed_in_reach(alloc: Global, mut shelf: Shelf) -> Result<bool, Fail> {
    let mut last = 0;
    for (term, is_handed) in &REACHED {
        let (left, given) = hand(alloc, shelf, *term)?;
        shelf = left;
        if *is_handed {
            last = *term;
        }
        if given.is_some() != *is_handed || shelf.fence != last {
            return Ok(false);
        }
    }
    Ok(true)
}

/// Frames, and whether each is far for a keeper that led to term 1 and saw the fence 5.
static FAR: [(Come, bool); 5] = [
    (Come::Opening(u32::MAX, 0, &[0]), true),
    (Come::Opening(TERM_REACH + 6, 5, &[0]), true),
    (Come::Opening(TERM_REACH + 5, 0, &[0]), false),
    (Come::Opening(2, 1, &[6]), false),
    (Come::Piece(u32::MAX, 0, 0, 0, 4, &[]), false),
];

/// The opening of a term with no parent.
fn rooted(term: Term) -> Come {
    Come::Opening(term, 0, &[0])
}

/// Whether a keeper that has no log or fence, one that led to term 1, and one that saw the fence 5 besides, each know how far terms reach.
fn is_far_behind(alloc: Global, shelf: &mut Shelf) -> Result<bool, Fail> {
    let mut station = begin(alloc, shelf)?;
    let nothing = is_far(alloc, &station, &rooted(TERM_REACH + 1))?
        && !is_far(alloc, &station, &rooted(TERM_REACH))?;
    let _put = station.take(alloc, written(alloc, &OPENING)?)?;
    let led = is_far(alloc, &station, &rooted(TERM_REACH + 2))?
        && !is_far(alloc, &station, &rooted(TERM_REACH + 1))?;
    shelf.fence = 5;
    let Ok((station, _said)) = station.log_and_acknowledge(alloc, shelf) else {
        return Err("the log takes it".into());
    };
    for (come, far) in &FAR {
        if is_far(alloc, &station, come)? != *far {
            return Ok(false);
        }
    }
    Ok(nothing && led)
}

/// Whether a keeper that saw the fence 2 acknowledges nothing of term 1, also where its file of fences is gone.
fn is_remembered(alloc: Global, shelf: &mut Shelf) -> Result<bool, Fail> {
    shelf.fence = 2;
    let mut station = begin(alloc, shelf)?;
    for fence in [2, 0] {
        shelf.fence = fence;
        let Ok((next, said)) = station.log_and_acknowledge(alloc, shelf) else {
            return Err("the log takes it".into());
        };
        if said.is_some() {
            return Ok(false);
        }
        station = next;
    }
    Ok(true)
}

/// A log of no bytes, and no fence.
fn empty_shelf(alloc: Global) -> Shelf {
    Shelf {
        log: Vec::new(alloc),
        fence: 0,
    }
}

#[test]
fn what_a_log_keeps_is_handed_over(rt: HostRuntime) -> Result<(), Fail> {
    handshake();
    let shelf = empty_shelf(rt.alloc());
    assert!(rt; is_handed_once(rt.alloc(), shelf)?);
    let mut shelf = empty_shelf(rt.alloc());
    assert!(rt; are_acknowledged(rt.alloc(), &mut shelf, &BEFORE)?);
    assert!(rt; is_remembered(rt.alloc(), &mut shelf)?);
    assert!(rt; is_handed_in_reach(rt.alloc(), empty_shelf(rt.alloc()))?);
    let mut shelf = empty_shelf(rt.alloc());
    assert!(rt; is_far_behind(rt.alloc(), &mut shelf)?);
    Ok(())
}

/// A keeper takes the frames of a stream that comes in pieces of so many bytes.
fn take_stream(
    alloc: Global,
    station: &mut KeeperStation,
    stream: &[u8],
    size: usize,
) -> Result<(), Fail> {
    let mut feed = WrittenFeed::new(alloc)?;
    for piece in stream.chunks(size.max(1)) {
        let Ok((frames, next)) = feed.push(alloc, piece) else {
            return Err("whole frames".into());
        };
        for frame in frames {
            let _put = station.take(alloc, frame)?;
        }
        feed = next;
    }
    Ok(())
}

/// The log of a keeper of the stream's guest, to which it comes in pieces of so many bytes.
fn log_of(alloc: Global, guest: Guest, stream: &[u8], size: usize) -> Result<Vec<u8>, Fail> {
    let mut shelf = empty_shelf(alloc);
    let Ok(mut station) = KeeperStation::begin(alloc, guest, Keeper::new(NUMBER), &mut shelf) else {
        return Err("an empty log is a keeper's".into());
    };
    take_stream(alloc, &mut station, stream, size)?;
    log(alloc, station, &mut shelf)?;
    Ok(shelf.log)
}

/// A frame of version 1 is written in version 2; one of that is logged as it came, however it was cut.
#[test]
fn frames_are_logged_as_they_are_written(rt: HostRuntime) -> Result<(), Fail> {
    let mut came = OPENING_BYTES.to_vec(rt.alloc())?;
    let mut written = OPENING_BYTES.to_vec(rt.alloc())?;
    came.extend_from_slice(FIRST_WORD)?;
    written.extend_from_slice(WORD)?;
    let mut digest = [0; 32];
    digest.copy_from_slice(&OPENING_BYTES[8..40]);
    let guest = guest_with(digest, 1);
    for size in [1, 7, 100, 1000] {
        assert!(rt; log_of(rt.alloc(), guest, &came, size)? == written);
        assert!(rt; log_of(rt.alloc(), guest, &written, size)? == written);
    }
    Ok(())
}
