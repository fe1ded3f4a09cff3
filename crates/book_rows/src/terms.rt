//! A primary of three keepers, of which two must hold an output, over a guest that says each word that it is given.

use fenced_live::Given;
use fragment_codec::{Frame, write_frame};
use ft_types::{Count, Guest, Hart, Keeper, Memory, MemorySink, Output, Quorum, Term};
use guest_image::{Image, read_image};
use leading::{Came, HandedLog, Heard, Leader, Spacing, read_handed_log};
use std::alloc::Global;
use wire::{Acknowledgement, Handed, Request, handed_line};

/// It goes round until INSEQ has changed, clears the word's interrupt, reads the word, and puts it out.
const SAYS_ALL: &[u8] =
    b"harts 1\npages 1\nf00000b7\n00000293\n00001337\n00135313\n0040a103\nfe510ee3\n0060a623\n0000a183\n00010293\n0030a423\nfe9ff06f\n";

/// The image: there is none where memory is refused alone.
fn image_of(alloc: Global) -> Result<Image, Memory> {
    match read_image(alloc, SAYS_ALL) {
        Ok(image) => Ok(image),
        Err(_) => Err(Memory),
    }
}

/// What a keeper hands over to a term.
fn handed(
    alloc: Global,
    guest: &Guest,
    keeper: u8,
    term: Term,
    frames: &[u8],
) -> Result<Vec<u8>, Memory> {
    let handed = Handed {
        term,
        keeper: Keeper::new(keeper % 5),
        length: frames.len() as u64,
    };
    let mut bytes = handed_line(guest, &handed).as_slice().to_vec(alloc)?;
    bytes.extend_from_slice(frames)?;
    Ok(bytes)
}

/// A log that was handed over: there is none where the bytes are another, too.
fn read(alloc: Global, guest: Guest, bytes: &[u8]) -> Result<HandedLog, Memory> {
    match read_handed_log(alloc, guest, bytes) {
        Ok(log) => Ok(log),
        Err(_) => Err(Memory),
    }
}

/// Adds the bytes of frames to a log.
fn add(alloc: Global, log: &mut Vec<u8>, frames: &[Frame]) -> Result<(), Memory> {
    let mut sink = MemorySink::new(alloc, 1 << 20);
    for frame in frames {
        if write_frame(frame, &mut sink).is_err() {
            return Err(Memory);
        }
    }
    log.extend_from_slice(sink.bytes())?;
    Ok(())
}

/// The primary that goes live in a term from the logs of two of three keepers, with its opening.
fn go_live(
    alloc: Global,
    image: &Image,
    first: &HandedLog,
    second: &HandedLog,
    term: Term,
) -> Result<(Leader, Frame), Memory> {
    let Some(quorum) = Quorum::new(3, 2) else {
        return Err(Memory);
    };
    let given: [Given<'_>; 2] = [first.given(), second.given()];
    match Leader::go_live(alloc, image, &given, quorum, term) {
        Ok(live) => Ok(live),
        Err(_) => Err(Memory),
    }
}

/// The same from the log that two keepers have, with its opening added to it.
fn live(alloc: Global, image: &Image, term: Term, log: &mut Vec<u8>) -> Result<Leader, Memory> {
    let guest = image.guest();
    let first = read(alloc, guest, &handed(alloc, &guest, 0, term, log)?)?;
    let second = read(alloc, guest, &handed(alloc, &guest, 2, term, log)?)?;
    let (leader, opening) = go_live(alloc, image, &first, &second, term)?;
    add(alloc, log, &[opening])?;
    Ok(leader)
}

/// The primary a round later, its frames added to the log.
fn round(alloc: Global, leader: Leader, log: &mut Vec<u8>) -> Result<Leader, Memory> {
    let mut next = leader.round(alloc, 240, Spacing::Usual)?;
    let frames = next.seal(alloc)?;
    add(alloc, log, &frames)?;
    Ok(next)
}

/// An output of hart 0: its number, and its word.
type Said = (Count, u32);

/// What is told behind an output, where it begins with that one.
fn behind<'a>(output: &Output, told: &'a [Said]) -> Option<&'a [Said]> {
    match told {
        [(number, word), rest @ ..] if output.number == *number && output.word == *word => {
            Some(rest)
        }
        _ => None,
    }
}

fn many(leader: &Leader) -> usize {
    leader.released().len()
}

/// Whether these outputs were let go behind the first ones.
fn let_go(leader: &Leader, first: usize, told: &[Said]) -> bool {
    let mut rest = told;
    for released in leader.released().get(first..).unwrap_or(&[]) {
        match behind(&released.output, rest) {
            Some(left) => rest = left,
            None => return false,
        }
    }
    rest.is_empty()
}

/// A keeper acknowledges all that the primary has, in a term.
fn acknowledge(alloc: Global, leader: &mut Leader, keeper: u8, term: Term) -> Result<(), Memory> {
    let acknowledgement = Acknowledgement {
        term,
        keeper: Keeper::new(keeper % 5),
        counts: leader.counts(),
    };
    leader.acknowledge(alloc, &acknowledgement)
}

/// Whether these outputs go out by that.
fn lets_go(
    alloc: Global,
    leader: &mut Leader,
    keeper: u8,
    term: Term,
    told: &[Said],
) -> Result<bool, Memory> {
    let before = many(&*leader);
    acknowledge(alloc, leader, keeper, term)?;
    Ok(let_go(&*leader, before, told))
}

/// Whether a request is answered so.
fn hears(
    alloc: Global,
    leader: &mut Leader,
    request: &Request,
    told: &[Said],
) -> Result<bool, Memory> {
    let Heard::Told(answers) = leader.hear(alloc, request)? else {
        return Ok(false);
    };
    let mut rest = told;
    for answer in answers.as_slice() {
        match behind(&answer.output, rest) {
            Some(left) => rest = left,
            None => return Ok(false),
        }
    }
    Ok(rest.is_empty())
}

/// Whether this becomes of a word for hart 0, by its number.
fn hears_word(
    alloc: Global,
    leader: &mut Leader,
    word: u32,
    number: Count,
    wanted: Came,
) -> Result<bool, Memory> {
    let number = Some(number);
    let hart = Hart::new(0);
    match leader.hear(alloc, &Request::Word { hart, word, number })? {
        Heard::Came(came) => Ok(came == wanted),
        _ => Ok(false),
    }
}

/// Whether these outputs of hart 0 are told again where those from a number on are asked for.
fn tells_again(
    alloc: Global,
    leader: &mut Leader,
    number: Count,
    told: &[Said],
) -> Result<bool, Memory> {
    let hart = Hart::new(0);
    hears(alloc, leader, &Request::From { hart, number }, told)
}

/// Whether so many outputs of a primary of this term wait.
fn has_waiting(leader: &Leader, waiting: usize, term: Term) -> bool {
    leader.waiting() == waiting && leader.term() == term
}

/// What happens to a primary.
enum Deed {
    /// A word comes for hart 0, by its number, and this becomes of it.
    Word(u32, Count, Came),
    /// Its outputs from a number on are asked for.
    Again(Count),
    /// A keeper acknowledges all that the primary has, in a term.
    Held(u8, Term),
    /// So many of its outputs wait, in its term.
    HasWaiting(usize, Term),
    /// Its harts only wait.
    Waits,
    /// It goes round.
    Round,
}

/// What happens to a primary, and which outputs are told or let go by that.
type Row = (Deed, &'static [Said]);

/// Whether what happens to a primary has this told.
fn does(alloc: Global, leader: &mut Leader, (deed, told): &Row) -> Result<bool, Memory> {
    match *deed {
        Deed::Word(word, number, came) => hears_word(alloc, leader, word, number, came),
        Deed::Again(number) => tells_again(alloc, leader, number, told),
        Deed::Held(keeper, term) => lets_go(alloc, leader, keeper, term, told),
        Deed::HasWaiting(waiting, term) => Ok(has_waiting(&*leader, waiting, term)),
        Deed::Waits => leader.only_waits(alloc),
        Deed::Round => Ok(false),
    }
}

/// Whether each row is told so. Where the primary goes round, its frames are added to the log.
fn go_so(alloc: Global, leader: Leader, log: &mut Vec<u8>, rows: &[Row]) -> Result<bool, Memory> {
    let mut leader = leader;
    for row in rows {
        match row.0 {
            Deed::Round => leader = round(alloc, leader, log)?,
            _ => {
                if !does(alloc, &mut leader, row)? {
                    return Ok(false);
                }
            }
        }
    }
    Ok(true)
}

/// Words that come twice or too early are given once and in order; two of three keepers let their outputs out, in the primary's term. They
/// are told again, and the next round's frames note that they went out.
static FIRST: [Row; 15] = [
    (Deed::Word(70, 0, Came::Taken), &[]),
    (Deed::Word(70, 0, Came::Repeat), &[]),
    (Deed::Word(72, 2, Came::Ahead), &[]),
    (Deed::Word(71, 1, Came::Taken), &[]),
    (Deed::Word(72, 2, Came::Taken), &[]),
    (Deed::Round, &[]),
    (Deed::Round, &[]),
    (Deed::Round, &[]),
    (Deed::Held(1, 1), &[]),
    (Deed::Held(0, 2), &[]),
    (Deed::Held(0, 1), &[(0, 70), (1, 71), (2, 72)]),
    (Deed::Held(2, 1), &[]),
    (Deed::Waits, &[]),
    (Deed::Again(1), &[(1, 71), (2, 72)]),
    (Deed::Round, &[]),
];

/// The next primary tells them too, and lets out only what is new.
static SECOND: [Row; 10] = [
    (Deed::Word(72, 2, Came::Repeat), &[]),
    (Deed::Word(74, 4, Came::Ahead), &[]),
    (Deed::Word(73, 3, Came::Taken), &[]),
    (Deed::Again(1), &[(1, 71), (2, 72)]),
    (Deed::Round, &[]),
    (Deed::Round, &[]),
    (Deed::Held(4, 2), &[]),
    (Deed::Held(1, 2), &[]),
    (Deed::Held(2, 2), &[(3, 73)]),
    (Deed::HasWaiting(0, 2), &[]),
];

/// Whether each of two terms goes so.
fn go_so_in_two_terms(alloc: Global) -> Result<bool, Memory> {
    let image = image_of(alloc)?;
    let mut log = Vec::new(alloc);
    let first = live(alloc, &image, 1, &mut log)?;
    if !go_so(alloc, first, &mut log, &FIRST)? {
        return Ok(false);
    }
    let second = live(alloc, &image, 2, &mut log)?;
    go_so(alloc, second, &mut log, &SECOND)
}

#[test]
fn two_terms(rt: HostRuntime) -> Result<(), Memory> {
    assert!(rt; go_so_in_two_terms(rt.alloc())?);
    Ok(())
}
