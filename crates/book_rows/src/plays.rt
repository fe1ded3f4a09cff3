//! Plays are played: each row's call is made, and its answer compared.

use crate::rows::{Edge, Heard, Play, Row};
use crate::starts::{next_book, offer, raise, recorder_of, replayer_of};
use fixtures::{Crew, hart};
use ft_types::{Count, Hart, HartSet, PAGE_LIMIT, PageNo};
use guest_image::Machine;
use input_log::Input;
use page_book::{Book, BookFault, Keep, Lease, Mode, Need, Recording, Replaying};
use std::alloc::Global;
use std::mem;
use std::test::Fail;

/// Two crews over books that began alike.
struct Stage<M: Mode> {
    crew: Crew<M>,
    other: Crew<M>,
}

impl<M: Mode> Stage<M> {
    fn new(book: Book<M>, other: Book<M>) -> Stage<M> {
        Stage {
            crew: Crew::new(book),
            other: Crew::new(other),
        }
    }

    /// The machine of the crew's book, once each open lease has gone back.
    fn end(self) -> Machine {
        let Stage { crew, other } = self;
        let _other = other.end();
        crew.end().into_machine()
    }
}

/// The number of what a call told: 0, or that of a fault.
fn told(answer: Result<(), BookFault>) -> u8 {
    match answer {
        Ok(()) => 0,
        Err(fault) => fault.number(),
    }
}

/// What a page that was asked for is answered with, where these harts are in the way, of which each is a bit.
fn need_of(bits: u8) -> Need {
    let mut harts = HartSet::new();
    for number in 0..8u8 {
        if bits >> number & 1 == 1 {
            harts = harts.with(hart(number));
        }
    }
    if bits == 0 {
        Need::Given
    } else {
        Need::HeldBy(harts)
    }
}

fn is_edge(edge: &edge_log::Edge, (at, other, after): Edge) -> bool {
    edge.at == at && edge.other.number() == other && edge.after == after
}

fn are_edges(edges: &[edge_log::Edge], want: &[Edge]) -> bool {
    let mut rest = want;
    for edge in edges {
        match rest {
            [want, behind @ ..] if is_edge(edge, *want) => rest = behind,
            _ => return false,
        }
    }
    rest.is_empty()
}

fn are_inputs(inputs: &[Input], want: &[Heard]) -> bool {
    let mut rest = want;
    for input in inputs {
        match rest {
            [heard, behind @ ..] if *input == heard.input() => rest = behind,
            _ => return false,
        }
    }
    rest.is_empty()
}

/// Whether a lease's call answers as its row says.
fn is_answered<M: Mode>(crew: &mut Crew<M>, alloc: Global, row: &Row) -> bool {
    match *row {
        Row::Lend(number, said) => told(crew.lend(alloc, hart(number))) == said,
        Row::Go(number, most, said) => crew.go(hart(number), most) == said,
        Row::Settle(number, keep, said) => told(crew.settle(hart(number), keep)) == said,
        Row::Discard(number, said) => told(crew.discard(hart(number))) == said,
        Row::Run(number, said) => crew.run(alloc, hart(number), Keep::All) == Ok(said),
        _ => false,
    }
}

/// A lease's count, stop and steps.
fn counts_in(lease: &Lease) -> [u64; 3] {
    [lease.count(), lease.stop(), lease.steps()]
}

/// Whether the lease of a hart stands so. One that can be asked for steps is its hart's, and not full.
fn stands<M: Mode>(crew: &Crew<M>, hart: Hart, want: [u64; 3]) -> bool {
    match crew.lease(hart) {
        Some(lease) => lease.hart() == hart && !lease.full() && counts_in(lease) == want,
        None => false,
    }
}

/// The page of a number below `PAGE_LIMIT`.
fn page_of(number: u8) -> PageNo {
    PageNo::new(u16::from(number) % PAGE_LIMIT)
}

/// Whether a lease is given a page, and tells of itself, as a row says.
fn is_lease_so<M: Mode>(crew: &mut Crew<M>, row: &Row) -> bool {
    match *row {
        Row::Ask(number, page, want, said) => {
            crew.ask(hart(number), page_of(page), want) == Ok(need_of(said))
        }
        Row::Waits(number, want) => are_edges(crew.waiting(hart(number)), want),
        Row::Stands(number, want) => stands(crew, hart(number), want),
        _ => false,
    }
}

fn has_put_out<M: Mode>(book: &Book<M>, number: u8, outputs: &[(u64, u32)]) -> bool {
    let machine = book.machine();
    number < machine.harts() && machine.hart(Hart::new(number)).outputs() == outputs
}

/// Whether a book tells of itself what a row says.
fn is_book_so<M: Mode>(book: &Book<M>, row: &Row) -> bool {
    match *row {
        Row::Counts(counts, leases) => {
            book.counts().as_slice() == counts && book.journal().len() == leases
        }
        Row::Out(number, outputs) => has_put_out(book, number, outputs),
        _ => false,
    }
}

/// Whether a row of any book holds.
fn holds<M: Mode>(stage: &mut Stage<M>, alloc: Global, row: &Row) -> bool {
    match *row {
        Row::Turn => {
            mem::swap(&mut stage.crew, &mut stage.other);
            true
        }
        Row::Trade => {
            mem::swap(&mut stage.crew.leases, &mut stage.other.leases);
            true
        }
        _ => {
            is_answered(&mut stage.crew, alloc, row)
                || is_lease_so(&mut stage.crew, row)
                || is_book_so(&stage.crew.book, row)
        }
    }
}

/// Whether a hart was given these inputs at a count, and the next ones at that one.
fn has_given(
    book: &Book<Recording>,
    hart: Hart,
    count: Count,
    want: &[Heard],
    next: Option<Count>,
) -> bool {
    let inputs = book.inputs();
    are_inputs(inputs.at(hart, count), want) && inputs.next(hart, count.saturating_add(1)) == next
}

/// Whether a book recorded what a row says.
fn is_recorded(book: &Book<Recording>, row: &Row) -> bool {
    match *row {
        Row::Edges(number, want) => are_edges(book.edges().of_hart(hart(number)), want),
        Row::Given(number, count, want, next) => has_given(book, hart(number), count, want, next),
        _ => false,
    }
}

/// Plays a book on, and no more the crew's one.
fn play_on(crew: &mut Crew<Recording>, book: Book<Recording>) {
    let before = mem::replace(crew, Crew::new(book));
    let _before = before.end();
}

/// Plays a book on that begins where the crew's one ends.
fn begin_next(crew: &mut Crew<Recording>, alloc: Global) -> bool {
    match next_book(alloc, &crew.book) {
        Some(book) => {
            play_on(crew, book);
            true
        }
        None => false,
    }
}

/// Whether a row of a book that records is done, or holds.
fn is_done(stage: &mut Stage<Recording>, alloc: Global, row: &Row) -> bool {
    match *row {
        Row::Offer(number, count, ref heard) => {
            offer(&mut stage.crew.book, hart(number), count, &heard.input())
        }
        Row::Raise(limits) => raise(&mut stage.crew.book, limits),
        Row::Begin => begin_next(&mut stage.crew, alloc),
        _ => holds(stage, alloc, row) || is_recorded(&stage.crew.book, row),
    }
}

/// What a play came to: whether each row is as it says, and the machine.
type Played = (bool, Machine);

/// Whether a book that records does each row as it says.
fn rows_recorded(stage: &mut Stage<Recording>, alloc: Global, rows: &[Row]) -> bool {
    for row in rows {
        if !is_done(stage, alloc, row) {
            return false;
        }
    }
    true
}

/// Whether one that replays does.
fn rows_replayed(stage: &mut Stage<Replaying>, alloc: Global, rows: &[Row]) -> bool {
    for row in rows {
        if !holds(stage, alloc, row) {
            return false;
        }
    }
    true
}

fn record(alloc: Global, play: &Play) -> Result<Played, Fail> {
    let (book, other) = (recorder_of(alloc, play)?, recorder_of(alloc, play)?);
    let mut stage = Stage::new(book, other);
    let goes = rows_recorded(&mut stage, alloc, play.rows);
    Ok((goes, stage.end()))
}

fn replay(alloc: Global, play: &Play) -> Result<Played, Fail> {
    let (book, other) = (replayer_of(alloc, play)?, replayer_of(alloc, play)?);
    let mut stage = Stage::new(book, other);
    let goes = rows_replayed(&mut stage, alloc, play.rows);
    Ok((goes, stage.end()))
}

fn played(alloc: Global, play: &Play) -> Result<Played, Fail> {
    match play.obeyed {
        None => record(alloc, play),
        Some(_) => replay(alloc, play),
    }
}

/// Whether a play's machine is that of the play before it, where it should be.
fn is_alike(play: &Play, last: &Option<Machine>, machine: &Machine) -> bool {
    match last {
        Some(last) if play.alike => machine.same(last),
        _ => !play.alike,
    }
}

/// Whether a play goes as is said, behind the play that came to the last machine.
fn goes_so(alloc: Global, play: &Play, last: &mut Option<Machine>) -> Result<bool, Fail> {
    let (goes, machine) = played(alloc, play)?;
    let right = goes && is_alike(play, &*last, &machine);
    *last = Some(machine);
    Ok(right)
}

/// Plays them one behind the other. Fails with the name of the first that goes otherwise than is said.
pub fn play_all(alloc: Global, plays: &[Play]) -> Result<(), Fail> {
    let mut last = None;
    for play in plays {
        if !goes_so(alloc, play, &mut last)? {
            return Err(play.name.into());
        }
    }
    Ok(())
}
