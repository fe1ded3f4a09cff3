//! Who looks at the primary's book while its harts go on, and sends what is new in it.

use crate::messages::{ToGate, ToKeeper, Went, send};
use crate::news::News;
use crate::noting::note_out;
use crate::rounds::{ROUNDS_AHEAD, ROUNDS_SENT, has_gone_on, rounds_on};
use crossbeam_channel::{Receiver, Sender};
use fragment_codec::Frame;
use ft_types::{Counts, Memory};
use hart_threads::{Grant, Overseer};
use log_streams::Budget;
use page_book::{Book, Recording};
use std::alloc::Global;
use std::mem;
use std::result::Result;
use std::sync::Wait;

/// What is new in the primary's book, and whom it is sent to.
#[derive(Drop)]
pub(crate) struct Herald {
    pub(crate) news: News,
    /// The limit of each hart.
    pub(crate) budget: Budget,
    /// The counts at which was taken what was new the last time.
    pub(crate) taken_at: Counts,
    pub(crate) keepers: Vec<Sender<ToKeeper, Global>>,
    pub(crate) gate: Sender<ToGate, Global>,
    pub(crate) offers: Sender<ToGate, Global>,
    /// Gone once keepers and gate have begun.
    pub(crate) begins: Option<Sender<(), Global>>,
    /// What went out.
    pub(crate) went: Receiver<Went, Global>,
    /// Whether it has news to send.
    pub(crate) has_news: bool,
    /// Whether a growth was refused, or somebody is gone to whom something was sent.
    pub(crate) is_lost: bool,
}

/// Adds a copy of a frame.
fn add_copy(alloc: Global, copies: &mut Vec<Frame>, frame: &Frame) -> Result<(), Memory> {
    let copy = frame.copy(alloc)?;
    copies.push(copy)?;
    Ok(())
}

/// Sends a keeper these frames.
fn send_copies<R: Wait>(
    rt: &R,
    alloc: Global,
    keeper: &Sender<ToKeeper, Global>,
    frames: &[Frame],
) -> Result<(), Memory> {
    let mut copies = Vec::with_capacity(alloc, frames.len())?;
    for frame in frames {
        add_copy(alloc, &mut copies, frame)?;
    }
    send(rt, keeper, Some(copies))
}

impl Herald {
    /// Takes what is new in the book, where a hart has gone on far enough since.
    fn take_news(&mut self, alloc: Global, book: &Book<Recording>) -> Result<(), Memory> {
        let counts = book.counts();
        if !has_gone_on(&self.taken_at, &counts) {
            return Ok(());
        }
        self.taken_at = counts;
        self.has_news = true;
        self.news.take(alloc, book)
    }

    /// Takes what is new in the book, and says how far its harts may go: as many rounds as are sent at once, behind which a hart calls for the next look, and
    /// some more.
    fn see(&mut self, alloc: Global, book: &Book<Recording>) -> Option<Grant> {
        if self.is_lost || self.take_news(alloc, book).is_err() {
            self.is_lost = true;
            return None;
        }
        let calls = rounds_on(book.counts(), self.budget, ROUNDS_SENT);
        let ends = rounds_on(calls, self.budget, ROUNDS_AHEAD);
        Some(Grant { calls, ends })
    }

    /// Sends the gate what was put out, and then each keeper the pieces: the last one themselves, the others copies.
    fn send_news<R: Wait>(&mut self, rt: &R, alloc: Global) -> Result<(), Memory> {
        let outputs = mem::replace(&mut self.news.outputs, Vec::new(alloc));
        if !outputs.is_empty() {
            send(rt, &self.offers, ToGate::Offers(outputs))?;
        }
        let pieces = mem::replace(&mut self.news.pieces, Vec::new(alloc));
        if pieces.is_empty() {
            return Ok(());
        }
        let Some((last, others)) = self.keepers.as_slice().split_last() else {
            return Ok(());
        };
        for keeper in others {
            send_copies(rt, alloc, keeper, &pieces)?;
        }
        send(rt, last, Some(pieces))
    }

    /// Sends what the book has more than was sent, and that there is no more.
    pub(crate) fn close<R: Wait>(
        self,
        rt: &R,
        alloc: Global,
        book: &Book<Recording>,
    ) -> Result<(), Memory> {
        let mut herald = self;
        herald.news.take(alloc, book)?;
        herald.send_news(rt, alloc)?;
        send(rt, &herald.gate, ToGate::End)?;
        for keeper in &herald.keepers {
            send(rt, keeper, None)?;
        }
        Ok(())
    }
}

impl Overseer<Recording> for Herald {
    fn look<R: Wait>(
        &mut self,
        rt: &R,
        alloc: Global,
        book: &mut Book<Recording>,
    ) -> Option<Grant> {
        note_out(rt, &self.went, book);
        self.see(alloc, book)
    }

    fn hand_on<R: Wait>(&mut self, rt: &R, alloc: Global) {
        if !self.has_news || self.is_lost {
            return;
        }
        self.has_news = false;
        self.begins = None;
        if self.send_news(rt, alloc).is_err() {
            self.is_lost = true;
        }
    }

    fn is_lost(&self) -> bool {
        self.is_lost
    }
}
