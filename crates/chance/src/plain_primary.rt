//! A plain primary: the machine with which its term began, what was noted by then, and a book of all that it did since.

use crate::again::{machine_at, one_step};
use crate::fault::PlainFault;
use crate::starts::recorder_from;
use fixtures::cut;
use fragment_codec::{Frame, Opening};
use ft_types::{COUNT_LIMIT, Counts, Guest, HART_ROW, Hart, Memory};
use guest_image::Machine;
use input_log::Input;
use log_pieces::Sealed;
use page_book::{Book, BookFault, Recording};
use std::alloc::Global;

/// Of each hart, below which number its outputs are known to be out.
pub type Marks = [u64; HART_ROW];

/// A primary.
#[derive(Drop)]
pub struct PlainPrimary {
    pub opening: Opening,
    start: Machine,
    marks: Marks,
    pub book: Book<Recording>,
    sealed: Sealed,
    pub stopped: bool,
}

impl PlainPrimary {
    /// A primary that goes on from the machine.
    pub fn begin(
        alloc: Global,
        opening: Opening,
        start: Machine,
        marks: Marks,
    ) -> Result<PlainPrimary, Memory> {
        let book = recorder_from(alloc, start.copy()?, COUNT_LIMIT - 1)?;
        Ok(PlainPrimary {
            sealed: Sealed::new(opening.base()),
            opening,
            start,
            marks,
            book,
            stopped: false,
        })
    }

    /// One step of the hart.
    pub fn step(&mut self, alloc: Global, hart: Hart) -> Result<(), PlainFault> {
        Ok(one_step(alloc, &mut self.book, hart)?)
    }

    /// The input waits behind the others of the hart.
    pub fn offer(&mut self, hart: Hart, input: Input) -> Result<(), PlainFault> {
        if hart.number() >= self.book.machine().harts() || input.is_bell() {
            return Err(PlainFault::Step(BookFault::Foreign));
        }
        Ok(self.book.offer(hart, 0, input)?)
    }

    /// Whether the output is known to be out since before the term.
    pub fn knows(&self, hart: Hart, number: u64) -> bool {
        number < self.marks[hart.index()]
    }

    /// Its log says that the hart's outputs up to the one of this number went out.
    pub fn note(&mut self, hart: Hart, last: u64) -> Result<(), Memory> {
        let machine = self.book.machine();
        if hart.number() < machine.harts() && last < machine.hart(hart).outputs().len() as u64 {
            self.book.note_released(hart, last + 1)?;
        }
        Ok(())
    }

    /// The pieces of what its log says behind what is sealed.
    pub fn seal(&mut self, alloc: Global, guest: Guest) -> Result<Vec<Frame>, Memory> {
        let term = self.opening.term();
        cut(alloc, guest, &self.book, term, &mut self.sealed)
    }

    /// Its machine when each hart was at this count.
    pub fn machine_at(&self, alloc: Global, ends: Counts) -> Result<Machine, Memory> {
        machine_at(alloc, &self.start, &self.book, self.opening.base(), ends)
    }
}
