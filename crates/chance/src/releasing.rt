//! What goes out in a plain world, and what is noted of that.

use crate::fault::PlainFault;
use crate::keeper::Rules;
use crate::plain::PlainWorld;
use crate::plain_primary::Marks;
use closed_cut::Position;
use fragment_codec::{Fragment, Frame, Record};
use ft_types::{Count, Counts, HART_ROW, Hart, Memory, Term};
use output_gate::Output;
use primary::Released;
use std::alloc::Global;

/// What is noted in a piece of the term, inside these counts.
fn note_piece(marks: &mut Marks, piece: &Fragment, term: Term, ends: &Counts) {
    let key = piece.key();
    let hart = key.hart.index();
    let end = ends.count_of(key.hart);
    for record in piece.records() {
        if let Record::Note(at, number) = record {
            if key.term == term && *at < end {
                marks[hart] = marks[hart].max(*number);
            }
        }
    }
}

impl PlainWorld {
    /// Whether the output is known in its term to be out since before.
    fn knows(&self, released: &Released) -> bool {
        match self.primary(released.term) {
            Some(primary) => primary.knows(released.output.hart, released.output.number),
            None => false,
        }
    }

    /// Whether the output may go out, and did not in this term.
    fn is_due(&self, released: &Released) -> bool {
        let output = &released.output;
        self.holders(released.term, output.hart, output.step) >= usize::from(self.need)
            && !self.knows(released)
            && !self.released.contains(released)
    }

    /// Lets those outputs of the hart go out that are due in the term, and tells the number of the last of them.
    fn release_hart(
        &mut self,
        term: Term,
        hart: Hart,
        outputs: &[(Count, u32)],
    ) -> Result<Option<u64>, Memory> {
        let mut last = None;
        let mut number = 0u64;
        for (step, word) in outputs {
            let output = Output {
                hart,
                number,
                step: *step,
                word: *word,
            };
            let released = Released { term, output };
            if self.is_due(&released) {
                last = Some(number);
                self.released.push(released)?;
            }
            number = number.saturating_add(1);
        }
        Ok(last)
    }

    /// What the hart has put out in the term.
    fn outputs_of(
        &self,
        alloc: Global,
        term: Term,
        hart: Hart,
    ) -> Result<Vec<(Count, u32)>, Memory> {
        match self.machine(term) {
            Some(machine) if hart.number() < machine.harts() => {
                Ok(machine.hart(hart).outputs().to_vec(alloc)?)
            }
            _ => Ok(Vec::new(alloc)),
        }
    }

    /// Lets those outputs of the hart go out that are due in the term. Where primaries stop, the log notes it.
    fn release_of(&mut self, alloc: Global, term: Term, hart: Hart) -> Result<(), PlainFault> {
        let outputs = self.outputs_of(alloc, term, hart)?;
        let last = self.release_hart(term, hart, &outputs)?;
        if let (Rules::Stopping, Some(last)) = (self.rules, last) {
            self.running(term)?.note(hart, last)?;
        }
        Ok(())
    }

    /// Lets those outputs go out that are due in the term.
    pub fn release(&mut self, alloc: Global, term: Term) -> Result<(), PlainFault> {
        if self.machine(term).is_none() {
            return Err(PlainFault::NoPrimary);
        }
        for number in 0..self.image.harts() {
            self.release_of(alloc, term, Hart::new(number))?;
        }
        Ok(())
    }

    /// What is noted in the term, inside these counts, of frames of these numbers.
    fn note_term(&self, marks: &mut Marks, term: Term, ends: &Counts, frames: &[u64]) {
        for number in frames {
            if let Some(Frame::Log(piece)) = self.sent.get(*number as usize) {
                note_piece(marks, piece, term, ends);
            }
        }
    }

    /// The same, in each term that leads to the position.
    fn note_terms(&self, marks: &mut Marks, position: &Position, frames: &[u64]) {
        let mut term = position.term;
        let mut ends = position.counts;
        for _term in &self.primaries {
            self.note_term(marks, term, &ends, frames);
            if let Some(primary) = self.primary(term) {
                term = primary.opening.parent();
                ends = primary.opening.base();
            }
        }
    }

    /// What is noted inside the position, of what these keepers give to the term: nothing where nobody stops a primary.
    pub fn marks_at(&self, position: &Position, term: Term, keepers: &[u64]) -> Marks {
        let mut marks = [0; HART_ROW];
        for keeper in keepers {
            self.note_terms(&mut marks, position, self.given(*keeper, term));
        }
        marks
    }
}
