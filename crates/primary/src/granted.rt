//! A primary of a granted term: the term's opening, its book, and how far its log went out.

ghost use Rattle.std.specs.Prelude.{◌≡◌, ◌<◌, ◌≤◌, ◌++◌, ℕ, false, length, IfOk, IfErr, OnOk, OnErr};
ghost use Rattle.std.specs.Prelude.{List};
ghost use Rattle.ft_types.specs.Counts.{count_at};
ghost use Rattle.ft_types.specs.Guests.{IsGuest};
ghost use Rattle.input_log.specs.Inputs.{is_bell};
ghost use Rattle.guest_image.specs.Image.{guest_of};
ghost use Rattle.hart_lease.specs.Runs.{LeadsTo, counts_of};
ghost use Rattle.book_modes.specs.Recordings.{heard_by, HasRoomed, IsOffered, IsUnused};
ghost use Rattle.fragment_codec.specs.declared.frame.Frame.{Frame as frame_of_specs};
ghost use Rattle.fragment_codec.specs.Rules.{IsOpening};
ghost use Rattle.log_pieces.specs.Pieces.{IsCut, book_log};
ghost use Rattle.lease_rounds.specs.Running.{IsIdle};
ghost use Rattle.lease_rounds.specs.Steps.{AreWithin, HasStepped, HoldsNothing, IsUnmoved, RefusesStep};
ghost use Rattle.hart_replay.specs.Primaries.{IsPrimary};
ghost use Rattle.primary.specs.Primaries.{no_limits as greatest_limits, BeginsFrom, GoesOn, IsBooted, IsUncut};
ghost use Rattle.primary.specs.Gating.{AreOffered, AreRising, IsAsItWas, LetGo};
ghost use Rattle.primary.specs.Noting.{NotesAll};

use crate::gating::release_outputs;
use crate::limits::no_limits;
use crate::noting::note_all;
use crate::released::Released;
use fragment_codec::{Frame, Opening, first_opening};
use ft_types::{Count, Counts, Hart, Memory};
use guest_image::{Image, Machine};
use input_log::Input;
use lease_rounds::take_step;
use log_pieces::{Sealed, cut_pieces};
use page_book::{Book, BookFault, Recording};
use std::alloc::Global;
use std::result::Result;
use term_gate::TermGate;

/// A primary: the opening of its term, its book, and how far its log was cut into pieces.
#[derive(Drop)]
pub struct Primary {
    pub opening: Opening,
    pub book: Book<Recording>,
    pub sealed: Sealed,
}

/// What the type of a recording book tells: its log is honest, and its journal leads to its machine. It is called for a proof alone.
pub fn tell_primary(book: &Book<Recording>)
    ensures primary { IsPrimary book.now }
    ensures leads { LeadsTo (heard_by book.now.mode) book.now.start book.now.journal book.now.machine }
{
    let _next = book.edges().next(Hart::new(0), 0);
    let _machine = book.machine();
}

impl Primary {
    /// The primary of term 1, from boot.
    pub fn boot(alloc: Global, image: &Image) -> Result<Primary, Memory>
        ensures booted { IfOk result (λ p. IsBooted image.now p) }
        ensures guest { IsGuest (guest_of image.now) }
        ensures primary { IfOk result (λ p. IsPrimary p.book) }
    {
        let guest = image.guest();
        let harts = image.harts();
        let opening = first_opening(guest);
        let start = Machine::boot(alloc, image)?;
        let book = Book::<Recording>::begin(alloc, start, no_limits(harts))?;
        // proof: its log is honest.
        tell_primary(&book);
        Ok(Primary {
            opening,
            book,
            sealed: Sealed::new(Counts::zero(harts)),
        })
    }

    /// The primary of a term that goes on from a book in which nothing is settled: each hart has the greatest limit, and nothing of its log is cut.
    pub fn going_on(opening: Opening, book: Book<Recording>) -> Primary
        requires harts { length book.start.harts ≡ opening.guest.harts }
        requires counts { (hart : ℕ) → counts_of book.start hart ≡ count_at opening.base hart }
        requires begins { BeginsFrom book.start book }
        requires unused { IsUnused book.mode book.start opening.base }
        ensures opening { result.opening ≡ opening }
        ensures rules { IsOpening opening }
        ensures start { result.book.start ≡ book.start }
        ensures begins { BeginsFrom result.book.start result.book }
        ensures unused { IsUnused result.book.mode result.book.start (greatest_limits opening.guest.harts) }
        ensures uncut { IsUncut opening.base result.sealed }
        ensures primary { IsPrimary result.book }
    {
        let mut book = book;
        let sealed = Sealed::new(opening.base());
        let guest = opening.guest();
        book.limit_at(no_limits(guest.harts()));
        // proof: its log is honest.
        tell_primary(&book);
        Primary {
            opening,
            book,
            sealed,
        }
    }

    /// A hart takes a step.
    pub fn step(&mut self, alloc: Global, hart: Hart) -> Result<(), BookFault>
        requires hart { hart < length self.old.book.machine.harts }
        requires idle { IsIdle self.old.book }
        requires within { AreWithin self.old.book }
        ensures stepped { OnOk result (HasStepped hart self.old.book self.new.book) }
        ensures rights { OnOk result (HoldsNothing self.new.book hart) }
        ensures refused { IfErr result (λ fault. RefusesStep self.old.book hart fault) }
        ensures unmoved { OnErr result (IsUnmoved hart self.old.book self.new.book) }
        // In either case:
        ensures rest { self.new ≡ record self.old { book = self.new.book } }
        ensures goes_on { GoesOn self.old.book self.new.book }
        ensures harts { length self.new.book.machine.harts ≡ length self.old.book.machine.harts }
        ensures idle { IsIdle self.new.book }
        ensures within { AreWithin self.new.book }
    {
        // proof: what its type tells of the book, before and after.
        tell_primary(&self.book);
        let stepped = take_step(alloc, &mut self.book, hart);
        tell_primary(&self.book);
        stepped
    }

    /// An input waits for a hart, which is not given it before this count.
    pub fn offer(&mut self, hart: Hart, not_before: Count, input: Input) -> Result<(), Memory>
        requires hart { hart < length self.old.book.machine.harts }
        requires input { is_bell input ≡ false }
        ensures offered { OnOk result (IsOffered self.old.book.mode hart not_before input self.new.book.mode) }
        ensures err { OnErr result (self.new ≡ self.old) }
        // In either case:
        ensures rest { self.new ≡ record self.old { book = record self.old.book { mode = self.new.book.mode } } }
        ensures limits { self.new.book.mode.limits ≡ self.old.book.mode.limits }
        ensures goes_on { GoesOn self.old.book self.new.book }
    {
        // proof: what its type tells of the book, before and after.
        tell_primary(&self.book);
        let offered = self.book.offer(hart, not_before, input);
        tell_primary(&self.book);
        offered
    }

    /// Pieces of the log, up to the settled counts, are sent.
    pub fn seal(&mut self, alloc: Global, sent: &mut Vec<Frame>) -> Result<(), Memory>
        requires harts { length self.old.book.machine.harts ≡ self.old.opening.guest.harts }
        requires reached { length self.old.sealed.reached ≡ self.old.opening.guest.harts }
        requires within { (hart : ℕ) → count_at self.old.sealed.reached hart ≤ counts_of self.old.book.machine hart }
        ensures cut { OnOk result ((frames : List frame_of_specs)
            × IsCut (book_log self.old.opening.guest self.old.opening.term self.old.book)
            self.old.opening.guest.harts self.old.sealed frames self.new.sealed
            × (sent.new.items ≡ sent.old.items ++ frames)) }
        ensures rest { self.new ≡ record self.old { sealed = self.new.sealed } }
        ensures err { OnErr result (self.new ≡ self.old) }
        ensures none { OnErr result (sent.new.items ≡ sent.old.items) }
    {
        // proof: an opening's term was granted.
        let _rules = self.opening.base();
        let guest = self.opening.guest();
        let term = self.opening.term();
        let mut sealed = self.sealed;
        let mut pieces = cut_pieces(alloc, &self.book, &guest, term, &mut sealed)?;
        sent.append(&mut pieces)?;
        self.sealed = sealed;
        Ok(())
    }

    /// All outputs of its machine are offered at its term's gate, those go out whose step enough keepers acknowledged, and its book notes that they
    /// did. First whatever grows does: once an output is out, no memory is taken.
    pub fn release(
        &mut self,
        alloc: Global,
        gate: &mut TermGate,
        released: &mut Vec<Released>,
    ) -> Result<(), Memory>
        requires { AreOffered gate.old.gate self.old.book.machine }
        ensures goes { OnOk result ((goes : LetGo self.old.opening.term self.old.book.machine gate.old released.old.items gate.new released.new.items)
            × NotesAll goes.given self.old.book self.new.book) }
        ensures was { OnErr result (IsAsItWas gate.old gate.new) }
        ensures none { OnErr result (released.new.items ≡ released.old.items) }
        ensures room { OnErr result (HasRoomed self.old.book.mode self.new.book.mode) }
        ensures book { OnErr result (self.new.book ≡ record self.old.book { mode = self.new.book.mode }) }
        // In either case:
        ensures rest { self.new ≡ record self.old { book = self.new.book } }
        ensures gate { gate.new ≡ record gate.old { gate = record gate.old.gate { noted = gate.new.gate.noted; lines = gate.new.gate.lines } } }
        ensures offered { AreRising self.old.book.machine → AreOffered gate.new.gate self.old.book.machine }
        ensures before { LeadsTo (heard_by self.old.book.mode) self.old.book.start self.old.book.journal self.old.book.machine }
        ensures primary { IsPrimary self.new.book }
    {
        // proof: what its type tells of the book, before and after.
        tell_primary(&self.book);
        let done = self.let_out(alloc, gate, released);
        tell_primary(&self.book);
        done
    }

    /// What a release does.
    fn let_out(
        &mut self,
        alloc: Global,
        gate: &mut TermGate,
        released: &mut Vec<Released>,
    ) -> Result<(), Memory>
        requires { AreOffered gate.old.gate self.old.book.machine }
        ensures goes { OnOk result ((goes : LetGo self.old.opening.term self.old.book.machine gate.old released.old.items gate.new released.new.items)
            × NotesAll goes.given self.old.book self.new.book) }
        ensures was { OnErr result (IsAsItWas gate.old gate.new) }
        ensures none { OnErr result (released.new.items ≡ released.old.items) }
        ensures room { OnErr result (HasRoomed self.old.book.mode self.new.book.mode) }
        ensures book { OnErr result (self.new.book ≡ record self.old.book { mode = self.new.book.mode }) }
        ensures rest { self.new ≡ record self.old { book = self.new.book } }
        ensures gate { gate.new ≡ record gate.old { gate = record gate.old.gate { noted = gate.new.gate.noted; lines = gate.new.gate.lines } } }
        ensures offered { AreRising self.old.book.machine → AreOffered gate.new.gate self.old.book.machine }
    {
        self.book.room_for_notes()?;
        let term = self.opening.term();
        let given = release_outputs(alloc, term, self.book.machine(), gate, released)?;
        // From here on no memory is taken: what went out is noted.
        note_all(&mut self.book, &given);
        Ok(())
    }
}
