//! What a book that records holds of its steps, and what it is offered.

ghost use Rattle.std.specs.Prelude.{All, ◌≡◌, ◌<◌, ◌≤◌, ℕ, [], length, replicate, slice_get, Some, None, false, IfOk, OnOk, OnErr, IsOk, min};
ghost use Rattle.page_book.specs.machinery.Words.{count_at, counts_of, greater, HasHonestLog, heard_by, inputs_of, is_bell, IsBetween, IsInputOf, IsOffered};
ghost use Rattle.page_book.specs.machinery.Words.{IsUnused, row_of};
ghost use Rattle.book_modes.specs.Recordings.{IsNoting, HasRoomed};
ghost use Rattle.input_log.specs.Notes.{notes_of, HasRoom};
ghost use Rattle.ft_types.specs.declared.names.TheConstants.{HART_ROW};
ghost use Rattle.rv32_hart.specs.Hart.{Hart as HartRecord};

use crate::book::Book;
use crate::giving::no_leases;
use crate::spare::Spare;
use book_modes::{Recording, steps_taken};
use edge_log::EdgeLog;
use ft_types::{Count, Counts, Hart, Memory};
use guest_image::Machine;
use input_log::{Input, InputLog, NoteLog};
use std::alloc::Global;

impl Book<Recording> {
    /// A book without steps, whose harts do not go past these limits.
    pub fn begin(alloc: Global, start: Machine, limits: Counts) -> Result<Book<Recording>, Memory>
        requires { length limits ≡ length start.harts }
        ensures book { IfOk result (λ b. b ≡ record { start = start; machine = start; journal = []; leases = replicate HART_ROW None; mode = b.mode }) }
        ensures mode { IfOk result (λ b. IsUnused b.mode start limits) }
    {
        let mode = Recording::new(alloc, &start, limits)?;
        let machine = start.copy()?;
        let leases = no_leases(alloc)?;
        Ok(Book {
            start,
            machine,
            journal: Vec::new(alloc),
            leases,
            mode,
            spare: Spare::none(),
        })
    }

    /// The edges of the settled steps, with those dropped that others or the start imply. They tell truly of the journal:
    /// with the start's counts and the settled ones they are an honest log of it. Each bell that a hart heard since the start was
    /// rung by the start, or at a step that comes before by the edges.
    pub fn edges(&self) -> &EdgeLog
        ensures value { result.now ≡ self.now.mode.edges }
        ensures honest { HasHonestLog result.now (heard_by self.now.mode) self.now.start self.now.journal self.now.machine }
        // Each is between two harts, and what it names has been settled.
        ensures between { (hart : ℕ) → All (IsBetween self.now.machine hart) (row_of result.now hart) }
    {
        self.mode.edges()
    }

    /// The inputs that the harts were given at the settled steps.
    pub fn inputs(&self) -> &InputLog
        ensures value { result.now ≡ self.now.mode.inputs }
        ensures each { (hart : ℕ) → All (λ x. IsInputOf (length self.now.machine.harts) x.1) (inputs_of result.now hart) }
        // Each was given at a settled step.
        ensures within { (hart : ℕ) → All (λ x. (counts_of self.now.start hart ≤ x.0) × (x.0 < counts_of self.now.machine hart)) (inputs_of result.now hart) }
    {
        self.mode.inputs()
    }

    /// The notes of the outputs that were released. They steer nothing: no lease, no replay and no position takes account of them.
    pub fn notes(&self) -> &NoteLog
        ensures value { result.now ≡ self.now.mode.notes }
        // None is at a count that its hart has yet to reach.
        ensures within { (hart : ℕ) → All (λ x. x.0 ≤ counts_of self.now.machine hart) (notes_of result.now hart) }
    {
        self.mode.notes()
    }

    /// Notes at the hart's settled count that its outputs with numbers below this one were released, of which the caller knows. A hart
    /// has no more outputs than steps: of a greater number as many are noted as there are steps.
    pub fn note_released(&mut self, hart: Hart, number: u64) -> Result<(), Memory>
        requires hart { hart < length self.old.machine.harts }
        requires some { 1 ≤ number }
        requires outputs { (h : HartRecord) → slice_get self.old.machine.harts hart ≡ Some h → number ≤ length h.outputs }
        ensures noted { OnOk result (IsNoting self.old.mode hart (counts_of self.old.machine hart) (min number (counts_of self.old.machine hart)) self.new.mode) }
        ensures room { HasRoom self.old.mode.notes hart → IsOk result }
        ensures book { self.new ≡ record self.old { mode = self.new.mode } }
        ensures err { OnErr result (self.new ≡ self.old) }
    {
        let count = steps_taken(&self.machine, hart);
        self.mode.note_released(hart, count, number.min(count))
    }

    /// Makes room for one note of each hart: then each hart's next note takes no memory.
    pub fn room_for_notes(&mut self) -> Result<(), Memory>
        ensures same { HasRoomed self.old.mode self.new.mode }
        ensures book { self.new ≡ record self.old { mode = self.new.mode } }
        ensures room { OnOk result ((hart : ℕ) → hart < HART_ROW → HasRoom self.new.mode.notes hart) }
    {
        self.mode.room_for_notes()
    }

    /// Exchanges the notes for others, none of which is at a count that its hart has yet to reach.
    pub fn swap_notes(&mut self, notes: &mut NoteLog)
        requires within { (hart : ℕ) → All (λ x. x.0 ≤ counts_of self.old.machine hart) (notes_of notes.old hart) }
        ensures new { self.new ≡ record self.old { mode = record self.old.mode { notes = notes.old } } }
        ensures old { notes.new ≡ self.old.mode.notes }
        // Nor is any of those that were there.
        ensures within { (hart : ℕ) → All (λ x. x.0 ≤ counts_of self.old.machine hart) (notes_of notes.new hart) }
    {
        self.mode.swap_notes(notes);
    }

    /// Puts an input, which is no bell, behind the others that wait for the hart. It is given at no count before this one.
    pub fn offer(&mut self, hart: Hart, not_before: Count, input: Input) -> Result<(), Memory>
        requires hart { hart < length self.old.machine.harts }
        requires no_bell { is_bell input ≡ false }
        ensures ok { OnOk result (IsOffered self.old.mode hart not_before input self.new.mode) }
        ensures book { self.new ≡ record self.old { mode = self.new.mode } }
        ensures err { OnErr result (self.new ≡ self.old) }
    {
        self.mode.offer(hart, not_before, input)
    }

    /// Each hart may go on to the greater of its limit and this one.
    pub fn limit_to(&mut self, limits: Counts)
        requires { length limits ≡ length self.old.machine.harts }
        ensures { self.new ≡ record self.old { mode = record self.old.mode { limits = greater self.old.mode.limits limits } } }
    {
        self.mode.raise(limits);
    }

    /// The counts that the harts do not go past.
    pub fn limits(&self) -> Counts
        ensures value { result ≡ self.now.mode.limits }
        ensures harts { length result ≡ length self.now.machine.harts }
    {
        self.mode.limits()
    }

    /// Each hart goes on to this count and no further, which no hart is past. No lease is open.
    pub fn limit_at(&mut self, limits: Counts)
        requires harts { length limits ≡ length self.old.machine.harts }
        requires idle { self.old.leases ≡ replicate HART_ROW None }
        requires settled { (hart : ℕ) → counts_of self.old.machine hart ≤ count_at limits hart }
        ensures { self.new ≡ record self.old { mode = record self.old.mode { limits = limits } } }
    {
        self.mode.limit_at(limits);
    }
}
