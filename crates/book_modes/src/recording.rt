//! Books that record: who has which right to each page, and the edges found.

ghost use Rattle.std.specs.Prelude.{◌≡◌, ◌<◌, ◌≤◌, ◌↔◌, ◌+◌, ℕ, All, List, [], length, slice_get, Some, IsTrue, IfOk, OnOk, OnErr, true, false, None, IsOk};
ghost use Rattle.book_modes.specs.machinery.Words.{but_bells, give_up, greater, inputs_of, is_bell, IsInputOf, IsMember, kept, Queues, unused, whole};
ghost use Rattle.input_log.specs.declared.Input.{Input as input_of_specs};
ghost use Rattle.input_log.specs.declared.WaitingBell.{WaitingBell as bell_of_specs};
ghost use Rattle.book_modes.specs.Modes.{IsSettling};
ghost use Rattle.input_log.specs.Waiting.{bells_of, next_going, others_of};
ghost use Rattle.book_modes.specs.Dues.{nothing_due, due_at, is_silent, stop_before};
ghost use Rattle.rv32_hart.specs.Hart.{Hart as HartRecord};
ghost use Rattle.book_modes.specs.Recordings.{RecordingView, IsUnused, IsRecorded, heard_by, IsFilled, GoesOut, IsOffered, LogsInputs, due_after, AreLogged};
ghost use Rattle.book_modes.specs.Recordings.{PutsBell, IsFrom, IsTaker, AreOwed, IsGiven, IsSettled, IsEnded, keep_as, right_at, GoesOn, HasRows, IsNoting};
ghost use Rattle.book_modes.specs.Recordings.{HasRoomed, KeepsInputs, offers_at};
ghost use Rattle.input_log.specs.Notes.{notes_of, HasRoom};
ghost use Rattle.ft_types.specs.declared.names.TheConstants.{HART_ROW};

use crate::due::{Due, dues_copied, nothing_due, stop_before};
use crate::keep::Keep;
use crate::mode::Mode;
use crate::rights::{keep_right, rights_copied, takes, unused_rights};
use crate::settled::settled_counts;
use crate::unheard::desk_of;
use crate::yielding::{is_at_hand, yield_right};
use crew_pages::PageRight;
use edge_log::{Edge, EdgeLog};
use ft_types::{Count, Counts, HART_LIMIT, HART_ROW, Hart, HartSet, Memory, boxed};
use guest_image::Machine;
use hart_lease::{Asked, Lease, Lent, OpenLease, Taken};
use input_log::{Desk, Input, InputLog, Note, NoteLog, Offered, WaitingBell};
use smallvec::SmallVec;
use std::alloc::Global;
use std::marker::Model;
use std::mem;
use std::option::Option;

/// The log is written.
pub struct Recording {
    limits: Counts,
    rights: Vec<PageRight>,
    edges: Box<EdgeLog>,
    inputs: Box<InputLog>,
    notes: NoteLog,
    /// What each hart's next step is given.
    due: Box<[Due; HART_ROW]>,
    /// What waits for later steps.
    desk: Box<Desk>,
}

impl Drop for Recording {
    fn drop(self) {
        let Recording {
            limits: _,
            rights: _,
            edges: _,
            inputs: _,
            notes: _,
            due: _,
            desk: _,
        } = self;
    }
}

impl Model for Recording {
    ghost use Rattle.book_modes.specs.Recordings.{RecordingView};

    ghost Value = { RecordingView };

    ghost view = { λ r. record { limits = r.limits; rights = r.rights.items; edges = r.edges.value; inputs = r.inputs.value; notes = r.notes; due = r.due.value; desk = r.desk.value } };
}

impl Recording {
    /// Nobody has used a page.
    pub fn new(alloc: Global, start: &Machine, limits: Counts) -> Result<Recording, Memory>
        ensures unused { IfOk result (λ r. IsUnused r start.now limits) }
        ensures rows { OnOk result ((hart : ℕ) (h : HartRecord) → slice_get start.now.harts hart ≡ Some h → length h.received.heard ≡ HART_ROW) }
    {
        let rights = unused_rights(alloc, start.pages())?;
        let edges = EdgeLog::new(alloc, settled_counts(start));
        let desk = desk_of(alloc, start)?;
        Ok(Recording {
            limits,
            rights,
            edges: boxed(alloc, edges)?,
            inputs: boxed(alloc, InputLog::new(alloc))?,
            notes: NoteLog::new(alloc),
            due: boxed(alloc, nothing_due(alloc))?,
            desk: boxed(alloc, desk)?,
        })
    }

    /// The edges of the settled steps.
    pub fn edges(&self) -> &EdgeLog
        ensures { result.now ≡ self.now.edges }
    {
        &*self.edges
    }

    /// The inputs of the settled steps.
    pub fn inputs(&self) -> &InputLog
        ensures { result.now ≡ self.now.inputs }
    {
        &*self.inputs
    }

    /// The notes of the outputs that were released.
    pub fn notes(&self) -> &NoteLog
        ensures { result.now ≡ self.now.notes }
    {
        &self.notes
    }

    /// Notes at the hart's count that its outputs with numbers below this one were released.
    pub fn note_released(&mut self, hart: Hart, count: Count, number: u64) -> Result<(), Memory>
        requires last { All (λ x. x.0 ≤ count) (notes_of self.old.notes hart) }
        requires within { number ≤ count }
        ensures noted { OnOk result (IsNoting self.old hart count number self.new) }
        ensures room { HasRoom self.old.notes hart → IsOk result }
        ensures err { OnErr result (self.new ≡ self.old) }
    {
        let at = count;
        self.notes.add(Note { hart, at, number })
    }

    /// Makes room for one note of each hart.
    pub fn room_for_notes(&mut self) -> Result<(), Memory>
        ensures same { HasRoomed self.old self.new }
        ensures room { OnOk result ((hart : ℕ) → hart < HART_ROW → HasRoom self.new.notes hart) }
    {
        self.notes.room()
    }

    /// Exchanges the notes for others.
    pub fn swap_notes(&mut self, notes: &mut NoteLog)
        ensures new { self.new ≡ record self.old { notes = notes.old } }
        ensures old { notes.new ≡ self.old.notes }
    {
        mem::swap(&mut self.notes, notes);
    }

    /// Puts an input behind the others that wait for the hart. It is given at no count before this one.
    pub fn offer(&mut self, hart: Hart, not_before: Count, input: Input) -> Result<(), Memory>
        requires { is_bell input ≡ false }
        ensures ok { OnOk result (IsOffered self.old hart not_before input self.new) }
        ensures err { OnErr result (self.new ≡ self.old) }
        // It may be given to each machine.
        ensures each { (harts : ℕ) → IsInputOf harts input }
    {
        match input {
            Input::Timer | Input::Word(_) => self.desk.put(hart, not_before, input),
            Input::Bell(_) => unreachable!(),
        }
    }

    /// What was offered to the hart, which is at this count.
    fn offered(&self, hart: Hart, count: Count) -> Offered<'_>
        ensures rows { HasRows self.now }
        ensures value { but_bells result ≡ offers_at self.now hart count }
    {
        let due = self.due[hart.index()].inputs();
        Offered::new(&*self.inputs, count, due, &*self.desk, hart)
    }

    /// It has a row for each hart.
    fn has_rows(&self)
        ensures { HasRows self.now }
    {
        // proof: rows are there, by its clause.
        let _offered = self.offered(Hart::new(0), 0);
    }

    /// Whether the hart, which had settled this count and is now at another, was given more from there on alone, and what was
    /// offered to it is kept.
    fn keeps_inputs(&self, now: Count, hart: Hart, count: Count, before: &Recording) -> bool
        ensures { IsTrue result ↔ KeepsInputs before.now hart count self.now now }
    {
        self.inputs.hears_more(hart, count, &*before.inputs)
            && self.offered(hart, now).keeps(before.offered(hart, count))
    }

    /// Whether nothing is due to the hart, and nothing waits for it.
    fn is_quiet(&self, hart: Hart) -> bool
        ensures due { result ≡ true → due_at self.now.due hart ≡ nothing_due }
        ensures next { result ≡ true → next_going (bells_of self.now.desk hart) (others_of self.now.desk hart) ≡ None }
        ensures row { hart < length self.now.due }
    {
        self.due[hart.index()].is_nothing() && self.desk.next(hart).is_none()
    }

    /// Sees to it that the hart, which is at this count, has due what its next step is given: what a lease that ended without
    /// its first step left, or else what waits at the desk. Takes no memory.
    fn fill_due(&mut self, alloc: Global, hart: Hart, count: Count)
        ensures filled { IsFilled (is_silent (due_at self.old.due hart).inputs) self.old hart count self.new }
        ensures rest { self.new ≡ record self.old { due = self.new.due; desk = self.new.desk } }
    {
        if self.is_quiet(hart) {
            return;
        }
        if self.due[hart.index()].is_silent() {
            let bells = self.desk.bells_next(hart);
            let inputs = self.desk.take(hart, count);
            self.due[hart.index()] = Due::new(alloc, hart, count, inputs, bells.as_slice());
        }
    }

    /// Writes down the inputs of a lease that comes back, where it has a step.
    fn log_inputs(&mut self, lease: &Lease) -> Result<(), Memory>
        requires last { All (λ x. x.0 < lease.now.base.count) (inputs_of self.old.inputs lease.now.hart) }
        ensures logged { OnOk result (LogsInputs lease.now.steps self.old.inputs lease.now self.new.inputs) }
        ensures rest { self.new ≡ record self.old { inputs = self.new.inputs } }
        ensures err { OnErr result (self.new ≡ self.old) }
    {
        if lease.steps() == 0 {
            return Ok(());
        }
        self.inputs
            .add_all(lease.hart(), lease.lent_at(), lease.inputs())
    }

    /// Strikes them out again.
    fn strike_inputs(&mut self, lease: &Lease)
        ensures { (before : List (List (ℕ × input_of_specs))) → LogsInputs lease.now.steps before lease.now self.old.inputs →
            self.new ≡ record self.old { inputs = before } }
    {
        if lease.steps() > 0 {
            self.inputs.take_back(lease.hart(), lease.inputs().len());
        }
    }

    /// Puts a bell behind the others that wait for its target, where there is one.
    fn put_bell(&mut self, target: &Option<Hart>, bell: WaitingBell) -> Result<(), Memory>
        ensures put { OnOk result (PutsBell target.now self.old.desk bell self.new.desk) }
        ensures rest { self.new ≡ record self.old { desk = self.new.desk } }
        ensures err { OnErr result (self.new ≡ self.old) }
    {
        match target {
            None => Ok(()),
            Some(target) => self.desk.put_bell(*target, bell.source, bell.after),
        }
    }

    /// Takes it back again.
    fn take_back_bell(&mut self, target: &Option<Hart>)
        ensures { (before : List Queues) (bell : bell_of_specs) → PutsBell target.now before bell self.old.desk → self.new ≡ record self.old { desk = before } }
    {
        if let Some(target) = target {
            self.desk.take_back_bell(*target);
        }
    }

    /// Writes down the inputs and the edges of a lease that comes back: both or neither.
    fn log(&mut self, lease: &Lease) -> Result<(), Memory>
        requires settles { (earlier : List (ℕ × ℕ)) × (r : RecordingView) × IsSettling (IsRecorded r) (whole earlier lease.now) ×
            (self.old ≡ record r { desk = self.old.desk }) }
        ensures inputs { OnOk result (LogsInputs lease.now.steps self.old.inputs lease.now self.new.inputs) }
        ensures edges { OnOk result (AreLogged self.old.edges lease.now.edges self.new.edges) }
        ensures unsettled { OnOk result (All (IsFrom lease.now.hart lease.now.base.count) lease.now.edges) }
        ensures counts { OnOk result (lease.now.present.count ≡ lease.now.base.count + lease.now.steps) }
        ensures rest { self.new ≡ record self.old { inputs = self.new.inputs; edges = self.new.edges } }
        ensures err { OnErr result (self.new ≡ self.old) }
    {
        self.log_inputs(lease)?;
        match self.edges.add_all(lease.hart(), lease.edges()) {
            Ok(()) => Ok(()),
            Err(refused) => {
                self.strike_inputs(lease);
                Err(refused)
            }
        }
    }

    /// The hart, which is at this count, keeps what it is told of each page that it holds.
    fn keep_rights(&mut self, hart: Hart, count: Count, keep: Keep)
        ensures rest { self.new ≡ record self.old { rights = self.new.rights } }
        ensures many { length self.new.rights ≡ length self.old.rights }
        ensures rights { (page : ℕ) → page < length self.old.rights → right_at self.new.rights page ≡ kept (keep_as keep) (right_at self.old.rights page) hart
            count }
    {
        if keep == Keep::All {
            return;
        }
        for page in 0..self.rights.len() {
            keep_right(&mut self.rights[page], hart, count, keep);
        }
    }

    /// What was due to the hart of a lease that comes back was given, where it has a step.
    fn clear_due(&mut self, lease: &Lease)
        ensures { self.new ≡ record self.old { due = due_after lease.now.steps self.old.due lease.now.hart } }
    {
        if lease.steps() > 0 {
            let alloc = *self.rights.allocator();
            self.due[lease.hart().index()] = Due::nothing(alloc);
        }
    }

    /// Each limit becomes the greater of the two.
    pub fn raise(&mut self, limits: Counts)
        requires { length limits ≡ length self.old.limits }
        ensures { self.new ≡ record self.old { limits = greater self.old.limits limits } }
    {
        self.limits = self.limits.max(limits);
    }

    /// The limits become these.
    pub fn limit_at(&mut self, limits: Counts)
        requires { length limits ≡ length self.old.limits }
        ensures { self.new ≡ record self.old { limits = limits } }
    {
        self.limits = limits;
    }

    /// The counts that the harts do not go past.
    pub fn limits(&self) -> Counts
        ensures { result ≡ self.now.limits }
    {
        self.limits
    }

    /// Whether the hart's right stands in the asker's way, and its open lease has taken the page.
    fn is_taker(&self, leases: &[Option<OpenLease>; HART_ROW], asked: &Asked, other: Hart) -> bool
        requires { asked.now.page < length self.now.rights }
        ensures { IsTrue result ↔ IsTaker self.now leases.now asked.now other }
    {
        if !takes(&leases[other.index()], asked.page) {
            return false;
        }
        self.rights[asked.page.index()].stands(asked.hart, asked.want, other)
    }

    /// The harts whose right stands in the asker's way, and whose open leases have taken the page.
    fn takers(&self, leases: &[Option<OpenLease>; HART_ROW], asked: &Asked) -> HartSet
        requires { asked.now.page < length self.now.rights }
        ensures { (g : ℕ) → IsMember result g ↔ IsTaker self.now leases.now asked.now g }
    {
        let mut harts = HartSet::new();
        for number in 0..HART_LIMIT {
            let hart = Hart::new(number);
            if self.is_taker(leases, asked, hart) {
                harts = harts.with(hart);
            }
        }
        harts
    }
}

impl Mode for Recording {
    ghost stops = { λ r. r.limits };

    ghost obeyed = { λ r. [] };

    ghost heard = { heard_by };

    ghost keeps = { λ r start machine journal leases. IsRecorded r start machine journal leases };

    ghost lends = { GoesOut };

    ghost is_holder = { λ r leases asked other. IsTaker r leases asked other };

    ghost owes = { λ r settled asked found. AreOwed r settled asked found };

    ghost gives = { λ r settled asked new. IsGiven r settled asked new };

    ghost settles = { λ r lease keep new. IsSettled r lease keep new };

    ghost ends = { λ r hart count taken new. IsEnded r hart count taken new };

    ghost goes_on = { λ r settled new now. GoesOn r settled new now };

    fn copy(&self) -> Result<Recording, Memory> {
        let alloc = *self.rights.allocator();
        Ok(Recording {
            limits: self.limits,
            rights: rights_copied(&self.rights)?,
            edges: boxed(alloc, self.edges.copy()?)?,
            inputs: boxed(alloc, self.inputs.copy()?)?,
            notes: self.notes.copy()?,
            due: boxed(alloc, dues_copied(alloc, &*self.due))?,
            desk: boxed(alloc, self.desk.copy()?)?,
        })
    }

    fn goes_on_from(&self, now: &Counts, settled: &Counts, before: &Recording) -> bool {
        if !self.edges.adds_later(settled, &*before.edges) {
            return false;
        }
        if !self.notes.adds_later(settled, &before.notes) {
            return false;
        }
        // proof: both have a row for each hart.
        self.has_rows();
        before.has_rows();
        for number in 0..HART_LIMIT {
            let hart = Hart::new(number);
            let later = now.count_of(hart);
            if !self.keeps_inputs(later, hart, settled.count_of(hart), before) {
                return false;
            }
        }
        true
    }

    fn limit(&self, hart: Hart) -> Count {
        self.limits.count_of(hart)
    }

    fn is_open(&self, _hart: Hart, _machine: &Machine) -> bool {
        false
    }

    fn lend(&mut self, alloc: Global, hart: Hart, count: Count) -> Lent {
        self.fill_due(alloc, hart, count);
        let limit = self.limits.count_of(hart);
        let stop = stop_before(limit, count, self.desk.next(hart));
        self.due[hart.index()].lent(alloc, stop)
    }

    fn holders(&self, leases: &[Option<OpenLease>; HART_ROW], asked: &Asked) -> HartSet {
        let right = &self.rights[asked.page.index()];
        if right.against(asked.hart, asked.want).is_empty() {
            return HartSet::new();
        }
        self.takers(leases, asked)
    }

    fn edges_owed(
        &self,
        alloc: Global,
        settled: &Counts,
        asked: &Asked,
    ) -> SmallVec<Edge, HART_ROW> {
        let right = &self.rights[asked.page.index()];
        if is_at_hand(right, asked) {
            return SmallVec::new(alloc);
        }
        let mut right = *right;
        yield_right(&mut right, settled, asked);
        right.edges_owed(alloc, asked.hart, asked.want, asked.count)
    }

    fn give(&mut self, _alloc: Global, settled: &Counts, asked: &Asked) {
        let right = &mut self.rights[asked.page.index()];
        if is_at_hand(right, asked) {
            return;
        }
        yield_right(right, settled, asked);
        right.give(asked.hart, asked.want, asked.count);
    }

    fn settle(&mut self, lease: &Lease, keep: Keep) -> Result<(), Memory> {
        let target = lease.rung();
        self.put_bell(&target, lease.bell())?;
        if let Err(refused) = self.log(lease) {
            self.take_back_bell(&target);
            return Err(refused);
        }
        self.clear_due(lease);
        self.keep_rights(lease.hart(), lease.count(), keep);
        Ok(())
    }

    fn end(&mut self, hart: Hart, count: Count, taken: &[Option<Taken>]) {
        for page in 0..self.rights.len().min(taken.len()) {
            if taken[page].is_some() {
                self.rights[page].give_up(hart, count);
            }
        }
    }
}
