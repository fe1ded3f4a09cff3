//! A leg under way.

ghost use Rattle.std.specs.Prelude.{◌≡◌, ◌↔◌, ◌⊎◌, ◌<◌, ◌≤◌, ℕ, [], length, true, false, IfOk, IfErr, OnOk, OnErr, IsTrue};
ghost use Rattle.ft_types.specs.Counts.{count_at};
ghost use Rattle.edge_log.specs.EdgeLog.{edges_of, row_of};
ghost use Rattle.input_log.specs.Inputs.{inputs_of};
ghost use Rattle.ft_types.specs.declared.names.TheConstants.{HART_LIMIT};
ghost use Rattle.log_join.specs.Stores.{IsStore};
ghost use Rattle.hart_replay.specs.GoingOn.{BeginsLeg};
ghost use Rattle.hart_replay.specs.machinery.Going.{LeadsOn, FailsOn};
ghost use Rattle.warm_backup.specs.machinery.Growing.{AsksForNothing, AsksForNothingOf, Grows, IsBehind, IsFresh, IsNext};
ghost use Rattle.warm_backup.specs.machinery.Working.{cut_leg, machine_in, HasBegun, HasGone, IsAtEnds, IsReady, IsRefused, IsSettled, IsUpToDate};

use crate::growing::{Cursor, cursors_at, grow, rules_of};
use crate::leading::lead_to;
use crate::legs::copy_leg;
use crate::slices::begins_below;
use edge_log::EdgeLog;
use ft_types::{Counts, HART_ROW, Hart, Memory, Term, same_counts};
use guest_image::Machine;
use hart_replay::{PlannedLeg, ReplayFault, has_come_to, lead};
use input_log::InputLog;
use lease_rounds::PageMask;
use log_join::Store;
use page_book::{Book, Leg, Replaying};
use std::alloc::Global;
use std::result::Result;

/// A term's leg, which grows as pieces come, and the book that takes its steps.
pub(crate) struct Work {
    leg: PlannedLeg,
    /// It obeys what came of the leg since it began.
    book: Book<Replaying>,
    /// What it is to obey next.
    rest: Box<Leg>,
    cursors: [Cursor; HART_ROW],
    /// What its leg's marks were before it grew last.
    marks: Counts,
    /// The pages that each hart's leases took lately.
    usual: [PageMask; HART_ROW],
    /// How many advances ago that was forgotten.
    advances: u32,
    /// Whether steps were taken that do not count, from the machine with which the book began.
    astray: bool,
    /// Whether the leg has what the store tells up to its ends, as far as the walks stand.
    lasts: bool,
}

impl Drop for Work {
    fn drop(self) {
        let Work {
            leg: _,
            book: _,
            rest: _,
            cursors: _,
            marks: _,
            usual: _,
            advances: _,
            astray: _,
            lasts: _,
        } = self;
    }
}

/// What asks for nothing from these counts on, and ends there.
fn nothing_from(alloc: Global, now: Counts) -> Leg
    ensures ends { result.ends ≡ now }
    ensures start { result.edges.start ≡ now }
    ensures edges { edges_of result.edges ≡ [] }
    ensures rows { (hart : ℕ) → row_of result.edges hart ≡ [] }
    ensures inputs { (hart : ℕ) → inputs_of result.inputs hart ≡ [] }
{
    Leg {
        ends: now,
        edges: EdgeLog::new(alloc, now),
        inputs: InputLog::new(alloc),
    }
}

/// The same, boxed.
#[inline(never)]
fn boxed(alloc: Global, now: Counts) -> Result<Box<Leg>, Memory>
    ensures start { IfOk result (λ leg. leg.value.edges.start ≡ now) }
    ensures nothing { IfOk result (λ leg. AsksForNothing leg.value) }
{
    Ok(Box::new(alloc, nothing_from(alloc, now))?)
}

/// Whether nothing is asked for of so many harts.
fn is_nothing(leg: &Leg, harts: u8) -> bool
    requires { harts ≤ HART_LIMIT }
    ensures { IsTrue result → AsksForNothingOf leg.now harts }
{
    for number in 0..harts {
        let hart = Hart::new(number);
        let (counts, _) = leg.inputs.of_hart(hart);
        if !counts.is_empty() || !leg.edges.of_hart(hart).is_empty() {
            return false;
        }
    }
    true
}

/// Asks for nothing from the leg's ends on, up to these.
#[inline(never)]
fn make_ready(alloc: Global, rest: &mut Leg, leg: &PlannedLeg, ends: &Counts)
    requires behind { IsBehind leg.now rest.old }
    requires harts { length leg.now.ends ≡ length leg.now.base }
    ensures fresh { IsFresh leg.now rest.new }
    ensures ends { rest.new.ends ≡ ends.now }
{
    if !is_nothing(rest, leg.base.harts()) {
        *rest = nothing_from(alloc, leg.ends);
    }
    rest.ends.copy_from(ends);
}

/// Whether none of these counts is above the other one.
fn are_within(counts: &Counts, others: &Counts) -> bool
    ensures { IsTrue result → (hart : ℕ) → count_at counts.now hart ≤ count_at others.now hart }
{
    for number in 0..counts.harts() {
        let hart = Hart::new(number);
        if others.count_of(hart) < counts.get(hart) {
            return false;
        }
    }
    true
}

/// No pages of any hart.
fn no_pages() -> [PageMask; HART_ROW] {
    [PageMask::none(); HART_ROW]
}

impl Work {
    /// The leg led from this machine to its ends.
    #[inline(never)]
    pub(crate) fn led(alloc: Global, start: Machine, leg: &PlannedLeg) -> Result<Work, ReplayFault>
        ensures leg { IfOk result (λ w. w.leg ≡ leg.now) }
        ensures led { IfOk result (λ w. LeadsOn leg.now start w.book.machine) }
        ensures fault { IfErr result (λ fault. FailsOn leg.now start fault) }
        ensures fresh { IfOk result (λ w. HasBegun w) }
    {
        rules_of(leg);
        let rest = boxed(alloc, leg.ends)?;
        let copy = copy_leg(leg)?;
        let book = lead(alloc, start, leg)?;
        has_come_to(book.machine(), &book.counts(), &leg.ends)?;
        Ok(Work {
            leg: copy,
            book,
            rest,
            cursors: cursors_at(&leg.base),
            marks: leg.marks,
            usual: no_pages(),
            advances: 0,
            astray: false,
            lasts: true,
        })
    }

    /// The machine at the position.
    pub(crate) fn machine(&self) -> &Machine
        ensures { result.now ≡ machine_in self.now }
    {
        if self.astray {
            self.book.start()
        } else {
            self.book.machine()
        }
    }

    /// The greatest numbers that are noted in its leg.
    pub(crate) fn marks(&self) -> Counts
        ensures { result ≡ self.now.leg.marks }
    {
        self.leg.marks
    }

    /// The store does not go on as it did.
    pub(crate) fn look_anew(&mut self)
        ensures { self.new ≡ record self.old { lasts = false } }
    {
        self.lasts = false;
    }

    /// Whether the leg need only grow to come to these counts of this term.
    pub(crate) fn may_go_on(&self, term: Term, ends: &Counts) -> bool
        ensures lasts { IsTrue result → self.now.lasts ≡ true }
        ensures term { IsTrue result → self.now.leg.term ≡ term }
        ensures ends { IsTrue result → (hart : ℕ) → count_at self.now.leg.ends hart ≤ count_at ends.now hart }
    {
        self.lasts
            && self.leg.term == term
            && self.leg.ends.harts() == ends.harts()
            && are_within(&self.leg.ends, ends)
    }

    /// Whether the leg, below these counts, begins the other.
    pub(crate) fn begins(&self, ends: &Counts, later: &PlannedLeg) -> bool
        ensures { IsTrue result ↔ BeginsLeg (cut_leg self.now ends.now) later.now }
    {
        later.term == self.leg.term
            && same_counts(later.base.as_slice(), self.leg.base.as_slice())
            && begins_below(&self.leg, later, ends)
    }

    /// Forgets now and then which pages leases took, so that none is given in vain for long.
    fn forget_pages(&mut self)
        ensures { self.new ≡ record self.old { usual = self.new.usual; advances = self.new.advances } }
    {
        self.advances = self.advances % 32 + 1;
        if self.advances == 32 {
            self.usual = no_pages();
        }
    }

    /// Lets the leg grow to these counts, and its book, with nothing done, come there. Refused, the leg has what it had below its old
    /// ends, and maybe more from there on, and the book may have come some way.
    fn take_steps(
        &mut self,
        alloc: Global,
        store: &Store,
        now: &Counts,
        ends: &Counts,
    ) -> Result<(), ReplayFault>
        requires rules { IsStore store.now }
        requires now { now.now ≡ self.old.leg.ends }
        requires ready { IsReady self.old }
        requires facts { IsUpToDate store.now self.old }
        requires to { IsNext store.now self.old.leg ends.now }
        ensures gone { OnOk result (HasGone store.now ends.now self.old self.new) }
        ensures grows { Grows self.old.leg self.new.leg }
        ensures start { self.new.book.start ≡ self.old.book.start }
        ensures fault { IfErr result (λ fault. IsRefused store.now ends.now self.old fault) }
        ensures others { (self.new.astray ≡ self.old.astray) × (self.new.lasts ≡ self.old.lasts) × (self.new.marks ≡ self.old.marks) }
    {
        make_ready(alloc, &mut self.rest, &self.leg, ends);
        grow(
            store,
            &mut self.leg,
            &mut self.rest,
            &mut self.cursors,
            now,
            ends,
        )?;
        self.book.swap_leg(&mut self.rest);
        self.forget_pages();
        lead_to(alloc, &mut self.book, ends, &mut self.usual)
    }

    /// Goes on from the counts at which it stands to the others, to which the leg need only grow. Refused it stands where it stood, and its leg, cut where it ended, is
    /// what it was.
    pub(crate) fn go_on(
        &mut self,
        alloc: Global,
        store: &Store,
        now: &Counts,
        ends: &Counts,
    ) -> Result<(), ReplayFault>
        requires rules { IsStore store.now }
        requires now { now.now ≡ self.old.leg.ends }
        requires settled { IsSettled self.old self.old.leg.ends }
        requires at { IsAtEnds self.old }
        requires straight { self.old.astray ≡ false }
        requires facts { IsUpToDate store.now self.old }
        requires to { IsNext store.now self.old.leg ends.now }
        ensures gone { OnOk result (HasGone store.now ends.now self.old self.new) }
        ensures settled { OnOk result (IsSettled self.new ends.now) }
        ensures straight { OnOk result (self.new.astray ≡ false) }
        ensures lasts { OnOk result (self.new.lasts ≡ true) }
        ensures machine { OnErr result (machine_in self.new ≡ machine_in self.old) }
        ensures cut { OnErr result (cut_leg self.new self.old.leg.ends ≡ cut_leg self.old self.old.leg.ends) }
        ensures anew { OnErr result ((self.new ≡ self.old) ⊎ ((self.new.astray ≡ true) × (self.new.lasts ≡ false))) }
        ensures fault { IfErr result (λ fault. IsRefused store.now ends.now self.old fault) }
    {
        self.book.begin_again()?;
        self.marks.copy_from(&self.leg.marks);
        self.astray = true;
        self.lasts = false;
        if let Err(fault) = self.take_steps(alloc, store, now, ends) {
            self.leg.marks = self.marks;
            return Err(fault);
        }
        self.astray = false;
        self.lasts = true;
        Ok(())
    }
}
