//! The book.

ghost use Rattle.std.specs.Prelude.{◌≡◌, ◌<◌, ◌↔◌, ℕ, [], length, replicate, slice_index, None, IfOk, IsTrue};
ghost use Rattle.page_book.specs.machinery.Words.{BeginsSchedule, count_at, counts_of, LeadsTo};
ghost use Rattle.page_book.specs.Books.{BookView, IsOurs};
ghost use Rattle.page_book.specs.Reclaims.{GoesOnFrom};
ghost use Rattle.ft_types.specs.declared.names.TheConstants.{HART_ROW};

use crate::giving::no_leases;
use crate::journals::{begins, journal_copied};
use crate::spare::Spare;
use book_modes::{Leg, Mode, Replaying, settled_counts};
use ft_types::{Counts, HART_ROW, Memory};
use guest_image::Machine;
use hart_lease::{OpenLease, Stretch};
use std::alloc::Global;
use std::marker::Model;

/// A machine with the journal of the steps that led to it. Harts and pages go out on leases, and come back with steps.
pub struct Book<M: Mode> {
    pub(crate) start: Machine,
    pub(crate) machine: Machine,
    pub(crate) journal: Vec<Stretch>,
    pub(crate) leases: Box<[Option<OpenLease>; HART_ROW]>,
    pub(crate) mode: M,
    pub(crate) spare: Spare,
}

impl<M: Mode> Drop for Book<M> {
    fn drop(self) {
        let Book {
            start: _,
            machine: _,
            journal: _,
            leases: _,
            mode: _,
            spare: _,
        } = self;
    }
}

impl<M: Mode> Model for Book<M> {
    ghost use Rattle.page_book.specs.Books.{BookView, IsBook};

    ghost Value = { BookView M };

    ghost view = { λ b. record { start = b.start; machine = b.machine; journal = b.journal.items; leases = b.leases.value; mode = b.mode } };

    ghost invariant = { λ b. IsBook b.start b.machine b.journal.items b.leases.value (M.stops b.mode) (M.obeyed b.mode) (M.heard b.mode)
        (M.keeps b.mode b.start b.machine b.journal.items b.leases.value) };
}

impl Book<Replaying> {
    /// A book without steps, which obeys a leg.
    pub fn begin(alloc: Global, start: Machine, leg: Leg) -> Result<Book<Replaying>, Memory>
        ensures { IfOk result (λ b. b ≡ record { start = start; machine = start; journal = []; leases = replicate HART_ROW None; mode = leg }) }
    {
        let machine = start.copy()?;
        let leases = no_leases(alloc)?;
        let leg = Box::new(alloc, leg)?;
        Ok(Book {
            start,
            machine,
            journal: Vec::new(alloc),
            leases,
            mode: Replaying::new(leg),
            spare: Spare::none(),
        })
    }
}

impl<M: Mode> Book<M> {
    /// The machine as of the settled steps.
    pub fn machine(&self) -> &Machine
        ensures value { result.now ≡ self.now.machine }
        ensures run { LeadsTo (M.heard self.now.mode) self.now.start self.now.journal self.now.machine }
        ensures begins { BeginsSchedule (M.obeyed self.now.mode) (M.stops self.now.mode) self.now.start self.now.journal }
    {
        &self.machine
    }

    /// The machine as of the settled steps. Nothing else of the book is needed.
    pub fn into_machine(self) -> Machine
        ensures value { result ≡ self.machine }
        ensures run { LeadsTo (M.heard self.mode) self.start self.journal self.machine }
        ensures begins { BeginsSchedule (M.obeyed self.mode) (M.stops self.mode) self.start self.journal }
    {
        let Book {
            start: _,
            machine,
            journal: _,
            leases: _,
            mode: _,
            spare: _,
        } = self;
        machine
    }

    /// The settled steps, in order.
    pub fn journal(&self) -> &[Stretch]
        ensures { result.now ≡ self.now.journal }
    {
        self.journal.as_slice()
    }

    /// The settled counts.
    pub fn counts(&self) -> Counts
        ensures harts { length result ≡ length self.now.machine.harts }
        ensures value { (hart : ℕ) → hart < length result → slice_index result hart ≡ counts_of self.now.machine hart }
        // And none of harts that are not there.
        ensures all { (hart : ℕ) → count_at result hart ≡ counts_of self.now.machine hart }
    {
        settled_counts(&self.machine)
    }

    /// Whether the lease is one of this book's open ones.
    pub(crate) fn is_ours(&self, lease: &hart_lease::Lease) -> bool
        ensures { IsTrue result ↔ IsOurs self.now lease.now }
    {
        match &self.leases[lease.hart().index()] {
            None => false,
            Some(open) => {
                lease.stop() == open.stop()
                    && lease.hears(open.inputs())
                    && lease.waits_with(open.edges())
                    && lease.is_lent(&self.machine, open.taken())
            }
        }
    }

    /// An equal book, of one without open leases.
    pub fn copy(&self) -> Result<Book<M>, Memory>
        requires idle { self.now.leases ≡ replicate HART_ROW None }
        ensures { IfOk result (λ b. b ≡ self.now) }
    {
        Ok(Book {
            start: self.start.copy()?,
            machine: self.machine.copy()?,
            journal: journal_copied(&self.journal)?,
            leases: no_leases(*self.journal.allocator())?,
            mode: self.mode.copy()?,
            spare: Spare::none(),
        })
    }

    /// Whether it began as the other did, the other's journal begins its own, and its mode goes on from the other's: in
    /// `Replaying` an equal leg, in `Recording` the same edges and inputs of all steps that the other has settled, and all that
    /// was offered, none of it before its count.
    pub fn continues(&self, before: &Book<M>) -> bool
        ensures { IsTrue result ↔ GoesOnFrom (M.goes_on) before.now self.now }
    {
        if !self.start.same(&before.start) {
            return false;
        }
        if !begins(before.journal(), self.journal()) {
            return false;
        }
        let now = self.counts();
        let settled = before.counts();
        self.mode.goes_on_from(&now, &settled, &before.mode)
    }
}
