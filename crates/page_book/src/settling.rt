//! Leases come back with their steps, or end without them.

ghost use Rattle.std.specs.Prelude.{◌≡◌, ◌<◌, ◌⊎◌, replicate, slice_set, None, IfErr, OnOk, OnErr};
ghost use Rattle.page_book.specs.machinery.Words.{added, counts_of, laid, whole_in};
ghost use Rattle.page_book.specs.Books.{IsOurs};
ghost use Rattle.page_book.specs.Reclaims.{EndsOne, EndsFirst};
ghost use Rattle.ft_types.specs.declared.names.TheConstants.{HART_ROW};

use crate::answers::BookFault;
use crate::book::Book;
use crate::journals::add_stretch;
use crate::lease::Lease;
use book_modes::{Keep, Mode, steps_taken};
use ft_types::{HART_LIMIT, Hart};
use std::mem;

impl<M: Mode> Book<M> {
    /// Adds the lease's steps, where it is this book's. Otherwise it comes back.
    pub fn settle(&mut self, lease: Lease, keep: Keep) -> Result<(), (Lease, BookFault)>
        ensures ours { OnOk result (IsOurs self.old lease) }
        ensures foreign { IfErr result (λ e. e.1 ≡ BookFault.Foreign → ¬ (IsOurs self.old lease)) }
        ensures back { IfErr result (λ e. e.0 ≡ lease) }
        ensures only { IfErr result (λ e. (e.1 ≡ BookFault.Foreign) ⊎ ((e.1 ≡ BookFault.Memory) × IsOurs self.old lease)) }
        ensures kept { OnErr result (self.new ≡ self.old) }
        ensures machine { OnOk result (self.new.machine ≡ laid self.old.machine (whole_in self.old.machine lease)) }
        ensures journal { OnOk result (self.new.journal ≡ added self.old.journal lease.hart lease.steps) }
        ensures leases { OnOk result (self.new.leases ≡ slice_set self.old.leases lease.hart None) }
        ensures start { OnOk result (self.new.start ≡ self.old.start) }
        ensures mode { OnOk result (M.settles self.old.mode lease keep self.new.mode) }
    {
        if self.is_ours(&*lease.own) {
            return self.settle_own(lease, keep);
        }
        Err((lease, BookFault::Foreign))
    }

    /// The same, of a lease that is known to be this book's.
    pub fn settle_own(&mut self, lease: Lease, keep: Keep) -> Result<(), (Lease, BookFault)>
        requires { IsOurs self.old lease }
        ensures back { IfErr result (λ e. e.0 ≡ lease) }
        ensures memory { IfErr result (λ e. e.1 ≡ BookFault.Memory) }
        ensures kept { OnErr result (self.new ≡ self.old) }
        ensures machine { OnOk result (self.new.machine ≡ laid self.old.machine (whole_in self.old.machine lease)) }
        ensures journal { OnOk result (self.new.journal ≡ added self.old.journal lease.hart lease.steps) }
        ensures leases { OnOk result (self.new.leases ≡ slice_set self.old.leases lease.hart None) }
        ensures start { OnOk result (self.new.start ≡ self.old.start) }
        ensures mode { OnOk result (M.settles self.old.mode lease keep self.new.mode) }
    {
        let Lease { mut own } = lease;
        let body = &*own;
        let parts = match body.parts() {
            Ok(parts) => parts,
            Err(_) => return Err((Lease { own }, BookFault::Memory)),
        };
        if self.journal.reserve(1).is_err() {
            return Err((Lease { own }, BookFault::Memory));
        }
        let hart = body.hart();
        let before = self.machine.hart(hart).outputs().len();
        match self.machine.add_outputs(hart, body.outputs()) {
            Ok(()) => {}
            Err(_) => return Err((Lease { own }, BookFault::Memory)),
        }
        match self.mode.settle(body, keep) {
            Ok(()) => {}
            Err(_) => {
                self.machine.cut_outputs(hart, before);
                return Err((Lease { own }, BookFault::Memory));
            }
        }
        let steps = body.steps();
        own.lay_in(&mut self.machine, parts);
        self.spare.keep(own);
        add_stretch(&mut self.journal, hart, steps);
        self.leases[hart.index()] = None;
        Ok(())
    }

    /// Ends the lease without its steps.
    pub fn discard(&mut self, lease: Lease) -> Result<(), BookFault>
        ensures ok { OnOk result (self.new ≡ record self.old { leases = slice_set self.old.leases lease.hart None; mode = self.new.mode }) }
        ensures mode { OnOk result (M.ends self.old.mode lease.hart (counts_of self.old.machine lease.hart) lease.taken self.new.mode) }
        ensures ours { OnOk result (IsOurs self.old lease) }
        ensures foreign { IfErr result (λ f. (f ≡ BookFault.Foreign) × ¬ (IsOurs self.old lease)) }
        ensures kept { OnErr result (self.new ≡ self.old) }
    {
        let Lease { own } = lease;
        let own = Box::into_inner(own);
        let ours = self.is_ours(&own);
        let hart = own.hart();
        own.waste();
        if !ours {
            return Err(BookFault::Foreign);
        }
        self.close(hart);
        Ok(())
    }

    /// Ends the open lease of a hart, where it has one, without its steps: the hart gives up what the lease took, at its settled
    /// count.
    fn close(&mut self, hart: Hart)
        ensures rest { self.new ≡ record self.old { leases = slice_set self.old.leases hart None; mode = self.new.mode } }
        ensures mode { EndsOne (M.ends) self.old.machine self.old.leases hart self.old.mode self.new.mode }
    {
        let count = steps_taken(&self.machine, hart);
        let ended = mem::replace(&mut self.leases[hart.index()], None);
        if let Some(open) = ended {
            self.mode.end(hart, count, open.taken());
        }
    }

    /// Ends every open lease without its steps: each hart gives up what its lease took, at its settled count.
    pub fn reclaim(&mut self)
        ensures book { self.new ≡ record self.old { leases = replicate HART_ROW None; mode = self.new.mode } }
        ensures mode { EndsFirst (M.ends) self.old.machine self.old.leases HART_ROW self.old.mode self.new.mode }
    {
        let _ = &self.start;
        for number in 0..HART_LIMIT {
            self.close(Hart::new(number));
        }
    }
}
