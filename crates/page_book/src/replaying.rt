//! What a book that replays has besides: it begins again, and obeys more.

ghost use Rattle.std.specs.Prelude.{◌≡◌, [], replicate, None, OnOk, OnErr};
ghost use Rattle.ft_types.specs.declared.names.TheConstants.{HART_ROW};

use crate::book::Book;
use crate::giving::close_all;
use book_modes::{Leg, Replaying};
use ft_types::Memory;
use guest_image::Machine;
use std::alloc::Global;

impl Book<Replaying> {
    /// The machine that it began with.
    pub fn start(&self) -> &Machine
        ensures { result.now ≡ self.now.start }
    {
        &self.start
    }

    /// What it obeys.
    pub fn leg(&self) -> &Leg
        ensures { result.now ≡ self.now.mode }
    {
        self.mode.leg()
    }

    /// Begins again from its machine, with nothing done and no lease open.
    pub fn begin_again(&mut self) -> Result<(), Memory>
        ensures ok { OnOk result (self.new ≡ record {
          start = self.old.machine;
          machine = self.old.machine;
          journal = [];
          leases = replicate HART_ROW None;
          mode = self.old.mode;
        }) }
        ensures err { OnErr result (self.new ≡ self.old) }
    {
        self.start.catch_up(&self.machine)?;
        self.journal.clear();
        close_all(&mut self.leases, self.machine.harts());
        Ok(())
    }

    /// Obeys another leg from here on, where nothing was done yet; the one that it obeyed comes in that one's place.
    pub fn swap_leg(&mut self, leg: &mut Box<Leg>)
        requires undone { self.old.journal ≡ [] }
        requires idle { self.old.leases ≡ replicate HART_ROW None }
        ensures obeys { self.new ≡ record self.old { mode = leg.old.value } }
        ensures obeyed { leg.new.value ≡ self.old.mode }
    {
        self.mode.swap(leg);
    }
}
