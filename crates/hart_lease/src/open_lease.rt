//! What a book knows of an open lease.

ghost use Rattle.std.specs.Prelude.{◌≡◌, slice_set, Some};
ghost use Rattle.hart_lease.specs.OpenLeases.{OpenView, edges_after, right_of, opened_with};
ghost use Rattle.hart_lease.specs.Taken.{taken_at, taking};

use crate::asked::Asked;
use crate::lent::{EDGE_ROOM, Lent};
use crate::taken::{self, Taken, TakenPages};
use edge_log::Edge;
use ft_types::{Count, INPUT_LIMIT, PageNo, Want};
use input_log::Input;
use smallvec::SmallVec;
use std::alloc::Global;
use std::marker::Model;

/// What the book knows of an open lease: the count that it does not go past, the inputs of its first step, since when it
/// has each page, and the edges that wait in it.
pub struct OpenLease {
    stop: Count,
    inputs: SmallVec<Input, INPUT_LIMIT>,
    taken: TakenPages,
    edges: SmallVec<Edge, EDGE_ROOM>,
}

impl Drop for OpenLease {
    fn drop(self) {
        let OpenLease {
            stop: _,
            inputs: _,
            taken: _,
            edges: _,
        } = self;
    }
}

impl Model for OpenLease {
    ghost use Rattle.hart_lease.specs.OpenLeases.{OpenView};

    ghost Value = { OpenView };

    ghost view = { λ l. record { stop = l.stop; inputs = l.inputs.items; taken = l.taken; edges = l.edges.items } };
}

impl OpenLease {
    /// A lease that goes out with this, and took these pages.
    pub fn new(alloc: Global, lent: &Lent, taken: TakenPages) -> OpenLease
        ensures { result ≡ opened_with taken lent.now }
    {
        let inputs = SmallVec::from_slice(alloc, lent.inputs()).unwrap();
        let edges = SmallVec::from_slice(alloc, lent.edges()).unwrap();
        OpenLease {
            stop: lent.stop(),
            inputs,
            taken,
            edges,
        }
    }

    /// The count that it does not go past.
    pub fn stop(&self) -> Count
        ensures { result ≡ self.now.stop }
    {
        self.stop
    }

    /// The inputs of its first step.
    pub fn inputs(&self) -> &[Input]
        ensures { result.now ≡ self.now.inputs }
    {
        self.inputs.as_slice()
    }

    /// Since when it has each page.
    pub fn taken(&self) -> &[Option<Taken>]
        ensures { result.now ≡ self.now.taken }
    {
        self.taken.row()
    }

    /// The edges that wait in it.
    pub fn edges(&self) -> &[Edge]
        ensures { result.now ≡ self.now.edges }
    {
        self.edges.as_slice()
    }

    /// The right that it has on a page.
    pub fn right(&self, page: PageNo) -> Option<Want>
        ensures { result ≡ right_of (Some self.now) page }
    {
        taken::right_of(&self.taken.held(page))
    }

    /// Writes down that it was given a right, and which edges wait in it now, where others do.
    pub fn take(&mut self, asked: &Asked, waiting: Option<Box<SmallVec<Edge, EDGE_ROOM>>>)
        ensures { self.new ≡ record self.old {
          taken = slice_set self.old.taken asked.now.page
              (Some (taking (taken_at self.old.taken asked.now.page) asked.now.want asked.now.count));
          edges = edges_after waiting self.old.edges;
        } }
    {
        self.taken.take(asked.page, asked.want, asked.count);
        if let Some(all) = waiting {
            self.edges = Box::into_inner(all);
        }
    }
}
