//! A book's leases.

ghost use Rattle.std.specs.Prelude.{◌≡◌, ◌<◌, ◌≤◌, ◌↔◌, ℕ, List, Option, Some, None, length, drop, IfSome, IfNone, IsTrue};
ghost use Rattle.std.specs.Arc.{arc_value};
ghost use Rattle.page_book.specs.machinery.Words.{base_at, IsBareLease, IsFull, IsLent, LeaseView, MachineState, Runs, slot_at, Taken, Ticks, want_of, whole};

use edge_log::Edge;
use ft_types::{COUNT_LIMIT, Count, Hart, INPUT_LIMIT, PageNo, Want};
use guest_image::Page;
use input_log::Input;
use rv32_hart::Tick;
use std::marker::Model;
use std::sync::Arc;

/// One hart's state and some pages, on loan from a book. It has to be spent, by `Book::settle` or `Book::discard`. Only a
/// book makes one, gives it pages and takes it apart: others read it, and take its steps.
pub struct Lease {
    /// Boxed, so that moves are of a pointer.
    pub(crate) own: Box<hart_lease::Lease>,
}

impl Model for Lease {
    ghost use Rattle.hart_lease.specs.Leases.{LeaseView};

    ghost Value = { LeaseView };

    ghost view = { λ l. l.own.value };
}

impl Lease {
    /// The hart. Its steps are what every lease's are.
    pub fn hart(&self) -> Hart
        ensures value { result ≡ self.now.hart }
        ensures kept { IsBareLease self.now }
    {
        self.own.hart()
    }

    /// The hart's present count.
    pub fn count(&self) -> Count
        ensures { result ≡ self.now.present.count }
    {
        self.own.count()
    }

    /// The hart's registers at present, from x1 on.
    pub fn registers(&self) -> &[u32]
        ensures { result.now ≡ drop 1 self.now.present.registers }
    {
        self.own.registers()
    }

    /// The count that the lease does not go past.
    pub fn stop(&self) -> Count
        ensures { result ≡ self.now.stop }
    {
        self.own.stop()
    }

    /// The inputs of its first step.
    pub fn inputs(&self) -> &[Input]
        ensures value { result.now ≡ self.now.inputs }
        ensures few { length result.now ≤ INPUT_LIMIT }
    {
        self.own.inputs()
    }

    /// The edges that wait in the lease until it is settled.
    pub fn edges(&self) -> &[Edge]
        ensures { result.now ≡ self.now.edges }
    {
        self.own.edges()
    }

    /// How many steps the lease has.
    #[inline(always)]
    pub fn steps(&self) -> u64
        ensures { result ≡ self.now.steps }
    {
        self.own.steps()
    }

    /// The right that the lease has on a page.
    pub fn right(&self, page: PageNo) -> Option<Want>
        requires { page < length self.now.slots }
        ensures { result ≡ want_of (slot_at self.now.slots page) }
    {
        self.own.right(page)
    }

    /// The page as it was lent, where the lease took it.
    pub fn base_page(&self, page: PageNo) -> Option<&Arc<Page>>
        requires { page < length self.now.slots }
        ensures some { IfSome result (λ p. base_at self.now page ≡ Some (arc_value p.now)) }
        ensures none { IfNone result (want_of (slot_at self.now.slots page) ≡ None) }
    {
        self.own.base_page(page)
    }

    /// Lets the lease take so many steps in all, at most `COUNT_LIMIT`, its stop permitting. It is lent for `LEASE_STEPS`.
    pub fn allow(&mut self, steps: u64)
        requires few { steps ≤ COUNT_LIMIT }
        ensures value { self.new ≡ record self.old { most = steps } }
        // It is as much the book's own as before.
        ensures lent { (machine : MachineState) (taken : List (Option Taken)) (earlier : List (ℕ × ℕ)) → IsLent machine taken (whole earlier self.old) →
            IsLent machine taken (whole earlier self.new) }
    {
        self.own.allow(steps);
    }

    /// Whether the lease takes no further step: after the steps that it may take, after a step that halts or rings, and at its stop.
    #[inline(always)]
    pub fn full(&self) -> bool
        ensures { IsTrue result ↔ IsFull self.now }
    {
        self.own.full()
    }

    /// One step, where the lease is not full.
    #[inline(always)]
    pub fn tick(&mut self) -> Tick
        requires { ¬ (IsFull self.old) }
        ensures does { Ticks result self.old self.new }
        // It is as much the book's own as before.
        ensures lent { (machine : MachineState) (taken : List (Option Taken)) (earlier : List (ℕ × ℕ)) → IsLent machine taken (whole earlier self.old) →
            IsLent machine taken (whole earlier self.new) }
    {
        self.own.tick()
    }

    /// Steps until the lease is full, or until one that is not done. There is room for one.
    #[inline(always)]
    pub fn run(&mut self) -> Tick
        requires { ¬ (IsFull self.old) }
        ensures does { Runs result self.old self.new }
        // It is as much the book's own as before.
        ensures lent { (machine : MachineState) (taken : List (Option Taken)) (earlier : List (ℕ × ℕ)) → IsLent machine taken (whole earlier self.old) →
            IsLent machine taken (whole earlier self.new) }
    {
        self.own.run()
    }
}
