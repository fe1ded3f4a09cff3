//! A lease: one hart's state and some pages, on loan.

ghost use Rattle.std.specs.Prelude.{◌≡◌, ◌≢◌, ◌<◌, ◌≤◌, ◌+◌, ◌-◌, ◌↔◌, ℕ, List, [], length, drop, Option, ◌∷◌, IfOk, IfSome, IfNone, IsTrue};
ghost use Rattle.rv32_hart.specs.Hart.{without_outputs};
ghost use Rattle.guest_image.specs.Machine.{MachineState};
ghost use Rattle.hart_lease.specs.Slots.{slot_at, want_of};
ghost use Rattle.hart_lease.specs.Taken.{HaveBases};
ghost use Rattle.hart_lease.specs.Runs.{IsBareLease};
ghost use Rattle.hart_lease.specs.Asks.{asked_by};
ghost use Rattle.hart_lease.specs.OpenLeases.{edges_after, idle};
ghost use Rattle.hart_lease.specs.Leases.{LeaseView, fresh, rung_bell, bells_rung, IsFull, Ticks, StepsOn, Runs, IsLent, whole};

use crate::asked::Asked;
use crate::lease_pages::{LeasePages, no_pages};
use crate::lent::{EDGE_ROOM, Lent};
use crate::taken::{Taken, TakenPages};
use edge_log::Edge;
use ft_types::{
    COUNT_LIMIT, Count, HART_LIMIT, Hart, INPUT_LIMIT, LEASE_STEPS, Memory, PAGE_LIMIT, PageNo,
    Want,
};
use guest_image::SharedPage;
use input_log::{Input, WaitingBell};
use rv32_hart::{Anew, HartState, Tick, run_quietly, tick, tick_running};
use smallvec::SmallVec;
use std::alloc::Global;
use std::marker::Model;

/// One hart's state and some pages, on loan. Whoever has it may give it pages, and has to spend or waste it: so a book hands
/// its own out inside a type that the book alone takes apart.
pub struct Lease {
    pub(crate) hart: Hart,
    /// The hart as it was lent, without its outputs.
    pub(crate) base: HartState,
    /// The hart at present, with the outputs of the lease's steps alone.
    pub(crate) present: HartState,
    /// The inputs of its first step.
    pub(crate) inputs: SmallVec<Input, INPUT_LIMIT>,
    /// Each page to be written, as it was when it came.
    pub(crate) bases: Vec<Option<SharedPage>>,
    pub(crate) pages: LeasePages,
    /// The counts at which it took each page.
    pub(crate) taken: TakenPages,
    /// The edges found, which wait until it is settled.
    pub(crate) edges: SmallVec<Edge, EDGE_ROOM>,
    /// How many steps it takes at the most.
    pub(crate) most: u64,
    pub(crate) stop: Count,
    /// The count at which it is full, if not before: its stop, or that after the most steps that it takes.
    pub(crate) last: Count,
    ghost last_stops: { last ≤ stop },
    ghost last_ends: { last ≤ base.count + most },
    ghost last_is_one: { last < stop → base.count + most ≤ last },
    ghost based: { HaveBases taken bases.items },
}

impl Model for Lease {
    ghost use Rattle.std.specs.Prelude.{◌-◌};
    ghost use Rattle.hart_lease.specs.Leases.{LeaseView};
    ghost use Rattle.hart_lease.specs.Runs.{IsBareLease};

    ghost Value = { LeaseView };

    ghost view = { λ l. record {
      hart = l.hart;
      base = l.base;
      present = l.present;
      inputs = l.inputs.items;
      bases = l.bases.items;
      slots = l.pages;
      taken = l.taken;
      edges = l.edges.items;
      steps = l.present.count - l.base.count;
      most = l.most;
      stop = l.stop;
    } };

    ghost invariant = { λ l. IsBareLease (record {
      hart = l.hart;
      base = l.base;
      present = l.present;
      inputs = l.inputs.items;
      bases = l.bases.items;
      slots = l.pages;
      taken = l.taken;
      edges = l.edges.items;
      steps = l.present.count - l.base.count;
      most = l.most;
      stop = l.stop;
    }) };
}

impl Lease {
    /// A lease of a hart in this state but for its outputs, without steps and pages, which may not take any yet.
    pub fn fresh(alloc: Global, hart: Hart, state: &HartState, pages: u16) -> Result<Lease, Memory>
        requires pages { pages ≤ PAGE_LIMIT }
        ensures { IfOk result (λ l. l ≡ fresh hart (without_outputs state.now) pages idle) }
    {
        let base = state.without_outputs();
        let present = state.without_outputs();
        let bases = no_pages(alloc, pages)?;
        let taken = TakenPages::none(alloc, pages)?;
        let pages = LeasePages::missing(alloc, pages)?;
        Ok(Lease {
            hart,
            base,
            present,
            inputs: SmallVec::new(alloc),
            bases,
            pages,
            taken,
            edges: SmallVec::new(alloc),
            most: LEASE_STEPS,
            stop: 0,
            last: 0,
        })
    }

    /// The same in the place of another, which has not been sent out, of as many pages.
    pub fn begin_anew(&mut self, hart: Hart, state: &HartState)
        requires idle { self.old ≡ fresh self.old.hart (without_outputs self.old.base) (length self.old.slots) idle }
        ensures { self.new ≡ fresh hart (without_outputs state.now) (length self.old.slots) idle }
    {
        self.hart = hart;
        self.base.become_but_outputs(state);
        self.present.become_but_outputs(state);
    }

    /// How many pages its machine has.
    pub fn pages(&self) -> usize
        ensures { result ≡ length self.now.slots }
    {
        self.pages.len()
    }

    /// Sends the lease out with this, for `LEASE_STEPS` steps.
    pub fn go_out(&mut self, lent: Lent)
        requires idle { self.old ≡ fresh self.old.hart self.old.base (length self.old.slots) idle }
        requires stop { lent.stop < COUNT_LIMIT }
        ensures { self.new ≡ record self.old { stop = lent.stop; inputs = lent.inputs; edges = lent.edges } }
    {
        let stop = lent.stop();
        let (inputs, edges) = lent.into_parts();
        let full = self.base.count() + LEASE_STEPS;
        self.stop = stop;
        self.last = if full < stop { full } else { stop };
        self.inputs = inputs;
        self.edges = edges;
    }

    /// Lets it take so many steps, its stop permitting.
    pub fn allow(&mut self, steps: u64)
        requires few { steps ≤ COUNT_LIMIT }
        ensures value { self.new ≡ record self.old { most = steps } }
        // Whoever lent the lease still did.
        ensures lent { (machine : MachineState) (taken : List (Option Taken)) (earlier : List (ℕ × ℕ)) → IsLent machine taken (whole earlier self.old) →
            IsLent machine taken (whole earlier self.new) }
    {
        let full = self.base.count() + steps;
        self.most = steps;
        self.last = if full < self.stop { full } else { self.stop };
    }

    /// Whose steps it takes. They are what every lease's are.
    pub fn hart(&self) -> Hart
        ensures value { result ≡ self.now.hart }
        ensures kept { IsBareLease self.now }
    {
        self.hart
    }

    /// The hart's present count.
    pub fn count(&self) -> Count
        ensures { result ≡ self.now.present.count }
    {
        self.present.count()
    }

    /// The hart's registers at present, from x1 on.
    pub fn registers(&self) -> &[u32]
        ensures { result.now ≡ drop 1 self.now.present.registers }
    {
        self.present.registers()
    }

    /// The hart's count when it was lent.
    pub fn lent_at(&self) -> Count
        ensures { result ≡ self.now.base.count }
    {
        self.base.count()
    }

    /// The count that the lease does not go past.
    pub fn stop(&self) -> Count
        ensures { result ≡ self.now.stop }
    {
        self.stop
    }

    /// What its first step is given.
    pub fn inputs(&self) -> &[Input]
        ensures value { result.now ≡ self.now.inputs }
        ensures few { length result.now ≤ INPUT_LIMIT }
    {
        self.inputs.as_slice()
    }

    /// The edges that wait in the lease until it is settled.
    pub fn edges(&self) -> &[Edge]
        ensures { result.now ≡ self.now.edges }
    {
        self.edges.as_slice()
    }

    /// What it asks for, when it asks for a right on a page.
    pub fn asks(&self, page: PageNo, want: Want) -> Asked
        ensures value { result ≡ asked_by self.now page want }
        ensures count { result.count < COUNT_LIMIT }
        ensures kept { IsBareLease self.now }
    {
        Asked {
            hart: self.hart,
            count: self.present.count(),
            page,
            want,
        }
    }

    /// Puts these edges in place of those that wait, where there are any.
    pub fn wait_with(&mut self, edges: Option<Box<SmallVec<Edge, EDGE_ROOM>>>)
        ensures { self.new ≡ record self.old { edges = edges_after edges self.old.edges } }
    {
        if let Some(all) = edges {
            self.edges = Box::into_inner(all);
        }
    }

    /// The outputs of its steps.
    pub fn outputs(&self) -> &[(Count, u32)]
        ensures { result.now ≡ self.now.present.outputs }
    {
        self.present.outputs()
    }

    /// How many steps it has taken.
    #[inline(always)]
    pub fn steps(&self) -> u64
        ensures { result ≡ self.now.steps }
    {
        self.present.count() - self.base.count()
    }

    /// The right that came with a page, where the page came.
    pub fn right(&self, page: PageNo) -> Option<Want>
        requires { page < length self.now.slots }
        ensures { result ≡ want_of (slot_at self.now.slots page) }
    {
        self.pages.right(page)
    }

    /// Whether it takes no further step: it has the most that it takes, its last one halted or rang, or it is at its stop.
    #[inline(always)]
    pub fn full(&self) -> bool
        ensures { IsTrue result ↔ IsFull self.now }
    {
        self.present.count() >= self.last
            || self.present.is_halted()
            || self.present.rings() != self.base.rings()
    }

    /// One more step. There is room for it.
    #[inline(always)]
    pub fn tick(&mut self) -> Tick
        requires { ¬ (IsFull self.old) }
        ensures does { Ticks result self.old self.new }
        // Whoever lent the lease still did.
        ensures lent { (machine : MachineState) (taken : List (Option Taken)) (earlier : List (ℕ × ℕ)) → IsLent machine taken (whole earlier self.old) →
            IsLent machine taken (whole earlier self.new) }
    {
        if self.steps() == 0 {
            return self.tick_on_inputs();
        }
        tick_running(&mut self.present, &mut Anew, &mut self.pages)
    }

    /// Steps until the lease is full, or until one that is not done. There is room for one.
    #[inline(never)]
    pub fn run(&mut self) -> Tick
        requires { ¬ (IsFull self.old) }
        ensures does { Runs result self.old self.new }
        // Whoever lent the lease still did.
        ensures lent { (machine : MachineState) (taken : List (Option Taken)) (earlier : List (ℕ × ℕ)) → IsLent machine taken (whole earlier self.old) →
            IsLent machine taken (whole earlier self.new) }
    {
        if self.steps() == 0 {
            match self.first_tick() {
                Tick::Done => {}
                other => return other,
            }
        }
        while !self.full() {
            self.go_quietly();
            if self.full() {
                return Tick::Done;
            }
            match self.tick() {
                Tick::Done => {}
                other => return other,
            }
        }
        Tick::Done
    }

    /// Steps that have a quick form, as many as come one after the other.
    #[inline(always)]
    fn go_quietly(&mut self)
        requires room { ¬ (IsFull self.old) }
        requires later { self.old.steps ≢ 0 }
        ensures steps { (n : ℕ) × StepsOn n self.old self.new }
        ensures further { self.old.steps ≤ self.new.steps }
        ensures lent { (machine : MachineState) (taken : List (Option Taken)) (earlier : List (ℕ × ℕ)) → IsLent machine taken (whole earlier self.old) →
            IsLent machine taken (whole earlier self.new) }
    {
        let limit = self.last.saturating_sub(self.present.count());
        let _steps = run_quietly(&mut self.present, &mut self.pages, limit);
    }

    /// The first step. Inlined, so that the place of its answer is made ready at the first step alone.
    #[inline(always)]
    fn tick_on_inputs(&mut self) -> Tick
        requires room { ¬ (IsFull self.old) }
        requires first { self.old.steps ≡ 0 }
        ensures does { Ticks result self.old self.new }
        ensures lent { (machine : MachineState) (taken : List (Option Taken)) (earlier : List (ℕ × ℕ)) → IsLent machine taken (whole earlier self.old) →
            IsLent machine taken (whole earlier self.new) }
    {
        self.first_tick()
    }

    /// The first step, on the lease's inputs. The later ones have none, and so it stands apart.
    #[inline(never)]
    fn first_tick(&mut self) -> Tick
        requires room { ¬ (IsFull self.old) }
        requires first { self.old.steps ≡ 0 }
        ensures does { Ticks result self.old self.new }
        ensures lent { (machine : MachineState) (taken : List (Option Taken)) (earlier : List (ℕ × ℕ)) → IsLent machine taken (whole earlier self.old) →
            IsLent machine taken (whole earlier self.new) }
    {
        tick(&mut self.present, self.inputs.as_slice(), &mut self.pages)
    }

    /// The bell that waits for the hart that the lease rang.
    pub fn bell(&self) -> WaitingBell
        ensures { result ≡ rung_bell self.now }
    {
        WaitingBell {
            source: self.hart,
            after: self.present.count(),
        }
    }

    /// The hart that the lease rang, which it did at its last step. It rang one at most.
    pub fn rung(&self) -> Option<Hart>
        ensures some { IfSome result (λ t. (t < HART_LIMIT) × (bells_rung self.now t ≡ rung_bell self.now ∷ []) ×
            ((other : ℕ) → other ≢ t → bells_rung self.now other ≡ [])) }
        ensures none { IfNone result ((target : ℕ) → bells_rung self.now target ≡ []) }
    {
        if self.present.rings() == self.base.rings() {
            return None;
        }
        let now = self.present.rung();
        let before = self.base.rung();
        for number in 0..HART_LIMIT {
            if now[number as usize] != before[number as usize] {
                return Some(Hart::new(number));
            }
        }
        None
    }

    /// Nothing of the lease is needed.
    pub fn waste(self) {
        let Lease {
            hart: _,
            base,
            present,
            inputs,
            bases,
            pages,
            taken,
            edges,
            most: _,
            stop: _,
            last: _,
        } = self;
        drop(base);
        drop(present);
        drop(inputs);
        drop(bases);
        drop(pages);
        drop(taken);
        drop(edges);
    }
}
