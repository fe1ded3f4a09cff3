//! Harts that go step by step, each step with what it asks for.

ghost use Rattle.std.specs.Prelude.{◌≡◌, ◌≢◌, ◌<◌, ◌≤◌, ◌+◌, ◌-◌, ◌↔◌, ℕ, [], All, false, length, slice_get, Some, IfOk, OnOk, IfSome, IfNone, IsTrue};
ghost use Rattle.ft_types.specs.declared.names.TheConstants.{INPUT_LIMIT};
ghost use Rattle.interleaving.specs.Log.{HasUnmet};
ghost use Rattle.edge_log.specs.EdgeLog.{edges_of};
ghost use Rattle.rv32_hart.specs.Hart.{Hart as HartRecord};
ghost use Rattle.hart_lease.specs.Runs.{counts_of};
ghost use Rattle.hart_replay.specs.Plans.{IsLeg, log_of};
ghost use Rattle.log_audit.specs.machinery.Marks.{IsMarkedBelow};
ghost use Rattle.log_audit.specs.Coverage.{AreUncovered};
ghost use Rattle.log_audit.specs.machinery.Covered.{machine_of, begun, steps_left, InForce, IsOn, IsQuietTo, TakesStep, Clashes};
ghost use Rattle.log_audit.specs.machinery.Turns.{Turns};

use crate::asked_pages::AskedPages;
use crate::befores::Befores;
use crate::marks::Marks;
use crate::trimmed::Row;
use edge_log::Edge;
use ft_types::{COUNT_LIMIT, Count, Hart, Memory, PageNo};
use guest_image::Machine;
use hart_replay::PlannedLeg;
use input_log::Input;
use rv32_hart::{Decoder, HartState, Tick, tick_with};
use std::alloc::Global;
use std::marker::Model;
use std::result::Result;

/// Two steps that nothing orders, of which one writes the page and the other one touches it.
#[derive(Clone, Copy)]
pub(crate) struct Clash {
    pub(crate) page: PageNo,
    /// The one that would have been next, by its hart and count.
    pub(crate) one: (Hart, Count),
    pub(crate) other: (Hart, Count),
}

/// What became of a hart's turn.
#[derive(Clone, Copy)]
pub(crate) enum Turn {
    /// The hart cannot go on.
    Held,
    /// It went on.
    Went,
    /// A step of it clashes with one that was taken, and was not taken.
    Clashed(Clash),
}

/// The harts and pages of a leg, as far as they went.
#[derive(Drop)]
pub(crate) struct Harts {
    /// The machine from which they went.
    start: Machine,
    harts: Vec<HartState>,
    pages: AskedPages,
    marks: Marks,
    befores: Befores,
    decoder: Box<Decoder>,
}

impl Model for Harts {
    ghost use Rattle.log_audit.specs.machinery.Covered.{HartsView, AreHarts};

    ghost Value = { HartsView };

    ghost view = { λ h. record { start = h.start; harts = h.harts.items; pages = record { contents = h.pages.contents; uses = h.marks }; befores = h.befores } };

    ghost invariant = { λ h. AreHarts (record { start = h.start; harts = h.harts.items; pages = record { contents = h.pages.contents; uses = h.marks }; befores = h.befores }) };
}

fn harts_of(alloc: Global, machine: &Machine) -> Result<Vec<HartState>, Memory>
    ensures { IfOk result (λ v. v.items ≡ machine.now.harts) }
{
    let mut harts = Vec::with_capacity(alloc, machine.harts() as usize)?;
    for number in 0..machine.harts() {
        harts.push(machine.hart(Hart::new(number)).copy()?)?;
    }
    Ok(harts)
}

/// The first count above this one at which the hart has an edge or inputs, or its end, where that comes first.
fn stop_of(leg: &PlannedLeg, hart: Hart, count: Count) -> Count
    requires { count < COUNT_LIMIT }
    ensures { IsQuietTo leg.now hart (count + 1) result }
{
    let end = leg.ends.count_of(hart);
    let edge = leg.edges.next(hart, count + 1).unwrap_or(end);
    let input = leg.inputs.next(hart, count + 1).unwrap_or(end);
    end.min(edge).min(input)
}

impl Harts {
    /// The harts and pages of this machine.
    pub(crate) fn begin(alloc: Global, start: Machine) -> Result<Harts, Memory>
        ensures { IfOk result (λ h. h ≡ begun start) }
    {
        let harts = harts_of(alloc, &start)?;
        let pages = AskedPages::unasked(alloc, &start)?;
        let marks = Marks::none(alloc, start.pages())?;
        Ok(Harts {
            start,
            harts,
            pages,
            marks,
            befores: Befores::none(alloc),
            decoder: Box::new(alloc, Decoder::new())?,
        })
    }

    /// The number of harts.
    pub(crate) fn many(&self) -> u8
        ensures { result ≡ length self.now.start.harts }
    {
        self.start.harts()
    }

    fn are_met(&self, edges: &[Edge]) -> bool
        requires { All (λ e. e.other < length self.now.harts) edges.now }
        ensures { IsTrue result ↔ All (λ e. e.after ≤ counts_of (machine_of self.now) e.other) edges.now }
    {
        for edge in edges {
            if self.harts[edge.other.index()].count() < edge.after {
                return false;
            }
        }
        true
    }

    /// One step of a hart, before which come these steps.
    #[inline(always)]
    fn step(&mut self, hart: Hart, inputs: &[Input], before: &Row) -> Result<Option<Clash>, Memory>
        requires hart { hart < length self.old.harts }
        requires few { length inputs.now ≤ INPUT_LIMIT }
        requires runs { (h : HartRecord) → slice_get self.old.harts hart ≡ Some h → (h.halted ≡ false) × (h.count < COUNT_LIMIT - 1) }
        requires marks { (h : HartRecord) → slice_get self.old.harts hart ≡ Some h → IsMarkedBelow self.old.pages hart (h.count + 1) }
        ensures taken { IfOk result (λ clash. IfNone clash ((h : HartRecord) → slice_get self.old.harts hart ≡ Some h →
            TakesStep hart h inputs.now before.now self.old self.new)) }
        ensures clash { IfOk result (λ clash. IfSome clash (λ c. (h : HartRecord) → slice_get self.old.harts hart ≡ Some h →
            (c.one ≡ (hart, h.count)) × Clashes hart h inputs.now before.now self.old c.page c.other)) }
    {
        let count = self.harts[hart.index()].count();
        self.pages.begin_step();
        loop {
            let state = &mut self.harts[hart.index()];
            match tick_with(state, inputs, &mut *self.decoder, &mut self.pages) {
                Tick::Done => return Ok(None),
                Tick::Miss(page, want) => {
                    if let Some(other) = self.marks.against(page, hart, want, before) {
                        let one = (hart, count);
                        return Ok(Some(Clash { page, one, other }));
                    }
                    self.marks.note(page, hart, want, count + 1)?;
                    self.pages.grant(page, want);
                }
                Tick::Halted => unreachable!(),
                Tick::Memory => return Err(Memory),
            }
        }
    }

    /// Lets the hart go on up to this count, or until it halts.
    fn go_to(
        &mut self,
        leg: &PlannedLeg,
        hart: Hart,
        stop: Count,
        before: &Row,
    ) -> Result<Option<Clash>, Memory>
        requires hart { hart < length self.old.harts }
        requires stop { stop < COUNT_LIMIT }
        requires leg { IsLeg (length self.old.start.harts) leg.now }
        requires on { IsOn leg.now self.old }
        requires before { InForce self.old.befores hart before.now }
        requires quiet { IsQuietTo leg.now hart (counts_of (machine_of self.old) hart) stop }
        ensures on { IfOk result (λ clash. IfNone clash (IsOn leg.now self.new)) }
        ensures start { IfOk result (λ clash. IfNone clash (self.new.start ≡ self.old.start)) }
        ensures no_more { IfOk result (λ clash. IfNone clash (steps_left leg.now.ends self.new.harts ≤ steps_left leg.now.ends self.old.harts)) }
        ensures clash { IfOk result (λ clash. IfSome clash (λ c. AreUncovered leg.now self.old.start c.page c.one c.other)) }
    {
        loop {
            let state = &self.harts[hart.index()];
            if state.is_halted() || stop <= state.count() {
                return Ok(None);
            }
            if let Some(clash) = self.step(hart, &[], before)? {
                return Ok(Some(clash));
            }
        }
    }

    /// Lets the hart go on, where it may, as far as it has no further edge or input.
    pub(crate) fn go(&mut self, leg: &PlannedLeg, hart: Hart) -> Result<Turn, Memory>
        requires hart { hart < length self.old.harts }
        requires leg { IsLeg (length self.old.start.harts) leg.now }
        requires on { IsOn leg.now self.old }
        ensures turns { IfOk result (λ turn. Turns leg.now hart self.old turn self.new) }
    {
        let state = &self.harts[hart.index()];
        let count = state.count();
        if state.is_halted() || leg.ends.count_of(hart) <= count {
            return Ok(Turn::Held);
        }
        let edges = leg.edges.at(hart, count);
        if !self.are_met(edges) {
            return Ok(Turn::Held);
        }
        let before = self.befores.bring(hart, count, edges)?;
        if let Some(clash) = self.step(hart, leg.inputs.at(hart, count), &before)? {
            return Ok(Turn::Clashed(clash));
        }
        match self.go_to(leg, hart, stop_of(leg, hart, count), &before)? {
            Some(clash) => Ok(Turn::Clashed(clash)),
            None => Ok(Turn::Went),
        }
    }

    /// The machine as it is now.
    pub(crate) fn end(self) -> Result<Machine, Memory>
        ensures { IfOk result (λ m. m ≡ machine_of self) }
    {
        let Harts {
            start,
            harts,
            pages,
            marks,
            befores,
            decoder,
        } = self;
        drop(marks);
        drop(befores);
        drop(decoder);
        let mut machine = start;
        put_harts(&mut machine, &harts)?;
        pages.put_into(&mut machine)?;
        Ok(machine)
    }
}

/// Puts equal harts into the machine.
fn put_harts(machine: &mut Machine, harts: &[HartState]) -> Result<(), Memory>
    requires many { length harts.now ≡ length machine.old.harts }
    requires places { (hart : ℕ) (h : HartRecord) → slice_get harts.now hart ≡ Some h → (h.number ≡ hart) × (h.harts ≡ length harts.now) }
    ensures { OnOk result (machine.new ≡ record machine.old { harts = harts.now }) }
{
    for number in 0..machine.harts() {
        let hart = Hart::new(number);
        machine.put_hart(hart, harts[hart.index()].copy()?);
    }
    Ok(())
}
