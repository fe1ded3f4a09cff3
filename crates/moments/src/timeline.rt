//! The machine at one moment of a plan's line.

ghost use Rattle.std.specs.Prelude.{◌≡◌, ◌≢◌, ◌↔◌, ◌<◌, ◌≤◌, ◌+◌, ◌-◌, ◌⊎◌, ◌%◌, ℕ, [], Err, Some, true, false, length, slice_get, slice_index, slice_index_or, IfOk, IfErr, OnOk, OnErr, IfSome, IfNone};
ghost use Rattle.ft_types.specs.Counts.{count_at};
ghost use Rattle.ft_types.specs.declared.names.TheConstants.{HART_LIMIT, INPUT_LIMIT, PAGE_LIMIT};
ghost use Rattle.input_log.specs.Inputs.{inputs_at, inputs_of};
ghost use Rattle.guest_image.specs.Image.{guest_of};
ghost use Rattle.guest_image.specs.Machine.{MachineState, boot_machine};
ghost use Rattle.rv32_hart.specs.Hart.{Hart as HartRecord};
ghost use Rattle.rv32_hart.specs.Ram.{word_at};
ghost use Rattle.rv32_hart.specs.Access.{in_ram, page_at, offset_at};
ghost use Rattle.plan_lines.specs.declared.access.Access.{Access as access_of_specs};
ghost use Rattle.plan_lines.specs.declared.access.Access.TheVariants as access;
ghost use Rattle.plan_lines.specs.Uses.{IsStepFrom};
ghost use Rattle.hart_lease.specs.Runs.{counts_of};
ghost use Rattle.hart_replay.specs.declared.fault.ReplayFault.TheVariants as fault;
ghost use Rattle.hart_replay.specs.Leading.{AreAtEnds, ComesShort};
ghost use Rattle.plan_lines.specs.Line.{LineView, Leads, standing_at, InLeg, IsAt, IsAtEnd, IsNext, NoneMayGo, GetsStuck, HasGoneOn, ends_of, steps_of as steps_of_legs};
ghost use Rattle.moments.specs.machinery.Machines.{machine_of, standing_of};
ghost use Rattle.plan_lines.specs.machinery.Kept.{IsBegun, IsTurned, OnLine};

use crate::access::{access_of, place_of};
use crate::machines::SteppedMachine;
use crate::next::{Stops, next_hart};
use crate::snapshots::{Snapshot, copied, last_below, nearest, shared};
use crate::turning::{no_stops, take_step, turn};
use ft_types::{Count, Counts, Hart, Memory, Term, is_same_guest};
use guest_image::{Image, Machine};
use hart_replay::{Plan, PlannedLeg, ReplayFault, steps_in};
use input_log::Input;
use plan_lines::Access;
use rv32_hart::{Decoder, HartState};
use std::alloc::Global;
use std::marker::Model;
use std::option::Option;
use std::result::Result;

/// The number of machines that a timeline keeps at the most.
const KEPT_LIMIT: usize = 512;

/// The least number of steps between two moments at which machines are kept.
const LEAST_STRETCH: u64 = 1024;

/// The machine at one moment of a plan's line, and machines kept at others. Contracts see the plan, the machine with which the line
/// begins, and where it stands.
pub struct Timeline {
    plan: Plan,
    /// How many steps the line has.
    last: u64,
    first: Snapshot,
    stands: Snapshot,
    kept: Vec<Snapshot>,
    /// How many steps lie between two moments at which machines are kept.
    stretch: u64,
    /// The next such moment.
    due: u64,
    /// By the leg of the present moment.
    stops: Stops,
    decoder: Box<Decoder>,
}

impl Drop for Timeline {
    fn drop(self) {
        let Timeline {
            plan: _,
            last: _,
            first: _,
            stands: _,
            kept: _,
            stretch: _,
            due: _,
            stops: _,
            decoder: _,
        } = self;
    }
}

impl Model for Timeline {
    ghost use Rattle.std.specs.Prelude.{◌≡◌, map};
    ghost use Rattle.plan_lines.specs.Line.{LineView, steps_of};
    ghost use Rattle.moments.specs.machinery.Machines.{machine_of, standing_of};
    ghost use Rattle.plan_lines.specs.machinery.Kept.{IsTimeline};

    ghost Value = { LineView };

    ghost view = { λ t. record { guest = t.plan.guest; legs = t.plan.legs; start = machine_of t.first.machine; stands = standing_of t.stands } };

    ghost invariant = { λ t. IsTimeline t.plan.guest t.plan.legs (standing_of t.first) (standing_of t.stands) (map standing_of t.kept.items) t.stops ×
        (t.last ≡ steps_of t.plan.legs) };
}

/// How many steps the legs have, the last one of which is led to its end.
fn steps_of(legs: &[PlannedLeg]) -> u64
    ensures { result ≡ steps_of_legs legs.now }
{
    match legs.last() {
        Some(leg) => steps_in(&leg.ends),
        None => 0,
    }
}

/// How many steps the hart has at the end of the last leg.
fn end_in(legs: &[PlannedLeg], hart: Hart) -> u64
    ensures { result ≡ count_at (ends_of legs.now) hart }
{
    match legs.last() {
        Some(leg) => leg.ends.count_of(hart),
        None => 0,
    }
}

/// The least hart that is halted below its end; at which counts harts wait, where none is; nothing, where all are at their ends.
fn stuck_at(leg: &PlannedLeg, machine: &SteppedMachine) -> Option<ReplayFault>
    ensures fault { IfSome result (λ f. ComesShort (machine_of machine.now) leg.now.ends f) }
    ensures memory { IfSome result (λ f. f ≢ fault.Memory) }
    ensures ends { IfNone result (AreAtEnds (machine_of machine.now) leg.now.ends) }
{
    let mut waits = false;
    for number in 0..machine.harts() {
        let hart = Hart::new(number);
        let count = machine.count_of(hart);
        if count < leg.ends.count_of(hart) {
            if machine.hart(hart).is_halted() {
                return Some(ReplayFault::HaltedInside(hart, count));
            }
            waits = true;
        }
    }
    if waits {
        return Some(ReplayFault::Cyclic(machine.counts()));
    }
    None
}

/// The line of the plan from this first snapshot on.
fn begun(alloc: Global, plan: Plan, first: Snapshot) -> Result<Timeline, Memory>
    requires { IsBegun plan.guest plan.legs (standing_of first) }
    ensures guest { IfOk result (λ t. t.guest ≡ plan.guest) }
    ensures legs { IfOk result (λ t. t.legs ≡ plan.legs) }
    ensures start { IfOk result (λ t. t.start ≡ machine_of first.machine) }
    ensures moment { IfOk result (λ t. t.stands.moment ≡ 0) }
{
    let mut first = first;
    let mut now = shared(&mut first)?;
    let last = steps_of(plan.legs());
    let stretch = LEAST_STRETCH.max(last / KEPT_LIMIT as u64 + 1);
    let mut stops = no_stops();
    turn(plan.legs(), &mut now, &mut stops);
    let decoder = Box::new(alloc, Decoder::new())?;
    Ok(Timeline {
        plan,
        last,
        first,
        stands: now,
        kept: Vec::new(alloc),
        stretch,
        due: stretch,
        stops,
        decoder,
    })
}

/// The line of a plan of this image from its boot on.
fn booted(alloc: Global, image: &Image, plan: Plan) -> Result<Timeline, Memory>
    requires { plan.guest ≡ guest_of image.now }
    ensures legs { IfOk result (λ t. t.legs ≡ plan.legs) }
    ensures start { IfOk result (λ t. t.start ≡ boot_machine image.now) }
    ensures moment { IfOk result (λ t. t.stands.moment ≡ 0) }
{
    // proof: the legs lead on from boot.
    let _legs = plan.legs();
    let boot = Machine::boot(alloc, image)?;
    let machine = SteppedMachine::of(alloc, &boot)?;
    let first = Snapshot {
        moment: 0,
        leg: 0,
        machine,
    };
    begun(alloc, plan, first)
}

impl Timeline {
    /// The plan's line at moment 0, the image's boot.
    pub fn begin(alloc: Global, image: &Image, plan: Plan) -> Result<Timeline, ReplayFault>
        ensures other_guest { (result ≡ Err fault.OtherGuest) ↔ (plan.guest ≢ guest_of image.now) }
        ensures plan { IfOk result (λ t. t.legs ≡ plan.legs) }
        ensures start { IfOk result (λ t. t.start ≡ boot_machine image.now) }
        ensures moment { IfOk result (λ t. t.stands.moment ≡ 0) }
    {
        if !is_same_guest(&plan.guest(), &image.guest()) {
            return Err(ReplayFault::OtherGuest);
        }
        Ok(booted(alloc, image, plan)?)
    }

    /// The present moment: how many steps of the line were taken.
    #[inline(always)]
    pub fn now(&self) -> u64
        ensures value { result ≡ self.now.stands.moment }
        ensures at { IsAt self.now.legs self.now.start result self.now.stands.machine }
        ensures within { result ≤ steps_of_legs self.now.legs }
    {
        self.stands.moment
    }

    /// How many steps the line has.
    pub fn last(&self) -> u64
        ensures { result ≡ steps_of_legs self.now.legs }
    {
        self.last
    }

    /// The plan.
    pub fn plan(&self) -> &Plan
        ensures { result.now.legs ≡ self.now.legs }
    {
        &self.plan
    }

    /// The number of harts.
    pub fn harts(&self) -> u8
        ensures value { result ≡ length self.now.stands.machine.harts }
        ensures limit { result ≤ HART_LIMIT }
    {
        self.stands.machine.harts()
    }

    /// The number of pages.
    pub fn pages(&self) -> u16
        ensures value { result ≡ length self.now.stands.machine.pages }
        ensures limit { result ≤ PAGE_LIMIT }
    {
        self.stands.machine.pages()
    }

    /// The leg of the present moment, where the plan has one.
    #[inline(always)]
    pub fn leg(&self) -> Option<&PlannedLeg>
        ensures some { IfSome result (λ leg. slice_get self.now.legs self.now.stands.place ≡ Some leg.now) }
        ensures none { IfNone result (length self.now.legs ≤ self.now.stands.place) }
    {
        self.plan.legs().get(self.stands.leg)
    }

    /// The term of the leg of the present moment; 0 where the plan has no leg.
    pub fn term(&self) -> Term
        ensures leg { InLeg self.now (λ leg. result ≡ leg.term) }
        ensures none { length self.now.legs ≤ self.now.stands.place → result ≡ 0 }
    {
        match self.leg() {
            Some(leg) => leg.term,
            None => 0,
        }
    }

    /// How many steps each hart has taken.
    pub fn counts(&self) -> Counts
        ensures harts { length result ≡ length self.now.stands.machine.harts }
        ensures value { (hart : ℕ) → count_at result hart ≡ counts_of self.now.stands.machine hart }
    {
        self.stands.machine.counts()
    }

    /// How many steps a hart has taken, 0 where there is no such hart.
    #[inline(always)]
    pub(crate) fn count_of(&self, hart: Hart) -> Count
        ensures value { result ≡ counts_of self.now.stands.machine hart }
    {
        self.stands.machine.count_of(hart)
    }

    /// A hart.
    #[inline(always)]
    pub fn hart(&self, hart: Hart) -> &HartState
        requires { hart < length self.now.stands.machine.harts }
        ensures { slice_get self.now.stands.machine.harts hart ≡ Some result.now }
    {
        self.stands.machine.hart(hart)
    }

    /// The byte at an address of RAM.
    pub fn byte(&self, address: u32) -> Option<u8>
        ensures byte { IfSome result (λ b. b ≡ slice_index (slice_index_or self.now.stands.machine.pages (page_at address) []) (offset_at address)) }
        ensures none { IfNone result (in_ram (length self.now.stands.machine.pages) address ≡ false) }
    {
        let (page, offset) = place_of(self.pages(), address)?;
        Some(self.stands.machine.byte(page, offset))
    }

    /// The word at an address of RAM that is a multiple of four.
    pub fn word(&self, address: u32) -> Option<u32>
        requires { address % 4 ≡ 0 }
        ensures word { IfSome result (λ w. w ≡ word_at (slice_index_or self.now.stands.machine.pages (page_at address) []) (offset_at address)) }
        ensures none { IfNone result (in_ram (length self.now.stands.machine.pages) address ≡ false) }
    {
        let (page, offset) = place_of(self.pages(), address)?;
        Some(self.stands.machine.word(page, offset))
    }

    /// The hart whose step comes next, where one can go on.
    #[inline(always)]
    pub fn next(&self) -> Option<Hart>
        ensures next { IfSome result (λ hart. InLeg self.now (λ leg. IsNext leg self.now.stands.machine hart)) }
        ensures there { IfSome result (λ hart. hart < length self.now.stands.machine.harts) }
        ensures place { IfSome result (λ hart. self.now.stands.place < length self.now.legs) }
        ensures none { IfNone result (InLeg self.now (λ leg. NoneMayGo leg self.now.stands.machine)) }
    {
        match self.leg() {
            Some(leg) => next_hart(leg, &self.stands.machine, &self.stops),
            None => None,
        }
    }

    /// The inputs of a hart's next step.
    pub fn inputs(&self, hart: Hart) -> &[Input]
        requires { hart < length self.now.stands.machine.harts }
        ensures value { InLeg self.now (λ leg. result.now ≡ inputs_at (inputs_of leg.inputs hart) (counts_of self.now.stands.machine hart)) }
        ensures few { length result.now ≤ INPUT_LIMIT }
    {
        match self.leg() {
            Some(leg) => leg.inputs.at(hart, self.hart(hart).count()),
            None => &[],
        }
    }

    // proof: where it stands on its line.
    #[inline(always)]
    pub(crate) fn stands_there(&self)
        ensures leads { Leads self.now.legs (standing_at self.now.start) self.now.stands }
        ensures turned { IsTurned self.now.legs self.now.stands }
    {
        // proof: what it keeps.
        let _last = self.last;
    }

    /// What the step that comes next uses of RAM, beside the word that it fetches.
    pub fn access(&self) -> Access
        ensures uses { (h : HartRecord) (access : access_of_specs) → IsStepFrom self.now.legs self.now.stands h access → result ≡ access }
        ensures step { (result ≢ access.Nothing) → (h : HartRecord) × IsStepFrom self.now.legs self.now.stands h result }
    {
        match self.next() {
            Some(hart) => access_of(&self.stands.machine, hart, self.inputs(hart)),
            None => Access::Nothing,
        }
    }

    /// Keeps the machine of the present moment, where it is due.
    fn keep(&mut self) -> Result<(), Memory>
        ensures { self.new ≡ self.old }
    {
        if self.stands.moment < self.due || KEPT_LIMIT <= self.kept.len() {
            return Ok(());
        }
        let copy = shared(&mut self.stands)?;
        self.kept.push(copy)?;
        self.due = self.stands.moment.saturating_add(self.stretch);
        Ok(())
    }

    /// Takes the step that comes next, of this hart, and turns.
    #[inline(always)]
    fn take(&mut self, hart: Hart) -> Result<(), Memory>
        requires place { self.old.stands.place < length self.old.legs }
        requires there { hart < length self.old.stands.machine.harts }
        requires next { InLeg self.old (λ leg. IsNext leg self.old.stands.machine hart) }
        ensures taken { OnOk result (HasGoneOn self.old self.new 1) }
        ensures room { self.old.stands.moment < steps_of_legs self.old.legs }
        ensures kept { OnErr result (self.new ≡ self.old) }
    {
        // proof: the line has room for the step.
        let _last = self.last;
        let legs = self.plan.legs();
        let place = self.stands.leg;
        take_step(
            &legs[place],
            &mut self.stands,
            &mut self.stops,
            hart,
            &mut *self.decoder,
        )?;
        turn(legs, &mut self.stands, &mut self.stops);
        Ok(())
    }

    /// One step. False at the end.
    #[inline(always)]
    pub fn forward(&mut self) -> Result<bool, ReplayFault>
        ensures went { IfOk result (λ went. went ≡ true → HasGoneOn self.old self.new 1) }
        ensures end { IfOk result (λ went. went ≡ false → (self.new ≡ self.old) × IsAtEnd self.old) }
        ensures room { IfOk result (λ went. went ≡ true → self.old.stands.moment < steps_of_legs self.old.legs) }
        ensures all { IfOk result (λ went. went ≡ false → self.old.stands.moment ≡ steps_of_legs self.old.legs) }
        ensures kept { OnErr result (self.new ≡ self.old) }
        ensures fault { IfErr result (λ f. InLeg self.old (λ leg. ComesShort self.old.stands.machine leg.ends f)) }
        ensures none { IfErr result (λ f. f ≢ fault.Memory → InLeg self.old (λ leg. NoneMayGo leg self.old.stands.machine)) }
        ensures stuck { IfErr result (λ f. f ≢ fault.Memory → GetsStuck self.old f) }
    {
        let Some(hart) = self.next() else {
            return self.end();
        };
        self.keep()?;
        self.take(hart)?;
        Ok(true)
    }

    /// How many steps the hart has at the end of the line.
    pub fn end_of(&self, hart: Hart) -> u64
        ensures value { result ≡ count_at (ends_of self.now.legs) hart }
        ensures most { (moment : ℕ) (m : MachineState) → IsAt self.now.legs self.now.start moment m → counts_of m hart ≤ result }
        ensures all { (m : MachineState) → IsAt self.now.legs self.now.start (steps_of_legs self.now.legs) m → counts_of m hart ≡ result }
    {
        end_in(self.plan.legs(), hart)
    }

    /// False, where the line is at its end; else why nobody can go on.
    fn end(&self) -> Result<bool, ReplayFault>
        requires { InLeg self.now (λ leg. NoneMayGo leg self.now.stands.machine) }
        ensures end { IfOk result (λ went. (went ≡ false) × IsAtEnd self.now) }
        ensures all { IfOk result (λ went. self.now.stands.moment ≡ steps_of_legs self.now.legs) }
        ensures fault { IfErr result (λ f. InLeg self.now (λ leg. ComesShort self.now.stands.machine leg.ends f)) }
        ensures memory { IfErr result (λ f. f ≢ fault.Memory) }
        ensures stuck { IfErr result (GetsStuck self.now) }
    {
        // proof: what it keeps.
        let _last = self.last;
        let Some(leg) = self.leg() else {
            return Ok(false);
        };
        match stuck_at(leg, &self.stands.machine) {
            Some(fault) => Err(fault),
            None => Ok(false),
        }
    }

    /// Goes to a snapshot of the line.
    fn jump(&mut self, there: Snapshot)
        requires { OnLine self.old (standing_of there) }
        ensures line { self.new ≡ record self.old { stands = self.new.stands } }
        ensures moment { self.new.stands.moment ≡ there.moment }
        ensures machine { self.new.stands.machine ≡ machine_of there.machine }
    {
        let mut now = there;
        let mut stops = no_stops();
        turn(self.plan.legs(), &mut now, &mut stops);
        self.stands = now;
        self.stops = stops;
    }

    /// Goes to the last machine that was kept at this moment or before, where the line does not stand between the two.
    pub(crate) fn near(&mut self, moment: u64) -> Result<(), Memory>
        ensures line { self.new ≡ record self.old { stands = self.new.stands } }
        ensures before { OnOk result (self.new.stands.moment ≤ moment) }
        ensures kept { OnErr result (self.new ≡ self.old) }
    {
        let there = nearest(&self.first, &self.kept, moment);
        if moment < self.stands.moment || self.stands.moment < there.moment {
            let now = copied(there)?;
            self.jump(now);
        }
        Ok(())
    }

    /// Goes to the last machine that was kept at which the hart has fewer steps, where there is one; else to the line's beginning.
    pub(crate) fn near_count(&mut self, hart: Hart, count: Count) -> Result<(), Memory>
        ensures line { self.new ≡ record self.old { stands = self.new.stands } }
        ensures below { OnOk result ((self.new.stands.moment ≡ 0) ⊎ (counts_of self.new.stands.machine hart < count)) }
        ensures most { OnOk result (counts_of self.new.stands.machine hart ≤ count) }
        ensures kept { OnErr result (self.new ≡ self.old) }
    {
        let there = last_below(&self.first, &self.kept, hart, count);
        if count <= self.stands.machine.count_of(hart) || self.stands.moment < there.moment {
            let now = copied(there)?;
            self.jump(now);
        }
        Ok(())
    }
}
