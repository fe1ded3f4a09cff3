//! Where a backup stands.

ghost use Rattle.std.specs.Prelude.{◌≡◌, ◌↔◌, ◌-◌, ◌≤◌, ◌++◌, ◌∷◌, ℕ, [], All, length, sum, IfOk, IfErr, IsTrue};
ghost use Rattle.ft_types.specs.declared.names.TheConstants.{HART_LIMIT};
ghost use Rattle.ft_types.specs.declared.position.Position.{Position as position_of_specs};
ghost use Rattle.ft_types.specs.Counts.{count_at};
ghost use Rattle.log_join.specs.Stores.{IsStore};
ghost use Rattle.closed_cut.specs.Position.{IsPosition};
ghost use Rattle.guest_image.specs.Image.{guest_of};
ghost use Rattle.hart_replay.specs.GoingOn.{GoOnFrom};
ghost use Rattle.hart_replay.specs.KeepingUp.{KeepsUp};
ghost use Rattle.hart_replay.specs.Laws.{ArePlanned};
ghost use Rattle.hart_replay.specs.Leading.{IsLegsFault};
ghost use Rattle.hart_replay.specs.Plans.{IsPlan, noted_in};
ghost use Rattle.hart_replay.specs.machinery.Going.{IsAt};
ghost use Rattle.warm_backup.specs.machinery.Working.{cut_leg, legs_of, machine_of, unsure, HasNoFront, IsBackup, IsLedTo, MayGrowTo, Advances};

use crate::legs::{front_of, marks_of};
use crate::work::Work;
use closed_cut::Position;
use ft_types::{Counts, Hart, Memory};
use guest_image::{Image, Machine};
use hart_replay::{Plan, PlannedLeg, ReplayFault, begin_legs, lead_through, plan, steps_in};
use log_join::Store;
use std::alloc::Global;
use std::result::Result;

/// What was replayed.
pub(crate) enum Stand {
    /// Nothing: the machine is at boot.
    Boot(Machine),
    /// The last leg is under way.
    Led(Work),
}

impl Drop for Stand {
    fn drop(self) {
        match self {
            Stand::Boot(_) => {}
            Stand::Led(_) => {}
        }
    }
}

impl Stand {
    /// The machine there.
    pub(crate) fn machine(&self) -> &Machine
        ensures { result.now ≡ machine_of self.now }
    {
        match self {
            Stand::Boot(machine) => machine,
            Stand::Led(work) => work.machine(),
        }
    }

    /// The store does not go on as it did.
    pub(crate) fn look_anew(&mut self)
        ensures { self.new ≡ unsure self.old }
    {
        if let Stand::Led(work) = self {
            work.look_anew();
        }
    }

    /// Whether the last leg need only grow to come to this position.
    fn may_go_on(&self, end: &Position) -> bool
        ensures { IsTrue result → MayGrowTo self.now end.now }
    {
        match self {
            Stand::Boot(_) => false,
            Stand::Led(work) => work.may_go_on(end.term, &end.counts),
        }
    }
}

/// For each hart the greatest number that is noted in these legs, or in the last one, which is under way; or 0.
pub(crate) fn marks_at(
    front: &[PlannedLeg],
    stand: &Stand,
    _position: &Position,
    harts: u8,
) -> Counts
    requires limit { harts ≤ HART_LIMIT }
    requires marks { All (λ leg. length leg.marks ≡ harts) (legs_of front.now stand.now _position.now.counts) }
    ensures { (hart : ℕ) → count_at result hart ≡ noted_in (legs_of front.now stand.now _position.now.counts) hart }
{
    let before = marks_of(harts, front);
    match stand {
        Stand::Boot(_) => before,
        Stand::Led(work) => before.max(work.marks()),
    }
}

/// Whether these legs, and a last one that is under way and ends at these counts, begin the others.
fn begins_led(front: &[PlannedLeg], work: &Work, counts: &Counts, legs: &[PlannedLeg]) -> bool
    ensures { IsTrue result ↔ GoOnFrom (front.now ++ cut_leg work.now counts.now ∷ []) legs.now }
{
    let many = front.len();
    many < legs.len() && begin_legs(front, legs) && work.begins(counts, &legs[many])
}

/// Whether what was replayed, up to a position, begins these legs.
fn begins(front: &[PlannedLeg], stand: &Stand, position: &Position, legs: &[PlannedLeg]) -> bool
    requires { HasNoFront stand.now front.now }
    ensures { IsTrue result ↔ GoOnFrom (legs_of front.now stand.now position.now.counts) legs.now }
{
    match stand {
        Stand::Boot(_) => false,
        Stand::Led(work) => begins_led(front, work, &position.counts, legs),
    }
}

/// Where the legs lead to from this machine, to which the first ones have led.
#[inline(never)]
fn lead_legs(
    alloc: Global,
    image: &Image,
    now: Machine,
    legs: &[PlannedLeg],
    first: usize,
) -> Result<Stand, ReplayFault>
    requires plan { IsPlan (guest_of image.now) legs.now }
    requires within { first ≤ length legs.now - 1 }
    requires at { IsAt image.now legs.now first now }
    ensures led { IfOk result (λ stand. IsLedTo image.now legs.now stand) }
    ensures fault { IfErr result (λ fault. IsLegsFault image.now legs.now fault) }
{
    if legs.is_empty() {
        return Ok(Stand::Boot(now));
    }
    let last = legs.len() - 1;
    let machine = lead_through(alloc, image, now, legs, first, last)?;
    Ok(Stand::Led(Work::led(alloc, machine, &legs[last])?))
}

/// Where these legs lead to, which begin as what was replayed, from where that stands.
fn lead_from_here(
    alloc: Global,
    image: &Image,
    front: &[PlannedLeg],
    stand: &Stand,
    _position: &Position,
    legs: &[PlannedLeg],
) -> Result<Stand, ReplayFault>
    requires plan { IsPlan (guest_of image.now) legs.now }
    requires keeps { KeepsUp image.now (legs_of front.now stand.now _position.now.counts) (machine_of stand.now) }
    requires front { HasNoFront stand.now front.now }
    requires on { GoOnFrom (legs_of front.now stand.now _position.now.counts) legs.now }
    ensures led { IfOk result (λ stand. IsLedTo image.now legs.now stand) }
    ensures fault { IfErr result (λ fault. IsLegsFault image.now legs.now fault) }
{
    let first = front.len();
    // proof: a log keeps the rules by type.
    let _rules = legs[first].edges.next(Hart::new(0), 0);
    let machine = stand.machine().copy()?;
    lead_legs(alloc, image, machine, legs, first)
}

/// Where these legs lead to from boot.
fn lead_from_boot(alloc: Global, image: &Image, legs: &[PlannedLeg]) -> Result<Stand, ReplayFault>
    requires plan { IsPlan (guest_of image.now) legs.now }
    ensures led { IfOk result (λ stand. IsLedTo image.now legs.now stand) }
    ensures fault { IfErr result (λ fault. IsLegsFault image.now legs.now fault) }
{
    let machine = Machine::boot(alloc, image)?;
    lead_legs(alloc, image, machine, legs, 0)
}

/// The plan of all that the store tells, up to a position.
fn plan_to(alloc: Global, store: &Store, end: &Position) -> Result<Plan, Memory>
    requires { IsPosition store.now end.now }
    ensures guest { IfOk result (λ plan. plan.guest ≡ store.now.guest) }
    ensures planned { IfOk result (λ plan. ArePlanned store.now end.now plan.legs) }
{
    match plan(alloc, store, end) {
        Ok(plan) => Ok(plan),
        Err(_) => Err(Memory),
    }
}

/// How many steps there are from the first position on to the second, or from boot.
fn steps_to(on: bool, was: &Counts, is: &Counts) -> u64
    ensures on { IsTrue on → result ≡ sum is.now - sum was.now }
    ensures anew { (IsTrue on → ⊥) → result ≡ sum is.now }
{
    let steps = steps_in(is);
    if on {
        return steps.saturating_sub(steps_in(was));
    }
    steps
}

/// Goes to a position by the plan of all that the store tells: from where it stands, where what was replayed begins that, else from
/// boot. How many steps there are.
#[inline(never)]
fn go_anew(
    alloc: Global,
    image: &Image,
    store: &Store,
    front: &mut Vec<PlannedLeg>,
    stand: &mut Stand,
    position: &Position,
    end: &Position,
) -> Result<u64, ReplayFault>
    requires rules { IsStore store.now }
    requires kept { IsBackup image.now store.now front.old.items stand.old position.now }
    requires end { IsPosition store.now end.now }
    requires harts { length end.now.counts ≡ store.now.guest.harts }
    ensures { Advances image.now store.now position.now end.now front.old.items stand.old result front.new.items stand.new }
{
    let plan = plan_to(alloc, store, end)?;
    let legs = plan.legs();
    let on = begins(front.as_slice(), stand, position, legs);
    let led = if on {
        lead_from_here(alloc, image, front.as_slice(), stand, position, legs)?
    } else {
        lead_from_boot(alloc, image, legs)?
    };
    *front = front_of(alloc, legs)?;
    *stand = led;
    Ok(steps_to(on, &position.counts, &end.counts))
}

/// Goes to the store's position. How many steps there are.
pub(crate) fn go_to(
    alloc: Global,
    image: &Image,
    store: &Store,
    front: &mut Vec<PlannedLeg>,
    stand: &mut Stand,
    position: &Position,
    end: &Position,
) -> Result<u64, ReplayFault>
    requires kept { IsBackup image.now store.now front.old.items stand.old position.now }
    requires end { IsPosition store.now end.now }
    requires harts { length end.now.counts ≡ store.now.guest.harts }
    ensures { Advances image.now store.now position.now end.now front.old.items stand.old result front.new.items stand.new }
{
    // proof: a store keeps the rules by type.
    let _rules = store.guest();
    if !stand.may_go_on(end) {
        return go_anew(alloc, image, store, front, stand, position, end);
    }
    let Stand::Led(work) = stand else {
        // Never: at boot there is no leg to go on with.
        return Ok(0);
    };
    work.go_on(alloc, store, &position.counts, &end.counts)?;
    Ok(steps_to(true, &position.counts, &end.counts))
}
