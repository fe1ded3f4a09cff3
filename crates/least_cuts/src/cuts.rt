//! The machine at a count of a hart.

ghost use Rattle.std.specs.Prelude.{◌≡◌, ◌≢◌, ◌↔◌, ◌<◌, ◌≤◌, ◌++◌, ◌∷◌, [], ℕ, All, Contains, Err, take, length, slice_get, Some, IfOk, IfErr, IfSome, IfNone};
ghost use Rattle.ft_types.specs.Counts.{count_at};
ghost use Rattle.guest_image.specs.Image.{guest_of};
ghost use Rattle.hart_lease.specs.Runs.{counts_of};
ghost use Rattle.hart_replay.specs.declared.plans.PlannedLeg.{PlannedLeg as planned_leg};
ghost use Rattle.hart_replay.specs.declared.fault.ReplayFault.TheVariants as fault;
ghost use Rattle.interleaving.specs.Log.{IsCut};
ghost use Rattle.hart_replay.specs.Plans.{IsLeg, IsPlan, log_of};
ghost use Rattle.hart_replay.specs.Replays.{LegLeads, IsOutcome};
ghost use Rattle.hart_replay.specs.Leading.{IsLegFault};
ghost use Rattle.least_cuts.specs.Cuts.{IsCutAt, IsLeastMachine, leg_to as leg_to_of};

use crate::closure::least_cut;
use ft_types::{Count, Counts, Hart, Memory, is_same_guest};
use guest_image::{Image, Machine};
use hart_replay::{Plan, PlannedLeg, ReplayFault, has_come_to, lead, lead_all};
use page_book::{Book, Replaying};
use std::alloc::Global;
use std::option::Option;
use std::result::Result;

/// The first leg in which the hart comes to the count.
fn leg_with(legs: &[PlannedLeg], hart: Hart, count: Count) -> Option<usize>
    ensures there { IfSome result (λ n. n < length legs.now) }
    ensures some { IfSome result (λ n. (leg : planned_leg) → slice_get legs.now n ≡ Some leg → count ≤ count_at leg.ends hart) }
    ensures first { IfSome result (λ n. All (λ leg. count_at leg.ends hart < count) (take n legs.now)) }
    ensures none { IfNone result (All (λ leg. count_at leg.ends hart < count) legs.now) }
{
    for number in 0..legs.len() {
        if count <= legs[number].ends.count_of(hart) {
            return Some(number);
        }
    }
    None
}

/// The leg, up to these counts.
fn leg_to(leg: &PlannedLeg, ends: Counts) -> Result<PlannedLeg, Memory>
    ensures { IfOk result (λ made. made ≡ leg_to_of leg.now ends) }
{
    Ok(PlannedLeg {
        term: leg.term,
        base: leg.base,
        ends,
        edges: leg.edges.copy()?,
        inputs: leg.inputs.copy()?,
        marks: leg.marks,
    })
}

/// The machine to which the leg leads from this one.
fn lead_to(alloc: Global, start: Machine, leg: &PlannedLeg) -> Result<Machine, ReplayFault>
    requires leg { IsLeg (length start.harts) leg.now }
    requires base { (hart : ℕ) → count_at leg.now.base hart ≡ counts_of start hart }
    ensures ok { IfOk result (λ m. LegLeads leg.now start m) }
    ensures fault { IfErr result (λ fault. IsLegFault leg.now start fault) }
{
    let book: Book<Replaying> = lead(alloc, start, leg)?;
    has_come_to(book.machine(), &book.counts(), &leg.ends)?;
    Ok(book.into_machine())
}

/// The machine to which the legs lead from boot.
fn led_by(alloc: Global, image: &Image, legs: &[PlannedLeg]) -> Result<Machine, ReplayFault>
    requires plan { IsPlan (guest_of image.now) legs.now }
    ensures ok { IfOk result (λ m. IsOutcome image.now legs.now m) }
    ensures fault { IfErr result (λ f. f ≢ fault.OtherGuest) }
{
    let boot = Machine::boot(alloc, image)?;
    lead_all(alloc, image, boot, legs, 0)
}

/// The machine to which the legs before this one lead from boot, and it up to a closed cut.
fn machine_in(
    alloc: Global,
    image: &Image,
    legs: &[PlannedLeg],
    number: usize,
    cut: Counts,
) -> Result<Machine, ReplayFault>
    requires plan { IsPlan (guest_of image.now) legs.now }
    requires number { number < length legs.now }
    requires cut { (leg : planned_leg) → slice_get legs.now number ≡ Some leg → IsCut (log_of leg) (count_at cut) }
    ensures ok { IfOk result (λ m. (leg : planned_leg) → slice_get legs.now number ≡ Some leg →
        IsOutcome image.now (take number legs.now ++ leg_to_of leg cut ∷ []) m) }
    ensures fault { IfErr result (λ f. f ≢ fault.OtherGuest) }
{
    let start = led_by(alloc, image, &legs[..number])?;
    let trimmed = leg_to(&legs[number], cut)?;
    lead_to(alloc, start, &trimmed)
}

/// The machine at the least closed cut at which the hart has exactly so many steps, where the plan has one.
pub fn machine_at(
    alloc: Global,
    image: &Image,
    plan: &Plan,
    hart: Hart,
    count: Count,
) -> Result<Option<Machine>, ReplayFault>
    ensures other_guest { (result ≡ Err fault.OtherGuest) ↔ (plan.now.guest ≢ guest_of image.now) }
    ensures least { IfOk result (λ found. IfSome found (λ m. IsLeastMachine image.now plan.now.legs hart count m)) }
    // None, where no leg has a closed cut with exactly so many steps of the hart.
    ensures none { IfOk result (λ found. IfNone found ((leg : planned_leg) (cut : ℕ → ℕ) → Contains plan.now.legs leg → IsCutAt leg hart count cut → ⊥)) }
{
    if !is_same_guest(&plan.guest(), &image.guest()) {
        return Err(ReplayFault::OtherGuest);
    }
    if count == 0 {
        return Ok(Some(Machine::boot(alloc, image)?));
    }
    let legs = plan.legs();
    let Some(number) = leg_with(legs, hart, count) else {
        return Ok(None);
    };
    let cut = least_cut(&legs[number], hart, count);
    if cut.get(hart) != count {
        return Ok(None);
    }
    Ok(Some(machine_in(alloc, image, legs, number, cut)?))
}
