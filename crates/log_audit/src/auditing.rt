//! Audits.

ghost use Rattle.std.specs.Prelude.{◌≡◌, ◌≢◌, ◌↔◌, ℕ, Err, length, IfOk, IfErr};
ghost use Rattle.ft_types.specs.Counts.{count_at};
ghost use Rattle.guest_image.specs.Image.{guest_of};
ghost use Rattle.guest_image.specs.Machine.{MachineState, boot_machine};
ghost use Rattle.hart_lease.specs.Runs.{counts_of};
ghost use Rattle.hart_replay.specs.declared.plans.PlannedLeg.{PlannedLeg as planned_leg};
ghost use Rattle.hart_replay.specs.Plans.{IsLeg, IsPlan};
ghost use Rattle.hart_replay.specs.Replays.{IsAtLeg, IsCyclicAt, HaltsInsideAt};
ghost use Rattle.hart_replay.specs.declared.fault.ReplayFault.TheVariants as replay;
ghost use Rattle.log_audit.specs.Coverage.{LegAgrees, LegsAgree, IsUncoveredAt};
ghost use Rattle.log_audit.specs.Faults.{IfUncovered, IfCyclic, IfHaltedInside, IsLegFault, IsLegsFault};
ghost use Rattle.log_audit.specs.machinery.Turns.{IsClash};

use crate::fault::AuditFault;
use crate::harts::Clash;
use crate::legs::{Ended, run_leg};
use book_modes::settled_counts;
use ft_types::{Hart, Memory, is_same_guest};
use guest_image::{Image, Machine};
use hart_replay::{Plan, PlannedLeg, ReplayFault, come_to};
use std::alloc::Global;
use std::result::Result;

/// The clash as a fault, the lesser hart first.
fn uncovered(clash: Clash) -> AuditFault
    ensures { (leg : planned_leg) (m : MachineState) → IsClash leg m clash → IsLegFault leg m result }
{
    let Clash { page, one, other } = clash;
    if one.0.number() < other.0.number() {
        AuditFault::Uncovered(page, one, other)
    } else {
        AuditFault::Uncovered(page, other, one)
    }
}

/// The machine to which each schedule of the leg leads from this one.
fn audit_leg(alloc: Global, start: Machine, leg: &PlannedLeg) -> Result<Machine, AuditFault>
    requires leg { IsLeg (length start.harts) leg.now }
    requires base { (hart : ℕ) → count_at leg.now.base hart ≡ counts_of start hart }
    ensures agrees { IfOk result (λ m. LegAgrees leg.now start m) }
    ensures fault { IfErr result (λ fault. IsLegFault leg.now start fault) }
{
    // No edge of the log is of a step before its start.
    // proof: a log keeps the rules by type.
    let _rules = leg.edges.at(Hart::new(0), 0);
    let machine = match run_leg(alloc, start, leg) {
        Ok(Ended::Stopped(machine)) => machine,
        Ok(Ended::Clashed(clash)) => return Err(uncovered(clash)),
        Err(Memory) => return Err(AuditFault::Replay(ReplayFault::Memory)),
    };
    let counts = settled_counts(&machine);
    match come_to(machine, counts, leg.ends) {
        Ok(end) => Ok(end),
        Err(fault) => Err(AuditFault::Replay(fault)),
    }
}

/// The machine to which each schedule of the legs leads from boot.
fn audit_legs(alloc: Global, image: &Image, legs: &[PlannedLeg]) -> Result<Machine, AuditFault>
    requires { IsPlan (guest_of image.now) legs.now }
    ensures agree { IfOk result (λ m. LegsAgree legs.now (boot_machine image.now) m) }
    ensures fault { IfErr result (λ fault. IsLegsFault image.now legs.now fault) }
{
    let mut machine = match Machine::boot(alloc, image) {
        Ok(machine) => machine,
        Err(Memory) => return Err(AuditFault::Replay(ReplayFault::Memory)),
    };
    for leg in legs {
        machine = audit_leg(alloc, machine, leg)?;
    }
    Ok(machine)
}

/// The machine to which the plan leads from the image's boot, where it leads there by every schedule. Nobody vouches for the plan:
/// its store may hold anything.
pub fn audit(alloc: Global, image: &Image, plan: &Plan) -> Result<Machine, AuditFault>
    ensures other_guest { (result ≡ Err (AuditFault.Replay replay.OtherGuest)) ↔ (plan.now.guest ≢ guest_of image.now) }
    // Whatever schedules of its legs are taken, each step can be taken, none is stuck, and they lead to this machine alone.
    ensures agree { IfOk result (λ m. LegsAgree plan.now.legs (boot_machine image.now) m) }
    // Nothing orders these two steps of a beginning of a schedule of one leg.
    ensures uncovered { IfErr result (λ fault. IfUncovered fault (λ page one other. IsAtLeg image.now plan.now.legs
        (λ leg m. IsUncoveredAt leg m page one other))) }
    ensures cyclic { IfErr result (λ fault. IfCyclic fault (λ counts. IsAtLeg image.now plan.now.legs (λ leg m. IsCyclicAt leg m counts))) }
    ensures halted_inside { IfErr result (λ fault. IfHaltedInside fault (λ hart count. IsAtLeg image.now plan.now.legs
        (λ leg m. HaltsInsideAt leg m hart count))) }
{
    if !is_same_guest(&plan.guest(), &image.guest()) {
        return Err(AuditFault::Replay(ReplayFault::OtherGuest));
    }
    audit_legs(alloc, image, plan.legs())
}
