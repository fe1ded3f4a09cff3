//! Replay of a whole plan.

ghost use Rattle.std.specs.Prelude.{◌≡◌, ◌≢◌, ◌↔◌, Err, IfOk, IfErr};
ghost use Rattle.guest_image.specs.Image.{guest_of};
ghost use Rattle.hart_replay.specs.Plans.{IsPlan};
ghost use Rattle.hart_replay.specs.Replays.{IsOutcome, IsAtLeg, IsCyclicAt, HaltsInsideAt, IfCyclic, IfHaltedInside, ReplaysHistory};
ghost use Rattle.hart_replay.specs.Leading.{IsLegsFault};

use crate::fault::ReplayFault;
use crate::leading::replay_leg;
use crate::plans::{Plan, PlannedLeg};
use ft_types::is_same_guest;
use guest_image::{Image, Machine};
use std::alloc::Global;
use std::result::Result;

/// The machine to which the legs lead from boot, one after the other.
fn replay_legs(alloc: Global, image: &Image, legs: &[PlannedLeg]) -> Result<Machine, ReplayFault>
    requires { IsPlan (guest_of image.now) legs.now }
    ensures ok { IfOk result (λ m. IsOutcome image.now legs.now m) }
    ensures fault { IfErr result (λ fault. IsLegsFault image.now legs.now fault) }
{
    let mut machine = Machine::boot(alloc, image)?;
    for leg in legs {
        machine = replay_leg(alloc, machine, leg)?;
    }
    Ok(machine)
}

/// The machine to which the plan leads from the image's boot, leg after leg. In each leg the harts go in rising order, again
/// and again, each as far as it may.
pub fn replay_plain(alloc: Global, image: &Image, plan: &Plan) -> Result<Machine, ReplayFault>
    ensures other_guest { (result ≡ Err ReplayFault.OtherGuest) ↔ (plan.now.guest ≢ guest_of image.now) }
    ensures outcome { IfOk result (λ m. IsOutcome image.now plan.now.legs m) }
    ensures cyclic { IfErr result (λ fault. IfCyclic fault (λ counts. IsAtLeg image.now plan.now.legs (λ leg m. IsCyclicAt leg m counts))) }
    ensures halted_inside { IfErr result (λ fault. IfHaltedInside fault (λ hart count. IsAtLeg image.now plan.now.legs
        (λ leg m. HaltsInsideAt leg m hart count))) }
    // Of honest frames nothing is cyclic or halted inside, and the machine is the one that they tell of.
    ensures history { ReplaysHistory image.now plan.now.legs result }
{
    if !is_same_guest(&plan.guest(), &image.guest()) {
        return Err(ReplayFault::OtherGuest);
    }
    replay_legs(alloc, image, plan.legs())
}
