//! Who replays a plan.

ghost use Rattle.std.specs.Prelude.{◌≡◌, ◌≢◌, ◌↔◌, Err, IfOk, IfErr};
ghost use Rattle.guest_image.specs.Image.{guest_of};
ghost use Rattle.hart_replay.specs.Replays.{IsOutcome, IsAtLeg, IsCyclicAt, HaltsInsideAt, IfCyclic, IfHaltedInside, ReplaysHistory};

use guest_image::{Image, Machine};
use hart_replay::{Plan, ReplayFault, replay_plain};
use std::alloc::Global;
use std::result::Result;

/// Who replays plans: in turn, or on threads. Each comes to what the plan says.
pub trait Replays {
    /// What has to hold of who replays. It is about threads alone.
    ghost may_run: { Self → Type 0 };

    /// The machine to which the plan leads from the image's boot, leg after leg.
    fn replay(&self, alloc: Global, image: &Image, plan: &Plan) -> Result<Machine, ReplayFault>
        requires { may_run self.now }
        ensures other_guest { (result ≡ Err ReplayFault.OtherGuest) ↔ (plan.now.guest ≢ guest_of image.now) }
        ensures outcome { IfOk result (λ m. IsOutcome image.now plan.now.legs m) }
        ensures cyclic { IfErr result (λ fault. IfCyclic fault (λ counts. IsAtLeg image.now plan.now.legs (λ leg m. IsCyclicAt leg m counts))) }
        ensures halted_inside { IfErr result (λ fault. IfHaltedInside fault (λ hart count. IsAtLeg image.now plan.now.legs
            (λ leg m. HaltsInsideAt leg m hart count))) }
        // Of honest frames nothing is cyclic or halted inside, and the machine is the one that they tell of.
        ensures history { ReplaysHistory image.now plan.now.legs result };
}

/// Replays on the thread that asks, harts in turn.
#[derive(Clone, Copy)]
pub struct Plainly;

impl Replays for Plainly {
    ghost use Rattle.std.specs.Prelude.{⊤};

    ghost may_run = { λ _. ⊤ };

    fn replay(&self, alloc: Global, image: &Image, plan: &Plan) -> Result<Machine, ReplayFault> {
        replay_plain(alloc, image, plan)
    }
}
