//! A backup that keeps up with a store.

ghost use Rattle.std.specs.Prelude.{◌≡◌, ◌≢◌, ◌↔◌, ◌⊎◌, ◌-◌, ℕ, [], sum, replicate, Err, IfOk, IfErr, OnOk, OnErr, IsTrue, MatchResult};
ghost use Rattle.interleaving.specs.Stored.{view};
ghost use Rattle.ft_types.specs.Counts.{count_at};
ghost use Rattle.rv32_hart.specs.Hardware.{hardware};
ghost use Rattle.log_join.specs.Stores.{IsStore};
ghost use Rattle.closed_cut.specs.Position.{IsPosition};
ghost use Rattle.guest_image.specs.Image.{guest_of};
ghost use Rattle.guest_image.specs.Machine.{boot_machine};
ghost use Rattle.hart_replay.specs.Laws.{ArePlanned};
ghost use Rattle.hart_replay.specs.GoingOn.{GoOnFrom};
ghost use Rattle.hart_replay.specs.Replays.{IsOutcome};
ghost use Rattle.hart_replay.specs.Leading.{IsLegsFault};
ghost use Rattle.hart_replay.specs.KeepingUp.{KeepsUp, IsFaultOfStore};
ghost use Rattle.hart_threads.specs.Following.{FollowsHistory};

use closed_cut::{Position, position};
use ft_types::{Counts, Hart, Memory, is_same_guest};
use guest_image::{Image, Machine};
use hart_replay::{Plan, PlannedLeg, ReplayFault, go_on_from, lead_all, plan, steps_in};
use log_join::Store;
use std::alloc::Global;
use std::marker::Model;
use std::option::Option;
use std::result::Result;

/// A machine that follows what a store tells of an image's guest.
pub struct Follower {
    image: Image,
    /// What was replayed; none before the first advance.
    plan: Option<Plan>,
    position: Position,
    machine: Machine,
    last_steps: u64,
}

impl Drop for Follower {
    fn drop(self) {
        let Follower {
            image: _,
            plan: _,
            position: _,
            machine: _,
            last_steps: _,
        } = self;
    }
}

impl Model for Follower {
    ghost use Rattle.hart_replay.specs.KeepingUp.{KeepsUp};
    ghost use Rattle.hart_threads.specs.Following.{FollowerView, legs_of};

    ghost Value = { FollowerView };

    ghost view = { λ f. record {
      image = f.image;
      legs = legs_of f.plan;
      position = f.position;
      machine = f.machine;
      last_steps = f.last_steps;
    } };

    ghost invariant = { λ f. KeepsUp f.image (legs_of f.plan) f.machine };
}

/// The position of a store and its plan.
fn plan_to(alloc: Global, store: &Store) -> Result<(Position, Plan), Memory>
    ensures position { IfOk result (λ x. IsPosition store.now x.0) }
    ensures guest { IfOk result (λ x. x.1.guest ≡ store.now.guest) }
    ensures planned { IfOk result (λ x. ArePlanned store.now x.0 x.1.legs) }
{
    let end = position(alloc, store)?;
    match plan(alloc, store, &end) {
        Ok(plan) => Ok((end, plan)),
        Err(_) => Err(Memory),
    }
}

impl Follower {
    /// A follower of an image that has followed nothing: its machine is at boot.
    pub fn new(alloc: Global, image: &Image) -> Result<Follower, Memory>
        ensures { IfOk result (λ f. f ≡ record {
          image = image.now;
          legs = [];
          position = record { term = 0; counts = replicate image.now.harts 0; top = 0 };
          machine = boot_machine image.now;
          last_steps = 0;
        }) }
    {
        let machine = Machine::boot(alloc, image)?;
        Ok(Follower {
            image: image.copy()?,
            plan: None,
            position: Position {
                term: 0,
                counts: Counts::zero(image.harts()),
                top: 0,
            },
            machine,
            last_steps: 0,
        })
    }

    /// The machine at the position.
    pub fn machine(&self) -> &Machine
        ensures value { result.now ≡ self.now.machine }
        // Schedules of what was planned lead to it from boot, one leg after the other.
        ensures outcome { IsOutcome self.now.image self.now.legs result.now }
    {
        &self.machine
    }

    /// The position of the store that it last followed.
    pub fn position(&self) -> &Position
        ensures { result.now ≡ self.now.position }
    {
        &self.position
    }

    /// How many steps the last advance took that was not refused.
    pub fn last_steps(&self) -> u64
        ensures { result ≡ self.now.last_steps }
    {
        self.last_steps
    }

    /// The legs that were replayed.
    fn legs(&self) -> &[PlannedLeg]
        ensures value { result.now ≡ self.now.legs }
        ensures kept { KeepsUp self.now.image self.now.legs self.now.machine }
    {
        match &self.plan {
            None => &[],
            Some(plan) => plan.legs(),
        }
    }

    /// The machine to which the plan leads: from the present one on, or else from boot.
    fn follow(&self, alloc: Global, plan: &Plan, on: bool) -> Result<Machine, ReplayFault>
        requires guest { plan.now.guest ≡ guest_of self.now.image }
        requires on { IsTrue on → GoOnFrom self.now.legs plan.now.legs }
        ensures ok { IfOk result (λ m. IsOutcome self.now.image plan.now.legs m) }
        ensures fault { IfErr result (λ fault. IsLegsFault self.now.image plan.now.legs fault) }
    {
        let planned = plan.legs();
        if on {
            let first = self.legs().len() - 1;
            // proof: a log keeps the rules by type.
            let _rules = planned[first].edges.next(Hart::new(0), 0);
            let machine = self.machine.copy()?;
            return lead_all(alloc, &self.image, machine, planned, first);
        }
        let machine = Machine::boot(alloc, &self.image)?;
        lead_all(alloc, &self.image, machine, planned, 0)
    }

    /// Goes to the store's position: from where it stands, where what it replayed begins what the store tells, else from boot.
    /// Where it is refused nothing has changed.
    pub fn advance(&mut self, alloc: Global, store: &Store) -> Result<(), ReplayFault>
        ensures other_guest { (result ≡ Err ReplayFault.OtherGuest) ↔ (store.now.guest ≢ guest_of self.old.image) }
        ensures image { self.new.image ≡ self.old.image }
        ensures position { OnOk result (IsPosition store.now self.new.position) }
        ensures planned { OnOk result (ArePlanned store.now self.new.position self.new.legs) }
        ensures outcome { OnOk result (IsOutcome self.new.image self.new.legs self.new.machine) }
        // Its steps are those from the old position to the new one where it went on, else all.
        ensures steps_on { OnOk result (GoOnFrom self.old.legs self.new.legs →
            self.new.last_steps ≡ sum self.new.position.counts - sum self.old.position.counts) }
        ensures steps_anew { OnOk result ((GoOnFrom self.old.legs self.new.legs → ⊥) → self.new.last_steps ≡ sum self.new.position.counts) }
        ensures fault { IfErr result (λ f. (f ≡ ReplayFault.OtherGuest) ⊎ (f ≡ ReplayFault.Memory) ⊎ IsFaultOfStore self.old.image store.now f) }
        // Of honest frames nothing is cyclic or halted inside, and the machine is the one that they tell of.
        ensures history { FollowsHistory store.now result self.new }
        ensures err { OnErr result (self.new ≡ self.old) }
    {
        if !is_same_guest(&store.guest(), &self.image.guest()) {
            return Err(ReplayFault::OtherGuest);
        }
        let (end, plan) = plan_to(alloc, store)?;
        let on = go_on_from(self.legs(), plan.legs());
        let machine = self.follow(alloc, &plan, on)?;
        let steps = steps_in(&end.counts);
        self.last_steps = if on {
            steps.saturating_sub(steps_in(&self.position.counts))
        } else {
            steps
        };
        self.position = end;
        self.plan = Some(plan);
        self.machine = machine;
        Ok(())
    }
}
