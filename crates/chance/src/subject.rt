//! The world that is tested.

ghost use Rattle.std.specs.Prelude.{◌≡◌, ◌<◌, ◌≤◌};
ghost use Rattle.ft_types.specs.declared.names.TheConstants.{HART_LIMIT};

use crate::acts::{Act, event_of};
use crate::fault::PlainFault;
use failover_world::{World, WorldFault};
use fragment_codec::Frame;
use ft_types::{Hart, Memory, Term};
use guest_image::{Image, Machine};
use primary::Released;
use std::alloc::Global;

/// The world whose primaries stop, and how many harts its guest has.
#[derive(Drop)]
pub struct Subject {
    world: World,
    harts: u8,
    ghost of_world: { world.image.harts ≡ harts },
    ghost some: { (0 < harts) × (harts ≤ HART_LIMIT) },
}

/// What is seen of a world: how many outputs went out and how many frames, how many terms were granted, and how many steps a term's
/// machine has taken, 0 where there is none.
type Outline = (usize, usize, usize, u64);

/// Whether these are the same.
fn are_same(one: Outline, other: Outline) -> bool {
    one.0 == other.0 && one.1 == other.1 && one.2 == other.2 && one.3 == other.3
}

/// How many steps a machine's harts have taken, and one more.
fn steps_of(machine: &Machine) -> u64 {
    let mut steps = 1u64;
    for number in 0..machine.harts() {
        steps = steps.wrapping_add(machine.hart(Hart::new(number)).count());
    }
    steps
}

/// A fault, by the plain world's names.
fn fault_of(fault: WorldFault) -> PlainFault {
    match fault {
        WorldFault::NoPrimary => PlainFault::NoPrimary,
        WorldFault::NoKeeper => PlainFault::NoKeeper,
        WorldFault::NoFrame => PlainFault::NoFrame,
        WorldFault::NotStopped => PlainFault::Fenced,
        WorldFault::Step(fault) => PlainFault::Step(fault),
        WorldFault::Live(fault) => PlainFault::Live(fault),
        WorldFault::Ack(fault) => PlainFault::Ack(fault),
        WorldFault::Memory => PlainFault::Memory,
    }
}

impl Subject {
    /// A world of the image.
    pub fn new(alloc: Global, image: &Image, keepers: u8, need: u8) -> Result<Subject, Memory>
        requires { (0 < need) × (need ≤ keepers) × (keepers ≤ 5) }
    {
        let harts = image.harts();
        let world = World::new(alloc, image, keepers, need)?;
        Ok(Subject { world, harts })
    }

    /// The outputs that went out.
    pub fn released(&self) -> &[Released] {
        self.world.released()
    }

    /// The frames that were sent.
    pub fn frames(&self) -> &[Frame] {
        self.world.frames()
    }

    /// The machine of the primary that runs, if that is the term's.
    pub fn machine(&self, term: Term) -> Option<&Machine> {
        if self.world.term() == term {
            self.world.machine()
        } else {
            None
        }
    }

    /// How many terms were granted.
    pub fn granted(&self) -> usize {
        self.world.stopped().len().saturating_add(1)
    }

    /// What is seen of it.
    fn outline(&self, term: Term) -> Outline {
        let steps = match self.machine(term) {
            Some(machine) => steps_of(machine),
            None => 0,
        };
        let (released, frames) = (self.released().len(), self.frames().len());
        (released, frames, self.granted(), steps)
    }

    /// What comes of the act.
    fn apply(&mut self, alloc: Global, act: Act) -> Result<(), PlainFault> {
        let event = event_of(alloc, act, self.harts)?;
        match self.world.apply(alloc, event) {
            Ok(()) => Ok(()),
            Err(fault) => Err(fault_of(fault)),
        }
    }

    /// What comes of the act. `None` where what is seen of a world that refused it, with the term's machine, is not what it was.
    fn answer_once(
        &mut self,
        alloc: Global,
        act: Act,
        term: Term,
    ) -> Option<Result<(), PlainFault>> {
        let before = self.outline(term);
        let answer = self.apply(alloc, act);
        if answer.is_err() && !are_same(self.outline(term), before) {
            None
        } else {
            Some(answer)
        }
    }

    /// The same, which is tried again where memory was refused.
    pub fn answer(
        &mut self,
        alloc: Global,
        act: Act,
        term: Term,
    ) -> Option<Result<(), PlainFault>> {
        match self.answer_once(alloc, act, term) {
            Some(Err(PlainFault::Memory)) => self.answer_once(alloc, act, term),
            answer => answer,
        }
    }
}
