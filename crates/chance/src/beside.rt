//! A world beside a plain one.

ghost use Rattle.std.specs.Prelude.{◌<◌, ◌≤◌};

use crate::acts::Act;
use crate::fault::PlainFault;
use crate::keeper::Rules;
use crate::outcome::Outcome;
use crate::plain::PlainWorld;
use crate::subject::Subject;
use crate::tally::Tally;
use fragment_codec::Frame;
use ft_types::{Memory, Term};
use go_live::LiveFault;
use guest_image::{Image, Machine};
use log_join::{Put, Store};
use output_gate::Output;
use primary::Released;
use std::alloc::Global;

/// A world, a plain one to which the same happens, and what happened.
#[derive(Drop)]
pub struct Beside {
    pub subject: Subject,
    pub plain: PlainWorld,
    pub tally: Tally,
}

/// What comes of an act that is answered so, by which something went out or not.
fn outcome_of(act: Act, answer: Result<(), PlainFault>, released: bool) -> Outcome {
    match (act, answer) {
        (_, Err(PlainFault::Fenced)) => Outcome::Fenced,
        (_, Err(PlainFault::Live(LiveFault::TooFewStores))) => Outcome::TooFewStores,
        (_, Err(_)) => Outcome::Refused,
        (Act::Release(_), Ok(())) if !released => Outcome::NothingGoesOut,
        _ => Outcome::Done,
    }
}

/// Whether the machine has the output, at its number.
fn has(machine: &Machine, output: &Output) -> bool {
    if output.hart.number() >= machine.harts() {
        return false;
    }
    let there = machine
        .hart(output.hart)
        .outputs()
        .get(output.number as usize);
    there == Some(&(output.step, output.word))
}

/// Whether the term's machine has each of these outputs that went out in this term or an older one.
fn has_all(machine: &Machine, term: Term, released: &[Released]) -> bool {
    for released in released {
        if released.term <= term && !has(machine, &released.output) {
            return false;
        }
    }
    true
}

impl Beside {
    /// Two worlds of the image.
    pub fn new(alloc: Global, image: &Image, keepers: u8, need: u8) -> Result<Beside, Memory>
        requires { (0 < need) × (need ≤ keepers) × (keepers ≤ 5) }
    {
        let plain = PlainWorld::new(alloc, image, Rules::Stopping, keepers, need)?;
        let subject = Subject::new(alloc, image, keepers, need)?;
        Ok(Beside {
            subject,
            plain,
            tally: Tally::new(),
        })
    }

    /// Whether the worlds have the same machine in the term, or none, and it has all that went out by then.
    pub fn have_same_machine(&self, term: Term) -> bool {
        match (self.subject.machine(term), self.plain.machine(term)) {
            (Some(machine), Some(other)) => {
                machine.same(other) && has_all(machine, term, &self.plain.released)
            }
            (None, None) => true,
            _ => false,
        }
    }

    /// Whether they have granted the same terms, and have the same machine in each whose primary runs.
    pub fn have_same_machines(&self) -> bool {
        for number in 0..self.plain.primaries.len() {
            if !self.have_same_machine(self.plain.term_at(number)) {
                return false;
            }
        }
        self.plain.primaries.len() == self.subject.granted()
    }

    /// Whether the same went out.
    fn released_the_same(&self) -> bool {
        self.subject.released() == self.plain.released.as_slice()
    }

    /// Applies the act to both worlds: what comes of it.
    pub fn answer(&mut self, alloc: Global, act: Act) -> Result<Outcome, Memory> {
        let term = self.plain.greatest_term();
        let Some(answer) = self.subject.answer(alloc, act, term) else {
            return Ok(Outcome::Unlike);
        };
        let before = self.plain.released.len();
        let wanted = self.plain.apply(alloc, act);
        if wanted == Err(PlainFault::Memory) {
            return Err(Memory);
        }
        let released = self.plain.released.len() > before;
        let same = answer == wanted && self.released_the_same();
        self.tally.count(act, wanted);
        Ok(if same {
            outcome_of(act, answer, released)
        } else {
            Outcome::Unlike
        })
    }

    /// Whether the worlds sent the same frames.
    pub fn sent_the_same(&self, alloc: Global, image: &Image) -> Result<bool, Memory> {
        let mut store = Store::new(alloc, image.guest());
        are_the_same(alloc, &mut store, &self.plain.sent, self.subject.frames())
    }
}

/// Whether these are the same frames, for a store to which nothing came.
fn are_the_same(
    alloc: Global,
    store: &mut Store,
    sent: &[Frame],
    frames: &[Frame],
) -> Result<bool, Memory> {
    if frames.len() != sent.len() || !put_all(alloc, store, sent, Put::New)? {
        return Ok(false);
    }
    put_all(alloc, store, frames, Put::Same)
}

/// Puts these frames. Says whether each was answered so.
fn put_all(alloc: Global, store: &mut Store, frames: &[Frame], put: Put) -> Result<bool, Memory> {
    for frame in frames {
        if store.put(frame.copy(alloc)?)? != put {
            return Ok(false);
        }
    }
    Ok(true)
}
