//! The inputs that wait.

ghost use Rattle.std.specs.Prelude.{◌≡◌, ◌≢◌, ℕ, ◌-◌, ◌≤◌, ◌++◌, List, ◌∷◌, [], false, take, drop, length, OnOk, OnErr, IfOk};
ghost use Rattle.smallvec.specs.SmallVec.{small_vec_len};
ghost use Rattle.input_log.specs.Inputs.{is_bell};
ghost use Rattle.input_log.specs.Waiting.{Queues, bells_of, others_of, bells_going, room_beside, others_staying, going, next_going, IsBellAddedTo};

use crate::queue::Queue;
use crate::{Input, WaitingBell, WaitingInput};
use ft_types::{Count, HART_ROW, Hart, INPUT_LIMIT, Memory};
use smallvec::SmallVec;
use std::alloc::Global;
use std::array;
use std::collections::VecDeque;
use std::marker::Model;
use std::option::Option;
use std::result::Result;

/// The inputs that wait for the harts of one machine: for each hart the bells, and the others.
///
/// Contracts see the two lists of each hart, the first to go at the front.
pub struct Desk {
    queues: [Queue; HART_ROW],
}

impl Drop for Desk {
    fn drop(self) {
        let Desk { queues: _ } = self;
    }
}

impl Model for Desk {
    ghost use Rattle.std.specs.Prelude.{◌≡◌, List, length};
    ghost use Rattle.input_log.specs.Waiting.{Queues};
    ghost use Rattle.ft_types.specs.declared.names.TheConstants.{HART_ROW};

    ghost Value = { List Queues };

    ghost view = { λ d. d.queues };

    ghost invariant = { λ d. length d.queues ≡ HART_ROW };
}

fn queues_copied(queues: &[Queue; HART_ROW]) -> Result<[Queue; HART_ROW], Memory>
    ensures { IfOk result (λ copied. copied ≡ queues.now) }
{
    let alloc = queues[0].allocator();
    let mut copied = array::from_fn(|_| Queue::new(alloc));
    for hart in 0..HART_ROW {
        copied[hart] = queues[hart].copy()?;
    }
    Ok(copied)
}

impl Desk {
    /// A desk where nothing waits.
    pub fn new(alloc: Global) -> Desk
        ensures bells { (hart : ℕ) → bells_of result hart ≡ [] }
        ensures others { (hart : ℕ) → others_of result hart ≡ [] }
    {
        Desk {
            queues: array::from_fn(|_| Queue::new(alloc)),
        }
    }

    /// An equal desk.
    pub fn copy(&self) -> Result<Desk, Memory>
        ensures { IfOk result (λ desk. desk ≡ self.now) }
    {
        let queues = queues_copied(&self.queues)?;
        Ok(Desk { queues })
    }

    /// The inputs but bells that wait for the hart.
    pub(crate) fn others(&self, hart: Hart) -> &VecDeque<WaitingInput>
        ensures value { result.now.items ≡ others_of self.now hart }
        ensures rows { length self.now ≡ HART_ROW }
    {
        self.queues[hart.index()].others()
    }

    /// Puts a bell for the hart at the back: this source rang, and its count was `after` once it had.
    pub fn put_bell(&mut self, hart: Hart, source: Hart, after: Count) -> Result<(), Memory>
        ensures put { OnOk result (bells_of self.new hart ≡ bells_of self.old hart ++ record { source = source; after = after } ∷ []) }
        ensures others_stay { others_of self.new hart ≡ others_of self.old hart }
        ensures bells_of_others { (other : ℕ) → other ≢ hart → bells_of self.new other ≡ bells_of self.old other }
        ensures others_of_others { (other : ℕ) → other ≢ hart → others_of self.new other ≡ others_of self.old other }
        ensures kept { OnErr result (self.new ≡ self.old) }
        ensures harts { length self.old ≡ HART_ROW }
    {
        let queue = &mut self.queues[hart.index()];
        queue.put_bell(WaitingBell { source, after })
    }

    /// Drops the last bell for the hart, where one waits.
    pub fn take_back_bell(&mut self, hart: Hart)
        ensures left { bells_of self.new hart ≡ take (length (bells_of self.old hart) - 1) (bells_of self.old hart) }
        ensures others_stay { others_of self.new hart ≡ others_of self.old hart }
        ensures bells_of_others { (other : ℕ) → other ≢ hart → bells_of self.new other ≡ bells_of self.old other }
        ensures others_of_others { (other : ℕ) → other ≢ hart → others_of self.new other ≡ others_of self.old other }
        // Whatever desk that bell was put onto, this is that desk again.
        ensures back { (before : List Queues) → (bell : WaitingBell) → IsBellAddedTo before hart bell self.old → self.new ≡ before }
    {
        let queue = &mut self.queues[hart.index()];
        queue.take_back_bell();
    }

    /// Puts another input for the hart at the back, which is given at no count before this one.
    pub fn put(&mut self, hart: Hart, not_before: Count, input: Input) -> Result<(), Memory>
        requires { is_bell input ≡ false }
        ensures put { OnOk result (others_of self.new hart ≡ others_of self.old hart ++ record { not_before = not_before; input = input } ∷ []) }
        ensures bells_stay { bells_of self.new hart ≡ bells_of self.old hart }
        ensures bells_of_others { (other : ℕ) → other ≢ hart → bells_of self.new other ≡ bells_of self.old other }
        ensures others_of_others { (other : ℕ) → other ≢ hart → others_of self.new other ≡ others_of self.old other }
        ensures kept { OnErr result (self.new ≡ self.old) }
    {
        let queue = &mut self.queues[hart.index()];
        queue.put(not_before, input)
    }

    /// The bells that the next take of the hart gives, in their order. Takes no memory.
    pub fn bells_next(&self, hart: Hart) -> SmallVec<WaitingBell, INPUT_LIMIT>
        ensures value { result.items ≡ bells_going (bells_of self.now hart) }
        ensures inline { result.capacity ≡ INPUT_LIMIT }
    {
        self.queues[hart.index()].bells_next()
    }

    /// Takes what the hart is given at this count: bells first, then others from the front while they may be given,
    /// `INPUT_LIMIT` in all. Takes no memory.
    pub fn take(&mut self, hart: Hart, count: Count) -> SmallVec<Input, INPUT_LIMIT>
        ensures taken { result.items ≡ going count (bells_of self.old hart) (others_of self.old hart) }
        ensures few { small_vec_len result ≤ INPUT_LIMIT }
        ensures bells_stay { bells_of self.new hart ≡ drop INPUT_LIMIT (bells_of self.old hart) }
        ensures others_stay { others_of self.new hart ≡ others_staying count (room_beside (bells_of self.old hart)) (others_of self.old hart) }
        ensures bells_of_others { (other : ℕ) → other ≢ hart → bells_of self.new other ≡ bells_of self.old other }
        ensures others_of_others { (other : ℕ) → other ≢ hart → others_of self.new other ≡ others_of self.old other }
        ensures inline { result.capacity ≡ INPUT_LIMIT }
    {
        let queue = &mut self.queues[hart.index()];
        queue.take(count)
    }

    /// The least count at which the hart is given something: 0 where a bell waits.
    pub fn next(&self, hart: Hart) -> Option<Count>
        ensures { result ≡ next_going (bells_of self.now hart) (others_of self.now hart) }
    {
        self.queues[hart.index()].next()
    }
}
