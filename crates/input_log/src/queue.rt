//! The inputs that wait for one hart.

ghost use Rattle.std.specs.Prelude.{◌≡◌, ℕ, suc, ◌-◌, ◌≤◌, ◌++◌, List, ◌∷◌, [], false, map, take, drop, length, nat_le, OnOk, OnErr, IfOk};
ghost use Rattle.std.specs.Option.{option_to_list};
ghost use Rattle.smallvec.specs.SmallVec.{small_vec_len};
ghost use Rattle.input_log.specs.Inputs.{is_bell};
ghost use Rattle.input_log.specs.Waiting.{bells_going, room_beside, others_going, others_staying, going, next_going, empty};

use crate::{Input, WaitingBell, WaitingInput};
use ft_types::{Count, INPUT_LIMIT, Memory};
use smallvec::SmallVec;
use std::alloc::Global;
use std::collections::VecDeque;
use std::marker::Model;
use std::option::Option;
use std::result::Result;

/// What waits for one hart.
pub(crate) struct Queue {
    bells: VecDeque<WaitingBell>,
    others: VecDeque<WaitingInput>,
}

impl Drop for Queue {
    fn drop(self) {
        let Queue {
            bells: _,
            others: _,
        } = self;
    }
}

impl Model for Queue {
    ghost use Rattle.input_log.specs.Waiting.{Queues, AreOthers};

    ghost Value = { Queues };

    ghost view = { λ q. record { bells = q.bells.items; others = q.others.items } };

    ghost invariant = { λ q. AreOthers q.others.items };
}

/// Takes bells from the front, `INPUT_LIMIT` at the most.
fn take_bells(bells: &mut VecDeque<WaitingBell>) -> SmallVec<Input, INPUT_LIMIT>
    ensures taken { result.items ≡ map (λ b. Input.Bell b.source) (bells_going bells.old.items) }
    ensures stay { bells.new.items ≡ drop INPUT_LIMIT bells.old.items }
    ensures inline { result.capacity ≡ INPUT_LIMIT }
{
    let mut inputs = SmallVec::new(*bells.allocator());
    for _ in 0..INPUT_LIMIT {
        if let Some(bell) = bells.pop_front() {
            inputs.push_reserved(Input::Bell(bell.source));
        }
    }
    inputs
}

/// Whether the first of the queue may be given at this count.
fn goes(others: &VecDeque<WaitingInput>, count: Count) -> bool
    ensures none { others.now.items ≡ [] → result ≡ false }
    ensures first { (w : WaitingInput) → (rest : List WaitingInput) → others.now.items ≡ w ∷ rest → result ≡ nat_le w.not_before count }
{
    match others.front() {
        Some(first) => first.not_before <= count,
        None => false,
    }
}

/// Takes the first of the queue, where it may be given at this count.
fn pop_going(others: &mut VecDeque<WaitingInput>, count: Count) -> Option<WaitingInput>
    ensures taken { (room : ℕ) → others_going count (suc room) others.old.items ≡ option_to_list result ++ others_going count room others.new.items }
    ensures stay { (room : ℕ) → others_staying count (suc room) others.old.items ≡ others_staying count room others.new.items }
{
    if goes(others, count) {
        others.pop_front()
    } else {
        None
    }
}

/// Takes others from the front, while they may be given at this count and there is room.
fn take_others(
    others: &mut VecDeque<WaitingInput>,
    count: Count,
    inputs: &mut SmallVec<Input, INPUT_LIMIT>,
)
    requires few { small_vec_len inputs.old ≤ INPUT_LIMIT }
    requires inline { inputs.old.capacity ≡ INPUT_LIMIT }
    ensures taken { inputs.new.items ≡ inputs.old.items ++ map (λ w. w.input) (others_going count (INPUT_LIMIT - small_vec_len inputs.old) others.old.items) }
    ensures stay { others.new.items ≡ others_staying count (INPUT_LIMIT - small_vec_len inputs.old) others.old.items }
    ensures inline { inputs.new.capacity ≡ INPUT_LIMIT }
{
    let room = INPUT_LIMIT - inputs.len();
    for _ in 0..room {
        if let Some(first) = pop_going(others, count) {
            inputs.push_reserved(first.input);
        }
    }
}

fn bells_copied(bells: &VecDeque<WaitingBell>) -> Result<VecDeque<WaitingBell>, Memory>
    ensures { IfOk result (λ copied. copied.items ≡ bells.now.items) }
{
    Ok(bells.clone()?)
}

fn others_copied(others: &VecDeque<WaitingInput>) -> Result<VecDeque<WaitingInput>, Memory>
    ensures { IfOk result (λ copied. copied.items ≡ others.now.items) }
{
    Ok(others.clone()?)
}

impl Queue {
    /// Nothing waits.
    pub(crate) fn new(alloc: Global) -> Queue
        ensures { result ≡ empty }
    {
        Queue {
            bells: VecDeque::new(alloc),
            others: VecDeque::new(alloc),
        }
    }

    /// Where its items lie.
    pub(crate) fn allocator(&self) -> Global {
        *self.bells.allocator()
    }

    /// An equal queue.
    pub(crate) fn copy(&self) -> Result<Queue, Memory>
        ensures { IfOk result (λ q. q ≡ self.now) }
    {
        let bells = bells_copied(&self.bells)?;
        let others = others_copied(&self.others)?;
        Ok(Queue { bells, others })
    }

    /// The others.
    pub(crate) fn others(&self) -> &VecDeque<WaitingInput>
        ensures { result.now.items ≡ self.now.others }
    {
        &self.others
    }

    /// Puts a bell at the back.
    pub(crate) fn put_bell(&mut self, bell: WaitingBell) -> Result<(), Memory>
        ensures ok { OnOk result (self.new ≡ record self.old { bells = self.old.bells ++ bell ∷ [] }) }
        ensures err { OnErr result (self.new ≡ self.old) }
    {
        self.bells.push_back(bell)?;
        Ok(())
    }

    /// Drops the last bell, where one waits.
    pub(crate) fn take_back_bell(&mut self)
        ensures { self.new ≡ record self.old { bells = take (length self.old.bells - 1) self.old.bells } }
    {
        self.bells.pop_back();
    }

    /// Puts another input at the back.
    pub(crate) fn put(&mut self, not_before: Count, input: Input) -> Result<(), Memory>
        requires { is_bell input ≡ false }
        ensures ok { OnOk result (self.new ≡ record self.old { others = self.old.others ++ record { not_before = not_before; input = input } ∷ [] }) }
        ensures err { OnErr result (self.new ≡ self.old) }
    {
        self.others.push_back(WaitingInput { not_before, input })?;
        Ok(())
    }

    /// The bells that the next take gives.
    pub(crate) fn bells_next(&self) -> SmallVec<WaitingBell, INPUT_LIMIT>
        ensures value { result.items ≡ bells_going self.now.bells }
        ensures inline { result.capacity ≡ INPUT_LIMIT }
    {
        let mut bells = SmallVec::new(*self.bells.allocator());
        for place in 0..INPUT_LIMIT {
            if let Some(bell) = self.bells.get(place) {
                bells.push_reserved(*bell);
            }
        }
        bells
    }

    /// Takes what may be given at this count.
    pub(crate) fn take(&mut self, count: Count) -> SmallVec<Input, INPUT_LIMIT>
        ensures taken { result.items ≡ going count self.old.bells self.old.others }
        ensures bells { self.new.bells ≡ drop INPUT_LIMIT self.old.bells }
        ensures others { self.new.others ≡ others_staying count (room_beside self.old.bells) self.old.others }
        ensures inline { result.capacity ≡ INPUT_LIMIT }
    {
        let mut inputs = take_bells(&mut self.bells);
        take_others(&mut self.others, count, &mut inputs);
        inputs
    }

    /// The least count at which something is given.
    pub(crate) fn next(&self) -> Option<Count>
        ensures { result ≡ next_going self.now.bells self.now.others }
    {
        if !self.bells.is_empty() {
            return Some(0);
        }
        match self.others.front() {
            Some(first) => Some(first.not_before),
            None => None,
        }
    }
}
