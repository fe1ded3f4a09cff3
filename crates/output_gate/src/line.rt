//! The outputs of one hart.

ghost use Rattle.std.specs.Prelude.{◌≡◌, ◌+◌, ◌^◌, ◌<◌, ◌≤◌, ◌++◌, ◌∷◌, List, [], take, drop, filter, length, OnOk, OnErr, IfOk, IsTrue};
ghost use Rattle.ft_types.specs.declared.names.TheConstants.{COUNT_LIMIT};
ghost use Rattle.ft_types.specs.declared.output.Output.{Output as output_of_specs};
ghost use Rattle.output_gate.specs.Gates.{fresh_line, offered_in, with_offer, is_held, is_not_held, after_release};
ghost use Rattle.output_gate.specs.Orders.{AreInLine, IsNext, AreUpTo};
ghost use Rattle.output_gate.specs.machinery.Lines.{IsFront};

use crate::notes::keepers_above;
use ft_types::{Count, HART_ROW, KEEPER_ROW, Memory, Output};
use std::alloc::Global;
use std::marker::Model;
use std::result::Result;

/// The outputs that were offered of one hart, and how many of them were released. Contracts see those that are passed over, those that
/// went out, and those that wait.
#[derive(Drop)]
pub(crate) struct Line {
    mark: u64,
    /// Those with numbers below the mark.
    passed: Vec<Output>,
    /// The others.
    offered: Vec<Output>,
    released: usize,
    /// That the steps of those that wait rise. Where it is not set, they may fall.
    rises: bool,
}

impl Model for Line {
    ghost use Rattle.std.specs.Prelude.{◌<◌, ◌≤◌, length, take, drop, IsTrue};
    ghost use Rattle.ft_types.specs.declared.names.TheConstants.{COUNT_LIMIT};
    ghost use Rattle.output_gate.specs.Gates.{LineView};
    ghost use Rattle.output_gate.specs.Orders.{AreInLine};

    ghost Value = { LineView };

    ghost view = { λ l. record {
      mark = l.mark;
      passed = l.passed.items;
      gone = take l.released l.offered.items;
      waiting = drop l.released l.offered.items;
    } };

    ghost invariant = { λ l. (l.released ≤ length l.offered.items) × (IsTrue l.rises → AreInLine (drop l.released l.offered.items))
        × (length l.passed.items ≤ l.mark) × (l.mark < COUNT_LIMIT) };
}

/// Whether enough keepers are noted above the output's step.
fn has_enough(need: u8, noted: &[[Count; HART_ROW]; KEEPER_ROW], output: &Output) -> bool
    ensures { result ≡ is_held need noted.now output.now }
{
    keepers_above(noted, output.hart, output.step) >= need as usize
}

/// How many of the outputs that wait are held. As they are in line, these are the first.
fn held_front(need: u8, noted: &[[Count; HART_ROW]; KEEPER_ROW], waiting: &[Output]) -> usize
    requires { AreInLine waiting.now }
    ensures { IsFront need noted.now result waiting.now }
{
    for place in 0..waiting.len() {
        let output = waiting[place];
        if keepers_above(noted, output.hart, output.step) < need as usize {
            return place;
        }
    }
    waiting.len()
}

/// Adds those of the outputs that are held, in whatever order their steps are, and says how many they are.
fn give_each(
    need: u8,
    noted: &[[Count; HART_ROW]; KEEPER_ROW],
    waiting: &[Output],
    given: &mut Vec<Output>,
) -> Result<usize, Memory>
    ensures given { OnOk result (given.new.items ≡ given.old.items ++ filter (is_held need noted.now) waiting.now) }
    ensures number { IfOk result (λ held. held ≡ length (filter (is_held need noted.now) waiting.now)) }
{
    let mut held = 0usize;
    for output in waiting {
        if has_enough(need, noted, output) {
            given.push(*output)?;
            held += 1;
        }
    }
    Ok(held)
}

/// Moves the output at a place before those that stand from the front on.
fn move_to_front(outputs: &mut [Output], front: usize, place: usize)
    requires { (front ≤ place) × (place < length outputs.old) }
    ensures { (before between rest : List output_of_specs) (o : output_of_specs) → outputs.old ≡ before ++ (between ++ o ∷ rest) →
        length before ≡ front → front + length between ≡ place → outputs.new ≡ before ++ (o ∷ (between ++ rest)) }
{
    outputs[front..=place].rotate_right(1);
}

/// Brings the outputs that are held before the others, each in their order.
fn bring_held(need: u8, noted: &[[Count; HART_ROW]; KEEPER_ROW], waiting: &mut [Output])
    ensures { waiting.new ≡ filter (is_held need noted.now) waiting.old ++ filter (is_not_held need noted.now) waiting.old }
{
    let mut held = 0usize;
    for place in 0..waiting.len() {
        if has_enough(need, noted, &waiting[place]) {
            move_to_front(waiting, held, place);
            held += 1;
        }
    }
}

impl Line {
    /// A line without outputs, which passes over those with numbers below the mark.
    pub(crate) fn new(alloc: Global, mark: u64) -> Line
        requires { mark < COUNT_LIMIT }
        ensures { result ≡ fresh_line mark }
    {
        Line {
            mark,
            passed: Vec::new(alloc),
            offered: Vec::new(alloc),
            released: 0,
            rises: true,
        }
    }

    /// Whether the steps of those that wait rise, up to this step.
    fn rises_to(&self, step: Count) -> bool
        ensures { IsTrue result → AreInLine self.now.waiting × AreUpTo step self.now.waiting }
    {
        match self.offered.as_slice()[self.released..].last() {
            None => true,
            Some(last) => self.rises && last.step <= step,
        }
    }

    /// Takes the next output.
    pub(crate) fn push(&mut self, output: Output) -> Result<(), Memory>
        requires { IsNext output self.old }
        ensures ok { OnOk result (self.new ≡ with_offer self.old output) }
        ensures err { OnErr result (self.new ≡ self.old) }
    {
        if output.number < self.mark {
            self.passed.push(output)?;
            return Ok(());
        }
        let rises = self.rises_to(output.step);
        self.offered.push(output)?;
        self.rises = rises;
        Ok(())
    }

    /// How many outputs were offered.
    pub(crate) fn offered(&self) -> usize
        ensures { result ≡ length (offered_in self.now) }
    {
        let (passed, offered) = (self.passed.as_slice(), self.offered.as_slice());
        passed.len() + offered.len()
    }

    /// How many outputs were offered and have not gone out.
    pub(crate) fn kept(&self) -> usize
        ensures value { result ≡ length self.now.passed + length self.now.waiting }
        ensures limit { result < 2 ^ 59 }
    {
        let (passed, offered) = (self.passed.as_slice(), self.offered.as_slice());
        passed.len() + (offered.len() - self.released)
    }

    /// How many outputs wait.
    pub(crate) fn waiting(&self) -> usize
        ensures value { result ≡ length self.now.waiting }
        ensures limit { result < 2 ^ 59 }
    {
        self.offered.as_slice().len() - self.released
    }

    /// Adds the outputs that are held, and says how many they are. They still wait.
    pub(crate) fn give(
        &self,
        need: u8,
        noted: &[[Count; HART_ROW]; KEEPER_ROW],
        given: &mut Vec<Output>,
    ) -> Result<usize, Memory>
        ensures given { OnOk result (given.new.items ≡ given.old.items ++ filter (is_held need noted.now) self.now.waiting) }
        ensures number { IfOk result (λ held. held ≡ length (filter (is_held need noted.now) self.now.waiting)) }
    {
        let waiting = &self.offered.as_slice()[self.released..];
        if !self.rises {
            return give_each(need, noted, waiting, given);
        }
        let held = held_front(need, noted, waiting);
        if held == 0 {
            return Ok(0);
        }
        given.extend_from_slice(&waiting[..held])?;
        Ok(held)
    }

    /// Brings those that wait and are held before the others.
    fn bring_forward(&mut self, need: u8, noted: &[[Count; HART_ROW]; KEEPER_ROW])
        ensures { self.new ≡ record self.old {
          waiting = filter (is_held need noted.now) self.old.waiting ++ filter (is_not_held need noted.now) self.old.waiting;
        } }
    {
        if self.rises {
            return;
        }
        bring_held(
            need,
            noted,
            &mut self.offered.as_mut_slice()[self.released..],
        );
    }

    /// The outputs that are held, of which there are so many, wait no more: they went out.
    pub(crate) fn advance(&mut self, need: u8, noted: &[[Count; HART_ROW]; KEEPER_ROW], held: usize)
        requires { held ≡ length (filter (is_held need noted.now) self.old.waiting) }
        ensures { self.new ≡ after_release need noted.now self.old }
    {
        self.bring_forward(need, noted);
        self.released += held;
    }
}
