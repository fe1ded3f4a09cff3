//! The inputs that were offered to a hart.

ghost use Rattle.std.specs.Prelude.{◌≡◌, ◌↔◌, ◌<◌, ℕ, ◌++◌, Some, [], length, zip, IsTrue, IfNone};
ghost use Rattle.std.specs.Option.{option_to_list};
ghost use Rattle.input_log.specs.Alike.{same_input};
ghost use Rattle.input_log.specs.Inputs.{inputs_of};
ghost use Rattle.input_log.specs.Offers.{all_offers, AreKept, but_bells, IsKept};
ghost use Rattle.input_log.specs.Waiting.{others_of};
ghost use Rattle.input_log.specs.declared.offered.Offer.{Offer as offer_of_specs};

use crate::{Desk, Input, InputLog, WaitingInput};
use ft_types::{Count, HART_ROW, Hart};
use std::collections::VecDeque;
use std::marker::Model;

/// An input that was offered to a hart.
#[derive(Clone, Copy)]
pub struct Offer {
    /// Whether it waits.
    pub waits: bool,
    /// The count at which it was given or is due, or the least at which it may be given.
    pub count: Count,
    /// What is given.
    pub input: Input,
}

/// The inputs that were offered to a hart, in their order: those that it was given, those that are due to it and those that wait.
#[derive(Drop)]
pub struct Offered<'a> {
    counts: &'a [Count],
    given: &'a [Input],
    // The count of the hart, at which it is given what is due.
    settled: Count,
    due: &'a [Input],
    waiting: &'a VecDeque<WaitingInput>,
    // How many of those that wait have been passed.
    passed: usize,
}

impl<'a> Model for Offered<'a> {
    ghost use Rattle.std.specs.Prelude.{List, zip, drop};
    ghost use Rattle.input_log.specs.Offers.{all_offers};
    ghost use Rattle.input_log.specs.declared.offered.Offer.{Offer};

    ghost Value = { List Offer };

    ghost view = { λ o. all_offers (zip o.counts.now o.given.now) o.settled o.due.now (drop o.passed o.waiting.now.items) };
}

fn same_input(input: &Input, other: &Input) -> bool
    ensures { result ≡ same_input input.now other.now }
{
    input == other
}

/// Whether the second is what became of the first.
fn is_kept(old: &Offer, new: &Offer) -> bool
    ensures { IsTrue result ↔ IsKept old.now new.now }
{
    if !same_input(&new.input, &old.input) || new.count < old.count {
        return false;
    }
    !new.waits || (old.waits && new.count == old.count)
}

/// Takes the first of a list.
fn pop<'a>(inputs: &mut &'a [Input]) -> Option<Input>
    ensures first { inputs.old.now ≡ option_to_list result ++ inputs.new.now }
    ensures none { IfNone result (inputs.new.now ≡ []) }
{
    let all = *inputs;
    match all.first() {
        Some(first) => {
            *inputs = &all[1..];
            Some(*first)
        }
        None => None,
    }
}

/// Takes the first of two lists that go side by side.
fn pop_both<'a>(counts: &mut &'a [Count], inputs: &mut &'a [Input]) -> Option<(Count, Input)>
    ensures first { zip counts.old.now inputs.old.now ≡ option_to_list result ++ zip counts.new.now inputs.new.now }
    ensures none { IfNone result (zip counts.new.now inputs.new.now ≡ []) }
{
    let all = *counts;
    let count = *all.first()?;
    let input = pop(inputs)?;
    *counts = &all[1..];
    Some((count, input))
}

impl<'a> Offered<'a> {
    /// Those of a log, those that are due at this count and those of a desk.
    pub fn new(
        log: &'a InputLog,
        settled: Count,
        due: &'a [Input],
        desk: &'a Desk,
        hart: Hart,
    ) -> Offered<'a>
        ensures log_rows { length log.now ≡ HART_ROW }
        ensures desk_rows { length desk.now ≡ HART_ROW }
        ensures value { result ≡ all_offers (inputs_of log.now hart) settled due.now (others_of desk.now hart) }
    {
        let (counts, given) = log.of_hart(hart);
        Offered {
            counts,
            given,
            settled,
            due,
            waiting: desk.others(hart),
            passed: 0,
        }
    }

    /// Takes the first.
    fn pop(&mut self) -> Option<Offer>
        ensures first { self.old ≡ option_to_list result ++ self.new }
        ensures none { IfNone result (self.new ≡ []) }
    {
        let settled = self.settled;
        if let Some((count, input)) = pop_both(&mut self.counts, &mut self.given) {
            return Some(Offer {
                waits: false,
                count,
                input,
            });
        }
        if let Some(input) = pop(&mut self.due) {
            return Some(Offer {
                waits: false,
                count: settled,
                input,
            });
        }
        let first = self.waiting.get(self.passed)?;
        self.passed += 1;
        Some(Offer {
            waits: true,
            count: first.not_before,
            input: first.input,
        })
    }

    /// Takes the first that is no bell, and what is before it.
    fn next(&mut self) -> Option<Offer>
        ensures next { but_bells self.old ≡ option_to_list result ++ but_bells self.new }
        ensures none { IfNone result (self.new ≡ []) }
        ensures fewer { (o : offer_of_specs) → result ≡ Some o → length self.new < length self.old }
    {
        while let Some(offer) = self.pop() {
            if !offer.input.is_bell() {
                return Some(offer);
            }
        }
        None
    }

    /// Whether these are what became of those of an earlier time, bells aside.
    pub fn keeps(self, earlier: Offered<'a>) -> bool
        ensures { IsTrue result ↔ AreKept (but_bells earlier.entry) (but_bells self.entry) }
    {
        let mut mine = self;
        let mut theirs = earlier;
        while let Some(offer) = mine.next() {
            match theirs.next() {
                Some(old) if is_kept(&old, &offer) => {}
                _ => return false,
            }
        }
        theirs.next().is_none()
    }
}
