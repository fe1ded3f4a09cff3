//! The inputs of one hart.

ghost use Rattle.std.specs.Prelude.{◌≡◌, ℕ, ◌+◌, ◌-◌, ◌<◌, ◌≤◌, ◌↔◌, ◌++◌, ◌∷◌, [], All, Any, length, map, replicate, take, zip, IsTrue, OnOk, OnErr, IfOk};
ghost use Rattle.std.specs.Prelude.{IfSome, IfNone};
ghost use Rattle.std.specs.Cmp.Lexicographic.{pointwise};
ghost use Rattle.std.specs.List.{AllWithin};
ghost use Rattle.std.specs.List.Sorted.{IsNonDecreasing};
ghost use Rattle.input_log.specs.Alike.{same_input};
ghost use Rattle.input_log.specs.Inputs.{inputs_at, HearsMore, MayFollow};

use crate::Input;
use ft_types::{Count, INPUT_LIMIT, Memory, same_counts};
use std::alloc::Global;
use std::marker::Model;
use std::option::Option;
use std::result::Result;

/// The inputs of one hart, by rising count.
#[derive(Drop)]
pub(crate) struct Row {
    // The count of each input.
    counts: Vec<Count>,
    inputs: Vec<Input>,
}

impl Model for Row {
    ghost use Rattle.std.specs.Prelude.{ℕ, List, zip};
    ghost use Rattle.input_log.specs.declared.Input.{Input};
    ghost use Rattle.input_log.specs.Inputs.{IsRow};

    ghost Value = { List (ℕ × Input) };

    ghost view = { λ r. zip r.counts.items r.inputs.items };

    ghost invariant = { λ r. IsRow r.counts.items r.inputs.items };
}

/// Where the inputs of this count and later ones begin.
fn first_from(counts: &[Count], count: Count) -> usize
    requires { IsNonDecreasing counts.now }
    ensures within { result ≤ length counts.now }
    ensures before { AllWithin (λ n. n < count) counts.now 0 result }
    ensures from { AllWithin (λ n. count ≤ n) counts.now result (length counts.now) }
{
    counts.partition_point(|n| *n < count)
}

/// Where the inputs of later counts begin.
fn first_after(counts: &[Count], count: Count) -> usize
    requires { IsNonDecreasing counts.now }
    ensures within { result ≤ length counts.now }
    ensures upto { AllWithin (λ n. n ≤ count) counts.now 0 result }
    ensures after { AllWithin (λ n. count < n) counts.now result (length counts.now) }
{
    counts.partition_point(|n| *n <= count)
}

/// Puts a count and an input at the back, both or neither.
fn push_both(
    counts: &mut Vec<Count>,
    inputs: &mut Vec<Input>,
    count: Count,
    input: Input,
) -> Result<(), Memory>
    ensures counts { OnOk result (counts.new.items ≡ counts.old.items ++ count ∷ []) }
    ensures inputs { OnOk result (inputs.new.items ≡ inputs.old.items ++ input ∷ []) }
    ensures counts_kept { OnErr result (counts.new.items ≡ counts.old.items) }
    ensures inputs_kept { OnErr result (inputs.new.items ≡ inputs.old.items) }
{
    inputs.push(input)?;
    match counts.push(count) {
        Ok(()) => Ok(()),
        Err(_) => {
            inputs.pop();
            Err(Memory)
        }
    }
}

/// Puts inputs at the back, all at one count, or none of them.
fn push_all(
    counts: &mut Vec<Count>,
    inputs: &mut Vec<Input>,
    count: Count,
    more: &[Input],
) -> Result<(), Memory>
    requires paired { length inputs.old.items ≡ length counts.old.items }
    ensures counts { OnOk result (counts.new.items ≡ counts.old.items ++ replicate (length more.now) count) }
    ensures inputs { OnOk result (inputs.new.items ≡ inputs.old.items ++ more.now) }
    ensures counts_kept { OnErr result (counts.new.items ≡ counts.old.items) }
    ensures inputs_kept { OnErr result (inputs.new.items ≡ inputs.old.items) }
{
    inputs.extend_from_slice(more)?;
    match counts.resize(inputs.len(), count) {
        Ok(()) => Ok(()),
        Err(_) => {
            inputs.truncate(counts.len());
            Err(Memory)
        }
    }
}

fn counts_copied(counts: &Vec<Count>) -> Result<Vec<Count>, Memory>
    ensures { IfOk result (λ copied. copied.items ≡ counts.now.items) }
{
    Ok(counts.clone()?)
}

fn inputs_copied(inputs: &Vec<Input>) -> Result<Vec<Input>, Memory>
    ensures { IfOk result (λ copied. copied.items ≡ inputs.now.items) }
{
    Ok(inputs.clone()?)
}

fn same_inputs(inputs: &[Input], others: &[Input]) -> bool
    ensures { result ≡ pointwise same_input inputs.now others.now }
{
    inputs == others
}

/// Whether each count is this one or a later one.
fn all_from(counts: &[Count], count: Count) -> bool
    ensures { IsTrue result ↔ All (λ n. count ≤ n) counts.now }
{
    for n in counts {
        if *n < count {
            return false;
        }
    }
    true
}

impl Row {
    /// A row without inputs.
    pub(crate) fn new(alloc: Global) -> Row
        ensures { result ≡ [] }
    {
        Row {
            counts: Vec::new(alloc),
            inputs: Vec::new(alloc),
        }
    }

    /// Where its inputs lie.
    pub(crate) fn allocator(&self) -> Global {
        *self.counts.allocator()
    }

    /// An equal row.
    pub(crate) fn copy(&self) -> Result<Row, Memory>
        ensures { IfOk result (λ r. r ≡ self.now) }
    {
        let counts = counts_copied(&self.counts)?;
        let inputs = inputs_copied(&self.inputs)?;
        Ok(Row { counts, inputs })
    }

    /// Whether the rows are equal.
    pub(crate) fn same(&self, other: &Row) -> bool
        ensures { IsTrue result ↔ (self.now ≡ other.now) }
    {
        same_counts(self.counts.as_slice(), other.counts.as_slice())
            && same_inputs(self.inputs.as_slice(), other.inputs.as_slice())
    }

    /// Whether it has the other's inputs, and more of this count and later ones alone.
    pub(crate) fn hears_more(&self, count: Count, before: &Row) -> bool
        ensures { IsTrue result ↔ HearsMore before.now count self.now }
    {
        let (counts, inputs) = self.columns();
        let (first_counts, first_inputs) = before.columns();
        let kept = first_counts.len();
        if kept > counts.len() {
            return false;
        }
        if !same_counts(&counts[..kept], first_counts) {
            return false;
        }
        same_inputs(&inputs[..kept], first_inputs) && all_from(&counts[kept..], count)
    }

    /// All counts, and the input of each.
    pub(crate) fn columns(&self) -> (&[Count], &[Input])
        ensures value { zip result.0.now result.1.now ≡ self.now }
        ensures paired { length result.1.now ≡ length result.0.now }
        ensures rising { IsNonDecreasing result.0.now }
        ensures few { (n : ℕ) → length (inputs_at self.now n) ≤ INPUT_LIMIT }
    {
        (self.counts.as_slice(), self.inputs.as_slice())
    }

    /// The inputs of a count.
    pub(crate) fn at(&self, count: Count) -> &[Input]
        ensures value { result.now ≡ inputs_at self.now count }
        ensures few { length result.now ≤ INPUT_LIMIT }
    {
        let (counts, inputs) = self.columns();
        let first = first_from(counts, count);
        let rest = &inputs[first..];
        &rest[..first_after(&counts[first..], count)]
    }

    /// The first count, from this one on, that has an input.
    pub(crate) fn next(&self, count: Count) -> Option<Count>
        ensures found { IfSome result (λ n. (count ≤ n) × Any (λ x. x.0 ≡ n) self.now) }
        ensures first { IfSome result (λ n. All (λ x. count ≤ x.0 → n ≤ x.0) self.now) }
        ensures none { IfNone result (All (λ x. x.0 < count) self.now) }
    {
        let (counts, _) = self.columns();
        let place = first_from(counts, count);
        if place < counts.len() {
            Some(counts[place])
        } else {
            None
        }
    }

    /// Whether no input is of a later count.
    fn ends_by(&self, count: Count) -> bool
        ensures { IsTrue result ↔ All (λ x. x.0 ≤ count) self.now }
    {
        let (counts, _) = self.columns();
        if counts.len() == 0 {
            return true;
        }
        counts[counts.len() - 1] <= count
    }

    /// Whether an input at this count may be added.
    pub(crate) fn may_add(&self, count: Count) -> bool
        ensures { IsTrue result ↔ MayFollow self.now count }
    {
        self.ends_by(count) && self.at(count).len() < INPUT_LIMIT
    }

    /// Adds an input at the back.
    pub(crate) fn add(&mut self, count: Count, input: Input) -> Result<(), Memory>
        requires { MayFollow self.old count }
        ensures ok { OnOk result (self.new ≡ self.old ++ (count, input) ∷ []) }
        ensures err { OnErr result (self.new ≡ self.old) }
    {
        push_both(&mut self.counts, &mut self.inputs, count, input)?;
        Ok(())
    }

    /// Adds inputs of one count at the back, or none of them.
    pub(crate) fn add_all(&mut self, count: Count, inputs: &[Input]) -> Result<(), Memory>
        requires last { All (λ x. x.0 ≤ count) self.old }
        requires room { length (inputs_at self.old count) + length inputs.now ≤ INPUT_LIMIT }
        ensures ok { OnOk result (self.new ≡ self.old ++ map (λ i. (count, i)) inputs.now) }
        ensures err { OnErr result (self.new ≡ self.old) }
    {
        push_all(&mut self.counts, &mut self.inputs, count, inputs)?;
        Ok(())
    }

    /// Drops the last inputs: so many, or all where there are fewer.
    pub(crate) fn take_back(&mut self, many: usize)
        ensures { self.new ≡ take (length self.old - many) self.old }
    {
        let left = self.counts.len().saturating_sub(many);
        self.counts.truncate(left);
        self.inputs.truncate(left);
    }
}
