//! The inputs that were given, each at its count.

ghost use Rattle.std.specs.Prelude.{◌≡◌, ◌≢◌, ℕ, ◌+◌, ◌-◌, ◌<◌, ◌≤◌, ◌↔◌, ◌++◌, List, ◌∷◌, [], All, Any, length, map, take, zip, IsTrue, OnOk, OnErr, IfOk};
ghost use Rattle.std.specs.Prelude.{IfSome, IfNone};
ghost use Rattle.std.specs.List.Sorted.{IsNonDecreasing};
ghost use Rattle.input_log.specs.Inputs.{inputs_of, inputs_at, HearsMore, MayFollow, AreAddedTo};

use crate::Input;
use crate::row::Row;
use ft_types::{Count, HART_ROW, Hart, INPUT_LIMIT, Memory};
use std::alloc::Global;
use std::array;
use std::marker::Model;
use std::option::Option;
use std::result::Result;

/// The inputs of the harts of one machine, each at the count at which it is given.
///
/// Contracts see, for each hart, the list of its counts and inputs, by rising count.
pub struct InputLog {
    rows: [Row; HART_ROW],
}

impl Drop for InputLog {
    fn drop(self) {
        let InputLog { rows: _ } = self;
    }
}

impl Model for InputLog {
    ghost use Rattle.std.specs.Prelude.{◌≡◌, ℕ, List, length};
    ghost use Rattle.input_log.specs.declared.Input.{Input};
    ghost use Rattle.ft_types.specs.declared.names.TheConstants.{HART_ROW};

    ghost Value = { List (List (ℕ × Input)) };

    ghost view = { λ l. l.rows };

    ghost invariant = { λ l. length l.rows ≡ HART_ROW };
}

fn rows_copied(rows: &[Row; HART_ROW]) -> Result<[Row; HART_ROW], Memory>
    ensures { IfOk result (λ copied. copied ≡ rows.now) }
{
    let alloc = rows[0].allocator();
    let mut copied = array::from_fn(|_| Row::new(alloc));
    for hart in 0..HART_ROW {
        copied[hart] = rows[hart].copy()?;
    }
    Ok(copied)
}

impl InputLog {
    /// A log without inputs.
    pub fn new(alloc: Global) -> InputLog
        ensures { (hart : ℕ) → inputs_of result hart ≡ [] }
    {
        InputLog {
            rows: array::from_fn(|_| Row::new(alloc)),
        }
    }

    /// An equal log.
    pub fn copy(&self) -> Result<InputLog, Memory>
        ensures { IfOk result (λ log. log ≡ self.now) }
    {
        let rows = rows_copied(&self.rows)?;
        Ok(InputLog { rows })
    }

    /// Whether the logs are equal.
    pub fn same(&self, other: &InputLog) -> bool
        ensures { IsTrue result ↔ (self.now ≡ other.now) }
    {
        for hart in 0..HART_ROW {
            if !self.rows[hart].same(&other.rows[hart]) {
                return false;
            }
        }
        true
    }

    /// Whether the hart was given what the other log has of it, and more at this count and later ones alone.
    pub fn hears_more(&self, hart: Hart, count: Count, before: &InputLog) -> bool
        ensures { IsTrue result ↔ HearsMore (inputs_of before.now hart) count (inputs_of self.now hart) }
    {
        self.rows[hart.index()].hears_more(count, &before.rows[hart.index()])
    }

    /// All counts of a hart's inputs, and the input at each.
    pub fn of_hart(&self, hart: Hart) -> (&[Count], &[Input])
        ensures value { zip result.0.now result.1.now ≡ inputs_of self.now hart }
        ensures paired { length result.1.now ≡ length result.0.now }
        ensures rising { IsNonDecreasing result.0.now }
        ensures few { (n : ℕ) → length (inputs_at (inputs_of self.now hart) n) ≤ INPUT_LIMIT }
        ensures rows { length self.now ≡ HART_ROW }
    {
        self.rows[hart.index()].columns()
    }

    /// The inputs of a hart at a count, in their order.
    pub fn at(&self, hart: Hart, count: Count) -> &[Input]
        ensures value { result.now ≡ inputs_at (inputs_of self.now hart) count }
        ensures few { length result.now ≤ INPUT_LIMIT }
    {
        self.rows[hart.index()].at(count)
    }

    /// The first count, from this one on, at which the hart has an input.
    pub fn next(&self, hart: Hart, count: Count) -> Option<Count>
        ensures found { IfSome result (λ n. (count ≤ n) × Any (λ x. x.0 ≡ n) (inputs_of self.now hart)) }
        ensures first { IfSome result (λ n. All (λ x. count ≤ x.0 → n ≤ x.0) (inputs_of self.now hart)) }
        ensures none { IfNone result (All (λ x. x.0 < count) (inputs_of self.now hart)) }
    {
        self.rows[hart.index()].next(count)
    }

    /// Whether an input may be added: at no count before that of the hart's last, and where fewer than `INPUT_LIMIT` are.
    pub fn may_add(&self, hart: Hart, count: Count) -> bool
        ensures { IsTrue result ↔ MayFollow (inputs_of self.now hart) count }
    {
        self.rows[hart.index()].may_add(count)
    }

    /// Adds an input, behind the others of its hart.
    pub fn add(&mut self, hart: Hart, count: Count, input: Input) -> Result<(), Memory>
        requires { MayFollow (inputs_of self.old hart) count }
        ensures added { OnOk result (inputs_of self.new hart ≡ inputs_of self.old hart ++ (count, input) ∷ []) }
        ensures others_kept { (other : ℕ) → other ≢ hart → inputs_of self.new other ≡ inputs_of self.old other }
        ensures kept { OnErr result (self.new ≡ self.old) }
    {
        let row = &mut self.rows[hart.index()];
        row.add(count, input)
    }

    /// Adds inputs at one count, in their order, behind the others of their hart, or none of them.
    pub fn add_all(&mut self, hart: Hart, count: Count, inputs: &[Input]) -> Result<(), Memory>
        requires last { All (λ x. x.0 ≤ count) (inputs_of self.old hart) }
        requires room { length (inputs_at (inputs_of self.old hart) count) + length inputs.now ≤ INPUT_LIMIT }
        ensures added { OnOk result (inputs_of self.new hart ≡ inputs_of self.old hart ++ map (λ i. (count, i)) inputs.now) }
        ensures others_kept { (other : ℕ) → other ≢ hart → inputs_of self.new other ≡ inputs_of self.old other }
        ensures kept { OnErr result (self.new ≡ self.old) }
        ensures harts { length self.old ≡ HART_ROW }
    {
        let row = &mut self.rows[hart.index()];
        row.add_all(count, inputs)
    }

    /// Drops the last inputs of a hart: so many, or all where there are fewer.
    pub fn take_back(&mut self, hart: Hart, many: usize)
        ensures left { inputs_of self.new hart ≡ take (length (inputs_of self.old hart) - many) (inputs_of self.old hart) }
        ensures others_kept { (other : ℕ) → other ≢ hart → inputs_of self.new other ≡ inputs_of self.old other }
        // Whatever log so many were added to, this is that log again.
        ensures back { (before : List (List (ℕ × Input))) → (added : List (ℕ × Input)) → length added ≡ many → AreAddedTo before hart added self.old →
            self.new ≡ before }
    {
        let row = &mut self.rows[hart.index()];
        row.take_back(many);
    }
}
