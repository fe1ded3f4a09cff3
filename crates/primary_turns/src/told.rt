//! Which answers were told last.

ghost use Rattle.std.specs.Prelude.{◌≡◌, ◌↔◌, replicate, slice_set, None, Some, IfOk, IsTrue};
ghost use Rattle.ft_types.specs.declared.names.TheConstants.{HART_ROW};
ghost use Rattle.primary_turns.specs.Deeds.{IsBehindLast};

use ft_types::{Count, HART_ROW, Hart, Memory, Output};
use std::alloc::Global;
use std::marker::Model;
use std::option::Option;
use std::result::Result;

/// Which answers were told last. Contracts see for each hart the number of its last one.
#[derive(Drop)]
pub(crate) struct Told {
    /// For each hart the number of its answer that was told last; none before the first.
    numbers: Vec<Option<Count>>,
    /// The hart whose answer was told last of all.
    last: Option<Hart>,
}

impl Model for Told {
    ghost use Rattle.std.specs.Prelude.{ℕ, List, Option};

    ghost Value = { List (Option ℕ) };

    ghost view = { λ t. t.numbers.items };
}

impl Told {
    /// None was told.
    pub(crate) fn new(alloc: Global) -> Result<Told, Memory>
        ensures { IfOk result (λ told. told ≡ replicate HART_ROW None) }
    {
        Ok(Told {
            numbers: vec![in alloc; None; HART_ROW]?,
            last: None,
        })
    }

    /// Notes that an output is told.
    pub(crate) fn note(&mut self, output: &Output)
        ensures { self.new ≡ slice_set self.old output.now.hart (Some output.now.number) }
    {
        let index = output.hart.index();
        if index < self.numbers.len() {
            self.numbers[index] = Some(output.number);
        }
        self.last = Some(output.hart);
    }

    /// Whether this is the number behind that of the hart's answer that was told last.
    pub(crate) fn is_behind(&self, hart: Hart, number: Count) -> bool
        ensures { IsTrue result ↔ IsBehindLast self.now hart number }
    {
        match self.numbers.get(hart.index()) {
            Some(Some(last)) => number > 0 && number - 1 == *last,
            _ => false,
        }
    }

    /// Whether an answer of this hart was told last of all.
    pub(crate) fn is_last(&self, hart: Hart) -> bool {
        self.last == Some(hart)
    }
}
