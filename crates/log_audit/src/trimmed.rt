//! Rows of one count a hart that take no more room than their harts.

ghost use Rattle.std.specs.Prelude.{◌≡◌, ◌<◌, ◌≤◌, ℕ, length, replicate, slice_index, slice_set, IfOk, OnOk, OnErr};
ghost use Rattle.ft_types.specs.declared.names.TheConstants.{HART_LIMIT};
ghost use Rattle.log_audit.specs.machinery.Widened.{widened};

use ft_types::{Count, HART_ROW, Hart, Memory};
use std::alloc::Global;
use std::marker::Model;

/// One count per hart.
pub(crate) type Row = [Count; HART_ROW];

/// Of each hart, a count of 0.
pub(crate) fn no_steps() -> Row
    ensures { result ≡ replicate HART_ROW 0 }
{
    [0; HART_ROW]
}

/// One count per hart, with room for those up to the last that has one. Behind them each has a count of 0.
#[derive(Drop)]
pub(crate) struct TrimmedRow {
    counts: Vec<Count>,
}

impl Model for TrimmedRow {
    ghost use Rattle.std.specs.Prelude.{List, ℕ, length, ◌≤◌};
    ghost use Rattle.ft_types.specs.declared.names.TheConstants.{HART_ROW};
    ghost use Rattle.log_audit.specs.machinery.Widened.{widened};

    ghost Value = { List ℕ };

    ghost view = { λ r. widened r.counts.items };

    ghost invariant = { λ r. length r.counts.items ≤ HART_ROW };
}

/// How many harts have to be named: behind them each has a count of 0.
fn reach_of(row: &Row) -> usize
    ensures few { result ≤ HART_ROW }
    ensures rest { (hart : ℕ) → result ≤ hart → slice_index row.now hart ≡ 0 }
{
    let mut reach = HART_ROW;
    while reach > 0 {
        if row[reach - 1] > 0 {
            break;
        }
        reach -= 1;
    }
    reach
}

/// Sees to it that so many harts have a place.
fn widen(counts: &mut Vec<Count>, harts: usize) -> Result<(), Memory>
    requires few { harts ≤ HART_ROW }
    requires limit { length counts.old.items ≤ HART_ROW }
    ensures limit { length counts.new.items ≤ HART_ROW }
    ensures same { widened counts.new.items ≡ widened counts.old.items }
    ensures room { OnOk result (harts ≤ length counts.new.items) }
{
    if counts.len() < harts {
        counts.resize(harts, 0)?;
    }
    Ok(())
}

impl TrimmedRow {
    /// Of each hart, a count of 0.
    pub(crate) fn none(alloc: Global) -> TrimmedRow
        ensures { result ≡ replicate HART_ROW 0 }
    {
        TrimmedRow {
            counts: Vec::new(alloc),
        }
    }

    /// The row's counts.
    pub(crate) fn of(alloc: Global, row: &Row) -> Result<TrimmedRow, Memory>
        ensures { IfOk result (λ r. r ≡ row.now) }
    {
        let reach = reach_of(row);
        let mut counts = Vec::with_capacity(alloc, reach)?;
        for hart in 0..reach {
            counts.push(row[hart])?;
        }
        Ok(TrimmedRow { counts })
    }

    /// The counts as a row.
    pub(crate) fn row(&self) -> Row
        ensures { result ≡ self.now }
    {
        let mut row = no_steps();
        for hart in 0..self.counts.len() {
            row[hart] = self.counts[hart];
        }
        row
    }

    /// How many harts have room.
    pub(crate) fn reach(&self) -> u8
        ensures few { result ≤ HART_LIMIT }
        ensures rest { (hart : ℕ) → result ≤ hart → slice_index self.now hart ≡ 0 }
        ensures row { length self.now ≡ HART_ROW }
    {
        self.counts.len() as u8
    }

    /// The hart's count.
    pub(crate) fn count(&self, hart: Hart) -> Count
        ensures { result ≡ slice_index self.now hart }
    {
        match self.counts.get(hart.index()) {
            Some(count) => *count,
            None => 0,
        }
    }

    /// Puts this count in the hart's place.
    pub(crate) fn put(&mut self, hart: Hart, count: Count) -> Result<(), Memory>
        ensures put { OnOk result (self.new ≡ slice_set self.old hart count) }
        ensures kept { OnErr result (self.new ≡ self.old) }
    {
        widen(&mut self.counts, hart.index() + 1)?;
        self.counts[hart.index()] = count;
        Ok(())
    }
}
