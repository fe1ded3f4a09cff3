//! Rows of what keepers acknowledged, and what is noted of them at a gate.

ghost use Rattle.std.specs.Prelude.{◌≡◌, ◌≢◌, ℕ, ◌<◌, ◌≤◌, [], length, replicate, slice_index_or, IfOk};
ghost use Rattle.ft_types.specs.declared.names.TheConstants.{HART_LIMIT, KEEPER_LIMIT};
ghost use Rattle.ft_types.specs.Counts.{count_at};
ghost use Rattle.output_gate.specs.Gates.{noted_at};

use ft_types::{Counts, Hart, Keeper, Memory};
use output_gate::Gate;
use std::alloc::Global;
use std::result::Result;

/// Of each keeper, a count of 0 for each hart.
pub(crate) fn no_rows(alloc: Global, keepers: u8, harts: u8) -> Result<Vec<Counts>, Memory>
    requires { harts ≤ HART_LIMIT }
    ensures { IfOk result (λ rows. rows.items ≡ replicate keepers (replicate harts 0)) }
{
    let mut rows = Vec::with_capacity(alloc, keepers as usize)?;
    for _keeper in 0..keepers {
        rows.push(Counts::zero(harts))?;
    }
    Ok(rows)
}

/// Notes each hart's count of one keeper.
fn note_row(gate: &mut Gate, keeper: Keeper, row: &Counts)
    requires keeper { keeper < gate.old.keepers }
    requires below { (hart : ℕ) → noted_at gate.old keeper hart ≤ count_at row.now hart }
    ensures noted { (hart : ℕ) → noted_at gate.new keeper hart ≡ count_at row.now hart }
    ensures others { (k hart : ℕ) → k ≢ keeper → noted_at gate.new k hart ≡ noted_at gate.old k hart }
    ensures rest { gate.new ≡ record gate.old { noted = gate.new.noted } }
{
    for number in 0..row.harts() {
        let hart = Hart::new(number);
        gate.note(keeper, hart, row.get(hart));
    }
}

/// Notes each count of each keeper.
pub(crate) fn note_all(gate: &mut Gate, rows: &[Counts])
    requires keepers { length rows.now ≡ gate.old.keepers }
    requires few { length rows.now ≤ KEEPER_LIMIT }
    requires below { (keeper hart : ℕ) → noted_at gate.old keeper hart ≤ count_at (slice_index_or rows.now keeper []) hart }
    ensures noted { (keeper hart : ℕ) → noted_at gate.new keeper hart ≡ count_at (slice_index_or rows.now keeper []) hart }
    ensures rest { gate.new ≡ record gate.old { noted = gate.new.noted } }
{
    for number in 0..rows.len() {
        note_row(gate, Keeper::new(number as u8), &rows[number]);
    }
}
