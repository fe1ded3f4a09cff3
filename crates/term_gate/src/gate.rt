//! The gate.

ghost use Rattle.std.specs.Prelude.{◌≡◌, ◌≢◌, ◌↔◌, ℕ, ◌<◌, ◌≤◌, ◌++◌, ◌∷◌, [], Err, length, replicate, slice_index, slice_set, IfOk, IfErr, OnOk, OnErr};
ghost use Rattle.ft_types.specs.declared.names.TheConstants.{HART_LIMIT, HART_ROW, KEEPER_LIMIT};
ghost use Rattle.output_gate.specs.Gates.{fresh_line, with_offer, noted_at, line_of, offered_of, kept_count, waiting_count, held_outputs, after_release};
ghost use Rattle.output_gate.specs.Orders.{RiseByHart, AreAbove, ArePassedBelow};
ghost use Rattle.ft_types.specs.Counts.{count_at};
ghost use Rattle.term_gate.specs.TermGates.{acked_at, AreAcked};

use crate::acked::{no_rows, note_all};
use ack_core::AckFault;
use ft_types::{Counts, Hart, Keeper, Memory, Position, Term};
use output_gate::{Gate, Output};
use std::alloc::Global;
use std::marker::Model;
use std::result::Result;

/// The gate of a term, and what each of its keepers acknowledged last: a count for each hart.
///
/// Contracts see the gate, and by keeper and hart the count that was acknowledged last.
pub struct TermGate {
    term: Term,
    harts: u8,
    acked: Vec<Counts>,
    gate: Gate,
}

impl Drop for TermGate {
    fn drop(self) {
        let TermGate {
            term: _,
            harts: _,
            acked: _,
            gate: _,
        } = self;
    }
}

impl Model for TermGate {
    ghost use Rattle.term_gate.specs.TermGates.{TermGateView, IsTermGate};

    ghost Value = { TermGateView };

    ghost view = { λ g. record { harts = g.harts; acked = g.acked.items; gate = g.gate } };

    ghost invariant = { λ g. IsTermGate g.term g.harts g.acked.items g.gate };
}

impl TermGate {
    /// A gate to which nothing was offered and at which nothing is noted, and whose keepers acknowledged nothing. Outputs with
    /// numbers below their hart's mark are never released.
    pub fn new(
        alloc: Global,
        term: Term,
        harts: u8,
        keepers: u8,
        need: u8,
        marks: &Counts,
    ) -> Result<TermGate, Memory>
        requires harts { (0 < harts) × (harts ≤ HART_LIMIT) }
        requires quorum { (0 < need) × (need ≤ keepers) × (keepers ≤ KEEPER_LIMIT) }
        ensures harts { IfOk result (λ g. g.harts ≡ harts) }
        ensures parts { IfOk result (λ g. (g.gate.term ≡ term) × (g.gate.keepers ≡ keepers) × (g.gate.need ≡ need)) }
        ensures acked { IfOk result (λ g. g.acked ≡ replicate keepers (replicate harts 0)) }
        ensures noted { IfOk result (λ g. (keeper hart : ℕ) → noted_at g.gate keeper hart ≡ 0) }
        ensures lines { IfOk result (λ g. (hart : ℕ) → line_of g.gate hart ≡ fresh_line (count_at marks.now hart)) }
    {
        let acked = no_rows(alloc, keepers, harts)?;
        Ok(TermGate {
            term,
            harts,
            acked,
            gate: Gate::new_after(alloc, term, keepers, need, marks),
        })
    }

    /// The keeper acknowledges its store's position: a count for each hart. Where it is refused, nothing is acknowledged.
    pub fn acknowledge(&mut self, keeper: Keeper, position: &Position) -> Result<(), AckFault>
        requires keeper { keeper < self.old.gate.keepers }
        requires harts { length position.now.counts ≡ self.old.harts }
        ensures acked { OnOk result (self.new ≡ record self.old { acked = slice_set self.old.acked keeper position.now.counts }) }
        ensures term { OnOk result (position.now.term ≡ self.old.gate.term) }
        ensures no_lower { OnOk result ((hart : ℕ) → hart < self.old.harts → acked_at self.old keeper hart ≤ slice_index position.now.counts hart) }
        ensures other_term { (result ≡ Err AckFault.OtherTerm) ↔ (position.now.term ≢ self.old.gate.term) }
        ensures lower { IfErr result (λ fault. fault ≡ AckFault.Lower →
            (hart : ℕ) × (hart < self.old.harts) × (slice_index position.now.counts hart < acked_at self.old keeper hart)) }
        ensures kept { OnErr result (self.new ≡ self.old) }
    {
        if position.term != self.term {
            return Err(AckFault::OtherTerm);
        }
        let row = keeper.index();
        if !self.acked[row].within(position.counts) {
            return Err(AckFault::Lower);
        }
        self.acked[row] = position.counts;
        Ok(())
    }

    /// How many outputs of the hart were offered.
    pub fn offered(&self, hart: Hart) -> usize
        ensures number { result ≡ length (offered_of self.now.gate hart) }
        ensures harts { length self.now.gate.lines ≡ HART_ROW }
        ensures passed { ArePassedBelow self.now.gate }
    {
        self.gate.offered(hart)
    }

    /// Takes a hart's next output.
    pub fn offer(&mut self, output: Output) -> Result<(), Memory>
        requires number { output.number ≡ length (offered_of self.old.gate output.hart) }
        ensures line { OnOk result (line_of self.new.gate output.hart ≡ with_offer (line_of self.old.gate output.hart) output) }
        ensures offered { OnOk result (offered_of self.new.gate output.hart ≡ offered_of self.old.gate output.hart ++ output ∷ []) }
        ensures others { (hart : ℕ) → hart ≢ output.hart → line_of self.new.gate hart ≡ line_of self.old.gate hart }
        ensures rest { self.new ≡ record self.old { gate = record self.old.gate { lines = self.new.gate.lines } } }
        ensures err { OnErr result (self.new ≡ self.old) }
    {
        self.gate.offer(output)
    }

    /// How many outputs were offered and not released.
    pub fn kept(&self) -> usize
        ensures { result ≡ kept_count self.now.gate.lines }
    {
        self.gate.kept()
    }

    /// How many outputs wait: those that were offered and not released, but for those that are passed over.
    pub fn waiting(&self) -> usize
        ensures { result ≡ waiting_count self.now.gate.lines }
    {
        self.gate.waiting()
    }

    /// Releases the outputs whose step enough keepers acknowledged, by hart, then number.
    pub fn release(&mut self, alloc: Global) -> Result<Vec<Output>, Memory>
        ensures acked { AreAcked self.old self.new.gate.noted }
        ensures given { IfOk result (λ given. given.items ≡ held_outputs self.old.gate.need self.new.gate.noted self.old.gate.lines) }
        ensures rising { IfOk result (λ given. RiseByHart given.items) }
        ensures above { IfOk result (λ given. AreAbove self.old.gate given.items) }
        ensures lines { OnOk result ((hart : ℕ) → hart < HART_LIMIT →
            line_of self.new.gate hart ≡ after_release self.old.gate.need self.new.gate.noted (line_of self.old.gate hart)) }
        ensures rest { self.new ≡ record self.old {
          gate = record self.old.gate { noted = self.new.gate.noted; lines = self.new.gate.lines };
        } }
        ensures err { OnErr result (self.new.gate.lines ≡ self.old.gate.lines) }
    {
        note_all(&mut self.gate, &self.acked);
        self.gate.release(alloc)
    }
}
