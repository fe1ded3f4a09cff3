//! The gate.

ghost use Rattle.std.specs.Prelude.{◌≡◌, ◌≢◌, ◌↔◌, ◌⊎◌, ℕ, ◌+◌, ◌<◌, ◌≤◌, ◌++◌, ◌∷◌, [], max, filter, count_by, length, replicate, slice_index, slice_index_or, IfOk};
ghost use Rattle.std.specs.Prelude.{OnOk, OnErr};
ghost use Rattle.std.specs.List.{AllByRecursion};
ghost use Rattle.std.specs.List.Sorted.{IsPermutation};
ghost use Rattle.ft_types.specs.declared.names.TheConstants.{HART_LIMIT, KEEPER_LIMIT};
ghost use Rattle.ft_types.specs.Counts.{count_at};
ghost use Rattle.ft_types.specs.Sets.{IsMember};
ghost use Rattle.output_gate.specs.Gates.{LineView, fresh_line, with_offer, noted_at, line_of, offered_of, holder_count, after_release, held_outputs};
ghost use Rattle.output_gate.specs.Gates.{is_held, kept_count, waiting_count};
ghost use Rattle.output_gate.specs.Orders.{StepsRise, RiseByHart, AreAbove, AreEarlier, ArePassedBelow, IsNext, IsLineOf};

use crate::line::Line;
use crate::notes::keepers_counted;
use ft_types::{
    Count, Counts, HART_ROW, Hart, KEEPER_ROW, Keeper, KeeperSet, Memory, Output, Term,
};
use std::alloc::Global;
use std::array;
use std::marker::Model;
use std::result::Result;

/// Holds outputs back until enough keepers hold their steps.
///
/// Contracts see the counts that were noted of each keeper, and the outputs of each hart: those that are passed over, since they are
/// known to be out, those that went out, and those that wait.
pub struct Gate {
    term: Term,
    keepers: u8,
    need: u8,
    noted: [[Count; HART_ROW]; KEEPER_ROW],
    lines: [Line; HART_ROW],
}

impl Drop for Gate {
    fn drop(self) {
        let Gate {
            term: _,
            keepers: _,
            need: _,
            noted: _,
            lines: _,
        } = self;
    }
}

impl Model for Gate {
    ghost use Rattle.output_gate.specs.Gates.{GateView};
    ghost use Rattle.output_gate.specs.machinery.Lines.{IsGate};

    ghost Value = { GateView };

    ghost view = { λ g. record { term = g.term; keepers = g.keepers; need = g.need; noted = g.noted; lines = g.lines } };

    ghost invariant = { λ g. IsGate g.keepers g.need g.noted g.lines };
}

/// How many outputs were offered and have not gone out.
fn kept_in(lines: &[Line; HART_ROW]) -> usize
    ensures { result ≡ kept_count lines.now }
{
    let mut kept = 0usize;
    for hart in 0..HART_ROW {
        kept += lines[hart].kept();
    }
    kept
}

/// How many outputs wait.
fn waiting_in(lines: &[Line; HART_ROW]) -> usize
    ensures { result ≡ waiting_count lines.now }
{
    let mut waiting = 0usize;
    for hart in 0..HART_ROW {
        waiting += lines[hart].waiting();
    }
    waiting
}

/// Adds the outputs that are held, by hart, then number, and says how many they are of each hart.
fn give_all(
    need: u8,
    noted: &[[Count; HART_ROW]; KEEPER_ROW],
    lines: &[Line; HART_ROW],
    given: &mut Vec<Output>,
) -> Result<[usize; HART_ROW], Memory>
    ensures given { OnOk result (given.new.items ≡ given.old.items ++ held_outputs need noted.now lines.now) }
    ensures number { IfOk result (λ held. (hart : ℕ) (other : LineView) → hart < HART_LIMIT →
        slice_index held hart ≡ length (filter (is_held need noted.now) (slice_index_or lines.now hart other).waiting)) }
{
    let mut held = [0usize; HART_ROW];
    for hart in 0..HART_ROW {
        held[hart] = lines[hart].give(need, noted, given)?;
    }
    Ok(held)
}

/// The outputs that are held, of which there are so many of each hart, wait no more: they went out.
fn advance_all(
    need: u8,
    noted: &[[Count; HART_ROW]; KEEPER_ROW],
    lines: &mut [Line; HART_ROW],
    held: [usize; HART_ROW],
)
    requires { (hart : ℕ) (other : LineView) → hart < HART_LIMIT →
        slice_index held hart ≡ length (filter (is_held need noted.now) (slice_index_or lines.old hart other).waiting) }
    ensures harts { length lines.new ≡ HART_ROW }
    ensures each { (hart : ℕ) (other : LineView) → hart < HART_LIMIT →
        slice_index_or lines.new hart other ≡ after_release need noted.now (slice_index_or lines.old hart other) }
{
    for hart in 0..HART_ROW {
        lines[hart].advance(need, noted, held[hart]);
    }
}

/// Puts an output behind the others of its hart.
fn offer_in(lines: &mut [Line; HART_ROW], output: Output) -> Result<(), Memory>
    requires { output.hart < HART_LIMIT → (other : LineView) → IsNext output (slice_index_or lines.old output.hart other) }
    ensures hart { output.hart < HART_LIMIT }
    ensures harts { length lines.new ≡ HART_ROW }
    ensures line { OnOk result ((other : LineView) → slice_index_or lines.new output.hart other ≡ with_offer (slice_index_or lines.old output.hart other) output) }
    ensures others { (hart : ℕ) (other : LineView) → hart ≢ output.hart → slice_index_or lines.new hart other ≡ slice_index_or lines.old hart other }
    ensures err { OnErr result (lines.new ≡ lines.old) }
{
    lines[output.hart.index()].push(output)
}

fn no_lines(alloc: Global) -> [Line; HART_ROW]
    ensures { result ≡ replicate HART_ROW (fresh_line 0) }
{
    array::from_fn(|_| Line::new(alloc, 0))
}

/// A line of each hart, with its mark.
fn lines_after(alloc: Global, marks: &Counts) -> [Line; HART_ROW]
    ensures harts { length result ≡ HART_ROW }
    ensures each { (hart : ℕ) → slice_index_or result hart (fresh_line 0) ≡ fresh_line (count_at marks.now hart) }
{
    let mut lines = no_lines(alloc);
    for number in 0..marks.harts() {
        let hart = Hart::new(number);
        lines[hart.index()] = Line::new(alloc, marks.get(hart));
    }
    lines
}

/// Of each keeper, a count of 0 for each hart.
fn nothing_noted() -> [[Count; HART_ROW]; KEEPER_ROW]
    ensures none { (keeper hart : ℕ) → count_at (slice_index_or result keeper []) hart ≡ 0 }
    ensures rows { length result ≡ KEEPER_ROW }
    ensures wide { AllByRecursion (λ row. length row ≡ HART_ROW) result }
{
    [[0; HART_ROW]; KEEPER_ROW]
}

impl Gate {
    /// A gate of a term with so many keepers, of which so many must hold an output. Nothing is noted and nothing waits.
    pub fn new(alloc: Global, term: Term, keepers: u8, need: u8) -> Gate
        requires { (0 < need) × (need ≤ keepers) × (keepers ≤ KEEPER_LIMIT) }
        ensures parts { (result.term ≡ term) × (result.keepers ≡ keepers) × (result.need ≡ need) }
        ensures noted { (keeper hart : ℕ) → noted_at result keeper hart ≡ 0 }
        ensures lines { (hart : ℕ) → line_of result hart ≡ fresh_line 0 }
    {
        Gate::new_after(alloc, term, keepers, need, &Counts::zero(0))
    }

    /// The same, where each hart's outputs with numbers below its mark are known to be out: they are to be offered as the others are,
    /// and are never released. Without a mark none is.
    pub fn new_after(alloc: Global, term: Term, keepers: u8, need: u8, marks: &Counts) -> Gate
        requires { (0 < need) × (need ≤ keepers) × (keepers ≤ KEEPER_LIMIT) }
        ensures parts { (result.term ≡ term) × (result.keepers ≡ keepers) × (result.need ≡ need) }
        ensures noted { (keeper hart : ℕ) → noted_at result keeper hart ≡ 0 }
        ensures lines { (hart : ℕ) → line_of result hart ≡ fresh_line (count_at marks.now hart) }
    {
        Gate {
            term,
            keepers,
            need,
            noted: nothing_noted(),
            lines: lines_after(alloc, marks),
        }
    }

    /// Takes a hart's next output. While one waits whose step is later than that of one behind it, a release goes over all that wait
    /// of this hart.
    pub fn offer(&mut self, output: Output) -> Result<(), Memory>
        requires number { output.number ≡ length (offered_of self.old output.hart) }
        ensures line { OnOk result (line_of self.new output.hart ≡ with_offer (line_of self.old output.hart) output) }
        ensures offered { OnOk result (offered_of self.new output.hart ≡ offered_of self.old output.hart ++ output ∷ []) }
        ensures others { (hart : ℕ) → hart ≢ output.hart → line_of self.new hart ≡ line_of self.old hart }
        ensures rest { self.new ≡ record self.old { lines = self.new.lines } }
        ensures err { OnErr result (self.new ≡ self.old) }
    {
        offer_in(&mut self.lines, output)
    }

    /// How many outputs of the hart were offered.
    pub fn offered(&self, hart: Hart) -> usize
        ensures number { result ≡ length (offered_of self.now hart) }
        ensures harts { length self.now.lines ≡ HART_ROW }
        ensures passed { ArePassedBelow self.now }
    {
        self.lines[hart.index()].offered()
    }

    /// Notes a count, where it is greater than what is noted.
    pub fn note(&mut self, keeper: Keeper, hart: Hart, count: Count)
        requires { keeper < self.old.keepers }
        ensures greatest { noted_at self.new keeper hart ≡ max (noted_at self.old keeper hart) count }
        ensures others { (k h : ℕ) → (k ≢ keeper) ⊎ (h ≢ hart) → noted_at self.new k h ≡ noted_at self.old k h }
        ensures rest { self.new ≡ record self.old { noted = self.new.noted } }
    {
        let row = keeper.index();
        let column = hart.index();
        self.noted[row][column] = self.noted[row][column].max(count);
    }

    /// The number of outputs that were offered and not released.
    pub fn kept(&self) -> usize
        ensures { result ≡ kept_count self.now.lines }
    {
        kept_in(&self.lines)
    }

    /// The number of outputs that wait: those that were offered and not released, but for those that are passed over.
    pub fn waiting(&self) -> usize
        ensures { result ≡ waiting_count self.now.lines }
    {
        waiting_in(&self.lines)
    }

    /// The keepers noted above this step of the hart.
    pub fn counted(&self, hart: Hart, step: Count) -> KeeperSet
        ensures keepers { (keeper : ℕ) → IsMember result keeper ↔ (step < noted_at self.now keeper hart) }
        ensures number { count_by (λ member. member) result ≡ holder_count self.now.noted hart step }
    {
        keepers_counted(&self.noted, hart, step)
    }

    /// Each hart's outputs are in line: those that are passed over, behind them those that went out, and behind them those that wait.
    pub(crate) fn tell_lines(&self)
        ensures harts { length self.now.lines ≡ HART_ROW }
        ensures each { (hart : ℕ) → hart < HART_LIMIT → IsLineOf hart (line_of self.now hart) }
    {
        let _lines = &self.lines;
    }

    /// Releases the outputs that enough keepers hold.
    fn release_held(&mut self, alloc: Global) -> Result<Vec<Output>, Memory>
        ensures given { IfOk result (λ given. given.items ≡ held_outputs self.old.need self.old.noted self.old.lines) }
        ensures rising { IfOk result (λ given. RiseByHart given.items) }
        ensures above { IfOk result (λ given. AreAbove self.old given.items) }
        ensures lines { OnOk result ((hart : ℕ) → hart < HART_LIMIT → line_of self.new hart ≡ after_release self.old.need self.old.noted (line_of self.old hart)) }
        ensures same { OnOk result ((hart : ℕ) → hart < HART_LIMIT → IsPermutation (offered_of self.old hart) (offered_of self.new hart)) }
        ensures offered { OnOk result ((hart : ℕ) → hart < HART_LIMIT → StepsRise (offered_of self.old hart) →
            offered_of self.new hart ≡ offered_of self.old hart) }
        ensures rest { self.new ≡ record self.old { lines = self.new.lines } }
        ensures err { OnErr result (self.new ≡ self.old) }
    {
        let mut given = Vec::new(alloc);
        let held = give_all(self.need, &self.noted, &self.lines, &mut given)?;
        advance_all(self.need, &self.noted, &mut self.lines, held);
        Ok(given)
    }

    /// Releases the outputs that enough keepers hold, by hart, then number.
    pub fn release(&mut self, alloc: Global) -> Result<Vec<Output>, Memory>
        ensures given { IfOk result (λ given. given.items ≡ held_outputs self.old.need self.old.noted self.old.lines) }
        ensures rising { IfOk result (λ given. RiseByHart given.items) }
        ensures lines { OnOk result ((hart : ℕ) → hart < HART_LIMIT → line_of self.new hart ≡ after_release self.old.need self.old.noted (line_of self.old hart)) }
        ensures same { OnOk result ((hart : ℕ) → hart < HART_LIMIT → IsPermutation (offered_of self.old hart) (offered_of self.new hart)) }
        ensures offered { OnOk result ((hart : ℕ) → hart < HART_LIMIT → StepsRise (offered_of self.old hart) →
            offered_of self.new hart ≡ offered_of self.old hart) }
        // None is below its hart's mark, and what still waits has a later step than what is given of its hart.
        ensures above { IfOk result (λ given. AreAbove self.old given.items) }
        ensures earlier { IfOk result (λ given. AreEarlier given.items self.new) }
        ensures rest { self.new ≡ record self.old { lines = self.new.lines } }
        ensures err { OnErr result (self.new ≡ self.old) }
    {
        self.release_held(alloc)
    }
}
