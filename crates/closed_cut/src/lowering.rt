//! The greatest closed counts below a bound.

ghost use Rattle.std.specs.Prelude.{◌≡◌, ◌≢◌, ℕ, ◌-◌, ◌<◌, ◌≤◌, List, All, Contains, map, length, slice_index, IfSome, IfNone};
ghost use Rattle.std.specs.List.{AllWithin, HoldsAt};
ghost use Rattle.std.specs.List.Sorted.{IsNonDecreasingBy};
ghost use Rattle.ft_types.specs.declared.names.TheConstants.{HART_LIMIT};
ghost use Rattle.ft_types.specs.Counts.{count_at};
ghost use Rattle.interleaving.specs.Cuts.{IsGreatest};
ghost use Rattle.edge_log.specs.EdgeLog.{edge_as};
ghost use Rattle.closed_cut.specs.machinery.Lowering.{AreOf, IsLoweredTo};

use edge_log::Edge;
use ft_types::{Counts, HART_ROW, Hart};
use std::option::Option;

/// A hart with an edge before its end that asks for more of its steps than the counts have.
fn unmet_hart(edges: &[Edge], ends: &[usize; HART_ROW], cut: Counts) -> Option<Hart>
    requires sorted { IsNonDecreasingBy (λ e. e.after) edges.now }
    requires ends { (hart : ℕ) → slice_index ends.now hart ≤ length edges.now }
    ensures limit { length cut ≤ HART_LIMIT }
    ensures hart { IfSome result (λ hart. hart < length cut) }
    ensures some { IfSome result (λ hart. 0 < slice_index ends.now hart) }
    ensures unmet { IfSome result (λ hart. HoldsAt (λ e. count_at cut hart < e.after) edges.now (slice_index ends.now hart - 1)) }
    ensures none { IfNone result ((hart : ℕ) → hart < length cut → AllWithin (λ e. e.after ≤ count_at cut hart) edges.now 0 (slice_index ends.now hart)) }
{
    for number in 0..cut.harts() {
        let hart = Hart::new(number);
        let end = ends[hart.index()];
        if 0 < end && cut.get(hart) < edges[end - 1].after {
            return Some(hart);
        }
    }
    None
}

/// Stops the edge's hart in front of the edge's step.
fn stop_before(cut: &mut Counts, edge: &Edge)
    requires hart { edge.now.hart < length cut.old }
    ensures stopped { count_at cut.new edge.now.hart ≤ edge.now.at }
    ensures lowered { (edges : List Edge) → Contains edges edge.now → count_at cut.old edge.now.other < edge.now.after → IsLoweredTo edges cut.old cut.new }
{
    if edge.at < cut.get(edge.hart) {
        cut.set(edge.hart, edge.at);
    }
}

/// Goes down from the end while the edges ask for more of the hart's steps than the counts have, and lowers the counts
/// by each that waits for the hart.
fn fall(edges: &[Edge], cut: &mut Counts, hart: Hart, end: usize) -> usize
    requires edges { AreOf (length cut.old) edges.now }
    requires hart { hart < length cut.old }
    requires end { end ≤ length edges.now }
    ensures within { result ≤ end }
    ensures falls { 0 < end → HoldsAt (λ e. count_at cut.old hart < e.after) edges.now (end - 1) → result < end }
    ensures stopped { AllWithin (λ e. e.other ≡ hart → count_at cut.new e.hart ≤ e.at) edges.now result end }
    ensures lowered { IsLoweredTo edges.now cut.old cut.new }
{
    let mut place = end;
    while place > 0 {
        let edge = edges[place - 1];
        if edge.after <= cut.get(hart) {
            break;
        }
        if edge.other == hart {
            stop_before(cut, &edge);
        }
        place -= 1;
    }
    place
}

/// For each hart the same end.
fn ends_at(end: usize) -> [usize; HART_ROW]
    ensures wide { length result ≡ HART_ROW }
    ensures each { (hart : ℕ) → hart < HART_LIMIT → slice_index result hart ≡ end }
    ensures most { (hart : ℕ) → slice_index result hart ≤ end }
{
    [end; HART_ROW]
}

/// The bound, lowered by the edges until none forbids a step. The edges stand by rising `after`, and for each hart an
/// end says how many of them may still ask for too many of its steps.
fn lowered(edges: &[Edge], bound: Counts) -> Counts
    requires sorted { IsNonDecreasingBy (λ e. e.after) edges.now }
    requires edges { AreOf (length bound) edges.now }
    ensures harts { length result ≡ length bound }
    ensures greatest { IsGreatest (map edge_as edges.now) (count_at bound) (count_at result) }
{
    let mut cut = bound;
    let mut ends = ends_at(edges.len());
    while let Some(hart) = unmet_hart(edges, &ends, cut) {
        let index = hart.index();
        ends[index] = fall(edges, &mut cut, hart, ends[index]);
    }
    cut
}

/// The greatest counts, at most the bound, that are closed for the edges.
pub(crate) fn greatest_closed(mut edges: Vec<Edge>, bound: Counts) -> Counts
    requires { AreOf (length bound) edges.items }
    ensures harts { length result ≡ length bound }
    ensures greatest { IsGreatest (map edge_as edges.items) (count_at bound) (count_at result) }
{
    edges.sort_unstable_by_key(|edge| edge.after);
    lowered(&edges, bound)
}
