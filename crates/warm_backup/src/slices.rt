//! What a leg has of the steps below some counts.

ghost use Rattle.std.specs.Prelude.{◌≡◌, ◌↔◌, ◌<◌, ◌≤◌, ◌==◌, ◌&&◌, AllPairs, filter, length, nat_lt, IsTrue};
ghost use Rattle.std.specs.Cmp.Lexicographic.{pointwise};
ghost use Rattle.std.specs.List.{AllWithin};
ghost use Rattle.std.specs.List.Sorted.{IsNonDecreasing};
ghost use Rattle.edge_log.specs.EdgeLog.{row_of};
ghost use Rattle.edge_log.specs.Rows.{ComesBefore};
ghost use Rattle.input_log.specs.Alike.{same_input};
ghost use Rattle.input_log.specs.Inputs.{inputs_of, HearsMore};
ghost use Rattle.warm_backup.specs.machinery.Cutting.{BeginsBelow, RowsBegin};

use edge_log::{Edge, EdgeLog};
use ft_types::{Count, Counts, HART_LIMIT, Hart, same_counts};
use hart_replay::PlannedLeg;
use input_log::{Input, InputLog};

/// How many of the edges, which rise, are of steps below the end.
fn edges_before(edges: &[Edge], end: Count) -> usize
    requires { AllPairs ComesBefore edges.now }
    ensures within { result ≤ length edges.now }
    ensures before { AllWithin (λ e. e.at < end) edges.now 0 result }
    ensures from { AllWithin (λ e. end ≤ e.at) edges.now result (length edges.now) }
{
    let mut many = edges.len();
    while many > 0 {
        if edges[many - 1].at < end {
            break;
        }
        many -= 1;
    }
    many
}

fn same_edges(edges: &[Edge], others: &[Edge]) -> bool
    ensures { result ≡ pointwise (λ a b. a.hart == b.hart && a.at == b.at && a.other == b.other && a.after == b.after) edges.now others.now }
{
    edges == others
}

/// Whether both have the same edges of a hart's steps below this end.
fn same_edges_before(edges: &EdgeLog, others: &EdgeLog, hart: Hart, end: Count) -> bool
    ensures { IsTrue result ↔
        (filter (λ e. nat_lt e.at end) (row_of edges.now hart) ≡ filter (λ e. nat_lt e.at end) (row_of others.now hart)) }
{
    let own = edges.of_hart(hart);
    let other = others.of_hart(hart);
    let many = edges_before(own, end);
    same_edges(&own[..many], &other[..edges_before(other, end)])
}

/// How many of the counts, which rise, are below the end.
fn counts_before(counts: &[Count], end: Count) -> usize
    requires { IsNonDecreasing counts.now }
    ensures within { result ≤ length counts.now }
    ensures before { AllWithin (λ n. n < end) counts.now 0 result }
    ensures from { AllWithin (λ n. end ≤ n) counts.now result (length counts.now) }
{
    let mut many = counts.len();
    while many > 0 {
        if counts[many - 1] < end {
            break;
        }
        many -= 1;
    }
    many
}

fn same_inputs(inputs: &[Input], others: &[Input]) -> bool
    ensures { result ≡ pointwise same_input inputs.now others.now }
{
    inputs == others
}

/// Whether both have the same inputs of a hart at counts below this end.
fn same_inputs_before(log: &InputLog, other: &InputLog, hart: Hart, end: Count) -> bool
    ensures { IsTrue result ↔ HearsMore (filter (λ x. nat_lt x.0 end) (inputs_of log.now hart)) end (inputs_of other.now hart) }
{
    let (counts, inputs) = log.of_hart(hart);
    let (others, given) = other.of_hart(hart);
    let many = counts_before(counts, end);
    let few = counts_before(others, end);
    same_counts(&counts[..many], &others[..few]) && same_inputs(&inputs[..many], &given[..few])
}

/// Whether no end is above the other leg's, and below these counts both have the same.
fn rows_begin(leg: &PlannedLeg, later: &PlannedLeg, ends: &Counts) -> bool
    ensures { IsTrue result ↔ RowsBegin leg.now later.now ends.now }
{
    for number in 0..HART_LIMIT {
        let hart = Hart::new(number);
        let end = ends.count_of(hart);
        if later.ends.count_of(hart) < end
            || !same_edges_before(&leg.edges, &later.edges, hart, end)
            || !same_inputs_before(&leg.inputs, &later.inputs, hart, end)
        {
            return false;
        }
    }
    true
}

/// Whether what the leg has below these counts begins the other.
pub(crate) fn begins_below(leg: &PlannedLeg, later: &PlannedLeg, ends: &Counts) -> bool
    ensures { IsTrue result ↔ BeginsBelow leg.now later.now ends.now }
{
    // proof: a log has a row for each hart that there can be.
    let _rules = later.edges.next(Hart::new(0), 0);
    same_counts(later.edges.start().as_slice(), leg.edges.start().as_slice())
        && rows_begin(leg, later, ends)
}
