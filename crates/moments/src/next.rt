//! Whose step comes next.

ghost use Rattle.std.specs.Prelude.{◌≡◌, ◌↔◌, ◌<◌, ◌≤◌, ◌+◌, ℕ, All, length, IsTrue, IfSome, IfNone};
ghost use Rattle.ft_types.specs.Counts.{count_at};
ghost use Rattle.ft_types.specs.declared.names.TheConstants.{HART_LIMIT};
ghost use Rattle.interleaving.specs.Log.{IsMet};
ghost use Rattle.hart_lease.specs.Runs.{counts_of};
ghost use Rattle.hart_replay.specs.Plans.{log_of};
ghost use Rattle.hart_replay.specs.Leading.{AreAtEnds};
ghost use Rattle.log_audit.specs.machinery.Covered.{IsQuietTo};
ghost use Rattle.plan_lines.specs.Line.{MayGo, IsNext, NoneMayGo};
ghost use Rattle.moments.specs.machinery.Machines.{machine_of};
ghost use Rattle.plan_lines.specs.machinery.Kept.{AreQuiet};
ghost use Rattle.moments.specs.machinery.Choices.{Chosen};

use crate::machines::SteppedMachine;
use edge_log::Edge;
use ft_types::{Count, HART_ROW, Hart};
use hart_replay::PlannedLeg;

/// For each hart a count up to which it has neither edges nor inputs from its own on, and which is not above its end.
pub(crate) type Stops = [Count; HART_ROW];

/// The first count, from this one on, at which the hart has an edge or inputs, or its end, where that comes first.
pub(crate) fn stop_of(leg: &PlannedLeg, hart: Hart, count: Count) -> Count
    ensures { IsQuietTo leg.now hart count result }
{
    let end = leg.ends.count_of(hart);
    let edge = leg.edges.next(hart, count).unwrap_or(end);
    let input = leg.inputs.next(hart, count).unwrap_or(end);
    end.min(edge).min(input)
}

fn are_met(machine: &SteppedMachine, edges: &[Edge]) -> bool
    ensures { IsTrue result ↔ All (λ e. e.after ≤ counts_of (machine_of machine.now) e.other) edges.now }
{
    for edge in edges {
        if machine.count_of(edge.other) < edge.after {
            return false;
        }
    }
    true
}

/// Whether the hart may go from its count, where it runs.
fn may_pass(leg: &PlannedLeg, machine: &SteppedMachine, hart: Hart, count: Count) -> bool
    requires { count ≡ counts_of (machine_of machine.now) hart }
    ensures { IsTrue result ↔ ((count < count_at leg.now.ends hart) × IsMet (log_of leg.now).edges (counts_of (machine_of machine.now)) hart) }
{
    count < leg.ends.count_of(hart) && are_met(machine, leg.edges.at(hart, count))
}

/// Whether the hart may go.
#[inline(always)]
fn may_go(leg: &PlannedLeg, machine: &SteppedMachine, stops: &Stops, hart: Hart) -> bool
    requires hart { hart < length (machine_of machine.now).harts }
    requires quiet { AreQuiet leg.now (machine_of machine.now) stops.now }
    ensures { IsTrue result ↔ MayGo leg.now (machine_of machine.now) hart }
{
    let state = machine.hart(hart);
    if state.is_halted() {
        return false;
    }
    let count = state.count();
    if count < stops[hart.index()] {
        return true;
    }
    may_pass(leg, machine, hart, count)
}

/// Of the first harts the one that comes next, once this hart is the next of them.
#[inline(always)]
#[tactic(auto, using(crate::proofs::Choosing::chosen_next, crate::proofs::Choosing::chosen_still))]
fn sooner(
    leg: &PlannedLeg,
    machine: &SteppedMachine,
    stops: &Stops,
    next: Option<Hart>,
    hart: Hart,
) -> Option<Hart>
    requires hart { hart < length (machine_of machine.now).harts }
    requires quiet { AreQuiet leg.now (machine_of machine.now) stops.now }
    requires next { Chosen leg.now (machine_of machine.now) hart next }
    ensures { Chosen leg.now (machine_of machine.now) (hart + 1) result }
{
    match next {
        Some(other) => {
            if machine.hart(hart).count() < machine.hart(other).count()
                && may_go(leg, machine, stops, hart)
            {
                Some(hart)
            } else {
                Some(other)
            }
        }
        None => {
            if may_go(leg, machine, stops, hart) {
                Some(hart)
            } else {
                None
            }
        }
    }
}

/// The hart whose step comes next: of those that may go it has the fewest steps, and is the least of those with as few.
pub(crate) fn next_hart(leg: &PlannedLeg, machine: &SteppedMachine, stops: &Stops) -> Option<Hart>
    requires quiet { AreQuiet leg.now (machine_of machine.now) stops.now }
    ensures next { IfSome result (λ hart. IsNext leg.now (machine_of machine.now) hart) }
    ensures there { IfSome result (λ hart. hart < length (machine_of machine.now).harts) }
    ensures none { IfNone result (NoneMayGo leg.now (machine_of machine.now)) }
{
    let mut next = None;
    for number in 0..machine.harts() {
        next = sooner(leg, machine, stops, next, Hart::new(number));
    }
    next
}

/// Whether each hart of the machine has come to the leg's end.
pub(crate) fn are_at_ends(leg: &PlannedLeg, machine: &SteppedMachine) -> bool
    ensures { IsTrue result ↔ AreAtEnds (machine_of machine.now) leg.now.ends }
{
    for number in 0..machine.harts() {
        let hart = Hart::new(number);
        if machine.hart(hart).count() < leg.ends.count_of(hart) {
            return false;
        }
    }
    true
}
