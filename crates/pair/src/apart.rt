//! Whether a plan's harts are worth threads.

use ft_types::Hart;
use hart_replay::{Plan, PlannedLeg};

/// How many steps there are at the least for each thread, and for each step that waits for another hart's, where threads are worth what they cost: where one
/// waits for another, tenths of a millisecond go by.
const APART: u64 = 65_536;

/// What threads cost, in steps that harts in turn take meanwhile.
fn cost_of(leg: &PlannedLeg) -> u64 {
    let mut waits = 0u64;
    for number in 0..leg.ends.harts() {
        let edges = leg.edges.of_hart(Hart::new(number));
        waits = waits.saturating_add(1 + edges.len() as u64);
    }
    waits.saturating_mul(APART)
}

/// How many steps a leg has.
fn steps_of(leg: &PlannedLeg) -> u64 {
    let mut steps = 0u64;
    for number in 0..leg.ends.harts() {
        let hart = Hart::new(number);
        let taken = leg
            .ends
            .count_of(hart)
            .saturating_sub(leg.base.count_of(hart));
        steps = steps.saturating_add(taken);
    }
    steps
}

/// Whether the harts have so little to do with each other that a thread for each is worth what it costs.
pub(crate) fn is_apart(plan: &Plan) -> bool {
    let mut cost = 0u64;
    let mut steps = 0u64;
    for leg in plan.legs() {
        cost = cost.saturating_add(cost_of(leg));
        steps = steps.saturating_add(steps_of(leg));
    }
    cost < steps
}
