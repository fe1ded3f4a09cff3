//! Least closed cuts of a leg.

ghost use Rattle.std.specs.Prelude.{◌≡◌, ◌<◌, ◌≤◌, ℕ, true, false, length};
ghost use Rattle.ft_types.specs.Counts.{count_at};
ghost use Rattle.ft_types.specs.declared.names.TheConstants.{COUNT_LIMIT};
ghost use Rattle.interleaving.specs.Lists.{IsWithin};
ghost use Rattle.interleaving.specs.Log.{IsClosed};
ghost use Rattle.hart_replay.specs.Plans.{IsLeg, log_of};
ghost use Rattle.least_cuts.specs.machinery.Raising.{IsRaisedBy, Raises, RaisesFor, IsLeastAbove};

use edge_log::Edge;
use ft_types::{Count, Counts, Hart};
use hart_replay::PlannedLeg;

/// Raises the count for which the edge asks, where its step is below this count. Whether it was raised.
fn raise_by(cut: &mut Counts, edge: &Edge, end: Count) -> bool
    requires other { edge.now.other < length cut.old }
    requires count { edge.now.at < end → edge.now.after < COUNT_LIMIT }
    ensures raised { result ≡ true → IsRaisedBy edge.now end cut.old cut.new }
    ensures kept { result ≡ false → cut.new ≡ cut.old }
    ensures met { result ≡ false → edge.now.at < end → edge.now.after ≤ count_at cut.old edge.now.other }
{
    if edge.at < end && cut.get(edge.other) < edge.after {
        cut.set(edge.other, edge.after);
        return true;
    }
    false
}

/// Raises the counts to what the edges of the hart's steps below its count ask for. Whether one was raised.
fn raise_for(leg: &PlannedLeg, cut: &mut Counts, hart: Hart) -> bool
    requires leg { IsLeg (length cut.old) leg.now }
    requires hart { hart < length cut.old }
    requires within { IsWithin (count_at cut.old) (count_at leg.now.ends) }
    ensures raises { RaisesFor leg.now hart cut.old result cut.new }
{
    // proof: the edges keep the rules of a log.
    let _rules = leg.edges.next(hart, 0);
    let end = cut.get(hart);
    let mut has_raised = false;
    for edge in leg.edges.of_hart(hart) {
        // proof: what it asks for is a count.
        let _most = leg.ends.count_of(edge.other);
        has_raised |= raise_by(cut, edge, end);
    }
    has_raised
}

/// The same for each hart.
fn raise_all(leg: &PlannedLeg, cut: &mut Counts) -> bool
    requires leg { IsLeg (length cut.old) leg.now }
    requires within { IsWithin (count_at cut.old) (count_at leg.now.ends) }
    ensures raises { Raises leg.now (length cut.old) cut.old result cut.new }
{
    let mut has_raised = false;
    for number in 0..cut.harts() {
        has_raised |= raise_for(leg, cut, Hart::new(number));
    }
    has_raised
}

/// The least closed cut of the leg at which the hart has so many steps or more.
pub(crate) fn least_cut(leg: &PlannedLeg, hart: Hart, count: Count) -> Counts
    requires leg { IsLeg (length leg.now.base) leg.now }
    requires hart { hart < length leg.now.base }
    requires from { count_at leg.now.base hart ≤ count }
    requires end { count ≤ count_at leg.now.ends hart }
    ensures { IsLeastAbove leg.now hart count result }
{
    // proof: the count is one.
    let _end = leg.ends.count_of(hart);
    let mut cut = leg.base;
    cut.set(hart, count);
    loop {
        if !raise_all(leg, &mut cut) {
            return cut;
        }
    }
}
