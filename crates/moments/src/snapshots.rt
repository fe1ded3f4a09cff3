//! Machines at moments.

ghost use Rattle.std.specs.Prelude.{◌≡◌, ◌<◌, ◌≤◌, ◌⊎◌, Contains, IfOk};
ghost use Rattle.hart_lease.specs.Runs.{counts_of};
ghost use Rattle.moments.specs.machinery.Machines.{machine_of, standing_of};

use crate::machines::SteppedMachine;
use ft_types::{Count, Hart, Memory};
use std::result::Result;

/// The machine at a moment, in a leg of its plan.
#[derive(Drop)]
pub(crate) struct Snapshot {
    /// How many steps led to it.
    pub(crate) moment: u64,
    /// How many legs were led to their ends.
    pub(crate) leg: usize,
    pub(crate) machine: SteppedMachine,
}

/// An equal snapshot, whose machine has the pages too.
pub(crate) fn shared(snapshot: &mut Snapshot) -> Result<Snapshot, Memory>
    ensures same { IfOk result (λ s. standing_of s ≡ standing_of snapshot.old) }
    ensures kept { standing_of snapshot.new ≡ standing_of snapshot.old }
{
    Ok(Snapshot {
        moment: snapshot.moment,
        leg: snapshot.leg,
        machine: snapshot.machine.share()?,
    })
}

/// An equal snapshot.
pub(crate) fn copied(snapshot: &Snapshot) -> Result<Snapshot, Memory>
    ensures { IfOk result (λ s. standing_of s ≡ standing_of snapshot.now) }
{
    Ok(Snapshot {
        moment: snapshot.moment,
        leg: snapshot.leg,
        machine: snapshot.machine.copy()?,
    })
}

/// Of the first snapshot and the kept ones the last one that is at no later moment.
pub(crate) fn nearest<'a>(first: &'a Snapshot, kept: &'a [Snapshot], moment: u64) -> &'a Snapshot
    requires { first.now.moment ≤ moment }
    ensures among { (result.now ≡ first.now) ⊎ Contains kept.now result.now }
    ensures before { result.now.moment ≤ moment }
{
    let mut nearest = first;
    for snapshot in kept {
        if nearest.moment <= snapshot.moment && snapshot.moment <= moment {
            nearest = snapshot;
        }
    }
    nearest
}

/// Of the kept snapshots the last one at which the hart has fewer steps, where there is one; else the first snapshot.
pub(crate) fn last_below<'a>(
    first: &'a Snapshot,
    kept: &'a [Snapshot],
    hart: Hart,
    count: Count,
) -> &'a Snapshot
    ensures among { (result.now ≡ first.now) ⊎ Contains kept.now result.now }
    ensures below { (result.now ≡ first.now) ⊎ (counts_of (machine_of result.now.machine) hart < count) }
{
    let mut last = first;
    for snapshot in kept {
        if last.moment <= snapshot.moment && snapshot.machine.count_of(hart) < count {
            last = snapshot;
        }
    }
    last
}
