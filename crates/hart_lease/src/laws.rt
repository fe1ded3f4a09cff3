//! What holds of every lease.

ghost use Rattle.hart_lease.specs.Laws.{StepCounts, StepKeepsRights, LacksOnAPage};

/// A step of a lease counts one and changes no right. A right that a step lacks is on a page of RAM, and the lease has none
/// there that covers it.
pub fn steps_of_leases()
    ensures counts { StepCounts }
    ensures rights { StepKeepsRights }
    ensures lacks { LacksOnAPage }
{}
