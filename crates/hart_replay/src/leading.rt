//! Replay of one leg, lease by lease.

ghost use Rattle.std.specs.Prelude.{◌≡◌, ◌≢◌, ℕ, length, IfOk, IfErr, OnOk};
ghost use Rattle.ft_types.specs.Counts.{count_at};
ghost use Rattle.hart_lease.specs.Runs.{counts_of};
ghost use Rattle.hart_replay.specs.Plans.{IsLeg};
ghost use Rattle.hart_replay.specs.Replays.{LegLeads};
ghost use Rattle.hart_replay.specs.Leading.{HasStopped, AreAtEnds, ComesTo, ComesShort, IsLegFault};

use crate::fault::ReplayFault;
use crate::plans::PlannedLeg;
use ft_types::{Counts, Hart, LEASE_STEPS, Memory};
use guest_image::Machine;
use lease_rounds::go_round;
use page_book::{Book, Keep, Leg, Replaying};
use std::alloc::Global;
use std::result::Result;

/// A book of the leg from this machine on, in which no hart can go on.
pub fn lead(alloc: Global, start: Machine, leg: &PlannedLeg) -> Result<Book<Replaying>, Memory>
    ensures { IfOk result (λ b. HasStopped start leg.now b) }
{
    let obeyed = Leg {
        ends: leg.ends,
        edges: leg.edges.copy()?,
        inputs: leg.inputs.copy()?,
    };
    let mut book = Book::<Replaying>::begin(alloc, start, obeyed)?;
    loop {
        if !go_round(alloc, &mut book, Keep::Nothing, LEASE_STEPS)? {
            return Ok(book);
        }
    }
}

/// Nothing, where each of the machine's harts has come to its end; else why not.
pub fn has_come_to(machine: &Machine, counts: &Counts, ends: &Counts) -> Result<(), ReplayFault>
    requires harts { length counts.now ≡ length machine.now.harts }
    requires counts { (hart : ℕ) → count_at counts.now hart ≡ counts_of machine.now hart }
    ensures ok { OnOk result (AreAtEnds machine.now ends.now) }
    ensures fault { IfErr result (λ fault. ComesShort machine.now ends.now fault) }
    ensures memory { IfErr result (λ fault. fault ≢ ReplayFault.Memory) }
{
    let mut waits = false;
    for number in 0..counts.harts() {
        let hart = Hart::new(number);
        let count = counts.get(hart);
        if count < ends.count_of(hart) {
            if machine.hart(hart).is_halted() {
                return Err(ReplayFault::HaltedInside(hart, count));
            }
            waits = true;
        }
    }
    if waits {
        return Err(ReplayFault::Cyclic(*counts));
    }
    Ok(())
}

/// The machine, where each of its harts has come to its end; else why not.
pub fn come_to(machine: Machine, counts: Counts, ends: Counts) -> Result<Machine, ReplayFault>
    requires harts { length counts ≡ length machine.harts }
    requires counts { (hart : ℕ) → count_at counts hart ≡ counts_of machine hart }
    ensures ok { IfOk result (λ m. ComesTo machine ends m) }
    ensures fault { IfErr result (λ fault. ComesShort machine ends fault) }
    ensures memory { IfErr result (λ fault. fault ≢ ReplayFault.Memory) }
{
    has_come_to(&machine, &counts, &ends)?;
    Ok(machine)
}

/// The machine to which the leg leads from this one.
pub(crate) fn replay_leg(
    alloc: Global,
    start: Machine,
    leg: &PlannedLeg,
) -> Result<Machine, ReplayFault>
    requires leg { IsLeg (length start.harts) leg.now }
    requires base { (hart : ℕ) → count_at leg.now.base hart ≡ counts_of start hart }
    ensures ok { IfOk result (λ m. LegLeads leg.now start m) }
    ensures fault { IfErr result (λ fault. IsLegFault leg.now start fault) }
{
    let book = lead(alloc, start, leg)?;
    let counts = book.counts();
    come_to(book.into_machine(), counts, leg.ends)
}
