//! One leg on threads.

ghost use Rattle.std.specs.Prelude.{◌≡◌, ◌<◌, ℕ, [], length, replicate, None, IfOk, IfErr};
ghost use Rattle.ft_types.specs.declared.names.TheConstants.{HART_ROW};
ghost use Rattle.ft_types.specs.Counts.{count_at};
ghost use Rattle.hart_lease.specs.Runs.{counts_of};
ghost use Rattle.page_book.specs.Reclaims.{GoesOnFrom};
ghost use Rattle.hart_replay.specs.Plans.{IsLeg};
ghost use Rattle.hart_replay.specs.Replays.{LegLeads};
ghost use Rattle.hart_replay.specs.Leading.{IsHeld, IsLeading, IsLegFault, leg_of};

use crate::crew::run_crew;
use crate::turnstile::Turnstile;
use ft_types::{HART_ROW, HartSet, LEASE_STEPS, Memory};
use guest_image::Machine;
use hart_replay::{PlannedLeg, ReplayFault, come_to};
use lease_rounds::go_round;
use page_book::{Book, Keep, Leg, Replaying};
use std::alloc::Global;
use std::result::Result;
use std::sync::Wait;
use std::thread::Threads;
use steering::Pace;

/// A book of the leg from this machine on, without steps.
pub(crate) fn begin(
    alloc: Global,
    start: Machine,
    leg: &PlannedLeg,
) -> Result<Book<Replaying>, Memory>
    ensures { IfOk result (λ b. b ≡ record { start = start; machine = start; journal = []; leases = replicate HART_ROW None; mode = leg_of leg.now }) }
{
    let obeyed = Leg {
        ends: leg.ends,
        edges: leg.edges.copy()?,
        inputs: leg.inputs.copy()?,
    };
    Book::<Replaying>::begin(alloc, start, obeyed)
}

/// What the threads left, where it goes on from the copy of what they were given; else the copy.
fn pick(held: Book<Replaying>, copy: Book<Replaying>) -> Book<Replaying>
    ensures { GoesOnFrom (λ r settled new now. new ≡ r) copy result }
{
    if held.continues(&copy) {
        return held;
    }
    copy
}

/// Ends the leases that the book has open, and lets its harts go on in turn until none can.
pub(crate) fn finish(alloc: Global, book: Book<Replaying>) -> Result<Book<Replaying>, Memory>
    ensures leading { IfOk result (λ b. IsLeading book.start book.mode b) }
    ensures held { IfOk result (λ b. (hart : ℕ) → hart < length b.machine.harts → IsHeld b hart) }
{
    let mut book = book;
    book.reclaim();
    // proof: the journal leads to the machine.
    let _machine = book.machine();
    loop {
        if !go_round(alloc, &mut book, Keep::Nothing, LEASE_STEPS)? {
            return Ok(book);
        }
    }
}

/// The machine to which the leg leads from this one. Each hart goes on on a thread of its own, or on this one where it is alone;
/// what is left undone is done here, harts in turn.
pub(crate) fn replay_leg<R: Threads + Wait + Sync, T: Turnstile + Sync>(
    rt: &R,
    alloc: Global,
    start: Machine,
    leg: &PlannedLeg,
    turnstile: &T,
) -> Result<Machine, ReplayFault>
    requires leg { IsLeg (length start.harts) leg.now }
    requires base { (hart : ℕ) → count_at leg.now.base hart ≡ counts_of start hart }
    ensures ok { IfOk result (λ m. LegLeads leg.now start m) }
    ensures fault { IfErr result (λ fault. IsLegFault leg.now start fault) }
{
    let begun = begin(alloc, start, leg)?;
    let copy = begun.copy()?;
    let held = run_crew(
        rt,
        alloc,
        begun,
        leg.ends,
        turnstile,
        Pace::Own,
        HartSet::new(),
    );
    let ended = finish(alloc, pick(held, copy))?;
    let counts = ended.counts();
    come_to(ended.into_machine(), counts, leg.ends)
}
