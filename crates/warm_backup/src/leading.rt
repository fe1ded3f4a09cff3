//! Leading a book as far as its harts can go, where few of them have steps to take.

ghost use Rattle.std.specs.Prelude.{◌≡◌, ◌≢◌, ◌<◌, length, IfOk, IfErr, OnErr, OnOk, IsTrue};
ghost use Rattle.ft_types.specs.Counts.{count_at};
ghost use Rattle.lease_rounds.specs.Leading.{IsIdle};
ghost use Rattle.hart_replay.specs.Leading.{AreAtEnds, ComesShort, IsHeld};
ghost use Rattle.warm_backup.specs.machinery.Leading.{AreHeld, IsLater, IsLed, IsNearer};

use ft_types::{Count, Counts, HART_ROW, Hart, LEASE_STEPS, Memory};
use guest_image::Machine;
use hart_replay::{ReplayFault, has_come_to};
use lease_rounds::{PageMask, go_for};
use page_book::{Book, Keep, Replaying};
use std::alloc::Global;
use std::result::Result;

/// Lets a hart go on for one lease, where it is below its end and may. Whether it did.
fn lead_hart(
    alloc: Global,
    book: &mut Book<Replaying>,
    hart: Hart,
    end: Count,
    usual: &mut PageMask,
) -> Result<bool, Memory>
    requires idle { IsIdle book.old }
    requires hart { hart < length book.old.machine.harts }
    requires end { end ≡ count_at book.old.mode.ends hart }
    ensures later { IsLater book.old book.new }
    ensures nearer { IfOk result (λ went. IsTrue went → IsNearer book.old book.new) }
    ensures same { IfOk result (λ went. (IsTrue went → ⊥) → book.new ≡ book.old) }
    ensures held { IfOk result (λ went. (IsTrue went → ⊥) → IsHeld book.old hart) }
{
    if end <= book.machine().hart(hart).count() {
        return Ok(false);
    }
    go_for(alloc, book, hart, Keep::Nothing, LEASE_STEPS, usual)
}

/// Lets each hart that is below its end go on in turn for one lease, where it may. Whether one did.
fn lead_round(
    alloc: Global,
    book: &mut Book<Replaying>,
    ends: &Counts,
    usual: &mut [PageMask; HART_ROW],
) -> Result<bool, Memory>
    requires idle { IsIdle book.old }
    requires ends { book.old.mode.ends ≡ ends.now }
    requires harts { length ends.now ≡ length book.old.machine.harts }
    ensures later { IsLater book.old book.new }
    ensures nearer { IfOk result (λ went. IsTrue went → IsNearer book.old book.new) }
    ensures held { IfOk result (λ went. (IsTrue went → ⊥) → AreHeld book.new) }
{
    let mut went = false;
    for number in 0..ends.harts() {
        let hart = Hart::new(number);
        let usual = &mut usual[hart.index()];
        if lead_hart(alloc, book, hart, ends.get(hart), usual)? {
            went = true;
        }
    }
    Ok(went)
}

/// Lets the harts go on until none can.
fn lead_all(
    alloc: Global,
    book: &mut Book<Replaying>,
    ends: &Counts,
    usual: &mut [PageMask; HART_ROW],
) -> Result<(), Memory>
    requires idle { IsIdle book.old }
    requires ends { book.old.mode.ends ≡ ends.now }
    requires harts { length ends.now ≡ length book.old.machine.harts }
    ensures later { IsLater book.old book.new }
    ensures held { OnOk result (AreHeld book.new) }
{
    while lead_round(alloc, book, ends, usual)? {}
    Ok(())
}

/// Whether each hart has come to its end.
fn are_at_ends(machine: &Machine, ends: &Counts) -> bool
    requires { length ends.now ≡ length machine.now.harts }
    ensures { IsTrue result → AreAtEnds machine.now ends.now }
{
    for number in 0..ends.harts() {
        let hart = Hart::new(number);
        if machine.hart(hart).count() < ends.get(hart) {
            return false;
        }
    }
    true
}

/// Lets the harts go on until none can. Refused where one has not come to its end then.
pub(crate) fn lead_to(
    alloc: Global,
    book: &mut Book<Replaying>,
    ends: &Counts,
    usual: &mut [PageMask; HART_ROW],
) -> Result<(), ReplayFault>
    requires idle { IsIdle book.old }
    requires ends { book.old.mode.ends ≡ ends.now }
    requires harts { length ends.now ≡ length book.old.machine.harts }
    ensures later { IsLater book.old book.new }
    ensures led { IsLed book.new }
    ensures ends { OnOk result (AreAtEnds book.new.machine ends.now) }
    ensures held_at_ends { OnOk result (AreHeld book.new) }
    ensures fault { IfErr result (λ fault. ComesShort book.new.machine ends.now fault) }
    ensures held { IfErr result (λ fault. fault ≢ ReplayFault.Memory → AreHeld book.new) }
{
    let led = lead_all(alloc, book, ends, usual);
    // proof: the journal leads to the machine.
    let _machine = book.machine();
    led?;
    if are_at_ends(book.machine(), ends) {
        return Ok(());
    }
    has_come_to(book.machine(), &book.counts(), ends)
}
