//! All harts of a book in turn on one thread, which needs no lock, as long as they do better so.

ghost use Rattle.std.specs.Prelude.{◌<◌, length};
ghost use Rattle.lease_rounds.specs.Leading.{IsAlone, IsFreeAlone, IsIdle};

use crate::telling::{may_go, rung_by, tell_settled};
use ft_types::{COUNT_LIMIT, Count, Counts, Hart, HartSet, LEASE_STEPS, Memory};
use lease_rounds::{PageMask, bring_back, fill};
use page_book::{Book, Keep, Lease, Mode};
use std::alloc::Global;
use std::result::Result;
use std::sync::Wait;
use steering::{FAR, Steering, trace_of};

/// How often a lease is looked at, at the most.
const LOOKS: u64 = FAR / LEASE_STEPS;

/// Takes steps of the book's one lease until it is full or only waits, which it is asked now and then. It is given these pages at once, and then
/// each that a step lacks, which is one of these from then on.
fn fill_watched<M: Mode>(
    book: &mut Book<M>,
    lease: &mut Lease,
    steering: &mut Steering,
    usual: &mut PageMask,
) -> Result<(), Memory>
    requires free { IsFreeAlone M.Mode }
    requires alone { IsAlone book.old lease.old }
    ensures alone { IsAlone book.new lease.new }
{
    let hart = lease.hart();
    let mut allowed = steering.first_look(hart);
    for _look in 0..LOOKS {
        lease.allow(allowed.min(COUNT_LIMIT));
        fill(book, lease, usual)?;
        let steps = lease.steps();
        if steps < allowed {
            return Ok(());
        }
        let trace = trace_of(lease.registers());
        let Some(further) = steering.look(hart, steps, lease.stop(), trace) else {
            return Ok(());
        };
        allowed = further;
    }
    Ok(())
}

/// Settles the book's one lease. Whether its steps were added.
fn settle<M: Mode>(book: &mut Book<M>, lease: Lease, steering: &mut Steering, woken: bool) -> bool
    requires alone { IsAlone book.old lease }
    ensures idle { IsIdle book.new }
{
    let hart = lease.hart();
    let steps = lease.steps();
    let takes_over = !lease.edges().is_empty();
    let before = rung_by(book, hart);
    let returned = steering.come_back(hart, steps, steps < LEASE_STEPS, lease.stop(), woken);
    if takes_over {
        steering.take_over();
    }
    if bring_back(book, lease, Keep::All).is_err() {
        return false;
    }
    tell_settled(book, steering, hart, returned, &before);
    true
}

/// Leads the book's one lease, and settles it. Whether its steps were added.
fn go_on<M: Mode>(book: &mut Book<M>, lease: Lease, steering: &mut Steering) -> bool
    requires free { IsFreeAlone M.Mode }
    requires alone { IsAlone book.old lease }
    ensures idle { IsIdle book.new }
{
    let mut lease = lease;
    let hart = lease.hart();
    steering.go_out(hart);
    let woken = !lease.inputs().is_empty();
    let mut pages = steering.pages_at_once(hart, woken);
    if fill_watched(book, &mut lease, steering, &mut pages).is_err() {
        let _ended = book.discard(lease);
        return false;
    }
    steering.take(hart, pages);
    settle(book, lease, steering, woken)
}

/// One lease of the hart, of a book without open leases. Whether it had one and its steps were added.
fn lead_once<M: Mode>(
    alloc: Global,
    book: &mut Book<M>,
    steering: &mut Steering,
    hart: Hart,
) -> bool
    requires free { IsFreeAlone M.Mode }
    requires idle { IsIdle book.old }
    requires hart { hart < length book.old.machine.harts }
    ensures idle { IsIdle book.new }
{
    match book.lease(alloc, hart) {
        Ok(lease) => go_on(book, lease, steering),
        Err(_) => false,
    }
}

/// The same, where the hart is to go on and does more than to wait. Whether it had a lease; None where it is to end.
fn go_once<M: Mode>(
    alloc: Global,
    book: &mut Book<M>,
    steering: &mut Steering,
    hart: Hart,
    end: Count,
) -> Option<bool>
    requires free { IsFreeAlone M.Mode }
    requires idle { IsIdle book.old }
    ensures idle { IsIdle book.new }
{
    if hart.number() >= book.machine().harts() || !may_go(book, hart, end) {
        return None;
    }
    if !steering.may_be_led(hart) {
        return Some(false);
    }
    if lead_once(alloc, book, steering, hart) {
        Some(true)
    } else {
        None
    }
}

/// The same of each of these harts in turn. Who is not to end, and whether one had a lease.
fn go_round<M: Mode>(
    alloc: Global,
    book: &mut Book<M>,
    steering: &mut Steering,
    harts: HartSet,
    ends: Counts,
) -> (HartSet, bool)
    requires free { IsFreeAlone M.Mode }
    requires idle { IsIdle book.old }
    ensures idle { IsIdle book.new }
{
    let mut left = harts;
    let mut went = false;
    for number in 0..ends.harts() {
        let hart = Hart::new(number);
        if !left.contains(hart) {
            continue;
        }
        match go_once(alloc, book, steering, hart, ends.get(hart)) {
            Some(goes) => went = went || goes,
            None => {
                left = left.without(hart);
                let _none_sleeps = steering.leave(hart);
            }
        }
    }
    (left, went)
}

/// Leads these harts of a book without open leases in turn on this thread, one lease each, as long as they do better so and one goes on. Who is left.
pub(crate) fn go_together<M: Mode, R: Wait>(
    rt: &R,
    alloc: Global,
    book: &mut Book<M>,
    steering: &mut Steering,
    harts: HartSet,
    ends: Counts,
) -> HartSet
    requires free { IsFreeAlone M.Mode }
    requires idle { IsIdle book.old }
{
    let mut left = harts;
    let mut goes = true;
    for _ in rt.forever() {
        if !goes || left.is_empty() || !steering.are_together() {
            let _none_sleeps = steering.end_to_lead();
            return left;
        }
        let (next, went) = go_round(alloc, book, steering, left, ends);
        left = next;
        goes = went;
    }
    unreachable!()
}
