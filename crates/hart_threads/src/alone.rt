//! A book of one hart, which needs no thread.

ghost use Rattle.std.specs.Prelude.{◌≡◌, ◌<◌, length};
ghost use Rattle.lease_rounds.specs.Leading.{IsFreeAlone, IsIdle};

use crate::overseer::Overseer;
use crate::turnstile::Turnstile;
use ft_types::{Count, Hart, LEASE_STEPS};
use lease_rounds::{PageMask, go_for};
use page_book::{Book, Keep, Mode};
use std::alloc::Global;
use std::sync::Wait;
use steering::FAR;

/// After so many leases the hart begins one without pages, so that it does not take for good what it used once.
const LONGEST: u64 = 32;

/// Up to which count the book's one hart, which is at this count, goes until the overseer looks: as far as he had said, or as he says
/// when he looks once more, where the hart has come there. None where he lets it no further.
fn let_go<M: Mode, R: Wait, O: Overseer<M>>(
    rt: &R,
    alloc: Global,
    book: &mut Book<M>,
    overseer: &mut O,
    count: Count,
    granted: Count,
) -> Option<Count>
    ensures machine { book.new.machine ≡ book.old.machine }
    ensures leases { book.new.leases ≡ book.old.leases }
{
    if count < granted {
        return Some(granted);
    }
    let grant = overseer.look(rt, alloc, book);
    overseer.hand_on(rt, alloc);
    let calls = grant?.calls;
    if calls.harts() == 0 {
        return None;
    }
    Some(calls.get(Hart::new(0)))
}

/// Leads the book's first hart on this thread, lease by lease, until it is halted or at its end, where memory is refused or where
/// it cannot go on. The overseer looks before each lease that goes further than he has let it.
pub(crate) fn lead_alone<M: Mode, R: Wait, T: Turnstile, O: Overseer<M>>(
    rt: &R,
    alloc: Global,
    book: &mut Book<M>,
    end: Count,
    turnstile: &T,
    overseer: &mut O,
)
    requires free { IsFreeAlone M.Mode }
    requires idle { IsIdle book.old }
    requires hart { 0 < length book.old.machine.harts }
{
    let hart = Hart::new(0);
    let mut number = 0u64;
    let mut usual = PageMask::none();
    let most = if turnstile.is_free() {
        FAR
    } else {
        LEASE_STEPS
    };
    let mut granted = if overseer.is_absent() { u64::MAX } else { 0 };
    let mut count = book.machine().hart(hart).count();
    while count < end && !book.machine().hart(hart).is_halted() {
        let Some(further) = let_go(rt, alloc, book, overseer, count, granted) else {
            return;
        };
        granted = further;
        let few = most.min(granted.saturating_sub(count));
        number = number.saturating_add(1);
        turnstile.before_lease(hart, number);
        if number % LONGEST == 0 {
            usual = PageMask::none();
        }
        let Ok(true) = go_for(alloc, book, hart, Keep::All, few, &mut usual) else {
            return;
        };
        let settled = book.machine().hart(hart).count();
        if settled <= count {
            return;
        }
        turnstile.after_settle(hart, settled);
        count = settled;
    }
}
