//! One lease after the other: each is filled with steps and settled.

ghost use Rattle.std.specs.Prelude.{◌≡◌, ◌<◌, ◌≤◌, ◌↔◌, ℕ, length, map, IfOk, OnOk, OnErr, IsTrue};
ghost use Rattle.hart_lease.specs.Slots.{slot_at, want_of};
ghost use Rattle.hart_lease.specs.Leases.{IsFull};
ghost use Rattle.page_book.specs.Books.{IsOurs};
ghost use Rattle.hart_lease.specs.Laws.{Covers};
ghost use Rattle.lease_rounds.specs.Leading.{IsIdle, IsAlone, IsFreeAlone, Gives, Fills, ComesBack, Leads, Goes, RoundsFor, lacking};
ghost use Rattle.lease_rounds.specs.Leading.{EndsWithout, LeavesOff, HasNotGone, HasNotGoneFor, MayGoFor};

use crate::page_mask::PageMask;
use ft_types::{COUNT_LIMIT, Hart, LEASE_STEPS, Memory, PageNo, Want};
use page_book::{Book, BookFault, Keep, Lease, Mode, Need, steps_of_leases};
use rv32_hart::Tick;
use std::alloc::Global;
use std::result::Result;

/// Gives the one lease a page that its step lacks.
pub fn give<M: Mode>(
    book: &mut Book<M>,
    lease: &mut Lease,
    page: PageNo,
    want: Want,
) -> Result<(), Memory>
    requires free { IsFreeAlone M.Mode }
    requires alone { IsAlone book.old lease.old }
    requires page { page < length lease.old.slots }
    requires lacks { Covers (want_of (slot_at lease.old.slots page)) want → ⊥ }
    ensures gives { OnOk result (Gives M.Mode book.old lease.old book.new lease.new) }
    ensures alone { OnOk result (IsAlone book.new lease.new) }
    ensures fewer { OnOk result (lacking (map want_of lease.new.slots) < lacking (map want_of lease.old.slots)) }
    ensures book_kept { OnErr result (book.new ≡ book.old) }
    ensures lease_kept { OnErr result (lease.new ≡ lease.old) }
{
    match book.need_own(lease, page, want) {
        Ok(Need::Given) => Ok(()),
        Ok(Need::HeldBy(_)) => unreachable!(),
        Err(_) => Err(Memory),
    }
}

/// Whether a right is the wanted one, or covers it.
fn covers(right: Option<Want>, want: Want) -> bool
    ensures { IsTrue result ↔ Covers right want }
{
    match (right, want) {
        (None, _) | (Some(Want::Read), Want::Write) => false,
        _ => true,
    }
}

/// Gives the one lease a page, where it lacks it and may go on.
fn give_lacking<M: Mode>(
    book: &mut Book<M>,
    lease: &mut Lease,
    page: PageNo,
    want: Want,
) -> Result<(), Memory>
    requires free { IsFreeAlone M.Mode }
    requires alone { IsAlone book.old lease.old }
    requires page { page < length book.old.machine.pages }
    ensures fills { Fills M.Mode book.old lease.old book.new lease.new }
    ensures alone { IsAlone book.new lease.new }
    ensures pages { length book.new.machine.pages ≡ length book.old.machine.pages }
{
    if lease.full() || covers(lease.right(page), want) {
        return Ok(());
    }
    give(book, lease, page, want)
}

/// Gives the one lease these pages at once, as far as it lacks them.
fn give_all<M: Mode>(book: &mut Book<M>, lease: &mut Lease, pages: PageMask) -> Result<(), Memory>
    requires free { IsFreeAlone M.Mode }
    requires alone { IsAlone book.old lease.old }
    ensures fills { Fills M.Mode book.old lease.old book.new lease.new }
    ensures alone { IsAlone book.new lease.new }
{
    for number in 0..book.machine().pages() {
        let page = PageNo::new(number);
        if let Some(want) = pages.want(page) {
            give_lacking(book, lease, page, want)?;
        }
    }
    Ok(())
}

/// Takes steps until the book's one lease is full, or memory is refused. It is given these pages at once, and then each that a
/// step lacks, which is one of these from then on.
pub fn fill<M: Mode>(
    book: &mut Book<M>,
    lease: &mut Lease,
    usual: &mut PageMask,
) -> Result<(), Memory>
    requires free { IsFreeAlone M.Mode }
    requires alone { IsAlone book.old lease.old }
    ensures fills { Fills M.Mode book.old lease.old book.new lease.new }
    ensures full { OnOk result (IsFull lease.new) }
    ensures alone { IsAlone book.new lease.new }
{
    steps_of_leases();
    give_all(book, lease, *usual)?;
    while !lease.full() {
        match lease.run() {
            Tick::Done => return Ok(()),
            Tick::Miss(page, want) => {
                give(book, lease, page, want)?;
                *usual = usual.with(PageMask::of(page, want));
            }
            Tick::Memory => return Err(Memory),
            Tick::Halted => unreachable!(),
        }
    }
    Ok(())
}

/// Settles the lease. Its hart keeps the rights that it is told.
pub fn bring_back<M: Mode>(book: &mut Book<M>, lease: Lease, keep: Keep) -> Result<(), Memory>
    requires { IsOurs book.old lease }
    ensures back { OnOk result (ComesBack M.Mode keep book.old lease book.new) }
    ensures ends { OnErr result (EndsWithout M.Mode book.old lease book.new) }
{
    match book.settle_own(lease, keep) {
        Ok(()) => Ok(()),
        Err((lease, _)) => {
            let _ended = book.discard(lease);
            Err(Memory)
        }
    }
}

/// Takes the steps of a lease, and settles them.
fn go_on<M: Mode>(
    book: &mut Book<M>,
    mut lease: Lease,
    keep: Keep,
    usual: &mut PageMask,
) -> Result<(), Memory>
    requires free { IsFreeAlone M.Mode }
    requires alone { IsAlone book.old lease }
    ensures leads { OnOk result (Leads M.Mode keep book.old lease book.new) }
    ensures leaves { OnErr result (LeavesOff M.Mode book.old lease book.new) }
    ensures idle { IsIdle book.new }
{
    if fill(book, &mut lease, usual).is_err() {
        let _ended = book.discard(lease);
        return Err(Memory);
    }
    bring_back(book, lease, keep)
}

/// Takes the steps of one lease of a hart, of so many steps at the most, where it may go on, and settles them. Whether it did.
/// Where memory is refused, the lease is given up. The lease takes these pages at once, and others as its steps lack them, which
/// are added to these.
pub fn go_for<M: Mode>(
    alloc: Global,
    book: &mut Book<M>,
    hart: Hart,
    keep: Keep,
    most: u64,
    usual: &mut PageMask,
) -> Result<bool, Memory>
    requires free { IsFreeAlone M.Mode }
    requires hart { hart < length book.old.machine.harts }
    requires idle { IsIdle book.old }
    requires most { most ≤ COUNT_LIMIT }
    ensures goes { IfOk result (λ went. MayGoFor M.Mode most keep went hart book.old book.new) }
    ensures not_gone { OnErr result (HasNotGoneFor M.Mode most hart book.old book.new) }
    ensures idle { IsIdle book.new }
{
    match book.lease(alloc, hart) {
        Ok(mut lease) => {
            lease.allow(most);
            go_on(book, lease, keep, usual)?;
            Ok(true)
        }
        Err(fault) if fault == BookFault::Memory => Err(Memory),
        Err(_) => Ok(false),
    }
}

/// The same of a lease of `LEASE_STEPS`, which takes each page as a step lacks it.
pub fn go<M: Mode>(
    alloc: Global,
    book: &mut Book<M>,
    hart: Hart,
    keep: Keep,
) -> Result<bool, Memory>
    requires free { IsFreeAlone M.Mode }
    requires hart { hart < length book.old.machine.harts }
    requires idle { IsIdle book.old }
    ensures goes { IfOk result (λ went. Goes M.Mode keep went hart book.old book.new) }
    ensures not_gone { OnErr result (HasNotGone M.Mode hart book.old book.new) }
    ensures idle { IsIdle book.new }
{
    go_for(alloc, book, hart, keep, LEASE_STEPS, &mut PageMask::none())
}

/// Lets each hart go on in turn, where it may, for a lease of so many steps at the most. Whether one did.
pub fn go_round<M: Mode>(
    alloc: Global,
    book: &mut Book<M>,
    keep: Keep,
    most: u64,
) -> Result<bool, Memory>
    requires free { IsFreeAlone M.Mode }
    requires idle { IsIdle book.old }
    requires most { most ≤ COUNT_LIMIT }
    ensures rounds { IfOk result (λ went. RoundsFor M.Mode most keep book.old went (length book.old.machine.harts) book.new) }
    ensures idle { OnOk result (IsIdle book.new) }
{
    let mut went = false;
    let harts = book.machine().harts();
    for number in 0..harts {
        if go_for(
            alloc,
            book,
            Hart::new(number),
            keep,
            most,
            &mut PageMask::none(),
        )? {
            went = true;
        }
    }
    Ok(went)
}
