//! What a lease that is given a page gets.

ghost use Rattle.std.specs.Prelude.{◌≡◌, ◌<◌, ◌≤◌, ◌++◌, ℕ, List, length, replicate, None, Some, IfOk, IfSome, OnOk, OnErr};
ghost use Rattle.ft_types.specs.declared.names.TheConstants.{HART_LIMIT};
ghost use Rattle.hart_lease.specs.OpenLeases.{open_at};
ghost use Rattle.page_book.specs.machinery.Words.{base_at, edges_after, given_more, OpenView, with_page};

use edge_log::Edge;
use ft_types::{HART_ROW, Memory, PageNo, Want};
use guest_image::{Page, SharedPage};
use hart_lease::{Asked, EDGE_ROOM, OpenLease};
use smallvec::SmallVec;
use std::alloc::Global;
use std::array;

/// What a lease's next step owes for a page that it is given.
pub(crate) struct Owed {
    /// The edges that were found.
    pub(crate) found: SmallVec<Edge, HART_ROW>,
    /// The edges that wait in the lease from then on, where any were found.
    pub(crate) waiting: Option<Box<SmallVec<Edge, EDGE_ROOM>>>,
    /// The same, for what the book knows of its open lease.
    pub(crate) known: Option<Box<SmallVec<Edge, EDGE_ROOM>>>,
}

/// No hart has an open lease.
fn none_open() -> [Option<OpenLease>; HART_ROW]
    ensures { result ≡ replicate HART_ROW None }
{
    array::from_fn(|_| None)
}

/// The same, in memory of their own.
pub(crate) fn no_leases(alloc: Global) -> Result<Box<[Option<OpenLease>; HART_ROW]>, Memory>
    ensures { IfOk result (λ leases. leases.value ≡ replicate HART_ROW None) }
{
    Ok(Box::new(alloc, none_open())?)
}

/// Closes an open lease, where there is one. A lease is large, and most often there is none.
fn close(lease: &mut Option<OpenLease>)
    ensures { lease.new ≡ None }
{
    if lease.is_some() {
        *lease = None;
    }
}

/// Closes every open lease. Only so many harts have one.
pub(crate) fn close_all(leases: &mut [Option<OpenLease>; HART_ROW], harts: u8)
    requires limit { harts ≤ HART_LIMIT }
    requires known { (hart : ℕ) → harts ≤ hart → open_at leases.old hart ≡ None }
    ensures { leases.new ≡ replicate HART_ROW None }
{
    for place in 0..usize::from(harts) {
        close(&mut leases[place]);
    }
}

/// The edges that wait, with those found, where any were found.
#[inline(always)]
pub(crate) fn with_edges(
    alloc: Global,
    waiting: &[Edge],
    found: &[Edge],
) -> Result<Option<Box<SmallVec<Edge, EDGE_ROOM>>>, Memory>
    ensures { IfOk result (λ all. edges_after all waiting.now ≡ waiting.now ++ found.now) }
{
    if found.is_empty() {
        return Ok(None);
    }
    let all = joined(alloc, waiting, found)?;
    Ok(Some(all))
}

/// These edges and those. Not inlined, since a function clears its locals when it begins, and edges are seldom found.
#[inline(never)]
fn joined(
    alloc: Global,
    waiting: &[Edge],
    found: &[Edge],
) -> Result<Box<SmallVec<Edge, EDGE_ROOM>>, Memory>
    ensures { IfOk result (λ all. all.value.items ≡ waiting.now ++ found.now) }
{
    let mut all = SmallVec::from_slice(alloc, waiting)?;
    all.extend_from_slice(found)?;
    Ok(Box::new(alloc, all)?)
}

/// A copy of a page: the one that is there, where one is.
fn copied(kept: Option<Page>, page: &Page) -> Result<Page, Memory>
    requires { IfSome kept (λ p. p ≡ page.now) }
    ensures { IfOk result (λ p. p ≡ page.now) }
{
    match kept {
        Some(copy) => Ok(copy),
        None => page.copy(),
    }
}

/// Gives the lease the page as it stands here. The copy is for a page that is to be written.
pub(crate) fn give(
    lease: &mut hart_lease::Lease,
    page: PageNo,
    here: SharedPage,
    want: Want,
    copy: Option<Page>,
) -> Result<(), Memory>
    requires page { page < length lease.old.slots }
    requires copy { IfSome copy (λ p. p ≡ here) }
    requires lent { (bytes : List ℕ) → base_at lease.old page ≡ Some bytes → bytes ≡ here }
    ensures hart { lease.new.hart ≡ lease.old.hart }
    ensures base { lease.new.base ≡ lease.old.base }
    ensures present { lease.new.present ≡ lease.old.present }
    ensures steps { lease.new.steps ≡ lease.old.steps }
    ensures stop { lease.new.stop ≡ lease.old.stop }
    ensures edges { lease.new.edges ≡ lease.old.edges }
    ensures slots { length lease.new.slots ≡ length lease.old.slots }
    ensures given { OnOk result (lease.new ≡ with_page lease.old page want here) }
    ensures kept { OnErr result (lease.new ≡ lease.old) }
{
    match (want, lease.right(page)) {
        (Want::Read, None) => lease.take_to_read(page, here),
        (Want::Write, None) => {
            let copy = copied(copy, here.page())?;
            lease.take_to_write(page, here, copy);
        }
        (Want::Write, Some(held)) => match held {
            Want::Read => {
                let copy = copied(copy, here.page())?;
                lease.raise_to_write(page, copy);
            }
            Want::Write => {}
        },
        _ => {}
    }
    Ok(())
}

/// Writes down that an open lease was given the right that it asked for, and found edges: these wait in it now.
pub(crate) fn note_taken(
    lease: &mut Option<OpenLease>,
    asked: &Asked,
    _found: &[Edge],
    waiting: Option<Box<SmallVec<Edge, EDGE_ROOM>>>,
)
    requires { (lent : OpenView) → lease.old ≡ Some lent → edges_after waiting lent.edges ≡ lent.edges ++ _found.now }
    ensures { lease.new ≡ given_more lease.old asked.now.page asked.now.want asked.now.count _found.now }
{
    if let Some(open) = lease {
        open.take(asked, waiting);
    }
}
