//! A primary on threads: each hart goes on under leases of its own.

ghost use Rattle.std.specs.Prelude.{◌≡◌, ◌≤◌, ℕ, length, IfOk};
ghost use Rattle.ft_types.specs.Counts.{count_at, greater};
ghost use Rattle.hart_lease.specs.Runs.{counts_of};
ghost use Rattle.book_modes.specs.Recordings.{GoesOn};
ghost use Rattle.page_book.specs.Reclaims.{GoesOnFrom};
ghost use Rattle.page_book.specs.Tellings.{TellsOn};
ghost use Rattle.lease_rounds.specs.Running.{IsIdle, AreAtBudget, Continues, GoToBudget, RunsOn, KeepsOffered};

use crate::crew::run_overseen;
use crate::fault::PoolFault;
use crate::overseer::{Nobody, Overseer};
use crate::turnstile::{Free, Turnstile};
use ft_types::{Counts, HART_ROW, HartSet, LEASE_STEPS};
use input_log::NoteLog;
use lease_rounds::{has_run, run_plain};
use page_book::{Book, Recording};
use std::alloc::Global;
use std::result::Result;
use std::sync::Wait;
use std::thread::Threads;
use steering::Pace;

/// What the threads left, where it goes on from the copy of what they were given, and no hart is past its budget; else the copy. And whether
/// it is what they left.
fn pick(held: Book<Recording>, copy: Book<Recording>, budget: &Counts) -> (Book<Recording>, bool)
    requires harts { length budget.now ≡ length copy.machine.harts }
    requires below { (hart : ℕ) → counts_of copy.machine hart ≤ count_at budget.now hart }
    ensures goes_on { GoesOnFrom (λ r settled new now. GoesOn r settled new now) copy result.0 }
    ensures below { (hart : ℕ) → counts_of result.0.machine hart ≤ count_at budget.now hart }
{
    // proof: both have run.
    has_run(&held);
    has_run(&copy);
    if !held.continues(&copy) {
        return (copy, false);
    }
    if !held.counts().within(*budget) {
        return (copy, false);
    }
    (held, true)
}

/// Ends the leases that the book has open, and lets its harts go on in turn to the budget.
fn finish(
    alloc: Global,
    book: Book<Recording>,
    budget: Counts,
) -> Result<Book<Recording>, PoolFault>
    requires harts { length budget ≡ length book.machine.harts }
    requires below { (hart : ℕ) → counts_of book.machine hart ≤ count_at budget hart }
    ensures done { IfOk result (λ b. AreAtBudget budget b) }
    ensures idle { IfOk result (λ b. IsIdle b) }
    ensures continues { IfOk result (λ b. Continues book b) }
    ensures offered { IfOk result (λ b. KeepsOffered book b) }
    ensures counts { IfOk result (λ b. GoToBudget budget book b) }
    ensures limits { IfOk result (λ b. b.mode.limits ≡ budget) }
{
    let mut book = book;
    book.reclaim();
    book.limit_at(budget);
    Ok(run_plain(alloc, book, LEASE_STEPS)?)
}

/// Runs a primary's harts, each on a thread of its own once that is better than all in turn on the calling one, one hart alone on the
/// calling thread, until each hart is halted or at its budget, and no hart past it. What is left undone is done here, harts in
/// turn. Where memory is refused the book is given up.
pub fn run<R: Threads + Wait + Sync, T: Turnstile + Sync>(
    rt: &R,
    alloc: Global,
    book: Book<Recording>,
    budget: Counts,
    turnstile: &T,
) -> Result<Book<Recording>, PoolFault>
    requires idle { IsIdle book }
    requires harts { length budget ≡ length book.machine.harts }
    requires below { (hart : ℕ) → counts_of book.machine hart ≤ count_at budget hart }
    ensures done { IfOk result (λ b. AreAtBudget budget b) }
    ensures idle { IfOk result (λ b. IsIdle b) }
    ensures continues { IfOk result (λ b. Continues book b) }
    ensures tells { IfOk result (λ b. TellsOn book b) }
    ensures runs { IfOk result (λ b. RunsOn book b) }
    ensures offered { IfOk result (λ b. KeepsOffered book b) }
    ensures limits { IfOk result (λ b. b.mode.limits ≡ greater budget book.mode.limits) }
    ensures counts { IfOk result (λ b. GoToBudget budget book b) }
{
    run_with(rt, alloc, book, budget, turnstile, HartSet::new())
}

/// What `run_with` does, of a book that it copies, and compares with the copy, whole; and an overseer looks at it meanwhile. Where he could not
/// hand on what he took, or took it of a book that does not go on, the book is given up.
fn run_copied<R: Threads + Wait + Sync, T: Turnstile + Sync, O: Overseer<Recording> + Send + Drop>(
    rt: &R,
    alloc: Global,
    book: Book<Recording>,
    budget: Counts,
    turnstile: &T,
    here: HartSet,
    overseer: O,
) -> Result<(Book<Recording>, O), PoolFault>
    requires idle { IsIdle book }
    requires harts { length budget ≡ length book.machine.harts }
    requires below { (hart : ℕ) → counts_of book.machine hart ≤ count_at budget hart }
    ensures done { IfOk result (λ r. AreAtBudget budget r.0) }
    ensures idle { IfOk result (λ r. IsIdle r.0) }
    ensures continues { IfOk result (λ r. Continues book r.0) }
    ensures runs { IfOk result (λ r. RunsOn book r.0) }
    ensures offered { IfOk result (λ r. KeepsOffered book r.0) }
    ensures limits { IfOk result (λ r. r.0.mode.limits ≡ greater budget book.mode.limits) }
    ensures counts { IfOk result (λ r. GoToBudget budget book r.0) }
{
    // proof: the journal leads to the machine.
    has_run(&book);
    let limits = book.limits();
    let mut book = book;
    book.limit_at(budget);
    // proof: the journal leads to the machine.
    has_run(&book);
    let copy = book.copy()?;
    let (held, overseer) = run_overseen(
        rt,
        alloc,
        book,
        budget,
        turnstile,
        Pace::Even,
        here,
        overseer,
    );
    let (book, is_held) = pick(held, copy, &budget);
    if overseer.is_lost() || !(is_held || overseer.is_absent()) {
        return Err(PoolFault::Memory);
    }
    // proof: the journal leads to the machine.
    has_run(&book);
    let mut book = finish(alloc, book, budget)?;
    book.limit_to(limits);
    // proof: the journal leads to the machine.
    has_run(&book);
    Ok((book, overseer))
}

/// What `run` does, and an overseer looks at the book, first of all and then whenever a hart has come as far as he has let it.
pub fn run_seen<R: Threads + Wait + Sync, O: Overseer<Recording> + Send + Drop>(
    rt: &R,
    alloc: Global,
    book: Book<Recording>,
    budget: Counts,
    overseer: O,
) -> Result<(Book<Recording>, O), PoolFault>
    requires idle { IsIdle book }
    requires harts { length budget ≡ length book.machine.harts }
    requires below { (hart : ℕ) → counts_of book.machine hart ≤ count_at budget hart }
    ensures done { IfOk result (λ r. AreAtBudget budget r.0) }
    ensures idle { IfOk result (λ r. IsIdle r.0) }
    ensures continues { IfOk result (λ r. Continues book r.0) }
    ensures runs { IfOk result (λ r. RunsOn book r.0) }
    ensures offered { IfOk result (λ r. KeepsOffered book r.0) }
    ensures limits { IfOk result (λ r. r.0.mode.limits ≡ greater budget book.mode.limits) }
    ensures counts { IfOk result (λ r. GoToBudget budget book r.0) }
{
    run_copied(rt, alloc, book, budget, &Free, HartSet::new(), overseer)
}

/// The same, and harts of this set have no threads: they go on the calling thread beside the others, in turn and without the
/// turnstile, as `run` has those go whose threads cannot be made.
pub fn run_with<R: Threads + Wait + Sync, T: Turnstile + Sync>(
    rt: &R,
    alloc: Global,
    book: Book<Recording>,
    budget: Counts,
    turnstile: &T,
    here: HartSet,
) -> Result<Book<Recording>, PoolFault>
    requires idle { IsIdle book }
    requires harts { length budget ≡ length book.machine.harts }
    requires below { (hart : ℕ) → counts_of book.machine hart ≤ count_at budget hart }
    ensures done { IfOk result (λ b. AreAtBudget budget b) }
    ensures idle { IfOk result (λ b. IsIdle b) }
    ensures continues { IfOk result (λ b. Continues book b) }
    ensures tells { IfOk result (λ b. TellsOn book b) }
    ensures runs { IfOk result (λ b. RunsOn book b) }
    ensures offered { IfOk result (λ b. KeepsOffered book b) }
    ensures limits { IfOk result (λ b. b.mode.limits ≡ greater budget book.mode.limits) }
    ensures counts { IfOk result (λ b. GoToBudget budget book b) }
{
    let mut book = book;
    // No hart notes anything. So the notes lie aside, and are neither copied nor compared.
    let mut notes = NoteLog::new(alloc);
    book.swap_notes(&mut notes);
    let (mut book, _nobody) = run_copied(rt, alloc, book, budget, turnstile, here, Nobody)?;
    book.swap_notes(&mut notes);
    Ok(book)
}
