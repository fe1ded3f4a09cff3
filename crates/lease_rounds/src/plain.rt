//! A primary on one thread: its harts go on in turn, one lease at a time.

ghost use Rattle.std.specs.Prelude.{◌≡◌, ◌<◌, ◌≤◌, IfOk};
ghost use Rattle.ft_types.specs.declared.names.TheConstants.{COUNT_LIMIT};
ghost use Rattle.page_book.specs.Tellings.{TellsOn};
ghost use Rattle.lease_rounds.specs.Running.{IsIdle, AreThrough, Continues, RunsOn, GoWithin, GoesRoundFor, KeepsOffered, KeepHeld};
ghost use Rattle.lease_rounds.specs.machinery.SoFar.{HasRun};

use crate::rounds::go_round;
use ft_types::Memory;
use page_book::{Book, Keep, Recording};
use std::alloc::Global;
use std::result::Result;

/// The book's journal led from its start to its machine.
pub fn has_run(book: &Book<Recording>)
    ensures { HasRun book.now }
{
    // proof: the journal leads to the machine, by the book's clause.
    let _machine = book.machine();
}

/// Runs a primary's harts in rising order, again and again, each for one lease of so many steps at the most until it is full, which is
/// settled and whose hart keeps its rights, until each hart is halted or at its limit. Where memory is refused the book is given up.
pub fn run_plain(alloc: Global, book: Book<Recording>, most: u64) -> Result<Book<Recording>, Memory>
    requires idle { IsIdle book }
    requires some { 0 < most }
    requires most { most ≤ COUNT_LIMIT }
    ensures done { IfOk result (λ b. AreThrough b) }
    ensures idle { IfOk result (λ b. IsIdle b) }
    ensures continues { IfOk result (λ b. Continues book b) }
    ensures tells { IfOk result (λ b. TellsOn book b) }
    ensures runs { IfOk result (λ b. RunsOn book b) }
    ensures rounds { IfOk result (λ b. GoesRoundFor most book b) }
    ensures offered { IfOk result (λ b. KeepsOffered book b) }
    ensures limits { IfOk result (λ b. b.mode.limits ≡ book.mode.limits) }
    ensures notes { IfOk result (λ b. b.mode.notes ≡ book.mode.notes) }
    ensures counts { IfOk result (λ b. GoWithin book b) }
    ensures held { IfOk result (λ b. KeepHeld book b) }
{
    let mut book = book;
    // proof: it has run before.
    has_run(&book);
    loop {
        if !go_round(alloc, &mut book, Keep::All, most)? {
            // proof: and it has run now.
            has_run(&book);
            return Ok(book);
        }
    }
}
