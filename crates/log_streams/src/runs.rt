//! Who runs a primary's book.

ghost use Rattle.std.specs.Prelude.{◌≡◌, ◌≤◌, ℕ, IfOk};
ghost use Rattle.ft_types.specs.Counts.{count_at};
ghost use Rattle.hart_lease.specs.Runs.{counts_of};
ghost use Rattle.book_modes.specs.Recordings.{RecordingView};
ghost use Rattle.page_book.specs.Books.{BookView};
ghost use Rattle.lease_rounds.specs.Running.{IsIdle, AreThrough, Continues, RunsOn, GoWithin, KeepsOffered};

use crate::replays::{Plainly, Replays};
use ft_types::{LEASE_STEPS, Memory};
use lease_rounds::run_plain;
use page_book::{Book, Recording};
use std::alloc::Global;

/// Who runs books, beside replays: in turn, or on threads.
pub trait Runs: Replays {
    /// How harts go on from the first book to the second: nothing is said of it where they go on threads.
    ghost goes: { Self → BookView RecordingView → BookView RecordingView → Type 0 };

    /// Runs each hart until it is halted or at its limit. Where memory is refused the book is given up.
    fn run_book(&self, alloc: Global, book: Book<Recording>) -> Result<Book<Recording>, Memory>
        requires may { Self.may_run self.now }
        requires idle { IsIdle book }
        requires below { (hart : ℕ) → counts_of book.machine hart ≤ count_at book.mode.limits hart }
        ensures done { IfOk result (λ b. AreThrough b) }
        ensures idle { IfOk result (λ b. IsIdle b) }
        ensures continues { IfOk result (λ b. Continues book b) }
        ensures runs { IfOk result (λ b. RunsOn book b) }
        ensures offered { IfOk result (λ b. KeepsOffered book b) }
        ensures limits { IfOk result (λ b. b.mode.limits ≡ book.mode.limits) }
        ensures counts { IfOk result (λ b. GoWithin book b) }
        ensures order { IfOk result (λ b. goes self.now book b) };
}

impl Runs for Plainly {
    ghost use Rattle.lease_rounds.specs.Running.{GoesRound};

    ghost goes = { λ _ b c. GoesRound b c };

    fn run_book(&self, alloc: Global, book: Book<Recording>) -> Result<Book<Recording>, Memory> {
        run_plain(alloc, book, LEASE_STEPS)
    }
}
