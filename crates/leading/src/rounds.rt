//! Rounds of a primary, on the calling thread.

ghost use Rattle.std.specs.Prelude.{◌≡◌, ◌<◌, ◌≤◌, ◌+◌, ◌-◌, ℕ, length, min, IfOk};
ghost use Rattle.ft_types.specs.Counts.{count_at};
ghost use Rattle.ft_types.specs.declared.names.TheConstants.{COUNT_LIMIT};
ghost use Rattle.lease_rounds.specs.Running.{IsIdle};
ghost use Rattle.lease_rounds.specs.Steps.{AreWithin};
ghost use Rattle.leading.specs.Rounds.{HasGoneOn, lease_steps as steps_of_lease};

use ft_types::{COUNT_LIMIT, Count, Counts, Hart, LEASE_STEPS, Memory};
use lease_rounds::run_plain;
use primary::{Primary, no_limits, tell_primary};
use std::alloc::Global;
use std::result::Result;

/// Where a round of so many steps ends.
fn round_end(counts: Counts, steps: Count) -> Counts
    ensures harts { length result ≡ length counts }
    ensures least { (hart : ℕ) → count_at counts hart ≤ count_at result hart }
    ensures end { (hart : ℕ) → count_at result hart ≤ count_at counts hart + steps }
    ensures far { (hart : ℕ) → hart < length counts → min (count_at counts hart + steps) (COUNT_LIMIT - 1) ≤ count_at result hart }
{
    let mut end = counts;
    for number in 0..counts.harts() {
        let hart = Hart::new(number);
        end.set(
            hart,
            counts.get(hart) + steps.min(COUNT_LIMIT - 1 - counts.get(hart)),
        );
    }
    end
}

/// How many steps a lease has at the most: a hart alone goes to the round's end, and where there are more each waits for the others.
fn lease_steps(harts: u8) -> Count
    ensures value { result ≡ steps_of_lease harts }
    ensures some { 0 < result }
    ensures most { result ≤ COUNT_LIMIT }
{
    if harts == 1 { COUNT_LIMIT } else { LEASE_STEPS }
}

/// Each hart goes on for so many steps, or until it is halted. Where memory is refused the primary is given up.
pub(crate) fn go_on(alloc: Global, primary: Primary, steps: Count) -> Result<Primary, Memory>
    requires idle { IsIdle primary.book }
    requires within { AreWithin primary.book }
    ensures on { IfOk result (λ p. HasGoneOn steps primary.book p.book) }
    ensures opening { IfOk result (λ p. p.opening ≡ primary.opening) }
    ensures sealed { IfOk result (λ p. p.sealed ≡ primary.sealed) }
{
    let Primary {
        opening,
        mut book,
        sealed,
    } = primary;
    // proof: its log is honest, before and after.
    tell_primary(&book);
    let lease = lease_steps(book.machine().harts());
    let end = round_end(book.counts(), steps);
    book.limit_at(end);
    let mut book = run_plain(alloc, book, lease)?;
    let now = book.counts();
    // proof: counts are below their limit.
    let _counts = now.as_slice();
    book.limit_at(no_limits(now.harts()));
    tell_primary(&book);
    Ok(Primary {
        opening,
        book,
        sealed,
    })
}
