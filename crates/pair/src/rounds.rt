//! How far a primary goes, round by round.

ghost use Rattle.std.specs.Prelude.{◌≡◌, length};
ghost use Rattle.ft_types.specs.Counts.{IsWithin};
ghost use Rattle.pair.specs.Rounds.{AreRoundsFrom};

use ft_types::{Counts, Hart};
use log_streams::Budget;

/// How many steps a round gives each hart, at the most.
pub(crate) const ROUND: u64 = 4096;

/// How many rounds a hart goes on, at the most, until it has the primary look at the book, and keepers be sent what is new: a lease comes back for that, and to
/// send it wakes a thread for each keeper, which takes longer than a round does.
pub(crate) const ROUNDS_SENT: u64 = 8;

/// How many more it may go on until the primary has looked: whoever looks may have to wait for a processor.
pub(crate) const ROUNDS_AHEAD: u64 = 24;

/// Whether a hart has gone on from these counts to those by as many rounds as are sent at once.
pub(crate) fn has_gone_on(before: &Counts, now: &Counts) -> bool {
    for number in 0..now.harts() {
        let hart = Hart::new(number);
        let since = if number < before.harts() {
            before.get(hart)
        } else {
            0
        };
        if now.get(hart).saturating_sub(since) >= ROUNDS_SENT * ROUND {
            return true;
        }
    }
    false
}

/// Where so many rounds end that begin at these counts: each hart's is so many times a round's steps further, or the budget where that comes first.
pub(crate) fn rounds_on(counts: Counts, budget: Budget, rounds: u64) -> Counts
    ensures harts { length result ≡ length counts }
    ensures rounds { AreRoundsFrom counts budget rounds result }
    ensures forward { IsWithin counts result }
{
    let mut end = counts;
    let steps = rounds.saturating_mul(ROUND);
    for number in 0..counts.harts() {
        let hart = Hart::new(number);
        let count = counts.get(hart);
        let goal = budget.steps().min(count.saturating_add(steps));
        end.set(hart, count.max(goal));
    }
    end
}
