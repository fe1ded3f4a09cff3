//! Who left a page, and when.

ghost use Rattle.std.specs.Prelude.{◌≡◌, ◌<◌, ◌≤◌, ℕ, Some, None, length, replicate, slice_index_or, slice_set};

use ft_types::{Count, HART_LIMIT, HART_ROW, Hart, HartSet};
use std::marker::Model;
use std::option::Option;

/// For each hart that left, its count on leaving.
#[derive(Clone, Copy, PartialEq, Eq)]
pub struct LeftAt {
    /// The harts that left.
    harts: HartSet,
    /// One more than the highest of them, or 0.
    reach: u8,
    /// Their counts; 0 for each other hart.
    counts: [Count; HART_ROW],
}

impl Model for LeftAt {
    ghost use Rattle.std.specs.Prelude.{ℕ, List, Option};
    ghost use Rattle.crew_pages.specs.machinery.Leaving.{left_of, harts_of, counts_of, AreLeft, harts_back, counts_back};
    ghost use Rattle.crew_pages.specs.machinery.Reach.{reach_of};

    ghost Value = { List (Option ℕ) };

    ghost view = { λ l. left_of l.harts l.counts };

    ghost invariant = { λ l. AreLeft l.harts l.counts l.reach };

    ghost inverse = { λ v. record { harts = harts_of v; reach = reach_of v; counts = counts_of v } };

    ghost inverse_ok = { λ l are i. record { harts = harts_back are i; reach = are.reaches i; counts = counts_back are i } };
}

/// A count of 0, for each hart.
fn no_counts() -> [Count; HART_ROW]
    ensures { result ≡ replicate HART_ROW 0 }
{
    [0; HART_ROW]
}

impl LeftAt {
    /// No hart left.
    pub(crate) fn none() -> LeftAt
        ensures { (hart : ℕ) → slice_index_or result hart None ≡ None }
    {
        let harts = HartSet::new();
        // proof: it has a flag for each hart.
        harts.has_row();
        LeftAt {
            harts,
            reach: 0,
            counts: no_counts(),
        }
    }

    /// The hart's count on leaving, where it left.
    pub(crate) fn get(&self, hart: Hart) -> Option<Count>
        ensures { result ≡ slice_index_or self.now hart None }
    {
        if self.harts.contains(hart) {
            Some(self.counts[hart.index()])
        } else {
            None
        }
    }

    /// This hart left, at this count.
    pub(crate) fn leave(&mut self, hart: Hart, count: Count)
        ensures value { self.new ≡ slice_set self.old hart (Some count) }
        ensures row { hart < length self.old }
    {
        self.harts = self.harts.with(hart);
        self.reach = self.reach.max(hart.number() + 1);
        self.counts[hart.index()] = count;
    }

    /// From this hart on none has left.
    pub(crate) fn reach(&self) -> u8
        ensures limit { result ≤ HART_LIMIT }
        ensures beyond { (hart : ℕ) → result ≤ hart → slice_index_or self.now hart None ≡ None }
    {
        self.reach
    }
}
