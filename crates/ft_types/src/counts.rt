//! Rows of one count per hart.

ghost use Rattle.std.specs.Prelude.{◌≡◌, ◌<◌, ◌≤◌, ◌^◌, ◌↔◌, ◌++◌, ℕ, List, length, take, drop, replicate, slice_index, slice_set, IsTrue, IfSome, IsSome, Some};
ghost use Rattle.std.specs.List.{AllByRecursion};
ghost use Rattle.ft_types.specs.Counts.{IsCount, count_at, lesser, greater, zipped, IsWithin};

use crate::names::{COUNT_LIMIT, Count, HART_LIMIT, HART_ROW, Hart};
use std::marker::Model;

/// One count per hart. Contracts see the list of the counts, by rising hart.
#[derive(Clone, Copy, Debug, PartialEq, Eq)]
pub struct Counts {
    row: [u64; HART_ROW],
    harts: u8,
}

impl Model for Counts {
    ghost use Rattle.std.specs.Prelude.{ℕ, List, take, length, ◌-◌, ◌++◌, replicate, refl};
    ghost use Rattle.ft_types.specs.declared.names.TheConstants.{HART_ROW};
    ghost use Rattle.ft_types.specs.machinery.Rows.{IsRow, words_of_view, length_of_view};

    ghost Value = { List ℕ };

    ghost view = { λ c. take c.harts c.row };

    ghost invariant = { λ c. IsRow c.row c.harts };

    ghost inverse = { λ xs. record { row = xs ++ replicate (HART_ROW - length xs) 0; harts = length xs } };

    ghost inverse_ok = { λ a h. Prim.rw (words_of_view a.row a.harts h, length_of_view a.row a.harts h) refl };
}

/// A row with a count of 0 for each hart.
fn no_counts() -> [u64; HART_ROW]
    ensures { result ≡ replicate HART_ROW 0 }
{
    [0; HART_ROW]
}

/// In so many harts the smaller counts, and behind them those of the first row.
fn least(row: &[u64; HART_ROW], other: &[u64; HART_ROW], harts: u8) -> [u64; HART_ROW]
    requires { harts ≤ HART_LIMIT }
    ensures { result ≡ lesser (take harts row.now) (take harts other.now) ++ drop harts row.now }
{
    let mut least = *row;
    for i in 0..harts as usize {
        least[i] = row[i].min(other[i]);
    }
    least
}

/// In so many harts the greater counts, and behind them those of the first row.
fn greatest(row: &[u64; HART_ROW], other: &[u64; HART_ROW], harts: u8) -> [u64; HART_ROW]
    requires { harts ≤ HART_LIMIT }
    ensures { result ≡ greater (take harts row.now) (take harts other.now) ++ drop harts row.now }
{
    let mut greatest = *row;
    for i in 0..harts as usize {
        greatest[i] = row[i].max(other[i]);
    }
    greatest
}

/// Whether the counts are equal.
pub fn same_counts(counts: &[Count], others: &[Count]) -> bool
    ensures { IsTrue result ↔ (counts.now ≡ others.now) }
{
    counts == others
}

impl Counts {
    /// All counts 0.
    pub fn zero(harts: u8) -> Counts
        requires { harts ≤ HART_LIMIT }
        ensures { result ≡ replicate harts 0 }
    {
        Counts {
            row: no_counts(),
            harts,
        }
    }

    /// The counts of these harts: `None` where there are more than `HART_LIMIT` or one is no count.
    pub fn from_slice(counts: &[u64]) -> Option<Counts>
        ensures value { IfSome result (λ c. c ≡ counts.now) }
        ensures exact { IsSome result ↔ ((length counts.now ≤ HART_LIMIT) × AllByRecursion IsCount counts.now) }
    {
        if counts.len() > HART_ROW {
            return None;
        }
        let mut row = no_counts();
        for (i, count) in counts.iter().enumerate() {
            if *count >= COUNT_LIMIT {
                return None;
            }
            row[i] = *count;
        }
        Some(Counts {
            row,
            harts: counts.len() as u8,
        })
    }

    /// The number of harts.
    pub fn harts(&self) -> u8
        ensures value { result ≡ length self.now }
        ensures limit { result ≤ HART_LIMIT }
    {
        self.harts
    }

    /// The counts, by rising hart.
    pub fn as_slice(&self) -> &[Count]
        ensures value { result.now ≡ self.now }
        ensures limit { length result.now ≤ HART_LIMIT }
        ensures counts { AllByRecursion IsCount result.now }
    {
        &self.row[..self.harts as usize]
    }

    /// A hart's count.
    pub fn get(&self, hart: Hart) -> Count
        requires { hart < length self.now }
        ensures value { result ≡ slice_index self.now hart }
        ensures limit { result < COUNT_LIMIT }
    {
        self.row[hart.index()]
    }

    /// A hart's count, 0 where the row has none.
    pub fn count_of(&self, hart: Hart) -> Count
        ensures value { result ≡ count_at self.now hart }
        ensures limit { result < COUNT_LIMIT }
    {
        if hart.number() < self.harts() {
            self.get(hart)
        } else {
            0
        }
    }

    /// Changes a hart's count.
    pub fn set(&mut self, hart: Hart, count: Count)
        requires hart { hart < length self.old }
        requires count { count < COUNT_LIMIT }
        ensures { self.new ≡ slice_set self.old hart count }
    {
        self.row[hart.index()] = count;
    }

    /// Becomes the other counts. Where both are of as many harts, no more is moved than theirs.
    pub fn copy_from(&mut self, other: &Counts)
        ensures { self.new ≡ other.now }
    {
        if self.harts != other.harts {
            *self = *other;
            return;
        }
        let harts = self.harts as usize;
        self.row[..harts].copy_from_slice(&other.row[..harts]);
    }

    /// Hart by hart, the smaller count.
    pub fn meet(self, other: Counts) -> Counts
        requires { length self ≡ length other }
        ensures { result ≡ lesser self other }
    {
        Counts {
            row: least(&self.row, &other.row, self.harts),
            harts: self.harts,
        }
    }

    /// Hart by hart, the greater count.
    pub fn max(self, other: Counts) -> Counts
        requires { length self ≡ length other }
        ensures { result ≡ greater self other }
    {
        Counts {
            row: greatest(&self.row, &other.row, self.harts),
            harts: self.harts,
        }
    }

    /// Whether each count is at most the other's.
    pub fn within(self, other: Counts) -> bool
        requires { length self ≡ length other }
        ensures { IsTrue result ↔ IsWithin self other }
    {
        for i in 0..self.harts as usize {
            if self.row[i] > other.row[i] {
                return false;
            }
        }
        true
    }
}
