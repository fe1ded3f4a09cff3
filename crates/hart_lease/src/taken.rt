//! When a lease took a page, and with which right.

ghost use Rattle.std.specs.Prelude.{◌≡◌, ◌↔◌, length, replicate, slice_set, None, Some, IfOk, IsTrue};
ghost use Rattle.hart_lease.specs.Taken.{right_of_taken, taken_at, taking};

use ft_types::{Count, Memory, PageNo, Want};
use std::alloc::Global;
use std::marker::Model;

/// The counts at which a lease first took a page, and at which it took it to write.
#[derive(Clone, Copy, PartialEq, Eq)]
pub struct Taken {
    /// The count at which it first took the page.
    pub read_at: Count,
    /// The count at which it took the page to write, where it did.
    pub write_at: Option<Count>,
}

/// The right of a lease that took a page so.
pub(crate) fn right_of(taken: &Option<Taken>) -> Option<Want>
    ensures { result ≡ right_of_taken taken.now }
{
    match taken {
        None => None,
        Some(taken) => match taken.write_at {
            None => Some(Want::Read),
            Some(_) => Some(Want::Write),
        },
    }
}

/// What a lease has taken of a page, once it is given it at this count.
pub(crate) fn with_taken(held: Option<Taken>, want: Want, count: Count) -> Taken
    ensures { result ≡ taking held want count }
{
    let read_at = match held {
        None => count,
        Some(taken) => taken.read_at,
    };
    let written = match held {
        None => None,
        Some(taken) => taken.write_at,
    };
    let write_at = match (want, written) {
        (Want::Write, None) => Some(count),
        _ => written,
    };
    Taken { read_at, write_at }
}

fn same_row(row: &[Option<Taken>], other: &[Option<Taken>]) -> bool
    ensures { IsTrue result ↔ (row.now ≡ other.now) }
{
    row == other
}

/// Since when a lease has each page of its machine.
pub struct TakenPages {
    row: Vec<Option<Taken>>,
}

impl Drop for TakenPages {
    fn drop(self) {
        let TakenPages { row: _ } = self;
    }
}

impl Model for TakenPages {
    ghost use Rattle.std.specs.Prelude.{List, Option};
    ghost use Rattle.hart_lease.specs.declared.taken.Taken.{Taken};

    ghost Value = { List (Option Taken) };

    ghost view = { λ t. t.row.items };
}

impl TakenPages {
    /// None of so many pages.
    pub fn none(alloc: Global, pages: u16) -> Result<TakenPages, Memory>
        ensures { IfOk result (λ t. t ≡ replicate pages None) }
    {
        let mut row = Vec::new(alloc);
        row.resize(pages as usize, None)?;
        Ok(TakenPages { row })
    }

    /// No page is taken any more.
    pub(crate) fn clear(&mut self)
        ensures { self.new ≡ replicate (length self.old) None }
    {
        self.row.fill(None);
    }

    /// Writes down that the page was taken at this count. The machine has the page.
    #[tactic(auto, using(crate::proofs::pages::Rows::set_beyond))]
    pub(crate) fn take(&mut self, page: PageNo, want: Want, count: Count)
        ensures { self.new ≡ slice_set self.old page (Some (taking (taken_at self.old page) want count)) }
    {
        if page.index() < self.row.len() {
            let held = self.row[page.index()];
            self.row[page.index()] = Some(with_taken(held, want, count));
        }
    }

    /// The row, by rising page.
    pub(crate) fn row(&self) -> &[Option<Taken>]
        ensures { result.now ≡ self.now }
    {
        self.row.as_slice()
    }

    /// What was taken of a page: nothing, where the machine has no such page.
    #[tactic(auto, using(crate::proofs::pages::Rows::none_beyond))]
    pub(crate) fn held(&self, page: PageNo) -> Option<Taken>
        ensures { result ≡ taken_at self.now page }
    {
        if page.index() < self.row.len() {
            return self.row[page.index()];
        }
        None
    }

    /// Whether each page was taken as in this row.
    pub(crate) fn same(&self, row: &[Option<Taken>]) -> bool
        ensures { IsTrue result ↔ (self.now ≡ row.now) }
    {
        same_row(self.row.as_slice(), row)
    }
}
