//! The steps that used pages last.

ghost use Rattle.std.specs.Prelude.{◌≡◌, ◌≢◌, ◌<◌, ◌≤◌, ℕ, length, replicate, IfOk, OnOk, OnErr, IfSome, IfNone};
ghost use Rattle.ft_types.specs.declared.names.TheConstants.{HART_LIMIT, HART_ROW};
ghost use Rattle.log_audit.specs.machinery.Marks.{unused, uses_at, used_by, noted_at, StandsAgainst, IsClear};

use crate::trimmed::{Row, TrimmedRow};
use ft_types::{Count, Hart, Memory, PageNo, Want};
use std::alloc::Global;
use std::marker::Model;

/// For each hart, the last step that asked to read a page and the last that asked to write it, as one more than that step's
/// count; 0 where there is none.
#[derive(Drop)]
pub(crate) struct Uses {
    read: TrimmedRow,
    written: TrimmedRow,
}

impl Uses {
    /// No step used the page.
    fn none(alloc: Global) -> Uses
        ensures { result ≡ unused }
    {
        Uses {
            read: TrimmedRow::none(alloc),
            written: TrimmedRow::none(alloc),
        }
    }

    /// How many harts may have a step that conflicts with such a use by another.
    fn reach(&self, want: Want) -> u8
        ensures few { result ≤ HART_LIMIT }
        ensures rest { (hart : ℕ) → result ≤ hart → used_by self.now want hart ≡ 0 }
    {
        let written = self.written.reach();
        match want {
            Want::Read => written,
            Want::Write => written.max(self.read.reach()),
        }
    }

    /// The mark of the hart's last step that conflicts with such a use by another.
    fn conflicting(&self, want: Want, hart: Hart) -> Count
        ensures { result ≡ used_by self.now want hart }
    {
        let written = self.written.count(hart);
        match want {
            Want::Read => written,
            Want::Write => written.max(self.read.count(hart)),
        }
    }
}

/// The last uses of each page.
#[derive(Drop)]
pub(crate) struct Marks {
    uses: Vec<Uses>,
}

impl Model for Marks {
    ghost use Rattle.std.specs.Prelude.{List};
    ghost use Rattle.log_audit.specs.declared.marks.Uses.{Uses};

    ghost Value = { List Uses };

    ghost view = { λ m. m.uses.items };
}

fn no_uses(alloc: Global, pages: u16) -> Result<Vec<Uses>, Memory>
    ensures { IfOk result (λ v. v.items ≡ replicate pages unused) }
{
    let mut uses = Vec::with_capacity(alloc, pages as usize)?;
    for _page in 0..pages {
        uses.push(Uses::none(alloc))?;
    }
    Ok(uses)
}

impl Marks {
    /// So many pages that no step used.
    pub(crate) fn none(alloc: Global, pages: u16) -> Result<Marks, Memory>
        ensures { IfOk result (λ m. m ≡ replicate pages unused) }
    {
        let uses = no_uses(alloc, pages)?;
        Ok(Marks { uses })
    }

    /// The last step of another hart, by its hart and count, that stands against such a use of the page by this one: the use
    /// conflicts with it, and it is none of the first steps that come before.
    pub(crate) fn against(
        &self,
        page: PageNo,
        hart: Hart,
        want: Want,
        before: &Row,
    ) -> Option<(Hart, Count)>
        requires { page < length self.now }
        ensures some { IfSome result (λ other. StandsAgainst self.now page hart want before.now other) }
        ensures none { IfNone result (IsClear self.now page hart want before.now) }
    {
        let uses = &self.uses[page.index()];
        for number in 0..uses.reach(want) {
            let other = Hart::new(number);
            let used = uses.conflicting(want, other);
            if other != hart && before[other.index()] < used {
                return Some((other, used - 1));
            }
        }
        None
    }

    /// A step of this hart, with this mark, uses the page. Where memory is refused nothing has changed.
    pub(crate) fn note(
        &mut self,
        page: PageNo,
        hart: Hart,
        want: Want,
        mark: Count,
    ) -> Result<(), Memory>
        requires { page < length self.old }
        ensures noted { OnOk result (self.new ≡ noted_at self.old page hart want mark) }
        ensures kept { OnErr result (self.new ≡ self.old) }
        ensures rows { (length (uses_at self.old page).read ≡ HART_ROW) × (length (uses_at self.old page).written ≡ HART_ROW) }
    {
        let uses = &mut self.uses[page.index()];
        // proof: both rows are whole by type.
        let _rows = (uses.read.reach(), uses.written.reach());
        match want {
            Want::Read => uses.read.put(hart, mark),
            Want::Write => uses.written.put(hart, mark),
        }
    }
}
