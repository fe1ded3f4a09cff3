//! Pages that are to be read or written.

ghost use Rattle.std.specs.Prelude.{◌≡◌, ◌⊎◌, ◌↔◌, ℕ, IsTrue};
ghost use Rattle.ft_types.specs.declared.names.Want.{Want as WantName};
ghost use Rattle.ft_types.specs.declared.names.Want.TheVariants.{Read, Write};
ghost use Rattle.lease_rounds.specs.Pages.{HasFor, Has, IsAgainst};

use crate::page_words::{WORDS, do_meet, either, has_any, has_page, left, no_page, one_page};
use ft_types::{PageNo, Want};
use std::marker::Model;

/// Pages, by number: those to be read, and those to be written. Contracts see, for each page, whether it is to be read and
/// whether it is to be written.
#[derive(Clone, Copy)]
pub struct PageMask {
    reads: [u64; WORDS],
    writes: [u64; WORDS],
}

impl Model for PageMask {
    ghost use Rattle.lease_rounds.specs.Pages.{Pages};
    ghost use Rattle.lease_rounds.specs.machinery.Flags.{flags_in, words_of, words_back, AreWords};

    ghost Value = { Pages };

    ghost view = { λ m. record { reads = flags_in m.reads; writes = flags_in m.writes } };

    ghost invariant = { λ m. AreWords m.reads × AreWords m.writes };

    ghost inverse = { λ p. record { reads = words_of 4 p.reads; writes = words_of 4 p.writes } };

    ghost inverse_ok = { λ m are i. record { reads = words_back m.reads are.0 i; writes = words_back m.writes are.1 i } };
}

impl PageMask {
    /// No page.
    pub fn none() -> PageMask
        ensures { (page : ℕ) → ¬ (Has result page) }
    {
        PageMask {
            reads: no_page(),
            writes: no_page(),
        }
    }

    /// This page alone.
    pub fn of(page: PageNo, want: Want) -> PageMask
        ensures { (n : ℕ) (right : WantName) → HasFor result right n ↔ ((n ≡ page) × (right ≡ want)) }
    {
        let one = one_page(page);
        let none = no_page();
        match want {
            Want::Read => PageMask {
                reads: one,
                writes: none,
            },
            Want::Write => PageMask {
                reads: none,
                writes: one,
            },
        }
    }

    /// Whether there is a page.
    pub fn is_some(self) -> bool
        ensures { IsTrue result ↔ ((page : ℕ) × Has self page) }
    {
        let all = either(self.reads, self.writes);
        has_any(all)
    }

    /// These pages and those.
    pub fn with(self, other: PageMask) -> PageMask
        ensures { (page : ℕ) (right : WantName) → HasFor result right page ↔ (HasFor self right page ⊎ HasFor other right page) }
    {
        let reads = either(self.reads, other.reads);
        let writes = either(self.writes, other.writes);
        PageMask { reads, writes }
    }

    /// These pages without those.
    pub fn without(self, other: PageMask) -> PageMask
        ensures { (page : ℕ) (right : WantName) → HasFor result right page ↔ (HasFor self right page × ¬ (Has other page)) }
    {
        let all = either(other.reads, other.writes);
        let reads = left(self.reads, all);
        let writes = left(self.writes, all);
        PageMask { reads, writes }
    }

    /// What is wanted of a page: to write it where it is among those to be written.
    pub fn want(self, page: PageNo) -> Option<Want>
        ensures write { (result ≡ Some Write) ↔ HasFor self Write page }
        ensures read { (result ≡ Some Read) ↔ (HasFor self Read page × ¬ (HasFor self Write page)) }
        ensures none { (result ≡ None) ↔ ¬ (Has self page) }
    {
        if has_page(self.writes, page) {
            Some(Want::Write)
        } else if has_page(self.reads, page) {
            Some(Want::Read)
        } else {
            None
        }
    }

    /// Those to be written alone.
    pub fn written(self) -> PageMask
        ensures { (page : ℕ) (right : WantName) → HasFor result right page ↔ ((right ≡ Write) × HasFor self Write page) }
    {
        let reads = no_page();
        let writes = self.writes;
        PageMask { reads, writes }
    }

    /// Whether both have a page, whatever for.
    pub fn is_near(self, other: PageMask) -> bool
        ensures { IsTrue result ↔ ((page : ℕ) × (Has self page × Has other page)) }
    {
        let these = either(self.reads, self.writes);
        let those = either(other.reads, other.writes);
        do_meet(these, those)
    }

    /// Whether one has a page to write that the other has.
    pub fn is_against(self, other: PageMask) -> bool
        ensures { IsTrue result ↔ IsAgainst self other }
    {
        let all = either(other.reads, other.writes);
        if do_meet(self.writes, all) {
            return true;
        }
        do_meet(self.reads, other.writes)
    }
}
