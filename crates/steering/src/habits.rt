//! Which pages harts take at once with a lease.

use ft_types::{HART_ROW, Hart};
use lease_rounds::PageMask;

/// After so many leases a hart begins one without pages, so that those that it has left are left to others.
const LONGEST: u8 = 32;

/// For so many leases of all harts nobody takes a page at once over which two of them were in each other's way.
const DISPUTE: u32 = 256;

/// The pages that each hart had in its last lease, which it takes at once with its next one. Leases that begin with inputs do other
/// work than those that go on, so each kind has its own.
#[derive(Clone, Copy)]
pub(crate) struct Habits {
    pages: [PageMask; HART_ROW],
    /// Those of the last lease that began with inputs.
    woken_pages: [PageMask; HART_ROW],
    /// Whether the hart's open lease began with inputs.
    woken: [bool; HART_ROW],
    /// How many leases ago each hart last began one without pages.
    ages: [u8; HART_ROW],
    /// Over which pages harts were in each other's way, where they were, and how many leases have come back since all were forgotten.
    disputed: Option<PageMask>,
    leases: u32,
}

impl Habits {
    /// No hart had a page.
    pub(crate) fn new() -> Habits {
        Habits {
            pages: [PageMask::none(); HART_ROW],
            woken_pages: [PageMask::none(); HART_ROW],
            woken: [false; HART_ROW],
            ages: [0; HART_ROW],
            disputed: None,
            leases: 0,
        }
    }

    /// The hart is lent, with inputs or without. What it takes at once.
    pub(crate) fn begin(&mut self, hart: Hart, woken: bool) -> PageMask {
        self.woken[hart.index()] = woken;
        let pages = if woken {
            self.woken_pages[hart.index()]
        } else {
            self.pages[hart.index()]
        };
        match self.disputed {
            Some(disputed) => pages.without(disputed),
            None => pages,
        }
    }

    /// A hart was refused these pages.
    pub(crate) fn dispute(&mut self, pages: PageMask) {
        self.disputed = match self.disputed {
            Some(disputed) => Some(disputed.with(pages)),
            None => Some(pages),
        };
    }

    /// Whether harts were in each other's way over one of these pages lately.
    pub(crate) fn is_disputed(&self, pages: PageMask) -> bool {
        match self.disputed {
            Some(disputed) => disputed.is_near(pages),
            None => false,
        }
    }

    /// A lease of the hart comes back, which had these pages that no other waits for.
    pub(crate) fn note(&mut self, hart: Hart, pages: PageMask) {
        self.leases = self.leases.saturating_add(1);
        if self.leases > DISPUTE {
            self.leases = 0;
            self.disputed = None;
        }
        let hart = hart.index();
        if self.woken[hart] {
            self.woken_pages[hart] = pages;
            return;
        }
        if self.ages[hart] < LONGEST {
            self.ages[hart] += 1;
            self.pages[hart] = pages;
        } else {
            self.ages[hart] = 0;
            self.pages[hart] = PageMask::none();
        }
    }
}
