//! Who waits for which page.

use ft_types::{HART_ROW, Hart};
use lease_rounds::PageMask;

/// The pages that open leases have, and what waits for them.
#[derive(Clone, Copy)]
pub(crate) struct Queue {
    held: [PageMask; HART_ROW],
    /// What each hart waits for.
    wishes: [PageMask; HART_ROW],
    /// Since when; 0 where it does not wait.
    since: [u64; HART_ROW],
    next: u64,
    /// How many harts wait.
    waiting: u64,
    /// The number of harts.
    harts: u8,
}

impl Queue {
    /// Nobody has or waits for a page.
    pub(crate) fn new(harts: u8) -> Queue {
        Queue {
            held: [PageMask::none(); HART_ROW],
            wishes: [PageMask::none(); HART_ROW],
            since: [0; HART_ROW],
            next: 1,
            waiting: 0,
            harts,
        }
    }

    /// Whether the hart waits.
    pub(crate) fn is_waiting(&self, hart: usize) -> bool {
        hart < HART_ROW && self.since[hart] != 0
    }

    /// Whether the other hart waits, and has waited for longer.
    fn is_earlier(&self, other: usize, hart: usize) -> bool {
        self.is_waiting(other)
            && hart < HART_ROW
            && other < HART_ROW
            && (self.since[hart] == 0 || self.since[other] < self.since[hart])
    }

    /// What the open leases of other harts have, and what others have waited for longer.
    pub(crate) fn in_the_way(&self, hart: Hart) -> PageMask {
        let hart = hart.index();
        let mut pages = PageMask::none();
        for other in 0..HART_ROW.min(self.harts as usize) {
            if other != hart {
                pages = pages.with(self.held[other]);
                if self.is_earlier(other, hart) {
                    pages = pages.with(self.wishes[other]);
                }
            }
        }
        pages
    }

    /// Whether what another hart's open lease has, or has waited for longer, stands in the way of these pages.
    pub(crate) fn is_barred(&self, hart: Hart, pages: PageMask) -> bool {
        self.in_the_way(hart).is_against(pages)
    }

    /// Whether the hart may ask for what it waits for.
    pub(crate) fn is_called(&self, hart: Hart) -> bool {
        !self.is_waiting(hart.index()) || !self.is_barred(hart, self.wishes[hart.index()])
    }

    /// What the hart waits for.
    pub(crate) fn wishes(&self, hart: Hart) -> PageMask {
        self.wishes[hart.index()]
    }

    /// These pages, with what the hart waits for.
    pub(crate) fn with_wishes(&self, hart: Hart, pages: PageMask) -> PageMask {
        if !self.is_waiting(hart.index()) {
            return pages;
        }
        pages.with(self.wishes[hart.index()])
    }

    /// What other harts wait for, where one does.
    fn wished(&self, hart: Hart) -> Option<PageMask> {
        if self.waiting == 0 {
            return None;
        }
        let mut pages = PageMask::none();
        for other in 0..HART_ROW.min(self.harts as usize) {
            if other != hart.index() {
                pages = pages.with(self.wishes[other]);
            }
        }
        Some(pages)
    }

    /// Whether what other harts wait for is against these pages.
    pub(crate) fn is_wished(&self, hart: Hart, pages: PageMask) -> bool {
        match self.wished(hart) {
            Some(wished) => wished.is_against(pages),
            None => false,
        }
    }

    /// These pages without what other harts wait for.
    pub(crate) fn unwished(&self, hart: Hart, pages: PageMask) -> PageMask {
        match self.wished(hart) {
            Some(wished) => pages.without(wished),
            None => pages,
        }
    }

    /// What the hart's open lease has.
    pub(crate) fn held(&self, hart: Hart) -> PageMask {
        self.held[hart.index()]
    }

    /// The hart's open lease has these pages.
    pub(crate) fn take(&mut self, hart: Hart, pages: PageMask) {
        self.held[hart.index()] = self.held[hart.index()].with(pages);
    }

    /// The hart waits for these pages too.
    pub(crate) fn wait(&mut self, hart: Hart, pages: PageMask) {
        let hart = hart.index();
        if self.since[hart] == 0 {
            self.since[hart] = self.next;
            self.next = self.next.saturating_add(1);
            self.waiting = self.waiting.saturating_add(1);
        }
        self.wishes[hart] = self.wishes[hart].with(pages);
    }

    /// The hart has no open lease.
    pub(crate) fn release(&mut self, hart: Hart) {
        self.held[hart.index()] = PageMask::none();
    }

    /// The hart waits for nothing.
    pub(crate) fn forget(&mut self, hart: Hart) {
        if self.is_waiting(hart.index()) {
            self.since[hart.index()] = 0;
            self.wishes[hart.index()] = PageMask::none();
            self.waiting = self.waiting.saturating_sub(1);
        }
    }
}
