//! What a hart's thread and the desk tell each other.

use ft_types::{Count, PageNo, Want};
use lease_rounds::PageMask;
use page_book::Lease;

/// Why a hart takes no further step of its lease.
#[derive(Clone, Copy, PartialEq, Eq)]
pub(crate) enum Stop {
    /// The lease is full.
    Full,
    /// The next step lacks a page.
    Lacks(PageNo, Want),
    /// A growth was refused.
    Memory,
}

impl Stop {
    /// The page that is lacked, if one is.
    pub(crate) fn lacked(&self) -> PageMask {
        match self {
            Stop::Lacks(page, want) => PageMask::of(*page, *want),
            Stop::Full | Stop::Memory => PageMask::none(),
        }
    }
}

/// What became of a page that was asked for.
#[derive(Clone, Copy, PartialEq, Eq)]
pub(crate) enum Answer {
    Given,
    Held,
    Refused,
}

/// What may come of a lease that is brought.
pub(crate) enum Brought {
    /// It was given the page that it lacked.
    Goes(Lease),
    /// So many steps were settled, up to this count.
    Settled(u64, Count),
    /// The hart is to end.
    Ends,
}

/// Who asks for a hart's lease.
#[derive(Clone, Copy, PartialEq, Eq)]
pub(crate) enum Asker {
    /// The hart's own thread.
    Itself,
    /// The thread that leads all harts.
    Leader,
}

/// What may come of asking for a lease.
pub(crate) enum Turn {
    /// The hart goes on, for so many steps at the most while nobody waits for its lease.
    Goes(Lease, u64),
    /// It has to wait.
    Waits,
    /// It goes on, and has the overseer look before it does.
    Looks,
    /// It has to wait until the overseer has looked.
    Stands,
    /// Its thread leads all harts for so many rounds.
    Leads(u32),
    /// It is to end.
    Ends,
}
