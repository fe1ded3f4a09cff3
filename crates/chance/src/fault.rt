//! Why an event is refused.

use ack_core::AckFault;
use ft_types::Memory;
use go_live::LiveFault;
use page_book::BookFault;

/// Why an event was refused.
#[derive(Clone, Copy, PartialEq, Eq)]
pub enum PlainFault {
    /// The term was never granted, or its primary does not run.
    NoPrimary,
    /// There is no such keeper, or it is lost.
    NoKeeper,
    /// The frame was never sent.
    NoFrame,
    /// A keeper's fence is above the term, or a primary still runs.
    Fenced,
    /// The book refused the step.
    Step(BookFault),
    /// No primary goes live.
    Live(LiveFault),
    /// The gate refused the position.
    Ack(AckFault),
    /// A growth was refused.
    Memory,
}

impl From<Memory> for PlainFault {
    fn from(_e: Memory) -> PlainFault {
        PlainFault::Memory
    }
}

impl From<BookFault> for PlainFault {
    fn from(fault: BookFault) -> PlainFault {
        match fault {
            BookFault::Memory => PlainFault::Memory,
            fault => PlainFault::Step(fault),
        }
    }
}
