//! Why an event is refused.

ghost use Rattle.std.specs.Prelude.{◌≡◌};
ghost use Rattle.failover_world.specs.Faults.{fault_number};

use ack_core::AckFault;
use ft_types::Memory;
use go_live::LiveFault;
use page_book::BookFault;

/// Why an event was refused. Where several of these hold, the first is the answer.
#[derive(Clone, Copy, PartialEq, Eq)]
pub enum WorldFault {
    /// No primary runs.
    NoPrimary,
    /// There is no such keeper, or it is lost.
    NoKeeper,
    /// The frame was never sent.
    NoFrame,
    /// A primary runs.
    NotStopped,
    /// The book refused the step: its hart is halted or at the limit of all counts.
    Step(BookFault),
    /// No primary goes live.
    Live(LiveFault),
    /// The gate refused the position.
    Ack(AckFault),
    /// A growth was refused.
    Memory,
}

impl WorldFault {
    /// The fault's number, 1 to 8.
    pub fn number(self) -> u8
        ensures { result ≡ fault_number self }
    {
        match self {
            WorldFault::NoPrimary => 1,
            WorldFault::NoKeeper => 2,
            WorldFault::NoFrame => 3,
            WorldFault::NotStopped => 4,
            WorldFault::Step(_) => 5,
            WorldFault::Live(_) => 6,
            WorldFault::Ack(_) => 7,
            WorldFault::Memory => 8,
        }
    }
}

impl From<Memory> for WorldFault {
    ghost use Rattle.std.specs.Prelude.{◌≡◌};
    ghost use Rattle.failover_world.specs.declared.fault.WorldFault.TheVariants.{Memory as NoMemory};

    ghost from_gives = { λ _ e. e ≡ NoMemory };

    fn from(_e: Memory) -> WorldFault {
        WorldFault::Memory
    }
}

impl From<BookFault> for WorldFault {
    ghost use Rattle.std.specs.Prelude.{◌≡◌};
    ghost use Rattle.failover_world.specs.Faults.{fault_of_book};

    ghost from_gives = { λ fault e. e ≡ fault_of_book fault };

    fn from(fault: BookFault) -> WorldFault {
        match fault {
            BookFault::Memory => WorldFault::Memory,
            fault => WorldFault::Step(fault),
        }
    }
}

impl From<LiveFault> for WorldFault {
    ghost use Rattle.std.specs.Prelude.{◌≡◌};
    ghost use Rattle.failover_world.specs.Faults.{fault_of_live};

    ghost from_gives = { λ fault e. e ≡ fault_of_live fault };

    fn from(fault: LiveFault) -> WorldFault {
        match fault {
            LiveFault::Memory => WorldFault::Memory,
            fault => WorldFault::Live(fault),
        }
    }
}
