//! Why no primary goes live.

ghost use Rattle.std.specs.Prelude.{◌≡◌};
ghost use Rattle.go_live.specs.Faults.{fault_number, live_fault_of};

use ft_types::Memory;
use hart_replay::ReplayFault;

/// Why no primary goes live. The first of these that holds is the answer, but that memory may be refused once the first two
/// are looked at.
#[derive(Clone, Copy, PartialEq, Eq)]
pub enum LiveFault {
    /// The stores are of too few keepers.
    TooFewStores,
    /// The term is 0, or some key in the stores has that term or a later one.
    TermNotNew,
    /// A store is of another guest than the image, or the joined stores lead to no machine.
    Replay(ReplayFault),
    /// A growth was refused.
    Memory,
}

impl LiveFault {
    /// The fault's number, 1 to 4.
    pub fn number(self) -> u8
        ensures { result ≡ fault_number self }
    {
        match self {
            LiveFault::TooFewStores => 1,
            LiveFault::TermNotNew => 2,
            LiveFault::Replay(_) => 3,
            LiveFault::Memory => 4,
        }
    }
}

impl From<Memory> for LiveFault {
    ghost use Rattle.std.specs.Prelude.{◌≡◌};
    ghost use Rattle.go_live.specs.declared.fault.LiveFault.TheVariants.{Memory as NoMemory};

    ghost from_gives = { λ _ e. e ≡ NoMemory };

    fn from(_e: Memory) -> LiveFault {
        LiveFault::Memory
    }
}

impl From<ReplayFault> for LiveFault {
    ghost use Rattle.std.specs.Prelude.{◌≡◌};
    ghost use Rattle.go_live.specs.Faults.{live_fault_of};

    ghost from_gives = { λ fault e. e ≡ live_fault_of fault };

    fn from(fault: ReplayFault) -> LiveFault {
        match fault {
            ReplayFault::Memory => LiveFault::Memory,
            fault => LiveFault::Replay(fault),
        }
    }
}
