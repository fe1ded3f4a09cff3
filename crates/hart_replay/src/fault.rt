//! What can go wrong with a replay.

ghost use Rattle.std.specs.Prelude.{◌≡◌};
ghost use Rattle.hart_replay.specs.Faults.{fault_number};

use ft_types::{Count, Counts, Hart, Memory};

/// Why a replay has no machine.
#[derive(Clone, Copy, Debug, PartialEq, Eq)]
pub enum ReplayFault {
    /// At these counts some hart is below its end, none of these can go on, and none of them is halted.
    Cyclic(Counts),
    /// Nothing more could go on: this is the least hart that halted below its end, and its count.
    HaltedInside(Hart, Count),
    /// The plan is of another guest than the image.
    OtherGuest,
    /// A growth was refused.
    Memory,
}

impl ReplayFault {
    /// The fault's number, 1 to 4.
    pub fn number(self) -> u8
        ensures { result ≡ fault_number self }
    {
        match self {
            ReplayFault::Cyclic(_) => 1,
            ReplayFault::HaltedInside(_, _) => 2,
            ReplayFault::OtherGuest => 3,
            ReplayFault::Memory => 4,
        }
    }
}

impl From<Memory> for ReplayFault {
    ghost use Rattle.std.specs.Prelude.{◌≡◌};
    ghost use Rattle.hart_replay.specs.declared.fault.ReplayFault.TheVariants.{Memory as NoMemory};

    ghost from_gives = { λ _ e. e ≡ NoMemory };

    fn from(_e: Memory) -> ReplayFault {
        ReplayFault::Memory
    }
}
