//! What can be wrong with a script, or with a list of events.

use ft_types::Memory;

/// Why a script isn't read.
#[derive(Clone, Copy, PartialEq, Eq)]
pub enum ScriptFault {
    /// The line of this number, from 1, has another form.
    BadLine(u64),
    /// A growth was refused.
    Memory,
}

/// Why a list of events isn't read.
#[derive(Clone, Copy, PartialEq, Eq)]
pub enum EventsFault {
    /// The line of this number, from 1, has another form.
    BadLine(u64),
    /// A growth was refused.
    Memory,
}

impl From<Memory> for EventsFault {
    ghost use Rattle.std.specs.Prelude.{◌≡◌};
    ghost use Rattle.scripts.specs.declared.fault.EventsFault.TheVariants.{Memory as NoMemory};

    ghost from_gives = { λ _ e. e ≡ NoMemory };

    fn from(_e: Memory) -> EventsFault {
        EventsFault::Memory
    }
}
