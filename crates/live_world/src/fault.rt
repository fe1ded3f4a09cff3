//! Why an event is refused.

use fragment_codec::FrameFault;
use ft_types::{Memory, Term};
use leading::{HandedFault, LeadFault};
use log_mending::MendFault;
use stations::{FilesFault, LogFault};

/// Why an event was refused.
#[derive(Clone, Copy, PartialEq, Eq)]
pub enum EventFault {
    /// There is no such keeper, or it is lost.
    NoKeeper,
    /// The keeper's process runs already.
    Runs,
    /// The keeper's process does not run.
    Rests,
    /// Whoever hands the log over is not where this act is the next one.
    NoTurn,
    /// The log was fenced off for this term, which is not below the one that asks.
    Fenced(Term),
    /// The log was fenced off for this term last, of which the one that asks is out of reach.
    Far(Term),
    /// No frame of this number was sent.
    NoFrame,
    /// Nothing of this number was handed over.
    NoneHanded,
    /// A log was handed over to another term.
    OtherTerm,
    /// A log is the one that is to be replaced.
    OwnLog,
    /// Of too few keepers a log was handed over.
    TooFew,
    /// The keeper acknowledged in the term or in a later one.
    HasSaid,
    /// The new log is not filled.
    Mend(MendFault),
    /// The term was granted before.
    Granted,
    /// There is no such primary, or its process is gone.
    NoPrimary,
    /// Nothing of this number was asked for.
    NoneAsked,
    /// Nothing of this number was said.
    NoneSaid,
    /// Nothing of this number went out.
    NoneOut,
    /// There is no such client.
    NoClient,
    /// Nothing of this number was told.
    NoneTold,
    /// The log is no keeper's, or is not handed over.
    Log(LogFault),
    /// The keeper's files failed, and it is gone.
    Files(FilesFault),
    /// The stream of frames has a fault.
    Frame(FrameFault),
    /// What was handed over is none.
    Handed(HandedFault),
    /// No primary leads the term.
    Lead(LeadFault),
    /// A growth was refused.
    Memory,
}

impl From<Memory> for EventFault {
    ghost use Rattle.std.specs.Prelude.{◌≡◌};
    ghost use Rattle.live_world.specs.declared.fault.EventFault.TheVariants.{Memory as NoMemory};

    ghost from_gives = { λ _ e. e ≡ NoMemory };

    fn from(_e: Memory) -> EventFault {
        EventFault::Memory
    }
}
