//! Why a keeper doesn't begin or go on, and why no log is handed over.

ghost use Rattle.std.specs.Prelude.{◌≡◌};
ghost use Rattle.stations.specs.declared.faults.FilesFault.TheVariants.{Memory as NoMemory};
ghost use Rattle.stations.specs.declared.faults.LogFault.TheVariants.{Files as FilesOfLog};
ghost use Rattle.stations.specs.declared.faults.FenceFault.TheVariants.{Files as FilesOfFence};

use fragment_codec::FrameFault;
use ft_types::{Memory, Term};

/// Why a keeper's files gave or took nothing.
#[derive(Clone, Copy, PartialEq, Eq)]
pub enum FilesFault {
    /// The log could not be read, written, cut or brought to disk.
    Log,
    /// The fences could not be read, written or brought to disk.
    Fences,
    /// Another file has the log's name.
    Moved,
    /// A growth was refused.
    Memory,
}

impl From<Memory> for FilesFault {
    ghost from_gives = { λ _ e. e ≡ NoMemory };

    fn from(_e: Memory) -> FilesFault {
        FilesFault::Memory
    }
}

/// Why a log is no keeper's.
#[derive(Clone, Copy, PartialEq, Eq)]
pub enum LogFault {
    /// The files failed.
    Files(FilesFault),
    /// The first frame that is not whole and right has this fault.
    Frame(FrameFault),
    /// A frame is of another guest.
    OtherGuest,
    /// Unequal frames have one key.
    Clash,
}

impl From<FilesFault> for LogFault {
    ghost from_gives = { λ fault e. e ≡ FilesOfLog fault };

    fn from(fault: FilesFault) -> LogFault {
        LogFault::Files(fault)
    }
}

impl From<Memory> for LogFault {
    ghost from_gives = { λ _ e. e ≡ FilesOfLog NoMemory };

    fn from(_e: Memory) -> LogFault {
        LogFault::Files(FilesFault::Memory)
    }
}

/// Why a log is not fenced off for a term.
#[derive(Clone, Copy, PartialEq, Eq)]
pub enum FenceFault {
    /// The files failed.
    Files(FilesFault),
    /// It was fenced off for this term, which is not below the one that asks.
    Fenced(Term),
    /// It was fenced off for this term last, of which the one that asks is out of reach.
    Far(Term),
}

impl From<FilesFault> for FenceFault {
    ghost from_gives = { λ fault e. e ≡ FilesOfFence fault };

    fn from(fault: FilesFault) -> FenceFault {
        FenceFault::Files(fault)
    }
}
