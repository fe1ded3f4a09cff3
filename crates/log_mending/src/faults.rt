//! Why a log is not mended.

ghost use Rattle.std.specs.Prelude.{◌≡◌};
ghost use Rattle.log_mending.specs.declared.faults.MendFault.TheVariants.{Files as FilesOfMend};
ghost use Rattle.stations.specs.declared.faults.FilesFault.TheVariants.{Memory as NoMemory};

use ft_types::Memory;
use stations::FilesFault;

/// Why a frame is not put into a store.
#[derive(Clone, Copy, PartialEq, Eq)]
pub enum Misfit {
    /// It is of another guest.
    OtherGuest,
    /// An unequal one has its key.
    Clash,
}

/// Why a log is not mended.
#[derive(Clone, Copy, PartialEq, Eq)]
pub enum MendFault {
    /// The files failed, or memory was refused.
    Files(FilesFault),
    /// A whole frame stands behind the log's first fault.
    Behind,
    /// A frame of the log does not go with those before it.
    Own(Misfit),
    /// A frame of the other log of this number, from 0, does not go with those before it.
    Other(usize, Misfit),
}

impl From<FilesFault> for MendFault {
    ghost from_gives = { λ fault e. e ≡ FilesOfMend fault };

    fn from(fault: FilesFault) -> MendFault {
        MendFault::Files(fault)
    }
}

impl From<Memory> for MendFault {
    ghost from_gives = { λ _ e. e ≡ FilesOfMend NoMemory };

    fn from(_e: Memory) -> MendFault {
        MendFault::Files(FilesFault::Memory)
    }
}
