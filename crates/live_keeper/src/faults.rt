//! What can go wrong with a keeper's files, as it is told.

ghost use Rattle.std.specs.Prelude.{◌≡◌};
ghost use Rattle.live_keeper.specs.Faults.{told_of_files, told_of_log, told_of_fence, told_of_making, told_of_opening};

use ends::{Fault, Frames, FramesFault, NamedFile, Why};
use keeper_files::{MakeFault, OpenFault};
use stations::{FenceFault, FilesFault, LogFault};

/// As it is told that a file could not be read or written, or that memory is wanting. Why is not said.
pub fn files_fault(fault: FilesFault) -> Fault
    ensures { result ≡ told_of_files fault }
{
    match fault {
        FilesFault::Log => Fault::File(NamedFile::Log, Why::Unknown),
        FilesFault::Fences => Fault::File(NamedFile::Fences, Why::Unknown),
        FilesFault::Moved => Fault::Moved,
        FilesFault::Memory => Fault::Memory,
    }
}

/// As it is told what is wrong with a log.
pub fn log_fault(fault: LogFault) -> Fault
    ensures { result ≡ told_of_log fault }
{
    let fault = match fault {
        LogFault::Files(fault) => return files_fault(fault),
        LogFault::Frame(fault) => FramesFault::Frame(fault.number()),
        LogFault::OtherGuest => FramesFault::Guest,
        LogFault::Clash => FramesFault::Clash,
    };
    Fault::Frames(Frames::Log, fault)
}

/// As it is told that a keeper may not promise a term.
pub fn fence_fault(fault: FenceFault) -> Fault
    ensures { result ≡ told_of_fence fault }
{
    match fault {
        FenceFault::Files(fault) => files_fault(fault),
        FenceFault::Fenced(term) => Fault::Fenced(term),
        FenceFault::Far(term) => Fault::Far(term),
    }
}

/// As it is told why a keeper's files are not opened.
pub fn open_fault(fault: OpenFault) -> Fault
    ensures { result ≡ told_of_opening fault }
{
    match fault {
        OpenFault::Files(fault) => files_fault(fault),
        OpenFault::Locked => Fault::Locked,
        OpenFault::Link => Fault::Link,
        OpenFault::Failed => Fault::Failed,
        OpenFault::NoLine => Fault::NoLine,
        OpenFault::OtherKeeper => Fault::OtherKeeper,
        OpenFault::OtherLog => Fault::OtherLog,
        OpenFault::OtherFences => Fault::OtherFences,
    }
}

/// As it is told why a keeper's files are not made.
pub fn make_fault(fault: MakeFault) -> Fault
    ensures { result ≡ told_of_making fault }
{
    match fault {
        MakeFault::Files(fault) => files_fault(fault),
        MakeFault::There => Fault::There,
    }
}
