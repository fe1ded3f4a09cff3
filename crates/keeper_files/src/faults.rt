//! Why a keeper's files are not opened.

ghost use Rattle.std.specs.Prelude.{◌≡◌, ◌⊎◌, Ok, IfOk};

use stations::FilesFault;
use std::io;
use std::result::Result;

/// Why a keeper's files are not opened.
#[derive(Clone, Copy, PartialEq, Eq)]
pub enum OpenFault {
    /// They could not be opened, made, brought to disk or looked at.
    Files(FilesFault),
    /// Another keeper has the log.
    Locked,
    /// The log is a link, or has another name.
    Link,
    /// The log failed before.
    Failed,
    /// The first line of the fences says of no keeper of this guest that they are its.
    NoLine,
    /// They are another keeper's.
    OtherKeeper,
    /// The log is another file than the one that was made.
    OtherLog,
    /// The fences are another file than the one that was made.
    OtherFences,
}

/// Why a keeper's files are not made.
#[derive(Clone, Copy, PartialEq, Eq)]
pub enum MakeFault {
    /// They could not be looked at, made, written or brought to disk.
    Files(FilesFault),
    /// One of them is there.
    There,
}

/// The fault of a file with which this went wrong.
pub(crate) fn fault_of(error: &io::Error, file: FilesFault) -> FilesFault
    ensures { (result ≡ file) ⊎ (result ≡ FilesFault.Memory) }
{
    match error.kind() {
        io::ErrorKind::OutOfMemory => FilesFault::Memory,
        _ => file,
    }
}

/// What came of a call, as the fault of opening this file.
pub(crate) fn opened<T: Drop>(done: io::Result<T>, file: FilesFault) -> Result<T, OpenFault>
    ensures { IfOk result (λ it. done ≡ Ok it) }
{
    match done {
        Ok(it) => Ok(it),
        Err(error) => Err(OpenFault::Files(fault_of(&error, file))),
    }
}

/// The fault of a log of whose name this was said.
pub(crate) fn name_fault_of(error: &io::Error) -> FilesFault {
    match error.kind() {
        io::ErrorKind::NotFound => FilesFault::Moved,
        _ => fault_of(error, FilesFault::Log),
    }
}
