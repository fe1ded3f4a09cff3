//! What is asked of a disk.

ghost use Rattle.std.specs.Prelude.{◌≡◌, ◌++◌, ℕ, List, [], ◌∷◌, true, false, IfOk, OnOk, OnErr, IsTrue, ◌↔◌};
ghost use Rattle.keeper_files.specs.Deeds.{Deed, SawThere, Made, Opened, SyncedFolder, Locked, SawOwn, SawName, SawFences, SawMark, Marked, Unmarked, ReadLog, ReadFences, Unread, Cut, Appended, Synced, IsSameFile, inode_of};
ghost use Rattle.stations.specs.Acts.{Does};

use std::alloc::Global;
use std::io;
use std::result::Result;
use wire::Inode;

/// A file of a keeper.
#[derive(Clone, Copy, PartialEq, Eq)]
pub enum Part {
    /// Its log.
    Log,
    /// The fences beside the log.
    Fences,
}

/// Which file it is, under whatever name.
#[derive(Clone, Copy, PartialEq, Eq)]
pub struct Identity {
    /// The device on which it lies.
    pub device: u64,
    /// Its number there.
    pub inode: u64,
    /// How many names it has.
    pub links: u64,
    /// When it was made, in nanoseconds since 1970; 0 where that is not told.
    pub born: u64,
}

impl Identity {
    /// Whether both are one file.
    pub fn is_same_file(&self, other: &Identity) -> bool
        ensures { IsTrue result ↔ IsSameFile self.now other.now }
    {
        self.device == other.device && self.inode == other.inode
    }

    /// The file as it is known behind a new start of its machine, which may give its device another number.
    pub fn inode(&self) -> Inode
        ensures { result ≡ inode_of self.now }
    {
        Inode {
            number: self.inode,
            born: self.born,
        }
    }
}

/// The disk on which a keeper's files lie, each under its name. One call of the system each, and what is said of it is trusted of that call.
pub trait Disk {
    // Which deeds may be all that were done with it, in their order: a disk that tells nothing says so of any.
    ghost deeds: { Self → List Deed → Type 0 };

    /// Whether there is anything of that name, a link also.
    fn is_there(&mut self, part: Part) -> io::Result<bool>
        ensures ok { IfOk result (λ is. Does (deeds self.old) (deeds self.new) (SawThere part is ∷ [])) }
        ensures failed { OnErr result (Does (deeds self.old) (deeds self.new) (Unread ∷ [])) };

    /// Makes the file of that name, which is not there, and opens it.
    fn make(&mut self, part: Part) -> io::Result<()>
        ensures ok { OnOk result (Does (deeds self.old) (deeds self.new) (Made part true ∷ [])) }
        ensures failed { OnErr result (Does (deeds self.old) (deeds self.new) (Made part false ∷ [])) };

    /// Opens the file of that name, which is there, to be read and added to.
    fn open(&mut self, part: Part) -> io::Result<()>
        ensures ok { OnOk result (Does (deeds self.old) (deeds self.new) (Opened part true ∷ [])) }
        ensures failed { OnErr result (Does (deeds self.old) (deeds self.new) (Opened part false ∷ [])) };

    /// Brings the folder of the files to disk, and with it which of them are there.
    fn sync_folder(&mut self) -> io::Result<()>
        ensures ok { OnOk result (Does (deeds self.old) (deeds self.new) (SyncedFolder true ∷ [])) }
        ensures failed { OnErr result (Does (deeds self.old) (deeds self.new) (SyncedFolder false ∷ [])) };

    /// Takes the lock on the open log, where no other process has it: whether it has it now.
    fn try_lock_log(&mut self) -> io::Result<bool>
        ensures ok { IfOk result (λ is. Does (deeds self.old) (deeds self.new) (Locked Part.Log is ∷ [])) }
        ensures failed { OnErr result (Does (deeds self.old) (deeds self.new) (Locked Part.Log false ∷ [])) };

    /// Takes the lock on the open fences, once no other process has it.
    fn lock_fences(&mut self) -> io::Result<()>
        ensures ok { OnOk result (Does (deeds self.old) (deeds self.new) (Locked Part.Fences true ∷ [])) }
        ensures failed { OnErr result (Does (deeds self.old) (deeds self.new) (Locked Part.Fences false ∷ [])) };

    /// Which file the open log is.
    fn own_identity(&mut self) -> io::Result<Identity>
        ensures ok { IfOk result (λ own. Does (deeds self.old) (deeds self.new) (SawOwn own ∷ [])) }
        ensures failed { OnErr result (Does (deeds self.old) (deeds self.new) (Unread ∷ [])) };

    /// Which file has the log's name. A link is one of its own.
    fn named_identity(&mut self) -> io::Result<Identity>
        ensures ok { IfOk result (λ named. Does (deeds self.old) (deeds self.new) (SawName named ∷ [])) }
        ensures failed { OnErr result (Does (deeds self.old) (deeds self.new) (Unread ∷ [])) };

    /// Which file has the fences' name. A link is one of its own.
    fn fences_identity(&mut self) -> io::Result<Identity>
        ensures ok { IfOk result (λ fences. Does (deeds self.old) (deeds self.new) (SawFences fences ∷ [])) }
        ensures failed { OnErr result (Does (deeds self.old) (deeds self.new) (Unread ∷ [])) };

    /// Whether there is the mark of a log that failed.
    fn is_marked(&mut self) -> io::Result<bool>
        ensures ok { IfOk result (λ is. Does (deeds self.old) (deeds self.new) (SawMark is ∷ [])) }
        ensures failed { OnErr result (Does (deeds self.old) (deeds self.new) (Unread ∷ [])) };

    /// Makes the mark of a log that failed.
    fn mark(&mut self) -> io::Result<()>
        ensures ok { OnOk result (Does (deeds self.old) (deeds self.new) (Marked true ∷ [])) }
        ensures failed { OnErr result (Does (deeds self.old) (deeds self.new) (Marked false ∷ [])) };

    /// Removes the mark of a log that failed.
    fn unmark(&mut self) -> io::Result<()>
        ensures ok { OnOk result (Does (deeds self.old) (deeds self.new) (Unmarked true ∷ [])) }
        ensures failed { OnErr result (Does (deeds self.old) (deeds self.new) (Unmarked false ∷ [])) };

    /// Reads the open log, from its first byte to its last.
    fn read_log(&mut self, alloc: Global) -> io::Result<Vec<u8>>
        ensures ok { IfOk result (λ bytes. Does (deeds self.old) (deeds self.new) (ReadLog bytes.items ∷ [])) }
        ensures failed { OnErr result (Does (deeds self.old) (deeds self.new) (Unread ∷ [])) };

    /// Reads the file of the fences' name, none where there is none.
    fn read_fences(&mut self, alloc: Global) -> io::Result<Vec<u8>>
        ensures ok { IfOk result (λ bytes. Does (deeds self.old) (deeds self.new) (ReadFences bytes.items ∷ [])) }
        ensures failed { OnErr result (Does (deeds self.old) (deeds self.new) (Unread ∷ [])) };

    /// Cuts the open log to its first bytes.
    fn cut(&mut self, size: usize) -> io::Result<()>
        ensures ok { OnOk result (Does (deeds self.old) (deeds self.new) (Cut size true ∷ [])) }
        ensures failed { OnErr result (Does (deeds self.old) (deeds self.new) (Cut size false ∷ [])) };

    /// Adds bytes to an open file, or a beginning of them where that fails.
    fn append(&mut self, part: Part, bytes: &[u8]) -> io::Result<()>
        ensures ok { OnOk result (Does (deeds self.old) (deeds self.new) (Appended part bytes.now true ∷ [])) }
        ensures failed { OnErr result ((front : List ℕ) × (rest : List ℕ) × (bytes.now ≡ front ++ rest) ×
            Does (deeds self.old) (deeds self.new) (Appended part front false ∷ [])) };

    /// Brings what an open file has to disk.
    fn sync(&mut self, part: Part) -> io::Result<()>
        ensures ok { OnOk result (Does (deeds self.old) (deeds self.new) (Synced part true ∷ [])) }
        ensures failed { OnErr result (Does (deeds self.old) (deeds self.new) (Synced part false ∷ [])) };
}
