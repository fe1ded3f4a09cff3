//! A keeper's files on a disk, as stations asks for them.

ghost use Rattle.std.specs.Prelude.{◌≡◌, ◌⊎◌, ◌++◌, ℕ, List, Bool, true, false, [], ◌∷◌, OnOk, OnErr, IfErr};
ghost use Rattle.keeper_files.specs.Deeds.{Unread, SawName, Appended, Synced, IsSameFile};
ghost use Rattle.keeper_files.specs.Telling.{IsFaultOf, acts_of, marking};
ghost use Rattle.keeper_files.specs.declared.disk.Identity.{Identity as identity_of_specs};
ghost use Rattle.stations.specs.Acts.{Does};

use crate::disk::{Disk, Identity, Part};
use crate::faults::{fault_of, name_fault_of};
use ft_types::{Guest, Term};
use stations::{FilesFault, KeeperFiles};
use std::alloc::Global;
use std::io;
use std::result::Result;
use wire::{Pair, fence_entry, last_fence};

/// What is known of a keeper's files that are open.
#[derive(Clone, Copy)]
pub struct Known {
    pub guest: Guest,
    /// The pair whose keeper's they are.
    pub pair: Pair,
    /// Which file the open log is.
    pub own: Identity,
}

/// The open files of a keeper.
#[derive(Drop)]
pub struct DiskFiles<D: Disk + Drop> {
    pub disk: D,
    pub known: Known,
}

impl<D: Disk + Drop> DiskFiles<D> {
    /// The disk, and what is known of the files.
    pub fn into_parts(self) -> (D, Known)
        ensures { result ≡ (self.disk, self.known) }
    {
        let DiskFiles { disk, known } = self;
        (disk, known)
    }

    /// The files of these parts.
    pub fn from_parts(disk: D, known: Known) -> DiskFiles<D>
        ensures { result ≡ record { disk = disk; known = known } }
    {
        DiskFiles { disk, known }
    }
}

/// The fault of a file that can't be added to or brought to disk: the log is marked as one that failed, as far as that goes.
fn fail<D: Disk>(disk: &mut D, error: &io::Error, file: FilesFault) -> FilesFault
    ensures fault { IsFaultOf file result }
    ensures marked { (made : Bool) × (kept : Bool) × Does (D.deeds disk.old) (D.deeds disk.new) (marking made kept) }
{
    let _made = disk.mark();
    let _kept = disk.sync_folder();
    fault_of(error, file)
}

/// Looks whether the open log is the file of its name still.
fn look<D: Disk>(disk: &mut D, own: &Identity) -> Result<(), FilesFault>
    ensures ok { OnOk result ((named : identity_of_specs) × IsSameFile named own.now × Does (D.deeds disk.old) (D.deeds disk.new) (SawName named ∷ [])) }
    ensures failed { IfErr result (λ fault. Does (D.deeds disk.old) (D.deeds disk.new) (Unread ∷ []) ⊎
        ((fault ≡ FilesFault.Moved) × (named : identity_of_specs) × (IsSameFile named own.now → ⊥) × Does (D.deeds disk.old) (D.deeds disk.new) (SawName named ∷ []))) }
{
    match disk.named_identity() {
        Ok(named) if named.is_same_file(own) => Ok(()),
        Ok(_) => Err(FilesFault::Moved),
        Err(error) => Err(name_fault_of(&error)),
    }
}

/// Adds an entry to the fences, and brings it to disk.
fn add_synced<D: Disk>(disk: &mut D, entry: &[u8]) -> io::Result<()>
    ensures ok { OnOk result (Does (D.deeds disk.old) (D.deeds disk.new) (Appended Part.Fences entry.now true ∷ Synced Part.Fences true ∷ [])) }
    ensures failed { OnErr result (((front : List ℕ) × (rest : List ℕ) × (entry.now ≡ front ++ rest) × Does (D.deeds disk.old) (D.deeds disk.new) (Appended Part.Fences front false ∷ [])) ⊎
        Does (D.deeds disk.old) (D.deeds disk.new) (Appended Part.Fences entry.now true ∷ Synced Part.Fences false ∷ [])) }
{
    disk.append(Part::Fences, entry)?;
    disk.sync(Part::Fences)
}

impl<D: Disk + Drop> KeeperFiles for DiskFiles<D> {
    ghost acts = { λ files. acts_of files.known.guest files.known.own (D.deeds files.disk) };

    fn read_log(&mut self, alloc: Global) -> Result<Vec<u8>, FilesFault> {
        match self.disk.read_log(alloc) {
            Ok(bytes) => Ok(bytes),
            Err(error) => Err(fault_of(&error, FilesFault::Log)),
        }
    }

    fn cut(&mut self, size: usize) -> Result<(), FilesFault> {
        match self.disk.cut(size) {
            Ok(()) => Ok(()),
            Err(error) => Err(fault_of(&error, FilesFault::Log)),
        }
    }

    fn add(&mut self, bytes: &[u8]) -> Result<(), FilesFault> {
        match self.disk.append(Part::Log, bytes) {
            Ok(()) => Ok(()),
            Err(error) => Err(fail(&mut self.disk, &error, FilesFault::Log)),
        }
    }

    fn sync(&mut self) -> Result<(), FilesFault> {
        match self.disk.sync(Part::Log) {
            Ok(()) => Ok(()),
            Err(error) => Err(fail(&mut self.disk, &error, FilesFault::Log)),
        }
    }

    fn last_fence(&mut self, alloc: Global) -> Result<Term, FilesFault> {
        look(&mut self.disk, &self.known.own)?;
        match self.disk.read_fences(alloc) {
            Ok(bytes) => Ok(last_fence(&self.known.guest, &bytes)),
            Err(error) => Err(fault_of(&error, FilesFault::Fences)),
        }
    }

    fn add_fence(&mut self, term: Term) -> Result<(), FilesFault> {
        let entry = fence_entry(&self.known.guest, term);
        match add_synced(&mut self.disk, entry.as_slice()) {
            Ok(()) => Ok(()),
            Err(error) => Err(fail(&mut self.disk, &error, FilesFault::Fences)),
        }
    }
}
