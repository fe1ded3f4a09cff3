//! How a keeper's files are opened.

ghost use Rattle.std.specs.Prelude.{◌≡◌, ◌++◌, ℕ, List, [], ◌∷◌, true, IfOk, OnOk};
ghost use Rattle.keeper_files.specs.Deeds.{Opened, SyncedFolder, Locked, IsOfOneName, looking, reading, opening, opening_for_hand, opening_for_keeper};
ghost use Rattle.keeper_files.specs.Owners.{AreKept};
ghost use Rattle.keeper_files.specs.declared.disk.Identity.{Identity as identity_of_specs};
ghost use Rattle.stations.specs.Acts.{Does};

use crate::disk::{Disk, Identity, Part};
use crate::faults::{OpenFault, opened};
use crate::files::{DiskFiles, Known};
use crate::owners::read_owner;
use ft_types::{Guest, Keeper};
use stations::FilesFault;
use std::alloc::Global;
use std::result::Result;

/// Opens a file that is there.
fn open<D: Disk>(disk: &mut D, part: Part, file: FilesFault) -> Result<(), OpenFault>
    ensures { OnOk result (Does (D.deeds disk.old) (D.deeds disk.new) (opening part)) }
{
    opened(disk.open(part), file)?;
    opened(disk.sync_folder(), file)
}

/// Takes the lock on the log of a keeper that runs.
fn lock<D: Disk>(disk: &mut D) -> Result<(), OpenFault>
    ensures { OnOk result (Does (D.deeds disk.old) (D.deeds disk.new) (Locked Part.Log true ∷ [])) }
{
    if opened(disk.try_lock_log(), FilesFault::Log)? {
        Ok(())
    } else {
        Err(OpenFault::Locked)
    }
}

/// Opens the fences, and takes the lock on them.
fn open_fences<D: Disk>(disk: &mut D) -> Result<(), OpenFault>
    ensures { OnOk result (Does (D.deeds disk.old) (D.deeds disk.new) (Opened Part.Fences true ∷ SyncedFolder true ∷ Locked Part.Fences true ∷ [])) }
{
    open(disk, Part::Fences, FilesFault::Fences)?;
    opened(disk.lock_fences(), FilesFault::Fences)
}

/// Looks at an open log: which file it is, and that it is one of one name that did not fail before.
fn look<D: Disk>(disk: &mut D) -> Result<Identity, OpenFault>
    ensures { IfOk result (λ own. (named : identity_of_specs) × IsOfOneName own named × Does (D.deeds disk.old) (D.deeds disk.new) (looking own named)) }
{
    let own = opened(disk.own_identity(), FilesFault::Log)?;
    let named = opened(disk.named_identity(), FilesFault::Log)?;
    let is_marked = opened(disk.is_marked(), FilesFault::Log)?;
    if own.links != 1 || !named.is_same_file(&own) {
        return Err(OpenFault::Link);
    }
    if is_marked {
        return Err(OpenFault::Failed);
    }
    Ok(own)
}

/// Looks at an open log and reads its fences: what is known of them, where they are this keeper's.
fn look_at_both<D: Disk>(
    alloc: Global,
    disk: &mut D,
    guest: Guest,
    keeper: Keeper,
) -> Result<Known, OpenFault>
    ensures guest { IfOk result (λ known. known.guest ≡ guest) }
    ensures own { IfOk result (λ known. (named fences : identity_of_specs) × (bytes : List ℕ) × IsOfOneName known.own named ×
        AreKept guest keeper known.pair known.own fences bytes × Does (D.deeds disk.old) (D.deeds disk.new) (looking known.own named ++ reading fences bytes)) }
{
    let own = look(disk)?;
    let pair = read_owner(alloc, disk, &guest, keeper, &own)?;
    Ok(Known { guest, pair, own })
}

/// Opens the files of a keeper that runs: the log, which no other keeper has.
fn open_log<D: Disk>(
    alloc: Global,
    disk: &mut D,
    guest: Guest,
    keeper: Keeper,
) -> Result<Known, OpenFault>
    ensures guest { IfOk result (λ known. known.guest ≡ guest) }
    ensures own { IfOk result (λ known. (named fences : identity_of_specs) × (bytes : List ℕ) × IsOfOneName known.own named ×
        AreKept guest keeper known.pair known.own fences bytes × Does (D.deeds disk.old) (D.deeds disk.new) (opening_for_keeper known.own named fences bytes)) }
{
    open(disk, Part::Log, FilesFault::Log)?;
    lock(disk)?;
    look_at_both(alloc, disk, guest, keeper)
}

/// Opens the files of a log that is handed over: the log, and the fences, for which no other process puts one meanwhile.
fn open_both<D: Disk>(
    alloc: Global,
    disk: &mut D,
    guest: Guest,
    keeper: Keeper,
) -> Result<Known, OpenFault>
    ensures guest { IfOk result (λ known. known.guest ≡ guest) }
    ensures own { IfOk result (λ known. (named fences : identity_of_specs) × (bytes : List ℕ) × IsOfOneName known.own named ×
        AreKept guest keeper known.pair known.own fences bytes × Does (D.deeds disk.old) (D.deeds disk.new) (opening_for_hand known.own named fences bytes)) }
{
    open(disk, Part::Log, FilesFault::Log)?;
    open_fences(disk)?;
    look_at_both(alloc, disk, guest, keeper)
}

/// The files of a keeper that runs, which were made for it: its log, which no other keeper has, which is the only file of its name and did not fail before.
pub fn open_for_keeper<D: Disk + Drop>(
    alloc: Global,
    mut disk: D,
    guest: Guest,
    keeper: Keeper,
) -> Result<DiskFiles<D>, OpenFault>
    ensures guest { IfOk result (λ files. files.known.guest ≡ guest) }
    ensures opened { IfOk result (λ files. (named fences : identity_of_specs) × (bytes : List ℕ) × IsOfOneName files.known.own named ×
        AreKept guest keeper files.known.pair files.known.own fences bytes ×
        Does (D.deeds disk) (D.deeds files.disk) (opening_for_keeper files.known.own named fences bytes)) }
{
    let known = open_log(alloc, &mut disk, guest, keeper)?;
    Ok(DiskFiles { disk, known })
}

/// The files of a keeper whose log is handed over, which were made for it. Whoever else hands it over waits meanwhile.
pub fn open_for_hand<D: Disk + Drop>(
    alloc: Global,
    mut disk: D,
    guest: Guest,
    keeper: Keeper,
) -> Result<DiskFiles<D>, OpenFault>
    ensures guest { IfOk result (λ files. files.known.guest ≡ guest) }
    ensures opened { IfOk result (λ files. (named fences : identity_of_specs) × (bytes : List ℕ) × IsOfOneName files.known.own named ×
        AreKept guest keeper files.known.pair files.known.own fences bytes ×
        Does (D.deeds disk) (D.deeds files.disk) (opening_for_hand files.known.own named fences bytes)) }
{
    let known = open_both(alloc, &mut disk, guest, keeper)?;
    Ok(DiskFiles { disk, known })
}
