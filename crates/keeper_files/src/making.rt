//! How a keeper's files are made.

ghost use Rattle.std.specs.Prelude.{◌≡◌, ◌≢◌, ◌++◌, List, [], ◌∷◌, Ok, true, false, IfOk, IfErr, OnOk};
ghost use Rattle.keeper_files.specs.Deeds.{Deed, SawThere, SawMark, Marked, Made, SawOwn, SawFences, Appended, Synced, SyncedFolder, ChangeNothing, making, making_marked, naming, unmarking};
ghost use Rattle.keeper_files.specs.Owners.{keeps_of};
ghost use Rattle.keeper_files.specs.declared.disk.Identity.{Identity as identity_of_specs};
ghost use Rattle.stations.specs.Acts.{Does};

use crate::disk::{Disk, Identity, Part};
use crate::faults::{MakeFault, fault_of};
use crate::files::{DiskFiles, Known};
use ft_types::{Guest, Keeper};
use stations::FilesFault;
use std::io;
use std::result::Result;
use wire::{Keeps, Pair, keeps_line};

/// What came of a call, as the fault of making this file.
fn made<T: Drop>(done: io::Result<T>, file: FilesFault) -> Result<T, MakeFault>
    ensures made { IfOk result (λ it. done ≡ Ok it) }
    ensures files { IfErr result (λ f. f ≢ MakeFault.There) }
{
    match done {
        Ok(it) => Ok(it),
        Err(error) => Err(MakeFault::Files(fault_of(&error, file))),
    }
}

/// Looks whether nothing is there.
fn look<D: Disk>(disk: &mut D) -> Result<(), MakeFault>
    ensures none { OnOk result (Does (D.deeds disk.old) (D.deeds disk.new) (SawThere Part.Log false ∷ SawThere Part.Fences false ∷ SawMark false ∷ [])) }
    ensures there { IfErr result (λ f. f ≡ MakeFault.There → (deeds : List Deed) × ChangeNothing deeds × Does (D.deeds disk.old) (D.deeds disk.new) deeds) }
{
    let log = made(disk.is_there(Part::Log), FilesFault::Log)?;
    let fences = made(disk.is_there(Part::Fences), FilesFault::Fences)?;
    let mark = made(disk.is_marked(), FilesFault::Log)?;
    if log || fences || mark {
        Err(MakeFault::There)
    } else {
        Ok(())
    }
}

/// Makes the log, unless another one is made meanwhile.
fn make_log<D: Disk>(disk: &mut D) -> Result<(), MakeFault>
    ensures made { OnOk result (Does (D.deeds disk.old) (D.deeds disk.new) (Made Part.Log true ∷ [])) }
    ensures there { IfErr result (λ f. Does (D.deeds disk.old) (D.deeds disk.new) (Made Part.Log false ∷ [])) }
{
    match disk.make(Part::Log) {
        Ok(()) => Ok(()),
        Err(error) => match error.kind() {
            io::ErrorKind::AlreadyExists => Err(MakeFault::There),
            _ => Err(MakeFault::Files(fault_of(&error, FilesFault::Log))),
        },
    }
}

/// Makes the fences beside the log that was made: which files both are.
fn make_fences<D: Disk>(disk: &mut D) -> Result<(Identity, Identity), MakeFault>
    ensures made { IfOk result (λ r. Does (D.deeds disk.old) (D.deeds disk.new) (Made Part.Fences true ∷ SawOwn r.0 ∷ SawFences r.1 ∷ [])) }
    ensures files { IfErr result (λ f. f ≢ MakeFault.There) }
{
    made(disk.make(Part::Fences), FilesFault::Fences)?;
    let log = made(disk.own_identity(), FilesFault::Log)?;
    let fences = made(disk.fences_identity(), FilesFault::Fences)?;
    Ok((log, fences))
}

/// Makes both files: which files they are.
fn make_both<D: Disk>(disk: &mut D) -> Result<(Identity, Identity), MakeFault>
    ensures made { IfOk result (λ r. Does (D.deeds disk.old) (D.deeds disk.new) (Made Part.Log true ∷ Made Part.Fences true ∷ SawOwn r.0 ∷ SawFences r.1 ∷ [])) }
    ensures there { IfErr result (λ f. f ≡ MakeFault.There → Does (D.deeds disk.old) (D.deeds disk.new) (Made Part.Log false ∷ [])) }
{
    make_log(disk)?;
    make_fences(disk)
}

/// Writes the first line of the fences, and brings both files and their folder to disk.
fn name<D: Disk>(disk: &mut D, first: &[u8]) -> Result<(), MakeFault>
    ensures named { OnOk result (Does (D.deeds disk.old) (D.deeds disk.new)
        (Appended Part.Fences first.now true ∷ Synced Part.Log true ∷ Synced Part.Fences true ∷ SyncedFolder true ∷ [])) }
    ensures files { IfErr result (λ f. f ≢ MakeFault.There) }
{
    made(disk.append(Part::Fences, first), FilesFault::Fences)?;
    made(disk.sync(Part::Log), FilesFault::Log)?;
    made(disk.sync(Part::Fences), FilesFault::Fences)?;
    made(disk.sync_folder(), FilesFault::Log)
}

/// Says in the fences whose they and the log are, and brings both to disk.
fn name_keeper<D: Disk>(
    disk: &mut D,
    guest: &Guest,
    keeper: Keeper,
    pair: Pair,
    log: &Identity,
    fences: &Identity,
) -> Result<(), MakeFault>
    ensures named { OnOk result (Does (D.deeds disk.old) (D.deeds disk.new) (naming guest.now (keeps_of keeper pair log.now fences.now))) }
    ensures files { IfErr result (λ f. f ≢ MakeFault.There) }
{
    let keeps = Keeps {
        keeper,
        pair,
        log: log.inode(),
        fences: fences.inode(),
    };
    let first = keeps_line(guest, &keeps);
    name(disk, first.as_slice())
}

/// Makes the log of a keeper and its fences, whose first line says whose they are, and brings them to disk.
pub fn make_files<D: Disk>(
    disk: &mut D,
    guest: &Guest,
    keeper: Keeper,
    pair: Pair,
) -> Result<(), MakeFault>
    ensures made { OnOk result ((log fences : identity_of_specs) × Does (D.deeds disk.old) (D.deeds disk.new)
        (making log fences ++ naming guest.now (keeps_of keeper pair log fences))) }
    // Where one of them is there, nothing is changed.
    ensures there { IfErr result (λ f. f ≡ MakeFault.There → (deeds : List Deed) × ChangeNothing deeds × Does (D.deeds disk.old) (D.deeds disk.new) deeds) }
{
    look(disk)?;
    let (log, fences) = make_both(disk)?;
    name_keeper(disk, guest, keeper, pair, &log, &fences)
}

/// Marks a log that is not there yet as one that failed.
fn mark<D: Disk>(disk: &mut D) -> Result<(), MakeFault>
    ensures marked { OnOk result (Does (D.deeds disk.old) (D.deeds disk.new) (Marked true ∷ SyncedFolder true ∷ [])) }
    ensures files { IfErr result (λ f. f ≢ MakeFault.There) }
{
    made(disk.mark(), FilesFault::Log)?;
    made(disk.sync_folder(), FilesFault::Log)
}

/// Makes the log of a keeper and its fences, to be filled before anybody begins with them: until `unmark` they are marked as a log that failed.
pub fn make_marked_files<D: Disk + Drop>(
    mut disk: D,
    guest: Guest,
    keeper: Keeper,
    pair: Pair,
) -> Result<DiskFiles<D>, MakeFault>
    ensures known { IfOk result (λ files. (files.known.guest ≡ guest) × (files.known.pair ≡ pair)) }
    ensures made { IfOk result (λ files. (fences : identity_of_specs) × Does (D.deeds disk) (D.deeds files.disk)
        (making_marked files.known.own fences ++ naming guest (keeps_of keeper pair files.known.own fences))) }
// Where one of them is there, nothing is changed, but for the mark where another one is made meanwhile.
{
    look(&mut disk)?;
    mark(&mut disk)?;
    let (own, fences) = make_both(&mut disk)?;
    name_keeper(&mut disk, &guest, keeper, pair, &own, &fences)?;
    let known = Known { guest, pair, own };
    Ok(DiskFiles { disk, known })
}

/// Files that were made marked are filled: their mark is removed, and a keeper may begin with them.
pub fn unmark<D: Disk + Drop>(files: &mut DiskFiles<D>) -> Result<(), MakeFault>
    ensures unmarked { OnOk result (Does (D.deeds files.old.disk) (D.deeds files.new.disk) unmarking) }
    ensures known { files.new.known ≡ files.old.known }
{
    made(files.disk.unmark(), FilesFault::Log)?;
    made(files.disk.sync_folder(), FilesFault::Log)
}
