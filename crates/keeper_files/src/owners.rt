//! Whose a keeper's files are, by the first line of its fences.

ghost use Rattle.std.specs.Prelude.{◌≡◌, ◌≢◌, ℕ, List, [], ◌∷◌, IfOk, IfErr, IfSome};
ghost use Rattle.ft_types.specs.Text.{BeginsWithLine};
ghost use Rattle.wire.specs.Pairs.{IsKeeps, keeps_text};
ghost use Rattle.keeper_files.specs.Deeds.{SawFences, ReadFences, inode_of, reading};
ghost use Rattle.keeper_files.specs.Owners.{AreKept, IsNotKept, keeps_of};
ghost use Rattle.keeper_files.specs.declared.disk.Identity.{Identity as identity_of_specs};
ghost use Rattle.stations.specs.Acts.{Does};

use crate::disk::{Disk, Identity};
use crate::faults::{OpenFault, opened};
use ft_types::{Guest, Keeper, first_line};
use stations::FilesFault;
use std::alloc::Global;
use std::result::Result;
use wire::{Keeps, Pair, read_keeps};

/// Whose files they are, by the first line of the fences.
fn first_keeps(guest: &Guest, bytes: &[u8]) -> Option<Keeps>
    ensures { IfSome result (λ k. IsKeeps k × (rest : List ℕ) × BeginsWithLine bytes.now (keeps_text guest.now k) rest) }
{
    let (text, _behind) = first_line(bytes)?;
    read_keeps(guest, text)
}

/// The pair, where the files are those that were made for this keeper.
fn pair_of(
    keeps: &Keeps,
    keeper: Keeper,
    own: &Identity,
    fences: &Identity,
) -> Result<Pair, OpenFault>
    ensures kept { IfOk result (λ pair. keeps.now ≡ keeps_of keeper pair own.now fences.now) }
    ensures fault { IfErr result (λ f. IsNotKept keeps.now keeper own.now fences.now f) }
{
    if keeps.keeper != keeper {
        return Err(OpenFault::OtherKeeper);
    }
    if keeps.log != own.inode() {
        return Err(OpenFault::OtherLog);
    }
    if keeps.fences != fences.inode() {
        return Err(OpenFault::OtherFences);
    }
    Ok(keeps.pair)
}

/// Looks at the fences and reads them: which file they are, and their bytes.
fn read_fences<D: Disk>(alloc: Global, disk: &mut D) -> Result<(Identity, Vec<u8>), OpenFault>
    ensures { IfOk result (λ r. Does (D.deeds disk.old) (D.deeds disk.new) (reading r.0 r.1.items)) }
{
    let fences = opened(disk.fences_identity(), FilesFault::Fences)?;
    let bytes = opened(disk.read_fences(alloc), FilesFault::Fences)?;
    Ok((fences, bytes))
}

/// The pair whose keeper's this log is, by its fences.
pub(crate) fn read_owner<D: Disk>(
    alloc: Global,
    disk: &mut D,
    guest: &Guest,
    keeper: Keeper,
    own: &Identity,
) -> Result<Pair, OpenFault>
    ensures { IfOk result (λ pair. (fences : identity_of_specs) × (bytes : List ℕ) × AreKept guest.now keeper pair own.now fences bytes ×
        Does (D.deeds disk.old) (D.deeds disk.new) (reading fences bytes)) }
{
    let (fences, bytes) = read_fences(alloc, disk)?;
    match first_keeps(guest, &bytes) {
        Some(keeps) => pair_of(&keeps, keeper, own, &fences),
        None => Err(OpenFault::NoLine),
    }
}
