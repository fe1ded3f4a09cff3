//! `mend IMAGE LOG FROM..`: a log is cut behind its frames and gets those that it lacks from other keepers' logs, while neither a keeper nor `hand` has it.

ghost use Rattle.std.specs.Prelude.{◌≡◌, IfOk};
ghost use Rattle.live.specs.Mending.{told_of_mending, told_of_misfit};

use ends::{Fault, Frames, FramesFault, Host, NamedFile, file_fault, read_file};
use ft_types::{Guest, first_line};
use keeper_files::{Disk, Part, open_for_keeper};
use live_keeper::{
    HostDisk, HostFiles, Places, Reason, beside, files_fault, open_fault, real_name,
};
use live_primary::read_image_file;
use live_words::MendWords;
use log_mending::{MendFault, Misfit, mend};
use std::option::Option;
use std::result::Result;
use wire::{Keeps, Pair, read_keeps};

/// As it is told that a frame does not go with others.
pub(crate) fn misfit_fault(misfit: Misfit) -> FramesFault
    ensures { result ≡ told_of_misfit misfit }
{
    match misfit {
        Misfit::OtherGuest => FramesFault::Guest,
        Misfit::Clash => FramesFault::Clash,
    }
}

/// As it is told why a log is not mended.
fn mend_fault(fault: MendFault) -> Fault
    ensures { result ≡ told_of_mending fault }
{
    match fault {
        MendFault::Files(fault) => files_fault(fault),
        MendFault::Behind => Fault::Behind,
        MendFault::Own(misfit) => Fault::Frames(Frames::Log, misfit_fault(misfit)),
        MendFault::Other(number, misfit) => {
            Fault::Frames(Frames::From(number), misfit_fault(misfit))
        }
    }
}

/// Whose a log is, by the first line of the fences beside it.
pub(crate) fn owner<H: Host>(
    rt: &H,
    guest: &Guest,
    log: &str,
    fences: NamedFile,
) -> Result<Option<Keeps>, Fault> {
    let name = beside(rt.alloc(), log, ".fences")?;
    let bytes = match read_file(rt, name.as_str()) {
        Ok(bytes) => bytes,
        Err(error) => return Err(file_fault(&error, fences)),
    };
    match first_line(&bytes) {
        Some((text, _)) => Ok(read_keeps(guest, text)),
        None => Ok(None),
    }
}

/// The files of the log, which neither a keeper nor `hand` has.
fn open<H: Host>(rt: &H, guest: Guest, log: &str, reason: &Reason) -> Result<HostFiles<H>, Fault> {
    let Some(keeps) = owner(rt, &guest, real_name(rt, log)?.as_str(), NamedFile::Fences)? else {
        return Err(Fault::NoLine);
    };
    let mut disk = HostDisk::new(rt, Places::of(rt, log, reason)?);
    if let Err(error) = disk.open(Part::Fences) {
        return Err(file_fault(&error, NamedFile::Fences));
    }
    if let Err(error) = disk.lock_fences() {
        return Err(file_fault(&error, NamedFile::Fences));
    }
    match open_for_keeper(rt.alloc(), disk, guest, keeps.keeper) {
        Ok(files) => Ok(files),
        Err(fault) => Err(open_fault(fault)),
    }
}

/// The bytes of the other log of this number, which is of the same pair.
fn read_other<H: Host>(
    rt: &H,
    guest: &Guest,
    pair: &Pair,
    number: usize,
    log: &str,
) -> Result<Vec<u8>, Fault> {
    let from = Frames::From(number);
    let Some(keeps) = owner(rt, guest, log, NamedFile::FromFences(number))? else {
        return Err(Fault::Frames(from, FramesFault::Line));
    };
    if keeps.pair != *pair {
        return Err(Fault::Frames(from, FramesFault::Pair));
    }
    match read_file(rt, log) {
        Ok(bytes) => Ok(bytes),
        Err(error) => Err(file_fault(&error, NamedFile::From(number))),
    }
}

/// Mends a log, and gives the status that the program ends with.
pub fn mend_log<H: Host>(rt: &H, words: &MendWords<'_>) -> Result<u8, Fault>
    ensures { IfOk result (λ status. status ≡ 0) }
{
    let guest = read_image_file(rt, words.image)?.guest();
    let reason = Reason::new(rt.alloc())?;
    let mut files = reason.told(open(rt, guest, words.log, &reason))?;
    let pair = files.known.pair;
    let mut others = Vec::new(rt.alloc());
    for number in 0..words.others.len() {
        others.push(read_other(rt, &guest, &pair, number, words.others[number])?)?;
    }
    match mend(rt.alloc(), guest, &mut files, &others) {
        Ok(()) => Ok(0),
        Err(fault) => reason.told(Err(mend_fault(fault))),
    }
}
