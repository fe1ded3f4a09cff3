//! `renew IMAGE K LOG T HANDED..`: a keeper that lost its log gets a new one, of what other keepers handed over to a term, from which on it acknowledges.

ghost use Rattle.std.specs.Prelude.{◌≡◌, IfOk};
ghost use Rattle.live.specs.Mending.{told_of_renewing};

use crate::mending::misfit_fault;
use ends::{Fault, Frames, Host};
use ft_types::Guest;
use keeper_files::{make_marked_files, unmark};
use live_keeper::{HostDisk, Places, Reason, files_fault, make_fault};
use live_primary::{read_image_file, read_renewal};
use live_words::RenewWords;
use log_mending::{MendFault, renew};
use std::result::Result;

/// As it is told why a new log is not filled.
fn renew_fault(fault: MendFault) -> Fault
    ensures { result ≡ told_of_renewing fault }
{
    match fault {
        MendFault::Files(fault) => files_fault(fault),
        MendFault::Behind => Fault::Behind,
        MendFault::Own(misfit) | MendFault::Other(_, misfit) => {
            Fault::Frames(Frames::AllHanded, misfit_fault(misfit))
        }
    }
}

/// Makes the new log, and fills it.
fn renew_of<H: Host>(
    rt: &H,
    guest: Guest,
    words: &RenewWords<'_>,
    reason: &Reason,
) -> Result<(), Fault> {
    let renewal = read_renewal(rt, guest, words.keeper, words.term, &words.handed)?;
    let disk = HostDisk::new(rt, Places::new(rt, words.log, reason)?);
    let mut files = match make_marked_files(disk, guest, words.keeper, renewal.pair) {
        Ok(files) => files,
        Err(fault) => return Err(make_fault(fault)),
    };
    if let Err(fault) = renew(rt.alloc(), guest, &mut files, &renewal.logs, words.term) {
        return Err(renew_fault(fault));
    }
    match unmark(&mut files) {
        Ok(()) => Ok(()),
        Err(fault) => Err(make_fault(fault)),
    }
}

/// Makes a new log for a keeper, and gives the status that the program ends with. What was handed over stays: it is the next primary's.
pub fn renew_log<H: Host>(rt: &H, words: &RenewWords<'_>) -> Result<u8, Fault>
    ensures { IfOk result (λ status. status ≡ 0) }
{
    let guest = read_image_file(rt, words.image)?.guest();
    let reason = Reason::new(rt.alloc())?;
    reason.told(renew_of(rt, guest, words, &reason))?;
    Ok(0)
}
