//! `make IMAGE K KEEPERS NEED PAIR LOG`: the log of a keeper of the pair is made, and fences that say so.

ghost use Rattle.std.specs.Prelude.{◌≡◌, ◌≤◌, IfOk};

use crate::faults::make_fault;
use crate::files::{HostDisk, Places, Reason};
use crate::names::name_in_make;
use ends::{Fault, Host, tell};
use keeper_files::make_files;
use live_primary::read_image_file;
use live_words::MakeWords;
use std::result::Result;

/// Makes a log, and gives the status that the program ends with.
fn make_all<H: Host>(rt: &H, words: &MakeWords<'_>) -> Result<u8, Fault>
    ensures { IfOk result (λ status. status ≡ 0) }
{
    let guest = read_image_file(rt, words.image)?.guest();
    let reason = Reason::new(rt.alloc())?;
    let mut disk = HostDisk::new(rt, Places::new(rt, words.log, &reason)?);
    match make_files(&mut disk, &guest, words.keeper, words.pair) {
        Ok(()) => Ok(0),
        Err(fault) => reason.told(Err(make_fault(fault))),
    }
}

/// Makes a log. The status that the program ends with; a fault is told on standard error.
pub fn make<H: Host>(rt: &H, words: &MakeWords<'_>) -> u8
    ensures { result ≤ 1 }
{
    match make_all(rt, words) {
        Ok(status) => status,
        Err(fault) => {
            tell(rt, &fault, name_in_make(words, &fault));
            1
        }
    }
}
