//! `hand IMAGE K LOG T`: the keeper of this number and log acknowledges nothing below the term any more, and then its frames are written out, behind
//! a line of its pair.

ghost use Rattle.std.specs.Prelude.{◌≡◌, ◌≤◌, IfOk};
ghost use Rattle.wire.specs.declared.pairs.Pair.{Pair as pair_of_wire};
ghost use Rattle.live_keeper.specs.Handing.{HandsOver};

use crate::faults::open_fault;
use crate::files::{HostDisk, HostFiles, Places, Reason};
use crate::handed_out::hand_out;
use crate::names::name_in_hand;
use ends::{Fault, Host, tell};
use ft_types::Guest;
use keeper_files::open_for_hand;
use live_primary::read_image_file;
use live_words::HandWords;
use std::io;
use std::io::Write;
use std::result::Result;

/// The files of a log that is handed over.
fn open<H: Host>(
    rt: &H,
    guest: Guest,
    words: &HandWords<'_>,
    reason: &Reason,
) -> Result<HostFiles<H>, Fault> {
    let disk = HostDisk::new(rt, Places::of(rt, words.log, reason)?);
    match open_for_hand(rt.alloc(), disk, guest, words.keeper) {
        Ok(files) => Ok(files),
        Err(fault) => Err(open_fault(fault)),
    }
}

/// What is written of the log of these words.
fn bytes_of<H: Host>(
    rt: &H,
    guest: &Guest,
    words: &HandWords<'_>,
    reason: &Reason,
) -> Result<Vec<u8>, Fault>
    ensures { IfOk result (λ bytes. (pair : pair_of_wire) × HandsOver guest.now pair words.now.keeper words.now.term bytes.items) }
{
    let files = open(rt, *guest, words, reason)?;
    let pair = files.known.pair;
    let handed = hand_out(rt.alloc(), guest, &pair, words.keeper, words.term, files)?;
    Ok(handed.bytes)
}

fn write_out<H: Host>(rt: &H, bytes: &[u8]) -> io::Result<()> {
    let mut out = io::writer(rt);
    out.write_all(bytes)?;
    out.flush()
}

/// Hands a log over to a term, and gives the status that the program ends with.
fn hand_all<H: Host>(rt: &H, words: &HandWords<'_>) -> Result<u8, Fault>
    ensures { IfOk result (λ status. status ≡ 0) }
{
    let guest = read_image_file(rt, words.image)?.guest();
    let reason = Reason::new(rt.alloc())?;
    let bytes = reason.told(bytes_of(rt, &guest, words, &reason))?;
    match write_out(rt, &bytes) {
        Ok(()) => Ok(0),
        Err(_) => Err(Fault::Write),
    }
}

/// Hands a log over to a term. The status that the program ends with; a fault is told on standard error.
pub fn hand<H: Host>(rt: &H, words: &HandWords<'_>) -> u8
    ensures { result ≤ 1 }
{
    match hand_all(rt, words) {
        Ok(status) => status,
        Err(fault) => {
            tell(rt, &fault, name_in_hand(words, &fault));
            1
        }
    }
}
