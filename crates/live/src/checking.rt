//! `check IMAGE LOG`: it is told what a log has, and whether a keeper would begin with it. None that runs is disturbed.

ghost use Rattle.std.specs.Prelude.{◌≤◌, IfOk};

use crate::mending::misfit_fault;
use ballots::next_ballot;
use ends::{Fault, Frames, Host, NamedFile, file_fault, read_file, tell};
use ft_types::{Guest, Term, first_line};
use live_keeper::{beside, identity_of, is_there, log_fault, real_name};
use live_primary::read_image_file;
use live_words::CheckWords;
use log_mending::{Checked, check};
use stations::LogFault;
use std::io;
use std::io::Write;
use std::option::Option;
use std::result::Result;
use wire::{Keeps, last_fence, read_keeps};

/// What was found of a log.
#[derive(Drop)]
struct Found {
    /// Whose it is, by the first line of its fences.
    keeps: Option<Keeps>,
    /// The last fence.
    fence: Term,
    /// How many bytes it has.
    size: usize,
    checked: Checked,
    /// Why a keeper would not begin with it.
    fault: Option<Fault>,
}

/// The names of a log, of the fences and of the mark beside it.
#[derive(Drop)]
struct Names {
    log: String,
    fences: String,
    mark: String,
}

fn names_of<H: Host>(rt: &H, log: &str) -> Result<Names, Fault> {
    let log = real_name(rt, log)?;
    let fences = beside(rt.alloc(), log.as_str(), ".fences")?;
    let mark = beside(rt.alloc(), log.as_str(), ".failed")?;
    Ok(Names { log, fences, mark })
}

fn read<H: Host>(rt: &H, name: &str, file: NamedFile) -> Result<Vec<u8>, Fault> {
    match read_file(rt, name) {
        Ok(bytes) => Ok(bytes),
        Err(error) => Err(file_fault(&error, file)),
    }
}

/// Whether the files are those of which the first line of the fences speaks.
fn owner_fault<H: Host>(rt: &H, names: &Names, keeps: Option<&Keeps>) -> io::Result<Option<Fault>> {
    let log = identity_of(&rt.look_at(names.log.as_str())?);
    let fences = identity_of(&rt.look_at(names.fences.as_str())?);
    if log.links != 1 {
        return Ok(Some(Fault::Link));
    }
    if is_there(rt, names.mark.as_str())? {
        return Ok(Some(Fault::Failed));
    }
    Ok(match keeps {
        None => Some(Fault::NoLine),
        Some(keeps) if keeps.log != log.inode() => Some(Fault::OtherLog),
        Some(keeps) if keeps.fences != fences.inode() => Some(Fault::OtherFences),
        Some(_) => None,
    })
}

/// What is wrong with its frames.
fn frames_fault(checked: &Checked) -> Option<Fault> {
    if let Some(fault) = checked.fault {
        return Some(log_fault(LogFault::Frame(fault)));
    }
    match checked.misfit {
        Some(misfit) => Some(Fault::Frames(Frames::Log, misfit_fault(misfit))),
        None => None,
    }
}

fn find<H: Host>(rt: &H, guest: Guest, log: &str) -> Result<Found, Fault> {
    let names = names_of(rt, log)?;
    let fences = read(rt, names.fences.as_str(), NamedFile::Fences)?;
    let bytes = read(rt, names.log.as_str(), NamedFile::Log)?;
    let keeps = match first_line(&fences) {
        Some((text, _)) => read_keeps(&guest, text),
        None => None,
    };
    let checked = check(rt.alloc(), guest, &bytes)?;
    let fault = match owner_fault(rt, &names, keeps.as_ref()) {
        Ok(Some(fault)) => Some(fault),
        Ok(None) => frames_fault(&checked),
        Err(error) => return Err(file_fault(&error, NamedFile::Log)),
    };
    Ok(Found {
        keeps,
        fence: last_fence(&guest, &fences),
        size: bytes.len(),
        checked,
        fault,
    })
}

fn write_keeper<W: Write>(keeps: Option<&Keeps>, out: &mut W) -> io::Result<()> {
    let Some(keeps) = keeps else {
        return writeln!(out, "keeper none");
    };
    let quorum = keeps.pair.quorum;
    writeln!(
        out,
        "keeper {} keepers {} need {} pair {:016x}",
        keeps.keeper.number(),
        quorum.keepers(),
        quorum.need(),
        keeps.pair.name
    )
}

/// Writes the next term that a person may grant, who is candidate 0.
fn write_grant<W: Write>(found: &Found, out: &mut W) -> io::Result<()> {
    match next_ballot(0, found.fence.max(found.checked.last_term)) {
        Some(term) => writeln!(out, "grant {term}"),
        None => writeln!(out, "grant none"),
    }
}

/// Writes where the first fault stands, or how many bytes stand behind the frames where they are less than one.
fn write_rest<W: Write>(found: &Found, out: &mut W) -> io::Result<()> {
    let checked = &found.checked;
    if checked.misfit.is_some() {
        writeln!(out, "takes {}", checked.taken)?;
    }
    match checked.fault {
        Some(fault) => writeln!(out, "fault {} byte {}", fault.number(), checked.size),
        None => writeln!(out, "rest {}", found.size.saturating_sub(checked.size)),
    }
}

fn write_found<W: Write>(found: &Found, out: &mut W) -> io::Result<()> {
    let checked = &found.checked;
    write_keeper(found.keeps.as_ref(), out)?;
    writeln!(out, "fence {}", found.fence)?;
    writeln!(out, "bytes {}", found.size)?;
    writeln!(out, "frames {} bytes {}", checked.frames, checked.size)?;
    writeln!(out, "last term {}", checked.last_term)?;
    write!(out, "position term {} counts", checked.position.term)?;
    for count in checked.position.counts.as_slice() {
        write!(out, " {count}")?;
    }
    writeln!(out)?;
    write_grant(found, out)?;
    write_rest(found, out)?;
    out.flush()
}

/// Tells what a log has, and gives the status that the program ends with: 0 where a keeper would begin with it.
pub fn check_log<H: Host>(rt: &H, words: &CheckWords<'_>) -> Result<u8, Fault>
    ensures { IfOk result (λ status. status ≤ 1) }
{
    let guest = read_image_file(rt, words.image)?.guest();
    let found = find(rt, guest, words.log)?;
    if write_found(&found, &mut io::writer(rt)).is_err() {
        return Err(Fault::Write);
    }
    match found.fault {
        Some(fault) => {
            tell(rt, &fault, words.log);
            Ok(1)
        }
        None => Ok(0),
    }
}
