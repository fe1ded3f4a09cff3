//! A new log for a keeper whose disk is lost.

ghost use Rattle.std.specs.Prelude.{◌≡◌, ◌≢◌, ◌≤◌, ◌+◌, ◌-◌, ◌++◌, ◌↔◌, ℕ, List, count_by, map, take, IfOk, IfErr, IsTrue, OnOk};
ghost use Rattle.std.specs.List.{AllByRecursion};
ghost use Rattle.ft_types.specs.Text.{line};
ghost use Rattle.live_world.specs.Renewals.{AreEnoughLogs, HasSaidSince, IsHandedBy, IsNewLog, IsNoNewLog, IsNoOthers, IsNotHandedBy};
ghost use Rattle.live_world.specs.declared.fault.EventFault.TheVariants.{TooFew};

use crate::fault::EventFault;
use crate::files::MemoryFiles;
use crate::hand::HandedTo;
use crate::new_files::filled;
use crate::room::make_room;
use ft_types::{Guest, Keeper, KeeperSet, Memory, Quorum, Term, first_line};
use go_live::suffice;
use leading::{HandedLog, read_handed_log};
use std::alloc::Global;
use std::option::Option;
use std::result::Result;
use wire::Acknowledgement;

/// Whether it was said by the keeper, in the term or a later one.
fn is_since(said: &Acknowledgement, keeper: Keeper, term: Term) -> bool
    ensures { IsTrue result ↔ ((said.now.keeper ≡ keeper) × (term ≤ said.now.term)) }
{
    said.keeper == keeper && said.term >= term
}

/// Whether the keeper acknowledged anything in the term or a later one.
pub(crate) fn has_said(said: &[Acknowledgement], keeper: Keeper, term: Term) -> bool
    ensures { IsTrue result ↔ HasSaidSince said.now keeper term }
{
    said.iter().any(|said| is_since(said, keeper, term))
}

/// What another keeper handed over.
#[derive(Drop)]
struct OtherLog {
    giver: Keeper,
    frames: Vec<u8>,
}

/// The frames of what was handed over: the bytes behind its line.
fn frames_of(alloc: Global, bytes: &[u8]) -> Result<Vec<u8>, Memory>
    ensures { IfOk result (λ frames. (text rest : List ℕ) → AllByRecursion (λ b. b ≡ 10 → ⊥) text → bytes.now ≡ line text ++ rest → frames.items ≡ rest) }
{
    let Some((_, rest)) = first_line(bytes) else {
        return Ok(Vec::new(alloc));
    };
    Ok(rest.to_vec(alloc)?)
}

/// Looks whether the log was handed over to the term by another keeper than this one.
fn look(log: &HandedLog, keeper: Keeper, term: Term) -> Result<(), EventFault>
    ensures term { OnOk result (log.now.term ≡ term) }
    ensures other { OnOk result (log.now.keeper ≢ keeper) }
    ensures refused { IfErr result (IsNoOthers log.now keeper term) }
{
    if log.term != term {
        return Err(EventFault::OtherTerm);
    }
    if log.keeper == keeper {
        return Err(EventFault::OwnLog);
    }
    Ok(())
}

/// What was handed over to the term, by another keeper than this one.
fn other_log(
    alloc: Global,
    guest: Guest,
    keeper: Keeper,
    term: Term,
    handed: &HandedTo,
) -> Result<OtherLog, EventFault>
    ensures log { IfOk result (λ other. IsHandedBy guest keeper term handed.now other.giver other.frames.items) }
    ensures refused { IfErr result (IsNotHandedBy guest keeper term handed.now) }
{
    let bytes = handed.bytes.as_slice();
    let log = match read_handed_log(alloc, guest, bytes) {
        Ok(log) => log,
        Err(fault) => return Err(EventFault::Handed(fault)),
    };
    look(&log, keeper, term)?;
    let frames = frames_of(alloc, bytes)?;
    Ok(OtherLog {
        giver: log.keeper,
        frames,
    })
}

/// Looks whether these are as many keepers as a primary has to have logs of.
fn look_enough(givers: KeeperSet, quorum: Quorum) -> Result<(), EventFault>
    ensures enough { OnOk result (quorum.keepers - quorum.need + 1 ≤ count_by (λ member. member) (take quorum.keepers givers)) }
    ensures few { IfErr result (λ f. (f ≡ TooFew) × (quorum.keepers - quorum.need + 1 ≤ count_by (λ member. member) (take quorum.keepers givers) → ⊥)) }
{
    if suffice(givers, quorum.keepers(), quorum.need()) {
        Ok(())
    } else {
        Err(EventFault::TooFew)
    }
}

/// The logs of these numbers, which other keepers than this one handed over to the term, as many as a primary of the term has to have.
fn other_logs(
    alloc: Global,
    guest: Guest,
    quorum: Quorum,
    keeper: Keeper,
    term: Term,
    handed: &[HandedTo],
    numbers: &[usize],
) -> Result<Vec<Vec<u8>>, EventFault>
    ensures logs { IfOk result (λ logs. AreEnoughLogs guest quorum keeper term handed.now numbers.now (map (λ log. log.items) logs.items)) }
    ensures refused { IfErr result (IsNoNewLog guest quorum keeper term handed.now numbers.now) }
{
    let mut givers = KeeperSet::new();
    let mut logs = Vec::new(alloc);
    for number in numbers {
        if *number >= handed.len() {
            return Err(EventFault::NoneHanded);
        }
        let other = other_log(alloc, guest, keeper, term, &handed[*number])?;
        givers = givers.with(other.giver);
        make_room(&mut logs)?;
        logs.push_reserved(other.frames);
    }
    look_enough(givers, quorum)?;
    Ok(logs)
}

/// The files of a new log of the keeper, with all that these numbers of what was handed over to the term have.
pub(crate) fn new_log(
    alloc: Global,
    guest: Guest,
    quorum: Quorum,
    keeper: Keeper,
    term: Term,
    handed: &[HandedTo],
    numbers: &[usize],
) -> Result<MemoryFiles, EventFault>
    ensures new { IfOk result (IsNewLog guest quorum keeper term handed.now numbers.now) }
    ensures refused { IfErr result (IsNoNewLog guest quorum keeper term handed.now numbers.now) }
{
    let logs = other_logs(alloc, guest, quorum, keeper, term, handed, numbers)?;
    let files = filled(alloc, guest, &logs, term)?;
    Ok(files)
}
