//! What is said is taken.

ghost use Rattle.std.specs.Prelude.{◌≡◌, ◌≤◌, ◌↔◌, Some, false, IfOk, IsTrue, OnOk};
ghost use Rattle.requests.specs.declared.queue.Came.TheVariants.{Busy};
ghost use Rattle.leading.specs.declared.heard.Heard.TheVariants.{Came as CameOf};
ghost use Rattle.primary_turns.specs.Deeds.{Adds, AreAnswersRead, AreRead, noted};
ghost use Rattle.primary_turns.specs.Turns.{ComesAgain, HearsRequest, IsBusy, IsKnown, Takes, seen};
ghost use Rattle.primary_turns.specs.declared.said.Said.TheVariants as said;

use crate::attending::attend_all;
use crate::deeds::Deed;
use crate::flow::Flow;
use crate::pace::Pace;
use crate::read::Sent;
use crate::said::Said;
use crate::telling::{tell_heard, tell_released};
use crate::told::Told;
use attendance::Attendance;
use ft_types::{Hart, Memory, Term};
use leading::{Came, Heard, Leader};
use std::alloc::Global;
use std::result::Result;
use wire::{Acknowledgement, Request};

/// What a primary that leads knows beside its term.
#[derive(Drop)]
pub(crate) struct Notes {
    pub(crate) told: Told,
    pub(crate) flow: Flow,
    /// This steers, and so do those below.
    pub(crate) sent: Sent,
    pub(crate) attendance: Attendance,
    pub(crate) pace: Pace,
}

/// Notes that a client has read all answers that were told, where the last of all was this hart's.
fn note_answers_read(told: &Told, deeds: &mut Vec<Deed>, hart: Hart) -> Result<(), Memory>
    ensures { OnOk result (Adds deeds.old.items deeds.new.items AreAnswersRead) }
{
    if told.is_last(hart) {
        Ok(deeds.push(Deed::AnswersRead)?)
    } else {
        Ok(())
    }
}

/// Passes over a request for answers whose client has all that were told of the hart. Whether it is one.
fn pass_over(told: &Told, deeds: &mut Vec<Deed>, request: &Request) -> Result<bool, Memory>
    ensures known { IfOk result (λ known. IsTrue known → Adds deeds.old.items deeds.new.items (IsKnown told.now request.now)) }
    ensures other { IfOk result (λ known. known ≡ false → deeds.new.items ≡ deeds.old.items) }
{
    let Request::From { hart, number } = *request else {
        return Ok(false);
    };
    if !told.is_behind(hart, number) {
        return Ok(false);
    }
    note_answers_read(told, deeds, hart)?;
    Ok(true)
}

/// Whether a hart had no room for a request.
fn is_busy(heard: &Heard) -> bool
    ensures { IsTrue result ↔ (heard.now ≡ CameOf Busy) }
{
    matches!(heard, Heard::Came(Came::Busy))
}

/// Hears a request. Whether it need not come again: its hart had room for it.
fn hear(
    alloc: Global,
    leader: &mut Leader,
    notes: &mut Notes,
    deeds: &mut Vec<Deed>,
    request: &Request,
) -> Result<bool, Memory>
    ensures hears { IfOk result (λ taken. IsTrue taken → Adds deeds.old.items deeds.new.items (λ added.
        HearsRequest leader.old request.now leader.new added × (notes.new.told ≡ noted notes.old.told added))) }
    ensures ahead { notes.new.flow.ahead ≡ notes.old.flow.ahead }
    ensures busy { IfOk result (λ taken. taken ≡ false → IsBusy leader.old request.now) }
    ensures left { IfOk result (λ taken. taken ≡ false → (leader.new ≡ leader.old) × (notes.new.told ≡ notes.old.told) × (deeds.new.items ≡ deeds.old.items)) }
{
    let heard = leader.hear(alloc, request)?;
    tell_heard(&mut notes.told, deeds, request, &heard)?;
    notes.pace.note_heard(&heard, leader.waiting() > 0);
    Ok(!is_busy(&heard))
}

/// Takes what a client wants. Whether it need not come again.
fn take_request(
    alloc: Global,
    leader: &mut Leader,
    notes: &mut Notes,
    deeds: &mut Vec<Deed>,
    request: &Request,
) -> Result<bool, Memory>
    ensures takes { IfOk result (λ taken. IsTrue taken → Adds deeds.old.items deeds.new.items
        (Takes (seen leader.old notes.old.told notes.old.flow.ahead) (said.Request request.now) (seen leader.new notes.new.told notes.new.flow.ahead))) }
    ensures busy { IfOk result (λ taken. taken ≡ false → IsBusy leader.old request.now) }
    ensures left { IfOk result (λ taken. taken ≡ false → (leader.new ≡ leader.old) × (notes.new.told ≡ notes.old.told) × (deeds.new.items ≡ deeds.old.items)) }
    ensures ahead { notes.new.flow.ahead ≡ notes.old.flow.ahead }
{
    if pass_over(&notes.told, deeds, request)? {
        return Ok(true);
    }
    hear(alloc, leader, notes, deeds, request)
}

/// Notes that a keeper is heard, and what it has in the term.
fn note_heard(term: Term, attendance: &mut Attendance, acknowledgement: &Acknowledgement) {
    let keeper = acknowledgement.keeper;
    attendance.hear(keeper);
    if acknowledgement.term == term {
        attendance.acknowledge(keeper, &acknowledgement.counts);
    } else if acknowledgement.term > term {
        attendance.leave(keeper, acknowledgement.term);
    }
}

/// Notes that a keeper is heard, and what it has read, as far as its acknowledgement tells.
fn note_read(
    leader: &Leader,
    sent: &Sent,
    attendance: &mut Attendance,
    deeds: &mut Vec<Deed>,
    acknowledgement: &Acknowledgement,
) -> Result<(), Memory>
    ensures { OnOk result (Adds deeds.old.items deeds.new.items (AreRead acknowledgement.now.keeper)) }
{
    note_heard(leader.term(), attendance, acknowledgement);
    if acknowledgement.term != leader.term() {
        return Ok(());
    }
    match sent.read_by(acknowledgement) {
        Some(extent) => Ok(deeds.push(Deed::HasRead(acknowledgement.keeper, extent))?),
        None => Ok(()),
    }
}

/// Hears what a keeper has of what was sent in the term.
fn hear_ahead(term: Term, notes: &mut Notes, acknowledgement: &Acknowledgement)
    ensures ahead { notes.new.flow.ahead ≤ notes.old.flow.ahead }
    ensures told { notes.new.told ≡ notes.old.told }
{
    if acknowledgement.term == term {
        notes.flow.hear(acknowledgement, &notes.sent);
    }
}

/// Takes what a keeper has.
fn take_acknowledgement(
    alloc: Global,
    leader: &mut Leader,
    notes: &mut Notes,
    deeds: &mut Vec<Deed>,
    acknowledgement: &Acknowledgement,
) -> Result<(), Memory>
    ensures { OnOk result (Adds deeds.old.items deeds.new.items
        (Takes (seen leader.old notes.old.told notes.old.flow.ahead) (said.Acknowledgement acknowledgement.now) (seen leader.new notes.new.told notes.new.flow.ahead))) }
{
    let before = leader.released().len();
    leader.acknowledge(alloc, acknowledgement)?;
    hear_ahead(leader.term(), notes, acknowledgement);
    note_read(
        leader,
        &notes.sent,
        &mut notes.attendance,
        deeds,
        acknowledgement,
    )?;
    tell_released(
        &mut notes.told,
        deeds,
        leader.term(),
        &leader.released()[before..],
    )
}

/// Takes a tick: it is attended to what that finds of keepers.
fn take_tick(
    alloc: Global,
    leader: &Leader,
    notes: &mut Notes,
    deeds: &mut Vec<Deed>,
) -> Result<(), Memory>
    ensures { OnOk result (Adds deeds.old.items deeds.new.items
        (Takes (seen leader.now notes.old.told notes.old.flow.ahead) said.Tick (seen leader.now notes.new.told notes.new.flow.ahead))) }
{
    let waits = leader.waiting() > 0 || notes.flow.rests();
    let findings = notes.attendance.tick(alloc, notes.sent.last(), waits)?;
    attend_all(deeds, &findings)?;
    Ok(())
}

/// Takes what is said. Whether it need not come again.
pub(crate) fn take_one(
    alloc: Global,
    leader: &mut Leader,
    notes: &mut Notes,
    deeds: &mut Vec<Deed>,
    what: &Said,
) -> Result<bool, Memory>
    ensures takes { IfOk result (λ taken. IsTrue taken → Adds deeds.old.items deeds.new.items
        (Takes (seen leader.old notes.old.told notes.old.flow.ahead) what.now (seen leader.new notes.new.told notes.new.flow.ahead))) }
    ensures busy { IfOk result (λ taken. taken ≡ false → ComesAgain leader.old (Some what.now)) }
    ensures left { IfOk result (λ taken. taken ≡ false → (leader.new ≡ leader.old) × (notes.new.told ≡ notes.old.told)
        × (notes.new.flow.ahead ≡ notes.old.flow.ahead) × (deeds.new.items ≡ deeds.old.items)) }
{
    match what {
        Said::Request(request) => take_request(alloc, leader, notes, deeds, request),
        Said::Acknowledgement(acknowledgement) => {
            take_acknowledgement(alloc, leader, notes, deeds, acknowledgement)?;
            Ok(true)
        }
        Said::Again(keeper) => {
            notes.attendance.ask(*keeper);
            deeds.push(Deed::Anew(*keeper))?;
            Ok(true)
        }
        Said::Tick => {
            take_tick(alloc, leader, notes, deeds)?;
            Ok(true)
        }
    }
}
