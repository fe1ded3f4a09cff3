//! A client's talk is led on: what it gives is to be done.

ghost use Rattle.std.specs.Prelude.{◌≡◌, ◌++◌, ◌∷◌, [], List, true, false, None, Some, map, IfOk, OnOk};
ghost use Rattle.ft_types.specs.declared.names.TheConstants.{HART_LIMIT};
ghost use Rattle.requests.specs.Asking.{asked_again, next_of};
ghost use Rattle.wire.specs.Requests.{SaysFull};
ghost use Rattle.asking.specs.Talks.{TalkView};
ghost use Rattle.client_turns.specs.Turns.{Asks, GoesOn, Hears, TakesLine, TakesLines, Tells, anew, has_read, has_told_all};
ghost use Rattle.client_turns.specs.declared.deeds.ClientDeed.{ClientDeed as deed_of_specs};
ghost use Rattle.client_turns.specs.declared.deeds.ClientDeed.TheVariants.{Ask, BePatient as IsPatient};

use crate::deeds::{ClientDeed, ClientEnd};
use asking::{Heard, Talk};
use ft_types::{HART_LIMIT, Hart, Memory};
use std::alloc::Global;
use std::option::Option;
use std::result::Result;
use wire::{LineText, Request, read_full};

/// Adds a deed.
pub(crate) fn add<D: Copy>(deeds: &mut Vec<D>, deed: D) -> Result<(), Memory>
    ensures { OnOk result (deeds.new.items ≡ deeds.old.items ++ deed ∷ []) }
{
    deeds.reserve(1)?;
    deeds.push_reserved(deed);
    Ok(())
}

/// Prints the answers that are there.
fn tell_all(talk: &mut Talk, deeds: &mut Vec<ClientDeed>) -> Result<(), Memory>
    ensures { OnOk result ((done : List deed_of_specs) × Tells talk.old talk.new done × (deeds.new.items ≡ deeds.old.items ++ done)) }
{
    while let Some(told) = talk.tell() {
        add(deeds, ClientDeed::Print(told))?;
    }
    Ok(())
}

/// Whether this request is for a word while no other is open, and all answers so far were told: that is said then.
fn is_read(told: usize, request: &Request) -> bool
    ensures { (t : TalkView) → t.told ≡ told → next_of t.asker ≡ Some request.now → result ≡ has_told_all t }
{
    match request {
        Request::Word {
            number: Some(number),
            ..
        } => told > 0 && *number == told as u64,
        _ => false,
    }
}

/// Asks for a word. Where no other is open, it says before that all answers so far were read: the next one need not wait for a thread of the primary's then.
fn ask(told: usize, request: Request, deeds: &mut Vec<ClientDeed>) -> Result<(), Memory>
    ensures { (t : TalkView) → t.told ≡ told → next_of t.asker ≡ Some request → OnOk result (deeds.new.items ≡ deeds.old.items ++ (has_read t ++ Ask request ∷ [])) }
{
    if is_read(told, &request) {
        let hart = request.hart();
        let number = told as u64;
        add(deeds, ClientDeed::Ask(Request::From { hart, number }))?;
    }
    add(deeds, ClientDeed::Ask(request))
}

/// Asks for as many words as may be open.
fn ask_all(talk: &mut Talk, deeds: &mut Vec<ClientDeed>) -> Result<(), Memory>
    ensures { OnOk result ((done : List deed_of_specs) × Asks talk.old talk.new done × (deeds.new.items ≡ deeds.old.items ++ done)) }
{
    while let Some(request) = talk.ask() {
        ask(talk.told(), request, deeds)?;
    }
    Ok(())
}

/// Prints the answers that are there, and then asks for as many words as may be open.
pub(crate) fn go_on(talk: &mut Talk, deeds: &mut Vec<ClientDeed>) -> Result<(), Memory>
    ensures { OnOk result ((done : List deed_of_specs) × GoesOn talk.old talk.new done × (deeds.new.items ≡ deeds.old.items ++ done)) }
{
    tell_all(talk, deeds)?;
    ask_all(talk, deeds)
}

/// Whether a line's text says that hart 0 is given no more words.
fn is_full(text: &[u8]) -> bool
    ensures full { result ≡ true → SaysFull HART_LIMIT text.now 0 }
    ensures other { result ≡ false → SaysFull HART_LIMIT text.now 0 → ⊥ }
{
    match read_full(HART_LIMIT, text) {
        Some(hart) => hart == Hart::new(0),
        None => false,
    }
}

/// Hears a line's text, and is patient again where that is a new answer.
fn hear(talk: &mut Talk, text: &[u8], deeds: &mut Vec<ClientDeed>) -> Result<Heard, Memory>
    ensures hears { IfOk result (λ what. Hears talk.old text.now what talk.new) }
    ensures anew { IfOk result (λ what. deeds.new.items ≡ deeds.old.items ++ anew what) }
{
    let what = talk.hear(text);
    if let Heard::New = what {
        add(deeds, ClientDeed::BePatient)?;
    }
    Ok(what)
}

/// Takes a line's text, and goes on behind it. Why it ends the client, where it does.
fn take_line(
    talk: &mut Talk,
    text: &[u8],
    deeds: &mut Vec<ClientDeed>,
) -> Result<Option<ClientEnd>, Memory>
    ensures { IfOk result (λ end. (done : List deed_of_specs) × TakesLine text.now talk.old talk.new done end × (deeds.new.items ≡ deeds.old.items ++ done)) }
{
    if is_full(text) {
        return Ok(Some(ClientEnd::Full));
    }
    let what = hear(talk, text, deeds)?;
    if let Heard::Contradiction = what {
        return Ok(Some(ClientEnd::Contradiction));
    }
    go_on(talk, deeds)?;
    Ok(None)
}

/// Takes lines, one behind the other, up to one that ends the client.
pub(crate) fn take_lines(
    talk: &mut Talk,
    lines: &[LineText],
    deeds: &mut Vec<ClientDeed>,
) -> Result<Option<ClientEnd>, Memory>
    ensures { IfOk result (λ end. (done : List deed_of_specs) × TakesLines lines.now talk.old talk.new done end × (deeds.new.items ≡ deeds.old.items ++ done)) }
{
    for line in lines {
        if let Some(end) = take_line(talk, line.as_slice(), deeds)? {
            return Ok(Some(end));
        }
    }
    Ok(None)
}

/// Asks once more for all that lacks, and is patient again.
pub(crate) fn ask_again(
    alloc: Global,
    talk: &Talk,
    deeds: &mut Vec<ClientDeed>,
) -> Result<(), Memory>
    ensures { OnOk result (deeds.new.items ≡ deeds.old.items ++ (map Ask (asked_again talk.now.asker) ++ IsPatient ∷ [])) }
{
    for request in &talk.ask_again(alloc)? {
        add(deeds, ClientDeed::Ask(*request))?;
    }
    add(deeds, ClientDeed::BePatient)
}
