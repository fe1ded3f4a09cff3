//! What happens to clients, and what anybody asks for.

ghost use Rattle.std.specs.Prelude.{◌≡◌, ◌<◌, ◌^◌, ◌-◌, length, take, IfErr, OnOk};
ghost use Rattle.ft_types.specs.Text.{line};
ghost use Rattle.ft_types.specs.declared.names.TheConstants.{HART_LIMIT};
ghost use Rattle.wire.specs.Answers.{answer_text};
ghost use Rattle.live_world.specs.declared.event.ClientEvent.TheVariants as on;
ghost use Rattle.live_world.specs.Happenings.{ClientHappens};
ghost use Rattle.live_world.specs.Refusals.{ClientRefuses, ClientLeaves};

use crate::fault::EventFault;
use crate::parts::LiveParts;
use crate::room::{add_all, make_room};
use asking::Talk;
use ft_types::{Count, Term};
use std::alloc::Global;
use std::result::Result;
use wire::{Answer, Line, Request, answer_line};

// proof: each number fits its type
fn are_kept(_term: Term, _number: u64, _step: Count, _word: u32)
    ensures term { _term < 2 ^ 32 }
    ensures number { _number < 2 ^ 64 }
    ensures step { _step < 2 ^ 64 }
    ensures word_is { _word < 2 ^ 32 }
{}

/// The line of an answer that was told.
fn line_of(answer: &Answer) -> Line
    ensures text { result ≡ line (answer_text answer.now) }
    ensures term { answer.now.term < 2 ^ 32 }
    ensures hart { answer.now.output.hart < HART_LIMIT }
    ensures number { answer.now.output.number < 2 ^ 64 }
    ensures step { answer.now.output.step < 2 ^ 64 }
    ensures word_is { answer.now.output.word < 2 ^ 32 }
{
    let output = &answer.output;
    let _hart = output.hart.number();
    are_kept(answer.term, output.number, output.step, output.word);
    answer_line(answer)
}

/// The bytes but the last.
fn text_of(bytes: &[u8]) -> &[u8]
    ensures { result.now ≡ take (length bytes.now - 1) bytes.now }
{
    &bytes[..bytes.len().saturating_sub(1)]
}

impl LiveParts {
    /// A client comes, that has heard nothing.
    pub(crate) fn join(
        &mut self,
        alloc: Global,
        words: Vec<u32>,
        window: usize,
    ) -> Result<(), EventFault>
        ensures happens { OnOk result (ClientHappens self.old (on.Join words window) self.new) }
        ensures refused { IfErr result (ClientRefuses self.old (on.Join words window)) }
        ensures left { IfErr result (λ f. ClientLeaves self.old (on.Join words window) f self.new) }
    {
        make_room(&mut self.clients)?;
        let client = Talk::new(alloc, words, window)?;
        self.clients.push_reserved(client);
        Ok(())
    }

    /// Whoever there is asks for something by hand.
    pub(crate) fn want(&mut self, request: Request) -> Result<(), EventFault>
        ensures happens { OnOk result (ClientHappens self.old (on.Want request) self.new) }
        ensures refused { IfErr result (ClientRefuses self.old (on.Want request)) }
        ensures left { IfErr result (λ f. ClientLeaves self.old (on.Want request) f self.new) }
    {
        make_room(&mut self.asked)?;
        self.asked.push_reserved(request);
        Ok(())
    }

    /// A client asks for its next word, where it asks for one.
    pub(crate) fn ask(&mut self, client: usize) -> Result<(), EventFault>
        ensures happens { OnOk result (ClientHappens self.old (on.Ask client) self.new) }
        ensures refused { IfErr result (ClientRefuses self.old (on.Ask client)) }
        ensures left { IfErr result (λ f. ClientLeaves self.old (on.Ask client) f self.new) }
    {
        make_room(&mut self.asked)?;
        if client >= self.clients.len() {
            return Err(EventFault::NoClient);
        }
        if let Some(request) = self.clients[client].ask() {
            self.asked.push_reserved(request);
        }
        Ok(())
    }

    /// A client asks once more.
    pub(crate) fn ask_again(&mut self, alloc: Global, client: usize) -> Result<(), EventFault>
        ensures happens { OnOk result (ClientHappens self.old (on.AskAgain client) self.new) }
        ensures refused { IfErr result (ClientRefuses self.old (on.AskAgain client)) }
        ensures left { IfErr result (λ f. ClientLeaves self.old (on.AskAgain client) f self.new) }
    {
        if client >= self.clients.len() {
            return Err(EventFault::NoClient);
        }
        let requests = self.clients[client].ask_again(alloc)?;
        Ok(add_all(&mut self.asked, requests)?)
    }

    /// The text of the line of an answer comes to a client.
    pub(crate) fn answer(&mut self, client: usize, told: usize) -> Result<(), EventFault>
        ensures happens { OnOk result (ClientHappens self.old (on.Answer client told) self.new) }
        ensures refused { IfErr result (ClientRefuses self.old (on.Answer client told)) }
        ensures left { IfErr result (λ f. ClientLeaves self.old (on.Answer client told) f self.new) }
    {
        if told >= self.told.len() {
            return Err(EventFault::NoneTold);
        }
        if client >= self.clients.len() {
            return Err(EventFault::NoClient);
        }
        let line = line_of(&self.told[told]);
        let bytes = line.as_slice();
        let text = text_of(bytes);
        let _heard = self.clients[client].hear(text);
        Ok(())
    }

    /// A client tells its next answer, where it is there.
    pub(crate) fn print(&mut self, client: usize) -> Result<(), EventFault>
        ensures happens { OnOk result (ClientHappens self.old (on.Print client) self.new) }
        ensures refused { IfErr result (ClientRefuses self.old (on.Print client)) }
        ensures left { IfErr result (λ f. ClientLeaves self.old (on.Print client) f self.new) }
    {
        if client >= self.clients.len() {
            return Err(EventFault::NoClient);
        }
        let _told = self.clients[client].tell();
        Ok(())
    }
}
