//! A client that decides.

ghost use Rattle.std.specs.Prelude.{◌≡◌, ◌++◌, List, None, length, replicate, IfOk};
ghost use Rattle.client_turns.specs.Turns.{Takes, Turns, end_of};
ghost use Rattle.client_turns.specs.declared.deeds.ClientDeed.{ClientDeed as deed_of_specs};

use crate::deeds::{ClientCame, ClientDeed, ClientEnd};
use crate::talking::{add, ask_again, go_on, take_lines};
use asking::Talk;
use ft_types::Memory;
use std::alloc::Global;
use std::marker::Model;
use std::option::Option;
use std::result::Result;

/// A client. Contracts see its talk, and how many of its inputs are not at their end.
#[derive(Drop)]
pub struct Client {
    talk: Talk,
    inputs: usize,
}

impl Model for Client {
    ghost use Rattle.client_turns.specs.Turns.{ClientView};

    ghost Value = { ClientView };

    ghost view = { λ c. record { talk = c.talk; inputs = c.inputs } };
}

impl Client {
    /// A client with these words for hart 0, of which so many may be open, and so many inputs.
    pub fn new(
        alloc: Global,
        words: Vec<u32>,
        window: usize,
        inputs: usize,
    ) -> Result<Client, Memory>
        ensures { IfOk result (λ c. c ≡ record {
          talk = record {
            asker = record {
              hart = 0;
              words = words.items;
              answers = replicate (length words.items) None;
              sent = 0;
              window = window;
            };
            told = 0;
          };
          inputs = inputs;
        }) }
    {
        Ok(Client {
            talk: Talk::new(alloc, words, window)?,
            inputs,
        })
    }

    /// Takes what came. Why that ends the client, where it does.
    fn take(
        &mut self,
        alloc: Global,
        came: ClientCame,
        deeds: &mut Vec<ClientDeed>,
    ) -> Result<Option<ClientEnd>, Memory>
        ensures { IfOk result (λ end. (done : List deed_of_specs) × Takes came self.old self.new done end × (deeds.new.items ≡ deeds.old.items ++ done)) }
    {
        match came {
            ClientCame::Begin => go_on(&mut self.talk, deeds)?,
            ClientCame::Lines(lines) => return take_lines(&mut self.talk, &lines, deeds),
            ClientCame::Ended => self.inputs = self.inputs.saturating_sub(1),
            ClientCame::Late => ask_again(alloc, &self.talk, deeds)?,
        }
        Ok(None)
    }

    /// Why it ends as it stands, where it does.
    fn end(&self) -> Option<ClientEnd>
        ensures { result ≡ end_of self.now }
    {
        if self.talk.is_done() {
            Some(ClientEnd::Done)
        } else if self.inputs == 0 {
            Some(ClientEnd::Unanswered(self.talk.told()))
        } else {
            None
        }
    }

    /// Takes what came: what is to be done then, in its order. Nothing is behind its end.
    pub fn turn(&mut self, alloc: Global, came: ClientCame) -> Result<Vec<ClientDeed>, Memory>
        ensures turns { IfOk result (λ deeds. Turns came self.old self.new deeds.items) }
    {
        let mut deeds = Vec::new(alloc);
        let ended = self.take(alloc, came, &mut deeds)?;
        if let Some(end) = ended.or(self.end()) {
            add(&mut deeds, ClientDeed::End(end))?;
        }
        Ok(deeds)
    }
}
