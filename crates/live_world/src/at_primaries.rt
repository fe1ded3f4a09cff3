//! What happens to primaries of several terms at once.

ghost use Rattle.std.specs.Prelude.{◌≡◌, IfErr, OnOk};
ghost use Rattle.live_world.specs.declared.event.PrimaryEvent.TheVariants as on;
ghost use Rattle.live_world.specs.Happenings.{PrimaryHappens};
ghost use Rattle.live_world.specs.Refusals.{PrimaryRefuses, PrimaryLeaves};
ghost use Rattle.live_world.specs.Views.{GoesTo};

use crate::fault::EventFault;
use crate::leaders;
use crate::parts::LiveParts;
use crate::room::{add_all, make_room};
use crate::seat::{Seat, is_granted, put_leader, take_leader};
use ft_types::{Count, Memory, Term};
use leading::{Heard, Spacing};
use std::alloc::Global;
use std::option::Option;
use std::result::Result;
use wire::{Answer, Request};

impl LiveParts {
    /// A primary goes live in a term that was not granted before, and sends its opening.
    pub(crate) fn go_live(
        &mut self,
        alloc: Global,
        term: Term,
        numbers: Vec<usize>,
    ) -> Result<(), EventFault>
        ensures happens { OnOk result (PrimaryHappens self.old (on.GoLive term numbers) self.new) }
        ensures refused { IfErr result (PrimaryRefuses self.old (on.GoLive term numbers)) }
        ensures left { IfErr result (λ f. PrimaryLeaves self.old (on.GoLive term numbers) f self.new) }
        ensures goes { GoesTo self.old self.new }
    {
        if is_granted(&self.led, term) {
            return Err(EventFault::Granted);
        }
        make_room(&mut self.led)?;
        make_room(&mut self.frames)?;
        let (leader, opening) = leaders::go_live(
            alloc,
            &self.image,
            self.quorum,
            term,
            &self.handed,
            &numbers,
        )?;
        self.frames.push_reserved(opening);
        self.led.push_reserved(Seat::Runs(leader));
        Ok(())
    }

    /// What was asked for comes to a primary; what is told of it at once is told.
    pub(crate) fn request(
        &mut self,
        alloc: Global,
        primary: usize,
        asked: usize,
    ) -> Result<(), EventFault>
        ensures happens { OnOk result (PrimaryHappens self.old (on.Request primary asked) self.new) }
        ensures refused { IfErr result (PrimaryRefuses self.old (on.Request primary asked)) }
        ensures left { IfErr result (λ f. PrimaryLeaves self.old (on.Request primary asked) f self.new) }
        ensures goes { GoesTo self.old self.new }
    {
        if asked >= self.asked.len() {
            return Err(EventFault::NoneAsked);
        }
        let request = self.asked[asked];
        let Some(mut leader) = take_leader(&mut self.led, primary) else {
            return Err(EventFault::NoPrimary);
        };
        let heard = leader.hear(alloc, &request);
        put_leader(&mut self.led, primary, leader);
        match heard? {
            Heard::Told(answers) => Ok(add_all(&mut self.told, answers)?),
            _ => Ok(()),
        }
    }

    /// A primary's round. Want of memory ends it.
    pub(crate) fn round(
        &mut self,
        alloc: Global,
        primary: usize,
        steps: Count,
        spacing: Spacing,
    ) -> Result<(), EventFault>
        ensures happens { OnOk result (PrimaryHappens self.old (on.Round primary steps spacing) self.new) }
        ensures refused { IfErr result (PrimaryRefuses self.old (on.Round primary steps spacing)) }
        ensures left { IfErr result (λ f. PrimaryLeaves self.old (on.Round primary steps spacing) f self.new) }
        ensures goes { GoesTo self.old self.new }
    {
        let Some(leader) = take_leader(&mut self.led, primary) else {
            return Err(EventFault::NoPrimary);
        };
        let leader = leader.round(alloc, steps, spacing)?;
        put_leader(&mut self.led, primary, leader);
        Ok(())
    }

    /// A primary cuts what is new of its log, and sends that.
    pub(crate) fn seal(&mut self, alloc: Global, primary: usize) -> Result<(), EventFault>
        ensures happens { OnOk result (PrimaryHappens self.old (on.Seal primary) self.new) }
        ensures refused { IfErr result (PrimaryRefuses self.old (on.Seal primary)) }
        ensures left { IfErr result (λ f. PrimaryLeaves self.old (on.Seal primary) f self.new) }
        ensures goes { GoesTo self.old self.new }
    {
        let Some(mut leader) = take_leader(&mut self.led, primary) else {
            return Err(EventFault::NoPrimary);
        };
        let sealed = leader.seal(alloc);
        put_leader(&mut self.led, primary, leader);
        Ok(add_all(&mut self.frames, sealed?)?)
    }

    /// What a keeper said comes to a primary.
    pub(crate) fn hear(
        &mut self,
        alloc: Global,
        primary: usize,
        said: usize,
    ) -> Result<(), EventFault>
        ensures happens { OnOk result (PrimaryHappens self.old (on.Hear primary said) self.new) }
        ensures refused { IfErr result (PrimaryRefuses self.old (on.Hear primary said)) }
        ensures left { IfErr result (λ f. PrimaryLeaves self.old (on.Hear primary said) f self.new) }
        ensures goes { GoesTo self.old self.new }
    {
        if said >= self.said.len() {
            return Err(EventFault::NoneSaid);
        }
        let acknowledgement = self.said[said];
        let Some(mut leader) = take_leader(&mut self.led, primary) else {
            return Err(EventFault::NoPrimary);
        };
        let heard = leader.acknowledge(alloc, &acknowledgement);
        put_leader(&mut self.led, primary, leader);
        Ok(heard?)
    }

    /// A primary tells an output that went out.
    pub(crate) fn tell(&mut self, primary: usize, released: usize) -> Result<(), EventFault>
        ensures happens { OnOk result (PrimaryHappens self.old (on.Tell primary released) self.new) }
        ensures refused { IfErr result (PrimaryRefuses self.old (on.Tell primary released)) }
        ensures left { IfErr result (λ f. PrimaryLeaves self.old (on.Tell primary released) f self.new) }
        ensures goes { GoesTo self.old self.new }
    {
        make_room(&mut self.told)?;
        if primary >= self.led.len() {
            return Err(EventFault::NoPrimary);
        }
        let Seat::Runs(leader) = &self.led[primary] else {
            return Err(EventFault::NoPrimary);
        };
        let out = leader.released();
        if released >= out.len() {
            return Err(EventFault::NoneOut);
        }
        let answer = Answer {
            term: leader.term(),
            output: out[released].output,
        };
        self.told.push_reserved(answer);
        Ok(())
    }

    /// A primary's process ends.
    pub(crate) fn end(&mut self, primary: usize) -> Result<(), EventFault>
        ensures happens { OnOk result (PrimaryHappens self.old (on.End primary) self.new) }
        ensures refused { IfErr result (PrimaryRefuses self.old (on.End primary)) }
        ensures left { IfErr result (λ f. PrimaryLeaves self.old (on.End primary) f self.new) }
        ensures goes { GoesTo self.old self.new }
    {
        match take_leader(&mut self.led, primary) {
            Some(_) => Ok(()),
            None => Err(EventFault::NoPrimary),
        }
    }
}
