//! The processes of a pair, led by a list of events.

ghost use Rattle.std.specs.Prelude.{◌≡◌, IfErr, IfOk, OnOk};
ghost use Rattle.process_world.specs.Worlds.{ProcessWorld};
ghost use Rattle.process_world.specs.Happenings.{Comes};
ghost use Rattle.process_world.specs.Promises.{KeepsPromises};
ghost use Rattle.live_world.specs.Happenings.{Happening, ClientHappens, KeeperHappens, PrimaryHappens};
ghost use Rattle.live_world.specs.Refusals.{Refuses, IsLeft, ClientLeaves, ClientRefuses, KeeperLeaves, KeeperRefuses, PrimaryLeaves, PrimaryRefuses};
ghost use Rattle.live_world.specs.Views.{GoesTo, IsWorldOf, first_world};

use crate::event::{ClientEvent, KeeperEvent, LiveEvent, PrimaryEvent};
use crate::fault::EventFault;
use crate::hand::HandedTo;
use crate::parts::LiveParts;
use crate::seat::Seat;
use crate::site::Site;
use asking::Talk;
use fragment_codec::Frame;
use ft_types::{Keeper, Memory, Quorum};
use guest_image::Image;
use leading::Leader;
use std::alloc::Global;
use std::marker::Model;
use std::option::Option;
use std::result::Result;
use wire::{Acknowledgement, Answer, Request};

/// Keepers, primaries of several terms at once, clients, and what was sent and is not lost: a world of processes, whatever happened to it.
#[derive(Drop)]
pub struct LiveWorld {
    parts: LiveParts,
}

impl Model for LiveWorld {
    ghost use Rattle.std.specs.Prelude.{ℕ};
    ghost use Rattle.process_world.specs.Worlds.{ProcessWorld};
    ghost use Rattle.process_world.specs.Happenings.{Comes};
    ghost use Rattle.live_world.specs.Views.{LiveView, IsWorldOf};

    ghost Value = { LiveView };

    ghost use Rattle.std.specs.Coded.{codes};
    ghost use Rattle.log_join.specs.Stores.{coded_store};

    ghost coded = { Prim.hlevel (codes, coded_store) };

    ghost view = { λ w. w.parts };

    ghost invariant = { λ w. (p : ProcessWorld) × Comes w.parts.image w.parts.quorum.keepers w.parts.quorum.need p × IsWorldOf w.parts p };
}

impl LiveParts {
    fn at_keeper(&mut self, alloc: Global, event: KeeperEvent) -> Result<(), EventFault>
        ensures happens { OnOk result (KeeperHappens self.old event self.new) }
        ensures refused { IfErr result (KeeperRefuses self.old event) }
        ensures left { IfErr result (λ f. KeeperLeaves self.old event f self.new) }
        ensures goes { GoesTo self.old self.new }
    {
        match event {
            KeeperEvent::Begin { keeper, plan } => self.begin(alloc, keeper, plan),
            KeeperEvent::Take {
                keeper,
                from,
                to,
                piece,
            } => self.take(alloc, keeper, from, to, piece),
            KeeperEvent::Log { keeper, plan } => self.log(alloc, keeper, plan),
            KeeperEvent::KeeperEnds(keeper) => self.end_keeper(keeper),
            KeeperEvent::Crash { keeper, left } => self.crash(keeper, left),
            KeeperEvent::Lose(keeper) => self.lose(keeper),
            KeeperEvent::Renew {
                keeper,
                term,
                handed,
            } => self.renew(alloc, keeper, term, handed),
            KeeperEvent::Hand { keeper, act } => self.hand(alloc, keeper, act),
        }
    }

    fn at_primary(&mut self, alloc: Global, event: PrimaryEvent) -> Result<(), EventFault>
        ensures happens { OnOk result (PrimaryHappens self.old event self.new) }
        ensures refused { IfErr result (PrimaryRefuses self.old event) }
        ensures left { IfErr result (λ f. PrimaryLeaves self.old event f self.new) }
        ensures goes { GoesTo self.old self.new }
    {
        match event {
            PrimaryEvent::GoLive { term, handed } => self.go_live(alloc, term, handed),
            PrimaryEvent::Request { primary, asked } => self.request(alloc, primary, asked),
            PrimaryEvent::Round {
                primary,
                steps,
                spacing,
            } => self.round(alloc, primary, steps, spacing),
            PrimaryEvent::Seal(primary) => self.seal(alloc, primary),
            PrimaryEvent::Hear { primary, said } => self.hear(alloc, primary, said),
            PrimaryEvent::Tell { primary, released } => self.tell(primary, released),
            PrimaryEvent::End(primary) => self.end(primary),
        }
    }

    fn at_client(&mut self, alloc: Global, event: ClientEvent) -> Result<(), EventFault>
        ensures happens { OnOk result (ClientHappens self.old event self.new) }
        ensures refused { IfErr result (ClientRefuses self.old event) }
        ensures left { IfErr result (λ f. ClientLeaves self.old event f self.new) }
    {
        match event {
            ClientEvent::Join { words, window } => self.join(alloc, words, window),
            ClientEvent::Want(request) => self.want(request),
            ClientEvent::Ask(client) => self.ask(client),
            ClientEvent::AskAgain(client) => self.ask_again(alloc, client),
            ClientEvent::Answer { client, told } => self.answer(client, told),
            ClientEvent::Print(client) => self.print(client),
        }
    }
}

impl LiveWorld {
    /// Keepers with nothing on disk, and nobody else.
    pub fn new(alloc: Global, image: &Image, quorum: Quorum) -> Result<LiveWorld, Memory>
        ensures { IfOk result (λ w. w ≡ first_world image.now quorum) }
    {
        let parts = LiveParts::new(alloc, image, quorum)?;
        Ok(LiveWorld { parts })
    }

    /// What happens next.
    pub fn apply(&mut self, alloc: Global, event: LiveEvent) -> Result<(), EventFault>
        ensures happens { OnOk result (Happening self.old event self.new) }
        ensures refused { IfErr result (Refuses self.old event) }
        ensures left { IfErr result (λ f. IsLeft self.old event f self.new) }
        ensures goes { GoesTo self.old self.new }
    {
        match event {
            LiveEvent::Keeper(event) => self.parts.at_keeper(alloc, event),
            LiveEvent::Primary(event) => self.parts.at_primary(alloc, event),
            LiveEvent::Client(event) => self.parts.at_client(alloc, event),
        }
    }

    /// Whatever happened, in whatever order: the processes are a world of processes, which keeps all that is promised.
    pub fn promises(&self)
        ensures { (p : ProcessWorld) × Comes self.now.image self.now.quorum.keepers self.now.quorum.need p × IsWorldOf self.now p × KeepsPromises p }
    {
        // proof: the world of processes is in what it keeps
        let _ = &self.parts;
    }

    /// All that keepers said.
    pub fn said(&self) -> &[Acknowledgement]
        ensures { result.now ≡ self.now.said }
    {
        self.parts.said.as_slice()
    }

    /// All that primaries told.
    pub fn told(&self) -> &[Answer]
        ensures { result.now ≡ self.now.told }
    {
        self.parts.told.as_slice()
    }

    /// What primaries sent to keepers.
    pub fn frames(&self) -> &[Frame]
        ensures { result.now ≡ self.now.frames }
    {
        self.parts.frames.as_slice()
    }

    /// The logs that were handed over.
    pub fn handed(&self) -> &[HandedTo]
        ensures { result.now ≡ self.now.handed }
    {
        self.parts.handed.as_slice()
    }

    /// All that anybody asked for.
    pub fn asked(&self) -> &[Request]
        ensures { result.now ≡ self.now.asked }
    {
        self.parts.asked.as_slice()
    }

    /// The clients, by the order in which they came.
    pub fn clients(&self) -> &[Talk]
        ensures { result.now ≡ self.now.clients }
    {
        self.parts.clients.as_slice()
    }

    /// The machine of a keeper, where it is there.
    pub fn site(&self, keeper: Keeper) -> Option<&Site> {
        if keeper.index() >= self.parts.sites.len() {
            return None;
        }
        self.parts.sites[keeper.index()].as_ref()
    }

    /// The primary of this number, where its process runs.
    pub fn leader(&self, number: usize) -> Option<&Leader> {
        if number >= self.parts.led.len() {
            return None;
        }
        match &self.parts.led[number] {
            Seat::Runs(leader) => Some(leader),
            Seat::Ended(_) => None,
        }
    }
}
