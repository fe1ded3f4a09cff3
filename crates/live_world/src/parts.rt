//! The processes of a pair, and what was sent and is not lost.

ghost use Rattle.std.specs.Prelude.{◌≡◌, [], replicate, Some, IfOk};
ghost use Rattle.live_world.specs.Sites.{empty_site};

use crate::hand::HandedTo;
use crate::seat::Seat;
use crate::site::{Site, empty_sites};
use asking::Talk;
use fragment_codec::Frame;
use ft_types::{Memory, Quorum};
use guest_image::Image;
use std::alloc::Global;
use std::marker::Model;
use std::result::Result;
use wire::{Acknowledgement, Answer, Request};

/// Keepers, primaries of several terms at once, clients, and all that was sent, said, handed over, told and asked for and is not lost.
#[derive(Drop)]
pub(crate) struct LiveParts {
    pub(crate) image: Image,
    pub(crate) quorum: Quorum,
    pub(crate) sites: Vec<Option<Site>>,
    pub(crate) frames: Vec<Frame>,
    pub(crate) said: Vec<Acknowledgement>,
    pub(crate) handed: Vec<HandedTo>,
    pub(crate) led: Vec<Seat>,
    pub(crate) told: Vec<Answer>,
    pub(crate) asked: Vec<Request>,
    pub(crate) clients: Vec<Talk>,
}

impl Model for LiveParts {
    ghost use Rattle.live_world.specs.Views.{LiveView};

    ghost Value = { LiveView };

    ghost use Rattle.std.specs.Coded.{codes};
    ghost use Rattle.log_join.specs.Stores.{coded_store};

    ghost coded = { Prim.hlevel (codes, coded_store) };

    ghost view = { λ w. record {
      image = w.image;
      quorum = w.quorum;
      sites = w.sites.items;
      frames = w.frames.items;
      said = w.said.items;
      handed = w.handed.items;
      led = w.led.items;
      told = w.told.items;
      asked = w.asked.items;
      clients = w.clients.items;
    } };
}

impl LiveParts {
    /// Keepers with nothing on disk, and nobody else.
    pub(crate) fn new(alloc: Global, image: &Image, quorum: Quorum) -> Result<LiveParts, Memory>
        ensures { IfOk result (λ w. w ≡ record {
          image = image.now;
          quorum = quorum;
          sites = replicate quorum.keepers (Some empty_site);
          frames = [];
          said = [];
          handed = [];
          led = [];
          told = [];
          asked = [];
          clients = [];
        }) }
    {
        Ok(LiveParts {
            image: image.copy()?,
            quorum,
            sites: empty_sites(alloc, quorum.keepers())?,
            frames: Vec::new(alloc),
            said: Vec::new(alloc),
            handed: Vec::new(alloc),
            led: Vec::new(alloc),
            told: Vec::new(alloc),
            asked: Vec::new(alloc),
            clients: Vec::new(alloc),
        })
    }
}
