//! What a keeper holds.

ghost use Rattle.std.specs.Prelude.{◌≡◌, ◌≢◌, length, IfOk, IfSome, OnErr};
ghost use Rattle.closed_cut.specs.Position.{IsPosition};
ghost use Rattle.guest_image.specs.Image.{guest_of};
ghost use Rattle.log_join.specs.Answers.{answer_to};
ghost use Rattle.log_join.specs.Stores.{IsJoin, alone, nothing};

use closed_cut::Position;
use fragment_codec::Frame;
use ft_types::Memory;
use guest_image::Image;
use hart_replay::ReplayFault;
use log_join::{Put, Store};
use std::alloc::Global;
use std::marker::Model;
use std::option::Option;
use std::result::Result;
use tracked_position::Tracked;
use warm_backup::Backup;

/// A store with its position, or one with a machine that keeps up with it.
#[derive(Drop)]
pub(crate) enum Holding {
    Cold(Tracked),
    Warm(Backup),
}

/// A keeper's store with its position, and where the keeper is warm a machine that keeps up with it. Contracts see the store.
#[derive(Drop)]
pub struct Held {
    holding: Holding,
}

impl Model for Held {
    ghost use Rattle.log_join.specs.Stores.{StoreView, coded_store};
    ghost use Rattle.pair.specs.Holding.{store_in};

    ghost Value = { StoreView };

    ghost coded = { coded_store };

    ghost view = { λ h. store_in h.holding };
}

impl Held {
    /// What a keeper of the image's guest holds to which nothing came.
    pub(crate) fn new(alloc: Global, image: &Image, is_warm: bool) -> Result<Held, Memory>
        ensures { IfOk result (λ held. held ≡ nothing (guest_of image.now)) }
    {
        let holding = if is_warm {
            Holding::Warm(Backup::new(alloc, image)?)
        } else {
            Holding::Cold(Tracked::new(alloc, image.guest()))
        };
        Ok(Held { holding })
    }

    /// The store.
    pub fn store(&self) -> &Store
        ensures { result.now ≡ self.now }
    {
        match &self.holding {
            Holding::Cold(tracked) => tracked.store(),
            Holding::Warm(backup) => backup.store(),
        }
    }

    /// The store's position.
    pub(crate) fn position(&self) -> &Position
        ensures position { IsPosition self.now result.now }
        ensures harts { length result.now.counts ≡ self.now.guest.harts }
    {
        match &self.holding {
            Holding::Cold(tracked) => tracked.position(),
            Holding::Warm(backup) => backup.reached(),
        }
    }

    /// Takes a frame.
    pub(crate) fn put(&mut self, alloc: Global, frame: Frame) -> Result<Put, Memory>
        ensures answer { IfOk result (λ p. p ≡ answer_to self.old frame) }
        ensures joined { IfOk result (λ p. p ≢ Put.OtherGuest → IsJoin self.old (alone frame) self.new) }
        ensures other_guest { result ≡ Ok Put.OtherGuest → self.new ≡ self.old }
        ensures err { OnErr result (self.new ≡ self.old) }
    {
        match &mut self.holding {
            Holding::Cold(tracked) => tracked.put(alloc, frame),
            Holding::Warm(backup) => backup.put(alloc, frame),
        }
    }

    /// Where it is warm, and no more frames wait, its machine goes to the store's position. One that the store leads nowhere stands where it stood.
    pub(crate) fn keep_up(&mut self, alloc: Global, waiting: usize) -> Result<(), Memory>
        ensures { self.new ≡ self.old }
    {
        match &mut self.holding {
            Holding::Warm(backup) if waiting == 0 => match backup.advance(alloc) {
                Err(ReplayFault::Memory) => Err(Memory),
                _ => Ok(()),
            },
            _ => Ok(()),
        }
    }

    /// The backup, where the keeper is warm.
    pub(crate) fn into_backup(self) -> Option<Backup>
        ensures { IfSome result (λ backup. backup.store ≡ self) }
    {
        match self.holding {
            Holding::Warm(backup) => Some(backup),
            Holding::Cold(_) => None,
        }
    }
}
