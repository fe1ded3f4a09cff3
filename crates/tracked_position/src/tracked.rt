//! A store with its position.

ghost use Rattle.std.specs.Prelude.{◌≡◌, ◌≢◌, ◌≤◌, ◌↔◌, length, Ok, Err, IfOk, OnOk, OnErr};
ghost use Rattle.fragment_codec.specs.declared.frame.Frame.{Frame as frame_of_specs};
ghost use Rattle.log_join.specs.Stores.{IsJoin, nothing, alone};
ghost use Rattle.log_join.specs.Answers.{answer_to};
ghost use Rattle.closed_cut.specs.Position.{IsPosition};
ghost use Rattle.tracked_position.specs.machinery.Keeping.{Takes, IsOneAt, MayGrow};

use crate::answering::{is_beyond, is_clash_at};
use crate::beyond::Beyond;
use crate::starting::{start, unseen};
use crate::taking::{take_elsewhere, take_here};
use crate::walk::Cursor;
use closed_cut::{Position, opening_of, position};
use fragment_codec::{Fragment, Frame, Opening};
use ft_types::{Counts, Guest, HART_ROW, Memory, is_same_guest};
use log_join::{Put, Store, StoreFault};
use std::alloc::Global;
use std::marker::Model;
use std::option::Option;
use std::result::Result;

/// A store with its position, which is kept up as frames come. Contracts see the store.
pub struct Tracked {
    store: Store,
    position: Position,
    cursors: [Cursor; HART_ROW],
    beyond: Beyond,
}

impl Drop for Tracked {
    fn drop(self) {
        let Tracked {
            store: _,
            position: _,
            cursors: _,
            beyond: _,
        } = self;
    }
}

impl Model for Tracked {
    ghost use Rattle.log_join.specs.Stores.{StoreView, coded_store};

    ghost Value = { StoreView };

    ghost coded = { coded_store };

    ghost use Rattle.tracked_position.specs.machinery.Keeping.{AreBeyond, IsTracked};

    ghost view = { λ t. t.store };

    ghost invariant = { λ t. IsTracked t.store t.position t.cursors × AreBeyond t.store t.beyond };
}

impl Tracked {
    /// A store of a guest to which nothing came, and its position.
    pub fn new(alloc: Global, guest: Guest) -> Tracked
        ensures { result ≡ nothing guest }
    {
        Tracked {
            store: Store::new(alloc, guest),
            position: Position {
                term: 0,
                counts: Counts::zero(guest.harts()),
                top: 0,
            },
            cursors: unseen(),
            beyond: Beyond::unknown(),
        }
    }

    /// The store.
    pub fn store(&self) -> &Store
        ensures { result.now ≡ self.now }
    {
        &self.store
    }

    /// The store's position.
    pub fn position(&self) -> &Position
        ensures position { IsPosition self.now result.now }
        ensures harts { length result.now.counts ≡ self.now.guest.harts }
    {
        &self.position
    }

    /// That store, with its position found anew.
    fn found(alloc: Global, store: Store) -> Result<Tracked, Memory>
        ensures { IfOk result (λ tracked. tracked ≡ store) }
    {
        let position = position(alloc, &store)?;
        let cursors = start(&store, position.term);
        Ok(Tracked {
            store,
            position,
            cursors,
            beyond: Beyond::unknown(),
        })
    }

    /// Takes that store in place of this one, with its position found anew.
    fn replace(&mut self, alloc: Global, store: Store) -> Result<(), Memory>
        ensures ok { OnOk result (self.new ≡ store) }
        ensures err { OnErr result (self.new ≡ self.old) }
    {
        *self = Tracked::found(alloc, store)?;
        Ok(())
    }

    /// Takes a frame into a copy, whose position is found anew.
    #[inline(never)]
    fn put_anew(&mut self, alloc: Global, frame: Frame) -> Result<Put, Memory>
        ensures { Takes self.old frame result self.new }
    {
        let mut store = self.store.copy(alloc)?;
        let put = store.put(frame)?;
        self.replace(alloc, store)?;
        Ok(put)
    }

    /// Takes a piece of a term that is not opened. Not inlined, since a function clears its locals when it begins, and a frame is large.
    #[inline(never)]
    fn put_unopened(&mut self, alloc: Global, fragment: Fragment) -> Result<Put, Memory>
        ensures { Takes self.old (frame_of_specs.Log fragment) result self.new }
    {
        self.put_anew(alloc, Frame::Log(fragment))
    }

    /// Takes a piece at a key at which nothing was.
    fn put_new(&mut self, alloc: Global, fragment: Fragment) -> Result<Put, Memory>
        requires { answer_to self.old (frame_of_specs.Log fragment) ≡ Put.New }
        ensures { Takes self.old (frame_of_specs.Log fragment) result self.new }
    {
        let term = fragment.key().term;
        if term != self.position.term {
            return take_elsewhere(
                &mut self.store,
                &self.position,
                &self.cursors,
                &mut self.beyond,
                fragment,
            );
        }
        match opening_of(&self.store, term) {
            Some(opening) => {
                let opening = opening.copy();
                take_here(
                    &mut self.store,
                    &mut self.position,
                    &mut self.cursors,
                    &mut self.beyond,
                    &opening,
                    fragment,
                )
            }
            None => self.put_unopened(alloc, fragment),
        }
    }

    /// Takes a frame that clashes. Where what came at its key does so already, nothing changes.
    #[inline(never)]
    fn put_clashing(&mut self, alloc: Global, frame: Frame) -> Result<Put, Memory>
        requires { answer_to self.old frame ≡ Put.Clash }
        ensures takes { Takes self.old frame result self.new }
        ensures memory { OnErr result (IsOneAt self.old frame) }
    {
        if is_clash_at(&self.store, &frame) {
            return self.store.put(frame);
        }
        self.put_anew(alloc, frame)
    }

    /// Takes an opening of a term at which nothing was. Where none came of it or of a later one, it is known that nothing came in it.
    #[inline(never)]
    fn put_opening(&mut self, alloc: Global, opening: Opening) -> Result<Put, Memory>
        requires { answer_to self.old (frame_of_specs.Opening opening) ≡ Put.New }
        ensures { Takes self.old (frame_of_specs.Opening opening) result self.new }
    {
        let term = opening.term();
        let last = self.store.last_term();
        let put = self.put_anew(alloc, Frame::Opening(opening))?;
        if last < term {
            self.beyond = Beyond::nothing_in(term);
        }
        Ok(put)
    }

    /// The answer to a frame, without a look at the store where it is known that nothing came at its key.
    fn answer(&self, frame: &Frame) -> Put
        ensures { result ≡ answer_to self.now frame.now }
    {
        if is_beyond(&self.store, &self.beyond, frame) {
            return Put::New;
        }
        self.store.answer(frame)
    }

    /// Takes a frame.
    pub fn put(&mut self, alloc: Global, frame: Frame) -> Result<Put, Memory>
        // The answer is as its key stood, and OtherGuest first.
        ensures answer { IfOk result (λ p. p ≡ answer_to self.old frame) }

        // It is a join with the store of that one frame.
        ensures joined { IfOk result (λ p. p ≢ Put.OtherGuest → IsJoin self.old (alone frame) self.new) }
        ensures same { result ≡ Ok Put.Same → self.new ≡ self.old }
        ensures other_guest { result ≡ Ok Put.OtherGuest → self.new ≡ self.old }

        // Memory is refused only where the store would change, and then nothing changes.
        ensures memory { OnErr result (MayGrow self.old frame) }
        ensures err { OnErr result (self.new ≡ self.old) }
    {
        match self.answer(&frame) {
            Put::New => match frame {
                Frame::Log(fragment) => self.put_new(alloc, fragment),
                Frame::Opening(opening) => self.put_opening(alloc, opening),
            },
            Put::Same | Put::OtherGuest => self.store.put(frame),
            Put::Clash => self.put_clashing(alloc, frame),
        }
    }

    /// Joins a store to this one.
    pub fn join(&mut self, alloc: Global, other: &Store) -> Result<(), StoreFault>
        ensures joined { OnOk result (IsJoin self.old other.now self.new) }
        ensures other_guest { (result ≡ Err StoreFault.OtherGuest) ↔ (self.old.guest ≢ other.now.guest) }
        ensures err { OnErr result (self.new ≡ self.old) }
    {
        if !is_same_guest(&self.store.guest(), &other.guest()) {
            return Err(StoreFault::OtherGuest);
        }
        let mut store = self.store.copy(alloc)?;
        store.join(alloc, other)?;
        self.replace(alloc, store)?;
        Ok(())
    }
}
