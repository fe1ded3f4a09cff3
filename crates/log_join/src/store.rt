//! The store.

ghost use Rattle.std.specs.Prelude.{◌≡◌, ◌≢◌, ◌↔◌, Ok, Err, IfOk, OnOk, OnErr};
ghost use Rattle.fragment_codec.specs.declared.frame.Frame.{Frame as frame_of_specs};
ghost use Rattle.log_join.specs.Stores.{StoreView, opening_at, fragment_at, IsStore, IsJoin, nothing, alone, AreTerms, AreKeys, clashes_of, IsLastTerm};
ghost use Rattle.std.specs.Option.{option_copied};
ghost use Rattle.log_join.specs.machinery.Contents.{TellsContent};
ghost use Rattle.log_join.specs.Answers.{answer_to, Puts, TellsOpening, TellsFragment};

use crate::answers::{Found, Put, StoreFault};
use crate::place::Place;
use crate::shelf::{count_clashes, put_at, put_first};
use crate::shelves::Shelves;
use fragment_codec::{Fragment, Frame, Key, Opening};
use frame_content::{Content, is_same_fragment, is_same_opening};
use ft_types::{Guest, Memory, Term, is_same_guest};
use std::alloc::Global;
use std::marker::Model;

/// What came of one guest's frames: at each key one content, or a clash of several.
///
/// Contracts see two finite maps, of openings by term and of fragments by key.
pub struct Store {
    guest: Guest,
    shelves: Shelves,
}

impl Drop for Store {
    fn drop(self) {
        let Store {
            guest: _,
            shelves: _,
        } = self;
    }
}

impl Model for Store {
    ghost use Rattle.log_join.specs.Stores.{StoreView, coded_store};

    ghost Value = { StoreView };

    ghost coded = { coded_store };

    ghost use Rattle.log_join.specs.machinery.Contents.{view_of, Fits};

    ghost view = { λ s. view_of s.guest s.shelves };

    ghost invariant = { λ s. Fits s.guest s.shelves };
}

/// What a content is found as.
fn found(content: Option<&Content>) -> Found<'_>
    ensures { TellsContent result (option_copied content.entry) }
{
    match content {
        None => Found::Absent,
        Some(Content::One(kept)) => Found::One(kept.frame()),
        Some(Content::Clash) => Found::Clash,
    }
}

impl Store {
    /// A store of a guest to which nothing came.
    pub fn new(alloc: Global, guest: Guest) -> Store
        ensures { result ≡ nothing guest }
    {
        Store {
            guest,
            shelves: Shelves::new(alloc),
        }
    }

    /// The guest whose frames it takes.
    pub fn guest(&self) -> Guest
        ensures guest { result ≡ self.now.guest }
        ensures rules { IsStore self.now }
    {
        self.guest
    }

    /// An equal store.
    pub fn copy(&self, alloc: Global) -> Result<Store, Memory>
        ensures { IfOk result (λ s. s ≡ self.now) }
    {
        let mut copy = Store::new(alloc, self.guest);
        match copy.join(alloc, self) {
            Ok(()) => Ok(copy),
            Err(_) => Err(Memory),
        }
    }

    fn put_opening(&mut self, opening: Opening) -> Result<Put, Memory>
        ensures { Puts self.old (frame_of_specs.Opening opening) result self.new }
    {
        // proof: an opening keeps the rules by type.
        let _rules = opening.base();
        if !is_same_guest(&opening.guest(), &self.guest) {
            return Ok(Put::OtherGuest);
        }
        let term = opening.term();
        let alloc = self.shelves.alloc;
        let frame = Frame::Opening(opening);
        put_at(alloc, &mut self.shelves.openings, term, frame)
    }

    fn put_fragment(&mut self, fragment: Fragment) -> Result<Put, Memory>
        ensures { Puts self.old (frame_of_specs.Log fragment) result self.new }
    {
        // proof: a fragment keeps the rules by type.
        let _rules = fragment.records();
        if !is_same_guest(&fragment.guest(), &self.guest) {
            return Ok(Put::OtherGuest);
        }
        let place = Place::from(fragment.key());
        let alloc = self.shelves.alloc;
        let frame = Frame::Log(fragment);
        put_at(alloc, &mut self.shelves.fragments, place, frame)
    }

    /// Takes a frame.
    pub fn put(&mut self, frame: Frame) -> Result<Put, Memory>
        // The answer is as its key stood, and OtherGuest first.
        ensures answer { IfOk result (λ p. p ≡ answer_to self.old frame) }

        // It is a join with the store of that one frame.
        ensures joined { IfOk result (λ p. p ≢ Put.OtherGuest → IsJoin self.old (alone frame) self.new) }
        ensures same { result ≡ Ok Put.Same → self.new ≡ self.old }
        ensures other_guest { result ≡ Ok Put.OtherGuest → self.new ≡ self.old }

        // Memory is refused only where the key is new, and then nothing changes.
        ensures memory { OnErr result (answer_to self.old frame ≡ Put.New) }
        ensures err { OnErr result (self.new ≡ self.old) }
    {
        match frame {
            Frame::Opening(opening) => self.put_opening(opening),
            Frame::Log(fragment) => self.put_fragment(fragment),
        }
    }

    /// Takes a fragment at whose key nothing came.
    pub fn put_new(&mut self, fragment: Fragment) -> Result<(), Memory>
        requires new { answer_to self.old (frame_of_specs.Log fragment) ≡ Put.New }
        ensures joined { OnOk result (IsJoin self.old (alone (frame_of_specs.Log fragment)) self.new) }
        ensures err { OnErr result (self.new ≡ self.old) }
    {
        // proof: a fragment keeps the rules by type.
        let _rules = fragment.records();
        let place = Place::from(fragment.key());
        let alloc = self.shelves.alloc;
        let frame = Frame::Log(fragment);
        put_first(alloc, &mut self.shelves.fragments, place, frame)
    }

    /// Joins another store to this one.
    pub fn join(&mut self, alloc: Global, other: &Store) -> Result<(), StoreFault>
        ensures joined { OnOk result (IsJoin self.old other.now self.new) }
        ensures other_guest { (result ≡ Err StoreFault.OtherGuest) ↔ (self.old.guest ≢ other.now.guest) }
        ensures err { OnErr result (self.new ≡ self.old) }
    {
        if !is_same_guest(&self.guest, &other.guest) {
            return Err(StoreFault::OtherGuest);
        }
        self.shelves.join(alloc, &other.shelves)?;
        Ok(())
    }

    /// What came of a term's opening.
    pub fn opening(&self, term: Term) -> Found<'_>
        ensures found { TellsOpening result (opening_at self.now term) }
        ensures rules { IsStore self.now }
    {
        found(self.shelves.openings.get(&term))
    }

    /// What came of the fragment with this key.
    pub fn get(&self, key: Key) -> Found<'_>
        ensures found { TellsFragment result (fragment_at self.now key) }
        ensures rules { IsStore self.now }
    {
        found(self.shelves.fragments.get(&Place::from(key)))
    }

    fn answer_to_opening(&self, opening: &Opening) -> Put
        ensures { result ≡ answer_to self.now (frame_of_specs.Opening opening.now) }
    {
        if !is_same_guest(&opening.guest(), &self.guest()) {
            return Put::OtherGuest;
        }
        match self.opening(opening.term()) {
            Found::Absent => Put::New,
            Found::One(Frame::Opening(there)) if is_same_opening(there, opening) => Put::Same,
            _ => Put::Clash,
        }
    }

    fn answer_to_fragment(&self, fragment: &Fragment) -> Put
        ensures { result ≡ answer_to self.now (frame_of_specs.Log fragment.now) }
    {
        if !is_same_guest(&fragment.guest(), &self.guest()) {
            return Put::OtherGuest;
        }
        match self.get(fragment.key()) {
            Found::Absent => Put::New,
            Found::One(Frame::Log(there)) if is_same_fragment(there, fragment) => Put::Same,
            _ => Put::Clash,
        }
    }

    /// What `put` answers to the frame, where memory is there.
    pub fn answer(&self, frame: &Frame) -> Put
        ensures { result ≡ answer_to self.now frame.now }
    {
        match frame {
            Frame::Log(fragment) => self.answer_to_fragment(fragment),
            Frame::Opening(opening) => self.answer_to_opening(opening),
        }
    }

    /// The terms of the openings with one content, rising.
    pub fn terms(&self, alloc: Global) -> Result<Vec<Term>, Memory>
        ensures { IfOk result (λ terms. AreTerms self.now terms.items) }
    {
        self.shelves.terms(alloc)
    }

    /// The keys of the fragments with one content, rising by term, then hart, then place.
    pub fn keys(&self, alloc: Global) -> Result<Vec<Key>, Memory>
        ensures { IfOk result (λ keys. AreKeys self.now keys.items) }
    {
        self.shelves.keys(alloc)
    }

    /// The number of keys that clash, of openings and of fragments.
    pub fn clashes(&self) -> usize
        ensures { result ≡ clashes_of self.now }
    {
        count_clashes(&self.shelves.openings) + count_clashes(&self.shelves.fragments)
    }

    /// The greatest term of any key, one that clashes too, and 0 where there is none.
    pub fn last_term(&self) -> Term
        ensures { IsLastTerm self.now result }
    {
        self.shelves
            .last_opening()
            .max(self.shelves.last_fragment())
    }
}
