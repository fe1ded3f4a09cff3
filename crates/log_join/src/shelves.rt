//! The two maps of a store.

ghost use Rattle.std.specs.Prelude.{◌≡◌, ◌≤◌, ◌⊎◌, ℕ, false, [], IsSome, IfOk, OnOk, OnErr};
ghost use Rattle.std.specs.Ordering.{nat_cmp};
ghost use Rattle.std.specs.BTreeMap.{get, IsOrdered};
ghost use Rattle.log_join.specs.machinery.Places.{Place as place_of_specs, key_of, place_cmp};
ghost use Rattle.log_join.specs.machinery.Contents.{is_among, listed, fragment_part, FitsAt, AreFree, AreCopied, IsKept, IsMet};

use crate::place::Place;
use crate::shelf::{copy_at, mark_clashes, missing_keys, remove_at};
use fragment_codec::{Frame, Key};
use frame_content::Content;
use ft_types::{Memory, Term};
use std::alloc::Global;
use std::collections::BTreeMap;

/// The openings by term, and the fragments by key.
#[derive(Drop)]
pub(crate) struct Shelves {
    /// What each frame is kept in.
    pub(crate) alloc: Global,
    pub(crate) openings: BTreeMap<Term, Content>,
    pub(crate) fragments: BTreeMap<Place, Content>,
}

impl Shelves {
    pub(crate) fn new(alloc: Global) -> Shelves
        ensures openings { result.openings.entries ≡ [] }
        ensures fragments { result.fragments.entries ≡ [] }
    {
        Shelves {
            alloc,
            openings: BTreeMap::new(alloc),
            fragments: BTreeMap::new(alloc),
        }
    }

    /// Copies what the others have at these keys, or, where memory is refused, at some of them.
    fn copy_some(
        &mut self,
        alloc: Global,
        other: &Shelves,
        terms: &[Term],
        places: &[Place],
    ) -> Result<(), Memory>
        ensures ok { OnOk result (AreCopied self.old other.now terms.now places.now self.new) }
        ensures other_terms { (term : ℕ) → is_among nat_cmp terms.now term ≡ false → get nat_cmp self.new.openings term ≡ get nat_cmp self.old.openings term }
        ensures other_places { (place : place_of_specs) → is_among place_cmp places.now place ≡ false → get place_cmp self.new.fragments place ≡ get place_cmp
            self.old.fragments place }
    {
        copy_at(alloc, &mut self.openings, terms, &other.openings)?;
        copy_at(alloc, &mut self.fragments, places, &other.fragments)
    }

    /// Copies what the others have at these keys, or, where memory is refused, nothing.
    fn copy_all(
        &mut self,
        alloc: Global,
        other: &Shelves,
        terms: &[Term],
        places: &[Place],
    ) -> Result<(), Memory>
        requires { AreFree self.old terms.now places.now }
        ensures ok { OnOk result (AreCopied self.old other.now terms.now places.now self.new) }
        ensures err { OnErr result (IsKept self.old self.new) }
    {
        let copied = self.copy_some(alloc, other, terms, places);
        if copied.is_err() {
            remove_at(&mut self.openings, terms);
            remove_at(&mut self.fragments, places);
        }
        copied
    }

    /// Joins what the others have to what is here, or, where memory is refused, nothing.
    pub(crate) fn join(&mut self, alloc: Global, other: &Shelves) -> Result<(), Memory>
        ensures ok { OnOk result (IsMet self.old other.now self.new) }
        ensures err { OnErr result (IsKept self.old self.new) }
    {
        let terms = missing_keys(alloc, &self.openings, &other.openings)?;
        let places = missing_keys(alloc, &self.fragments, &other.fragments)?;
        self.copy_all(alloc, other, &terms, &places)?;
        mark_clashes(&mut self.openings, &other.openings);
        mark_clashes(&mut self.fragments, &other.fragments);
        Ok(())
    }

    /// The terms at which there is one opening, rising.
    pub(crate) fn terms(&self, alloc: Global) -> Result<Vec<Term>, Memory>
        ensures listed { IfOk result (λ terms. terms.items ≡ listed (λ term. term) self.now.openings.entries) }
        ensures ordered { IsOrdered nat_cmp self.now.openings }
    {
        let mut terms = Vec::new(alloc);
        for (term, content) in &self.openings {
            if let Content::One(_) = content {
                terms.push(*term)?;
            }
        }
        Ok(terms)
    }

    /// The keys at which there is one fragment, rising.
    pub(crate) fn keys(&self, alloc: Global) -> Result<Vec<Key>, Memory>
        requires { (place : place_of_specs) → FitsAt fragment_part (λ f. f.key ≡ key_of place) (get place_cmp self.now.fragments place) }
        ensures listed { IfOk result (λ keys. keys.items ≡ listed key_of self.now.fragments.entries) }
        ensures ordered { IsOrdered place_cmp self.now.fragments }
    {
        let mut keys = Vec::new(alloc);
        for (_, content) in &self.fragments {
            if let Content::One(kept) = content {
                if let Frame::Log(fragment) = kept.frame() {
                    keys.push(fragment.key())?;
                }
            }
        }
        Ok(keys)
    }

    /// The greatest term at which an opening or a clash of openings is.
    pub(crate) fn last_opening(&self) -> Term
        ensures above { (term : ℕ) → IsSome (get nat_cmp self.now.openings term) → term ≤ result }
        ensures there { (result ≡ 0) ⊎ IsSome (get nat_cmp self.now.openings result) }
    {
        match self.openings.last_key_value() {
            None => 0,
            Some((term, _)) => *term,
        }
    }

    /// The greatest term in whose log a fragment or a clash of fragments is.
    pub(crate) fn last_fragment(&self) -> Term
        ensures above { (place : place_of_specs) → IsSome (get place_cmp self.now.fragments place) → place.term ≤ result }
        ensures there { (result ≡ 0) ⊎ ((place : place_of_specs) × (place.term ≡ result) × IsSome (get place_cmp self.now.fragments place)) }
    {
        match self.fragments.last_key_value() {
            None => 0,
            Some((place, _)) => place.term(),
        }
    }
}
