//! The chain of a store's terms.

ghost use Rattle.std.specs.Prelude.{◌≡◌, ◌↔◌, ◌-◌, ◌<◌, ℕ, IsTrue, IfOk, IfSome, IfNone, length, slice_get, unwrap_or};
ghost use Rattle.std.specs.List.Sorted.{IsNonDecreasing};
ghost use Rattle.fragment_codec.specs.Rules.{OpeningParts};
ghost use Rattle.log_join.specs.Cells.{One};
ghost use Rattle.log_join.specs.Stores.{opening_at, IsStore};
ghost use Rattle.closed_cut.specs.Chain.{Sound, LeadsTo, IsChain};
ghost use Rattle.closed_cut.specs.machinery.Walks.{AreSound, ComesAfter};

use fragment_codec::{Frame, Opening};
use ft_types::{Memory, Term};
use log_join::{Found, Store};
use std::alloc::Global;
use std::option::Option;
use std::result::Result;

/// A term's opening, where one content came.
pub fn opening_of(store: &Store, term: Term) -> Option<&Opening>
    ensures one { IfSome result (λ o. opening_at store.entry.now term ≡ One o.now) }
    ensures rules { IsStore store.entry.now }
    ensures none { IfNone result ((o : OpeningParts) → opening_at store.entry.now term ≡ One o → ⊥) }
{
    match store.opening(term) {
        Found::One(Frame::Opening(opening)) => Some(opening),
        _ => None,
    }
}

/// Whether an opening is sound, where these are the sound terms below it.
fn is_sound(store: &Store, sound: &[Term], opening: &Opening) -> bool
    requires opening { opening_at store.now opening.now.term ≡ One opening.now }
    requires rising { IsNonDecreasing sound.now }
    requires sound { ComesAfter store.now sound.now opening.now.term }
    ensures { IsTrue result ↔ Sound store.now opening.now.term }
{
    let parent = opening.parent();
    if parent == 0 {
        return true;
    }
    match opening_of(store, parent) {
        Some(before) => {
            sound.binary_search(&parent).is_ok() && before.base().within(opening.base())
        }
        None => false,
    }
}

/// The sound terms, rising.
fn sound_terms(alloc: Global, store: &Store) -> Result<Vec<Term>, Memory>
    ensures { IfOk result (λ sound. AreSound store.now sound.items) }
{
    let mut sound = Vec::new(alloc);
    for term in &store.terms(alloc)? {
        if let Some(opening) = opening_of(store, *term) {
            if is_sound(store, &sound, opening) {
                sound.push(*term)?;
            }
        }
    }
    Ok(sound)
}

/// The last of the terms, 0 where there is none.
pub(crate) fn last_of(terms: &[Term]) -> Term
    ensures { result ≡ unwrap_or (slice_get terms.now (length terms.now - 1)) 0 }
{
    terms.last().copied().unwrap_or(0)
}

/// A sound term and its ancestors, the oldest first; none for term 0.
fn line_of(alloc: Global, store: &Store, top: Term) -> Result<Vec<Term>, Memory>
    requires { 0 < top → Sound store.now top }
    ensures { IfOk result (λ terms. LeadsTo store.now 0 terms.items top) }
{
    let mut line = Vec::new(alloc);
    let mut term = top;
    while let Some(opening) = opening_of(store, term) {
        line.push(term)?;
        term = opening.parent();
    }
    line.reverse();
    Ok(line)
}

/// The chain of the store's terms: from an opening with parent 0 to the greatest sound term, each the parent of the next.
pub fn chain(alloc: Global, store: &Store) -> Result<Vec<Term>, Memory>
    ensures { IfOk result (λ terms. IsChain store.now terms.items) }
{
    let sound = sound_terms(alloc, store)?;
    line_of(alloc, store, last_of(&sound))
}
