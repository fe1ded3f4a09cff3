//! A piece that comes at a key at which nothing was.

ghost use Rattle.std.specs.Prelude.{◌≡◌, ◌≢◌, ◌<◌, ◌+◌, ℕ, List, Contains, Option, Some, None, false, if◌then◌else◌, length, IfSome, IfNone, IsTrue};
ghost use Rattle.std.specs.List.{filter_map};
ghost use Rattle.std.specs.Option.{option_map};
ghost use Rattle.edge_log.specs.declared.Edge.{Edge as edge_of_specs};
ghost use Rattle.ft_types.specs.declared.names.TheConstants.{COUNT_LIMIT, HART_LIMIT};
ghost use Rattle.ft_types.specs.Counts.{count_at};
ghost use Rattle.fragment_codec.specs.Facts.{edge_in};
ghost use Rattle.fragment_codec.specs.Rules.{FragmentParts, OpeningParts};
ghost use Rattle.fragment_codec.specs.declared.frame.Frame.{Frame as frame_of_specs};
ghost use Rattle.log_join.specs.Cells.{Absent, One};
ghost use Rattle.log_join.specs.Stores.{StoreView, opening_at, IsStore};
ghost use Rattle.log_join.specs.Answers.{answer_to};
ghost use Rattle.closed_cut.specs.Chain.{Sound};
ghost use Rattle.closed_cut.specs.Position.{base_of, pieces_of, InChain, Stops};
ghost use Rattle.tracked_position.specs.machinery.Cuts.{IsCutOf, Meets};
ghost use Rattle.tracked_position.specs.machinery.Walks.{cursor_at, AreOver, IsApart, IsPassed};
ghost use Rattle.tracked_position.specs.machinery.Legs.{IsChild, IsNext};
ghost use Rattle.tracked_position.specs.machinery.Keeping.{AreBeyond, Takes, IsTracked};

use crate::beyond::Beyond;
use crate::raising::reach;
use crate::starting::start;
use crate::walk::{Ahead, Cursor, least_unmet};
use closed_cut::{Position, opening_of};
use fragment_codec::{Fragment, Key, Opening, Record};
use ft_types::{COUNT_LIMIT, Count, Counts, HART_ROW, Memory, Term};
use log_join::{Put, Store};
use std::option::Option;
use std::result::Result;

/// The opening of the term that comes after this one in the chain of the top, where one does.
fn child(store: &Store, top: Term, term: Term) -> Option<&Opening>
    requires { IsStore store.now }
    ensures some { IfSome result (λ o. IsChild store.entry.now top term o.now) }
    ensures none { IfNone result ((o : OpeningParts) → IsChild store.entry.now top term o → ⊥) }
{
    let mut now = top;
    while let Some(opening) = opening_of(store, now) {
        if opening.parent() == term {
            return Some(opening);
        }
        now = opening.parent();
    }
    None
}

/// The base of an opening, where there is one.
fn base_of_next(next: Option<&Opening>) -> Option<Counts>
    ensures some { IfSome next.entry (λ o. result ≡ Some o.now.base) }
    ensures none { IfNone next.entry (result ≡ None) }
{
    match next {
        None => None,
        Some(next) => Some(next.base()),
    }
}

/// Sets the walks to the base of a term, where it is opened. Not inlined, since a function clears its locals when it begins, and a term
/// seldom begins.
#[inline(never)]
fn begin(store: &Store, term: Term, cursors: &mut [Cursor; HART_ROW])
    ensures { (o : OpeningParts) (cut : ℕ → ℕ) → opening_at store.now term ≡ One o → AreOver store.now term (base_of o) cut cursors.new }
{
    *cursors = start(store, term);
}

/// Goes on from a cut of an opened term as far as the store reaches, in that term and in those that come after it in the
/// chain of the top. Gives the term in which that ends.
fn go_on(
    store: &Store,
    top: Term,
    opening: &Opening,
    cursors: &mut [Cursor; HART_ROW],
    counts: &mut Counts,
) -> Term
    requires rules { IsStore store.now }
    requires sound { Sound store.now top }
    requires opening { opening_at store.now opening.now.term ≡ One opening.now }
    requires in_chain { InChain store.now opening.now.term top }
    requires harts { length counts.old ≡ length opening.now.base }
    requires cut { (limit : Option (List ℕ)) → IsNext store.now top opening.now.term limit →
        IsCutOf store.now opening.now.term (base_of opening.now) (option_map count_at limit) (count_at counts.old) }
    requires over { AreOver store.now opening.now.term (base_of opening.now) (count_at counts.old) cursors.old }
    ensures harts { length counts.new ≡ length counts.old }
    ensures stops { Stops store.now top result (count_at counts.new) opening.now.term }
    ensures over { (o : OpeningParts) → opening_at store.now result ≡ One o → AreOver store.now result (base_of o) (count_at counts.new) cursors.new }
{
    let mut now = opening;
    loop {
        let next = child(store, top, now.term());
        let limit = base_of_next(next);
        reach(store, now, &limit, cursors, counts);
        let Some(next) = next else {
            return now.term();
        };
        if !next.base().within(*counts) {
            return now.term();
        }
        now = next;
        *counts = next.base();
        begin(store, next.term(), cursors);
    }
}

/// Takes a piece of another term than the position's, which stays.
pub(crate) fn take_elsewhere(
    store: &mut Store,
    position: &Position,
    cursors: &[Cursor; HART_ROW],
    beyond: &mut Beyond,
    fragment: Fragment,
) -> Result<Put, Memory>
    requires new { answer_to store.old (frame_of_specs.Log fragment) ≡ Put.New }
    requires tracked { IsTracked store.old position.now cursors.now }
    requires beyond { AreBeyond store.old beyond.old }
    requires elsewhere { fragment.key.term ≢ position.now.term }
    ensures takes { Takes store.old (frame_of_specs.Log fragment) result store.new }
    ensures tracked { IsTracked store.new position.now cursors.now }
    ensures beyond { AreBeyond store.new beyond.new }
{
    let key = fragment.key();
    store.put_new(fragment)?;
    // proof: a store's guest keeps the rules.
    let _rules = store.guest();
    beyond.add(key);
    Ok(Put::New)
}

/// Whether a piece that comes may let harts go on: not where the walk over its hart has ended elsewhere. Where it begins at that
/// end, what is ahead is no longer seen.
fn may_go_on(cursors: &mut [Cursor; HART_ROW], key: Key, from: Count) -> bool
    ensures hart { key.hart < HART_LIMIT }
    ensures apart { IsApart cursors.new key from }
    ensures over { (store : StoreView) (term : ℕ) (base cut : ℕ → ℕ) → AreOver store term base cut cursors.old → AreOver store term base cut cursors.new }
    ensures ended { result ≡ false → (cursor_at cursors.new key.hart).ahead ≡ Ahead.End }
{
    let index = key.hart.index();
    let cursor = cursors[index];
    let Ahead::End = cursor.ahead else {
        return true;
    };
    if u64::from(key.place) != cursor.place || from != cursor.end {
        return false;
    }
    cursors[index] = Cursor {
        place: cursor.place,
        end: cursor.end,
        ahead: Ahead::Unseen,
    };
    true
}

/// Whether the counts meet each edge among the records.
fn are_met(records: &[Record], cut: &Counts) -> bool
    ensures { IsTrue result → (e : edge_of_specs) → Contains (filter_map edge_in records.now) e → e.at < COUNT_LIMIT → Meets (count_at cut.now) e }
{
    least_unmet(records, COUNT_LIMIT, cut).is_none()
}

/// What is ahead of a walk, of which it may be known that it ends.
fn behind_it(last: bool) -> Ahead
    ensures { result ≡ (if last then Ahead.End else Ahead.Unseen) }
{
    if last { Ahead::End } else { Ahead::Unseen }
}

/// Goes past a piece that came, without a look at the store, where it is the one with which its hart's walk goes on and its edges are met.
/// Whether nothing came behind it is told.
fn pass(cursors: &mut [Cursor; HART_ROW], key: &Key, from: Count, to: Count, met: bool, last: bool)
    ensures { (store : StoreView) (term : ℕ) (base cut : ℕ → ℕ) (piece : FragmentParts) → IsStore store →
        IsPassed (pieces_of store term key.now.hart) cut key.now.place from to met piece →
        (IsTrue last → pieces_of store term key.now.hart (key.now.place + 1) ≡ Absent) → AreOver store term base cut cursors.old → AreOver store term base cut cursors.new }
{
    let index = key.hart.index();
    let cursor = cursors[index];
    if !met || u64::from(key.place) != cursor.place || from != cursor.end {
        return;
    }
    cursors[index] = Cursor {
        place: cursor.place + 1,
        end: to,
        ahead: behind_it(last),
    };
}

/// Takes a piece of the position's term, and goes on as far as the store then reaches.
pub(crate) fn take_here(
    store: &mut Store,
    position: &mut Position,
    cursors: &mut [Cursor; HART_ROW],
    beyond: &mut Beyond,
    opening: &Opening,
    fragment: Fragment,
) -> Result<Put, Memory>
    requires new { answer_to store.old (frame_of_specs.Log fragment) ≡ Put.New }
    requires tracked { IsTracked store.old position.old cursors.old }
    requires beyond { AreBeyond store.old beyond.old }
    requires opening { opening_at store.old position.old.term ≡ One opening.now }
    requires here { fragment.key.term ≡ position.old.term }
    ensures takes { Takes store.old (frame_of_specs.Log fragment) result store.new }
    ensures tracked { IsTracked store.new position.new cursors.new }
    ensures beyond { AreBeyond store.new beyond.new }
{
    let key = fragment.key();
    let from = fragment.from();
    let to = fragment.to();
    let met = are_met(fragment.records(), &position.counts);
    store.put_new(fragment)?;
    // proof: a store's guest keeps the rules.
    let _rules = store.guest();
    let last = beyond.add(key);
    if !may_go_on(cursors, key, from) {
        return Ok(Put::New);
    }
    pass(cursors, &key, from, to, met, last);
    position.term = go_on(store, position.top, opening, cursors, &mut position.counts);
    Ok(Put::New)
}
