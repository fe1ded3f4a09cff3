//! A leg that grows by what came of its harts.

ghost use Rattle.std.specs.Prelude.{◌≡◌, ◌≢◌, ◌≤◌, ◌<◌, ◌^◌, ℕ, [], length, max, slice_set, OnOk, IfSome, IfNone};
ghost use Rattle.ft_types.specs.declared.names.TheConstants.{COUNT_LIMIT, HART_ROW};
ghost use Rattle.ft_types.specs.Counts.{count_at};
ghost use Rattle.edge_log.specs.EdgeLog.{IsLog, row_of};
ghost use Rattle.input_log.specs.Inputs.{inputs_of};
ghost use Rattle.fragment_codec.specs.Rules.{FragmentParts};
ghost use Rattle.log_join.specs.Cells.{One};
ghost use Rattle.log_join.specs.Stores.{IsStore};
ghost use Rattle.closed_cut.specs.Position.{pieces_of, Avail, Goes};
ghost use Rattle.hart_replay.specs.machinery.Taking.{between, EdgesEndBy, InputsEndBelow};
ghost use Rattle.warm_backup.specs.machinery.Growing.{cursor_at, HasFacts, Walks, TakesFacts, TakesWork, TakesOf, TakesUpTo, GrowsFrom, Grows, IsBehind, IsFresh, IsNext, IsRest};

use closed_cut::piece_from;
use fragment_codec::{Fragment, Key};
use ft_types::{Count, Counts, HART_LIMIT, HART_ROW, Hart, Memory, Term};
use hart_replay::{PlannedLeg, add_edges, add_inputs, add_notes};
use log_join::Store;
use page_book::Leg;
use std::option::Option;
use std::result::Result;

/// Where a walk over a hart's pieces stands: how many places it is past, and the count at which they end.
#[derive(Clone, Copy)]
pub(crate) struct Cursor {
    place: u64,
    end: Count,
}

/// Walks that stand at these counts.
pub(crate) fn cursors_at(base: &Counts) -> [Cursor; HART_ROW]
    ensures { (hart : ℕ) → hart < length base.now → cursor_at result hart ≡ record { place = 0; end = count_at base.now hart } }
{
    let mut cursors = [Cursor { place: 0, end: 0 }; HART_ROW];
    for number in 0..base.harts() {
        let hart = Hart::new(number);
        cursors[hart.index()] = Cursor {
            place: 0,
            end: base.get(hart),
        };
    }
    cursors
}

/// The hart's piece that begins where the walk stands.
fn piece_at(store: &Store, term: Term, hart: Hart, cursor: Cursor) -> Option<&Fragment>
    requires rules { IsStore store.now }
    ensures one { IfSome result (λ f. pieces_of store.now term hart cursor.place ≡ One f.now) }
    ensures from { IfSome result (λ f. f.now.from ≡ cursor.end) }
    ensures place { IfSome result (λ _. cursor.place < 2 ^ 32) }
    ensures none { IfNone result ((f : FragmentParts) → pieces_of store.now term hart cursor.place ≡ One f → f.from ≢ cursor.end) }
{
    if cursor.place > u32::MAX as u64 {
        return None;
    }
    let key = Key {
        term,
        hart,
        place: cursor.place as u32,
    };
    piece_from(store, key, cursor.end)
}

/// Adds a piece's facts at counts from the first one on, and below the end.
fn add_facts(leg: &mut PlannedLeg, piece: &Fragment, from: Count, end: Count) -> Result<(), Memory>
    requires start { leg.old.edges.start ≡ leg.old.base }
    requires harts { length leg.old.base ≡ piece.now.guest.harts }
    requires from { count_at leg.old.base piece.now.key.hart ≤ max from piece.now.from }
    requires edges_end { EdgesEndBy leg.old.edges piece.now.key.hart (max from piece.now.from) }
    requires inputs_end { InputsEndBelow leg.old.inputs piece.now.key.hart (max from piece.now.from) }
    requires hart { piece.now.key.hart < length leg.old.marks }
    ensures ends { leg.new.ends ≡ leg.old.ends }
    ensures taken { OnOk result (TakesFacts piece.now.key.hart leg.old (between from end piece.now.records) leg.new) }
    ensures edges_end { OnOk result (EdgesEndBy leg.new.edges piece.now.key.hart (max from piece.now.to)) }
    ensures inputs_end { OnOk result (InputsEndBelow leg.new.inputs piece.now.key.hart (max from piece.now.to)) }
    ensures grows { GrowsFrom piece.now.key.hart (max from piece.now.from) leg.old leg.new }
{
    add_edges(&mut leg.edges, piece, from, end, &leg.base)?;
    add_inputs(&mut leg.inputs, piece, from, end)?;
    add_notes(&mut leg.marks, piece, from, end);
    Ok(())
}

/// Adds them to what is to be done from these counts on.
fn add_work(
    rest: &mut Leg,
    piece: &Fragment,
    from: Count,
    end: Count,
    now: &Counts,
) -> Result<(), Memory>
    requires harts { length rest.old.edges.start ≡ piece.now.guest.harts }
    requires start { (other : ℕ) → count_at rest.old.edges.start other ≤ count_at now.now other }
    requires from { count_at now.now piece.now.key.hart ≤ max from piece.now.from }
    requires edges_end { EdgesEndBy rest.old.edges piece.now.key.hart (max from piece.now.from) }
    requires inputs_end { InputsEndBelow rest.old.inputs piece.now.key.hart (max from piece.now.from) }
    ensures ends { rest.new.ends ≡ rest.old.ends }
    ensures taken { OnOk result (TakesWork piece.now.key.hart (count_at now.now) rest.old (between from end piece.now.records) rest.new) }
    ensures edges_end { OnOk result (EdgesEndBy rest.new.edges piece.now.key.hart (max from piece.now.to)) }
    ensures inputs_end { OnOk result (InputsEndBelow rest.new.inputs piece.now.key.hart (max from piece.now.to)) }
{
    add_edges(&mut rest.edges, piece, from, end, now)?;
    add_inputs(&mut rest.inputs, piece, from, end)
}

/// Adds a hart's facts between the leg's end and this one to the leg and to what is to be done of it. The walk goes past each piece
/// that ends there or before.
fn take_facts(
    store: &Store,
    leg: &mut PlannedLeg,
    rest: &mut Leg,
    cursor: &mut Cursor,
    hart: Hart,
    end: Count,
    now: &Counts,
) -> Result<(), Memory>
    requires rules { IsStore store.now }
    requires facts { HasFacts store.now leg.old }
    requires walks { Walks store.now leg.old hart cursor.old }
    requires hart { hart < length leg.old.base }
    requires up { count_at leg.old.ends hart ≤ end }
    requires inside { (avail : Avail store.now leg.old.term (count_at leg.old.base)) → end ≤ avail.end hart }
    requires rest_harts { length rest.old.edges.start ≡ store.now.guest.harts }
    requires rest_start { (other : ℕ) → count_at rest.old.edges.start other ≤ count_at now.now other }
    requires from { count_at now.now hart ≡ count_at leg.old.ends hart }
    requires rest_edges { row_of rest.old.edges hart ≡ [] }
    requires rest_inputs { inputs_of rest.old.inputs hart ≡ [] }
    ensures taken { OnOk result (TakesUpTo store.now hart end (count_at now.now) leg.old rest.old leg.new rest.new) }
    ensures goes { OnOk result (Goes (pieces_of store.now leg.old.term hart) (count_at leg.old.base hart) cursor.new.place cursor.new.end) }
    ensures within { OnOk result (cursor.new.end ≤ end) }
    ensures ends { leg.new.ends ≡ leg.old.ends }
    ensures rest_ends { rest.new.ends ≡ rest.old.ends }
    ensures grows { GrowsFrom hart (count_at leg.old.ends hart) leg.old leg.new }
{
    // proof: each edge of a row is its hart's.
    let _own = leg.edges.of_hart(hart);
    let from = leg.ends.get(hart);
    while cursor.end < end {
        let Some(piece) = piece_at(store, leg.term, hart, *cursor) else {
            return Ok(());
        };
        add_facts(leg, piece, from, end)?;
        add_work(rest, piece, from, end, now)?;
        if end < piece.to() {
            return Ok(());
        }
        *cursor = Cursor {
            place: cursor.place + 1,
            end: piece.to(),
        };
    }
    Ok(())
}

/// Raises a hart's end in a leg, which gets the hart's facts up to there, and so does what is to be done of it.
fn grow_hart(
    store: &Store,
    leg: &mut PlannedLeg,
    rest: &mut Leg,
    cursor: &mut Cursor,
    hart: Hart,
    end: Count,
    now: &Counts,
) -> Result<(), Memory>
    requires rules { IsStore store.now }
    requires facts { HasFacts store.now leg.old }
    requires walks { Walks store.now leg.old hart cursor.old }
    requires hart { hart < length leg.old.base }
    requires up { count_at leg.old.ends hart ≤ end }
    requires limit { end < COUNT_LIMIT }
    requires inside { (avail : Avail store.now leg.old.term (count_at leg.old.base)) → end ≤ avail.end hart }
    requires rest_harts { length rest.old.edges.start ≡ store.now.guest.harts }
    requires rest_start { (other : ℕ) → count_at rest.old.edges.start other ≤ count_at now.now other }
    requires from { count_at now.now hart ≡ count_at leg.old.ends hart }
    requires rest_edges { row_of rest.old.edges hart ≡ [] }
    requires rest_inputs { inputs_of rest.old.inputs hart ≡ [] }
    ensures facts { OnOk result (HasFacts store.now leg.new) }
    ensures walks { OnOk result (Walks store.now leg.new hart cursor.new) }
    ensures ends { OnOk result (leg.new.ends ≡ slice_set leg.old.ends hart end) }
    ensures taken { OnOk result (TakesOf hart (count_at leg.old.ends hart) (count_at now.now) leg.old rest.old leg.new rest.new) }
    ensures rest_ends { rest.new.ends ≡ rest.old.ends }
    ensures grows { GrowsFrom hart (count_at leg.old.ends hart) leg.old leg.new }
{
    take_facts(store, leg, rest, cursor, hart, end, now)?;
    leg.ends.set(hart, end);
    Ok(())
}

/// Nothing: logs keep their rules by type.
pub(crate) fn rules_of(leg: &PlannedLeg)
    ensures log { IsLog leg.now.edges.start leg.now.edges.rows }
    ensures rows { length leg.now.inputs ≡ HART_ROW }
{
    // proof: each of these calls tells of its log. Few guests have the last hart, so that its row is short.
    let _rules = leg.edges.next(Hart::new(HART_LIMIT - 1), 0);
    let _rows = leg.inputs.of_hart(Hart::new(HART_LIMIT - 1));
}

/// Raises the ends of a leg, at which these counts are now, to the others, and adds what the store tells up to there, also to what is to
/// be done of it.
pub(crate) fn grow(
    store: &Store,
    leg: &mut PlannedLeg,
    rest: &mut Leg,
    cursors: &mut [Cursor; HART_ROW],
    now: &Counts,
    ends: &Counts,
) -> Result<(), Memory>
    requires rules { IsStore store.now }
    requires facts { HasFacts store.now leg.old }
    requires walks { (hart : ℕ) → hart < length leg.old.base → Walks store.now leg.old hart (cursor_at cursors.old hart) }
    requires now { now.now ≡ leg.old.ends }
    requires to { IsNext store.now leg.old ends.now }
    requires fresh { IsFresh leg.old rest.old }
    ensures facts { OnOk result (HasFacts store.now leg.new) }
    ensures walks { OnOk result ((hart : ℕ) → hart < length leg.old.base → Walks store.now leg.new hart (cursor_at cursors.new hart)) }
    ensures ends { OnOk result (leg.new.ends ≡ ends.now) }
    ensures rest { OnOk result (IsRest leg.old leg.new rest.new) }
    ensures behind { OnOk result (IsBehind leg.new rest.new) }
    ensures log { OnOk result (IsLog leg.new.edges.start leg.new.edges.rows) }
    ensures rows { OnOk result (length leg.new.inputs ≡ HART_ROW) }
    ensures rest_ends { rest.new.ends ≡ rest.old.ends }
    ensures grows { Grows leg.old leg.new }
{
    for number in 0..ends.harts() {
        let hart = Hart::new(number);
        let end = ends.get(hart);
        if leg.ends.get(hart) < end {
            let cursor = &mut cursors[hart.index()];
            grow_hart(store, leg, rest, cursor, hart, end, now)?;
        }
    }
    rules_of(leg);
    Ok(())
}
