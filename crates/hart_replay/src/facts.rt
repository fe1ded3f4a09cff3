//! The facts that a store has of a hart in a term, as far as a leg goes.

ghost use Rattle.std.specs.Prelude.{◌≡◌, ◌≢◌, ◌≤◌, ◌<◌, ℕ, [], length, max, OnOk};
ghost use Rattle.ft_types.specs.Counts.{count_at};
ghost use Rattle.edge_log.specs.EdgeLog.{row_of, AddsLater};
ghost use Rattle.input_log.specs.Inputs.{inputs_of, HearsMore};
ghost use Rattle.log_join.specs.Stores.{IsStore};
ghost use Rattle.hart_replay.specs.Facts.{edges_among, inputs_among, notes_among};
ghost use Rattle.hart_replay.specs.machinery.Taking.{is_between as between_these, between, TakesUnmet, EdgesEndBy, TakesInputs, InputsEndBelow, TakesNotes, TakesHart};

use crate::plans::PlannedLeg;
use closed_cut::piece_from;
use edge_log::EdgeLog;
use fragment_codec::{Fragment, Key, Record};
use ft_types::{Count, Counts, HART_LIMIT, Hart, Memory};
use input_log::{Input, InputLog};
use log_join::Store;
use std::option::Option;
use std::result::Result;

/// Whether the count is the first one or later, and below the end.
fn is_between(count: Count, from: Count, end: Count) -> bool
    ensures { result ≡ between_these from end count }
{
    from <= count && count < end
}

/// Adds a piece's edges of steps from the first count on, and below the end, but those that these counts meet.
pub fn add_edges(
    edges: &mut EdgeLog,
    piece: &Fragment,
    from: Count,
    end: Count,
    met: &Counts,
) -> Result<(), Memory>
    requires harts { length edges.old.start ≡ piece.now.guest.harts }
    requires start { (other : ℕ) → count_at edges.old.start other ≤ count_at met.now other }
    requires from { count_at met.now piece.now.key.hart ≤ max from piece.now.from }
    requires last { EdgesEndBy edges.old piece.now.key.hart (max from piece.now.from) }
    ensures taken { OnOk result (TakesUnmet piece.now.key.hart (count_at met.now) edges.old (edges_among (between from end piece.now.records)) edges.new) }
    ensures last { OnOk result (EdgesEndBy edges.new piece.now.key.hart (max from piece.now.to)) }
    // What it said of the steps before stays said.
    ensures later { (settled : ℕ → ℕ) → settled piece.now.key.hart ≤ max from piece.now.from → AddsLater edges.old settled edges.new }
{
    // proof: a log keeps the rules by type. Few guests have the last hart, so that its row is short.
    let _rules = edges.next(Hart::new(HART_LIMIT - 1), 0);
    for record in piece.records() {
        if let Record::Edge(edge) = record {
            if is_between(edge.at, from, end) && met.count_of(edge.other) < edge.after {
                edges.add(*edge)?;
            }
        }
    }
    Ok(())
}

/// Adds a piece's inputs at counts from the first one on, and below the end.
pub fn add_inputs(
    inputs: &mut InputLog,
    piece: &Fragment,
    from: Count,
    end: Count,
) -> Result<(), Memory>
    requires last { InputsEndBelow inputs.old piece.now.key.hart (max from piece.now.from) }
    ensures taken { OnOk result (TakesInputs piece.now.key.hart inputs.old (inputs_among (between from end piece.now.records)) inputs.new) }
    ensures last { OnOk result (InputsEndBelow inputs.new piece.now.key.hart (max from piece.now.to)) }
    // What was given before stays, and what other harts were given.
    ensures later { HearsMore (inputs_of inputs.old piece.now.key.hart) (max from piece.now.from) (inputs_of inputs.new piece.now.key.hart) }
    ensures others { (other : ℕ) → other ≢ piece.now.key.hart → inputs_of inputs.new other ≡ inputs_of inputs.old other }
{
    let hart = piece.key().hart;
    for record in piece.records() {
        if let Record::Input(at, input) = record {
            if is_between(*at, from, end) {
                inputs.add(hart, *at, *input)?;
            }
        }
    }
    Ok(())
}

/// Raises the hart's mark to the greatest number that a piece notes at a count from the first one on, and below the end.
pub fn add_notes(marks: &mut Counts, piece: &Fragment, from: Count, end: Count)
    requires { piece.now.key.hart < length marks.old }
    ensures { TakesNotes piece.now.key.hart marks.old (notes_among (between from end piece.now.records)) marks.new }
{
    let hart = piece.key().hart;
    for record in piece.records() {
        if let Record::Note(at, number) = record {
            if is_between(*at, from, end) {
                let mark = marks.get(hart).max(*number);
                marks.set(hart, mark);
            }
        }
    }
}

/// Adds a hart's facts to a leg, which has none of it.
pub(crate) fn add_hart(store: &Store, leg: &mut PlannedLeg, hart: Hart) -> Result<(), Memory>
    requires rules { IsStore store.now }
    requires harts { length leg.old.base ≡ store.now.guest.harts }
    requires hart { hart < length leg.old.base }
    requires start { leg.old.edges.start ≡ leg.old.base }
    requires edges { row_of leg.old.edges hart ≡ [] }
    requires inputs { inputs_of leg.old.inputs hart ≡ [] }
    requires marks { length leg.old.marks ≡ length leg.old.base }
    ensures term { leg.new.term ≡ leg.old.term }
    ensures base { leg.new.base ≡ leg.old.base }
    ensures ends { leg.new.ends ≡ leg.old.ends }
    ensures taken { OnOk result (TakesHart store.now hart leg.old leg.new) }
{
    let end = leg.ends.count_of(hart);
    let mut at = leg.base.get(hart);
    for place in 0..=u32::MAX {
        let key = Key {
            term: leg.term,
            hart,
            place,
        };
        let Some(piece) = piece_from(store, key, at) else {
            break;
        };
        add_edges(&mut leg.edges, piece, 0, end, &leg.base)?;
        add_inputs(&mut leg.inputs, piece, 0, end)?;
        add_notes(&mut leg.marks, piece, 0, end);
        at = piece.to();
    }
    Ok(())
}
