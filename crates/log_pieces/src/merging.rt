//! The edges, inputs and notes of a hart between two counts, as records in their order.

ghost use Rattle.std.specs.Prelude.{◌≡◌, ℕ, ◌<◌, ◌≤◌, ◌++◌, [], ◌∷◌, AllPairs, length, filter, zip, IfOk, OnOk, IfNone, IfSome};
ghost use Rattle.std.specs.List.Sorted.{IsNonDecreasing, IsNonDecreasingBy};
ghost use Rattle.edge_log.specs.EdgeLog.{row_of};
ghost use Rattle.edge_log.specs.Rows.{ComesBefore};
ghost use Rattle.input_log.specs.Inputs.{inputs_of, inputs_at};
ghost use Rattle.input_log.specs.Notes.{notes_of, IsNotedBefore};
ghost use Rattle.ft_types.specs.declared.names.TheConstants.{INPUT_LIMIT};
ghost use Rattle.std.specs.List.{AllByRecursion, filter_map};
ghost use Rattle.fragment_codec.specs.declared.types.Record.TheVariants.{Note as NoteRecord};
ghost use Rattle.fragment_codec.specs.Rules.{AreInOrder, count_of};
ghost use Rattle.fragment_codec.specs.Facts.{note_in, told_by, is_between, facts_between};
ghost use Rattle.log_pieces.specs.Pieces.{AreEdgesOf, AreInputsOf};
ghost use Rattle.log_pieces.specs.machinery.Cutting.{AreLogged, StandBetween, IsFirst};

use edge_log::{Edge, EdgeLog};
use fragment_codec::Record;
use ft_types::{Count, Hart, Memory};
use input_log::{Input, InputLog, NoteLog};
use std::alloc::Global;

/// The edges that stand at one count or later, and below another.
fn edges_between(edges: &[Edge], from: Count, to: Count) -> &[Edge]
    requires { IsNonDecreasingBy (λ e. e.at) edges.now }
    ensures { result.now ≡ filter (λ e. is_between from to e.at) edges.now }
{
    let (_, rest) = edges.split_at(edges.partition_point(|edge| edge.at < from));
    let (part, _) = rest.split_at(rest.partition_point(|edge| edge.at < to));
    part
}

/// The counts of inputs and the inputs, where these counts are at least the one and below the other.
fn inputs_between<'a>(
    counts: &'a [Count],
    inputs: &'a [Input],
    from: Count,
    to: Count,
) -> (&'a [Count], &'a [Input])
    requires rising { IsNonDecreasing counts.now }
    requires paired { length inputs.now ≡ length counts.now }
    ensures value { zip result.0.now result.1.now ≡ filter (λ x. is_between from to x.0) (zip counts.now inputs.now) }
    ensures rising { IsNonDecreasing result.0.now }
    ensures paired { length result.1.now ≡ length result.0.now }
{
    let first = counts.partition_point(|count| *count < from);
    let (_, counts) = counts.split_at(first);
    let (_, inputs) = inputs.split_at(first);
    let end = counts.partition_point(|count| *count < to);
    let (counts, _) = counts.split_at(end);
    let (inputs, _) = inputs.split_at(end);
    (counts, inputs)
}

/// The record that comes first: at one count edges stand before inputs.
fn first_of(edges: &[Edge], counts: &[Count], inputs: &[Input]) -> Option<Record>
    requires { length inputs.now ≡ length counts.now }
    ensures first { IfSome result (IsFirst edges.now counts.now inputs.now) }
    ensures none { IfNone result ((length edges.now ≡ 0) × (length counts.now ≡ 0)) }
{
    if edges.len() > 0 && (counts.len() == 0 || edges[0].at <= counts[0]) {
        Some(Record::Edge(edges[0]))
    } else if counts.len() > 0 {
        Some(Record::Input(counts[0], inputs[0]))
    } else {
        None
    }
}

/// These edges and inputs in one list.
fn merged(
    alloc: Global,
    edges: &[Edge],
    counts: &[Count],
    inputs: &[Input],
) -> Result<Vec<Record>, Memory>
    requires edges { AllPairs ComesBefore edges.now }
    requires counts { IsNonDecreasing counts.now }
    requires paired { length inputs.now ≡ length counts.now }
    ensures told { IfOk result (λ v. told_by v.items ≡ record { edges = edges.now; inputs = zip counts.now inputs.now; notes = [] }) }
    ensures order { IfOk result (λ v. AreInOrder v.items) }
{
    let mut records = Vec::new(alloc);
    let (mut edges_left, mut counts_left, mut inputs_left) = (edges, counts, inputs);
    while let Some(first) = first_of(edges_left, counts_left, inputs_left) {
        match &first {
            Record::Edge(_) => (_, edges_left) = edges_left.split_at(1),
            Record::Input(_, _) => {
                (_, counts_left) = counts_left.split_at(1);
                (_, inputs_left) = inputs_left.split_at(1);
            }
            Record::Note(_, _) => unreachable!(),
        }
        records.push(first)?;
    }
    Ok(records)
}

/// The notes that stand at one count or later, and below another.
fn notes_between(notes: &[(Count, u64)], from: Count, to: Count) -> &[(Count, u64)]
    requires { IsNonDecreasingBy (λ x. x.0) notes.now }
    ensures { result.now ≡ filter (λ x. is_between from to x.0) notes.now }
{
    let (_, rest) = notes.split_at(notes.partition_point(|note| note.0 < from));
    let (part, _) = rest.split_at(rest.partition_point(|note| note.0 < to));
    part
}

/// The records up to a count, and the others.
fn split_upto(records: &[Record], count: Count) -> (&[Record], &[Record])
    requires { AreInOrder records.now }
    ensures whole { result.0.now ++ result.1.now ≡ records.now }
    ensures upto { AllByRecursion (λ r. count_of r ≤ count) result.0.now }
    ensures behind { AllByRecursion (λ r. count < count_of r) result.1.now }
{
    records.split_at(records.partition_point(|fact| fact.count() <= count))
}

/// Adds the records up to a note's count, and the note.
fn add_note(out: &mut Vec<Record>, before: &[Record], note: &(Count, u64)) -> Result<(), Memory>
    ensures { OnOk result (out.new.items ≡ (out.old.items ++ before.now) ++ NoteRecord note.now.0 note.now.1 ∷ []) }
{
    out.extend_from_slice(before)?;
    out.push(Record::Note(note.0, note.1))?;
    Ok(())
}

/// The records with these notes among them, each behind whatever else stands at its count.
fn noted(alloc: Global, records: &[Record], notes: &[(Count, u64)]) -> Result<Vec<Record>, Memory>
    requires order { AreInOrder records.now }
    requires plain { filter_map note_in records.now ≡ [] }
    requires notes { AllPairs IsNotedBefore notes.now }
    ensures told { IfOk result (λ v. told_by v.items ≡ record (told_by records.now) { notes = notes.now }) }
    ensures order { IfOk result (λ v. AreInOrder v.items) }
{
    let mut out = Vec::new(alloc);
    let mut left = records;
    for note in notes {
        let (before, rest) = split_upto(left, note.0);
        add_note(&mut out, before, note)?;
        left = rest;
    }
    out.extend_from_slice(left)?;
    Ok(out)
}

/// The records, with the notes among them where there are any.
fn with_notes(
    alloc: Global,
    records: Vec<Record>,
    notes: &[(Count, u64)],
) -> Result<Vec<Record>, Memory>
    requires order { AreInOrder records.items }
    requires plain { filter_map note_in records.items ≡ [] }
    requires notes { AllPairs IsNotedBefore notes.now }
    ensures told { IfOk result (λ v. told_by v.items ≡ record (told_by records.items) { notes = notes.now }) }
    ensures order { IfOk result (λ v. AreInOrder v.items) }
{
    if notes.is_empty() {
        return Ok(records);
    }
    noted(alloc, &records, notes)
}

/// The edges and inputs of a hart from one count to another, as records.
fn unnoted_between(
    alloc: Global,
    edges: &EdgeLog,
    inputs: &InputLog,
    hart: Hart,
    from: Count,
    to: Count,
) -> Result<Vec<Record>, Memory>
    ensures told { IfOk result (λ v. told_by v.items ≡ facts_between from to (record {
      edges = row_of edges.now hart;
      inputs = inputs_of inputs.now hart;
      notes = [];
    })) }
    ensures order { IfOk result (λ v. AreInOrder v.items) }
    ensures few { (n : ℕ) → length (inputs_at (inputs_of inputs.now hart) n) ≤ INPUT_LIMIT }
{
    let edges = edges_between(edges.of_hart(hart), from, to);
    let (counts, inputs) = inputs.of_hart(hart);
    let (counts, inputs) = inputs_between(counts, inputs, from, to);
    merged(alloc, edges, counts, inputs)
}

/// What the logs say of a hart from one count to another, as records.
pub(crate) fn records_between(
    alloc: Global,
    edges: &EdgeLog,
    inputs: &InputLog,
    notes: &NoteLog,
    hart: Hart,
    from: Count,
    to: Count,
) -> Result<Vec<Record>, Memory>
    ensures told { IfOk result (λ v. told_by v.items ≡ facts_between from to (record {
      edges = row_of edges.now hart;
      inputs = inputs_of inputs.now hart;
      notes = notes_of notes.now hart;
    })) }
    ensures there { IfOk result (λ v. StandBetween from to v.items) }
    ensures logged { IfOk result (λ v. (harts : ℕ) → AreEdgesOf harts edges.now → AreInputsOf harts inputs.now → AreLogged harts hart v.items) }
{
    if to <= from {
        return Ok(Vec::new(alloc));
    }
    let records = unnoted_between(alloc, edges, inputs, hart, from, to)?;
    let notes = notes_between(notes.of_hart(hart), from, to);
    with_notes(alloc, records, notes)
}
