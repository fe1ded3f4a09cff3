//! The notes of one hart.

ghost use Rattle.std.specs.Prelude.{◌≡◌, ◌≢◌, ℕ, ◌<◌, ◌≤◌, ◌↔◌, ◌++◌, List, [], ◌∷◌, All, Contains, filter, nat_lt, length, vec_len, vec_capacity, true, false, IsTrue};
ghost use Rattle.std.specs.Prelude.{IsOk, IfOk, OnOk, OnErr, IfSome, IfNone};
ghost use Rattle.std.specs.List.{AllWithin};
ghost use Rattle.std.specs.List.Sorted.{IsNonDecreasingBy};
ghost use Rattle.input_log.specs.Notes.{greatest, noted, AreNotes, NotesMore};

use ft_types::{Count, Memory};
use std::alloc::Global;
use std::marker::Model;
use std::option::Option;
use std::result::Result;

/// The notes of one hart, by rising count and number.
#[derive(Drop)]
pub(crate) struct NoteRow {
    // The count and the number of each.
    notes: Vec<(Count, u64)>,
    // Whether one more takes no memory.
    spare: bool,
}

impl Model for NoteRow {
    ghost use Rattle.std.specs.Prelude.{vec_len, vec_capacity};
    ghost use Rattle.input_log.specs.Notes.{NotesOfOne, AreNotes, IsSpare};

    ghost Value = { NotesOfOne };

    ghost view = { λ r. record { notes = r.notes.items; spare = r.spare } };

    ghost invariant = { λ r. AreNotes r.notes.items × IsSpare r.spare (vec_len r.notes) (vec_capacity r.notes) };
}

/// Where the notes of this count and later ones begin.
fn first_from(notes: &[(Count, u64)], count: Count) -> usize
    requires { IsNonDecreasingBy (λ x. x.0) notes.now }
    ensures within { result ≤ length notes.now }
    ensures before { AllWithin (λ x. x.0 < count) notes.now 0 result }
    ensures from { AllWithin (λ x. count ≤ x.0) notes.now result (length notes.now) }
{
    notes.partition_point(|note| note.0 < count)
}

/// The notes of earlier counts.
fn notes_below(notes: &[(Count, u64)], count: Count) -> &[(Count, u64)]
    requires { AreNotes notes.now }
    ensures { result.now ≡ filter (λ x. nat_lt x.0 count) notes.now }
{
    &notes[..first_from(notes, count)]
}

fn same_notes(notes: &[(Count, u64)], others: &[(Count, u64)]) -> bool
    ensures { IsTrue result ↔ (notes.now ≡ others.now) }
{
    notes == others
}

fn notes_copied(notes: &Vec<(Count, u64)>) -> Result<Vec<(Count, u64)>, Memory>
    ensures { IfOk result (λ copied. copied.items ≡ notes.now.items) }
{
    Ok(notes.clone()?)
}

/// The number of the last note, 0 where there is none.
fn last_number(notes: &[(Count, u64)]) -> u64
    requires { AreNotes notes.now }
    ensures { result ≡ greatest notes.now }
{
    if notes.len() == 0 {
        return 0;
    }
    notes[notes.len() - 1].1
}

/// Whether the last note, which is of no later count, is of this one.
fn ends_at(notes: &[(Count, u64)], count: Count) -> bool
    requires rules { AreNotes notes.now }
    requires last { All (λ x. x.0 ≤ count) notes.now }
    ensures ends { result ≡ true → (front : List (ℕ × ℕ)) × (n : ℕ) × (notes.now ≡ front ++ (count, n) ∷ []) }
    ensures before { result ≡ false → All (λ x. x.0 < count) notes.now }
{
    if notes.len() == 0 {
        return false;
    }
    notes[notes.len() - 1].0 == count
}

/// Whether these notes have the others of earlier counts and none beside, and none of their numbers is forgotten.
pub(crate) fn notes_more(before: &[(Count, u64)], count: Count, notes: &[(Count, u64)]) -> bool
    requires before { AreNotes before.now }
    requires rules { AreNotes notes.now }
    ensures { IsTrue result ↔ NotesMore before.now count notes.now }
{
    same_notes(notes_below(notes, count), notes_below(before, count))
        && last_number(before) <= last_number(notes)
}

impl NoteRow {
    /// A row without notes.
    pub(crate) fn new(alloc: Global) -> NoteRow
        ensures notes { result.notes ≡ [] }
        ensures spare { result.spare ≡ false }
    {
        NoteRow {
            notes: Vec::new(alloc),
            spare: false,
        }
    }

    /// An equal row.
    pub(crate) fn copy(&self) -> Result<NoteRow, Memory>
        ensures { IfOk result (λ r. r ≡ self.now) }
    {
        let mut notes = notes_copied(&self.notes)?;
        if self.spare {
            notes.reserve(1)?;
        }
        Ok(NoteRow {
            notes,
            spare: self.spare,
        })
    }

    /// All notes.
    pub(crate) fn notes(&self) -> &[(Count, u64)]
        ensures value { result.now ≡ self.now.notes }
        ensures rules { AreNotes result.now }
    {
        self.notes.as_slice()
    }

    /// The number that is noted at a count.
    pub(crate) fn at(&self, count: Count) -> Option<u64>
        ensures some { IfSome result (λ number. Contains self.now.notes (count, number)) }
        ensures none { IfNone result (All (λ x. x.0 ≢ count) self.now.notes) }
    {
        let notes = self.notes.as_slice();
        let place = first_from(notes, count);
        if place == notes.len() || notes[place].0 != count {
            return None;
        }
        Some(notes[place].1)
    }

    /// Adds a note whose count is not below the others'. It takes no memory where one more takes none.
    pub(crate) fn add(&mut self, at: Count, number: u64) -> Result<(), Memory>
        requires last { All (λ x. x.0 ≤ at) self.old.notes }
        requires within { number ≤ at }
        ensures noted { OnOk result (self.new.notes ≡ noted self.old.notes at number) }
        ensures room { self.old.spare ≡ true → IsOk result }
        ensures err { OnErr result (self.new ≡ self.old) }
    {
        if number <= last_number(self.notes.as_slice()) {
            return Ok(());
        }
        if ends_at(self.notes.as_slice(), at) {
            let last = self.notes.len() - 1;
            self.notes[last] = (at, number);
            return Ok(());
        }
        self.notes.push((at, number))?;
        self.spare = false;
        Ok(())
    }

    /// From then on one more takes no memory.
    pub(crate) fn room(&mut self) -> Result<(), Memory>
        ensures notes { self.new.notes ≡ self.old.notes }
        ensures room { OnOk result (self.new.spare ≡ true) }
        ensures err { OnErr result (self.new ≡ self.old) }
    {
        self.notes.reserve(1)?;
        self.spare = true;
        Ok(())
    }
}
