//! The outputs that were noted as released.

ghost use Rattle.std.specs.Prelude.{◌≡◌, ◌≢◌, ℕ, ◌≤◌, ◌<◌, ◌-◌, ◌↔◌, ◌++◌, List, [], ◌∷◌, All, Contains, false, length, replicate, IsTrue, IsOk, IfOk, OnOk, OnErr, IfSome, IfNone};
ghost use Rattle.std.specs.Prelude.{vec_len, vec_capacity};
ghost use Rattle.ft_types.specs.Counts.{count_at};
ghost use Rattle.input_log.specs.Notes.{NotesOfOne, notes_of, nothing_noted, HasRoom, noted, AreNotes, NotesMore};

use crate::Note;
use crate::note_row::{NoteRow, notes_more};
use ft_types::{Count, Counts, HART_ROW, Hart, Memory};
use std::alloc::Global;
use std::marker::Model;
use std::option::Option;
use std::result::Result;

/// The notes of the harts of one machine.
///
/// Contracts see, for each hart, the list of its notes, each a count and a number, both rising, and whether one more takes no memory.
#[derive(Drop)]
pub struct NoteLog {
    // Of each hart up to the last one that has a note, or room for one.
    rows: Vec<NoteRow>,
}

impl Model for NoteLog {
    ghost use Rattle.std.specs.Prelude.{List};
    ghost use Rattle.input_log.specs.Notes.{NotesOfOne};

    ghost Value = { List NotesOfOne };

    ghost view = { λ l. l.rows.items };
}

/// The notes of a hart: none where there is no row of it.
fn notes_in(rows: &[NoteRow], hart: usize) -> &[(Count, u64)]
    ensures value { result.now ≡ notes_of rows.now hart }
    ensures rules { AreNotes result.now }
{
    match rows.get(hart) {
        Some(row) => row.notes(),
        None => &[],
    }
}

/// Empty rows are added until there are so many: there is room for them.
fn add_rows(rows: &mut Vec<NoteRow>, many: usize)
    requires { many ≤ vec_capacity rows.old }
    ensures more { rows.new.items ≡ rows.old.items ++ replicate (many - vec_len rows.old) nothing_noted }
    ensures room { vec_capacity rows.new ≡ vec_capacity rows.old }
{
    for _more in rows.len()..many {
        let alloc = *rows.allocator();
        rows.push_reserved(NoteRow::new(alloc));
    }
}

fn rows_note_more(rows: &[NoteRow], settled: &Counts, before: &[NoteRow]) -> bool
    ensures { IsTrue result ↔ ((hart : ℕ) → NotesMore (notes_of before.now hart) (count_at settled.now hart) (notes_of rows.now hart)) }
{
    for hart in 0..rows.len().max(before.len()) {
        if !notes_more(
            notes_in(before, hart),
            settled.as_slice().get(hart).copied().unwrap_or(0),
            notes_in(rows, hart),
        ) {
            return false;
        }
    }
    true
}

impl NoteLog {
    /// A log without notes.
    pub fn new(alloc: Global) -> NoteLog
        ensures { (hart : ℕ) → notes_of result hart ≡ [] }
    {
        NoteLog {
            rows: Vec::new(alloc),
        }
    }

    /// An equal log.
    pub fn copy(&self) -> Result<NoteLog, Memory>
        ensures { IfOk result (λ log. log ≡ self.now) }
    {
        let mut rows = Vec::new(*self.rows.allocator());
        rows.reserve(self.rows.len())?;
        for row in &self.rows {
            rows.push_reserved(row.copy()?);
        }
        Ok(NoteLog { rows })
    }

    /// Whether it goes on from the other log, when the harts had settled these counts: each hart has the other's notes of earlier counts
    /// and none beside, and no number of them is forgotten.
    pub fn adds_later(&self, settled: &Counts, before: &NoteLog) -> bool
        ensures { IsTrue result ↔ ((hart : ℕ) → NotesMore (notes_of before.now hart) (count_at settled.now hart) (notes_of self.now hart)) }
    {
        rows_note_more(self.rows.as_slice(), settled, before.rows.as_slice())
    }

    /// All notes of a hart, each a count and a number.
    pub fn of_hart(&self, hart: Hart) -> &[(Count, u64)]
        ensures value { result.now ≡ notes_of self.now hart }
        ensures rules { AreNotes result.now }
    {
        notes_in(self.rows.as_slice(), hart.index())
    }

    /// The number that is noted of a hart at a count: outputs with lower numbers were released.
    pub fn at(&self, hart: Hart, count: Count) -> Option<u64>
        ensures some { IfSome result (λ number. Contains (notes_of self.now hart) (count, number)) }
        ensures none { IfNone result (All (λ x. x.0 ≢ count) (notes_of self.now hart)) }
    {
        match self.rows.get(hart.index()) {
            Some(row) => row.at(count),
            None => None,
        }
    }

    /// Adds a note: it is dropped where its number is not above that of its hart's last, and takes the place of one at the same count.
    pub fn add(&mut self, note: Note) -> Result<(), Memory>
        requires last { All (λ x. x.0 ≤ note.at) (notes_of self.old note.hart) }
        requires within { note.number ≤ note.at }
        ensures noted { OnOk result (notes_of self.new note.hart ≡ noted (notes_of self.old note.hart) note.at note.number) }
        ensures others_kept { (other : ℕ) → other ≢ note.hart → notes_of self.new other ≡ notes_of self.old other }
        // Where there is room for it, it takes no memory, and the others' room stays.
        ensures room { HasRoom self.old note.hart → IsOk result }
        ensures others_room { (other : ℕ) → other ≢ note.hart → HasRoom self.old other → HasRoom self.new other }
        ensures err { OnErr result (self.new ≡ self.old) }
    {
        let index = note.hart.index();
        if index < self.rows.len() {
            return self.rows[index].add(note.at, note.number);
        }
        let mut row = NoteRow::new(*self.rows.allocator());
        row.add(note.at, note.number)?;
        self.rows.reserve(index + 1 - self.rows.len())?;
        add_rows(&mut self.rows, index);
        self.rows.push_reserved(row);
        Ok(())
    }

    /// Makes room for one note of each hart.
    pub fn room(&mut self) -> Result<(), Memory>
        ensures same { (hart : ℕ) → notes_of self.new hart ≡ notes_of self.old hart }
        ensures room { OnOk result ((hart : ℕ) → hart < HART_ROW → HasRoom self.new hart) }
    {
        self.rows.reserve(HART_ROW.saturating_sub(self.rows.len()))?;
        add_rows(&mut self.rows, HART_ROW);
        for hart in 0..self.rows.len() {
            self.rows[hart].room()?;
        }
        Ok(())
    }
}
