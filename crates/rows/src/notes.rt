//! Logs of notes. What memory is refused once is asked for once more, of a log that must be as it was.

ghost use Rattle.std.specs.Prelude.{◌≤◌, All, IsTrue};

use crate::tables::{all_right, is_count, number, row, word};
use ft_types::{Count, Counts, Hart, Memory};
use input_log::{Note, NoteLog};
use std::alloc::Global;

fn ends_by(notes: &[(Count, u64)], count: Count) -> bool
    ensures { IsTrue result → All (λ x. x.0 ≤ count) notes.now }
{
    for note in notes {
        if note.0 > count {
            return false;
        }
    }
    true
}

fn add(log: &mut NoteLog, at: Count, number: u64) -> Result<bool, Memory> {
    let hart = Hart::new(1);
    if number > at || !ends_by(log.of_hart(hart), at) {
        return Ok(false);
    }
    log.add(Note { hart, at, number })?;
    Ok(true)
}

fn number_at(log: &NoteLog, count: Count) -> Option<u64> {
    log.at(Hart::new(1), count)
}

/// Whether these are the counts and numbers of all notes, of which hart 0 has none.
fn has(log: &NoteLog, notes: &str) -> bool {
    let mut rest = notes;
    for (at, noted) in log.of_hart(Hart::new(1)) {
        let (first, behind) = word(rest);
        let (second, behind) = word(behind);
        if *at != number(first) || *noted != number(second) {
            return false;
        }
        rest = behind;
    }
    rest.is_empty() && log.of_hart(Hart::new(0)).is_empty()
}

fn make_room(log: &mut NoteLog) -> Result<bool, Memory> {
    log.room()?;
    Ok(true)
}

fn become_copy(log: &mut NoteLog) -> Result<bool, Memory> {
    let copy = log.copy()?;
    let mut settled = Counts::zero(2);
    settled.set(Hart::new(1), 9);
    let more = copy.adds_later(&settled, log);
    *log = copy;
    Ok(more)
}

/// Whether one call of a log for hart 1 answers so: `add COUNT NUMBER`, where that is at no count before the last; `at COUNT`; `has`, for
/// all notes; `room`, which is made; and `copy`, of which the next calls are.
fn does(log: &mut NoteLog, asked: &str, answer: &str) -> Result<bool, Memory> {
    let (call, behind) = word(asked);
    let (first, last) = word(behind);
    match call {
        "add" => add(log, number(first), number(last)),
        "at" => Ok(is_count(number_at(log, number(first)), answer)),
        "has" => Ok(has(log, answer)),
        "room" => make_room(log),
        _ => become_copy(log),
    }
}

/// The first call of a new log that answers otherwise.
fn first_wrong(alloc: Global, calls: &'static str) -> Result<Option<&'static str>, Memory> {
    let mut log = NoteLog::new(alloc);
    for line in calls.lines() {
        let (asked, answer) = row(line);
        let right = match does(&mut log, asked, answer) {
            Ok(right) => right,
            Err(Memory) => does(&mut log, asked, answer)?,
        };
        if !right {
            return Ok(Some(line));
        }
    }
    Ok(None)
}

/// A note that is not above the last is dropped, and a greater one at the same count takes its place.
static NOTED: &str = "\
has|
at 3|none
add 3 1|
add 3 1|
has|3 1
add 5 1|
at 5|none
add 5 2|
room|
add 5 4|
copy|
has|3 1 5 4
add 9 3|
add 9 9|
has|3 1 5 4 9 9
at 5|4
at 4|none
";

#[test]
fn notes_of_a_hart(rt: HostRuntime) -> Result<(), Memory> {
    all_right(&rt, first_wrong(rt.alloc(), NOTED)?);
    Ok(())
}
