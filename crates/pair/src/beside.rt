//! What went out, beside what a book notes of it.

ghost use Rattle.std.specs.Prelude.{◌≡◌, ◌<◌, ◌≤◌, ℕ, Contains, IsTrue, filter, slice_index, IfOk};
ghost use Rattle.primary.specs.Outputs.{outputs_in};
ghost use Rattle.pair.specs.Released.{AreNotesOut, HasGoneOut, is_among};

use crate::released::released_in;
use ft_types::{Count, HART_ROW, Hart, Memory};
use output_gate::Output;
use page_book::{Book, Recording};
use std::alloc::Global;
use std::result::Result;

/// Of each hart, how many of its first outputs are among these, which stand by rising number.
pub(crate) fn first_ones(released: &[Output]) -> [u64; HART_ROW]
    ensures { (hart number : ℕ) → number < slice_index result hart → HasGoneOut released.now hart number }
{
    let mut many = [0; HART_ROW];
    for output in released {
        let hart = output.hart.index();
        if output.number == many[hart] {
            many[hart] = output.number.saturating_add(1);
        }
    }
    many
}

/// Whether each of these notes tells of so many outputs at the most.
fn tell_at_most(notes: &[(Count, u64)], many: u64) -> bool
    ensures { IsTrue result → (note : ℕ × ℕ) → Contains notes.now note → note.1 ≤ many }
{
    for note in notes {
        if note.1 > many {
            return false;
        }
    }
    true
}

/// Whether all went out that the book notes.
fn are_notes_out(book: &Book<Recording>, released: &[Output]) -> bool
    ensures { IsTrue result → AreNotesOut book.now released.now }
{
    let many = first_ones(released);
    for number in 0..book.machine().harts() {
        let hart = Hart::new(number);
        if !tell_at_most(book.notes().of_hart(hart), many[hart.index()]) {
            return false;
        }
    }
    true
}

/// Those outputs of the book's machine that the gate gave. A book that notes any other is given up, as where memory is refused: what it notes does not go out
/// in a later term.
pub(crate) fn released_of(
    alloc: Global,
    book: &Book<Recording>,
    given: &[Output],
) -> Result<Vec<Output>, Memory>
    ensures released { IfOk result (λ released. released.items ≡ filter (is_among given.now) (outputs_in book.now.machine)) }
    ensures noted { IfOk result (λ released. AreNotesOut book.now released.items) }
{
    let released = released_in(alloc, book.machine(), given)?;
    if !are_notes_out(book, &released) {
        return Err(Memory);
    }
    Ok(released)
}
