//! Which outputs went out, noted in a book.

ghost use Rattle.std.specs.Prelude.{◌≡◌, ◌<◌, ℕ, All, length, Some, None, IfSome, IfNone};
ghost use Rattle.ft_types.specs.declared.names.TheConstants.{HART_ROW as rows};
ghost use Rattle.input_log.specs.Notes.{HasRoom};
ghost use Rattle.primary.specs.Outputs.{said_at};
ghost use Rattle.primary.specs.Noting.{last_of as last_among, NotesOne, NotesAll};

use ft_types::Hart;
use output_gate::Output;
use page_book::{Book, Recording};

/// The number of the last of the outputs that is the hart's.
fn last_of(given: &[Output], hart: Hart) -> Option<u64>
    ensures value { result ≡ last_among hart given.now }
    ensures some { IfSome result (λ last. last_among hart given.now ≡ Some last) }
    ensures none { IfNone result (last_among hart given.now ≡ None) }
{
    let mut last = None;
    for output in given {
        if output.hart == hart {
            last = Some(output.number);
        }
    }
    last
}

/// Notes at the hart's count which of these outputs of the machine went out, where one of the hart's did. There is room, so it takes no
/// memory.
fn note_hart(book: &mut Book<Recording>, hart: Hart, given: &[Output])
    requires hart { hart < length book.old.machine.harts }
    requires room { HasRoom book.old.mode.notes hart }
    requires said { All (λ o. o.number < length (said_at book.old.machine o.hart)) given.now }
    ensures { NotesOne hart given.now book.old book.new }
{
    let Some(last) = last_of(given, hart) else {
        return;
    };
    // proof: the last one's number is below how many outputs the hart has.
    let _outputs = book.machine().hart(hart).outputs();
    let _noted = book.note_released(hart, last + 1);
}

/// Notes at each hart's count which of these outputs of the machine went out. There is room, so it takes no memory.
pub(crate) fn note_all(book: &mut Book<Recording>, given: &[Output])
    requires room { (hart : ℕ) → hart < rows → HasRoom book.old.mode.notes hart }
    requires said { All (λ o. o.number < length (said_at book.old.machine o.hart)) given.now }
    ensures { NotesAll given.now book.old book.new }
{
    for number in 0..book.machine().harts() {
        note_hart(book, Hart::new(number), given);
    }
}
