//! What went out is noted in the primary's log.

ghost use Rattle.std.specs.Prelude.{◌≡◌, ◌<◌, ◌+◌, Some, IfSome, length, slice_get};
ghost use Rattle.ft_types.specs.declared.output.Output.{Output as OutputRecord};
ghost use Rattle.rv32_hart.specs.Hart.{Hart as HartRecord};
ghost use Rattle.page_book.specs.Tellings.{OnlyNotes};
ghost use Rattle.pair.specs.Released.{NotesUpTo};

use crate::messages::{Went, send};
use crossbeam_channel::{Receiver, Sender};
use ft_types::Hart;
use guest_image::Machine;
use output_gate::Output;
use page_book::{Book, Recording};
use std::alloc::Global;
use std::option::Option;
use std::result::Result;
use std::sync::Wait;

/// What is told of the output at this place, where the one behind it is not its hart's too: that it went out.
fn told_of(released: &[Output], place: usize) -> Option<Went>
    requires { place < length released.now }
    ensures { IfSome result (λ went. (o : OutputRecord) → slice_get released.now place ≡ Some o → (went.hart ≡ o.hart) × (went.last ≡ o.number)) }
{
    let Output { hart, number, .. } = released[place];
    if place + 1 < released.len() && released[place + 1].hart == hart {
        return None;
    }
    Some(Went { hart, last: number })
}

/// Tells the primary which of the outputs from this place on went out, by hart and number: of each hart the last one. What finds no
/// memory is left out.
pub(crate) fn tell_out<R: Wait>(
    rt: &R,
    primary: &Sender<Went, Global>,
    released: &[Output],
    from: usize,
) {
    for place in from..released.len() {
        if let Some(went) = told_of(released, place) {
            let _told = send(rt, primary, went);
        }
    }
}

/// How many outputs the hart has.
fn outputs_of(machine: &Machine, hart: Hart) -> u64
    requires { hart < length machine.now.harts }
    ensures { (h : HartRecord) → slice_get machine.now.harts hart ≡ Some h → result ≡ length h.outputs }
{
    machine.hart(hart).outputs().len() as u64
}

/// Notes how far a hart's outputs went out. A note for which there is no memory is left out.
fn note(book: &mut Book<Recording>, went: Went)
    ensures only { OnlyNotes book.old book.new }
    ensures told { NotesUpTo book.old went.hart (went.last + 1) book.new }
{
    let Went { hart, last } = went;
    if hart.index() >= usize::from(book.machine().harts()) {
        return;
    }
    if last >= outputs_of(book.machine(), hart) {
        return;
    }
    let _noted = book.note_released(hart, last + 1);
}

/// Notes what the gate has told by now.
pub(crate) fn note_out<R: Wait>(rt: &R, gate: &Receiver<Went, Global>, book: &mut Book<Recording>)
    ensures { OnlyNotes book.old book.new }
{
    for _more in 0..gate.len() {
        let Ok(went) = gate.try_recv(rt) else {
            break;
        };
        note(book, went);
    }
}
