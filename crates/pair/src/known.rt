//! Whether a primary that goes live knows what went out.

ghost use Rattle.std.specs.Prelude.{◌≡◌, Some, IsTrue, slice_get};
ghost use Rattle.primary.specs.Outputs.{said_at};
ghost use Rattle.pair.specs.Warm.{AreMarksOut, AreSaid};

use crate::beside::first_ones;
use ft_types::{Count, Counts, Hart};
use go_live::Live;
use guest_image::Machine;
use output_gate::Output;

/// Whether the output stands at its number among these, with its step and word.
fn stands_in(said: &[(Count, u32)], output: &Output) -> bool
    ensures { IsTrue result → slice_get said.now output.now.number ≡ Some (output.now.step, output.now.word) }
{
    match said.get(output.number as usize) {
        Some((step, word)) => *step == output.step && *word == output.word,
        None => false,
    }
}

/// Whether it is the machine's.
fn is_said(machine: &Machine, output: &Output) -> bool
    ensures { IsTrue result → slice_get (said_at machine.now output.now.hart) output.now.number ≡ Some (output.now.step, output.now.word) }
{
    if output.hart.number() >= machine.harts() {
        return false;
    }
    stands_in(machine.hart(output.hart).outputs(), output)
}

/// Whether each of these outputs is.
fn are_said(machine: &Machine, released: &[Output]) -> bool
    ensures { IsTrue result → AreSaid machine.now released.now }
{
    for output in released {
        if !is_said(machine, output) {
            return false;
        }
    }
    true
}

/// Whether what is marked is among these outputs.
fn are_marks_out(marks: &Counts, released: &[Output]) -> bool
    ensures { IsTrue result → AreMarksOut marks.now released.now }
{
    let many = first_ones(released);
    for number in 0..marks.harts() {
        let hart = Hart::new(number);
        if marks.get(hart) > many[hart.index()] {
            return false;
        }
    }
    true
}

/// Whether all of these outputs are among those of its machine, and it takes no others for known to be out.
pub(crate) fn knows(live: &Live, released: &[Output]) -> bool
    ensures said { IsTrue result → AreSaid live.now.book.machine released.now }
    ensures marks { IsTrue result → AreMarksOut live.now.marks released.now }
{
    are_said(live.book.machine(), released) && are_marks_out(&live.marks, released)
}
