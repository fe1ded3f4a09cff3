//! Which outputs of a machine went out: those that the gate gave, at their numbers.

ghost use Rattle.std.specs.Prelude.{◌≡◌, ◌<◌, ◌++◌, ◌&&◌, ◌==◌, ℕ, Bool, filter, length, slice_index_or, true, IfOk, OnOk};
ghost use Rattle.primary.specs.Outputs.{numbered, outputs_in};
ghost use Rattle.pair.specs.Released.{is_among, is_same, output_at};

use ft_types::{Count, Hart, Memory};
use guest_image::Machine;
use output_gate::Output;
use std::alloc::Global;
use std::result::Result;

/// Whether it is an output of this hart, which said this.
fn is_of(output: &Output, hart: Hart, said: &[(Count, u32)]) -> bool
    ensures inside { result ≡ true → output.now.number < length said.now }
    ensures same { (n : ℕ) → n < length said.now → is_same output.now (output_at hart said.now n) ≡ (result && (output.now.number == n)) }
{
    match said.get(output.number as usize) {
        Some((step, word)) => {
            output.hart.number() == hart.number() && output.step == *step && output.word == *word
        }
        None => false,
    }
}

/// Of each output of a hart, whether it is among those that were given.
fn marks_of(
    alloc: Global,
    hart: Hart,
    said: &[(Count, u32)],
    given: &[Output],
) -> Result<Vec<bool>, Memory>
    ensures each { IfOk result (λ marks. length marks.items ≡ length said.now) }
    ensures marks { IfOk result (λ marks. (n : ℕ) (other : Bool) → n < length said.now →
        slice_index_or marks.items n other ≡ is_among given.now (output_at hart said.now n)) }
{
    let mut marks = vec![in alloc; false; said.len()]?;
    for output in given {
        if is_of(output, hart, said) {
            marks[output.number as usize] = true;
        }
    }
    Ok(marks)
}

/// Adds those outputs of a hart that are among the given ones.
fn add_given(
    alloc: Global,
    hart: Hart,
    said: &[(Count, u32)],
    given: &[Output],
    released: &mut Vec<Output>,
) -> Result<(), Memory>
    ensures { OnOk result (released.new.items ≡ released.old.items ++ filter (is_among given.now) (numbered hart said.now)) }
{
    let marks = marks_of(alloc, hart, said, given)?;
    for (number, (step, word)) in said.iter().enumerate() {
        if marks[number] {
            released.push(Output {
                hart,
                number: number as u64,
                step: *step,
                word: *word,
            })?;
        }
    }
    Ok(())
}

/// Those outputs of a machine that are among the given ones, by hart and number.
pub(crate) fn released_in(
    alloc: Global,
    machine: &Machine,
    given: &[Output],
) -> Result<Vec<Output>, Memory>
    ensures { IfOk result (λ released. released.items ≡ filter (is_among given.now) (outputs_in machine.now)) }
{
    let mut released = Vec::with_capacity(alloc, given.len())?;
    for number in 0..machine.harts() {
        let hart = Hart::new(number);
        add_given(
            alloc,
            hart,
            machine.hart(hart).outputs(),
            given,
            &mut released,
        )?;
    }
    Ok(released)
}
