//! What a machine has put out, in all and since it was last asked.

ghost use Rattle.std.specs.Prelude.{◌≡◌, ◌+◌, ◌++◌, ◌<◌, ◌^◌, ℕ, Some, drop, length, slice_get, slice_index, IfOk, OnOk};
ghost use Rattle.rv32_hart.specs.Hart.{Hart as HartRecord};
ghost use Rattle.primary.specs.Outputs.{numbered_from, outputs_in, outputs_since as since};

use ft_types::{Count, HART_ROW, Hart, Memory, Output};
use guest_image::Machine;
use std::alloc::Global;
use std::result::Result;

/// Adds outputs of a hart, the first of which has this number.
fn add_outputs(
    hart: Hart,
    first: usize,
    said: &[(Count, u32)],
    outputs: &mut Vec<Output>,
) -> Result<(), Memory>
    requires { first + length said.now < 2 ^ 64 }
    ensures { OnOk result (outputs.new.items ≡ outputs.old.items ++ numbered_from hart first said.now) }
{
    for (index, (step, word)) in said.iter().enumerate() {
        outputs.push(Output {
            hart,
            number: (first + index) as u64,
            step: *step,
            word: *word,
        })?;
    }
    Ok(())
}

/// The outputs of a hart behind those that were told.
fn untold(said: &[(Count, u32)], told: usize) -> &[(Count, u32)]
    ensures { result.now ≡ drop told said.now }
{
    &said[told.min(said.len())..]
}

/// Adds the outputs of a hart, but for so many of each hart that were told.
fn add_untold(
    hart: Hart,
    told: &[usize; HART_ROW],
    said: &[(Count, u32)],
    outputs: &mut Vec<Output>,
) -> Result<(), Memory>
    ensures { OnOk result (outputs.new.items ≡ outputs.old.items
        ++ numbered_from hart (slice_index told.now hart) (drop (slice_index told.now hart) said.now)) }
{
    let first = told[hart.index()];
    add_outputs(hart, first, untold(said, first), outputs)
}

/// The outputs of all harts, by hart and number, but for so many of each that were told.
pub fn outputs_since(
    alloc: Global,
    machine: &Machine,
    told: &[usize; HART_ROW],
) -> Result<Vec<Output>, Memory>
    ensures { IfOk result (λ outputs. outputs.items ≡ since told.now machine.now) }
{
    let mut outputs = Vec::new(alloc);
    for number in 0..machine.harts() {
        let hart = Hart::new(number);
        add_untold(hart, told, machine.hart(hart).outputs(), &mut outputs)?;
    }
    Ok(outputs)
}

/// None told, of each hart.
fn none_told() -> [usize; HART_ROW]
    ensures { (hart : ℕ) → slice_index result hart ≡ 0 }
{
    [0; HART_ROW]
}

/// The outputs of all harts, by hart and number.
pub fn all_outputs(alloc: Global, machine: &Machine) -> Result<Vec<Output>, Memory>
    ensures { IfOk result (λ outputs. outputs.items ≡ outputs_in machine.now) }
{
    outputs_since(alloc, machine, &none_told())
}

/// How many outputs each hart has.
pub fn outputs_told(machine: &Machine) -> [usize; HART_ROW]
    ensures { (hart : ℕ) (h : HartRecord) → slice_get machine.now.harts hart ≡ Some h → slice_index result hart ≡ length h.outputs }
{
    let mut told = [0usize; HART_ROW];
    for number in 0..machine.harts() {
        let hart = Hart::new(number);
        told[hart.index()] = machine.hart(hart).outputs().len();
    }
    told
}
