//! The outputs of a machine, at the gate.

ghost use Rattle.std.specs.Prelude.{◌≡◌, ◌≢◌, ◌≤◌, ◌+◌, ◌++◌, ℕ, length, take, IfOk, OnOk, OnErr, vec_len, vec_capacity};
ghost use Rattle.output_gate.specs.Gates.{line_of, offered_of};
ghost use Rattle.primary.specs.Outputs.{numbered};
ghost use Rattle.primary.specs.Gating.{AreRising, AreOffered, AreAllOffered, OffersMore, IsAsItWas, LetGo, released_in};

use crate::released::Released;
use ft_types::{Count, Hart, Memory, Term};
use guest_image::Machine;
use output_gate::Output;
use std::alloc::Global;
use std::result::Result;
use term_gate::TermGate;

/// Offers a hart's outputs from the one of this number on.
fn offer_hart(gate: &mut TermGate, hart: Hart, outputs: &[(Count, u32)]) -> Result<(), Memory>
    requires { offered_of gate.old.gate hart ≡ take (length (offered_of gate.old.gate hart)) (numbered hart outputs.now) }
    ensures more { OffersMore gate.old gate.new }
    ensures offered { offered_of gate.new.gate hart ≡ take (length (offered_of gate.new.gate hart)) (numbered hart outputs.now) }
    ensures others { (other : ℕ) → other ≢ hart → line_of gate.new.gate other ≡ line_of gate.old.gate other }
    ensures all { OnOk result (offered_of gate.new.gate hart ≡ numbered hart outputs.now) }
{
    for number in gate.offered(hart)..outputs.len() {
        let (step, word) = outputs[number];
        gate.offer(Output {
            hart,
            number: number as u64,
            step,
            word,
        })?;
    }
    Ok(())
}

/// Offers the outputs of the machine that were not offered yet.
pub fn offer_all(gate: &mut TermGate, machine: &Machine) -> Result<(), Memory>
    requires { AreOffered gate.old.gate machine.now }
    ensures more { OffersMore gate.old gate.new }
    ensures offered { AreOffered gate.new.gate machine.now }
    ensures all { OnOk result (AreAllOffered gate.new.gate machine.now) }
{
    for number in 0..machine.harts() {
        let hart = Hart::new(number);
        offer_hart(gate, hart, machine.hart(hart).outputs())?;
    }
    Ok(())
}

/// Adds outputs that go out in a term, for which there is room.
fn add_released(released: &mut Vec<Released>, term: Term, given: &[Output])
    requires { vec_len released.old + length given.now ≤ vec_capacity released.old }
    ensures { released.new.items ≡ released.old.items ++ released_in term given.now }
{
    for output in given {
        released.push_reserved(Released {
            term,
            output: *output,
        });
    }
}

/// All outputs of the machine are offered at the gate, and those go out in the term whose step enough keepers acknowledged: it is these that are
/// returned.
pub fn release_outputs(
    alloc: Global,
    term: Term,
    machine: &Machine,
    gate: &mut TermGate,
    released: &mut Vec<Released>,
) -> Result<Vec<Output>, Memory>
    requires { AreOffered gate.old.gate machine.now }
    ensures goes { IfOk result (λ given. (goes : LetGo term machine.now gate.old released.old.items gate.new released.new.items) × (given.items ≡ goes.given)) }
    ensures was { OnErr result (IsAsItWas gate.old gate.new) }
    ensures none { OnErr result (released.new.items ≡ released.old.items) }
    // In either case:
    ensures rest { gate.new ≡ record gate.old { gate = record gate.old.gate { noted = gate.new.gate.noted; lines = gate.new.gate.lines } } }
    ensures offered { AreRising machine.now → AreOffered gate.new.gate machine.now }
{
    offer_all(gate, machine)?;
    released.reserve(gate.kept())?;
    // proof: how many lines the gate has, before and after.
    let _before = gate.offered(Hart::new(0));
    let given = gate.release(alloc);
    let _after = gate.offered(Hart::new(0));
    let given = given?;
    add_released(released, term, &given);
    Ok(given)
}
