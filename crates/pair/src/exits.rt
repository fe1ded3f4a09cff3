//! The gate's work: outputs are offered to it, and at each look those that enough keepers hold go out.

ghost use Rattle.std.specs.Prelude.{◌≡◌, ◌↔◌, ◌++◌, ◌<◌, ℕ, List, slice_index, IfOk, IsTrue, OnOk};
ghost use Rattle.std.specs.List.{AllByRecursion};
ghost use Rattle.ft_types.specs.declared.names.TheConstants.{HART_LIMIT};
ghost use Rattle.ack_core.specs.Seats.{harts_of, keepers_of, seen};
ghost use Rattle.output_gate.specs.Gates.{noted_at, held_outputs};
ghost use Rattle.output_gate.specs.Looks.{IsInside};
ghost use Rattle.pair.specs.Exits.{AreLast, AreLonger, AreTakenIn, IsAtBoard, IsNext, IsTakenIn, TakesIn};
ghost use Rattle.pair.specs.declared.messages.ToGate.TheVariants.{End};

use crate::messages::ToGate;
use ack_core::{Board, GateSeat};
use ft_types::{Count, HART_ROW, Memory};
use output_gate::{Gate, Output};
use std::alloc::Global;
use std::result::Result;

/// Of each hart, the step of its last output that was offered, or 0.
pub(crate) type LastSteps = [Count; HART_ROW];

/// No output yet.
pub(crate) fn no_steps() -> LastSteps
    ensures { (hart : ℕ) → hart < HART_LIMIT → slice_index result hart ≡ 0 }
{
    [0; HART_ROW]
}

/// Whether the output is its hart's next, of no earlier step than the last.
fn is_next(gate: &Gate, last: &LastSteps, output: &Output) -> bool
    requires { AreLast gate.now last.now }
    ensures { IsTrue result ↔ IsNext gate.now output.now }
{
    gate.offered(output.hart) as u64 == output.number && last[output.hart.index()] <= output.step
}

/// Offers an output to the gate, where it is its hart's next.
fn offer(gate: &mut Gate, last: &mut LastSteps, output: Output) -> Result<(), Memory>
    requires { AreLast gate.old last.old }
    ensures offered { OnOk result (IsTakenIn gate.old output gate.new) }
    ensures last { OnOk result (AreLast gate.new last.new) }
    ensures rest { gate.new ≡ record gate.old { lines = gate.new.lines } }
{
    if is_next(gate, last, &output) {
        gate.offer(output)?;
        last[output.hart.index()] = output.step;
    }
    Ok(())
}

/// Offers outputs to the gate, one after the other.
fn offer_all(gate: &mut Gate, last: &mut LastSteps, outputs: Vec<Output>) -> Result<(), Memory>
    requires { AreLast gate.old last.old }
    ensures offered { OnOk result (AreTakenIn gate.old outputs.items gate.new) }
    ensures last { OnOk result (AreLast gate.new last.new) }
    ensures rest { gate.new ≡ record gate.old { lines = gate.new.lines } }
{
    for output in outputs {
        offer(gate, last, output)?;
    }
    Ok(())
}

/// Takes a message, and says whether it is the primary's last.
pub(crate) fn take_in(
    gate: &mut Gate,
    last: &mut LastSteps,
    message: ToGate,
) -> Result<bool, Memory>
    requires { AreLast gate.old last.old }
    ensures taken { OnOk result (TakesIn gate.old message gate.new) }
    ensures end { IfOk result (λ is_end. IsTrue is_end ↔ (message ≡ End)) }
    ensures last { OnOk result (AreLast gate.new last.new) }
    ensures rest { gate.new ≡ record gate.old { lines = gate.new.lines } }
{
    match message {
        ToGate::Offers(outputs) => {
            offer_all(gate, last, outputs)?;
            Ok(false)
        }
        ToGate::Published => Ok(false),
        ToGate::End => Ok(true),
    }
}

/// Looks at every word of the board, and adds what then goes out.
pub(crate) fn look_on(
    alloc: Global,
    board: &Board,
    gate: &mut Gate,
    seat: &mut GateSeat,
    released: &mut Vec<Output>,
) -> Result<(), Memory>
    requires { IsAtBoard board.now gate.old seat.old }
    ensures place { IsAtBoard board.now gate.new seat.new }
    ensures noted { (keeper hart : ℕ) → keeper < keepers_of board.now → hart < harts_of board.now →
        noted_at gate.new keeper hart ≡ seen seat.new keeper hart }
    ensures heard { AreLonger board.now seat.old seat.new }
    ensures need { gate.new.need ≡ gate.old.need }
    ensures released { OnOk result (released.new.items ≡ released.old.items ++ held_outputs gate.new.need gate.new.noted gate.old.lines) }
    // Each was counted above its step by as many keepers as it needs.
    ensures inside { OnOk result (AllByRecursion (IsInside board.now gate.new seat.new) (held_outputs gate.new.need gate.new.noted gate.old.lines)) }
    ensures last { OnOk result ((steps : List ℕ) → AreLast gate.old steps → AreLast gate.new steps) }
{
    let given = gate.look(alloc, board, seat)?;
    released.extend_from_slice(&given)?;
    Ok(())
}

/// The last look, behind which nothing goes out: the gate as it is left, and all that went out.
pub(crate) fn close(
    alloc: Global,
    board: &Board,
    gate: Gate,
    seat: GateSeat,
    released: Vec<Output>,
) -> Result<(Gate, GateSeat, Vec<Output>), Memory>
    requires { IsAtBoard board.now gate seat }
    ensures place { IfOk result (λ r. IsAtBoard board.now r.0 r.1) }
    ensures noted { IfOk result (λ r. (keeper hart : ℕ) → keeper < keepers_of board.now → hart < harts_of board.now →
        noted_at r.0 keeper hart ≡ seen r.1 keeper hart) }
    ensures heard { IfOk result (λ r. AreLonger board.now seat r.1) }
    ensures need { IfOk result (λ r. r.0.need ≡ gate.need) }
    ensures released { IfOk result (λ r. r.2.items ≡ released.items ++ held_outputs r.0.need r.0.noted gate.lines) }
    ensures inside { IfOk result (λ r. AllByRecursion (IsInside board.now r.0 r.1) (held_outputs r.0.need r.0.noted gate.lines)) }
{
    let mut gate = gate;
    let mut seat = seat;
    let mut released = released;
    look_on(alloc, board, &mut gate, &mut seat, &mut released)?;
    Ok((gate, seat, released))
}
