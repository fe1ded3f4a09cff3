//! In which order outputs go out.

ghost use Rattle.std.specs.Prelude.{ℕ, ◌<◌};
ghost use Rattle.ft_types.specs.declared.names.TheConstants.{HART_LIMIT};
ghost use Rattle.output_gate.specs.Gates.{gone_of, waiting_of, offered_of};
ghost use Rattle.output_gate.specs.Orders.{AreInLine, NoneIsBefore, StepsRise};

use crate::gate::Gate;

/// Whatever calls led to a gate, the outputs of a hart whose steps rise went out in the order of their numbers and steps, and none
/// that still waits comes before one that went out.
pub fn outputs_go_in_order(gate: &Gate)
    ensures gone { (hart : ℕ) → hart < HART_LIMIT → StepsRise (offered_of gate.now hart) → AreInLine (gone_of gate.now hart) }
    ensures waiting { (hart : ℕ) → hart < HART_LIMIT → StepsRise (offered_of gate.now hart) →
        NoneIsBefore (waiting_of gate.now hart) (gone_of gate.now hart) }
{
    gate.tell_lines();
}
