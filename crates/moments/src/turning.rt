//! Steps of a leg, and from leg to leg.

ghost use Rattle.std.specs.Prelude.{◌≡◌, ◌<◌, ◌≤◌, ◌+◌, ◌^◌, ◌-◌, length, replicate, slice_get, false, Some, IsTrue, OnOk, OnErr};
ghost use Rattle.ft_types.specs.declared.names.TheConstants.{HART_ROW, INPUT_LIMIT};
ghost use Rattle.input_log.specs.Inputs.{inputs_at, inputs_of};
ghost use Rattle.hart_lease.specs.Runs.{counts_of};
ghost use Rattle.hart_replay.specs.declared.plans.PlannedLeg.{PlannedLeg as planned_leg};
ghost use Rattle.plan_lines.specs.Line.{Standing, Leads, IsNext, Steps};
ghost use Rattle.moments.specs.machinery.Machines.{machine_of, standing_of};
ghost use Rattle.plan_lines.specs.machinery.Kept.{AreQuiet, IsLed, IsTurned, QuietAt};

use crate::next::{Stops, are_at_ends, stop_of};
use crate::snapshots::Snapshot;
use ft_types::{HART_ROW, Hart, Memory};
use hart_replay::PlannedLeg;
use input_log::Input;
use rv32_hart::Decoder;
use std::result::Result;

/// No hart is known to be quiet.
pub(crate) fn no_stops() -> Stops
    ensures { result ≡ replicate HART_ROW 0 }
{
    [0; HART_ROW]
}

/// Whether the present leg was led to its end, with another one behind it.
#[inline(always)]
fn is_led(legs: &[PlannedLeg], now: &Snapshot) -> bool
    ensures led { IsTrue result → IsLed legs.now (standing_of now.now) }
    ensures turned { result ≡ false → IsTurned legs.now (standing_of now.now) }
{
    if now.leg >= legs.len().saturating_sub(1) {
        return false;
    }
    are_at_ends(&legs[now.leg], &now.machine)
}

/// Goes on to the leg in which the next step is, where the present one was led to its end.
#[inline(always)]
pub(crate) fn turn(legs: &[PlannedLeg], now: &mut Snapshot, stops: &mut Stops)
    requires quiet { QuietAt legs.now (standing_of now.old) stops.old }
    requires place { now.old.leg ≤ length legs.now - 1 }
    ensures leads { (s : Standing) → Leads legs.now s (standing_of now.old) → Leads legs.now s (standing_of now.new) }
    ensures place { now.new.leg ≤ length legs.now - 1 }
    ensures moment { now.new.moment ≡ now.old.moment }
    ensures machine { machine_of now.new.machine ≡ machine_of now.old.machine }
    ensures turned { IsTurned legs.now (standing_of now.new) }
    ensures quiet { QuietAt legs.now (standing_of now.new) stops.new }
{
    while is_led(legs, now) {
        now.leg += 1;
        *stops = no_stops();
    }
}

/// Takes the step that comes next in the leg, of this hart, on these inputs of it. Memory changes nothing.
#[inline(always)]
fn step_on(
    leg: &PlannedLeg,
    now: &mut Snapshot,
    hart: Hart,
    inputs: &[Input],
    decoder: &mut Decoder,
) -> Result<(), Memory>
    requires hart { hart < length (machine_of now.old.machine).harts }
    requires next { IsNext leg.now (machine_of now.old.machine) hart }
    requires inputs { inputs.now ≡ inputs_at (inputs_of leg.now.inputs hart) (counts_of (machine_of now.old.machine) hart) }
    requires few { length inputs.now ≤ INPUT_LIMIT }
    requires room { now.old.moment < 2 ^ 64 - 1 }
    ensures steps { OnOk result (Steps leg.now (machine_of now.old.machine) hart (machine_of now.new.machine)) }
    ensures moment { OnOk result (now.new.moment ≡ now.old.moment + 1) }
    ensures place { now.new.leg ≡ now.old.leg }
    ensures kept { OnErr result (standing_of now.new ≡ standing_of now.old) }
{
    // proof: the hart's end is a count.
    let _end = leg.ends.count_of(hart);
    now.machine.step(hart, inputs, decoder)?;
    now.moment += 1;
    Ok(())
}

/// Takes the step that comes next in the leg, of this hart. Memory changes nothing.
#[inline(always)]
pub(crate) fn take_step(
    leg: &PlannedLeg,
    now: &mut Snapshot,
    stops: &mut Stops,
    hart: Hart,
    decoder: &mut Decoder,
) -> Result<(), Memory>
    requires hart { hart < length (machine_of now.old.machine).harts }
    requires next { IsNext leg.now (machine_of now.old.machine) hart }
    requires quiet { AreQuiet leg.now (machine_of now.old.machine) stops.old }
    requires room { now.old.moment < 2 ^ 64 - 1 }
    ensures steps { OnOk result (Steps leg.now (machine_of now.old.machine) hart (machine_of now.new.machine)) }
    ensures moment { OnOk result (now.new.moment ≡ now.old.moment + 1) }
    ensures place { now.new.leg ≡ now.old.leg }
    ensures quiet { OnOk result (AreQuiet leg.now (machine_of now.new.machine) stops.new) }
    ensures kept { OnErr result (standing_of now.new ≡ standing_of now.old) }
    ensures stops_kept { OnErr result (stops.new ≡ stops.old) }
{
    let count = now.machine.hart(hart).count();
    if count < stops[hart.index()] {
        return step_on(leg, now, hart, &[], decoder);
    }
    step_on(leg, now, hart, leg.inputs.at(hart, count), decoder)?;
    stops[hart.index()] = stop_of(leg, hart, count + 1);
    Ok(())
}
