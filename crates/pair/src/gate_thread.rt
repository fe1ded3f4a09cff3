//! The gate's thread.

ghost use Rattle.std.specs.Prelude.{◌≡◌, ◌<◌, ℕ, [], IfOk, OnOk};
ghost use Rattle.std.specs.List.{AllByRecursion};
ghost use Rattle.ack_core.specs.Seats.{IsGateOf};
ghost use Rattle.output_gate.specs.Gates.{offered_of};
ghost use Rattle.pair.specs.Exits.{AreLast, IsAtBoard};
ghost use Rattle.pair.specs.Posts.{IsWatchOf};
ghost use Rattle.pair.specs.Serving.{IsHeard};

use crate::exits::{LastSteps, close, look_on, no_steps, take_in};
use crate::messages::ToGate;
use crate::noting::tell_out;
use crate::posts::Watch;
use ack_core::{Board, GateSeat};
use crossbeam_channel::Receiver;
use ft_types::Memory;
use output_gate::{Gate, Output};
use std::alloc::Global;
use std::result::Result;
use std::sync::Wait;

/// What the gate's thread gives.
#[derive(Drop)]
pub(crate) struct GateEnd {
    /// What went out.
    pub(crate) released: Vec<Output>,
    /// How many had gone out when the gate heard that the primary was at its end.
    pub(crate) early: usize,
    /// The gate's seat, which sees no more.
    pub(crate) seat: GateSeat,
}

/// Takes the messages that are there by now. Whether the primary's last one is among them.
fn take_what_is_there<R: Wait>(
    rt: &R,
    channel: &Receiver<ToGate, Global>,
    gate: &mut Gate,
    steps: &mut LastSteps,
) -> Result<bool, Memory>
    requires { AreLast gate.old steps.old }
    ensures last { OnOk result (AreLast gate.new steps.new) }
    ensures rest { gate.new ≡ record gate.old { lines = gate.new.lines } }
{
    let mut ended = false;
    for _more in 0..channel.len() {
        let Ok(message) = channel.try_recv(rt) else {
            break;
        };
        if take_in(gate, steps, message)? {
            ended = true;
        }
    }
    Ok(ended)
}

/// Waits for a message to the gate, and takes with it what is there by then, and what was offered. Whether the primary's last one came: `None` where
/// nobody sends any more.
fn listen<R: Wait>(
    rt: &R,
    channel: &Receiver<ToGate, Global>,
    offers: &Receiver<ToGate, Global>,
    gate: &mut Gate,
    last: &mut LastSteps,
) -> Result<Option<bool>, Memory>
    requires { AreLast gate.old last.old }
    ensures last { OnOk result (AreLast gate.new last.new) }
    ensures rest { gate.new ≡ record gate.old { lines = gate.new.lines } }
{
    let Ok(first) = channel.recv(rt) else {
        return Ok(None);
    };
    let is_last = take_in(gate, last, first)?;
    let ended = take_what_is_there(rt, channel, gate, last)?;
    let _offered = take_what_is_there(rt, offers, gate, last)?;
    Ok(Some(is_last || ended))
}

/// The gate's thread. It looks whenever it was sent something, and once more when nobody sends any more: then each keeper has
/// published for the last time.
pub(crate) fn guard<R: Wait>(
    rt: &R,
    alloc: Global,
    board: &Board,
    watch: Watch,
) -> Result<GateEnd, Memory>
    requires { IsWatchOf board.now watch }
    ensures seat { IfOk result (λ end. IsGateOf board.now end.seat) }
    // Of each output that went out it had heard of as many keepers as the gate needs, above its step.
    ensures heard { IfOk result (λ end. AllByRecursion (IsHeard board.now end.seat watch.gate.need) end.released.items) }
{
    let Watch {
        mut gate,
        mut seat,
        channel,
        offers,
        begun: _,
        primary,
    } = watch;
    let mut last = no_steps();
    let mut released = Vec::new(alloc);
    let mut early = 0usize;
    for _ in rt.forever() {
        let Some(ended) = listen(rt, &channel, &offers, &mut gate, &mut last)? else {
            break;
        };
        if ended {
            early = released.len();
        }
        let before = released.len();
        look_on(alloc, board, &mut gate, &mut seat, &mut released)?;
        tell_out(rt, &primary, &released, before);
    }
    let (_gate, seat, released) = close(alloc, board, gate, seat, released)?;
    Ok(GateEnd {
        released,
        early,
        seat,
    })
}
