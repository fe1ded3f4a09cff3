//! The steps of a hart, a line each.

ghost use Rattle.std.specs.Prelude.{map, IfOk};
ghost use Rattle.log_streams.specs.Streams.{OfStreams};
ghost use Rattle.command_line.specs.LookingBack.{IsLineOf};

use crate::audits::planned;
use crate::faults::{CommandFault, replayed, written};
use crate::words::Place;
use debugging::mnemonic;
use ft_types::{Count, Hart, Memory, Sink, Source, write_all};
use guest_image::Image;
use input_log::Input;
use log_streams::read_store;
use moments::Timeline;
use plan_lines::{Access, Bytes};
use rv32_hart::HartState;
use std::alloc::Global;
use std::option::Option;
use std::result::Result;
use step_lines::{Found, add_step_line};

/// What is known of a hart's step before it is taken.
#[derive(Drop)]
struct Outset {
    /// The hart, without its outputs.
    hart: HartState,
    /// How many outputs it has.
    outputs: usize,
    inputs: Vec<Input>,
    /// The word at its pc, where that is in RAM.
    word: Option<u32>,
    /// What the word says.
    mnemonic: Vec<u8>,
    /// The bytes of RAM that the step reads, and the number that they are.
    read: Option<(u32, u32)>,
    /// The bytes that it writes.
    written: Option<Bytes>,
}

/// The number that bytes of RAM are.
fn value_at(line: &Timeline, bytes: Bytes) -> u32 {
    let mut value = 0u32;
    for offset in 0..bytes.length {
        let place = bytes.first.wrapping_add(bytes.length - 1 - offset);
        let byte = line.byte(place).unwrap_or(0);
        value = value.wrapping_mul(256).wrapping_add(u32::from(byte));
    }
    value
}

/// The bytes that a step reads.
fn bytes_read(access: Access) -> Option<Bytes> {
    match access {
        Access::Reads(bytes) | Access::Changes(bytes) => Some(bytes),
        Access::Nothing | Access::Writes(_) => None,
    }
}

/// The bytes that a step writes.
fn bytes_written(access: Access) -> Option<Bytes> {
    match access {
        Access::Writes(bytes) | Access::Changes(bytes) => Some(bytes),
        Access::Nothing | Access::Reads(_) => None,
    }
}

/// The hart, where the machine has it.
fn hart_of(line: &Timeline, hart: Hart) -> Option<&HartState> {
    if hart.number() < line.harts() {
        Some(line.hart(hart))
    } else {
        None
    }
}

/// What comes to the hart's next step.
fn inputs_of(alloc: Global, line: &Timeline, hart: Hart) -> Result<Vec<Input>, Memory> {
    if hart.number() < line.harts() {
        Ok(line.inputs(hart).to_vec(alloc)?)
    } else {
        Ok(Vec::new(alloc))
    }
}

/// The word at an address, where that is in RAM.
fn word_of(line: &Timeline, address: u32) -> Option<u32> {
    if address % 4 == 0 {
        line.word(address)
    } else {
        None
    }
}

fn mnemonic_of(alloc: Global, pc: u32, word: Option<u32>) -> Result<Vec<u8>, Memory> {
    match word {
        Some(word) => mnemonic(alloc, pc, word),
        None => Ok(Vec::new(alloc)),
    }
}

/// The bytes of RAM, with the number that they are.
fn numbered(line: &Timeline, bytes: Option<Bytes>) -> Option<(u32, u32)> {
    match bytes {
        Some(bytes) => Some((bytes.first, value_at(line, bytes))),
        None => None,
    }
}

/// What is known of the step of a hart in this state.
fn outset_of(
    alloc: Global,
    line: &Timeline,
    state: &HartState,
    inputs: Vec<Input>,
) -> Result<Outset, Memory> {
    let access = line.access();
    let word = word_of(line, state.pc());
    Ok(Outset {
        hart: state.without_outputs(),
        outputs: state.outputs().len(),
        inputs,
        word,
        mnemonic: mnemonic_of(alloc, state.pc(), word)?,
        read: numbered(line, bytes_read(access)),
        written: bytes_written(access),
    })
}

/// What is known of the hart's next step.
fn next_outset(alloc: Global, line: &Timeline, hart: Hart) -> Result<Option<Outset>, Memory> {
    let inputs = inputs_of(alloc, line, hart)?;
    match hart_of(line, hart) {
        Some(state) => Ok(Some(outset_of(alloc, line, state, inputs)?)),
        None => Ok(None),
    }
}

/// The word that the hart has put out behind so many.
fn output_behind(state: &HartState, outputs: usize) -> Option<u32> {
    match state.outputs().get(outputs) {
        Some((_, word)) => Some(*word),
        None => None,
    }
}

/// Adds the line of the step that led the hart to this state.
fn add_line(
    text: &mut Vec<u8>,
    line: &Timeline,
    before: &Outset,
    after: &HartState,
) -> Result<(), Memory> {
    let found = Found {
        read: before.read,
        written: numbered(line, before.written),
        output: output_behind(after, before.outputs),
    };
    add_step_line(
        text,
        &before.hart,
        &before.inputs,
        after,
        before.word,
        found,
        &before.mnemonic,
    )
}

/// The line of a step that the hart has taken.
fn line_of(alloc: Global, line: &Timeline, hart: Hart, before: &Outset) -> Result<Vec<u8>, Memory> {
    let mut text = Vec::new(alloc);
    if let Some(after) = hart_of(line, hart) {
        add_line(&mut text, line, before, after)?;
    }
    Ok(text)
}

/// Takes the step that comes next. False where there is none.
fn go_forward(line: &mut Timeline) -> Result<bool, CommandFault> {
    match line.forward() {
        Ok(is_done) => Ok(is_done),
        Err(fault) => Err(replayed(fault)),
    }
}

/// Takes the hart's step, which comes next, and writes its line. False where there is none.
fn trace_step<W: Sink>(
    alloc: Global,
    line: &mut Timeline,
    hart: Hart,
    out: &mut W,
) -> Result<bool, CommandFault> {
    let Some(before) = next_outset(alloc, line, hart)? else {
        return Ok(false);
    };
    let is_done = go_forward(line)?;
    let text = line_of(alloc, line, hart, &before)?;
    written(write_all(out, &text))?;
    Ok(is_done)
}

/// Takes the step that comes next, and writes its line where it is the hart's. False where there is none.
fn trace_next<W: Sink>(
    alloc: Global,
    line: &mut Timeline,
    hart: Hart,
    out: &mut W,
) -> Result<bool, CommandFault> {
    match line.next() {
        Some(next) if next == hart => trace_step(alloc, line, hart, out),
        _ => go_forward(line),
    }
}

/// How many steps the hart has taken.
fn count_of(line: &Timeline, hart: Hart) -> Count {
    match hart_of(line, hart) {
        Some(state) => state.count(),
        None => 0,
    }
}

/// Goes to the hart's place, where the machine has the hart.
fn go_to(line: &mut Timeline, place: Place) -> Result<(), CommandFault> {
    if place.hart.number() >= line.harts() {
        return Err(CommandFault::NoStep(place));
    }
    match line.go_to_count(place.hart, place.count) {
        Ok(true) => Ok(()),
        Ok(false) => Err(CommandFault::NoStep(place)),
        Err(fault) => Err(replayed(fault)),
    }
}

/// Writes a line for each step of a hart, from the place on and below the count.
fn trace_line<W: Sink>(
    alloc: Global,
    line: &mut Timeline,
    from: Place,
    to: Count,
    out: &mut W,
) -> Result<(), CommandFault> {
    go_to(line, from)?;
    let hart = from.hart;
    for _step in 0..u64::MAX {
        if count_of(line, hart) >= to {
            break;
        }
        if !trace_next(alloc, line, hart, out)? {
            return Err(CommandFault::NoStep(Place { hart, count: to }));
        }
    }
    Ok(())
}

/// The line of the steps of the streams' frames, at its beginning.
pub fn timeline_of<R: Source>(
    alloc: Global,
    image: &Image,
    readers: &mut [R],
) -> Result<Timeline, CommandFault>
    ensures { IfOk result (λ line. OfStreams (map R.left readers.old) (λ streams. IsLineOf image.now streams line)) }
{
    let store = read_store(alloc, &image.guest(), readers)?;
    let plan = planned(alloc, &store)?;
    match Timeline::begin(alloc, image, plan) {
        Ok(line) => Ok(line),
        Err(fault) => Err(replayed(fault)),
    }
}

/// Writes a line for each step of a hart to which the frames of the streams lead, from the place on and below the count.
pub fn trace_streams<R: Source, W: Sink>(
    alloc: Global,
    image: &Image,
    readers: &mut [R],
    from: Place,
    to: Count,
    out: &mut W,
) -> Result<(), CommandFault> {
    let mut line = timeline_of(alloc, image, readers)?;
    trace_line(alloc, &mut line, from, to, out)
}
