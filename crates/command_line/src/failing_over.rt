//! A list of events, applied to a primary and its keepers.

ghost use Rattle.std.specs.Prelude.{◌≡◌};
ghost use Rattle.std.specs.List.{AllByRecursion, flat_map};
ghost use Rattle.ft_types.specs.Devices.{Writes};
ghost use Rattle.scripts.specs.Coming.{MayCome};
ghost use Rattle.scripts.specs.Events.{MayAllHappen};
ghost use Rattle.command_line.specs.FailingOver.{fault_at, Applies, FailsOver, KeepsPromises, released_line, primary_text, world_text};

use crate::faults::{CommandFault, written};
use failover_world::{Released, World, WorldFault};
use ft_types::{Failed, LineBuffer, Sink, write_all};
use guest_image::Image;
use log_streams::{Quorum, write_long_line};
use scripts::Event;
use std::alloc::Global;

/// The fault of an event in this line.
fn fault_in(line: u64, fault: WorldFault) -> CommandFault
    ensures { result ≡ fault_at line fault }
{
    match fault {
        WorldFault::Memory => CommandFault::Memory,
        fault => CommandFault::World(line, fault),
    }
}

/// Applies the events, up to the first that is refused.
fn apply_all(alloc: Global, world: &mut World, events: Vec<Event>) -> Result<(), CommandFault>
    requires events { AllByRecursion (MayCome world.old.image.harts) events.items }
    ensures { Applies world.old events.items result world.new }
{
    let _many = events.len();
    let mut line = 0;
    for event in events {
        line += 1;
        match world.apply(alloc, event) {
            Ok(()) => {}
            Err(fault) => return Err(fault_in(line, fault)),
        }
    }
    Ok(())
}

/// Writes the line of an output that went out.
fn write_one_released<W: Sink>(released: &Released, out: &mut W) -> Result<(), Failed>
    ensures { Writes result (W.bytes out.old) (W.bytes out.new) (W.failures out.old) (W.failures out.new) (released_line released.now) }
{
    let output = &released.output;
    let mut front = LineBuffer::new();
    front.push(b"term ");
    front.push_number(u64::from(released.term));
    front.push(b" hart ");
    front.push_number(u64::from(output.hart.number()));
    front.push(b" number ");
    front.push_number(output.number);
    let mut back = LineBuffer::new();
    back.push(b" step ");
    back.push_number(output.step);
    back.push(b" word ");
    back.push_word(output.word);
    write_long_line(front, back, out)
}

/// Writes what went out, in the order in which it did.
fn write_released<W: Sink>(released: &[Released], out: &mut W) -> Result<(), Failed>
    ensures { Writes result (W.bytes out.old) (W.bytes out.new) (W.failures out.old) (W.failures out.new) (flat_map released_line released.now) }
{
    for one in released {
        write_one_released(one, out)?;
    }
    Ok(())
}

/// Writes the machine of the primary that runs.
fn write_primary<W: Sink>(world: &World, out: &mut W) -> Result<(), Failed>
    ensures { Writes result (W.bytes out.old) (W.bytes out.new) (W.failures out.old) (W.failures out.new) (primary_text world.now) }
{
    match world.machine() {
        Some(machine) => machine.write_text(out),
        None => write_all(out, b"no primary\n"),
    }
}

/// Writes what went out, and then the primary's machine.
fn write_world<W: Sink>(world: &World, out: &mut W) -> Result<(), Failed>
    ensures written { Writes result (W.bytes out.old) (W.bytes out.new) (W.failures out.old) (W.failures out.new) (world_text world.now) }
    ensures promises { KeepsPromises world.now }
{
    write_released(world.released(), out)?;
    write_primary(world, out)
}

/// Applies the events to a primary of the image and its keepers, and writes what went out, also where an event was refused, and
/// then the primary's machine.
#[tactic(auto, using(crate::proofs::Coming::all_come))]
pub fn fail_over<W: Sink>(
    alloc: Global,
    image: &Image,
    events: Vec<Event>,
    quorum: Quorum,
    out: &mut W,
) -> Result<(), CommandFault>
    requires events { MayAllHappen image.now.harts events.items }
    ensures written { FailsOver image.now quorum.keepers quorum.need events.items result
        (W.bytes out.old) (W.bytes out.new) (W.failures out.old) (W.failures out.new) }
{
    let mut world = World::new(alloc, image, quorum.keepers(), quorum.need())?;
    match apply_all(alloc, &mut world, events) {
        Ok(()) => written(write_world(&world, out)),
        Err(fault) => {
            // Whether all of it was told matters less than the fault.
            let _told = write_released(world.released(), out);
            Err(fault)
        }
    }
}
