//! Streams of frames, looked at before their end.

ghost use Rattle.std.specs.Prelude.{◌≡◌, ◌≢◌, map, IfOk, IfErr};
ghost use Rattle.guest_image.specs.Image.{guest_of};
ghost use Rattle.log_streams.specs.declared.faults.StreamsFault.TheVariants.{Write};
ghost use Rattle.log_streams.specs.Streams.{OfStreams};
ghost use Rattle.log_streams.specs.Writing.{WritesOne};
ghost use Rattle.command_line.specs.declared.faults.CommandFault.TheVariants.{Streams};
ghost use Rattle.command_line.specs.LookingBack.{IsMachineAt, HasNoCutAt, IsMachineOf, HasNoCutOf, IsTextOf, IfNoStep};

use crate::audits::planned;
use crate::faults::{CommandFault, replayed, written};
use crate::words::Place;
use ft_types::{Sink, Source};
use guest_image::{Image, Machine};
use least_cuts::machine_at;
use log_join::Store;
use log_streams::read_store;
use std::alloc::Global;

/// The machine at the least closed cut of the store's plan that has so many steps of the hart.
fn machine_of(
    alloc: Global,
    image: &Image,
    store: &Store,
    place: Place,
) -> Result<Machine, CommandFault>
    ensures ok { IfOk result (λ m. IsMachineAt image.now store.now place m) }
    ensures none { IfErr result (λ f. IfNoStep f (λ other. (other ≡ place) × HasNoCutAt image.now store.now place)) }
    ensures unwritten { IfErr result (λ f. f ≢ Streams Write) }
{
    if place.hart.number() >= image.harts() {
        return Err(CommandFault::NoStep(place));
    }
    let plan = planned(alloc, store)?;
    match machine_at(alloc, image, &plan, place.hart, place.count) {
        Ok(Some(machine)) => Ok(machine),
        Ok(None) => Err(CommandFault::NoStep(place)),
        Err(fault) => Err(replayed(fault)),
    }
}

/// Writes the text of that machine.
fn write_machine<W: Sink>(
    alloc: Global,
    image: &Image,
    store: &Store,
    place: Place,
    out: &mut W,
) -> Result<(), CommandFault>
    ensures written { WritesOne (Streams Write) (IsTextOf (IsMachineAt image.now store.now place)) result (W.bytes out.old) (W.bytes out.new) (W.failures out.old) (W.failures out.new) }
    ensures none { IfErr result (λ f. IfNoStep f (λ other. (other ≡ place) × HasNoCutAt image.now store.now place)) }
{
    match machine_of(alloc, image, store, place) {
        Ok(machine) => written(machine.write_text(out)),
        Err(fault) => Err(fault),
    }
}

/// Writes the text of the machine to which the frames of the streams lead where a hart has so many steps, and each other one those that these stand on.
pub fn replay_streams_at<R: Source, W: Sink>(
    alloc: Global,
    image: &Image,
    readers: &mut [R],
    place: Place,
    out: &mut W,
) -> Result<(), CommandFault>
    // Nothing is written but the text of the machine at the least closed cut that has so many steps of the hart.
    ensures written { OfStreams (map R.left readers.old) (λ streams.
        WritesOne (Streams Write) (IsTextOf (IsMachineOf image.now streams place)) result (W.bytes out.old) (W.bytes out.new) (W.failures out.old) (W.failures out.new)) }

    // That there is no such step is said only where the hart isn't there, or no closed cut has so many steps of it.
    ensures none { IfErr result (λ f. OfStreams (map R.left readers.old) (λ streams. IfNoStep f (λ other. (other ≡ place) × HasNoCutOf image.now streams place))) }
{
    let store = read_store(alloc, &image.guest(), readers)?;
    write_machine(alloc, image, &store, place, out)
}
