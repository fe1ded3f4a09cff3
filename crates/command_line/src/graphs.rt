//! Pictures of logs.

use crate::faults::{CommandFault, written};
use closed_cut::position;
use ft_types::{Guest, Sink, Source, write_all};
use guest_image::Image;
use hart_replay::{Plan, plan};
use log_graph::draw_log;
use log_join::{Store, StoreFault};
use log_streams::{Replays, StreamsFault, read_store};
use std::alloc::Global;

/// The fault of the stream with this number, where it was read by itself.
fn numbered(number: usize, fault: StreamsFault) -> StreamsFault {
    match fault {
        StreamsFault::Read(_) => StreamsFault::Read(number),
        StreamsFault::Frame(_, fault) => StreamsFault::Frame(number, fault),
        StreamsFault::Guest(_) => StreamsFault::Guest(number),
        fault => fault,
    }
}

/// What each stream holds.
fn read_each<R: Source>(
    alloc: Global,
    guest: &Guest,
    readers: &mut [R],
) -> Result<Vec<Store>, CommandFault> {
    let mut stores = Vec::new(alloc);
    for number in 0..readers.len() {
        let store = match read_store(alloc, guest, &mut readers[number..number + 1]) {
            Ok(store) => store,
            Err(fault) => return Err(CommandFault::Streams(numbered(number, fault))),
        };
        if stores.push(store).is_err() {
            return Err(CommandFault::Memory);
        }
    }
    Ok(stores)
}

/// The join of these stores.
fn joined(alloc: Global, guest: Guest, stores: &[Store]) -> Result<Store, CommandFault> {
    let mut all = Store::new(alloc, guest);
    for store in stores {
        match all.join(alloc, store) {
            Ok(()) => {}
            Err(StoreFault::OtherGuest) => return Err(CommandFault::Streams(StreamsFault::Guest(
                0,
            ))),
            Err(StoreFault::Memory) => return Err(CommandFault::Memory),
        }
    }
    Ok(all)
}

/// The plan of a store: it lacks nothing but memory.
fn planned(alloc: Global, store: &Store) -> Result<Plan, CommandFault> {
    let position = position(alloc, store)?;
    match plan(alloc, store, &position) {
        Ok(plan) => Ok(plan),
        Err(_) => Err(CommandFault::Memory),
    }
}

/// Writes the picture of the log that these streams are, once all of it is read and replayed. A fault is the first one of the streams, or of their replay.
pub fn graph_streams<R: Source, P: Replays, W: Sink>(
    alloc: Global,
    image: &Image,
    readers: &mut [R],
    replays: &P,
    out: &mut W,
) -> Result<(), CommandFault>
    requires { P.may_run replays.now }
{
    let guest = image.guest();
    let streams = read_each(alloc, &guest, readers)?;
    let store = joined(alloc, guest, &streams)?;
    let plan = planned(alloc, &store)?;
    match replays.replay(alloc, image, &plan) {
        Ok(machine) => {
            let picture = draw_log(alloc, &plan, &machine, &streams)?;
            written(write_all(out, &picture))
        }
        Err(fault) => Err(CommandFault::from(StreamsFault::Replay(fault))),
    }
}
