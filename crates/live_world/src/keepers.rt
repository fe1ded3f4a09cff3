//! What happens at a keeper's machine.

ghost use Rattle.std.specs.Prelude.{◌≡◌, List, [], IfOk, IfErr, OnOk, None};
ghost use Rattle.std.specs.List.{flat_map};
ghost use Rattle.fragment_codec.specs.declared.frame.Frame.{Frame as LogFrame};
ghost use Rattle.fragment_codec.specs.Streams.{Splits, spelling};
ghost use Rattle.live_world.specs.Calls.{BeginsNot, CrashesAt, HandsRead, HasBegun, HasLogged, IsNotHandedOver, Leaves, LogsNot, TakesAll, TakesNot};

use crate::event::Planned;
use crate::fault::EventFault;
use crate::hand::{HandedTo, hand_over};
use crate::site::Site;
use fragment_codec::{Frame, FrameFault, write_frame};
use ft_types::{Guest, Keeper, Memory, MemorySink};
use stations::{KeeperStation, WrittenFeed, WrittenFrame};
use std::alloc::Global;
use std::option::Option;
use std::result::Result;
use wire::Acknowledgement;

/// A keeper's call is over, and leaves this process: what is planned behind its last act happens, and where the machine crashed the process is gone.
fn leave(alloc: Global, site: &mut Site, station: Option<KeeperStation>)
    ensures { Leaves site.old [] station site.new }
{
    site.files.end_plan(alloc);
    let crashed = site.files.end_call();
    let left = if crashed { None } else { station };
    site.station = left;
}

/// The keeper begins, or comes back; between its acts this happens.
pub(crate) fn begin(
    alloc: Global,
    guest: Guest,
    keeper: Keeper,
    site: &mut Site,
    plan: Vec<Planned>,
) -> Result<(), EventFault>
    ensures begun { OnOk result (HasBegun guest keeper site.old site.new) }
    ensures refused { IfErr result (λ f. BeginsNot guest site.old f site.new) }
{
    if site.station.is_some() {
        return Err(EventFault::Runs);
    }
    site.files.plan(plan);
    match KeeperStation::begin(alloc, guest, keeper, &mut site.files) {
        Ok(station) => {
            leave(alloc, site, Some(station));
            Ok(())
        }
        Err(fault) => {
            leave(alloc, site, None);
            Err(EventFault::Log(fault))
        }
    }
}

/// The bytes of frames.
fn stream_of(alloc: Global, frames: &[Frame]) -> Result<Vec<u8>, Memory>
    ensures bytes { IfOk result (λ bytes. bytes.items ≡ flat_map spelling frames.now) }
    // They are these frames and nothing else.
    ensures splits { IfOk result (λ bytes. Splits bytes.items frames.now []) }
{
    let mut sink = MemorySink::new(alloc, usize::MAX);
    for frame in frames {
        if write_frame(frame, &mut sink).is_err() {
            return Err(Memory);
        }
    }
    Ok(sink.into_bytes())
}

/// The keeper takes these frames.
fn take_all(alloc: Global, site: &mut Site, frames: Vec<WrittenFrame>) -> Result<(), EventFault>
    ensures taken { OnOk result (TakesAll frames.items site.old site.new) }
    ensures some { IfErr result (λ f. TakesNot frames.items site.old f site.new) }
{
    for frame in frames {
        let Some(station) = &mut site.station else {
            return Err(EventFault::Rests);
        };
        let _put = station.take(alloc, frame)?;
    }
    Ok(())
}

/// The fault of a stream of frames.
fn fault_of(fault: FrameFault) -> EventFault
    ensures { fault ≡ FrameFault.Memory → result ≡ EventFault.Memory }
{
    match fault {
        FrameFault::Memory => EventFault::Memory,
        fault => EventFault::Frame(fault),
    }
}

/// The keeper takes the frames of a stream that comes in pieces of so many bytes.
fn take_stream(alloc: Global, site: &mut Site, stream: &[u8], size: usize) -> Result<(), EventFault>
    ensures taken { (frames : List LogFrame) → Splits stream.now frames [] → OnOk result (TakesAll frames site.old site.new) }
    ensures some { (frames : List LogFrame) → Splits stream.now frames [] → IfErr result (λ f. TakesNot frames site.old f site.new) }
{
    let mut feed = WrittenFeed::new(alloc)?;
    for piece in stream.chunks(size.max(1)) {
        match feed.push(alloc, piece) {
            Ok((frames, next)) => {
                take_all(alloc, site, frames)?;
                feed = next;
            }
            Err(fault) => return Err(fault_of(fault)),
        }
    }
    Ok(())
}

/// These frames come to the keeper, in pieces of so many bytes.
pub(crate) fn take(
    alloc: Global,
    site: &mut Site,
    frames: &[Frame],
    size: usize,
) -> Result<(), EventFault>
    ensures taken { OnOk result (TakesAll frames.now site.old site.new) }
    ensures refused { IfErr result (λ f. TakesNot frames.now site.old f site.new) }
{
    if site.station.is_none() {
        return Err(EventFault::Rests);
    }
    let stream = stream_of(alloc, frames)?;
    take_stream(alloc, site, &stream, size)
}

/// The keeper logs what came and acknowledges; between its acts this happens. Where its files fail, or its machine crashes, it is gone.
pub(crate) fn log(
    alloc: Global,
    site: &mut Site,
    plan: Vec<Planned>,
) -> Result<Option<Acknowledgement>, EventFault>
    ensures logged { IfOk result (λ said. HasLogged site.old said site.new) }
    ensures refused { IfErr result (λ f. LogsNot site.old f site.new) }
{
    let Some(station) = site.station.take() else {
        return Err(EventFault::Rests);
    };
    site.files.plan(plan);
    match station.log_and_acknowledge(alloc, &mut site.files) {
        Ok((station, said)) => {
            leave(alloc, site, Some(station));
            Ok(said)
        }
        Err(fault) => {
            leave(alloc, site, None);
            Err(EventFault::Files(fault))
        }
    }
}

/// Its machine crashes, and leaves so many bytes of the log.
pub(crate) fn crash(site: &mut Site, left: usize)
    ensures { CrashesAt site.old site.new }
{
    site.files.crash(left);
    let _crashed = site.files.end_call();
    site.station = None;
}

/// What is handed over by whoever has read the log, if anybody.
pub(crate) fn handed(
    alloc: Global,
    guest: &Guest,
    keeper: Keeper,
    site: &mut Site,
) -> Result<Option<HandedTo>, EventFault>
    ensures handed { IfOk result (HandsRead guest.now keeper site.old) }
    ensures refused { IfErr result (IsNotHandedOver guest.now site.old) }
    ensures rest { site.new ≡ record site.old { files = record site.old.files { read = None } } }
{
    let Some(read) = site.files.take_read() else {
        return Ok(None);
    };
    match hand_over(alloc, guest, keeper, read) {
        Ok(handed) => Ok(Some(handed)),
        Err(fault) => Err(EventFault::Log(fault)),
    }
}
