//! From streams of frames to the store of their frames.

ghost use Rattle.std.specs.Prelude.{◌≡◌, ◌≤◌, ◌++◌, ℕ, List, length, map, take, None, Some, Err, IfOk, IfErr, OnOk, slice_get};
ghost use Rattle.fragment_codec.specs.declared.frame.Frame.{Frame as LogFrame};
ghost use Rattle.fragment_codec.specs.Streams.{Follows};
ghost use Rattle.log_join.specs.Stores.{StoreView, IsJoin, alone};
ghost use Rattle.log_streams.specs.Streams.{IsOf, OfStreams, AreJoined};
ghost use Rattle.log_streams.specs.Faults.{IsFirstFault, Fails, IsBehind, GaveRight};
ghost use Rattle.log_streams.specs.machinery.Reading.{Takes, IsFaultOf, IsFaultAmong, fault_at, fault_in, IsPushFault, Told, Refused};

use crate::faults::StreamsFault;
use fragment_codec::{Feed, Frame, FrameFault};
use ft_types::{Guest, Source};
use log_join::{Put, Store, StoreFault};
use std::alloc::Global;

/// How many bytes are read at once.
const PIECE: usize = 4096;

/// Puts a frame into the store, where it is of the store's guest.
fn put_frame(store: &mut Store, frame: Frame) -> Result<(), StoreFault>
    ensures own { OnOk result (IsOf store.old.guest frame) }
    ensures joined { OnOk result (IsJoin store.old (alone frame) store.new) }
    ensures fault { IfErr result (λ f. IsFaultOf store.old.guest frame f) }
{
    match store.put(frame)? {
        Put::OtherGuest => Err(StoreFault::OtherGuest),
        _ => Ok(()),
    }
}

/// Puts frames into the store, up to the first of another guest.
fn put_all(store: &mut Store, frames: Vec<Frame>) -> Result<(), StoreFault>
    ensures ok { OnOk result ((first : StoreView) (given : List LogFrame) → Takes first given store.old → Takes first (given ++ frames.items) store.new) }
    ensures fault { IfErr result (λ f. (first : StoreView) (given : List LogFrame) → Takes first given store.old → IsFaultAmong first.guest frames.items f) }
{
    for frame in frames {
        put_frame(store, frame)?;
    }
    Ok(())
}

/// The fault of a stream whose frames a store did not take.
fn refused(stream: usize, fault: StoreFault) -> StreamsFault
    ensures { result ≡ fault_at stream fault }
{
    match fault {
        StoreFault::OtherGuest => StreamsFault::Guest(stream),
        StoreFault::Memory => StreamsFault::Memory,
    }
}

/// The fault of a stream that a feed answers.
fn stream_fault(stream: usize, fault: FrameFault) -> StreamsFault
    ensures { result ≡ fault_in stream fault }
{
    match fault {
        FrameFault::Memory => StreamsFault::Memory,
        fault => StreamsFault::Frame(stream, fault),
    }
}

/// Takes the frames that the next piece of a stream completes.
fn take_frames(
    alloc: Global,
    stream: usize,
    feed: &mut Feed,
    piece: &[u8],
    store: &mut Store,
) -> Result<(), StreamsFault>
    ensures ok { OnOk result ((first : StoreView) (read : List ℕ) (given : List LogFrame) → Follows read given feed.old → Takes first given store.old →
        (frames : List LogFrame) × Follows (read ++ piece.now) (given ++ frames) feed.new × Takes first (given ++ frames) store.new) }
    ensures fault { IfErr result (λ f. (first : StoreView) (read : List ℕ) (given : List LogFrame) → Follows read given feed.old → Takes first given store.old →
        IsPushFault stream first.guest (read ++ piece.now) f) }
{
    match feed.push(alloc, piece) {
        Ok(frames) => match put_all(store, frames) {
            Ok(()) => Ok(()),
            Err(fault) => Err(refused(stream, fault)),
        },
        Err(fault) => Err(stream_fault(stream, fault)),
    }
}

/// Takes the next piece of a stream, and tells a fault that stands behind the last frame.
fn push(
    alloc: Global,
    stream: usize,
    feed: &mut Feed,
    piece: &[u8],
    store: &mut Store,
) -> Result<(), StreamsFault>
    ensures ok { OnOk result ((first : StoreView) (read : List ℕ) (given : List LogFrame) → Follows read given feed.old → Takes first given store.old →
        (frames : List LogFrame) × Follows (read ++ piece.now) (given ++ frames) feed.new × Takes first (given ++ frames) store.new) }
    ensures sound { OnOk result (feed.new.fault ≡ None) }
    ensures fault { IfErr result (λ f. (first : StoreView) (read : List ℕ) (given : List LogFrame) → Follows read given feed.old → Takes first given store.old →
        IsPushFault stream first.guest (read ++ piece.now) f) }
{
    match take_frames(alloc, stream, feed, piece, store) {
        Ok(()) => {}
        Err(fault) => return Err(fault),
    }
    match feed.fault() {
        None => Ok(()),
        Some(fault) => Err(stream_fault(stream, fault)),
    }
}

/// What a read has put to the front of a piece.
fn front_of(piece: &[u8], count: usize) -> &[u8]
    requires { count ≤ length piece.now }
    ensures { result.now ≡ take count piece.now }
{
    &piece[..count]
}

/// Puts the frames of one stream into the store. The stream is read to its end or its first fault.
fn read_into<R: Source>(
    alloc: Global,
    stream: usize,
    store: &mut Store,
    reader: &mut R,
) -> Result<(), StreamsFault>
    ensures ok { OnOk result (Told store.old (R.left reader.old) (R.left reader.new) store.new) }
    ensures fault { IfErr result (λ f. Refused stream store.old.guest (R.left reader.old) (R.left reader.new) f) }
    // A reader that failed had given no fault before.
    ensures right { result ≡ Err (StreamsFault.Read stream) → GaveRight store.old.guest (R.left reader.old) (R.left reader.new) }
    ensures failures { IfErr result (λ f. Fails stream (R.failures reader.old) (R.failures reader.new) f) }
    ensures kept { OnOk result (R.failures reader.new ≡ R.failures reader.old) }
{
    let mut feed = Feed::new(alloc)?;
    let mut piece = [0; PIECE];
    for _read in 0..u64::MAX {
        let Ok(count) = reader.read(&mut piece) else {
            return Err(StreamsFault::Read(stream));
        };
        let front = front_of(&piece, count);
        push(alloc, stream, &mut feed, front, store)?;
        if count == 0 {
            return Ok(());
        }
    }
    // No memory holds a stream of so many bytes.
    Err(StreamsFault::Memory)
}

/// The join of all frames of the streams. They are read whole and in order, up to the first fault.
pub fn read_store<R: Source>(
    alloc: Global,
    guest: &Guest,
    readers: &mut [R],
) -> Result<Store, StreamsFault>
    ensures guest { IfOk result (λ store. store.guest ≡ guest.now) }
    ensures ok { IfOk result (λ store. OfStreams (map R.left readers.old) (λ streams. AreJoined guest.now streams store)) }

    // A fault is the first one of the streams, and those behind it are as they were.
    ensures fault { IfErr result (λ f. OfStreams (map R.left readers.old) (λ streams. IsFirstFault 0 guest.now streams f)) }
    ensures behind { IfErr result (λ f. (i : ℕ) → IsBehind f i → slice_get readers.new i ≡ slice_get readers.old i) }

    // A reader failed in this call exactly where the fault says so.
    ensures failed { IfErr result (λ f. (i : ℕ) (reader later : R) → slice_get readers.old i ≡ Some reader → slice_get readers.new i ≡ Some later →
        Fails i (R.failures reader) (R.failures later) f) }
    // It had given no fault before.
    ensures right { (i : ℕ) (reader later : R) → result ≡ Err (StreamsFault.Read i) → slice_get readers.old i ≡ Some reader →
        slice_get readers.new i ≡ Some later → GaveRight guest.now (R.left reader) (R.left later) }
    ensures kept { IfOk result (λ _. (i : ℕ) (reader later : R) → slice_get readers.old i ≡ Some reader → slice_get readers.new i ≡ Some later →
        R.failures later ≡ R.failures reader) }
{
    let mut store = Store::new(alloc, *guest);
    for stream in 0..readers.len() {
        read_into(alloc, stream, &mut store, &mut readers[stream])?;
    }
    Ok(store)
}
