//! Logs that were handed over to a term: what `hand` wrote.

ghost use Rattle.std.specs.Prelude.{◌≡◌, ◌<◌, ℕ, List, [], IfOk, IfErr, OnOk};
ghost use Rattle.ft_types.specs.declared.names.TheConstants.{KEEPER_LIMIT};
ghost use Rattle.fragment_codec.specs.declared.frame.Frame.{Frame as LogFrame};
ghost use Rattle.fragment_codec.specs.Streams.{Splits};
ghost use Rattle.log_join.specs.Stores.{IsJoin, alone};
ghost use Rattle.log_join.specs.Coming.{IsJoinOf};
ghost use Rattle.stations.specs.Handing.{IsHandedTo};
ghost use Rattle.leading.specs.Handed.{IsGiven, IsWhole, IsNotWhole, IsStoreFault, IsPutFault, IsGatherFault};

use fenced_live::Given;
use fragment_codec::{Frame, FrameFault};
use ft_types::{Guest, Keeper, Memory, Term, first_line};
use log_join::{Put, Store};
use stations::{LogFront, read_frames};
use std::alloc::Global;
use std::result::Result;
use wire::read_handed;

/// Why what came is no log that was handed over.
#[derive(Clone, Copy, PartialEq, Eq)]
pub enum HandedFault {
    /// It doesn't begin with a line that says so, under the seal of this guest.
    Line,
    /// Behind the line are not as many bytes as it says: the stream broke off, or goes on.
    Length,
    /// The bytes behind the line end inside a frame.
    Torn,
    /// The first frame that is not whole and right has this fault.
    Frame(FrameFault),
    /// A frame is of another guest.
    OtherGuest,
    /// Unequal frames have one key.
    Clash,
    /// A growth was refused.
    Memory,
}

impl From<Memory> for HandedFault {
    ghost use Rattle.std.specs.Prelude.{◌≡◌};
    ghost use Rattle.leading.specs.declared.handed.HandedFault.TheVariants.{Memory as NoMemory};

    ghost from_gives = { λ _ e. e ≡ NoMemory };

    fn from(_e: Memory) -> HandedFault {
        HandedFault::Memory
    }
}

/// A log that a keeper handed over to a term.
#[derive(Drop)]
pub struct HandedLog {
    pub keeper: Keeper,
    pub term: Term,
    pub store: Store,
}

impl HandedLog {
    /// The store, as it was given to the term.
    pub fn given(&self) -> Given<'_>
        ensures keeper { result.keeper ≡ self.now.keeper }
        ensures term { result.term ≡ self.now.term }
        ensures store { result.store.now ≡ self.now.store }
    {
        Given {
            keeper: self.keeper,
            term: self.term,
            store: &self.store,
        }
    }
}

/// Puts a frame into the store.
fn put(store: &mut Store, frame: Frame) -> Result<(), HandedFault>
    ensures joined { OnOk result (IsJoin store.old (alone frame) store.new) }
    ensures fault { IfErr result (λ f. IsPutFault store.old frame f) }
{
    match store.put(frame)? {
        Put::New | Put::Same => Ok(()),
        Put::OtherGuest => Err(HandedFault::OtherGuest),
        Put::Clash => Err(HandedFault::Clash),
    }
}

/// The store of the frames.
fn gather(alloc: Global, guest: Guest, frames: Vec<Frame>) -> Result<Store, HandedFault>
    ensures join { IfOk result (λ store. IsJoinOf guest frames.items store) }
    ensures fault { IfErr result (λ f. IsGatherFault guest frames.items f) }
{
    let mut store = Store::new(alloc, guest);
    for frame in frames {
        put(&mut store, frame)?;
    }
    Ok(store)
}

/// The store of the bytes, which are whole frames.
fn read_store(alloc: Global, guest: Guest, bytes: &[u8]) -> Result<Store, HandedFault>
    ensures whole { IfOk result (λ store. (frames : List LogFrame) × Splits bytes.now frames [] × IsJoinOf guest frames store) }
    ensures fault { IfErr result (λ f. IsStoreFault guest bytes.now f) }
{
    let LogFront {
        frames,
        size,
        fault,
    } = read_frames(alloc, bytes)?;
    if let Some(fault) = fault {
        return Err(HandedFault::Frame(fault));
    }
    if size < bytes.len() {
        return Err(HandedFault::Torn);
    }
    gather(alloc, guest, frames)
}

/// Reads a log that was handed over: a line that says of which keeper it is, to which term and how many bytes it has, and so many bytes
/// of whole frames.
pub fn read_handed_log(alloc: Global, guest: Guest, bytes: &[u8]) -> Result<HandedLog, HandedFault>
    ensures whole { IfOk result (λ log. IsWhole guest bytes.now log) }
    ensures fault { IfErr result (λ f. IsNotWhole guest bytes.now f) }
    // Of what a keeper handed over it gets that keeper, that term and those frames.
    ensures given { (keeper term : ℕ) (sent : List ℕ) → keeper < KEEPER_LIMIT → IsHandedTo guest keeper term sent bytes.now → IfOk result (λ log. IsGiven guest keeper term sent log) }
{
    let Some((text, rest)) = first_line(bytes) else {
        return Err(HandedFault::Line);
    };
    let Some(handed) = read_handed(&guest, text) else {
        return Err(HandedFault::Line);
    };
    if rest.len() as u64 != handed.length {
        return Err(HandedFault::Length);
    }
    let store = read_store(alloc, guest, rest)?;
    Ok(HandedLog {
        keeper: handed.keeper,
        term: handed.term,
        store,
    })
}
