//! Whoever hands a log over: its two calls over what it saw, act by act.

ghost use Rattle.std.specs.Prelude.{◌≡◌, ◌<◌, ◌≤◌, ◌+◌, IfOk, IfErr, OnOk};
ghost use Rattle.stations.specs.declared.reach.TheConstants.{TERM_REACH};
ghost use Rattle.live_world.specs.Hands.{HasHanded, IsNotFencedOff, IsNotRead};
ghost use Rattle.live_world.specs.Shelves.{read_view};

use crate::log_read::{FencePut, LogRead};
use ft_types::{Guest, Keeper, Memory, Term};
use stations::{FenceFault, FencedLog, FilesFault, HandedOver, KeeperFiles, LogFault, fence_off};
use std::alloc::Global;
use std::mem;
use std::result::Result;

/// Where whoever hands a log over stands.
#[derive(Drop)]
pub enum Stage {
    /// There is nobody.
    Nobody,
    /// It saw this last fence.
    Saw(Term),
    /// It put a fence.
    HasFenced(FencePut),
    /// Behind those it read the log.
    HasRead(LogRead),
}

/// The files as whoever hands a log over saw them: the last fence, and the log, which it reads once.
#[derive(Drop)]
pub(crate) struct SeenFiles {
    last: Term,
    log: Vec<u8>,
}

/// The bytes once more.
pub(crate) fn copy_of(bytes: &Vec<u8>) -> Result<Vec<u8>, Memory>
    ensures { IfOk result (λ copy. copy.items ≡ bytes.now.items) }
{
    Ok(bytes.as_slice().to_vec(*bytes.allocator())?)
}

impl KeeperFiles for SeenFiles {
    ghost use Rattle.live_world.specs.machinery.Seen.{TellsSeen};

    ghost acts = { λ files done. TellsSeen files.last files.log.items done };

    fn read_log(&mut self, alloc: Global) -> Result<Vec<u8>, FilesFault> {
        Ok(mem::replace(&mut self.log, Vec::new(alloc)))
    }

    fn cut(&mut self, _size: usize) -> Result<(), FilesFault> {
        Ok(())
    }

    fn add(&mut self, _bytes: &[u8]) -> Result<(), FilesFault> {
        Ok(())
    }

    fn sync(&mut self) -> Result<(), FilesFault> {
        Ok(())
    }

    fn last_fence(&mut self, _alloc: Global) -> Result<Term, FilesFault> {
        Ok(self.last)
    }

    fn add_fence(&mut self, _term: Term) -> Result<(), FilesFault> {
        Ok(())
    }
}

/// The log is fenced off for the term by whoever saw this last fence, and has these bytes where it is read.
pub(crate) fn fenced(
    alloc: Global,
    last: Term,
    term: Term,
    log: Vec<u8>,
) -> Result<FencedLog<SeenFiles>, FenceFault>
    ensures term { IfOk result (λ fenced. fenced.term ≡ term) }
    ensures log { IfOk result (λ fenced. fenced.files.log.items ≡ log.items) }
    ensures above { OnOk result (last < term) }
    ensures in_reach { OnOk result (term ≤ last + TERM_REACH) }
    ensures refused { IfErr result (λ f. IsNotFencedOff last term f) }
{
    match fence_off(alloc, SeenFiles { last, log }, term) {
        Ok(fenced) => Ok(fenced),
        Err(refused) => Err(refused.fault),
    }
}

/// A log that was handed over, behind the line that says so.
#[derive(Drop)]
pub struct HandedTo {
    /// The keeper whose log it is.
    pub keeper: Keeper,
    /// The term to which it was handed over.
    pub term: Term,
    /// The line, and the frames.
    pub bytes: Vec<u8>,
}

/// What is handed over of a log that was read behind its fence.
pub(crate) fn hand_over(
    alloc: Global,
    guest: &Guest,
    keeper: Keeper,
    read: LogRead,
) -> Result<HandedTo, LogFault>
    ensures handed { IfOk result (λ handed. HasHanded guest.now keeper (read_view read) handed) }
    ensures refused { IfErr result (λ f. IsNotRead guest.now (read_view read) f) }
{
    let LogRead {
        put: FencePut { last, term },
        log,
    } = read;
    let fenced = match fenced(alloc, last, term, log) {
        Ok(fenced) => fenced,
        Err(_) => return Err(LogFault::Files(FilesFault::Memory)),
    };
    match fenced.hand_over(alloc, guest, keeper) {
        Ok(HandedOver { bytes, files: _ }) => Ok(HandedTo {
            keeper,
            term,
            bytes,
        }),
        Err(refused) => Err(refused.fault),
    }
}
