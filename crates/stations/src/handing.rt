//! A log is fenced off for a term, and then handed to it.

ghost use Rattle.std.specs.Prelude.{◌≡◌, ◌<◌, ◌≤◌, ◌+◌, ℕ, List, [], ◌∷◌, IfOk, IfErr, OnOk, IsTrue, ◌↔◌};
ghost use Rattle.std.specs.List.{AllByRecursion};
ghost use Rattle.stations.specs.Acts.{SawFence, Fenced, Does};
ghost use Rattle.stations.specs.Handing.{IsHanded, IsHandedTo, IsNotFenced, IsNotHanded};
ghost use Rattle.stations.specs.Logs.{IsOf};
ghost use Rattle.stations.specs.declared.reach.TheConstants.{TERM_REACH};

use crate::admitting::is_of;
use crate::faults::{FenceFault, LogFault};
use crate::files::KeeperFiles;
use crate::log_front::{LogFront, read_frames};
use crate::reach::is_out_of_reach;
use fragment_codec::Frame;
use ft_types::{Guest, Keeper, Memory, Term};
use std::alloc::Global;
use std::result::Result;
use wire::{Handed, handed_line};

/// Files that refused what was asked of them, and why.
#[derive(Drop)]
pub struct Refused<F: KeeperFiles + Drop, E: Drop> {
    /// The files.
    pub files: F,
    /// Why.
    pub fault: E,
}

/// A log that is fenced off for a term: behind it nothing of an earlier one is acknowledged. `fence_off` alone makes it, and it is handed over once.
#[derive(Drop)]
pub struct FencedLog<F: KeeperFiles + Drop> {
    files: F,
    term: Term,
}

/// A log that was handed over.
#[derive(Drop)]
pub struct HandedOver<F: KeeperFiles + Drop> {
    /// A line that names the keeper and the term for which the log was fenced off, and all whole frames of the log behind it.
    pub bytes: Vec<u8>,
    /// The files.
    pub files: F,
}

/// Puts a fence for a term that is above the last fence, and in its reach.
fn put_fence<F: KeeperFiles>(alloc: Global, files: &mut F, term: Term) -> Result<(), FenceFault>
    ensures fenced { OnOk result ((last : ℕ) × (last < term) × (term ≤ last + TERM_REACH) × Does (F.acts files.old) (F.acts files.new) (SawFence last ∷ Fenced term ∷ [])) }
    ensures refused { IfErr result (λ f. IsNotFenced term (F.acts files.old) (F.acts files.new) f) }
{
    let last = files.last_fence(alloc)?;
    if last >= term {
        return Err(FenceFault::Fenced(last));
    }
    if is_out_of_reach(last, term) {
        return Err(FenceFault::Far(last));
    }
    files.add_fence(term)?;
    Ok(())
}

/// Fences a log off for a term that is above the last fence, and in its reach. The fence is on disk behind this.
pub fn fence_off<F: KeeperFiles + Drop>(
    alloc: Global,
    mut files: F,
    term: Term,
) -> Result<FencedLog<F>, Refused<F, FenceFault>>
    ensures term { IfOk result (λ fenced. fenced.term ≡ term) }
    ensures fenced { IfOk result (λ fenced. (last : ℕ) × (last < term) × (term ≤ last + TERM_REACH) × Does (F.acts files) (F.acts fenced.files) (SawFence last ∷ Fenced term ∷ [])) }
    // A term that is not above the last fence, or out of its reach, gets none; any other is refused only where the files failed.
    ensures refused { IfErr result (λ r. IsNotFenced term (F.acts files) (F.acts r.files) r.fault) }
{
    match put_fence(alloc, &mut files, term) {
        Ok(()) => Ok(FencedLog { files, term }),
        Err(fault) => Err(Refused { files, fault }),
    }
}

/// Whether the frames are of the guest.
fn are_own(guest: &Guest, frames: &[Frame]) -> bool
    ensures { IsTrue result ↔ AllByRecursion (IsOf guest.now) frames.now }
{
    frames.iter().all(|frame| is_of(frame, guest))
}

/// Reads the whole frames of a log of this guest, as bytes.
fn read_own<F: KeeperFiles>(
    alloc: Global,
    guest: &Guest,
    files: &mut F,
) -> Result<Vec<u8>, LogFault>
    ensures handed { IfOk result (λ handed. IsHanded guest.now (F.acts files.old) (F.acts files.new) handed.items) }
    ensures fault { IfErr result (λ f. IsNotHanded guest.now (F.acts files.old) (F.acts files.new) f) }
{
    let mut log = files.read_log(alloc)?;
    let LogFront {
        frames,
        size,
        fault,
    } = read_frames(alloc, &log)?;
    if let Some(fault) = fault {
        return Err(LogFault::Frame(fault));
    }
    if !are_own(guest, &frames) {
        return Err(LogFault::OtherGuest);
    }
    log.truncate(size);
    Ok(log)
}

/// The frames, behind the line that hands them over.
fn behind_line(
    alloc: Global,
    guest: &Guest,
    keeper: Keeper,
    term: Term,
    frames: &[u8],
) -> Result<Vec<u8>, Memory>
    ensures { IfOk result (λ bytes. IsHandedTo guest.now keeper term frames.now bytes.items) }
{
    let handed = Handed {
        term,
        keeper,
        length: frames.len() as u64,
    };
    let mut bytes = handed_line(guest, &handed).as_slice().to_vec(alloc)?;
    bytes.extend_from_slice(frames)?;
    Ok(bytes)
}

/// What a keeper hands over to a term: the whole frames of its log, behind their line.
fn read_behind_line<F: KeeperFiles>(
    alloc: Global,
    guest: &Guest,
    keeper: Keeper,
    term: Term,
    files: &mut F,
) -> Result<Vec<u8>, LogFault>
    ensures handed { IfOk result (λ bytes. (frames : List ℕ) × IsHanded guest.now (F.acts files.old) (F.acts files.new) frames × IsHandedTo guest.now keeper term frames bytes.items) }
    ensures fault { IfErr result (λ f. IsNotHanded guest.now (F.acts files.old) (F.acts files.new) f) }
{
    let frames = read_own(alloc, guest, files)?;
    Ok(behind_line(alloc, guest, keeper, term, &frames)?)
}

impl<F: KeeperFiles + Drop> FencedLog<F> {
    /// Hands the log over to its term, as the keeper of this number: all whole frames that it has. It has all that was acknowledged behind an earlier fence.
    pub fn hand_over(
        self,
        alloc: Global,
        guest: &Guest,
        keeper: Keeper,
    ) -> Result<HandedOver<F>, Refused<F, LogFault>>
        ensures handed { IfOk result (λ h. (frames : List ℕ) × IsHanded guest.now (F.acts self.files) (F.acts h.files) frames × IsHandedTo guest.now keeper self.term frames h.bytes.items) }
        ensures fault { IfErr result (λ r. IsNotHanded guest.now (F.acts self.files) (F.acts r.files) r.fault) }
    {
        let FencedLog { mut files, term } = self;
        match read_behind_line(alloc, guest, keeper, term, &mut files) {
            Ok(bytes) => Ok(HandedOver { bytes, files }),
            Err(fault) => Err(Refused { files, fault }),
        }
    }
}
