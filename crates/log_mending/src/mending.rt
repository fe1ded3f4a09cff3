//! A log is mended from other keepers' logs.

ghost use Rattle.std.specs.Prelude.{◌≡◌, ◌⊎◌, ◌++◌, ◌∷◌, ℕ, List, [], map, IfOk, IfErr, OnOk};
ghost use Rattle.ft_types.specs.Guests.{GuestParts};
ghost use Rattle.fragment_codec.specs.declared.frame.Frame.{Frame as frame_of_specs};
ghost use Rattle.fragment_codec.specs.Streams.{spelling, Splits};
ghost use Rattle.log_join.specs.Answers.{answer_to};
ghost use Rattle.log_join.specs.Stores.{IsJoin, alone};
ghost use Rattle.log_mending.specs.Filling.{IsFaultOfFrame, IsFaultOfFrames, IsFaultOfLogs};
ghost use Rattle.log_mending.specs.Mending.{AreFronts, IsFilled, IsMended, IsNotMended, IsWholeLog};
ghost use Rattle.log_mending.specs.Telling.{IsRefused};
ghost use Rattle.stations.specs.Acts.{SawLog, CutTo, Added, Synced, Fenced, Does};

use crate::faults::{MendFault, Misfit};
use crate::gathering::{Gathered, gather};
use crate::scanning::has_frames;
use fragment_codec::{FRAME_LIMIT, Frame, write_frame};
use ft_types::{Guest, Memory, MemorySink, Term};
use log_join::{Put, Store};
use stations::{FilesFault, KeeperFiles, LogFront, read_frames};
use std::alloc::Global;
use std::result::Result;

/// The bytes of a frame.
fn spelled(alloc: Global, frame: &Frame) -> Result<Vec<u8>, Memory>
    ensures bytes { IfOk result (λ bytes. bytes.items ≡ spelling frame.now) }
    ensures one { Splits (spelling frame.now) (frame.now ∷ []) [] }
{
    let mut sink = MemorySink::new(alloc, FRAME_LIMIT);
    match write_frame(frame, &mut sink) {
        Ok(()) => Ok(sink.into_bytes()),
        Err(_) => Err(Memory),
    }
}

/// What is added to a log: the store of all that it has then, and the bytes of those frames that it lacked.
#[derive(Drop)]
struct Filling {
    store: Store,
    fresh: Vec<u8>,
}

impl Filling {
    /// Adds a frame that lacks.
    fn add_new(&mut self, alloc: Global, frame: Frame) -> Result<(), Memory>
        requires { answer_to self.old.store frame ≡ Put.New }
        ensures { OnOk result ((guest : GuestParts) (front : List ℕ) (own given : List frame_of_specs) → IsFilled guest front own given self.old.fresh.items self.old.store →
            IsFilled guest front own (given ++ frame ∷ []) self.new.fresh.items self.new.store) }
    {
        let bytes = spelled(alloc, &frame)?;
        self.store.put(frame)?;
        self.fresh.extend_from_slice(&bytes)?;
        Ok(())
    }

    /// Adds nothing for a frame that is there.
    fn add_same(&mut self, frame: Frame) -> Result<(), Memory>
        requires { answer_to self.old.store frame ≡ Put.Same }
        ensures { OnOk result ((guest : GuestParts) (front : List ℕ) (own given : List frame_of_specs) → IsFilled guest front own given self.old.fresh.items self.old.store →
            IsFilled guest front own (given ++ frame ∷ []) self.new.fresh.items self.new.store) }
    {
        self.store.put(frame)?;
        Ok(())
    }

    /// Adds a frame of the other log of this number, where it lacks.
    fn add_frame(&mut self, alloc: Global, number: usize, frame: Frame) -> Result<(), MendFault>
        ensures filled { OnOk result ((guest : GuestParts) (front : List ℕ) (own given : List frame_of_specs) → IsFilled guest front own given self.old.fresh.items self.old.store →
            IsFilled guest front own (given ++ frame ∷ []) self.new.fresh.items self.new.store) }
        ensures fault { IfErr result (λ f. IsFaultOfFrame self.old.store frame number f) }
    {
        match self.store.answer(&frame) {
            Put::New => self.add_new(alloc, frame)?,
            Put::Same => self.add_same(frame)?,
            Put::OtherGuest => return Err(MendFault::Other(number, Misfit::OtherGuest)),
            Put::Clash => return Err(MendFault::Other(number, Misfit::Clash)),
        }
        Ok(())
    }

    /// Adds the frames of the other log of this number that lack.
    fn add_frames(
        &mut self,
        alloc: Global,
        number: usize,
        frames: Vec<Frame>,
    ) -> Result<(), MendFault>
        ensures filled { OnOk result ((guest : GuestParts) (front : List ℕ) (own given : List frame_of_specs) → IsFilled guest front own given self.old.fresh.items self.old.store →
            IsFilled guest front own (given ++ frames.items) self.new.fresh.items self.new.store) }
        ensures fault { IfErr result (λ f. (guest : GuestParts) (front : List ℕ) (own given : List frame_of_specs) →
            IsFilled guest front own given self.old.fresh.items self.old.store → IsFaultOfFrames guest (own ++ (given ++ frames.items)) number f) }
    {
        for frame in frames {
            self.add_frame(alloc, number, frame)?;
        }
        Ok(())
    }

    /// Adds the frames at the fronts of other logs that lack.
    fn add_logs(&mut self, alloc: Global, others: &[Vec<u8>]) -> Result<(), MendFault>
        ensures filled { OnOk result ((guest : GuestParts) (front : List ℕ) (own : List frame_of_specs) → IsFilled guest front own [] self.old.fresh.items self.old.store →
            (given : List frame_of_specs) × AreFronts (map (λ log. log.items) others.now) given × IsFilled guest front own given self.new.fresh.items self.new.store) }
        ensures fault { IfErr result (λ f. (guest : GuestParts) (front : List ℕ) (own : List frame_of_specs) →
            IsFilled guest front own [] self.old.fresh.items self.old.store → IsFaultOfLogs guest own (map (λ log. log.items) others.now) f) }
    {
        for number in 0..others.len() {
            let LogFront { frames, .. } = read_frames(alloc, &others[number])?;
            self.add_frames(alloc, number, frames)?;
        }
        Ok(())
    }
}

/// What is done with a log: how many of its bytes stay, and which are added to them.
#[derive(Drop)]
struct Plan {
    size: usize,
    fresh: Vec<u8>,
}

/// What mends a log of the guest, from other keepers' logs.
fn plan_for(alloc: Global, guest: Guest, log: &[u8], others: &[Vec<u8>]) -> Result<Plan, MendFault>
    ensures mended { IfOk result (λ plan. IsMended guest log.now (map (λ log. log.items) others.now) plan.size plan.fresh.items) }
    ensures fault { IfErr result (λ f. IsNotMended guest log.now (map (λ log. log.items) others.now) f) }
{
    let LogFront { frames, size, .. } = read_frames(alloc, log)?;
    let (_, behind) = log.split_at(size);
    if has_frames(alloc, behind)? {
        return Err(MendFault::Behind);
    }
    let Gathered { store, misfit, .. } = gather(alloc, guest, frames)?;
    if let Some(misfit) = misfit {
        return Err(MendFault::Own(misfit));
    }
    let mut filling = Filling {
        store,
        fresh: Vec::new(alloc),
    };
    filling.add_logs(alloc, others)?;
    Ok(Plan {
        size,
        fresh: filling.fresh,
    })
}

/// Adds bytes to the log, and brings them to disk.
fn add_synced<F: KeeperFiles>(files: &mut F, bytes: &[u8]) -> Result<(), FilesFault>
    ensures { OnOk result (Does (F.acts files.old) (F.acts files.new) (Added bytes.now ∷ Synced ∷ [])) }
{
    files.add(bytes)?;
    files.sync()
}

/// Does it.
fn carry_out<F: KeeperFiles>(files: &mut F, plan: &Plan) -> Result<(), FilesFault>
    ensures { OnOk result (Does (F.acts files.old) (F.acts files.new) (CutTo plan.now.size ∷ Added plan.now.fresh.items ∷ Synced ∷ [])) }
{
    files.cut(plan.size)?;
    add_synced(files, &plan.fresh)
}

/// Mends a log of the guest: it is cut behind its frames, and those that it lacks are added from the fronts of other keepers' logs. It stays as it is where a
/// whole frame stands behind its first fault, since what stood between was on disk, and where frames clash.
pub fn mend<F: KeeperFiles>(
    alloc: Global,
    guest: Guest,
    files: &mut F,
    others: &[Vec<u8>],
) -> Result<(), MendFault>
    ensures mended { OnOk result ((log : List ℕ) × (size : ℕ) × (added : List ℕ) × IsMended guest log (map (λ log. log.items) others.now) size added ×
        Does (F.acts files.old) (F.acts files.new) (SawLog log ∷ CutTo size ∷ Added added ∷ Synced ∷ [])) }
    ensures refused { IfErr result (λ f. IsRefused guest (map (λ log. log.items) others.now) (F.acts files.old) (F.acts files.new) f) }
{
    let log = files.read_log(alloc)?;
    let plan = plan_for(alloc, guest, &log, others)?;
    carry_out(files, &plan)?;
    Ok(())
}

/// All that these logs have, of their frames each once.
fn gather_all(alloc: Global, guest: Guest, others: &[Vec<u8>]) -> Result<Vec<u8>, MendFault>
    ensures whole { IfOk result (λ bytes. IsWholeLog guest (map (λ log. log.items) others.now) bytes.items) }
    ensures fault { IfErr result (λ f. IsFaultOfLogs guest [] (map (λ log. log.items) others.now) f) }
{
    let mut filling = Filling {
        store: Store::new(alloc, guest),
        fresh: Vec::new(alloc),
    };
    filling.add_logs(alloc, others)?;
    Ok(filling.fresh)
}

/// Fills a log in which there is nothing with the frames at the fronts of logs that keepers handed over to a term, and then puts that term's fence.
pub fn renew<F: KeeperFiles>(
    alloc: Global,
    guest: Guest,
    files: &mut F,
    others: &[Vec<u8>],
    term: Term,
) -> Result<(), MendFault>
    ensures filled { OnOk result ((bytes : List ℕ) × IsWholeLog guest (map (λ log. log.items) others.now) bytes ×
        Does (F.acts files.old) (F.acts files.new) (Added bytes ∷ Synced ∷ Fenced term ∷ [])) }
{
    let bytes = gather_all(alloc, guest, others)?;
    add_synced(files, &bytes)?;
    files.add_fence(term)?;
    Ok(())
}
