//! From streams of frames to the text of the machine.

ghost use Rattle.std.specs.Prelude.{◌≡◌, ℕ, List, map, slice_get, Some, Err, IfOk, IfErr, OnOk};
ghost use Rattle.log_join.specs.Stores.{StoreView};
ghost use Rattle.guest_image.specs.Image.{guest_of};
ghost use Rattle.log_streams.specs.declared.faults.StreamsFault.{StreamsFault as StreamsFaultName};
ghost use Rattle.log_streams.specs.Streams.{OfStreams};
ghost use Rattle.log_streams.specs.Faults.{IsFirstFault, StandsInBytes, AnswersOnly, Fails, IsBehind, GaveRight};
ghost use Rattle.hart_replay.specs.Images.{GuestHistory};
ghost use Rattle.log_streams.specs.Honest.{TellTruly, IsOfHistory, IsOfDevices};
ghost use Rattle.log_streams.specs.Outcome.{IsOutcome, IsOutcomeOf, WritesTextOf, IsCause, IsReplayFault, IsCauseIn};

use crate::faults::StreamsFault;
use crate::reading::read_store;
use crate::replays::Replays;
use closed_cut::position;
use ft_types::{Sink, Source};
use guest_image::{Image, Machine};
use hart_replay::{ReplayFault, plan};
use log_join::Store;
use std::alloc::Global;

/// The machine that the plan of a store leads to.
fn replay_store<P: Replays>(
    alloc: Global,
    image: &Image,
    store: &Store,
    replays: &P,
) -> Result<Machine, ReplayFault>
    requires may { P.may_run replays.now }
    requires guest { store.now.guest ≡ guest_of image.now }
    ensures ok { IfOk result (λ m. IsOutcomeOf image.now store.now m) }
    ensures fault { IfErr result (λ f. IsReplayFault image.now store.now f) }
{
    let position = position(alloc, store)?;
    let plan = plan(alloc, store, &position)?;
    replays.replay(alloc, image, &plan)
}

/// Writes the text of the machine that the plan of a store leads to.
fn write_replayed<P: Replays, W: Sink>(
    alloc: Global,
    image: &Image,
    store: &Store,
    replays: &P,
    out: &mut W,
) -> Result<(), StreamsFault>
    requires may { P.may_run replays.now }
    requires guest { store.now.guest ≡ guest_of image.now }
    ensures written { WritesTextOf (IsOutcomeOf image.now store.now) result (W.bytes out.old) (W.bytes out.new) (W.failures out.old) (W.failures out.new) }
    ensures fault { IfErr result (λ f. IsCauseIn image.now store.now f) }
{
    match replay_store(alloc, image, store, replays) {
        Ok(machine) => match machine.write_text(out) {
            Ok(()) => Ok(()),
            Err(_) => Err(StreamsFault::Write),
        },
        Err(ReplayFault::Memory) => Err(StreamsFault::Memory),
        Err(fault) => Err(StreamsFault::Replay(fault)),
    }
}

/// Writes the text of the machine that the frames of the streams lead to.
pub fn replay_streams<R: Source, P: Replays, W: Sink>(
    alloc: Global,
    image: &Image,
    readers: &mut [R],
    replays: &P,
    out: &mut W,
) -> Result<(), StreamsFault>
    // Of threads alone.
    requires { P.may_run replays.now }

    // Nothing is written before the replay is done, and then the text of the machine that the plan of the streams' frames
    // leads to.
    ensures written { OfStreams (map R.left readers.old) (λ streams.
        WritesTextOf (IsOutcome image.now streams) result (W.bytes out.old) (W.bytes out.new) (W.failures out.old) (W.failures out.new)) }

    // A fault is the first one of the streams, or where the plan of their frames has no end.
    ensures fault { IfErr result (λ f. OfStreams (map R.left readers.old) (λ streams. IsCause image.now streams f)) }

    // Of streams of honest frames of one history of the image it is the text of the history's machine at the position of
    // their join, and only memory, a reader or the writer may fail.
    ensures history { (history : GuestHistory) → OfStreams (map R.left readers.old) (λ streams. TellTruly image.now history streams →
        WritesTextOf (IsOfHistory image.now history streams) result (W.bytes out.old) (W.bytes out.new) (W.failures out.old) (W.failures out.new)) }
    ensures only_devices { IfErr result (λ f. (history : GuestHistory) → OfStreams (map R.left readers.old) (λ streams. TellTruly image.now history streams →
        IsOfDevices f)) }

    // Where the streams have a fault in their bytes, the first one is the answer, unless a reader or memory failed before.
    ensures exact { (streams : List (List ℕ)) (f : StreamsFaultName) → map R.left readers.old ≡ map Some streams → StandsInBytes f →
        IsFirstFault 0 (guest_of image.now) streams f → AnswersOnly result f }

    // The streams behind a fault are not read.
    ensures behind { IfErr result (λ f. (i : ℕ) → IsBehind f i → slice_get readers.new i ≡ slice_get readers.old i) }

    // A reader failed in this call exactly where the fault says so.
    ensures failed { IfErr result (λ f. (i : ℕ) (reader later : R) → slice_get readers.old i ≡ Some reader → slice_get readers.new i ≡ Some later →
        Fails i (R.failures reader) (R.failures later) f) }
    // It had given no fault before: of a fault in the bytes and a reader that fails, the first is the answer.
    ensures right { (i : ℕ) (reader later : R) → result ≡ Err (StreamsFault.Read i) → slice_get readers.old i ≡ Some reader →
        slice_get readers.new i ≡ Some later → GaveRight (guest_of image.now) (R.left reader) (R.left later) }
    ensures kept { OnOk result ((i : ℕ) (reader later : R) → slice_get readers.old i ≡ Some reader → slice_get readers.new i ≡ Some later →
        R.failures later ≡ R.failures reader) }
{
    let store = read_store(alloc, &image.guest(), readers)?;
    write_replayed(alloc, image, &store, replays, out)
}
