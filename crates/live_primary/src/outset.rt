//! Going live from what was handed over.

ghost use Rattle.std.specs.Prelude.{◌≡◌, ◌++◌, ℕ, List, [], length, map, IfOk};
ghost use Rattle.fragment_codec.specs.Streams.{spelling};
ghost use Rattle.log_join.specs.Stores.{clashes_of};
ghost use Rattle.log_streams.specs.Stores.{IsStoreText};
ghost use Rattle.fragment_codec.specs.declared.frame.Frame.TheVariants.{Opening as OpeningFrame};
ghost use Rattle.go_live.specs.Joined.{AreJoined};
ghost use Rattle.fenced_live.specs.declared.given.Given.{Given as given_of_keeper};
ghost use Rattle.leading.specs.Beginning.{GoesLiveGiven};
ghost use Rattle.leading.specs.Handed.{IsWhole};
ghost use Rattle.live_primary.specs.Outsets.{AreGivenOf, AreSentFirst, SetsOut};
ghost use Rattle.live_primary.specs.Pairs.{AreOfPair};
ghost use Rattle.wire.specs.declared.pairs.Pair.{Pair as pair_of_wire};

use crate::faults::{clash, handed_fault, image_fault, lead_fault, store_fault};
use crate::pairs::read_own_pair;
use ends::{Fault, Host, NamedFile, Paths, RemovedFile, file_fault, read_file, remove_file};
use fenced_live::Given;
use fragment_codec::Frame;
use ft_types::{Guest, Memory, MemorySink, Quorum};
use guest_image::{Image, read_image};
use leading::{HandedLog, Leader, read_handed_log};
use live_words::PrimaryWords;
use log_join::Store;
use log_streams::{write_frames, write_store};
use std::alloc::Global;
use std::result::Result;

/// A primary that has gone live.
#[derive(Drop)]
pub(crate) struct Outset<'a> {
    pub(crate) guest: Guest,
    pub(crate) leader: Leader,
    /// What keepers are sent first: all frames that were handed over, and then the opening of the term.
    pub(crate) frames: Vec<u8>,
    /// What was handed over is gone: who does not have all of it sends nothing (`Office::open`).
    pub(crate) removed: Vec<RemovedFile<'a>>,
}

/// The image of these bytes.
fn image_in(alloc: Global, bytes: &[u8]) -> Result<Image, Fault> {
    match read_image(alloc, bytes) {
        Ok(image) => Ok(image),
        Err(fault) => Err(image_fault(fault)),
    }
}

/// The image of this name.
pub fn read_image_file<R: Paths + AllocGlobal>(rt: &R, name: &str) -> Result<Image, Fault> {
    match read_file(rt, name) {
        Ok(bytes) => image_in(rt.alloc(), &bytes),
        Err(error) => Err(file_fault(&error, NamedFile::Image)),
    }
}

/// What these bytes hand over, behind the line of their pair.
pub(crate) fn log_in(
    alloc: Global,
    guest: Guest,
    number: usize,
    bytes: &[u8],
) -> Result<HandedLog, Fault>
    ensures { IfOk result (λ log. IsWhole guest bytes.now log) }
{
    match read_handed_log(alloc, guest, bytes) {
        Ok(log) => Ok(log),
        Err(fault) => Err(handed_fault(number, fault)),
    }
}

/// The bytes that were handed over, with this number.
pub(crate) fn handed_bytes<H: Host>(rt: &H, number: usize, name: &str) -> Result<Vec<u8>, Fault> {
    match read_file(rt, name) {
        Ok(bytes) => Ok(bytes),
        Err(error) => Err(file_fault(&error, NamedFile::Handed(number))),
    }
}

/// The logs that were handed over, all by keepers of one pair, whose quorum this is.
fn handed_logs<H: Host>(
    rt: &H,
    guest: Guest,
    quorum: Quorum,
    names: &[&str],
) -> Result<Vec<HandedLog>, Fault>
    ensures { IfOk result (λ logs. (pair : pair_of_wire) × (pair.quorum ≡ quorum) × AreOfPair guest pair logs.items) }
{
    let mut logs = Vec::new(rt.alloc());
    let mut pair = None;
    for number in 0..names.len() {
        let bytes = handed_bytes(rt, number, names[number])?;
        let (own, rest) = read_own_pair(&guest, quorum, pair, number, &bytes)?;
        logs.push(log_in(rt.alloc(), guest, number, rest)?)?;
        pair = Some(own);
    }
    Ok(logs)
}

/// What was handed over makes one primary: whoever is started once more by the same words finds it no more, also where the machine stopped.
fn remove_all<'a, H: Host>(rt: &H, names: &[&'a str]) -> Result<Vec<RemovedFile<'a>>, Fault>
    ensures { IfOk result (λ removed. map (λ file. file.name) removed.items ≡ names.now) }
{
    let mut removed = Vec::new(rt.alloc());
    removed.reserve(names.len())?;
    for number in 0..names.len() {
        match remove_file(rt, names[number]) {
            Ok(file) => removed.push_reserved(file),
            Err(error) => return Err(file_fault(&error, NamedFile::Handed(number))),
        }
    }
    Ok(removed)
}

/// All frames that were handed over, each once.
fn joined(alloc: Global, guest: Guest, logs: &[HandedLog]) -> Result<Store, Fault>
    ensures all { IfOk result (λ store. AreJoined guest (map (λ l. l.store) logs.now) store) }
    ensures clean { IfOk result (λ store. clashes_of store ≡ 0) }
{
    let mut store = Store::new(alloc, guest);
    for log in logs {
        match store.join(alloc, &log.store) {
            Ok(()) => {}
            Err(fault) => return Err(store_fault(fault)),
        }
    }
    if store.clashes() > 0 {
        return Err(clash());
    }
    Ok(store)
}

/// The bytes of all frames of a store, and then of this one.
fn sent_first(alloc: Global, store: &Store, opening: Frame) -> Result<Vec<u8>, Memory>
    ensures { IfOk result (λ bytes. (text : List ℕ) × IsStoreText store.now text × (bytes.items ≡ text ++ spelling opening)) }
{
    let mut sink = MemorySink::new(alloc, usize::MAX);
    if write_store(alloc, store, &mut sink).is_err() {
        return Err(Memory);
    }
    match write_frames(&[opening], &mut sink) {
        Ok(()) => Ok(sink.into_bytes()),
        Err(_) => Err(Memory),
    }
}

/// What keepers are sent first: the bytes of all frames of these logs, each once, and then of the opening.
fn first_frames(
    alloc: Global,
    guest: Guest,
    logs: &[HandedLog],
    opening: Frame,
) -> Result<Vec<u8>, Fault>
    ensures { IfOk result (λ bytes. AreSentFirst guest logs.now opening bytes.items) }
{
    let store = joined(alloc, guest, logs)?;
    Ok(sent_first(alloc, &store, opening)?)
}

/// The stores of these logs, as they were given.
fn given_of<'k>(alloc: Global, logs: &'k [HandedLog]) -> Result<Vec<Given<'k>>, Memory>
    ensures keepers { IfOk result (λ given. map (λ g. g.keeper) given.items ≡ map (λ l. l.keeper) logs.now) }
    ensures terms { IfOk result (λ given. map (λ g. g.term) given.items ≡ map (λ l. l.term) logs.now) }
    ensures stores { IfOk result (λ given. map (λ g. g.store.now) given.items ≡ map (λ l. l.store) logs.now) }
{
    let mut given = Vec::new(alloc);
    given.reserve(logs.len())?;
    for log in logs {
        given.push_reserved(log.given());
    }
    Ok(given)
}

/// The primary that goes live from these logs, and its opening.
fn go_live(
    alloc: Global,
    image: &Image,
    words: &PrimaryWords<'_>,
    logs: &[HandedLog],
) -> Result<(Leader, Frame), Fault>
    ensures live { IfOk result (λ r. (given : List given_of_keeper) × AreGivenOf logs.now given × GoesLiveGiven image.now words.now.quorum words.now.term given r.0.primary r.0.gate) }
    ensures opening { IfOk result (λ r. r.1 ≡ OpeningFrame r.0.primary.opening) }
    ensures released { IfOk result (λ r. r.0.released ≡ []) }
{
    let given = given_of(alloc, logs)?;
    match Leader::go_live(alloc, image, &given, words.quorum, words.term) {
        Ok(live) => Ok(live),
        Err(fault) => Err(lead_fault(fault)),
    }
}

/// Goes live from what was handed over, and removes that.
pub(crate) fn set_out<'a, H: Host>(rt: &H, words: &PrimaryWords<'a>) -> Result<Outset<'a>, Fault>
    ensures live { IfOk result (λ o. SetsOut words.now.quorum words.now.term o.leader.primary o.leader.gate o.frames.items) }
    ensures released { IfOk result (λ o. o.leader.released ≡ []) }
    ensures removed { IfOk result (λ o. map (λ file. file.name) o.removed.items ≡ words.now.handed.items) }
{
    let alloc = rt.alloc();
    let image = read_image_file(rt, words.image)?;
    let guest = image.guest();
    let logs = handed_logs(rt, guest, words.quorum, &words.handed)?;
    let (leader, opening) = go_live(alloc, &image, words, &logs)?;
    let frames = first_frames(alloc, guest, &logs, opening)?;
    let removed = remove_all(rt, &words.handed)?;
    Ok(Outset {
        guest,
        leader,
        frames,
        removed,
    })
}
