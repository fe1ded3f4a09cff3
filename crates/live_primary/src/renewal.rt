//! What was handed over, for a keeper that lost its log.

ghost use Rattle.std.specs.Prelude.{◌≡◌, ◌≢◌, ◌<◌, ◌++◌, ◌-◌, ◌+◌, ◌≤◌, ℕ, List, [], map, take, count_by, IfOk, IfSome, OnOk};
ghost use Rattle.std.specs.List.{AllByRecursion};
ghost use Rattle.ft_types.specs.Text.{line};
ghost use Rattle.live_primary.specs.Renewals.{IsHandedBy, IsRenewal};

use crate::faults::other_pair;
use crate::outset::{handed_bytes, log_in};
use crate::pairs::{first_pair, read_own_pair};
use ends::{Fault, Frames, FramesFault, Host};
use ft_types::{Guest, Keeper, KeeperSet, Memory, Quorum, Term, first_line};
use go_live::{LiveFault, suffice};
use leading::HandedLog;
use std::alloc::Global;
use std::option::Option;
use std::result::Result;
use wire::Pair;

/// What enough keepers of a pair handed over to a term.
#[derive(Drop)]
pub struct Renewal {
    pub pair: Pair,
    /// The frames of each log.
    pub logs: Vec<Vec<u8>>,
}

/// What one of them handed over.
#[derive(Drop)]
struct OtherLog {
    pair: Pair,
    giver: Keeper,
    frames: Vec<u8>,
}

/// The quorum of the pair: that of what was handed over before, where anything was, else the one that these bytes name, which have this number.
fn quorum_of(
    guest: &Guest,
    before: Option<Pair>,
    number: usize,
    bytes: &[u8],
) -> Result<Quorum, Fault> {
    if let Some(pair) = before {
        return Ok(pair.quorum);
    }
    match first_pair(guest, bytes) {
        Some((pair, _)) => Ok(pair.quorum),
        None => Err(other_pair(number)),
    }
}

/// Looks whether the log was handed over to the term by a keeper of the quorum other than this one.
fn look(log: &HandedLog, quorum: Quorum, keeper: Keeper, term: Term) -> Result<(), Fault>
    ensures term { OnOk result (log.now.term ≡ term) }
    ensures other { OnOk result (log.now.keeper ≢ keeper) }
    ensures member { OnOk result (log.now.keeper < quorum.keepers) }
{
    if log.term != term {
        return Err(Fault::Frames(Frames::AllHanded, FramesFault::Term));
    }
    if log.keeper == keeper || log.keeper.number() >= quorum.keepers() {
        return Err(Fault::Frames(Frames::AllHanded, FramesFault::Keeper));
    }
    Ok(())
}

/// The bytes behind the first line.
fn behind_line(alloc: Global, bytes: &[u8]) -> Result<Vec<u8>, Memory>
    ensures { IfOk result (λ behind. (text rest : List ℕ) → AllByRecursion (λ b. b ≡ 10 → ⊥) text → bytes.now ≡ line text ++ rest → behind.items ≡ rest) }
{
    match first_line(bytes) {
        Some((_, rest)) => Ok(rest.to_vec(alloc)?),
        None => Ok(Vec::new(alloc)),
    }
}

/// Looks whether these are keepers enough of the pair, whose keeper has the number.
fn look_enough(givers: KeeperSet, pair: &Pair, keeper: Keeper) -> Result<(), Fault>
    ensures own { OnOk result (keeper < pair.now.quorum.keepers) }
    ensures enough { OnOk result (pair.now.quorum.keepers - pair.now.quorum.need + 1 ≤ count_by (λ member. member) (take pair.now.quorum.keepers givers)) }
{
    let quorum = pair.quorum;
    if keeper.number() >= quorum.keepers() {
        return Err(Fault::OtherKeeper);
    }
    if suffice(givers, quorum.keepers(), quorum.need()) {
        Ok(())
    } else {
        Err(Fault::Live(LiveFault::TooFewStores.number()))
    }
}

/// Reads what another keeper than this one handed over to the term, with this number: of the pair of those before, where there are some.
fn read_other<H: Host>(
    rt: &H,
    guest: Guest,
    keeper: Keeper,
    term: Term,
    before: Option<Pair>,
    number: usize,
    name: &str,
) -> Result<OtherLog, Fault>
    ensures handed { IfOk result (λ other. IsHandedBy guest other.pair keeper term other.giver other.frames.items) }
    ensures same { IfOk result (λ other. IfSome before (λ earlier. other.pair ≡ earlier)) }
{
    let bytes = handed_bytes(rt, number, name)?;
    let quorum = quorum_of(&guest, before, number, &bytes)?;
    let (pair, rest) = read_own_pair(&guest, quorum, before, number, &bytes)?;
    let log = log_in(rt.alloc(), guest, number, rest)?;
    look(&log, quorum, keeper, term)?;
    let frames = behind_line(rt.alloc(), rest)?;
    Ok(OtherLog {
        pair,
        giver: log.keeper,
        frames,
    })
}

/// Reads what others than this keeper handed over to the term: all of one pair, whose keeper it is, by as many as a primary of the term would have to have.
pub fn read_renewal<H: Host>(
    rt: &H,
    guest: Guest,
    keeper: Keeper,
    term: Term,
    names: &[&str],
) -> Result<Renewal, Fault>
    ensures { IfOk result (λ r. IsRenewal guest keeper term r.pair (map (λ log. log.items) r.logs.items)) }
{
    let mut pair = None;
    let mut givers = KeeperSet::new();
    let mut logs = Vec::new(rt.alloc());
    for number in 0..names.len() {
        let other = read_other(rt, guest, keeper, term, pair, number, names[number])?;
        pair = Some(other.pair);
        givers = givers.with(other.giver);
        logs.push(other.frames)?;
    }
    let Some(pair) = pair else {
        return Err(Fault::Usage);
    };
    look_enough(givers, &pair, keeper)?;
    Ok(Renewal { pair, logs })
}
