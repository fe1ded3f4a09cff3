//! A keeper over its log.

ghost use Rattle.std.specs.Prelude.{◌≡◌, ◌≢◌, ◌≤◌, ◌+◌, ◌++◌, ◌∷◌, ℕ, List, [], length, vec_len, vec_capacity, max, Ok, None, IfOk, IfErr, OnOk, OnErr, IfSome, IsTrue, ◌↔◌, option_map};
ghost use Rattle.fragment_codec.specs.declared.frame.Frame.{Frame as LogFrame};
ghost use Rattle.fragment_codec.specs.Streams.{spelling, Splits};
ghost use Rattle.log_join.specs.Answers.{answer_to};
ghost use Rattle.log_join.specs.Coming.{Come, IsJoinOf};
ghost use Rattle.log_join.specs.Stores.{StoreView, IsJoin, alone};
ghost use Rattle.stations.specs.Acts.{Does};
ghost use Rattle.stations.specs.Stations.{Answers, AnswersAs, IsBegun, IsOnLog, IsBeginFault, IsFar, IsNoKeepers, IsNotLogged, IsPutFault, logging, said_of};

use crate::faults::{FilesFault, LogFault};
use crate::files::KeeperFiles;
use crate::log_front::{LogFront, read_frames};
use crate::reach::is_out_of_reach;
use crate::written::WrittenFrame;
use fragment_codec::{FIRST_TERM, Frame};
use ft_types::{Guest, Keeper, Memory, Position, Term, boxed};
use log_join::{Put, Store};
use std::alloc::Global;
use std::marker::Model;
use std::option::Option;
use std::result::Result;
use tracked_position::Tracked;
use wire::Acknowledgement;

/// Puts a frame of a log into the store.
fn put_logged(alloc: Global, held: &mut Tracked, frame: Frame) -> Result<(), LogFault>
    ensures joined { OnOk result (IsJoin held.old (alone frame) held.new) }
    ensures fault { IfErr result (λ f. IsPutFault held.old frame f) }
{
    match held.put(alloc, frame)? {
        Put::New | Put::Same => Ok(()),
        Put::OtherGuest => Err(LogFault::OtherGuest),
        Put::Clash => Err(LogFault::Clash),
    }
}

/// The store of the frames of a log.
fn hold(alloc: Global, guest: Guest, frames: Vec<Frame>) -> Result<Tracked, LogFault>
    ensures join { IfOk result (λ held. IsJoinOf guest frames.items held) }
    ensures fault { IfErr result (λ f. IsBeginFault guest frames.items f) }
{
    let mut held = Tracked::new(alloc, guest);
    for frame in frames {
        put_logged(alloc, &mut held, frame)?;
    }
    Ok(held)
}

/// Adds bytes for which there is room.
fn add(fresh: &mut Vec<u8>, bytes: &[u8])
    requires { vec_len fresh.old + length bytes.now ≤ vec_capacity fresh.old }
    ensures { fresh.new.items ≡ fresh.old.items ++ bytes.now }
{
    let _room = fresh.extend_from_slice(bytes);
}

/// What is acknowledged of a store behind a fence.
fn acknowledged(held: &Tracked, fence: Term) -> Option<Position>
    ensures answers { Answers held.now fence result }
    ensures harts { IfSome result (λ p. length p.counts ≡ held.now.guest.harts) }
{
    let position = held.position();
    if position.term < fence.max(FIRST_TERM) {
        return None;
    }
    Some(*position)
}

/// A keeper's acknowledgement of a position.
fn said_by(keeper: Keeper, position: Option<Position>) -> Option<Acknowledgement>
    ensures { result ≡ option_map (said_of keeper) position }
{
    let Position { term, counts, .. } = position?;
    Some(Acknowledgement {
        term,
        keeper,
        counts,
    })
}

/// A keeper over its log: its number, the store of its frames, the bytes of those that are not in the log yet, and the greatest fence that it saw.
#[derive(Drop)]
pub struct KeeperStation {
    keeper: Keeper,
    held: Box<Tracked>,
    fresh: Vec<u8>,
    seen: Term,
}

impl Model for KeeperStation {
    ghost use Rattle.stations.specs.Stations.{StationView};

    ghost Value = { StationView };

    ghost use Rattle.std.specs.Coded.{codes};
    ghost use Rattle.log_join.specs.Stores.{coded_store};

    ghost coded = { Prim.hlevel (codes, coded_store) };

    ghost view = { λ s. record { keeper = s.keeper; store = s.held.value; fresh = s.fresh.items; seen = s.seen } };
}

impl KeeperStation {
    /// The keeper of a guest, of this number, that begins, or comes back, with what its log has. A rest that is less than a whole frame is cut off. It
    /// doesn't begin where the log has a fault, which is left as it is.
    pub fn begin<F: KeeperFiles>(
        alloc: Global,
        guest: Guest,
        keeper: Keeper,
        files: &mut F,
    ) -> Result<KeeperStation, LogFault>
        ensures begun { IfOk result (λ station. IsBegun guest keeper (F.acts files.old) (F.acts files.new) station) }
        ensures fault { IfErr result (λ f. IsNoKeepers guest (F.acts files.old) (F.acts files.new) f) }
    {
        let log = files.read_log(alloc)?;
        let LogFront {
            frames,
            size,
            fault,
        } = read_frames(alloc, &log)?;
        if let Some(fault) = fault {
            return Err(LogFault::Frame(fault));
        }
        let held = hold(alloc, guest, frames)?;
        let held = boxed(alloc, held)?;
        files.cut(size)?;
        Ok(KeeperStation {
            keeper,
            held,
            fresh: Vec::new(alloc),
            seen: 0,
        })
    }

    /// The store of all its frames.
    pub fn store(&self) -> &Store
        ensures { result.now ≡ self.now.store }
    {
        self.held.store()
    }

    /// Whether the frame opens a term that is out of reach of the last one that the keeper knows: the greatest fence that it saw, or the last term of its
    /// store's chain.
    pub fn is_far(&self, frame: &WrittenFrame) -> bool
        ensures { IsTrue result ↔ IsFar self.now frame.now }
    {
        match frame.frame() {
            Frame::Opening(opening) => {
                let last = self.seen.max(self.held.position().top);
                is_out_of_reach(last, opening.term())
            }
            Frame::Log(_) => false,
        }
    }

    /// Takes a frame that is new, and its bytes.
    fn take_new(&mut self, alloc: Global, frame: WrittenFrame) -> Result<(), Memory>
        requires { answer_to self.old.store frame ≡ Put.New }
        ensures joined { OnOk result (IsJoin self.old.store (alone frame) self.new.store) }
        ensures fresh { OnOk result (self.new.fresh ≡ self.old.fresh ++ spelling frame) }
        ensures one { OnOk result (Splits (spelling frame) (frame ∷ []) []) }
        ensures seen { self.new.seen ≡ self.old.seen }
        ensures keeper { self.new.keeper ≡ self.old.keeper }
        ensures err { OnErr result (self.new ≡ self.old) }
    {
        let (frame, bytes) = frame.into_parts();
        self.fresh.reserve(bytes.len())?;
        self.held.put(alloc, frame)?;
        add(&mut self.fresh, &bytes);
        Ok(())
    }

    /// Takes a frame, of whatever term, unless another content stands at its key: what was acknowledged is never given up.
    pub fn take(&mut self, alloc: Global, frame: WrittenFrame) -> Result<Put, Memory>
        // The answer is as its key stands.
        ensures answer { IfOk result (λ p. p ≡ answer_to self.old.store frame) }
        // One that is new is joined to the store, and its spelling is to be added to the log. No other changes anything.
        ensures joined { result ≡ Ok Put.New → IsJoin self.old.store (alone frame) self.new.store }
        ensures fresh { result ≡ Ok Put.New → self.new.fresh ≡ self.old.fresh ++ spelling frame }
        // That is this frame and nothing else.
        ensures one { result ≡ Ok Put.New → Splits (spelling frame) (frame ∷ []) [] }
        ensures stays { IfOk result (λ p. p ≢ Put.New → self.new ≡ self.old) }
        // Memory is refused only to one that is new, and then nothing changes.
        ensures memory { OnErr result (answer_to self.old.store frame ≡ Put.New) }
        ensures err { OnErr result (self.new ≡ self.old) }
        ensures seen { self.new.seen ≡ self.old.seen }
        ensures keeper { self.new.keeper ≡ self.old.keeper }
        // So it stays the keeper of its log.
        ensures log { (log : List ℕ) → IsOnLog log self.old → IsOnLog log self.new }
    {
        let put = self.held.store().answer(frame.frame());
        if let Put::New = put {
            self.take_new(alloc, frame)?;
        }
        Ok(put)
    }

    /// Adds to the log what is fresh, brings the log to disk, and then reads the fence: what it acknowledges behind that, and behind each fence that
    /// was seen before. Where a file fails the keeper is gone, and is to begin again.
    pub fn log_and_acknowledge<F: KeeperFiles>(
        self,
        alloc: Global,
        files: &mut F,
    ) -> Result<(KeeperStation, Option<Acknowledgement>), FilesFault>
        // In this order; and no fence is forgotten.
        ensures acts { IfOk result (λ r. (fence : ℕ) × Does (F.acts files.old) (F.acts files.new) (logging self.fresh fence) × (r.0.seen ≡ max self.seen fence)) }
        // What this keeper acknowledges is the position of the store.
        ensures says { IfOk result (λ r. AnswersAs self.keeper self.store r.0.seen r.1) }
        ensures harts { IfOk result (λ r. IfSome r.1 (λ a. length a.counts ≡ self.store.guest.harts)) }
        // All its frames are in the log now.
        ensures store { IfOk result (λ r. r.0 ≡ record { keeper = self.keeper; store = self.store; fresh = []; seen = r.0.seen }) }
        ensures log { IfOk result (λ r. (log : List ℕ) → IsOnLog log self → IsOnLog (log ++ self.fresh) r.0) }
        // At a fault the files failed, behind a beginning of what is fresh or all of it, and nothing else was added.
        ensures failed { IfErr result (λ f. IsNotLogged self.fresh (F.acts files.old) (F.acts files.new) f) }
    {
        let KeeperStation {
            keeper,
            held,
            mut fresh,
            seen,
        } = self;
        files.add(&fresh)?;
        files.sync()?;
        let fence = files.last_fence(alloc)?;
        let seen = seen.max(fence);
        fresh.clear();
        let said = said_by(keeper, acknowledged(&held, seen));
        let station = KeeperStation {
            keeper,
            held,
            fresh,
            seen,
        };
        Ok((station, said))
    }
}
