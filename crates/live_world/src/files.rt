//! A keeper's files in memory: what both processes do with them, and crashes between, is in what they tell.

ghost use Rattle.std.specs.Prelude.{◌≡◌, false, take, None, Some, IfErr, IfSome, IfNone, OnOk, OnErr};
ghost use Rattle.stations.specs.Acts.{Added, Fenced, Synced};
ghost use Rattle.stations.specs.Handshake.{Did, after};
ghost use Rattle.live_world.specs.Shelves.{ShelfView, Besides, HandDoes, HasCrashed, IsNoTurn, empty_shelf, read_view};

use crate::event::{HandAct, Meanwhile, Planned};
use crate::fault::EventFault;
use crate::hand::{Stage, copy_of, fenced};
use crate::log_read::{FencePut, LogRead};
use ft_types::{Memory, Term};
use stations::{FenceFault, FilesFault, KeeperFiles};
use std::alloc::Global;
use std::marker::Model;
use std::mem;
use std::result::Result;

/// A keeper's log, and the fences beside it. What is to happen between the acts of the keeper's next call is planned.
///
/// Both processes see them as they are.
#[derive(Drop)]
pub struct MemoryFiles {
    log: Vec<u8>,
    /// How many bytes of it are on disk.
    safe: usize,
    fence: Term,
    /// Where whoever hands the log over stands.
    hand: Stage,
    /// Whether the machine crashed in the keeper's call: the keeper is gone.
    crashed: bool,
    plan: Vec<Planned>,
    /// How many acts the keeper did since the plan was made.
    acted: usize,
}

impl Model for MemoryFiles {
    ghost use Rattle.std.specs.Prelude.{◌≤◌, length};
    ghost use Rattle.live_world.specs.Shelves.{ShelfView, files_of, hand_of, read_of};

    ghost Value = { ShelfView };

    ghost view = { λ f. record { files = files_of f.log.items f.safe f.fence; hand = hand_of f.hand; read = read_of f.hand; crashed = f.crashed } };

    ghost invariant = { λ f. f.safe ≤ length f.log.items };
}

/// What becomes of the keeper's next act.
#[derive(Clone, Copy)]
enum Turn {
    /// It is done.
    Does,
    /// It fails behind so many bytes.
    Fails(usize),
}

impl MemoryFiles {
    /// Files with which nothing was done.
    pub fn new(alloc: Global) -> MemoryFiles
        ensures { result ≡ empty_shelf }
    {
        MemoryFiles {
            log: Vec::new(alloc),
            safe: 0,
            fence: 0,
            hand: Stage::Nobody,
            crashed: false,
            plan: Vec::new(alloc),
            acted: 0,
        }
    }

    /// The bytes of the log, as they are seen.
    pub fn log(&self) -> &[u8]
        ensures { result.now ≡ self.now.files.log }
    {
        self.log.as_slice()
    }

    /// How many bytes of the log are on disk.
    pub fn safe(&self) -> usize
        ensures { take result self.now.files.log ≡ self.now.files.safe }
    {
        self.safe
    }

    /// The last fence, 0 where there is none.
    pub fn fence(&self) -> Term
        ensures { result ≡ self.now.files.fence }
    {
        self.fence
    }

    /// The machine crashes, and leaves so many bytes of the log, and what is on disk at least.
    pub(crate) fn crash(&mut self, left: usize)
        ensures { HasCrashed self.old self.new }
    {
        let size = left.max(self.safe).min(self.log.len());
        self.log.truncate(size);
        self.crashed = true;
    }

    /// Whoever hands the log over sees the last fence.
    fn look(&mut self) -> Result<(), EventFault>
        ensures done { OnOk result (HandDoes HandAct.Looks self.old self.new) }
        ensures err { OnErr result (self.new ≡ self.old) }
        ensures why { IfErr result (IsNoTurn self.old HandAct.Looks) }
    {
        let Stage::Nobody = &self.hand else {
            return Err(EventFault::NoTurn);
        };
        self.hand = Stage::Saw(self.fence);
        Ok(())
    }

    /// It puts a fence of a term above the one that it saw, and in reach of that.
    fn put_fence(&mut self, alloc: Global, term: Term) -> Result<(), EventFault>
        ensures done { OnOk result (HandDoes (HandAct.Fences term) self.old self.new) }
        ensures err { OnErr result (self.new ≡ self.old) }
        ensures why { IfErr result (IsNoTurn self.old (HandAct.Fences term)) }
    {
        let Stage::Saw(last) = self.hand else {
            return Err(EventFault::NoTurn);
        };
        match fenced(alloc, last, term, Vec::new(alloc)) {
            Ok(_) => {}
            Err(FenceFault::Fenced(last)) => return Err(EventFault::Fenced(last)),
            Err(FenceFault::Far(last)) => return Err(EventFault::Far(last)),
            Err(FenceFault::Files(_)) => return Err(EventFault::Memory),
        }
        self.fence = self.fence.max(term);
        self.hand = Stage::HasFenced(FencePut { last, term });
        Ok(())
    }

    /// It reads the log.
    fn read_seen(&mut self) -> Result<(), EventFault>
        ensures done { OnOk result (HandDoes HandAct.Reads self.old self.new) }
        ensures err { OnErr result (self.new ≡ self.old) }
        ensures why { IfErr result (IsNoTurn self.old HandAct.Reads) }
    {
        let Stage::HasFenced(put) = self.hand else {
            return Err(EventFault::NoTurn);
        };
        let log = copy_of(&self.log)?;
        self.hand = Stage::HasRead(LogRead { put, log });
        Ok(())
    }

    /// Whoever hands the log over does this next. An `Err` changes nothing.
    pub(crate) fn hand_does(&mut self, alloc: Global, act: HandAct) -> Result<(), EventFault>
        ensures done { OnOk result (HandDoes act self.old self.new) }
        ensures err { OnErr result (self.new ≡ self.old) }
        ensures why { IfErr result (IsNoTurn self.old act) }
    {
        match act {
            HandAct::Looks => self.look(),
            HandAct::Fences(term) => self.put_fence(alloc, term),
            HandAct::Reads => self.read_seen(),
            HandAct::Ends => {
                self.hand = Stage::Nobody;
                Ok(())
            }
        }
    }

    /// What whoever hands the log over has read of it: nobody is there behind that.
    pub(crate) fn take_read(&mut self) -> Option<LogRead>
        ensures some { IfSome result (λ r. (self.old.read ≡ Some (read_view r)) × (self.new ≡ record self.old { read = None })) }
        ensures none { IfNone result ((self.old.read ≡ None) × (self.new ≡ self.old)) }
    {
        match mem::replace(&mut self.hand, Stage::Nobody) {
            Stage::HasRead(read) => Some(read),
            stage => {
                self.hand = stage;
                None
            }
        }
    }

    /// This is to happen between the acts of the keeper's next call.
    pub(crate) fn plan(&mut self, plan: Vec<Planned>)
        ensures { self.new ≡ self.old }
    {
        self.plan = plan;
        self.acted = 0;
    }

    /// The next one of the plan, if it comes before the keeper's next act.
    fn next_planned(&mut self) -> Option<Meanwhile>
        ensures { self.new ≡ self.old }
    {
        if self.plan.is_empty() || self.plan[0].before > self.acted {
            return None;
        }
        let Planned { before: _, what } = self.plan.remove(0);
        Some(what)
    }

    /// What is planned before the keeper's next act happens. What can't happen there does not.
    fn come_to_turn(&mut self, alloc: Global) -> Turn
        ensures besides { Besides self.old self.new }
        ensures does { result ≡ Turn.Does → self.new.crashed ≡ false }
    {
        let mut turn = Turn::Does;
        for _ in 0..self.plan.len() {
            let Some(what) = self.next_planned() else {
                break;
            };
            match what {
                Meanwhile::Hand(act) => {
                    let _done = self.hand_does(alloc, act);
                }
                Meanwhile::Fails(front) => {
                    turn = Turn::Fails(front);
                    break;
                }
                Meanwhile::Crashes(left) => self.crash(left),
            }
        }
        self.acted = self.acted.saturating_add(1);
        if self.crashed {
            return Turn::Fails(0);
        }
        turn
    }

    /// The bytes are added to the log, or none of them.
    pub(crate) fn append(&mut self, bytes: &[u8]) -> Result<(), Memory>
        ensures ok { OnOk result (self.new ≡ record self.old { files = after self.old.files (Did (Added bytes.now)) }) }
        ensures err { OnErr result (self.new ≡ self.old) }
    {
        self.log.extend_from_slice(bytes)?;
        Ok(())
    }

    /// All of the log is brought to disk.
    pub(crate) fn bring(&mut self)
        ensures { self.new ≡ record self.old { files = after self.old.files (Did Synced) } }
    {
        let size = self.log.len();
        self.safe = size;
    }

    /// The fence is put.
    pub(crate) fn fence_off(&mut self, term: Term)
        ensures { self.new ≡ record self.old { files = after self.old.files (Did (Fenced term)) } }
    {
        self.fence = self.fence.max(term);
    }

    /// What is planned behind the keeper's last act happens.
    pub(crate) fn end_plan(&mut self, alloc: Global)
        ensures { Besides self.old self.new }
    {
        self.acted = usize::MAX;
        for _ in 0..self.plan.len() {
            let _turn = self.come_to_turn(alloc);
        }
    }

    /// The keeper's call is over: whether its machine crashed meanwhile.
    pub(crate) fn end_call(&mut self) -> bool
        ensures crashed { result ≡ self.old.crashed }
        ensures rest { self.new ≡ record self.old { crashed = false } }
    {
        mem::replace(&mut self.crashed, false)
    }
}

impl KeeperFiles for MemoryFiles {
    ghost use Rattle.live_world.specs.machinery.Passing.{Tells};

    ghost acts = { λ files done. Tells files done };

    fn read_log(&mut self, alloc: Global) -> Result<Vec<u8>, FilesFault> {
        if let Turn::Fails(_) = self.come_to_turn(alloc) {
            return Err(FilesFault::Log);
        }
        let read = copy_of(&self.log)?;
        Ok(read)
    }

    fn cut(&mut self, size: usize) -> Result<(), FilesFault> {
        let alloc = *self.log.allocator();
        if let Turn::Fails(_) = self.come_to_turn(alloc) {
            return Err(FilesFault::Log);
        }
        self.log.truncate(size);
        self.safe = self.safe.min(size);
        Ok(())
    }

    fn add(&mut self, bytes: &[u8]) -> Result<(), FilesFault> {
        let alloc = *self.log.allocator();
        match self.come_to_turn(alloc) {
            Turn::Does => {
                self.append(bytes)?;
                Ok(())
            }
            Turn::Fails(front) => {
                if self.crashed {
                    return Err(FilesFault::Log);
                }
                let front = &bytes[..front.min(bytes.len())];
                self.append(front)?;
                Err(FilesFault::Log)
            }
        }
    }

    fn sync(&mut self) -> Result<(), FilesFault> {
        let alloc = *self.log.allocator();
        if let Turn::Fails(_) = self.come_to_turn(alloc) {
            return Err(FilesFault::Log);
        }
        self.safe = self.log.len();
        Ok(())
    }

    fn last_fence(&mut self, alloc: Global) -> Result<Term, FilesFault> {
        if let Turn::Fails(_) = self.come_to_turn(alloc) {
            return Err(FilesFault::Fences);
        }
        Ok(self.fence)
    }

    fn add_fence(&mut self, term: Term) -> Result<(), FilesFault> {
        let alloc = *self.log.allocator();
        if let Turn::Fails(_) = self.come_to_turn(alloc) {
            return Err(FilesFault::Fences);
        }
        self.fence = self.fence.max(term);
        Ok(())
    }
}
