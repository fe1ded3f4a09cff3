//! The processes of a pair, which are led by acts as tests write them.

ghost use Rattle.std.specs.Prelude.{◌<◌, ◌≤◌};

use crate::acts::{Act, hart_of};
use crate::outcome::Outcome;
use fenced_live::GivenFault;
use ft_types::{HART_LIMIT, Hart, KEEPER_LIMIT, Keeper, Memory, Quorum, Term};
use go_live::LiveFault;
use guest_image::{Image, Machine};
use hart_replay::ReplayFault;
use leading::{HandedFault, LeadFault, Leader, Spacing};
use live_world::{
    ClientEvent, EventFault, HandAct, KeeperEvent, LiveEvent, LiveWorld, PrimaryEvent,
};
use output_gate::Output;
use stations::{FilesFault, LogFault};
use std::alloc::Global;
use wire::{Answer, Request};

/// The processes, and the terms that were granted, in their order.
#[derive(Drop)]
pub struct Live {
    pub world: LiveWorld,
    pub terms: Vec<Term>,
    pub keepers: u8,
    /// How many steps a round has.
    steps: u64,
}

/// The keeper of this number, or of its remainder by the greatest number of keepers.
pub fn keeper_of(number: u64) -> Keeper {
    Keeper::new((number % u64::from(KEEPER_LIMIT)) as u8)
}

/// Whether the machine has the output, at its number.
fn has(machine: &Machine, output: &Output) -> bool {
    if output.hart.number() >= machine.harts() {
        return false;
    }
    let there = machine
        .hart(output.hart)
        .outputs()
        .get(output.number as usize);
    there == Some(&(output.step, output.word))
}

/// Whether a primary has each answer of its term or an older one.
fn has_all(leader: &Leader, told: &[Answer]) -> bool {
    for answer in told {
        if answer.term <= leader.term() && !has(leader.machine(), &answer.output) {
            return false;
        }
    }
    true
}

/// Whether the answers tell two words of one number.
fn differ(one: &Answer, other: &Answer) -> bool {
    let (one, other) = (&one.output, &other.output);
    one.hart == other.hart && one.number == other.number && one != other
}

/// Whether another answer of the number of this one is told.
fn is_contradicted(one: &Answer, told: &[Answer]) -> bool {
    for other in told {
        if differ(one, other) {
            return true;
        }
    }
    false
}

/// What comes of a grant whose primary does not go live for this.
fn outcome_of_live(fault: LiveFault) -> Result<Outcome, Memory> {
    if fault == LiveFault::Memory || fault == LiveFault::Replay(ReplayFault::Memory) {
        return Err(Memory);
    }
    if fault == LiveFault::TooFewStores {
        Ok(Outcome::TooFewStores)
    } else {
        Ok(Outcome::Refused)
    }
}

/// What comes of an event that is refused so; of one to which memory was refused nothing does.
fn outcome_of_fault(fault: EventFault) -> Result<Outcome, Memory> {
    match fault {
        EventFault::Memory
        | EventFault::Files(FilesFault::Memory)
        | EventFault::Log(LogFault::Files(FilesFault::Memory))
        | EventFault::Handed(HandedFault::Memory) => Err(Memory),
        EventFault::Lead(LeadFault::NotLive(GivenFault::Live(fault))) => outcome_of_live(fault),
        _ => Ok(Outcome::Refused),
    }
}

/// What comes of a grant that is answered so.
fn outcome_of(answer: Result<(), EventFault>) -> Result<Outcome, Memory> {
    match answer {
        Ok(()) => Ok(Outcome::Done),
        Err(fault) => outcome_of_fault(fault),
    }
}

impl Live {
    /// Keepers with nothing on disk, and no primary.
    pub fn new(
        alloc: Global,
        image: &Image,
        keepers: u8,
        need: u8,
        steps: u64,
    ) -> Result<Live, Memory> {
        let Some(quorum) = Quorum::new(u64::from(keepers), u64::from(need)) else {
            return Err(Memory);
        };
        Ok(Live {
            world: LiveWorld::new(alloc, image, quorum)?,
            terms: Vec::new(alloc),
            keepers,
            steps,
        })
    }

    /// Whether the event is done.
    pub fn happens(&mut self, alloc: Global, event: LiveEvent) -> Result<bool, Memory> {
        match self.world.apply(alloc, event) {
            Ok(()) => Ok(true),
            Err(fault) => {
                let _outcome = outcome_of_fault(fault)?;
                Ok(false)
            }
        }
    }

    /// Whether the keeper's event is done.
    pub fn keeper_does(&mut self, alloc: Global, event: KeeperEvent) -> Result<bool, Memory> {
        self.happens(alloc, LiveEvent::Keeper(event))
    }

    /// Whether the primary's event is done.
    pub fn primary_does(&mut self, alloc: Global, event: PrimaryEvent) -> Result<bool, Memory> {
        self.happens(alloc, LiveEvent::Primary(event))
    }

    /// Whether the client's event is done.
    pub fn client_does(&mut self, alloc: Global, event: ClientEvent) -> Result<bool, Memory> {
        self.happens(alloc, LiveEvent::Client(event))
    }

    /// The number of the primary of the term, or how many there are where there is none.
    pub fn primary_of(&self, term: Term) -> usize {
        let mut number = 0usize;
        for granted in &self.terms {
            if *granted == term {
                return number;
            }
            number = number.saturating_add(1);
        }
        number
    }

    /// The greatest term that was granted.
    pub fn greatest_term(&self) -> Term {
        let mut greatest = 0;
        for term in &self.terms {
            greatest = greatest.max(*term);
        }
        greatest
    }

    /// The keeper begins, over its log.
    pub fn begin(&mut self, alloc: Global, keeper: u64) -> Result<bool, Memory> {
        let plan = Vec::new(alloc);
        let keeper = keeper_of(keeper);
        self.keeper_does(alloc, KeeperEvent::Begin { keeper, plan })
    }

    /// Whoever hands the keeper's log over does this.
    pub fn hand(&mut self, alloc: Global, keeper: u64, act: HandAct) -> Result<bool, Memory> {
        let keeper = keeper_of(keeper);
        self.keeper_does(alloc, KeeperEvent::Hand { keeper, act })
    }

    /// The keeper's log is fenced off for the term, and handed over: whether it is.
    pub fn gives(&mut self, alloc: Global, keeper: u64, term: Term) -> Result<bool, Memory> {
        let _ended = self.hand(alloc, keeper, HandAct::Ends)?;
        Ok(
            self.hand(alloc, keeper, HandAct::Looks)?
                && self.hand(alloc, keeper, HandAct::Fences(term))?
                && self.hand(alloc, keeper, HandAct::Reads)?,
        )
    }

    /// Whether the keeper's log was handed over to the term.
    fn gave(&self, keeper: u64, term: Term) -> bool {
        for handed in self.world.handed() {
            if handed.keeper == keeper_of(keeper) && handed.term == term {
                return true;
            }
        }
        false
    }

    /// The numbers of what these keepers handed over to the term.
    fn given(&self, alloc: Global, term: Term, keepers: &[u64]) -> Result<Vec<usize>, Memory> {
        let mut numbers = Vec::new(alloc);
        let mut number = 0usize;
        for handed in self.world.handed() {
            let own = keepers.contains(&u64::from(handed.keeper.number()));
            if own && handed.term == term {
                numbers.push(number)?;
            }
            number = number.saturating_add(1);
        }
        Ok(numbers)
    }

    /// The keeper's number goes to a new log, with what others handed over to the term: whether it does.
    pub fn renews(&mut self, alloc: Global, keeper: Keeper, term: Term) -> Result<bool, Memory> {
        let mut others = Vec::new(alloc);
        for other in 0..u64::from(self.keepers) {
            if keeper_of(other) != keeper {
                others.push(other)?;
            }
        }
        let handed = self.given(alloc, term, &others)?;
        let event = KeeperEvent::Renew {
            keeper,
            term,
            handed,
        };
        self.keeper_does(alloc, event)
    }

    /// A primary goes live in the term from what these keepers have handed over to it: whether it does.
    fn go_live(&mut self, alloc: Global, term: Term, keepers: &[u64]) -> Result<Outcome, Memory> {
        let handed = self.given(alloc, term, keepers)?;
        self.terms.reserve(1)?;
        let event = LiveEvent::Primary(PrimaryEvent::GoLive { term, handed });
        let outcome = outcome_of(self.world.apply(alloc, event))?;
        if outcome == Outcome::Done {
            self.terms.push(term)?;
        }
        Ok(outcome)
    }

    /// These keepers hand over to the term, where they did not yet, and its primary goes live: what comes of it.
    pub fn grant(&mut self, alloc: Global, term: Term, keepers: &[u64]) -> Result<Outcome, Memory> {
        for keeper in keepers {
            if !self.gave(*keeper, term) {
                let _gives = self.gives(alloc, *keeper, term)?;
            }
        }
        self.go_live(alloc, term, keepers)
    }

    /// A request comes to the term's primary.
    pub fn asks(&mut self, alloc: Global, term: Term, request: Request) -> Result<bool, Memory> {
        let asked = self.world.asked().len();
        let primary = self.primary_of(term);
        Ok(
            self.client_does(alloc, ClientEvent::Want(request))?
                && self.primary_does(alloc, PrimaryEvent::Request { primary, asked })?,
        )
    }

    /// A word for a hart of the term's machine.
    fn word(&mut self, alloc: Global, term: Term, hart: u8, word: u32) -> Result<bool, Memory> {
        let request = Request::Word {
            hart: Hart::new(hart % HART_LIMIT),
            word,
            number: None,
        };
        self.asks(alloc, term, request)
    }

    /// Each hart of the term's machine is handed a word that waits, and goes on.
    pub fn round(&mut self, alloc: Global, term: Term) -> Result<bool, Memory> {
        let primary = self.primary_of(term);
        let (steps, spacing) = (self.steps, Spacing::None);
        let event = PrimaryEvent::Round {
            primary,
            steps,
            spacing,
        };
        self.primary_does(alloc, event)
    }

    /// Frames from the one number to below the other come to the keeper.
    pub fn takes(
        &mut self,
        alloc: Global,
        keeper: u64,
        from: usize,
        to: usize,
    ) -> Result<bool, Memory> {
        let event = KeeperEvent::Take {
            keeper: keeper_of(keeper),
            from,
            to,
            piece: 50,
        };
        self.keeper_does(alloc, event)
    }

    /// The keeper logs what came to it: whether it says anything.
    fn logs(&mut self, alloc: Global, keeper: u64) -> Result<Outcome, Memory> {
        let before = self.world.said().len();
        let event = KeeperEvent::Log {
            keeper: keeper_of(keeper),
            plan: Vec::new(alloc),
        };
        let done = self.keeper_does(alloc, event)?;
        Ok(if self.world.said().len() > before {
            Outcome::Done
        } else if done {
            Outcome::Fenced
        } else {
            Outcome::Refused
        })
    }

    /// How many outputs the primary let go.
    pub fn released(&self, primary: usize) -> usize {
        match self.world.leader(primary) {
            Some(leader) => leader.released().len(),
            None => 0,
        }
    }

    /// All that was said comes to the term's primary, which tells what goes out: whether anything does.
    pub fn release(&mut self, alloc: Global, term: Term) -> Result<Outcome, Memory> {
        let primary = self.primary_of(term);
        let before = self.released(primary);
        for said in 0..self.world.said().len() {
            if !self.primary_does(alloc, PrimaryEvent::Hear { primary, said })? {
                return Ok(Outcome::Refused);
            }
        }
        for released in before..self.released(primary) {
            let _told = self.primary_does(alloc, PrimaryEvent::Tell { primary, released })?;
        }
        Ok(if self.released(primary) > before {
            Outcome::Done
        } else {
            Outcome::NothingGoesOut
        })
    }

    /// The machine of a keeper crashes, and leaves of its log what is on disk; then the keeper begins again.
    fn restart(&mut self, alloc: Global, keeper: u64) -> Result<bool, Memory> {
        let event = KeeperEvent::Crash {
            keeper: keeper_of(keeper),
            left: 0,
        };
        Ok(self.keeper_does(alloc, event)? && self.begin(alloc, keeper)?)
    }

    /// What comes of an act. What is written down is acknowledged at once: writing it down is nothing of its own here.
    pub fn act(&mut self, alloc: Global, act: Act) -> Result<Outcome, Memory> {
        let done = match act {
            Act::Step(term, _) => self.round(alloc, term)?,
            Act::Word(term, hart, word) => self.word(alloc, term, hart, word)?,
            Act::Timer(term, hart) => {
                let hart = Hart::new(hart % HART_LIMIT);
                self.asks(alloc, term, Request::Timer(hart))?
            }
            Act::Seal(term) => {
                let primary = self.primary_of(term);
                self.primary_does(alloc, PrimaryEvent::Seal(primary))?
            }
            Act::Stop(term) => {
                let primary = self.primary_of(term);
                self.primary_does(alloc, PrimaryEvent::End(primary))?
            }
            Act::Release(term) => return self.release(alloc, term),
            Act::Deliver(keeper, frame) => {
                let from = frame as usize;
                self.takes(alloc, keeper, from, from.saturating_add(1))?
            }
            Act::Join(keeper, _) => {
                let frames = self.world.frames().len();
                self.takes(alloc, keeper, 0, frames)?
            }
            Act::Save(_) => true,
            Act::Restart(keeper) => self.restart(alloc, keeper)?,
            Act::Fence(keeper, term) => self.gives(alloc, keeper, term)?,
            Act::Ack(keeper) => return self.logs(alloc, keeper),
            Act::Lose(keeper) => self.keeper_does(alloc, KeeperEvent::Lose(keeper_of(keeper)))?,
            Act::Grant(term, keepers) => return self.grant(alloc, term, keepers),
        };
        Ok(if done {
            Outcome::Done
        } else {
            Outcome::Refused
        })
    }

    /// All keepers begin, and a primary goes live in term 1 from empty logs.
    pub fn begins(&mut self, alloc: Global) -> Result<bool, Memory> {
        let mut all = Vec::new(alloc);
        for keeper in 0..u64::from(self.keepers) {
            let _begun = self.begin(alloc, keeper)?;
            all.push(keeper)?;
        }
        Ok(self.grant(alloc, 1, &all)? == Outcome::Done)
    }

    /// Whether two words of one number were told.
    pub fn contradicts(&self) -> bool {
        for one in self.world.told() {
            if is_contradicted(one, self.world.told()) {
                return true;
            }
        }
        false
    }

    /// Whether each primary that runs has each answer that was told in its term or an older one, and no number has two words.
    pub fn keeps_promises(&self) -> bool {
        for number in 0..self.terms.len() {
            if let Some(leader) = self.world.leader(number)
                && !has_all(leader, self.world.told())
            {
                return false;
            }
        }
        !self.contradicts()
    }
}
