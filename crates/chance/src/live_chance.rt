//! Events of processes that fall by chance.

ghost use Rattle.std.specs.Prelude.{◌<◌, ◌≤◌};

use crate::live::{Live, keeper_of};
use crate::live_tally::{
    ASKED, CRASHES, CUT_SHORT, GRANTS, HANDED, HEARD, LATE_TOLD, LISTS, LOGGED, LiveTally, PRINTED,
    REFUSED_GRANTS, RENEWED, ROUNDS, SAID, TAKEN, TOLD,
};
use crate::outcome::Outcome;
use fixtures::Dice;
use ft_types::{Hart, Keeper, Memory, Term};
use guest_image::Image;
use live_world::{ClientEvent, HandAct, KeeperEvent, Meanwhile, Planned, PrimaryEvent};
use std::alloc::Global;
use wire::Request;

/// How many steps a round has.
const STEPS: u64 = 60;

/// What whoever hands a log over may do between a keeper's acts. A term that is mistyped stops nobody.
fn hand_act(dice: &mut Dice, term: Term) -> HandAct {
    match dice.roll() % 8 {
        0..=2 => HandAct::Looks,
        3 => HandAct::Fences(term),
        4 => HandAct::Fences(u32::MAX),
        5..=6 => HandAct::Reads,
        _ => HandAct::Ends,
    }
}

/// What happens between a keeper's acts.
fn meanwhile(dice: &mut Dice, term: Term) -> Meanwhile {
    match dice.roll() % 8 {
        0 => Meanwhile::Fails(usize::from(dice.roll())),
        1 | 2 => Meanwhile::Crashes(usize::from(dice.roll()).wrapping_mul(5)),
        _ => Meanwhile::Hand(hand_act(dice, term)),
    }
}

/// The log is handed over to the term meanwhile.
fn handing(alloc: Global, dice: &mut Dice, term: Term) -> Result<Vec<Planned>, Memory> {
    let mut plan = Vec::new(alloc);
    let mut before = 0usize;
    for act in [HandAct::Looks, HandAct::Fences(term), HandAct::Reads] {
        before = before.saturating_add(usize::from(dice.roll() % 3));
        plan.push(Planned {
            before,
            what: Meanwhile::Hand(act),
        })?;
    }
    Ok(plan)
}

/// What is planned for a keeper's call: mostly nothing.
fn plan(alloc: Global, dice: &mut Dice, term: Term) -> Result<Vec<Planned>, Memory> {
    let mut plan = Vec::new(alloc);
    match dice.roll() % 12 {
        0 => return handing(alloc, dice, term),
        1..=3 => {}
        _ => return Ok(plan),
    }
    let mut before = 0usize;
    for _ in 0..dice.roll() % 4 {
        before = before.saturating_add(usize::from(dice.roll() % 3));
        plan.push(Planned {
            before,
            what: meanwhile(dice, term),
        })?;
    }
    Ok(plan)
}

/// A list that falls by chance: the processes, and what happened.
#[derive(Drop)]
pub struct LiveList {
    pub live: Live,
    dice: Dice,
    pub tally: LiveTally,
}

impl LiveList {
    /// A list of this seed, which is not 0: keepers that have nothing, and no primary.
    pub fn new(
        alloc: Global,
        image: &Image,
        seed: u64,
        keepers: u8,
        need: u8,
    ) -> Result<LiveList, Memory> {
        Ok(LiveList {
            live: Live::new(alloc, image, keepers, need, STEPS)?,
            dice: Dice::new(seed),
            tally: LiveTally::new(),
        })
    }

    /// Counts one of a kind that is done.
    fn count(&mut self, kind: usize, done: bool) {
        self.tally.add(kind, u64::from(done));
    }

    /// Some keeper.
    fn keeper(&mut self) -> u64 {
        u64::from(self.dice.roll()) % u64::from(self.live.keepers).max(1)
    }

    /// A term that was granted: mostly the last one.
    fn term(&mut self) -> Term {
        let last = self.live.greatest_term();
        if self.dice.roll() % 4 != 0 {
            return last;
        }
        let place = usize::from(self.dice.roll()) % self.live.terms.len().max(1);
        match self.live.terms.get(place) {
            Some(term) => *term,
            None => last,
        }
    }

    /// A keeper begins, where it does not run; between its acts something may happen.
    fn begins(&mut self, alloc: Global) -> Result<(), Memory> {
        let keeper = keeper_of(self.keeper());
        let next = self.live.greatest_term().saturating_add(1);
        let plan = plan(alloc, &mut self.dice, next)?;
        let _begun = self
            .live
            .keeper_does(alloc, KeeperEvent::Begin { keeper, plan })?;
        Ok(())
    }

    /// Frames come to a keeper, mostly all.
    fn takes(&mut self, alloc: Global, keeper: u64) -> Result<(), Memory> {
        let frames = self.live.world.frames().len();
        let (from, to) = if self.dice.roll() % 4 != 0 {
            (0, frames)
        } else {
            let from = usize::from(self.dice.roll()) % frames.max(1);
            (from, from.saturating_add(2).min(frames))
        };
        let taken = self.live.takes(alloc, keeper, from, to)?;
        self.count(TAKEN, taken);
        Ok(())
    }

    /// A keeper logs what it has; between its acts something may happen.
    fn logs(&mut self, alloc: Global, keeper: u64) -> Result<(), Memory> {
        let next = self.live.greatest_term().saturating_add(1);
        let plan = plan(alloc, &mut self.dice, next)?;
        let said = self.live.world.said().len();
        let handed = self.live.world.handed().len();
        let keeper = keeper_of(keeper);
        let logged = self
            .live
            .keeper_does(alloc, KeeperEvent::Log { keeper, plan })?;
        self.count(LOGGED, logged);
        self.count(CUT_SHORT, !logged);
        let has_said = self.live.world.said().len() > said;
        let has_handed = self.live.world.handed().len() > handed;
        self.count(SAID, has_said);
        self.count(HANDED, has_handed);
        Ok(())
    }

    /// A keeper takes frames and logs them.
    fn keeps(&mut self, alloc: Global) -> Result<(), Memory> {
        let keeper = self.keeper();
        self.takes(alloc, keeper)?;
        self.logs(alloc, keeper)
    }

    /// The keeper's number goes to a new log, with what others handed over to the last term.
    fn renews(&mut self, alloc: Global, keeper: Keeper) -> Result<(), Memory> {
        let term = self.live.greatest_term();
        let renewed = self.live.renews(alloc, keeper, term)?;
        self.count(RENEWED, renewed);
        Ok(())
    }

    /// A keeper's machine crashes, or its process ends, or it is lost, which is seldom: for good, or its number goes to a new log.
    fn fails(&mut self, alloc: Global) -> Result<(), Memory> {
        let keeper = keeper_of(self.keeper());
        let event = match self.dice.roll() % 16 {
            0 => KeeperEvent::Lose(keeper),
            1 => return self.renews(alloc, keeper),
            2..=7 => KeeperEvent::KeeperEnds(keeper),
            _ => {
                let left = usize::from(self.dice.roll()).wrapping_mul(7);
                KeeperEvent::Crash { keeper, left }
            }
        };
        let done = self.live.keeper_does(alloc, event)?;
        self.count(CRASHES, done);
        Ok(())
    }

    /// The client asks for its next word, which comes to a primary.
    fn asks_next(&mut self, alloc: Global) -> Result<(), Memory> {
        let primary = self.live.primary_of(self.live.greatest_term());
        let asked = self.live.world.asked().len();
        let _asks = self.live.client_does(alloc, ClientEvent::Ask(0))?;
        let done = self
            .live
            .primary_does(alloc, PrimaryEvent::Request { primary, asked })?;
        self.count(ASKED, done);
        Ok(())
    }

    /// A word or a question comes to a primary; mostly the client's next word.
    fn asks(&mut self, alloc: Global) -> Result<(), Memory> {
        let term = self.term();
        let hart = Hart::new(0);
        let request = match self.dice.roll() % 16 {
            0 | 1 => Request::From { hart, number: 0 },
            2 => Request::Word {
                hart,
                word: u32::from(self.dice.roll()),
                number: None,
            },
            _ => return self.asks_next(alloc),
        };
        let asked = self.live.asks(alloc, term, request)?;
        self.count(ASKED, asked);
        Ok(())
    }

    /// A primary goes on, and sends what is new.
    fn rounds(&mut self, alloc: Global) -> Result<(), Memory> {
        let term = self.term();
        let primary = self.live.primary_of(term);
        let done = self.live.round(alloc, term)?;
        let _sealed = self.live.primary_does(alloc, PrimaryEvent::Seal(primary))?;
        self.count(ROUNDS, done);
        Ok(())
    }

    /// The client hears what was told from this number on, and tells one answer.
    fn hears(&mut self, alloc: Global, from: usize) -> Result<(), Memory> {
        for told in from..self.live.world.told().len() {
            let event = ClientEvent::Answer { client: 0, told };
            let done = self.live.client_does(alloc, event)?;
            self.count(HEARD, done);
        }
        let _told = self.live.client_does(alloc, ClientEvent::Print(0))?;
        Ok(())
    }

    /// What was said comes to a primary, which tells what goes out.
    fn releases(&mut self, alloc: Global) -> Result<(), Memory> {
        let term = self.term();
        let told = self.live.world.told().len();
        let _outcome = self.live.release(alloc, term)?;
        let more = self.live.world.told().len().saturating_sub(told) as u64;
        self.tally.add(TOLD, more);
        if term < self.live.greatest_term() {
            self.tally.add(LATE_TOLD, more);
        }
        self.hears(alloc, told)
    }

    /// Some keepers hand their logs over to the next term, and its primary goes live.
    fn grants(&mut self, alloc: Global) -> Result<(), Memory> {
        let next = self.live.greatest_term().saturating_add(1);
        let mut some = Vec::new(alloc);
        for keeper in 0..u64::from(self.live.keepers) {
            if self.dice.roll() % 4 != 0 {
                some.push(keeper)?;
            }
        }
        let live = self.live.grant(alloc, next, &some)? == Outcome::Done;
        self.count(GRANTS, live);
        self.count(REFUSED_GRANTS, !live);
        Ok(())
    }

    /// A client comes, with words of its own, of which two may be open.
    pub fn joins(&mut self, alloc: Global) -> Result<(), Memory> {
        let mut words = Vec::new(alloc);
        for _ in 0..4 {
            words.push(u32::from(self.dice.roll()))?;
        }
        let event = ClientEvent::Join { words, window: 2 };
        let _joined = self.live.client_does(alloc, event)?;
        Ok(())
    }

    /// What happens to clients: one comes, asks, asks once more, hears what was told, and tells.
    fn talks(&mut self, alloc: Global) -> Result<(), Memory> {
        let told = self.live.world.told().len();
        let clients = self.live.world.clients().len();
        let client = usize::from(self.dice.roll()) % clients.max(1);
        let event = match self.dice.roll() % 8 {
            0 => return self.joins(alloc),
            1 | 2 => ClientEvent::Ask(client),
            3 => ClientEvent::AskAgain(client),
            4..=6 => ClientEvent::Answer {
                client,
                told: usize::from(self.dice.roll()) % told.max(1),
            },
            _ => ClientEvent::Print(client),
        };
        let done = self.live.client_does(alloc, event)?;
        self.count(HEARD, done);
        Ok(())
    }

    /// What a client asked for comes to a primary.
    fn brings(&mut self, alloc: Global) -> Result<(), Memory> {
        let asked = usize::from(self.dice.roll()) % self.live.world.asked().len().max(1);
        let term = self.term();
        let primary = self.live.primary_of(term);
        let done = self
            .live
            .primary_does(alloc, PrimaryEvent::Request { primary, asked })?;
        self.count(ASKED, done);
        Ok(())
    }

    /// What happens next.
    pub fn goes_on(&mut self, alloc: Global) -> Result<(), Memory> {
        match self.dice.roll() % 32 {
            0 => self.fails(alloc),
            1..=3 => self.begins(alloc),
            4..=7 => self.asks(alloc),
            8..=13 => self.rounds(alloc),
            14..=23 => self.keeps(alloc),
            24..=27 => self.releases(alloc),
            28 => self.grants(alloc),
            29 => self.brings(alloc),
            _ => self.talks(alloc),
        }
    }

    /// Those that are left go on in a last term, if they are enough.
    pub fn ends(&mut self, alloc: Global) -> Result<(), Memory> {
        for keeper in 0..u64::from(self.live.keepers) {
            let _begun = self.live.begin(alloc, keeper)?;
        }
        self.grants(alloc)?;
        self.count(LISTS, true);
        let printed = self.printed();
        self.tally.add(PRINTED, printed);
        Ok(())
    }

    /// How many answers clients told.
    fn printed(&self) -> u64 {
        let mut printed = 0u64;
        for client in self.live.world.clients() {
            printed = printed.saturating_add(client.told() as u64);
        }
        printed
    }
}
