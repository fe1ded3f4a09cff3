//! What simulated harts do, step for step, as far as it matters to whoever steers them: which pages their steps need, what their registers come to,
//! whom they ring and what they wait for.

use ft_types::{HART_ROW, Hart, LEASE_STEPS, PAGE_LIMIT, PageNo, Want};
use lease_rounds::PageMask;

/// How many pages there are.
pub const PAGES: u16 = 4;

/// How many deeds a hart has at the most.
const DEEDS: usize = 3;

/// What a hart does.
#[derive(Clone, Copy, PartialEq, Eq)]
pub enum Deed {
    /// Nothing, in no step.
    Nothing,
    /// So many steps on registers alone.
    Work(u64),
    /// So many steps behind each of which the registers are as they were.
    Alike(u64),
    /// Adds 1 to the word of a page.
    Add(u16),
    /// Reads the word of a page until all harts have added to it in this round, with a lesser number or with any.
    MyTurn(u16),
    All(u16),
    /// The same where one hart alone adds.
    Next(u16),
    /// Rings the next hart.
    Ring,
    /// Waits until it is rung in this round.
    Hear,
}

/// Harts that do their deeds again and again, for so many rounds: the first one, and each other one. None takes more steps than the budget.
#[derive(Clone, Copy)]
pub struct Guest {
    pub harts: u8,
    pub rounds: u64,
    pub first: [Deed; DEEDS],
    pub others: [Deed; DEEDS],
    pub budget: u64,
}

/// Guests, with the most steps that a hart of theirs may take: three times what it needs in turn, where a hart that waits takes one lease of 1,024 steps a round.
pub static GUESTS: [Guest; 8] = [
    // Each works for itself.
    Guest {
        harts: 4,
        rounds: 10,
        first: [Deed::Work(20_000), Deed::Nothing, Deed::Nothing],
        others: [Deed::Work(20_000), Deed::Nothing, Deed::Nothing],
        budget: 600_000,
    },
    // Add to one word.
    Guest {
        harts: 4,
        rounds: 100,
        first: [Deed::Add(0), Deed::Work(2), Deed::Nothing],
        others: [Deed::Add(0), Deed::Work(2), Deed::Nothing],
        budget: 900,
    },
    // Go in turns.
    Guest {
        harts: 4,
        rounds: 30,
        first: [Deed::MyTurn(0), Deed::Add(0), Deed::Nothing],
        others: [Deed::MyTurn(0), Deed::Add(0), Deed::Nothing],
        budget: 90_000,
    },
    // Meet again and again.
    Guest {
        harts: 4,
        rounds: 30,
        first: [Deed::Work(50), Deed::Add(0), Deed::All(0)],
        others: [Deed::Work(50), Deed::Add(0), Deed::All(0)],
        budget: 90_000,
    },
    // Look at a word until the first has written it.
    Guest {
        harts: 4,
        rounds: 2,
        first: [Deed::Work(50_000), Deed::Add(0), Deed::Nothing],
        others: [Deed::Next(0), Deed::Nothing, Deed::Nothing],
        budget: 300_000,
    },
    // Hand on a word, each rung by its neighbour.
    Guest {
        harts: 8,
        rounds: 10,
        first: [Deed::Add(0), Deed::Ring, Deed::Hear],
        others: [Deed::Hear, Deed::Add(0), Deed::Ring],
        budget: 30_000,
    },
    // The first seems to wait while it works, and the second waits for it.
    Guest {
        harts: 2,
        rounds: 3,
        first: [Deed::Alike(60_000), Deed::Add(0), Deed::Nothing],
        others: [Deed::Next(0), Deed::Nothing, Deed::Nothing],
        budget: 540_000,
    },
    // The same with a page for both.
    Guest {
        harts: 2,
        rounds: 12,
        first: [Deed::Alike(1_000), Deed::Add(0), Deed::Nothing],
        others: [Deed::Add(1), Deed::Next(0), Deed::Nothing],
        budget: 36_000,
    },
];

/// The words of pages, and how often each hart was rung.
#[derive(Clone, Copy)]
pub struct Memory {
    words: [u64; PAGES as usize],
    bells: [u64; HART_ROW],
}

impl Memory {
    /// As at boot.
    pub fn new() -> Memory {
        Memory {
            words: [0; PAGES as usize],
            bells: [0; HART_ROW],
        }
    }

    /// The word of a page.
    fn word(&self, page: u16) -> u64 {
        self.words[usize::from(page % PAGES)]
    }

    fn add(&mut self, page: u16) {
        let page = usize::from(page % PAGES);
        self.words[page] = self.words[page].wrapping_add(1);
    }

    /// The hart is rung.
    pub fn ring(&mut self, hart: Hart) {
        self.bells[hart.index()] = self.bells[hart.index()].wrapping_add(1);
    }
}

/// Why a hart takes no further step of its lease.
#[derive(Clone, Copy, PartialEq, Eq)]
pub enum Stop {
    /// It took as many as it may for now.
    Full,
    /// It rang, or is at its end: the lease takes no more.
    Last,
    /// The next step lacks this page.
    Lacks(u16, Want),
}

/// The pages of a page's number.
pub fn pages_of(number: u16, want: Want) -> PageMask {
    if number >= PAGE_LIMIT {
        return PageMask::none();
    }
    PageMask::of(PageNo::new(number), want)
}

/// A hart, with its lease where it has one.
#[derive(Clone, Copy)]
pub struct Worker {
    hart: Hart,
    /// At which of its deeds it is, how many steps of it are left, and in which round.
    place: usize,
    left: Option<u64>,
    round: u64,
    /// How many steps it has taken, and how many of these changed its registers.
    pub count: u64,
    pub trace: u64,
    /// How many steps its lease has, and how many it may have for now.
    pub steps: u64,
    pub allowed: u64,
    /// What its lease has.
    pub pages: PageMask,
    /// How often it was rung up to the beginning of its lease, and whether that begins with a bell.
    heard: u64,
    pub woken: bool,
    /// Whether the lease rang the next hart, and whether it read what another one wrote since.
    pub rang: bool,
    pub took_over: bool,
    /// What the hart last saw in each page.
    seen: [u64; PAGES as usize],
}

impl Worker {
    /// The hart at boot.
    pub fn new(hart: Hart) -> Worker {
        Worker {
            hart,
            place: 0,
            left: None,
            round: 0,
            count: 0,
            trace: 0,
            steps: 0,
            allowed: 0,
            pages: PageMask::none(),
            heard: 0,
            woken: false,
            rang: false,
            took_over: false,
            seen: [0; PAGES as usize],
        }
    }

    /// Whether it has gone all its rounds.
    pub fn is_done(&self, guest: &Guest) -> bool {
        self.round >= guest.rounds
    }

    /// Begins a lease without a page, which may take so many steps. Whether it begins with a bell.
    pub fn begin(&mut self, memory: &Memory, allowed: u64) -> bool {
        let bells = memory.bells[self.hart.index()];
        self.woken = bells != self.heard;
        self.heard = bells;
        self.allowed = allowed;
        self.woken
    }

    /// Its lease is settled.
    pub fn end(&mut self) {
        self.count = self.count.saturating_add(self.steps);
        self.steps = 0;
        self.pages = PageMask::none();
        self.rang = false;
        self.took_over = false;
    }

    /// Takes steps until the lease has as many as it may have for now, or stops before.
    pub fn fill(&mut self, guest: &Guest, memory: &mut Memory) -> Stop {
        for _deed in 0..8 * LEASE_STEPS {
            if self.is_done(guest) {
                return Stop::Last;
            }
            if self.steps >= self.allowed {
                return Stop::Full;
            }
            match self.take(self.deed(guest), guest.harts, memory) {
                Stop::Full => {}
                stop => return stop,
            }
            if self.place >= DEEDS {
                self.place = 0;
                self.round = self.round.wrapping_add(1);
            }
        }
        Stop::Last
    }

    /// What it does next.
    fn deed(&self, guest: &Guest) -> Deed {
        if self.place >= DEEDS {
            Deed::Nothing
        } else if self.hart.number() == 0 {
            guest.first[self.place]
        } else {
            guest.others[self.place]
        }
    }

    /// Takes steps of the deed.
    fn take(&mut self, deed: Deed, harts: u8, memory: &mut Memory) -> Stop {
        let all = self.round.wrapping_mul(u64::from(harts));
        match deed {
            Deed::Work(steps) => {
                self.trace = self.trace.wrapping_add(1);
                self.work(steps);
            }
            Deed::Alike(steps) => self.work(steps),
            Deed::Add(page) => return self.add(page, memory),
            Deed::MyTurn(page) => {
                return self.look(
                    page,
                    all.wrapping_add(u64::from(self.hart.number())),
                    memory,
                );
            }
            Deed::All(page) => {
                return self.look(page, all.wrapping_add(u64::from(harts)), memory);
            }
            Deed::Next(page) => return self.look(page, self.round.wrapping_add(1), memory),
            Deed::Ring => {
                self.rang = true;
                self.step();
                return Stop::Last;
            }
            Deed::Hear => self.look_on(self.heard > self.round),
            Deed::Nothing => self.place = self.place.wrapping_add(1),
        }
        Stop::Full
    }

    /// Takes as many of so many steps as the lease may have.
    fn work(&mut self, steps: u64) {
        let left = self.left.unwrap_or(steps);
        let taken = left.min(self.allowed.wrapping_sub(self.steps));
        self.steps = self.steps.wrapping_add(taken);
        if taken < left {
            self.left = Some(left.wrapping_sub(taken));
        } else {
            self.left = None;
            self.place = self.place.wrapping_add(1);
        }
    }

    /// A step that changes registers, and ends the deed.
    fn step(&mut self) {
        self.steps = self.steps.wrapping_add(1);
        self.trace = self.trace.wrapping_add(1);
        self.place = self.place.wrapping_add(1);
    }

    /// What it waits for is there, or it waits for as long as its lease is.
    fn look_on(&mut self, is_there: bool) {
        if is_there {
            self.step();
        } else {
            self.steps = self.allowed;
        }
    }

    /// Looks whether the word of the page is as great as that.
    fn look(&mut self, page: u16, least: u64, memory: &Memory) -> Stop {
        if !self.pages.is_near(pages_of(page, Want::Read)) {
            return Stop::Lacks(page, Want::Read);
        }
        self.see(page, memory);
        self.look_on(memory.word(page) >= least);
        Stop::Full
    }

    /// Adds 1 to the word of the page.
    fn add(&mut self, page: u16, memory: &mut Memory) -> Stop {
        if !self.pages.written().is_near(pages_of(page, Want::Write)) {
            return Stop::Lacks(page, Want::Write);
        }
        self.see(page, memory);
        memory.add(page);
        self.seen[usize::from(page % PAGES)] = memory.word(page);
        self.step();
        Stop::Full
    }

    /// Reads the word of the page.
    fn see(&mut self, page: u16, memory: &Memory) {
        let word = memory.word(page);
        let place = usize::from(page % PAGES);
        if self.seen[place] != word {
            self.took_over = true;
        }
        self.seen[place] = word;
    }
}
