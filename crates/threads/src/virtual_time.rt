//! What steers harts, led by threads that are simulated on one, in virtual time with delays by chance.

use crate::deeds::{GUESTS, Guest, Memory, PAGES, Stop, Worker, pages_of};
use fixtures::{Dice, hart as hart_of};
use ft_types::{Counts, HART_LIMIT, HART_ROW, Hart, HartSet, LEASE_STEPS, PageNo};
use lease_rounds::PageMask;
use std::test::Fail;
use steering::{Pace, Steering};

/// So many seeds.
const SEEDS: u64 = 200;

/// So many visits no guest takes.
const VISITS: u32 = 20_000;

/// What a hart's thread does.
#[derive(Clone, Copy, PartialEq, Eq)]
enum Doing {
    /// It is about to ask for a lease.
    Asks,
    /// It is about to bring its lease, which stops here.
    Runs(Stop),
    /// It waits until it is called.
    Sleeps,
    /// It leads all harts for so many more rounds, this hart next; whether one went on in this round.
    Leads(u32, u8, bool),
    /// It is at its end.
    Over,
}

/// A hart's thread.
#[derive(Clone, Copy)]
struct Thread {
    doing: Doing,
    /// When it does that.
    time: u64,
    /// Whether it was called since it last slept.
    is_called: bool,
    /// Whether others wait for its lease, and how many steps this may have while none does.
    is_wanted: bool,
    reach: u64,
    /// After so many leases it gives up, as where memory is refused.
    leases: u32,
}

/// A guest on simulated threads.
#[derive(Drop)]
struct Simulation {
    guest: Guest,
    steering: Steering,
    memory: Memory,
    workers: [Worker; HART_ROW],
    threads: [Thread; HART_ROW],
    dice: Dice,
    time: u64,
    /// Whether no two open leases had a page that one of them might write.
    is_apart: bool,
}

impl Simulation {
    /// The guest at boot, with delays by these dice.
    fn new(guest: Guest, seed: u64) -> Simulation {
        let mut workers = [Worker::new(Hart::new(0)); HART_ROW];
        for number in 0..HART_LIMIT {
            let hart = Hart::new(number);
            workers[hart.index()] = Worker::new(hart);
        }
        let thread = Thread {
            doing: Doing::Asks,
            time: 0,
            is_called: false,
            is_wanted: false,
            reach: 0,
            leases: u32::MAX,
        };
        Simulation {
            guest,
            steering: Steering::new(guest.harts, Pace::Even, Counts::zero(HART_LIMIT), true),
            memory: Memory::new(),
            workers,
            threads: [thread; HART_ROW],
            dice: Dice::new(seed),
            time: 0,
            is_apart: true,
        }
    }

    /// Whether each hart comes to its end within its budget, and never two had a page that one might write.
    fn ends_well(&mut self) -> bool {
        self.ends() && self.is_at_its_end()
    }

    /// Whether each thread ends, and never two had a page that one might write, where the thread of this hart gives up behind so many leases.
    fn ends_without(&mut self, hart: Hart, leases: u32) -> bool {
        self.threads[hart.index()].leases = leases;
        self.ends() && self.is_apart
    }

    /// Whether each thread ends.
    fn ends(&mut self) -> bool {
        for _visit in 0..VISITS {
            match self.next() {
                Some(hart) => self.visit(hart),
                None => return self.is_over(),
            }
        }
        false
    }

    fn is_over(&self) -> bool {
        for number in 0..self.guest.harts {
            if self.threads[hart_of(number).index()].doing != Doing::Over {
                return false;
            }
        }
        true
    }

    /// Whose thread does something next, unless all sleep or are at their ends.
    fn next(&self) -> Option<Hart> {
        let mut next = None;
        let mut least = u64::MAX;
        for number in 0..self.guest.harts {
            let hart = hart_of(number);
            let thread = self.threads[hart.index()];
            let is_awake = thread.doing != Doing::Sleeps && thread.doing != Doing::Over;
            if is_awake && thread.time < least {
                least = thread.time;
                next = Some(hart);
            }
        }
        next
    }

    fn is_at_its_end(&self) -> bool {
        let mut right = self.is_apart;
        for number in 0..self.guest.harts {
            let hart = hart_of(number);
            let worker = self.workers[hart.index()];
            right = right && worker.is_done(&self.guest) && worker.count <= self.guest.budget;
        }
        right
    }

    /// The hart's thread does what it is about to do.
    fn visit(&mut self, hart: Hart) {
        self.time = self.threads[hart.index()].time;
        match self.threads[hart.index()].doing {
            Doing::Asks => self.ask(hart),
            Doing::Runs(stop) => self.come(hart, stop),
            Doing::Leads(rounds, number, went) => self.lead(hart, rounds, number, went),
            Doing::Sleeps | Doing::Over => {}
        }
    }

    /// The thread does this next, behind so many steps and a delay.
    fn go_on(&mut self, hart: Hart, doing: Doing, steps: u64) {
        let delay = self.delay();
        let thread = &mut self.threads[hart.index()];
        thread.doing = doing;
        thread.time = self.time.saturating_add(steps).saturating_add(delay);
    }

    /// A delay by chance, in steps. At times the system lets others go on first.
    fn delay(&mut self) -> u64 {
        let roll = u64::from(self.dice.roll());
        if roll < 4 { 20_000 } else { roll * 4 }
    }

    /// Whether the hart's thread is to end.
    fn is_at_end(&self, hart: Hart) -> bool {
        let worker = self.workers[hart.index()];
        worker.is_done(&self.guest)
            || worker.count > self.guest.budget
            || self.threads[hart.index()].leases == 0
    }

    /// The hart asks for a lease, or is at its end.
    fn ask(&mut self, hart: Hart) {
        if self.is_at_end(hart) {
            let called = self.steering.leave(hart);
            self.go_on(hart, Doing::Over, 0);
            self.call(called);
            return;
        }
        if self.steering.may_ask(hart) {
            let leases = &mut self.threads[hart.index()].leases;
            *leases = leases.saturating_sub(1);
            let reach = self.steering.reach(hart);
            self.threads[hart.index()].reach = reach;
            self.go_out(hart, reach.min(LEASE_STEPS));
            self.go_on_with_lease(hart);
        } else {
            self.sleep(hart);
        }
        let wanted = self.steering.wanted();
        self.want(wanted);
    }

    /// Waits until the hart's thread is called, unless it was meanwhile.
    fn sleep(&mut self, hart: Hart) {
        let doing = if self.threads[hart.index()].is_called {
            Doing::Asks
        } else {
            Doing::Sleeps
        };
        self.threads[hart.index()].is_called = false;
        self.go_on(hart, doing, 0);
    }

    /// Calls the threads of these harts.
    fn call(&mut self, harts: HartSet) {
        for number in 0..self.guest.harts {
            let hart = hart_of(number);
            if harts.contains(hart) {
                if self.threads[hart.index()].doing == Doing::Sleeps {
                    self.go_on(hart, Doing::Asks, 0);
                } else {
                    self.threads[hart.index()].is_called = true;
                }
            }
        }
    }

    /// Others wait for the leases of these harts.
    fn want(&mut self, harts: HartSet) {
        for number in 0..self.guest.harts {
            let hart = hart_of(number);
            if harts.contains(hart) {
                self.threads[hart.index()].is_wanted = true;
            }
        }
    }

    /// A lease of the hart, which may take so many steps, with the pages that it takes at once.
    fn go_out(&mut self, hart: Hart, allowed: u64) {
        self.steering.go_out(hart);
        let woken = self.workers[hart.index()].begin(&self.memory, allowed);
        let pages = self.steering.pages_at_once(hart, woken);
        let in_the_way = self.steering.in_the_way(hart);
        for number in 0..PAGES {
            let want = pages.want(PageNo::new(number));
            if let Some(want) = want {
                let page = pages_of(number, want);
                if !in_the_way.is_against(page) {
                    self.take(hart, page);
                }
            }
        }
    }

    /// The hart's open lease gets these pages.
    fn take(&mut self, hart: Hart, pages: PageMask) {
        self.steering.take(hart, pages);
        for number in 0..self.guest.harts {
            if number != hart.number() {
                let other = hart_of(number);
                if self.workers[other.index()].pages.is_against(pages) {
                    self.is_apart = false;
                }
            }
        }
        let worker = &mut self.workers[hart.index()];
        worker.pages = worker.pages.with(pages);
    }

    /// Takes steps, and comes behind these.
    fn go_on_with_lease(&mut self, hart: Hart) {
        let before = self.workers[hart.index()].steps;
        let stop = self.workers[hart.index()].fill(&self.guest, &mut self.memory);
        let taken = self.workers[hart.index()].steps.wrapping_sub(before);
        self.go_on(hart, Doing::Runs(stop), taken);
    }

    /// Whether the lease, which stops here, may go on: it is given the page that it lacks, or may take more steps.
    fn may_go_on(&mut self, hart: Hart, stop: Stop) -> bool {
        let worker = self.workers[hart.index()];
        match stop {
            Stop::Last => false,
            Stop::Full => {
                let thread = self.threads[hart.index()];
                let more = worker.steps.saturating_add(LEASE_STEPS).min(thread.reach);
                self.workers[hart.index()].allowed = more;
                more > worker.steps && !thread.is_wanted
            }
            Stop::Lacks(page, want) => self.is_given(hart, pages_of(page, want)),
        }
    }

    /// Whether the hart's lease is given the pages.
    fn is_given(&mut self, hart: Hart, pages: PageMask) -> bool {
        if self.steering.is_barred(hart, pages) {
            let steps = self.workers[hart.index()].steps;
            self.steering.refuse(hart, steps, pages);
            return false;
        }
        self.take(hart, pages);
        true
    }

    /// The hart's thread comes with its lease.
    fn come(&mut self, hart: Hart, stop: Stop) {
        if self.may_go_on(hart, stop) {
            self.go_on_with_lease(hart);
            return;
        }
        self.threads[hart.index()].is_wanted = false;
        self.settle(hart);
        if let Stop::Lacks(page, want) = stop {
            self.steering.queue_up(hart, pages_of(page, want));
        }
        match self.steering.begin_to_lead() {
            Some(rounds) => self.go_on(hart, Doing::Leads(rounds, 0, false), 0),
            None => self.ask(hart),
        }
        let called = self.steering.called();
        self.call(called);
    }

    /// Settles the hart's lease.
    fn settle(&mut self, hart: Hart) {
        let worker = self.workers[hart.index()];
        let _keeps = self.steering.keeps_rights(hart);
        let is_short = worker.steps < LEASE_STEPS;
        let returned = self
            .steering
            .come_back(hart, worker.steps, is_short, 0, worker.woken);
        if worker.took_over {
            self.steering.take_over();
        }
        let mut after = [0u64; HART_ROW];
        if worker.rang {
            let next = hart_of((hart.number() + 1) % self.guest.harts.max(1));
            after[next.index()] = 1;
            self.memory.ring(next);
        }
        if self.steering.has_rests() {
            self.steering
                .settle(returned, worker.trace, &[0u64; HART_ROW], &after);
        }
        self.workers[hart.index()].end();
    }

    /// This thread leads the next hart, or ends its round.
    fn lead(&mut self, hart: Hart, rounds: u32, number: u8, went: bool) {
        if number < self.guest.harts {
            let steps = self.lead_once(hart_of(number));
            let went = went || steps > 0;
            self.go_on(hart, Doing::Leads(rounds, number + 1, went), steps);
        } else if went && rounds > 1 {
            self.go_on(hart, Doing::Leads(rounds - 1, 0, false), 0);
        } else {
            let called = self.steering.end_to_lead();
            self.go_on(hart, Doing::Asks, 0);
            self.call(called);
        }
    }

    /// Leads all harts on one thread, as long as they do better together and one goes on.
    fn go_together(&mut self) {
        let mut goes = true;
        for _round in 0..VISITS {
            if !goes || !self.steering.are_together() {
                break;
            }
            goes = false;
            for number in 0..self.guest.harts {
                goes = self.go_once(hart_of(number)) || goes;
            }
        }
        let _none_sleeps = self.steering.end_to_lead();
    }

    /// One lease of the hart, unless it only waits. Whether it had one.
    fn go_once(&mut self, hart: Hart) -> bool {
        if self.threads[hart.index()].doing == Doing::Over {
            return false;
        }
        if self.is_at_end(hart) {
            self.threads[hart.index()].doing = Doing::Over;
            let _none_sleeps = self.steering.leave(hart);
            return false;
        }
        if !self.steering.may_be_led(hart) {
            return false;
        }
        self.watch(hart);
        true
    }

    /// One lease of the hart, which is looked at now and then, and ends where it only waits.
    fn watch(&mut self, hart: Hart) {
        let first = self.steering.first_look(hart);
        self.go_out(hart, first);
        for _look in 0..LEASE_STEPS {
            let stop = self.fill(hart);
            let worker = self.workers[hart.index()];
            if stop != Stop::Full {
                break;
            }
            match self.steering.look(hart, worker.steps, 0, worker.trace) {
                Some(further) => self.workers[hart.index()].allowed = further,
                None => break,
            }
        }
        self.settle(hart);
    }

    /// One lease of the hart, where it has none and more to do than to wait. How many steps it took.
    fn lead_once(&mut self, hart: Hart) -> u64 {
        let worker = self.workers[hart.index()];
        let is_out = matches!(self.threads[hart.index()].doing, Doing::Runs(_));
        if is_out || worker.is_done(&self.guest) || !self.steering.may_be_led(hart) {
            return 0;
        }
        let reach = self.steering.reach(hart);
        self.go_out(hart, reach.min(LEASE_STEPS));
        let _stop = self.fill(hart);
        let steps = self.workers[hart.index()].steps;
        self.settle(hart);
        let called = self.steering.called();
        self.call(called);
        steps
    }

    /// Takes the steps that the hart's lease may take, on this thread, with each page that one lacks. Where it stops.
    fn fill(&mut self, hart: Hart) -> Stop {
        for _page in 0..2 * PAGES {
            let stop = self.workers[hart.index()].fill(&self.guest, &mut self.memory);
            let goes = match stop {
                Stop::Lacks(page, want) => self.is_given(hart, pages_of(page, want)),
                Stop::Full | Stop::Last => false,
            };
            if !goes {
                return stop;
            }
        }
        Stop::Last
    }
}

/// The guest at boot, with delays by this seed. By each other one its harts go together at first.
fn begun(guest: Guest, seed: u64) -> Simulation {
    let mut simulation = Simulation::new(guest, seed);
    if seed % 2 == 0 {
        simulation.go_together();
    }
    simulation
}

/// Whether all threads of the guest end, with delays by each seed, where one of them gives up.
fn ends_without_one(guest: &Guest) -> bool {
    for seed in 0..SEEDS / 4 {
        let hart = hart_of((seed % 8) as u8 % guest.harts.max(1));
        let leases = (seed / 8) as u32;
        if !begun(*guest, seed).ends_without(hart, leases) {
            return false;
        }
    }
    true
}

/// Whether the guest comes to its end with delays by each seed.
fn ends_with_all(guest: &Guest) -> bool {
    for seed in 1..=SEEDS {
        if !begun(*guest, seed).ends_well() {
            return false;
        }
    }
    true
}

#[test]
fn simulated_harts_come_to_their_ends(rt: HostRuntime) -> Result<(), Fail> {
    let mut right = true;
    let guests = GUESTS;
    for guest in &guests {
        right = right && ends_with_all(guest);
    }
    assert!(rt; right);
    Ok(())
}

#[test]
fn a_thread_that_gives_up_holds_up_no_other(rt: HostRuntime) -> Result<(), Fail> {
    let mut right = true;
    let guests = GUESTS;
    for guest in &guests {
        right = right && ends_without_one(guest);
    }
    assert!(rt; right);
    Ok(())
}
