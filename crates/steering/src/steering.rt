//! Which harts go on beside each other, which wait, for what, and for how long.

ghost use Rattle.std.specs.Prelude.{◌≤◌};
ghost use Rattle.ft_types.specs.declared.names.TheConstants.{HART_LIMIT};

use crate::crowd::Crowd;
use crate::habits::Habits;
use crate::idlers::{Idlers, LOOK, Returned};
use crate::pace::Pace;
use crate::progress::Progress;
use crate::queue::Queue;
use crate::rests::{Rest, Rests};
use ft_types::{Count, Counts, HART_LIMIT, HART_ROW, Hart, HartSet, LEASE_STEPS};
use lease_rounds::PageMask;

/// How many steps a lease takes at the most.
pub const FAR: u64 = 64 * LEASE_STEPS;

/// Who of the harts of a book waits for what, as far as numbers tell. It steers only: no promise leans on it.
#[derive(Clone, Copy)]
pub struct Steering {
    /// The number of harts.
    harts: u8,
    queue: Queue,
    habits: Habits,
    idlers: Idlers,
    progress: Progress,
    rests: Rests,
    crowd: Crowd,
    pace: Pace,
    /// How far each hart is to come.
    ends: Counts,
    /// Whether no turnstile counts the leases.
    is_free: bool,
    /// Whether harts that only wait are to rest.
    has_rests: bool,
    /// For whose leases others wait since this visit.
    wanted: HartSet,
}

impl Steering {
    /// So many harts, all of which go on to their ends; whether no turnstile counts their leases.
    pub fn new(harts: u8, pace: Pace, ends: Counts, is_free: bool) -> Steering {
        Steering {
            harts,
            queue: Queue::new(harts),
            habits: Habits::new(),
            idlers: Idlers::new(),
            progress: Progress::new(harts),
            rests: Rests::new(harts),
            crowd: Crowd::new(),
            pace,
            ends,
            is_free,
            has_rests: is_free && pace == Pace::Even,
            wanted: HartSet::new(),
        }
    }

    /// The number of harts.
    fn harts(&self) -> u8
        ensures { result ≤ HART_LIMIT }
    {
        HART_LIMIT.min(self.harts)
    }

    /// Whether harts that only wait are to rest. Else nothing is to be told of a lease once it is settled.
    pub fn has_rests(&self) -> bool {
        self.has_rests
    }

    /// Whether the hart may ask for a lease. Else it waits until it is called.
    pub fn may_ask(&mut self, hart: Hart) -> bool {
        let rest = if self.crowd.is_led() {
            Rest::Led
        } else {
            self.rest(hart)
        };
        if rest != Rest::Awake {
            self.wait(hart, rest);
            return false;
        }
        self.rests.set(hart, rest);
        true
    }

    /// What the hart has to sleep for before it may ask for a lease.
    fn rest(&self, hart: Hart) -> Rest {
        if !self.queue.is_called(hart) {
            return Rest::Pages;
        }
        if self.pace == Pace::Own || self.queue.is_waiting(hart.index()) {
            return Rest::Awake;
        }
        if self.is_idle(hart) {
            return Rest::Idle;
        }
        if self.progress.is_ahead(hart, &self.idlers) {
            return Rest::Ahead;
        }
        Rest::Awake
    }

    /// Whether the hart only waits, and others do more.
    fn is_idle(&self, hart: Hart) -> bool {
        if !self.idlers.is_idle(hart.index()) {
            return false;
        }
        let others = self.progress.fewest_busy(&self.idlers);
        others != u64::MAX && self.idlers.is_patient(hart, others)
    }

    /// The hart waits for this. Whoever may have it is to come back soon.
    fn wait(&mut self, hart: Hart, rest: Rest) {
        self.rests.set(hart, rest);
        for number in 0..self.harts() {
            let other = Hart::new(number);
            let has_it = match rest {
                Rest::Pages => self.queue.held(other).is_against(self.queue.wishes(hart)),
                Rest::Idle | Rest::Edges => true,
                Rest::Awake | Rest::Ahead | Rest::Led | Rest::Over => false,
            };
            if number != hart.number() && has_it {
                self.wanted = self.wanted.with(other);
            }
        }
    }

    /// The hart waits until others settle steps. Whether others may: else each is done or waits so too.
    pub fn wait_for_steps(&mut self, hart: Hart) -> bool {
        self.wait(hart, Rest::Edges);
        for number in 0..self.harts() {
            let other = Hart::new(number);
            if !self.progress.is_done(other) && self.rests.of(other) != Rest::Edges {
                return true;
            }
        }
        false
    }

    /// Whether the hart goes on and has more to do than to wait, so that whoever leads all harts leads it next. None has where they take no pages
    /// from each other any more.
    pub fn may_be_led(&self, hart: Hart) -> bool {
        self.crowd.is_close() && !self.progress.is_done(hart) && self.rest(hart) == Rest::Awake
    }

    /// Whether one thread still leads all harts from the beginning on, before the others have theirs.
    pub fn are_together(&self) -> bool {
        self.has_rests && self.crowd.are_together()
    }

    /// The lease that came back took a page from another hart.
    pub fn take_over(&mut self) {
        self.crowd.meet();
    }

    /// For how many rounds one thread is to lead all harts from now on, where it is to: they have to do with each other so often that handing on
    /// takes longer than their steps. Their own threads wait until it ends that.
    pub fn begin_to_lead(&mut self) -> Option<u32> {
        if self.has_rests {
            self.crowd.begin()
        } else {
            None
        }
    }

    /// The thread that led all harts ends that. Whose threads are to look again.
    pub fn end_to_lead(&mut self) -> HartSet {
        self.crowd.end();
        self.called()
    }

    /// The hart has a lease, and looks again where it only waited.
    pub fn go_out(&mut self, hart: Hart) {
        if self.idlers.is_idle(hart.index()) {
            self.progress.catch_up(hart.index(), &self.idlers);
        }
        self.idlers.go_out(hart);
    }

    /// How many steps the hart's lease takes before it is looked at, where one thread leads all from the beginning on.
    pub fn first_look(&self, hart: Hart) -> u64 {
        self.idlers.first_look(hart)
    }

    /// How many steps the hart's open lease, which has so many and does not go past this count, may take in all, where one thread leads all harts from
    /// the beginning on, and its registers come to this now. None where it only waited since it was last looked at, or has as many as it may.
    pub fn look(&mut self, hart: Hart, steps: u64, stop: Count, trace: u64) -> Option<u64> {
        if self.idlers.is_still(hart, trace) && !self.awaits_its_count(hart, stop) {
            self.crowd.stand();
            return None;
        }
        let most = self.crowd.turn();
        if steps >= most {
            return None;
        }
        self.idlers.go_on(hart, trace);
        Some(steps.saturating_add(steps.min(LEASE_STEPS)).min(most))
    }

    /// The pages that the hart takes at once with its lease, which begins with inputs or without: those that it waits for, and those
    /// that it had in its last one.
    pub fn pages_at_once(&mut self, hart: Hart, woken: bool) -> PageMask {
        let pages = self.habits.begin(hart, woken);
        self.queue.with_wishes(hart, pages)
    }

    /// What the open leases of other harts have, and what others have waited for longer.
    pub fn in_the_way(&self, hart: Hart) -> PageMask {
        self.queue.in_the_way(hart)
    }

    /// How many steps a lease of the hart may take while nobody waits for it: as many as the last hart has come since harts last
    /// had to do with each other, no more than usual where one waits, and few where the hart itself only waited lately.
    pub fn reach(&self, hart: Hart) -> u64 {
        if self.has_rests && self.idlers.is_looking(hart) {
            return LOOK;
        }
        if !self.is_free || self.rests.has_waiting() {
            return LEASE_STEPS;
        }
        match self.pace {
            Pace::Even => self.progress.quiet(&self.idlers).max(LEASE_STEPS).min(FAR),
            Pace::Own => FAR,
        }
    }

    /// Whether what another hart's open lease has, or has waited for longer, stands in the way of these pages.
    pub fn is_barred(&self, hart: Hart, pages: PageMask) -> bool {
        self.queue.is_barred(hart, pages)
    }

    /// The hart's open lease is given these pages.
    pub fn take(&mut self, hart: Hart, pages: PageMask) {
        self.queue.take(hart, pages);
    }

    /// The hart's open lease, with so many steps, is refused these pages.
    pub fn refuse(&mut self, hart: Hart, steps: u64, pages: PageMask) {
        self.meet();
        self.habits.dispute(pages);
        // One that does not go on may be led still. It would never take what it waits for.
        if steps == 0 && !self.progress.is_done(hart) {
            self.queue.wait(hart, pages);
        }
    }

    /// The hart's next step lacks these pages, for which it waits from now on. One that obeys a log may have to wait for steps of
    /// others first, which it must not hold up.
    pub fn queue_up(&mut self, hart: Hart, lacked: PageMask) {
        if lacked.is_some() && self.pace == Pace::Even {
            self.queue.wait(hart, lacked);
        }
    }

    /// Whether the hart keeps all its rights behind its lease: nobody waits for its pages or was in its way over them lately. A right
    /// that it keeps may stand in the way of others without being seen by those who wait.
    pub fn keeps_rights(&self, hart: Hart) -> bool {
        let pages = self.queue.held(hart);
        !self.habits.is_disputed(pages) && !self.queue.is_wished(hart, pages)
    }

    /// The hart's lease comes back, with so many steps of those up to this count, fewer than it might have had or not; it began with inputs
    /// or without.
    pub fn come_back(
        &mut self,
        hart: Hart,
        steps: u64,
        is_short: bool,
        stop: Count,
        woken: bool,
    ) -> Returned {
        let pages = self.queue.held(hart);
        self.progress.add(hart, steps);
        self.crowd.add(steps);
        self.habits.note(hart, self.queue.unwished(hart, pages));
        self.queue.release(hart);
        if is_short {
            self.meet();
        }
        if steps > 0 {
            self.queue.forget(hart);
            self.rests.end(Rest::Edges);
        }
        Returned {
            hart,
            steps,
            pages,
            woken,
            awaits: self.awaits_its_count(hart, stop),
        }
    }

    /// Harts had to do with each other.
    fn meet(&mut self) {
        self.progress.meet(&self.idlers);
    }

    /// Whether the hart, whose lease does not go past this count, has to come there to be given something: it does more than wait.
    fn awaits_its_count(&self, hart: Hart, stop: Count) -> bool {
        hart.number() < self.ends.harts() && stop < self.ends.get(hart)
    }

    /// The lease that came back was settled: what the hart's registers come to behind it, and how often the hart has rung each hart,
    /// before it and behind it.
    pub fn settle(
        &mut self,
        returned: Returned,
        trace: u64,
        before: &[u64; HART_ROW],
        after: &[u64; HART_ROW],
    ) {
        let rung = self.rung_between(before, after);
        self.note_idle(returned, trace, !rung.is_empty());
        self.note_rung(rung);
        self.wake_where_all_wait();
    }

    /// The harts that were rung more often behind a lease than before it.
    fn rung_between(&self, before: &[u64; HART_ROW], after: &[u64; HART_ROW]) -> HartSet {
        let mut rung = HartSet::new();
        for number in 0..self.harts() {
            let target = Hart::new(number);
            if before[target.index()] != after[target.index()] {
                rung = rung.with(target);
            }
        }
        rung
    }

    /// The hart only waits from now on, or others do not that wait for what it may have written.
    fn note_idle(&mut self, returned: Returned, trace: u64, rang: bool) {
        let hart = returned.hart;
        let written = returned.pages.written();
        if self.idlers.note(returned, trace, rang) {
            let others = self.progress.fewest(&self.idlers);
            self.idlers.rest(hart, others);
            if !self.idlers.has_worked(hart) {
                return;
            }
        }
        for number in 0..self.harts() as usize {
            if number != hart.index() && self.idlers.is_waiting_for(number, written) {
                self.stir(number);
            }
        }
    }

    /// The harts that were rung meanwhile have more to do than to wait.
    fn note_rung(&mut self, rung: HartSet) {
        if rung.is_empty() {
            return;
        }
        for number in 0..self.harts() {
            let target = Hart::new(number);
            if rung.contains(target) {
                self.meet();
                self.stir(target.index());
                self.wanted = self.wanted.with(target);
            }
        }
    }

    /// The hart has more to do than to wait.
    fn stir(&mut self, hart: usize) {
        self.progress.catch_up(hart, &self.idlers);
        self.idlers.stir(hart);
    }

    /// Where each hart seems only to wait none rests: one of them may do more, or what they wait for may come at a later count.
    fn wake_where_all_wait(&mut self) {
        if !self.progress.has_busy(&self.idlers) {
            self.idlers.wake_all();
            self.rests.end(Rest::Idle);
        }
    }

    /// The hart does not go on. Whose threads are to look again.
    pub fn leave(&mut self, hart: Hart) -> HartSet {
        self.queue.forget(hart);
        self.queue.release(hart);
        self.progress.finish(hart);
        self.rests.set(hart, Rest::Awake);
        self.rests.end_all();
        self.called()
    }

    /// For whose leases others wait since this visit.
    pub fn wanted(&mut self) -> HartSet {
        let harts = self.wanted;
        self.wanted = HartSet::new();
        harts
    }

    /// Whose threads are to look again. They sleep no longer.
    pub fn called(&mut self) -> HartSet {
        let mut harts = HartSet::new();
        if self.rests.are_awake() {
            return harts;
        }
        for number in 0..self.harts() {
            let hart = Hart::new(number);
            if self.may_look(hart) {
                self.rests.set(hart, Rest::Awake);
                harts = harts.with(hart);
            }
        }
        harts
    }

    /// Whether what the hart's thread sleeps for is over.
    fn may_look(&self, hart: Hart) -> bool {
        match self.rests.of(hart) {
            Rest::Awake | Rest::Edges => false,
            Rest::Pages => self.queue.is_called(hart),
            Rest::Ahead => !self.progress.is_ahead(hart, &self.idlers),
            Rest::Idle => !self.is_idle(hart),
            Rest::Led => !self.crowd.is_led(),
            Rest::Over => true,
        }
    }
}
