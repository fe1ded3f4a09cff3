//! Which harts only wait.

use ft_types::{HART_LIMIT, HART_ROW, Hart, HartSet, LEASE_STEPS};
use lease_rounds::PageMask;

/// How many steps the others take before a hart that only waits looks again, though nothing that it reads has changed.
const PATIENCE: u64 = 8 * LEASE_STEPS;

/// How many steps a lease takes of a hart that only waited lately: it looks whether what it waits for has come.
pub(crate) const LOOK: u64 = 128;

/// So many leases it looks, unless it only waits again.
const LOOKS: u8 = 4;

/// After so many rings in a row behind which it only waited a hart is taken to wait behind the next one too.
const SURE: u8 = 2;

/// A hart that only waits so many leases behind a ring waits for an answer to it.
const SOON: u8 = 4;

/// What words come to that came to this, and two more.
#[inline(always)]
fn with_two(trace: u64, first: u32, second: u32) -> u64 {
    let both = u64::from(first) | u64::from(second) << 32;
    (trace ^ both)
        .wrapping_mul(0x9e37_79b9_7f4a_7c15)
        .rotate_left(29)
}

/// What the words come to. Others mostly come to something else.
pub fn trace_of(words: &[u32]) -> u64 {
    let mut trace = 0u64;
    for pair in 0..words.len() / 2 {
        trace = with_two(trace, words[2 * pair], words[2 * pair + 1]);
    }
    match words.last() {
        Some(last) => with_two(trace, *last, 0),
        None => trace,
    }
}

/// A lease that came back, until it is settled.
#[derive(Clone, Copy)]
pub struct Returned {
    pub(crate) hart: Hart,
    pub(crate) steps: u64,
    /// The pages that it had.
    pub(crate) pages: PageMask,
    /// Whether it began with inputs.
    pub(crate) woken: bool,
    /// Whether its hart has to come to a later count to be given something.
    pub(crate) awaits: bool,
}

/// Which harts only wait: those whose registers were behind a whole lease what they were before it, and those that have just rung
/// and waited behind each of their last rings.
#[derive(Clone, Copy)]
pub(crate) struct Idlers {
    idle: [bool; HART_ROW],
    /// To which something happened since they were lent.
    stirred: [bool; HART_ROW],
    /// What each hart's registers came to when its last lease came back.
    traces: [u64; HART_ROW],
    /// What each hart waits for to be written: what that lease had.
    pages: [PageMask; HART_ROW],
    /// The same of the last lease that only waited.
    waiting_pages: [PageMask; HART_ROW],
    /// Behind how many rings in a row the hart only waited, and how many leases ago it rang.
    waits: [u8; HART_ROW],
    rang: [u8; HART_ROW],
    /// How far the others had come then.
    since: [u64; HART_ROW],
    /// How many more leases each hart looks.
    looks: [u8; HART_ROW],
    /// Whose open leases did more than to wait, by a look at them.
    worked: HartSet,
    /// Who is not to be looked at before it has taken a whole lease: where all seem to wait one of them may do more.
    unseen: HartSet,
}

impl Idlers {
    /// No hart only waits.
    pub(crate) fn new() -> Idlers {
        Idlers {
            idle: [false; HART_ROW],
            stirred: [false; HART_ROW],
            traces: [0; HART_ROW],
            pages: [PageMask::none(); HART_ROW],
            waiting_pages: [PageMask::none(); HART_ROW],
            waits: [0; HART_ROW],
            rang: [SOON; HART_ROW],
            since: [0; HART_ROW],
            looks: [0; HART_ROW],
            worked: HartSet::new(),
            unseen: HartSet::new(),
        }
    }

    /// Whether the hart only waits.
    pub(crate) fn is_idle(&self, hart: usize) -> bool {
        hart < HART_ROW && self.idle[hart]
    }

    /// Whether the hart only waited lately.
    pub(crate) fn is_looking(&self, hart: Hart) -> bool {
        self.looks[hart.index()] != 0
    }

    /// Whether a hart that only waits is to wait on while the others are so far.
    pub(crate) fn is_patient(&self, hart: Hart, others: u64) -> bool {
        self.idle[hart.index()] && others < self.since[hart.index()].saturating_add(PATIENCE)
    }

    /// Whether the hart only waits for what these pages tell.
    pub(crate) fn is_waiting_for(&self, hart: usize, written: PageMask) -> bool {
        self.is_idle(hart) && hart < HART_ROW && self.pages[hart].is_against(written)
    }

    /// How many steps the hart's next lease takes before it is looked at.
    pub(crate) fn first_look(&self, hart: Hart) -> u64 {
        if self.unseen.contains(hart) {
            LEASE_STEPS
        } else {
            LOOK
        }
    }

    /// Whether the hart only waited since its lease was last looked at: its registers come to this now.
    pub(crate) fn is_still(&mut self, hart: Hart, trace: u64) -> bool {
        let place = hart.index();
        self.looks[place] = self.looks[place].max(1);
        self.traces[place] == trace
    }

    /// The hart's lease did more than to wait, and goes on where its registers come to this.
    pub(crate) fn go_on(&mut self, hart: Hart, trace: u64) {
        self.traces[hart.index()] = trace;
        self.worked = self.worked.with(hart);
    }

    /// Whether the hart's last lease did more than to wait, by a look at it.
    pub(crate) fn has_worked(&self, hart: Hart) -> bool {
        self.worked.contains(hart)
    }

    /// A lease was settled, behind which its hart's registers come to this; whether its last step rang. Whether the hart only waits.
    pub(crate) fn note(&mut self, returned: Returned, trace: u64, rang: bool) -> bool {
        let hart = returned.hart.index();
        let whole = if self.looks[hart] != 0 {
            LOOK
        } else {
            LEASE_STEPS
        };
        let is_alike = returned.steps >= whole && self.traces[hart] == trace;
        let still = is_alike && !rang && !returned.awaits;
        let sure = rang && self.waits[hart] >= SURE;
        let idle = (still || sure) && !self.stirred[hart];
        self.learn(hart, still && idle, returned.woken, rang);
        self.pages[hart] = if sure {
            self.waiting_pages[hart]
        } else {
            returned.pages
        };
        self.looks[hart] = self.looks[hart].saturating_sub(1);
        if idle {
            self.waiting_pages[hart] = self.pages[hart];
            self.rang[hart] = SOON;
            self.looks[hart] = LOOKS;
        }
        self.idle[hart] = idle;
        self.traces[hart] = trace;
        self.unseen = self.unseen.without(returned.hart);
        idle
    }

    /// Whether the hart waits behind its rings.
    fn learn(&mut self, hart: usize, waits: bool, woken: bool, rang: bool) {
        if hart >= HART_ROW {
            return;
        }
        if rang {
            if self.rang[hart] < SOON && !woken {
                self.waits[hart] = 0;
            }
            self.rang[hart] = 0;
        } else if self.rang[hart] < SOON {
            self.rang[hart] += 1;
            if waits {
                self.waits[hart] = self.waits[hart].saturating_add(1);
            }
        }
    }

    /// The hart only waits from now on, where the others are so far.
    pub(crate) fn rest(&mut self, hart: Hart, others: u64) {
        self.since[hart.index()] = others;
    }

    /// Something happens to the hart.
    pub(crate) fn stir(&mut self, hart: usize) {
        if hart < HART_ROW {
            self.idle[hart] = false;
            self.stirred[hart] = true;
        }
    }

    /// No hart only waits any more, as far as is known.
    pub(crate) fn wake_all(&mut self) {
        self.idle = [false; HART_ROW];
        self.looks = [0; HART_ROW];
        for number in 0..HART_LIMIT {
            self.unseen = self.unseen.with(Hart::new(number));
        }
    }

    /// The hart is lent.
    pub(crate) fn go_out(&mut self, hart: Hart) {
        let place = hart.index();
        if self.idle[place] {
            self.waits[place] = 0;
        }
        self.idle[place] = false;
        self.stirred[place] = false;
        self.worked = self.worked.without(hart);
    }
}
