//! When one thread does better to lead all harts in turn than each hart's own thread does to lead it.

use ft_types::LEASE_STEPS;

/// How many leases are looked at together.
const WINDOW: u64 = 16;

/// How many steps a lease has on the average, at the least, where threads are worth what they cost: handing on pages and calling a thread takes as long
/// as some thousand steps.
const WORTH: u64 = LEASE_STEPS - LEASE_STEPS / 4;

/// For how many rounds one thread leads all harts at first, and at the most, before it is tried once more whether they do better apart.
const FIRST: u32 = 64;

const MOST: u32 = 4096;

/// After so many leases in a row that took no page from another hart they are apart.
const APART: u32 = 64;

/// From the beginning on one thread leads all harts until so many leases in a row took no page from another hart, and for so many steps at the most: a thread's
/// start takes as long as some leases.
const OWN: u32 = 16;

const BEGINNING: u64 = 4096 * LEASE_STEPS;

/// After so many leases of one thread that leads all harts from the beginning on each may take more steps.
const USUAL: u64 = 32;

/// As many.
const LONGER: u64 = 4 * LEASE_STEPS;

/// Whether harts have to do with each other so often that one thread is to lead them all.
#[derive(Clone, Copy)]
pub(crate) struct Crowd {
    /// How many leases came back since that was last looked at, and their steps.
    leases: u64,
    steps: u64,
    /// For how many rounds one thread is to lead them, the next time.
    rounds: u32,
    /// Whether one leads them.
    is_led: bool,
    /// How many leases in a row took no page from another hart.
    apart: u32,
}

impl Crowd {
    /// Each hart is led by its own thread.
    pub(crate) fn new() -> Crowd {
        Crowd {
            leases: 0,
            steps: 0,
            rounds: FIRST,
            is_led: false,
            apart: 0,
        }
    }

    /// A lease with so many steps came back.
    pub(crate) fn add(&mut self, steps: u64) {
        self.leases = self.leases.saturating_add(1);
        self.steps = self.steps.saturating_add(steps);
        self.apart = self.apart.saturating_add(1);
    }

    /// The last lease took a page from another hart.
    pub(crate) fn meet(&mut self) {
        self.apart = 0;
    }

    /// The open lease only waits, which says nothing of whether harts are apart.
    pub(crate) fn stand(&mut self) {
        self.apart = self.apart.saturating_sub(1);
    }

    /// How many steps a lease may take where one thread leads all harts from the beginning on.
    pub(crate) fn turn(&self) -> u64 {
        if self.leases < USUAL {
            LEASE_STEPS
        } else {
            LONGER
        }
    }

    /// Whether one thread leads all harts.
    pub(crate) fn is_led(&self) -> bool {
        self.is_led
    }

    /// Whether one thread leads all harts from the beginning on, of which no lease was looked at yet.
    pub(crate) fn are_together(&self) -> bool {
        self.apart < OWN && self.steps < BEGINNING
    }

    /// Whether harts still take pages from each other.
    pub(crate) fn is_close(&self) -> bool {
        self.apart < APART
    }

    /// For how many rounds one thread is to lead all harts from now on, where it is to. The next time for more, unless they do well meanwhile.
    pub(crate) fn begin(&mut self) -> Option<u32> {
        if self.is_led || self.leases < WINDOW {
            return None;
        }
        let is_crowded = self.steps / WORTH < self.leases;
        self.leases = 0;
        self.steps = 0;
        if !is_crowded {
            self.rounds = FIRST;
            return None;
        }
        let rounds = self.rounds;
        self.rounds = rounds.saturating_mul(4).min(MOST);
        self.is_led = true;
        self.apart = 0;
        Some(rounds)
    }

    /// Each hart's own thread leads it again.
    pub(crate) fn end(&mut self) {
        self.leases = 0;
        self.steps = 0;
        self.is_led = false;
    }
}
