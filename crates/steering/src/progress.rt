//! How far the harts have come.

use crate::idlers::Idlers;
use ft_types::{HART_ROW, Hart, LEASE_STEPS};

/// How far a hart may be ahead of the last one, at the least, to begin a lease.
const FARTHEST: u64 = LEASE_STEPS;

/// How far each hart has come, and how far the last one had when harts last had to do with each other.
#[derive(Clone, Copy)]
pub(crate) struct Progress {
    /// How many steps each hart has settled here; `u64::MAX` for one that is done. One that rested is as far as the last one.
    steps: [u64; HART_ROW],
    /// The steps of the last hart when harts last had to do with each other.
    quiet_from: u64,
    /// The number of harts.
    harts: u8,
}

impl Progress {
    /// No hart has settled a step.
    pub(crate) fn new(harts: u8) -> Progress {
        let mut steps = [u64::MAX; HART_ROW];
        for number in 0..HART_ROW.min(harts as usize) {
            steps[number] = 0;
        }
        Progress {
            steps,
            quiet_from: 0,
            harts,
        }
    }

    /// Whether a hart that is not done does more than wait.
    pub(crate) fn has_busy(&self, idlers: &Idlers) -> bool {
        for number in 0..HART_ROW.min(self.harts as usize) {
            if self.steps[number] != u64::MAX && !idlers.is_idle(number) {
                return true;
            }
        }
        false
    }

    /// The steps of the hart that has the fewest here, of those that do more than wait.
    pub(crate) fn fewest_busy(&self, idlers: &Idlers) -> u64 {
        let mut fewest = u64::MAX;
        for number in 0..HART_ROW.min(self.harts as usize) {
            if !idlers.is_idle(number) {
                fewest = fewest.min(self.steps[number]);
            }
        }
        fewest
    }

    /// The same, or of all that go on where all only wait.
    pub(crate) fn fewest(&self, idlers: &Idlers) -> u64 {
        let mut fewest = self.fewest_busy(idlers);
        if fewest == u64::MAX {
            for number in 0..HART_ROW.min(self.harts as usize) {
                fewest = fewest.min(self.steps[number]);
            }
        }
        fewest
    }

    /// How far the last hart has come since harts last had to do with each other.
    pub(crate) fn quiet(&self, idlers: &Idlers) -> u64 {
        self.fewest(idlers).saturating_sub(self.quiet_from)
    }

    /// Whether the hart is too far ahead to begin a lease: further than the last one has come since harts last had to do with
    /// each other.
    pub(crate) fn is_ahead(&self, hart: Hart, idlers: &Idlers) -> bool {
        let steps = self.steps[hart.index()];
        let fewest = self.fewest(idlers);
        let quiet = fewest.saturating_sub(self.quiet_from);
        steps != u64::MAX && steps > fewest.saturating_add(quiet.max(FARTHEST))
    }

    /// Whether the hart is done.
    pub(crate) fn is_done(&self, hart: Hart) -> bool {
        self.steps[hart.index()] == u64::MAX
    }

    /// Harts had to do with each other.
    pub(crate) fn meet(&mut self, idlers: &Idlers) {
        self.quiet_from = self.fewest(idlers);
    }

    /// The hart settles so many steps.
    pub(crate) fn add(&mut self, hart: Hart, steps: u64) {
        let hart = hart.index();
        if self.steps[hart] != u64::MAX {
            self.steps[hart] = self.steps[hart].saturating_add(steps);
        }
    }

    /// The hart is done.
    pub(crate) fn finish(&mut self, hart: Hart) {
        self.steps[hart.index()] = u64::MAX;
    }

    /// The hart, which did not go on while the others did, counts no less far than the last one. What it took while it looked stays
    /// counted: else it might use up its budget before another comes to what it waits for.
    pub(crate) fn catch_up(&mut self, hart: usize, idlers: &Idlers) {
        if hart < HART_ROW && self.steps[hart] != u64::MAX {
            self.steps[hart] = self.steps[hart].max(self.fewest(idlers));
        }
    }
}
