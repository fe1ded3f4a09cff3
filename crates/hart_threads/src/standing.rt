//! How far an overseer lets harts go.

use crate::overseer::Grant;
use ft_types::{Count, Counts, HART_ROW, Hart, HartSet};

/// For each hart, where it has the overseer look again, and where it stands until he has.
#[derive(Clone, Copy)]
pub(crate) struct Bounds {
    calls: [Count; HART_ROW],
    ends: [Count; HART_ROW],
    /// How often he has looked, and how often he had when each hart was lent.
    looks: u64,
    lent: [u64; HART_ROW],
    /// Who waits for a look.
    standing: HartSet,
    /// Whether he lets none go on.
    is_over: bool,
}

impl Bounds {
    /// Where there is an overseer each hart stands until he has looked. Where there is none, none stands.
    pub(crate) fn new(is_seen: bool) -> Bounds {
        let first = if is_seen { 0 } else { u64::MAX };
        Bounds {
            calls: [first; HART_ROW],
            ends: [first; HART_ROW],
            looks: 0,
            lent: [0; HART_ROW],
            standing: HartSet::new(),
            is_over: false,
        }
    }

    /// The hart is lent.
    pub(crate) fn go_out(&mut self, hart: Hart) {
        self.lent[hart.index()] = self.looks;
    }

    /// How many steps the hart, which is at this count, may take until the overseer has looked.
    pub(crate) fn left(&self, hart: Hart, count: Count) -> u64 {
        self.ends[hart.index()].saturating_sub(count)
    }

    /// How many steps its lease may take: to where it has the overseer look, or else to where it stands.
    pub(crate) fn stride(&self, hart: Hart, count: Count) -> u64 {
        let further = self.calls[hart.index()].saturating_sub(count);
        if further > 0 {
            return further;
        }
        self.left(hart, count)
    }

    /// Whether the hart, whose lease is settled at this count, has come where it has the overseer look. If he looked while it was lent,
    /// another hart has just had him do so, and this one takes one lease more before it does.
    pub(crate) fn is_due(&self, hart: Hart, count: Count) -> bool {
        !self.is_over && self.calls[hart.index()] <= count && self.lent[hart.index()] == self.looks
    }

    /// The hart, which may take no step, waits for a look. Whether one is to come.
    pub(crate) fn stand(&mut self, hart: Hart) -> bool {
        if self.is_over {
            return false;
        }
        self.standing = self.standing.with(hart);
        true
    }

    /// Whether a hart waits for a look.
    pub(crate) fn has_standing(&self) -> bool {
        !self.standing.is_empty()
    }

    /// The overseer has looked at harts with these counts. Who waited for that: they go on now, or end. They end where he lets none go on, or
    /// one of them no further.
    pub(crate) fn grant(&mut self, grant: Option<Grant>, counts: &Counts) -> HartSet {
        match grant {
            Some(grant) => self.raise(grant),
            None => self.is_over = true,
        }
        for number in 0..counts.harts() {
            let hart = Hart::new(number);
            if self.standing.contains(hart) && self.left(hart, counts.get(hart)) == 0 {
                self.is_over = true;
            }
        }
        let called = self.standing;
        self.standing = HartSet::new();
        called
    }

    /// So far the harts may go from now on, and no less far than before.
    fn raise(&mut self, grant: Grant) {
        self.looks = self.looks.saturating_add(1);
        for number in 0..grant.calls.harts() {
            let hart = Hart::new(number);
            self.calls[hart.index()] = grant.calls.get(hart);
        }
        for number in 0..grant.ends.harts() {
            let hart = Hart::new(number);
            let further = grant.ends.get(hart).max(self.ends[hart.index()]);
            self.ends[hart.index()] = further;
        }
    }
}
