//! What the harts' threads sleep for.

use ft_types::{HART_ROW, Hart, HartSet};

/// What a hart's thread sleeps for, until it is called.
#[derive(Clone, Copy, PartialEq, Eq)]
pub(crate) enum Rest {
    /// It does not sleep.
    Awake,
    /// The pages for which it has a number.
    Pages,
    /// Others are to come near.
    Ahead,
    /// Something is to happen to the hart, which only waits.
    Idle,
    /// Others are to settle steps.
    Edges,
    /// The thread that leads all harts is to end that.
    Led,
    /// Nothing more.
    Over,
}

/// What each hart's thread sleeps for.
#[derive(Clone, Copy)]
pub(crate) struct Rests {
    each: [Rest; HART_ROW],
    /// Whose threads do not stand as awake.
    sleeping: HartSet,
    /// The number of harts.
    harts: u8,
}

impl Rests {
    /// None sleeps.
    pub(crate) fn new(harts: u8) -> Rests {
        Rests {
            each: [Rest::Awake; HART_ROW],
            sleeping: HartSet::new(),
            harts,
        }
    }

    /// Whether no hart's thread sleeps.
    pub(crate) fn are_awake(&self) -> bool {
        self.sleeping.is_empty()
    }

    /// What the hart's thread sleeps for.
    pub(crate) fn of(&self, hart: Hart) -> Rest {
        self.each[hart.index()]
    }

    /// The hart's thread sleeps for this.
    pub(crate) fn set(&mut self, hart: Hart, rest: Rest) {
        self.each[hart.index()] = rest;
        self.sleeping = if rest == Rest::Awake {
            self.sleeping.without(hart)
        } else {
            self.sleeping.with(hart)
        };
    }

    /// Whether a hart waits for something that another may do.
    pub(crate) fn has_waiting(&self) -> bool {
        if self.are_awake() {
            return false;
        }
        for number in 0..HART_ROW.min(self.harts as usize) {
            if matches!(self.each[number], Rest::Pages | Rest::Idle | Rest::Edges) {
                return true;
            }
        }
        false
    }

    /// What these threads sleep for is over.
    pub(crate) fn end(&mut self, ended: Rest) {
        if self.are_awake() {
            return;
        }
        for number in 0..HART_ROW.min(self.harts as usize) {
            if self.each[number] == ended {
                self.each[number] = Rest::Over;
            }
        }
    }

    /// What any thread sleeps for is over.
    pub(crate) fn end_all(&mut self) {
        for number in 0..HART_ROW.min(self.harts as usize) {
            if self.each[number] != Rest::Awake {
                self.each[number] = Rest::Over;
            }
        }
    }
}
