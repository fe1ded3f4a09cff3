//! How far keepers have taken what a primary sent, so that the gate is woken once enough of them have, and not by each.

use ft_types::KEEPER_ROW;
use std::array;
use std::sync::atomic::{AtomicU64, Ordering};

/// How many messages each keeper has taken, of those that are sent to all of them. What they hold is on the board: this says when to look.
#[derive(Drop)]
pub(crate) struct Tally {
    taken: [AtomicU64; KEEPER_ROW],
    /// How many keepers the gate needs.
    need: u8,
    /// How many messages so many keepers had taken when the gate was told last.
    told: AtomicU64,
}

impl Tally {
    /// None has taken any.
    pub(crate) fn new(need: u8) -> Tally {
        Tally {
            taken: array::from_fn(|_| AtomicU64::new(0)),
            need,
            told: AtomicU64::new(0),
        }
    }

    /// How many keepers have taken so many messages.
    fn keepers_at(&self, messages: u64) -> u8 {
        let mut keepers = 0u8;
        for keeper in 0..KEEPER_ROW {
            if self.taken[keeper].load(Ordering::SeqCst) >= messages {
                keepers = keepers.saturating_add(1);
            }
        }
        keepers
    }

    /// How many messages as many keepers as are needed have taken.
    fn held(&self) -> u64 {
        let mut held = 0;
        for keeper in 0..KEEPER_ROW {
            let messages = self.taken[keeper].load(Ordering::SeqCst);
            if messages > held && self.keepers_at(messages) >= self.need {
                held = messages;
            }
        }
        held
    }

    /// The keeper, which has published what it holds, has taken so many messages. Whether the gate is to be told: as many keepers as it needs
    /// have taken more than when it was told last.
    pub(crate) fn has_moved(&self, keeper: usize, messages: u64) -> bool {
        if let Some(taken) = self.taken.get(keeper) {
            taken.store(messages, Ordering::SeqCst);
        }
        let held = self.held();
        if held <= self.told.load(Ordering::SeqCst) {
            return false;
        }
        self.told.store(held, Ordering::SeqCst);
        true
    }
}
