//! A machine small enough to follow by hand: its harts count their steps, store their counts on pages, and load what is
//! there.

ghost use Rattle.std.specs.Prelude.{◌≡◌, Some, option_map};
ghost use Rattle.interleaving.specs.Stored.{run_from};
ghost use Rattle.interleaving.specs.Counters.{counters, store_of, turn_of, turns_as, Went};

/// A hart: how many steps it has taken, and what it loaded last.
#[derive(Clone, Copy, PartialEq, Eq)]
pub struct Counter {
    pub count: u64,
    pub value: u64,
}

/// What a hart does in a step: it loads what the page holds, or stores its new count there.
#[derive(Clone, Copy, PartialEq, Eq)]
pub enum Act {
    Load(usize),
    Store(usize),
}

/// The hart that goes, and what it does.
#[derive(Clone, Copy, PartialEq, Eq)]
pub struct Turn {
    pub hart: usize,
    pub act: Act,
}

/// The harts and the pages.
#[derive(Drop, PartialEq)]
pub struct Counters {
    pub harts: Vec<Counter>,
    pub pages: Vec<u64>,
}

impl Counters {
    /// The machine after these turns; none where one is of a hart that is not there, or whose count is full.
    pub fn run(mut self, turns: &[Turn]) -> Option<Counters>
        ensures outcome { option_map store_of result ≡ run_from counters (Some (store_of self)) (turns_as turns.now) }
    {
        for turn in turns {
            if !self.step(*turn) {
                return None;
            }
        }
        Some(self)
    }

    fn step(&mut self, turn: Turn) -> bool
        ensures went { Went (store_of self.old) (turn_of turn) result (store_of self.new) }
    {
        let Some(&hart) = self.harts.get(turn.hart) else {
            return false;
        };
        if hart.count == u64::MAX {
            return false;
        }
        let count = hart.count + 1;
        match turn.act {
            Act::Load(page) => {
                let value = self.pages.get(page).copied().unwrap_or(hart.value);
                self.harts[turn.hart] = Counter { count, value };
            }
            Act::Store(page) => {
                self.harts[turn.hart] = Counter {
                    count,
                    value: hart.value,
                };
                if page < self.pages.len() {
                    self.pages[page] = count;
                }
            }
        }
        true
    }
}
