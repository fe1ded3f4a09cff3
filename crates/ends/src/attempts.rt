//! A path that is opened again whenever whoever is at its other end leaves, and what comes of it where that fails.

ghost use Rattle.std.specs.Prelude.{◌≡◌, false, true};

use crate::faults::{Fault, tell};
use crate::host::Host;
use std::thread;
use std::time::Duration;

/// How many milliseconds go by before a path is tried once more, and at the most, where it goes on failing.
const SHORTEST: u64 = 100;

const LONGEST: u64 = 1000;

/// How it went with a path so far.
#[derive(Drop)]
pub struct Attempts {
    /// Whether it was a FIFO when it was opened last, whose other end may come again.
    pub comes_again: bool,
    /// Whether it was told that it fails, since it went well last.
    is_told: bool,
    /// How many milliseconds go by before the next try.
    pause: u64,
}

impl Attempts {
    /// It was not opened yet.
    pub fn new() -> Attempts
        ensures { result.comes_again ≡ false }
    {
        Attempts {
            comes_again: false,
            is_told: false,
            pause: SHORTEST,
        }
    }

    /// Notes that it was opened, and whether its other end may come again.
    pub fn open(&mut self, comes_again: bool)
        ensures { self.new ≡ record self.old { comes_again = comes_again } }
    {
        self.comes_again = comes_again;
    }

    /// Notes that it was read, or written.
    pub fn go_well(&mut self)
        ensures { self.new.comes_again ≡ self.old.comes_again }
    {
        self.is_told = false;
        self.pause = SHORTEST;
    }

    /// Hears that it failed. Whether the process is to end by that: a FIFO that was open is tried again, a tenth of a second to a second later. That it
    /// fails is told once, until it goes well.
    pub fn fail<H: Host>(&mut self, rt: &H, fault: &Fault, name: &str) -> bool
        ensures ends { self.old.comes_again ≡ false → result ≡ true }
        ensures goes_on { self.old.comes_again ≡ true → result ≡ false }
    {
        if !self.comes_again {
            return true;
        }
        if !self.is_told {
            tell(rt, fault, name);
        }
        self.is_told = true;
        let _slept = thread::sleep(rt, Duration::from_millis(self.pause));
        self.pause = self.pause.saturating_mul(2).min(LONGEST);
        false
    }
}
