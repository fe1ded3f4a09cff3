//! How the threads of harts that wait are called.

use ft_types::{HART_LIMIT, HART_ROW, Hart, HartSet};
use std::sync::atomic::{AtomicBool, Ordering};
use std::sync::{Condvar, Mutex, Wait};
use std::{array, hint, thread};

/// How often a thread looks whether it was called before it lets others run: being woken takes longer than a lease.
const LOOKS: u32 = 50;

/// How often it lets others run before it sleeps.
const YIELDS: u32 = 100;

/// The call of one thread.
#[derive(Drop)]
pub(crate) struct Call {
    is_made: AtomicBool,
    /// Held by who makes the call and by who is about to sleep, so that no call comes between a last look and the sleep.
    door: Mutex<()>,
    sleeper: Condvar,
}

impl Call {
    /// Not made.
    fn new() -> Call {
        Call {
            is_made: AtomicBool::new(false),
            door: Mutex::new(()),
            sleeper: Condvar::new(),
        }
    }

    /// Calls the thread that waits or is about to.
    fn make<R: Wait>(&self, rt: &R) {
        self.is_made.store(true, Ordering::SeqCst);
        drop(self.door.lock(rt));
        self.sleeper.notify_one();
    }

    /// Whether it was made, which is so once.
    fn is_heard(&self) -> bool {
        self.is_made.load(Ordering::SeqCst) && self.is_made.swap(false, Ordering::SeqCst)
    }

    /// Looks for the call for a while.
    fn comes_soon(&self) -> bool {
        for _look in 0..LOOKS {
            if self.is_heard() {
                return true;
            }
            hint::spin_loop();
        }
        for _look in 0..YIELDS {
            if self.is_heard() {
                return true;
            }
            thread::yield_now();
        }
        false
    }

    /// Returns once it was made.
    fn wait<R: Wait>(&self, rt: &R) {
        if self.comes_soon() {
            return;
        }
        let mut closed = self.door.lock(rt);
        for _ in rt.forever() {
            if self.is_heard() {
                return;
            }
            closed = self.sleeper.wait(rt, closed);
        }
    }
}

/// The calls of the threads of all harts.
#[derive(Drop)]
pub(crate) struct Calls {
    each: [Call; HART_ROW],
    /// For which harts' leases others wait.
    wanted: [AtomicBool; HART_ROW],
}

impl Calls {
    /// None is made.
    pub(crate) fn new() -> Calls {
        Calls {
            each: array::from_fn(|_| Call::new()),
            wanted: array::from_fn(|_| AtomicBool::new(false)),
        }
    }

    /// Others wait for the leases of these harts.
    pub(crate) fn want(&self, harts: HartSet) {
        if harts.is_empty() {
            return;
        }
        for number in 0..HART_LIMIT {
            let hart = Hart::new(number);
            if harts.contains(hart) {
                self.wanted[hart.index()].store(true, Ordering::SeqCst);
            }
        }
    }

    /// Whether others wait for the hart's lease.
    pub(crate) fn is_wanted(&self, hart: Hart) -> bool {
        self.wanted[hart.index()].load(Ordering::SeqCst)
    }

    /// The hart's lease comes back.
    pub(crate) fn come_back(&self, hart: Hart) {
        if self.is_wanted(hart) {
            self.wanted[hart.index()].store(false, Ordering::SeqCst);
        }
    }

    /// Calls the threads of these harts, each of which waits or is about to.
    pub(crate) fn make<R: Wait>(&self, rt: &R, harts: HartSet) {
        if harts.is_empty() {
            return;
        }
        for number in 0..HART_LIMIT {
            let hart = Hart::new(number);
            if harts.contains(hart) {
                self.each[hart.index()].make(rt);
            }
        }
    }

    /// Waits until the hart's thread is called.
    pub(crate) fn wait<R: Wait>(&self, rt: &R, hart: Hart) {
        self.each[hart.index()].wait(rt);
    }
}
