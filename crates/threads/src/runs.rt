//! What primaries do, and what their logs lead to. Each call gives up where memory is refused.

use closed_cut::position;
use ft_types::{HartSet, LEASE_STEPS, Memory};
use guest_image::{Image, Machine};
use hart_replay::{Plan, ReplayFault, plan, replay_plain};
use hart_threads::{Free, Turnstile, replay, run_with};
use lease_rounds::run_plain;
use log_join::Store;
use log_streams::{Budget, begin_run, frames_of};
use page_book::{Book, Recording};
use std::alloc::Global;
use std::sync::Wait;
use std::thread::Threads;

/// What a primary leaves: its machine, and a store of the frames of its log.
pub type Left = (Machine, Store);

/// A store of the frames of the book's log, of which the last is put first.
fn store_of(alloc: Global, image: &Image, book: &Book<Recording>) -> Result<Store, Memory> {
    if book.machine().harts() != image.harts() {
        return Err(Memory);
    }
    let mut frames = frames_of(alloc, image, book)?;
    let mut store = Store::new(alloc, image.guest());
    for _frame in 0..frames.len() {
        if let Some(frame) = frames.pop() {
            let _put = store.put(frame)?;
        }
    }
    Ok(store)
}

/// What the book leaves.
pub fn left_by(alloc: Global, image: &Image, book: Book<Recording>) -> Result<Left, Memory> {
    let stored = store_of(alloc, image, &book);
    let machine = book.into_machine();
    match stored {
        Ok(store) => Ok((machine, store)),
        Err(Memory) => Err(Memory),
    }
}

fn run_on_threads<R: Threads + Wait + Sync, T: Turnstile + Sync>(
    rt: &R,
    alloc: Global,
    image: &Image,
    budget: Budget,
    turnstile: &T,
    here: HartSet,
) -> Result<Book<Recording>, Memory> {
    let book = begin_run(alloc, image, &[], budget)?;
    let limits = book.limits();
    if !book.counts().within(limits) {
        let _machine = book.into_machine();
        return Err(Memory);
    }
    match run_with(rt, alloc, book, limits, turnstile, here) {
        Ok(book) => Ok(book),
        Err(_) => Err(Memory),
    }
}

/// What a primary of the image leaves that goes on to this budget of each hart on threads, these harts on none.
pub fn on_threads<R: Threads + Wait + Sync, T: Turnstile + Sync>(
    rt: &R,
    alloc: Global,
    image: &Image,
    budget: Budget,
    turnstile: &T,
    here: HartSet,
) -> Result<Left, Memory> {
    let book = run_on_threads(rt, alloc, image, budget, turnstile, here)?;
    left_by(alloc, image, book)
}

/// What one leaves whose harts go on in turn.
pub fn in_turn(alloc: Global, image: &Image, budget: Budget) -> Result<Left, Memory> {
    match run_plain(alloc, begin_run(alloc, image, &[], budget)?, LEASE_STEPS) {
        Ok(book) => left_by(alloc, image, book),
        Err(_) => Err(Memory),
    }
}

/// The plan of the store.
pub fn planned(alloc: Global, store: &Store) -> Result<Plan, Memory> {
    let reached = position(alloc, store)?;
    match plan(alloc, store, &reached) {
        Ok(plan) => Ok(plan),
        Err(_) => Err(Memory),
    }
}

/// Whether a replay came to this machine. Only for want of memory it may be made once more.
pub fn came_to(replayed: Result<Machine, ReplayFault>, machine: &Machine) -> Result<bool, Memory> {
    match replayed {
        Ok(found) => Ok(found.same(machine)),
        Err(ReplayFault::Memory) => Err(Memory),
        Err(_) => Ok(false),
    }
}

/// Whether the store leads to this machine in turn.
pub fn leads_in_turn(
    alloc: Global,
    image: &Image,
    store: &Store,
    machine: &Machine,
) -> Result<bool, Memory> {
    let plan = planned(alloc, store)?;
    came_to(replay_plain(alloc, image, &plan), machine)
}

/// Whether it does on threads, with this turnstile.
pub fn leads_on_threads<R: Threads + Wait + Sync, T: Turnstile + Sync>(
    rt: &R,
    alloc: Global,
    image: &Image,
    store: &Store,
    machine: &Machine,
    turnstile: &T,
) -> Result<bool, Memory> {
    let plan = planned(alloc, store)?;
    came_to(replay(rt, alloc, image, &plan, turnstile), machine)
}

/// Whether what is left leads to its machine on threads and in turn.
pub fn leads<R: Threads + Wait + Sync>(
    rt: &R,
    alloc: Global,
    image: &Image,
    left: &Left,
) -> Result<bool, Memory> {
    let (machine, store) = left;
    if !leads_on_threads(rt, alloc, image, store, machine, &Free)? {
        return Ok(false);
    }
    leads_in_turn(alloc, image, store, machine)
}
