//! A replay that refuses another guest's plan; and primaries and replays to which memory is refused once. What is seen by hand, where
//! each allocation is refused in turn, is that who is asked again comes to the machine that ran.

use crate::followers::is_not_followed;
use crate::runs::{in_turn, leads, on_threads, planned};
use fixtures::{BOTH_STORE, TWO_LOOPS, image_of};
use ft_types::{Guest, Hart, HartSet, Memory};
use guest_image::{Image, Machine};
use hart_replay::{ReplayFault, replay_plain};
use hart_threads::{Free, replay};
use log_join::Store;
use log_streams::Budget;
use std::alloc::Global;
use std::sync::Wait;
use std::test::Fail;
use std::thread::Threads;

/// Four harts add 1 to one word three times each, and halt.
static ADDS_FEW: &[u8] =
    b"harts 4\npages 2\n800010b7\n00300113\n00100193\n0030a02f\nfff10113\nfe011ce3\nf0000237\n00022a23\n";

/// Whether each of four harts has halted.
fn have_halted(machine: &Machine) -> bool {
    for number in 0..4u8 {
        if number >= machine.harts() || machine.hart(Hart::new(number)).count() != 14 {
            return false;
        }
    }
    true
}

/// Whether each hart has halted, and the log leads to their machine. A hart whose thread is refused memory is left to who comes
/// after the threads.
fn is_replayed<R: Threads + Wait + Sync>(
    rt: &R,
    alloc: Global,
    image: &Image,
    have_threads: bool,
) -> Result<bool, Memory> {
    let left = if have_threads {
        on_threads(rt, alloc, image, Budget::new(100), &Free, HartSet::new())?
    } else {
        in_turn(alloc, image, Budget::new(100))?
    };
    if !have_halted(&left.0) {
        return Ok(false);
    }
    leads(rt, alloc, image, &left)
}

#[test]
fn refused_memory(rt: HostRuntime) -> Result<(), Fail> {
    let image = image_of(rt.alloc(), ADDS_FEW)?;
    let mut right = true;
    for have_threads in [false, true] {
        let replayed = match is_replayed(&rt, rt.alloc(), &image, have_threads) {
            Err(Memory) => is_replayed(&rt, rt.alloc(), &image, have_threads),
            replayed => replayed,
        };
        right = right && replayed?;
    }
    assert!(rt; right);
    Ok(())
}

/// Whether a replay of another guest's plan is refused so, on threads and in turn, and following its store.
fn is_refused<R: Threads + Wait + Sync>(
    rt: &R,
    alloc: Global,
    image: &Image,
    other: Guest,
) -> Result<bool, Memory> {
    let store = Store::new(alloc, other);
    let plan = planned(alloc, &store)?;
    let on_threads = is_foreign(replay(rt, alloc, image, &plan, &Free));
    let in_turn = is_foreign(replay_plain(alloc, image, &plan));
    Ok(on_threads && in_turn && is_not_followed(alloc, image, &store)?)
}

fn is_foreign(replayed: Result<Machine, ReplayFault>) -> bool {
    match replayed {
        Err(ReplayFault::OtherGuest) => true,
        _ => false,
    }
}

#[test]
fn another_guest_is_not_replayed(rt: HostRuntime) -> Result<(), Fail> {
    let image = image_of(rt.alloc(), TWO_LOOPS)?;
    let other = image_of(rt.alloc(), BOTH_STORE)?.guest();
    assert!(rt; is_refused(&rt, rt.alloc(), &image, other)?);
    Ok(())
}
