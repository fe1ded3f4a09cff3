//! What the keepers of a pair hold, and what the primary's book notes. What goes out the cases of `pairs` show, and the clauses of `run_pair` say that
//! it is all, in order, where none is kept back.

use crate::runs::leads_in_turn;
use command_line::PairOrders;
use fixtures::image_of;
use ft_types::{Count, HART_LIMIT, Hart, Memory};
use guest_image::{Image, Machine};
use log_join::Store;
use log_streams::Budget;
use output_gate::Output;
use page_book::{Book, Recording};
use pair::{Held, PairEnd, WarmEnd, run_pair, run_pair_warm};
use std::alloc::Global;
use std::sync::Wait;
use std::test::Fail;
use std::thread::Threads;

/// No hart of these guests goes so far.
const BUDGET: Count = 100_000_000;

/// Four harts, each of which adds 1 to one word 600 times, and halts.
const ADDS: &[u8] =
    b"harts 4\npages 2\n800010b7\n25800113\n00100193\n0030a02f\nfff10113\nfe011ce3\nf0000237\n00022a23\n";

/// Four harts, each of which puts out the numbers from 1,500 down to 1, one every three steps, and halts: 4,503 steps, all of which are sent at the end.
const COUNTS_DOWN: &[u8] =
    b"harts 4\npages 1\nf00000b7\n5dc00113\n0020a423\nfff10113\nfe011ce3\n0000aa23\n";

/// Four harts, each of which puts out the numbers from 16 down to 1, and halts. Between two of them it counts down: 40,964 steps, more than the eight
/// rounds after which what is new is sent.
const SPEAKS: &[u8] =
    b"harts 4\npages 1\nf00000b7\n01000113\n000051b7\nfff18193\nfe019ee3\n0020a423\nfff10113\nfe0116e3\n0000aa23\n";

/// The same, and two that count eight times and 64 times as far.
static SPEAK: [&[u8]; 3] = [
    SPEAKS,
    b"harts 4\npages 1\nf00000b7\n01000113\n000281b7\nfff18193\nfe019ee3\n0020a423\nfff10113\nfe0116e3\n0000aa23\n",
    b"harts 4\npages 1\nf00000b7\n01000113\n001401b7\nfff18193\nfe019ee3\n0020a423\nfff10113\nfe0116e3\n0000aa23\n",
];

/// The end of a pair of this image.
fn end_of<R: Threads + Wait + Sync>(
    rt: &R,
    alloc: Global,
    image: &Image,
    keepers: u64,
    need: u64,
) -> Result<PairEnd, Memory> {
    let Some(orders) = PairOrders::new(Budget::new(BUDGET), keepers, need) else {
        return Err(Memory);
    };
    Ok(run_pair(rt, alloc, image, &[], &orders)?)
}

/// Whether each of these keepers' stores replays to this machine.
fn all_lead(
    alloc: Global,
    image: &Image,
    stores: &[Held],
    machine: &Machine,
) -> Result<bool, Memory> {
    for store in stores {
        if !leads_in_turn(alloc, image, store.store(), machine)? {
            return Ok(false);
        }
    }
    Ok(true)
}

/// Whether all that these keepers hold does.
fn join_leads(
    alloc: Global,
    image: &Image,
    stores: &[Held],
    machine: &Machine,
) -> Result<bool, Memory> {
    let mut all = Store::new(alloc, image.guest());
    for store in stores {
        if all.join(alloc, store.store()).is_err() {
            return Err(Memory);
        }
    }
    leads_in_turn(alloc, image, &all, machine)
}

/// The step of the hart's output of this number, where it is among these.
fn step_of(released: &[Output], hart: Hart, number: u64) -> Option<u64> {
    for output in released {
        if output.hart == hart && output.number == number {
            return Some(output.step);
        }
    }
    None
}

/// Whether all went out that this note tells of, each at a step that the hart had taken when it was noted.
fn is_true(released: &[Output], hart: Hart, at: u64, numbers: u64) -> bool {
    for number in 0..numbers {
        match step_of(released, hart, number) {
            Some(step) if step < at => {}
            _ => return false,
        }
    }
    true
}

/// How many notes the book has: `None` where one is not true.
fn true_notes(book: &Book<Recording>, released: &[Output]) -> Option<usize> {
    let mut notes = 0usize;
    for number in 0..book.machine().harts().min(HART_LIMIT) {
        let hart = Hart::new(number);
        for (at, numbers) in book.notes().of_hart(hart) {
            if !is_true(released, hart, *at, *numbers) {
                return None;
            }
            notes = notes.saturating_add(1);
        }
    }
    Some(notes)
}

/// What is seen of a pair.
#[derive(Clone, Copy)]
struct Seen {
    /// Whether no output is kept back, all that is noted went out, and the store of each keeper and all joined replay to its machine.
    is_right: bool,
    /// Whether outputs went out before the primary's end, and some of them are noted.
    is_beside: bool,
}

/// What is seen of a pair of this image.
fn see<R: Threads + Wait + Sync>(
    rt: &R,
    alloc: Global,
    image: &Image,
    keepers: u64,
    need: u64,
) -> Result<Seen, Memory> {
    let PairEnd {
        released,
        early,
        kept,
        book,
        stores,
    } = end_of(rt, alloc, image, keepers, need)?;
    let notes = true_notes(&book, &released);
    let machine = book.into_machine();
    let lead = all_lead(alloc, image, &stores, &machine)?;
    let has_all = stores.len() as u64 == keepers;
    let joined = join_leads(alloc, image, &stores, &machine)?;
    Ok(Seen {
        is_right: kept == 0 && notes.is_some() && lead && has_all && joined,
        is_beside: early > 0 && notes.unwrap_or(0) > 0,
    })
}

/// A guest, how many keepers it has, and how many must hold what goes out.
static PAIRS: [(&[u8], u64, u64); 2] = [(ADDS, 3, 2), (COUNTS_DOWN, 5, 3)];

#[test]
fn what_keepers_hold(rt: HostRuntime) -> Result<(), Fail> {
    let mut right = true;
    for (file, keepers, need) in &PAIRS {
        let image = image_of(rt.alloc(), *file)?;
        right = right && see(&rt, rt.alloc(), &image, *keepers, *need)?.is_right;
    }
    assert!(rt; right);
    Ok(())
}

/// A primary goes on beside its keepers and its gate: before its end outputs go out, and it notes them. How its threads go is left to chance, so where it was
/// at its end too early, one that goes further follows.
#[test]
fn what_goes_out_before_the_end(rt: HostRuntime) -> Result<(), Fail> {
    let mut right = true;
    let mut beside = false;
    for file in &SPEAK {
        if !beside {
            let image = image_of(rt.alloc(), *file)?;
            let seen = see(&rt, rt.alloc(), &image, 3, 2)?;
            right = right && seen.is_right;
            beside = seen.is_beside;
        }
    }
    assert!(rt; right);
    assert!(rt; beside);
    Ok(())
}

/// Whether of a pair of this image with a warm keeper the new primary begins with the primary's machine, at its counts, with all of its
/// outputs, and no step was replayed for it.
fn goes_on<R: Threads + Wait + Sync>(
    rt: &R,
    alloc: Global,
    image: &Image,
    keepers: u64,
    need: u64,
) -> Result<bool, Fail> {
    let Some(orders) = PairOrders::new(Budget::new(BUDGET), keepers, need) else {
        return Ok(false);
    };
    let Ok(end) = run_pair_warm(rt, alloc, image, &[], &orders) else {
        return Ok(false);
    };
    let WarmEnd {
        released,
        kept,
        book,
        live,
        steps,
    } = end;
    let is_there = live.opening.base() == book.counts() && live.book.machine().same(book.machine());
    let has_all = kept == 0 && live.outputs.len() == released.len();
    Ok(is_there && has_all && steps == 0 && live.opening.parent() == 1)
}

#[test]
fn who_goes_live_warm(rt: HostRuntime) -> Result<(), Fail> {
    let mut right = true;
    for (file, keepers, need) in &PAIRS {
        let image = image_of(rt.alloc(), *file)?;
        right = right && goes_on(&rt, rt.alloc(), &image, *keepers, *need)?;
    }
    let image = image_of(rt.alloc(), SPEAKS)?;
    right = right && goes_on(&rt, rt.alloc(), &image, 3, 2)?;
    assert!(rt; right);
    Ok(())
}
