//! Primaries whose harts have limits of their own, at one go and by single steps.

ghost use Rattle.std.specs.Prelude.{◌≡◌, ◌<◌, length, IfSome};
ghost use Rattle.lease_rounds.specs.Steps.{AreWithin};
ghost use Rattle.lease_rounds.specs.Running.{IsIdle};

use crate::guests::ADDS;
use crate::starts::harts_of;
use fixtures::{HALTS, RING_EACH_OTHER, TWO_LOOPS, image_of};
use ft_types::{Count, Counts, Hart, LEASE_STEPS};
use guest_image::{Image, Machine};
use lease_rounds::{run_plain, take_step};
use page_book::{Book, BookFault, Recording};
use std::alloc::Global;
use std::test::Fail;

/// A book of the image's primary.
fn begin(alloc: Global, image: &Image, limits: &[Count]) -> Option<Book<Recording>>
    ensures { IfSome result (λ b. IsIdle b) }
{
    let limits = Counts::from_slice(limits)?;
    let start = Machine::boot(alloc, image).ok()?;
    if start.harts() != limits.harts() {
        return None;
    }
    Book::<Recording>::begin(alloc, start, limits).ok()
}

fn ran(alloc: Global, image: &Image, limits: &[Count]) -> Option<Book<Recording>> {
    run_plain(alloc, begin(alloc, image, limits)?, LEASE_STEPS).ok()
}

/// Whether a book has these counts after so many leases.
fn stands_at(book: &Book<Recording>, counts: &[Count], leases: usize) -> bool {
    book.counts().as_slice() == counts && book.journal().len() == leases
}

/// A guest, the limits of its harts, and what counts they come to by how many leases.
type Run = (&'static [u8], &'static [Count], &'static [Count], usize);

static RUNS: [Run; 6] = [
    (HALTS, &[3], &[3], 1),
    (TWO_LOOPS, &[5, 0], &[5, 0], 1),
    (TWO_LOOPS, &[3000, 1024], &[3000, 1024], 4),
    (RING_EACH_OTHER, &[100, 7], &[100, 7], 4),
    // Two leases each: 1,024 steps, and what is left.
    (ADDS, &[5000; 4], &[1805; 4], 8),
    (ADDS, &[1500, 100, 2000, 1024], &[1500, 100, 1805, 1024], 6),
];

/// Whether the image's primary runs so, where memory is not refused.
fn runs_once(alloc: Global, image: &Image, (_, limits, counts, leases): Run) -> Option<bool> {
    let book = ran(alloc, image, limits)?;
    Some(stands_at(&book, counts, leases))
}

/// Whether a primary runs so. Where memory is refused it runs anew.
fn runs_so(alloc: Global, run: Run) -> Result<bool, Fail> {
    let image = image_of(alloc, run.0)?;
    let runs = match runs_once(alloc, &image, run) {
        None => runs_once(alloc, &image, run),
        runs => runs,
    };
    Ok(runs == Some(true))
}

#[test]
fn each_hart_comes_to_its_limit(rt: HostRuntime) -> Result<(), Fail> {
    let mut right = true;
    for run in &RUNS {
        right = right && runs_so(rt.alloc(), *run)?;
    }
    assert!(rt; right);
    Ok(())
}

/// What a step of the hart comes to. What memory is refused once is asked for once more.
fn step(alloc: Global, book: &mut Book<Recording>, hart: Hart) -> Result<(), BookFault>
    requires hart { hart < length book.old.machine.harts }
    requires idle { IsIdle book.old }
    requires within { AreWithin book.old }
    ensures idle { IsIdle book.new }
{
    match take_step(alloc, book, hart) {
        Err(BookFault::Memory) => take_step(alloc, book, hart),
        told => told,
    }
}

/// Steps of these harts, one after the other: how many tell what is said, 0 or the number of a fault.
fn steps_of(alloc: Global, book: &mut Book<Recording>, steps: &[(u8, u8)]) -> usize
    requires idle { IsIdle book.old }
{
    let mut right = 0usize;
    for (number, told) in steps {
        if *number >= harts_of(book) || !book.counts().within(book.limits()) {
            return right;
        }
        let fault = match step(alloc, book, Hart::new(*number)) {
            Ok(()) => 0,
            Err(fault) => fault.number(),
        };
        if fault == *told {
            right = right.saturating_add(1);
        }
    }
    right
}

/// A guest, the limits of its harts, steps with what they tell, and what counts they come to by how many leases.
type Steps = (
    &'static [u8],
    &'static [Count],
    &'static [(u8, u8)],
    &'static [Count],
    usize,
);

static STEPS: [Steps; 3] = [
    (
        HALTS,
        &[100],
        &[(0, 0), (0, 0), (0, 0), (0, 0), (0, 2)],
        &[4],
        4,
    ),
    (
        HALTS,
        &[3],
        &[(0, 0), (0, 0), (0, 0), (0, 4), (0, 4)],
        &[3],
        3,
    ),
    (
        TWO_LOOPS,
        &[2, 1],
        &[(0, 0), (1, 0), (1, 4), (0, 0), (0, 4)],
        &[2, 1],
        3,
    ),
];

/// Whether the steps of the image's primary tell so, and leave its limits, where memory is not refused.
fn steps_once(
    alloc: Global,
    image: &Image,
    (_, limits, steps, counts, leases): Steps,
) -> Option<bool> {
    let mut book = begin(alloc, image, limits)?;
    let right = steps_of(alloc, &mut book, steps);
    let stands = stands_at(&book, counts, leases) && book.limits().as_slice() == limits;
    Some(right == steps.len() && stands)
}

/// Whether a primary's steps do. Where memory is refused it begins anew.
fn steps_so(alloc: Global, steps: Steps) -> Result<bool, Fail> {
    let image = image_of(alloc, steps.0)?;
    let right = match steps_once(alloc, &image, steps) {
        None => steps_once(alloc, &image, steps),
        right => right,
    };
    Ok(right == Some(true))
}

#[test]
fn one_step_at_a_time(rt: HostRuntime) -> Result<(), Fail> {
    let mut right = true;
    for steps in &STEPS {
        right = right && steps_so(rt.alloc(), *steps)?;
    }
    assert!(rt; right);
    Ok(())
}
