//! Overseers that let harts go a few steps at a time, and some of them no further in the end.

use crate::runs::{leads, left_by};
use fixtures::image_of;
use ft_types::{Counts, HART_ROW, Hart, Memory};
use guest_image::Image;
use hart_threads::{Grant, Overseer, run_seen};
use log_streams::{Budget, begin_run};
use page_book::{Book, Recording};
use std::alloc::Global;
use std::sync::Wait;
use std::test::Fail;
use std::thread::Threads;

/// One hart counts from 1,500 down to 1, puts each number out, and halts after 4,503 steps.
const ALONE: &[u8] =
    b"harts 1\npages 1\nf00000b7\n5dc00113\n0020a423\nfff10113\nfe011ce3\n0000aa23\n";

/// Four harts that do so, and wait for none.
const APART: &[u8] =
    b"harts 4\npages 1\nf00000b7\n5dc00113\n0020a423\nfff10113\nfe011ce3\n0000aa23\n";

/// Four harts add 1 to one word 600 times each, and halt after 1,805 steps.
const ADDS: &[u8] =
    b"harts 4\npages 2\n800010b7\n25800113\n00100193\n0030a02f\nfff10113\nfe011ce3\nf0000237\n00022a23\n";

/// How many steps further a hart has this overseer look again. It may go twice as far.
const STRIDE: u64 = 100;

/// Lets harts go on at so many looks.
#[derive(Drop)]
struct Strides {
    last: u64,
    looks: u64,
    /// How often what he took was handed on.
    handed: u64,
    /// Whether each hart stayed where he had let it go.
    is_obeyed: bool,
    granted: Option<Counts>,
}

impl Strides {
    fn new(last: u64) -> Strides {
        Strides {
            last,
            looks: 0,
            handed: 0,
            is_obeyed: true,
            granted: None,
        }
    }

    /// Whether no hart is further than he has let it.
    fn has_bounds(&self, counts: Counts) -> bool {
        match self.granted {
            Some(granted) => granted.harts() == counts.harts() && counts.within(granted),
            None => true,
        }
    }
}

/// Each count, one stride further.
fn further(counts: Counts) -> Option<Counts> {
    let mut further = [0u64; HART_ROW];
    for number in 0..counts.harts() {
        let hart = Hart::new(number);
        further[hart.index()] = counts.get(hart).saturating_add(STRIDE);
    }
    Counts::from_slice(&further[..usize::from(counts.harts())])
}

impl Overseer<Recording> for Strides {
    fn look<R: Wait>(
        &mut self,
        _rt: &R,
        _alloc: Global,
        book: &mut Book<Recording>,
    ) -> Option<Grant> {
        let counts = book.counts();
        self.looks = self.looks.saturating_add(1);
        self.is_obeyed = self.is_obeyed && self.has_bounds(counts);
        if self.looks > self.last {
            return None;
        }
        let calls = further(counts)?;
        let ends = further(calls)?;
        self.granted = Some(ends);
        Some(Grant { calls, ends })
    }

    fn hand_on<R: Wait>(&mut self, _rt: &R, _alloc: Global) {
        self.handed = self.handed.saturating_add(1);
    }
}

/// What a primary of the image leaves, under an overseer that lets harts go on at so many looks.
fn run_under<R: Threads + Wait + Sync>(
    rt: &R,
    alloc: Global,
    image: &Image,
    last: u64,
) -> Result<(Book<Recording>, Strides), Memory> {
    let book = begin_run(alloc, image, &[], Budget::new(100_000))?;
    let limits = book.limits();
    if !book.counts().within(limits) {
        let _machine = book.into_machine();
        return Err(Memory);
    }
    match run_seen(rt, alloc, book, limits, Strides::new(last)) {
        Ok(end) => Ok(end),
        Err(_) => Err(Memory),
    }
}

/// Whether each hart of a book has taken so many steps.
fn have_taken(book: &Book<Recording>, steps: u64) -> bool {
    let counts = book.counts();
    for count in counts.as_slice() {
        if *count != steps {
            return false;
        }
    }
    true
}

/// Whether each hart takes so many steps under such an overseer, stays where he lets it go, and their log leads to their machine; whether what he
/// took was handed on each time; and how often he looked.
fn looks<R: Threads + Wait + Sync>(
    rt: &R,
    alloc: Global,
    image: &Image,
    steps: u64,
    last: u64,
) -> Result<(bool, u64), Memory> {
    let (book, seen) = run_under(rt, alloc, image, last)?;
    let are_all = have_taken(&book, steps);
    let left = left_by(alloc, image, book)?;
    let is_right = are_all && seen.is_obeyed && seen.handed == seen.looks;
    Ok((is_right && leads(rt, alloc, image, &left)?, seen.looks))
}

/// A guest, how many steps each of its harts takes, at how many looks they are let go on, and how many looks there are at the least and at the most:
/// one for each 200 steps of a hart, or, where they go on without him, one more than these.
static RUNS: [(&[u8], u64, u64, u64, u64); 5] = [
    (ALONE, 4503, u64::MAX, 22, u64::MAX),
    (APART, 4503, u64::MAX, 22, u64::MAX),
    (ADDS, 1805, u64::MAX, 9, u64::MAX),
    (ALONE, 4503, 3, 4, 4),
    (APART, 4503, 3, 4, 4),
];

#[test]
fn overseers_look_as_harts_go(rt: HostRuntime) -> Result<(), Fail> {
    let mut right = true;
    for (file, steps, last, least, most) in &RUNS {
        let image = image_of(rt.alloc(), *file)?;
        let (is_right, looks) = looks(&rt, rt.alloc(), &image, *steps, *last)?;
        right = right && is_right && *least <= looks && looks <= *most;
    }
    assert!(rt; right);
    Ok(())
}
