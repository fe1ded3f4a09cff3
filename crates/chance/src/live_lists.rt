//! Ten thousand lists that fall by chance to the processes of a pair: keepers that crash at any byte and come back, logs that are handed over between two of
//! their acts, primaries of several terms at once, lines that come late, again or never. What was told is kept, behind each event.

use crate::live_chance::LiveList;
use crate::live_tally::{
    ASKED, CRASHES, CUT_SHORT, GRANTS, HANDED, HEARD, LATE_TOLD, LISTS, LOGGED, LiveTally, PRINTED,
    REFUSED_GRANTS, RENEWED, ROUNDS, SAID, TAKEN, TOLD,
};
use fixtures::{Dice, image_of};
use ft_types::Memory;
use guest_image::Image;
use std::alloc::Global;
use std::test::Fail;

/// How many events a list has.
const EVENTS: u64 = 60;

/// How many lists there are.
const MANY: u64 = 10_000;

/// It goes round until INSEQ has changed, clears the word's interrupt, reads the word, and puts it out.
static SAYS_ALL: &[u8] =
    b"harts 1\npages 1\nf00000b7\n00000293\n00001337\n00135313\n0040a103\nfe510ee3\n0060a623\n0000a183\n00010293\n0030a423\nfe9ff06f\n";

/// What at least happens.
static LEAST: &[(usize, u64)] = &[
    (LISTS, MANY),
    (ROUNDS, 90_000),
    (TAKEN, 100_000),
    (LOGGED, 90_000),
    (CUT_SHORT, 50_000),
    (SAID, 60_000),
    (HANDED, 6_000),
    (CRASHES, 14_000),
    (ASKED, 40_000),
    (GRANTS, 14_000),
    (REFUSED_GRANTS, 8_000),
    (TOLD, 6_000),
    (LATE_TOLD, 100),
    (HEARD, 22_000),
    (PRINTED, 5_000),
    (RENEWED, 20),
];

/// Whether the promises are kept behind each event of the list. Where memory is refused to one, nothing or a part of it happened, and the list goes on.
fn keeps_on(alloc: Global, list: &mut LiveList) -> bool {
    for _ in 0..EVENTS {
        let _done = list.goes_on(alloc);
        if !list.live.keeps_promises() {
            return false;
        }
    }
    let _done = list.ends(alloc);
    list.live.world.promises();
    list.live.keeps_promises()
}

/// Whether they are kept in the list of this number, of which what happened is added.
fn keeps_in(
    alloc: Global,
    image: &Image,
    number: u64,
    tally: &mut LiveTally,
) -> Result<bool, Memory> {
    let seed = number.wrapping_mul(0x9e37_79b9_7f4a_7c15) | 1;
    let mut dice = Dice::new(seed);
    let keepers = dice.roll() % 5 + 1;
    let need = dice.roll() % keepers + 1;
    let mut list = LiveList::new(alloc, image, seed, keepers, need)?;
    let _live = list.live.begins(alloc);
    let _joined = list.joins(alloc);
    let kept = keeps_on(alloc, &mut list);
    tally.add_list(&list.tally);
    Ok(kept)
}

/// The same, once more where there was no memory for keepers with nothing.
fn keeps_in_again(
    alloc: Global,
    image: &Image,
    number: u64,
    tally: &mut LiveTally,
) -> Result<bool, Memory> {
    match keeps_in(alloc, image, number, tally) {
        Err(Memory) => keeps_in(alloc, image, number, tally),
        kept => kept,
    }
}

/// The number of the first list in which a promise is broken. What happened in all is added.
fn first_broken(alloc: Global, tally: &mut LiveTally) -> Result<Option<u64>, Fail> {
    let image = image_of(alloc, SAYS_ALL)?;
    for number in 0..MANY {
        if !keeps_in_again(alloc, &image, number, tally)? {
            return Ok(Some(number));
        }
    }
    Ok(None)
}

#[test]
fn processes_keep_what_was_told(rt: HostRuntime) -> Result<(), Fail> {
    let mut tally = LiveTally::new();
    assert_eq!(rt; first_broken(rt.alloc(), &mut tally)?, None);
    assert!(rt; tally.reaches(LEAST));
    Ok(())
}
