//! Ten thousand lists of 60 events that fall by chance, beside a plain world.

use crate::beside::Beside;
use crate::chance::{Chance, guest};
use crate::outcome::Outcome;
use crate::tally::{
    ACKNOWLEDGED, AGAIN, DELIVERIES, GRANTS, LISTS, REFUSED, RELEASED, SPREAD, STEPS, Tally,
};
use fixtures::image_of;
use ft_types::Memory;
use guest_image::Image;
use std::alloc::Global;
use std::test::Fail;

/// How many events a list has.
const EVENTS: u64 = 60;

/// How many lists there are.
const MANY: u64 = 10_000;

/// What at least happens.
static LEAST: &[(usize, u64)] = &[
    (LISTS, MANY),
    (STEPS, 100_000),
    (DELIVERIES, 100_000),
    (ACKNOWLEDGED, 100_000),
    (GRANTS, 8_000),
    (REFUSED, 100_000),
    (RELEASED, 6_800),
    (AGAIN, 240),
    (SPREAD, 200),
];

/// Applies a list of events to two worlds. Says whether they agree at each, and have the same machines after each tenth.
fn agree_on_list(alloc: Global, chance: &mut Chance, worlds: &mut Beside) -> Result<bool, Memory> {
    for event in 1..=EVENTS {
        let act = chance.next(&worlds.plain);
        let outcome = worlds.answer(alloc, act)?;
        if outcome == Outcome::Unlike || event % 10 == 0 && !worlds.have_same_machines() {
            return Ok(false);
        }
    }
    Ok(true)
}

/// The same, and whether they sent the same frames then.
fn agree_to_the_end(
    alloc: Global,
    image: &Image,
    chance: &mut Chance,
    worlds: &mut Beside,
) -> Result<bool, Memory> {
    Ok(agree_on_list(alloc, chance, worlds)? && worlds.sent_the_same(alloc, image)?)
}

/// Two worlds of a few keepers, to which nothing happened.
fn begin(alloc: Global, image: &Image, chance: &mut Chance) -> Result<Beside, Memory> {
    let keepers = chance.number(5).min(chance.number(5));
    let need = chance.number(keepers);
    Beside::new(alloc, image, keepers, need)
}

/// Applies the list of this number to two worlds. Says whether they agree, and adds what happened.
fn agree_by(alloc: Global, image: &Image, number: u64, tally: &mut Tally) -> Result<bool, Memory> {
    let mut chance = Chance::new(number.wrapping_mul(0x9e37_79b9_7f4a_7c15) | 1);
    let mut worlds = begin(alloc, image, &mut chance)?;
    let agreed = agree_to_the_end(alloc, image, &mut chance, &mut worlds);
    if agreed == Ok(true) {
        tally.add_list(&worlds.tally, worlds.subject.released());
    }
    agreed
}

/// The same, once more where the plain world was refused memory.
fn agree_in(alloc: Global, number: u64, tally: &mut Tally) -> Result<bool, Fail> {
    let image = image_of(alloc, guest(number))?;
    match agree_by(alloc, &image, number, tally) {
        Err(Memory) => Ok(agree_by(alloc, &image, number, tally)?),
        agreed => Ok(agreed?),
    }
}

/// The number of the first list in which the worlds differ. What happened in those before it is added.
fn first_difference(alloc: Global, tally: &mut Tally) -> Result<Option<u64>, Fail> {
    for number in 0..MANY {
        if !agree_in(alloc, number, tally)? {
            return Ok(Some(number));
        }
    }
    Ok(None)
}

#[test]
fn worlds_agree_on_lists_by_chance(rt: HostRuntime) -> Result<(), Fail> {
    let mut tally = Tally::new();
    assert_eq!(rt; first_difference(rt.alloc(), &mut tally)?, None);
    assert!(rt; tally.reaches(LEAST));
    Ok(())
}
