//! A primary that was only paused, and comes back once a later term was granted: what it knows to be held goes out, and nothing that it does then.

use crate::acts::Act;
use crate::live::Live;
use crate::outcome::Outcome;
use fixtures::image_of;
use ft_types::Memory;
use guest_image::Image;
use std::alloc::Global;
use std::test::Fail;
use wire::Answer;

/// lui x1, f0000; lui x6, 1; srli x6, x6, 1; then again and again sw x6, 12(x1), which clears the word's interrupt; lw x2, 0(x1), the input word;
/// sw x2, 8(x1), an output; and back.
const SAYS_EACH_WORD: &[u8] =
    b"harts 1\npages 1\nf00000b7\n00001337\n00135313\n0060a623\n0000a103\n0020a423\nff5ff06f\n";

/// How many steps an act goes on: a word is said behind three.
const STEPS: u64 = 2;

/// What happens to three keepers, of whom two have to hold what goes out, and what comes of it.
static EVENTS: [(Act, Outcome); 42] = [
    // The first primary says 7, and two keepers acknowledge that. It is paused before its gate looks.
    (Act::Word(1, 0, 7), Outcome::Done),
    (Act::Step(1, 0), Outcome::Done),
    (Act::Step(1, 0), Outcome::Done),
    (Act::Step(1, 0), Outcome::Done),
    (Act::Seal(1), Outcome::Done),
    (Act::Deliver(0, 0), Outcome::Done),
    (Act::Deliver(0, 1), Outcome::Done),
    (Act::Save(0), Outcome::Done),
    (Act::Ack(0), Outcome::Done),
    (Act::Deliver(1, 0), Outcome::Done),
    (Act::Deliver(1, 1), Outcome::Done),
    (Act::Save(1), Outcome::Done),
    (Act::Ack(1), Outcome::Done),
    // A second one goes live from what keepers 1 and 2 have.
    (Act::Grant(2, &[1, 2]), Outcome::Done),
    // The first comes back. 7 goes out: the second has it.
    (Act::Release(1), Outcome::Done),
    // It says 8. Keeper 0 acknowledges that, keeper 1 is fenced, and so 8 does not go out.
    (Act::Word(1, 0, 8), Outcome::Done),
    (Act::Step(1, 0), Outcome::Done),
    (Act::Step(1, 0), Outcome::Done),
    (Act::Step(1, 0), Outcome::Done),
    (Act::Seal(1), Outcome::Done),
    (Act::Deliver(0, 3), Outcome::Done),
    (Act::Save(0), Outcome::Done),
    (Act::Ack(0), Outcome::Done),
    (Act::Deliver(1, 3), Outcome::Done),
    (Act::Save(1), Outcome::Done),
    (Act::Ack(1), Outcome::Fenced),
    (Act::Release(1), Outcome::NothingGoesOut),
    // The second says 9.
    (Act::Word(2, 0, 9), Outcome::Done),
    (Act::Step(2, 0), Outcome::Done),
    (Act::Step(2, 0), Outcome::Done),
    (Act::Step(2, 0), Outcome::Done),
    (Act::Seal(2), Outcome::Done),
    (Act::Deliver(1, 2), Outcome::Done),
    (Act::Deliver(1, 4), Outcome::Done),
    (Act::Save(1), Outcome::Done),
    (Act::Ack(1), Outcome::Done),
    (Act::Join(2, 1), Outcome::Done),
    (Act::Save(2), Outcome::Done),
    (Act::Ack(2), Outcome::Done),
    (Act::Release(2), Outcome::Done),
    (Act::Ack(0), Outcome::Done),
    (Act::Release(1), Outcome::NothingGoesOut),
];

/// What was told: the term, the number, the step, and the word.
const OUT: [(u32, u64, u64, u32); 3] = [(1, 0, 5, 7), (2, 0, 5, 7), (2, 1, 9, 9)];

/// The number of the first event of which something else comes, or how many there are.
fn done(alloc: Global, live: &mut Live) -> Result<usize, Memory> {
    let mut number = 0usize;
    for (act, outcome) in &EVENTS {
        if live.act(alloc, *act)? != *outcome {
            return Ok(number);
        }
        number = number.saturating_add(1);
    }
    Ok(number)
}

/// Whether this was told.
fn is_told(told: &[Answer]) -> bool {
    let mut place = 0usize;
    for one in told {
        let Some((term, number, step, word)) = OUT.get(place) else {
            return false;
        };
        let output = &one.output;
        let of_primary = one.term == *term && output.number == *number;
        if !of_primary || output.step != *step || output.word != *word {
            return false;
        }
        place = place.saturating_add(1);
    }
    place == OUT.len()
}

/// How many events went as they should, and whether what should be was told.
fn told(alloc: Global, image: &Image) -> Result<(usize, bool), Memory> {
    let mut live = Live::new(alloc, image, 3, 2, STEPS)?;
    let _begun = live.begins(alloc)?;
    let done = done(alloc, &mut live)?;
    Ok((done, live.keeps_promises() && is_told(live.world.told())))
}

/// The same, once more where memory was refused.
fn told_again(alloc: Global) -> Result<(usize, bool), Fail> {
    let image = image_of(alloc, SAYS_EACH_WORD)?;
    match told(alloc, &image) {
        Err(Memory) => Ok(told(alloc, &image)?),
        told => Ok(told?),
    }
}

#[test]
fn a_paused_primary_comes_back(rt: HostRuntime) -> Result<(), Fail> {
    assert_eq!(rt;
        told_again(rt.alloc())?,
        (42, true),
        "events, and what went out"
    );
    Ok(())
}
