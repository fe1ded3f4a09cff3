//! For each rule of fencing a short list of events by which a plain world without it lets out two words of one number. Processes keep the rule: what would
//! lead there comes to something else, and what was told is kept.

use crate::acts::Act;
use crate::fault::PlainFault;
use crate::keeper::Rules;
use crate::live::Live;
use crate::outcome::Outcome;
use crate::plain::PlainWorld;
use fixtures::{SAYS_ITS_WORD, image_of};
use ft_types::Memory;
use guest_image::Image;
use primary::Released;
use std::alloc::Global;
use std::test::Fail;

/// A rule in words, and what is kept without it; a list of events, of which the one at the place is against the rule, and what comes of that one where the
/// rule is kept. The guest says the word that it is offered with its third step. Of two keepers one has to hold what goes out.
type Row = (&'static str, Rules, &'static [Act], usize, Outcome);

/// Both keepers gave term 2 nothing. Keeper 0 acknowledges in term 1 all the same.
const BELOW_THE_FENCE: &[Act] = &[
    Act::Grant(2, &[0, 1]),
    Act::Word(1, 0, 7),
    Act::Step(1, 0),
    Act::Step(1, 0),
    Act::Step(1, 0),
    Act::Seal(1),
    Act::Deliver(0, 0),
    Act::Deliver(0, 2),
    Act::Save(0),
    Act::Ack(0),
    Act::Release(1),
    Act::Word(2, 0, 8),
    Act::Step(2, 0),
    Act::Step(2, 0),
    Act::Step(2, 0),
    Act::Seal(2),
    Act::Deliver(1, 1),
    Act::Deliver(1, 3),
    Act::Save(1),
    Act::Ack(1),
    Act::Release(2),
];

/// The same, once it came back.
const BACK_WITHOUT_A_FENCE: &[Act] = &[
    Act::Grant(2, &[0, 1]),
    Act::Restart(0),
    Act::Word(1, 0, 7),
    Act::Step(1, 0),
    Act::Step(1, 0),
    Act::Step(1, 0),
    Act::Seal(1),
    Act::Deliver(0, 0),
    Act::Deliver(0, 2),
    Act::Save(0),
    Act::Ack(0),
    Act::Release(1),
    Act::Word(2, 0, 8),
    Act::Step(2, 0),
    Act::Step(2, 0),
    Act::Step(2, 0),
    Act::Seal(2),
    Act::Deliver(1, 1),
    Act::Deliver(1, 3),
    Act::Save(1),
    Act::Ack(1),
    Act::Release(2),
];

/// The store of keeper 0 is read for term 2. Then it acknowledges in term 1, and is fenced only when term 2 is granted.
const READ_TOO_EARLY: &[Act] = &[
    Act::Fence(0, 2),
    Act::Word(1, 0, 7),
    Act::Step(1, 0),
    Act::Step(1, 0),
    Act::Step(1, 0),
    Act::Seal(1),
    Act::Deliver(0, 0),
    Act::Deliver(0, 1),
    Act::Save(0),
    Act::Ack(0),
    Act::Release(1),
    Act::Grant(2, &[0, 1]),
    Act::Word(2, 0, 8),
    Act::Step(2, 0),
    Act::Step(2, 0),
    Act::Step(2, 0),
    Act::Seal(2),
    Act::Deliver(1, 2),
    Act::Deliver(1, 3),
    Act::Save(1),
    Act::Ack(1),
    Act::Release(2),
];

/// Keeper 0 acknowledges what it has not written down, and comes back without it.
const NOT_WRITTEN_DOWN: &[Act] = &[
    Act::Word(1, 0, 7),
    Act::Step(1, 0),
    Act::Step(1, 0),
    Act::Step(1, 0),
    Act::Seal(1),
    Act::Deliver(0, 0),
    Act::Deliver(0, 1),
    Act::Ack(0),
    Act::Release(1),
    Act::Restart(0),
    Act::Grant(2, &[0, 1]),
    Act::Word(2, 0, 8),
    Act::Step(2, 0),
    Act::Step(2, 0),
    Act::Step(2, 0),
    Act::Seal(2),
    Act::Deliver(1, 2),
    Act::Deliver(1, 3),
    Act::Save(1),
    Act::Ack(1),
    Act::Release(2),
];

/// Keeper 0 alone holds what went out, and term 2 begins with what keeper 1 has.
const FROM_ONE_TOO_FEW: &[Act] = &[
    Act::Word(1, 0, 7),
    Act::Step(1, 0),
    Act::Step(1, 0),
    Act::Step(1, 0),
    Act::Seal(1),
    Act::Deliver(0, 0),
    Act::Deliver(0, 1),
    Act::Save(0),
    Act::Ack(0),
    Act::Release(1),
    Act::Grant(2, &[1]),
    Act::Word(2, 0, 8),
    Act::Step(2, 0),
    Act::Step(2, 0),
    Act::Step(2, 0),
    Act::Seal(2),
    Act::Deliver(1, 2),
    Act::Deliver(1, 3),
    Act::Save(1),
    Act::Ack(1),
    Act::Release(2),
];

/// Keeper 1 holds what term 2 says, and nobody what term 1 does.
const AT_ANOTHER_GATE: &[Act] = &[
    Act::Grant(2, &[0, 1]),
    Act::Word(1, 0, 7),
    Act::Step(1, 0),
    Act::Step(1, 0),
    Act::Step(1, 0),
    Act::Seal(1),
    Act::Word(2, 0, 8),
    Act::Step(2, 0),
    Act::Step(2, 0),
    Act::Step(2, 0),
    Act::Seal(2),
    Act::Deliver(1, 1),
    Act::Deliver(1, 3),
    Act::Save(1),
    Act::Ack(1),
    Act::Release(2),
    Act::Release(1),
];

static ROWS: [Row; 6] = [
    (
        "a keeper acknowledges nothing of a term below its fence",
        Rules::NoFence,
        BELOW_THE_FENCE,
        9,
        Outcome::Fenced,
    ),
    (
        "a fence outlives a restart",
        Rules::FenceEnds,
        BACK_WITHOUT_A_FENCE,
        10,
        Outcome::Fenced,
    ),
    (
        "a fence is raised before the store is read",
        Rules::FenceBehind,
        READ_TOO_EARLY,
        9,
        Outcome::Fenced,
    ),
    (
        "a keeper acknowledges only what it has written down",
        Rules::Unsaved,
        NOT_WRITTEN_DOWN,
        7,
        Outcome::Done,
    ),
    (
        "one keeper more gives its store than may lack an output",
        Rules::NoQuorum,
        FROM_ONE_TOO_FEW,
        10,
        Outcome::TooFewStores,
    ),
    (
        "a gate counts what was acknowledged in its own term",
        Rules::AnyTerm,
        AT_ANOTHER_GATE,
        16,
        Outcome::NothingGoesOut,
    ),
];

/// Whether another output went out with the hart and the number of this one.
fn is_contradicted(one: &Released, released: &[Released]) -> bool {
    for other in released {
        let (output, another) = (&one.output, &other.output);
        if output.hart == another.hart && output.number == another.number && output != another {
            return true;
        }
    }
    false
}

/// Whether two words of one number went out.
fn are_two_words(released: &[Released]) -> bool {
    for one in released {
        if is_contradicted(one, released) {
            return true;
        }
    }
    false
}

/// Whether a plain world does the event.
fn does(alloc: Global, world: &mut PlainWorld, act: Act) -> Result<bool, Memory> {
    match world.apply(alloc, act) {
        Ok(()) => Ok(true),
        Err(PlainFault::Memory) => Err(Memory),
        Err(_) => Ok(false),
    }
}

/// Whether a plain world does all events.
fn does_all(alloc: Global, world: &mut PlainWorld, acts: &[Act]) -> Result<bool, Memory> {
    for act in acts {
        if !does(alloc, world, *act)? {
            return Ok(false);
        }
    }
    Ok(true)
}

/// Whether one without the rule does so, and lets out two words of one number then.
fn breaks_without(alloc: Global, image: &Image, row: Row) -> Result<bool, Memory> {
    let (_, rules, acts, ..) = row;
    let mut world = PlainWorld::new(alloc, image, rules, 2, 1)?;
    Ok(does_all(alloc, &mut world, acts)? && are_two_words(&world.released))
}

/// What comes of the act at the place, where processes do all that they can of the acts.
fn comes_of(
    alloc: Global,
    live: &mut Live,
    acts: &[Act],
    place: usize,
) -> Result<Option<Outcome>, Memory> {
    let mut instead = None;
    let mut number = 0usize;
    for act in acts {
        let outcome = live.act(alloc, *act)?;
        if number == place {
            instead = Some(outcome);
        }
        number = number.saturating_add(1);
    }
    Ok(instead)
}

/// Whether processes keep the rule: that comes of the act against it which is to come, and what was told is kept.
fn is_kept(alloc: Global, image: &Image, row: Row) -> Result<bool, Memory> {
    let (_, _, acts, place, instead) = row;
    let mut live = Live::new(alloc, image, 2, 1, 1)?;
    let begun = live.begins(alloc)?;
    let outcome = comes_of(alloc, &mut live, acts, place)?;
    Ok(begun && outcome == Some(instead) && live.keeps_promises())
}

/// Whether the rule is needed, and whether it is kept.
fn verdict(alloc: Global, image: &Image, row: Row) -> Result<(bool, bool), Memory> {
    let needed = breaks_without(alloc, image, row)?;
    Ok((needed, is_kept(alloc, image, row)?))
}

/// The same, once more where memory was refused.
fn verdict_again(alloc: Global, row: Row) -> Result<(bool, bool), Fail> {
    let image = image_of(alloc, SAYS_ITS_WORD)?;
    match verdict(alloc, &image, row) {
        Err(Memory) => Ok(verdict(alloc, &image, row)?),
        verdict => Ok(verdict?),
    }
}

#[test]
fn each_rule_is_needed_and_kept(rt: HostRuntime) -> Result<(), Fail> {
    for row in ROWS {
        let (name, ..) = row;
        assert_eq!(rt; verdict_again(rt.alloc(), row)?, (true, true), "{name}");
    }
    Ok(())
}
