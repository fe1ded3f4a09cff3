//! What tests do with three keepers, of whom two must hold an output, over a guest that says each word that it is given.

use crate::event::{ClientEvent, HandAct, KeeperEvent, LiveEvent, Planned, PrimaryEvent};
use crate::fault::EventFault;
use crate::world::LiveWorld;
use ft_types::{Count, Keeper, Quorum, Term};
use guest_image::{Image, read_image};
use leading::Spacing;
use std::alloc::Global;
use std::result::Result;
use std::test::Fail;

/// It goes round until INSEQ has changed, clears the word's interrupt, reads the word, and puts it out.
pub(crate) const SAYS_ALL: &[u8] =
    b"harts 1\npages 1\nf00000b7\n00000293\n00001337\n00135313\n0040a103\nfe510ee3\n0060a623\n0000a183\n00010293\n0030a423\nfe9ff06f\n";

/// The steps of a round, in which a word is said.
pub(crate) const STEPS: Count = 240;

/// The keepers, by their numbers.
pub(crate) const FIRST: u8 = 0;

pub(crate) const SECOND: u8 = 1;

pub(crate) const THIRD: u8 = 2;

pub(crate) fn keeper(number: u8) -> Keeper {
    Keeper::new(number % 5)
}

pub(crate) fn image_of(alloc: Global) -> Result<Image, Fail> {
    match read_image(alloc, SAYS_ALL) {
        Ok(image) => Ok(image),
        Err(_) => Err("an image".into()),
    }
}

/// A world of three keepers in which nothing has happened.
pub(crate) fn world_of(alloc: Global) -> Result<LiveWorld, Fail> {
    let Some(quorum) = Quorum::new(3, 2) else {
        return Err("a quorum".into());
    };
    Ok(LiveWorld::new(alloc, &image_of(alloc)?, quorum)?)
}

/// It happens.
pub(crate) fn happens(alloc: Global, world: &mut LiveWorld, event: LiveEvent) -> Result<(), Fail> {
    match world.apply(alloc, event) {
        Ok(()) => Ok(()),
        Err(_) => Err("an event is refused".into()),
    }
}

/// Whether it is refused so.
pub(crate) fn is_refused(
    alloc: Global,
    world: &mut LiveWorld,
    event: LiveEvent,
    wanted: EventFault,
) -> bool {
    match world.apply(alloc, event) {
        Ok(()) => false,
        Err(fault) => fault == wanted,
    }
}

/// A keeper takes the frames from this number on, in pieces of 7 bytes.
pub(crate) fn takes(
    alloc: Global,
    world: &mut LiveWorld,
    number: u8,
    from: usize,
) -> Result<(), Fail> {
    let event = KeeperEvent::Take {
        keeper: keeper(number),
        from,
        to: world.frames().len(),
        piece: 7,
    };
    happens(alloc, world, LiveEvent::Keeper(event))
}

/// A keeper begins, and between its acts this happens.
pub(crate) fn beginning(alloc: Global, number: u8, plan: &[Planned]) -> Result<LiveEvent, Fail> {
    Ok(LiveEvent::Keeper(KeeperEvent::Begin {
        keeper: keeper(number),
        plan: plan.to_vec(alloc)?,
    }))
}

pub(crate) fn begins(alloc: Global, world: &mut LiveWorld, number: u8) -> Result<(), Fail> {
    happens(alloc, world, beginning(alloc, number, &[])?)
}

/// A keeper's call between whose acts this happens.
pub(crate) fn logging(alloc: Global, number: u8, plan: &[Planned]) -> Result<LiveEvent, Fail> {
    Ok(LiveEvent::Keeper(KeeperEvent::Log {
        keeper: keeper(number),
        plan: plan.to_vec(alloc)?,
    }))
}

pub(crate) fn logs(alloc: Global, world: &mut LiveWorld, number: u8) -> Result<(), Fail> {
    happens(alloc, world, logging(alloc, number, &[])?)
}

pub(crate) fn hands(
    alloc: Global,
    world: &mut LiveWorld,
    number: u8,
    acts: &[HandAct],
) -> Result<(), Fail> {
    for act in acts {
        let event = KeeperEvent::Hand {
            keeper: keeper(number),
            act: *act,
        };
        happens(alloc, world, LiveEvent::Keeper(event))?;
    }
    Ok(())
}

/// The keeper's log is fenced off for the term, and handed over.
pub(crate) fn gives(
    alloc: Global,
    world: &mut LiveWorld,
    number: u8,
    term: Term,
) -> Result<(), Fail> {
    hands(
        alloc,
        world,
        number,
        &[HandAct::Looks, HandAct::Fences(term), HandAct::Reads],
    )
}

pub(crate) fn go_live(
    alloc: Global,
    world: &mut LiveWorld,
    term: Term,
    numbers: &[usize],
) -> Result<(), Fail> {
    let handed = numbers.to_vec(alloc)?;
    primary(alloc, world, PrimaryEvent::GoLive { term, handed })
}

/// What happens next to primaries.
pub(crate) fn primary(
    alloc: Global,
    world: &mut LiveWorld,
    event: PrimaryEvent,
) -> Result<(), Fail> {
    happens(alloc, world, LiveEvent::Primary(event))
}

/// What happens next to clients.
pub(crate) fn client(alloc: Global, world: &mut LiveWorld, event: ClientEvent) -> Result<(), Fail> {
    happens(alloc, world, LiveEvent::Client(event))
}

/// What was asked for last comes to a primary.
pub(crate) fn is_asked(alloc: Global, world: &mut LiveWorld, number: usize) -> Result<(), Fail> {
    let event = PrimaryEvent::Request {
        primary: number,
        asked: world.asked().len().saturating_sub(1),
    };
    primary(alloc, world, event)
}

/// A primary's round, and what it sends of it.
pub(crate) fn goes_round(alloc: Global, world: &mut LiveWorld, number: usize) -> Result<(), Fail> {
    let event = PrimaryEvent::Round {
        primary: number,
        steps: STEPS,
        spacing: Spacing::Usual,
    };
    primary(alloc, world, event)?;
    primary(alloc, world, PrimaryEvent::Seal(number))
}

pub(crate) fn hears(
    alloc: Global,
    world: &mut LiveWorld,
    number: usize,
    said: usize,
) -> Result<(), Fail> {
    let event = PrimaryEvent::Hear {
        primary: number,
        said,
    };
    primary(alloc, world, event)
}

/// How many outputs of a primary went out, and how many wait.
pub(crate) fn outputs(world: &LiveWorld, primary: usize) -> Option<(usize, usize)> {
    let leader = world.leader(primary)?;
    Some((leader.released().len(), leader.waiting()))
}

/// What was told last: its term and its word.
pub(crate) fn told_last(world: &LiveWorld) -> Option<(Term, u32)> {
    let answer = world.told().last()?;
    Some((answer.term, answer.output.word))
}

/// How many were said and handed over.
pub(crate) fn sizes(world: &LiveWorld) -> (usize, usize) {
    (world.said().len(), world.handed().len())
}
