//! A replay that begins again from where it stands, and obeys what was recorded since.

use crate::begun::{leg_of, replayer, same_machine};
use crate::chances::{after_rounds, after_turns, mixing};
use crate::starts::{harts_of, raise};
use fixtures::{file_of, image_of, recorder};
use ft_types::{Count, HART_LIMIT, HART_ROW, Memory};
use guest_image::Image;
use page_book::{Book, Leg, Recording, Replaying};
use std::alloc::Global;
use std::test::Fail;

/// lui x4, f0000; then for ever addi x1, x1, 1; sw x1, 8(x4), which puts x1 out; jal x0, -8.
static SAYS: &[u8] = b"f0000237\n00108093\n00122423\nff9ff06f\n";

/// All that a book recorded, to be obeyed.
fn told_once(book: &Book<Recording>) -> Result<Leg, Memory> {
    leg_of(book.counts(), book.edges(), book.inputs())
}

fn told(book: &Book<Recording>) -> Result<Leg, Fail> {
    let leg = match told_once(book) {
        Err(Memory) => told_once(book),
        leg => leg,
    };
    match leg {
        Ok(leg) => Ok(leg),
        Err(Memory) => Err("leg".into()),
    }
}

/// Begins again, and obeys what a book recorded. What was obeyed before comes back.
fn obey_once(
    alloc: Global,
    replay: &mut Book<Replaying>,
    recorded: &Book<Recording>,
) -> Option<Leg> {
    let mut leg = Box::new(alloc, told_once(recorded).ok()?).ok()?;
    replay.begin_again().ok()?;
    replay.swap_leg(&mut leg);
    Some(Box::into_inner(leg))
}

fn obey(
    alloc: Global,
    replay: &mut Book<Replaying>,
    recorded: &Book<Recording>,
) -> Result<Leg, Fail> {
    let before = match obey_once(alloc, replay, recorded) {
        None => obey_once(alloc, replay, recorded),
        before => before,
    };
    match before {
        Some(leg) => Ok(leg),
        None => Err("obey".into()),
    }
}

/// The book, once its harts went on to these limits.
fn recorded_to(alloc: Global, book: Book<Recording>, limit: Count) -> Book<Recording> {
    let mut book = book;
    let limits = [limit; HART_ROW];
    let harts = usize::from(harts_of(&book).min(HART_LIMIT));
    let _raised = raise(&mut book, &limits[..harts]);
    after_turns(alloc, book)
}

/// Whether a replay of what a guest does up to a count begins again and goes on to what it does after it.
fn goes_on(alloc: Global, image: &Image) -> Result<bool, Fail> {
    let recorded = recorded_to(alloc, recorder(alloc, image, &[0; HART_ROW])?, 30);
    let first = told(&recorded)?;
    let begun = replayer(alloc, image, first.ends, &first.edges, &first.inputs)?;
    let mut replay = after_rounds(alloc, begun, false);
    let came = same_machine(&replay, &recorded);
    let recorded = recorded_to(alloc, recorded, 60);
    let before = obey(alloc, &mut replay, &recorded)?;
    let again = replay.start().same(replay.machine()) && replay.journal().is_empty();
    let obeys = before.same(&first) && replay.leg().same(&told(&recorded)?);
    let replay = after_rounds(alloc, replay, true);
    let on = !replay.start().same(replay.machine()) && same_machine(&replay, &recorded);
    Ok(came && again && obeys && on)
}

#[test]
fn a_replay_begins_again_and_goes_on(rt: HostRuntime) -> Result<(), Fail> {
    let alloc = rt.alloc();
    let mixes = image_of(alloc, &mixing(alloc, 3)?)?;
    assert!(rt; goes_on(alloc, &mixes)?);
    let says = image_of(alloc, &file_of(alloc, 2, 2, SAYS)?)?;
    assert!(rt; goes_on(alloc, &says)?);
    Ok(())
}
