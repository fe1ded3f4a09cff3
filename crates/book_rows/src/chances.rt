//! Records that fall by chance, and their replays in several orders.

use crate::begun::{recording, replayer, same_machine};
use edge_log::EdgeLog;
use fixtures::{Crew, Dice, file_of, hart, image_of};
use ft_types::{Count, Counts, HART_ROW, Memory};
use guest_image::Image;
use input_log::InputLog;
use page_book::{Book, Keep, Mode, Recording, Replaying};
use std::alloc::Global;
use std::test::Fail;

/// Six times over each hart adds to a word of one of two pages, or loads it: which one, and what it adds, is made of what it
/// loaded before. One of these words lies in the code's page. Then it halts.
static MIXES: &[u8] = b"800010b7\n80008093\n00600113\nf14021f3\n00118193\n0011f293\n\
00c29293\n001282b3\n0021f313\n00030663\n0032a3af\n0080006f\n0002a383\n00319413\n008181b3\n\
007181b3\n00518193\nfff10113\nfc0116e3\nf0000237\n00022a23\n";

/// The file of so many harts that mix what they load.
pub fn mixing(alloc: Global, harts: u8) -> Result<Vec<u8>, Memory> {
    match file_of(alloc, harts, 2, MIXES) {
        Err(Memory) => file_of(alloc, harts, 2, MIXES),
        file => file,
    }
}

/// Lends a hart that has no open lease, lets it go on, settles it or discards it, as the dice fall.
fn turn<M: Mode>(crew: &mut Crew<M>, alloc: Global, dice: &mut Dice) {
    let hart = hart(dice.roll() % 4);
    let _answer = match dice.roll() % 10 {
        0 => crew.settle(hart, Keep::All),
        1 => crew.settle(hart, Keep::Readable),
        2 => crew.settle(hart, Keep::Nothing),
        3 => crew.discard(hart),
        _ => {
            let lent = crew.lend(alloc, hart);
            let _steps = crew.go(hart, u32::from(dice.roll() % 8));
            lent
        }
    };
}

fn turns<M: Mode>(crew: &mut Crew<M>, alloc: Global, seed: u64) {
    let mut dice = Dice::new(seed);
    for _turn in 0..600 {
        turn(crew, alloc, &mut dice);
    }
}

/// A book that has recorded many turns. There, harts have waited for one another.
fn recorded_turns(
    alloc: Global,
    image: &Image,
    limit: Count,
    seed: u64,
) -> Result<Book<Recording>, Fail> {
    let mut crew = recording(alloc, image, &[limit; HART_ROW])?;
    turns(&mut crew, alloc, seed);
    let waited = crew.waits > 0 && crew.refusals < 2;
    let book = crew.end();
    if waited {
        Ok(book)
    } else {
        Err("turns".into())
    }
}

/// Whether harts go by chance first, with several open leases; and whether the next one down goes next, else the next one up.
type Order = (bool, bool);

const RISING: Order = (false, false);

/// Lets each hart in turn go as far as it may. Says how many steps they took.
fn go_once<M: Mode>(crew: &mut Crew<M>, alloc: Global, falls: bool) -> u64 {
    let mut steps = 0u64;
    for place in 0..4u8 {
        let number = if falls { 3 - place } else { place };
        if let Ok(taken) = crew.run(alloc, hart(number), Keep::All) {
            steps = steps.saturating_add(taken);
        }
    }
    steps
}

/// The same, until none goes on.
fn go_round<M: Mode>(crew: &mut Crew<M>, alloc: Global, falls: bool) {
    for _round in 0..1000 {
        if go_once(crew, alloc, falls) == 0 {
            return;
        }
    }
}

/// The book, once its harts took many turns by chance and its open leases went back.
pub fn after_turns<M: Mode>(alloc: Global, book: Book<M>) -> Book<M> {
    let mut crew = Crew::new(book);
    turns(&mut crew, alloc, 99);
    crew.end()
}

/// The book, once its harts went on in this order.
pub fn after_rounds<M: Mode>(alloc: Global, book: Book<M>, falls: bool) -> Book<M> {
    let mut crew = Crew::new(book);
    go_round(&mut crew, alloc, falls);
    crew.end()
}

/// A replay of these edges up to these counts, in this order.
fn replayed(
    alloc: Global,
    image: &Image,
    ends: Counts,
    edges: &EdgeLog,
    (mixed, falls): Order,
) -> Result<Book<Replaying>, Fail> {
    let none = InputLog::new(alloc);
    let begun = replayer(alloc, image, ends, edges, &none)?;
    let book = if mixed {
        after_turns(alloc, begun)
    } else {
        begun
    };
    Ok(after_rounds(alloc, book, falls))
}

/// Whether a replay in this order comes to the recorded counts and machine.
fn comes_out(
    alloc: Global,
    image: &Image,
    recorded: &Book<Recording>,
    order: Order,
) -> Result<bool, Fail> {
    let ends = recorded.counts();
    let book = replayed(alloc, image, ends, recorded.edges(), order)?;
    Ok(book.counts() == ends && same_machine(&book, recorded))
}

/// Whether a replay of what was recorded does in each order.
fn each_comes_out(alloc: Global, image: &Image, recorded: &Book<Recording>) -> Result<bool, Fail> {
    for order in &[RISING, (false, true), (true, false)] {
        if !comes_out(alloc, image, recorded, *order)? {
            return Ok(false);
        }
    }
    Ok(true)
}

/// Whether each replay of what such turns recorded does.
fn all_come_out(alloc: Global, image: &Image, limit: Count, seed: u64) -> Result<bool, Fail> {
    let recorded = recorded_turns(alloc, image, limit, seed)?;
    each_comes_out(alloc, image, &recorded)
}

/// The seed of a book, and the limit of its harts.
static BOOKS: [(u64, Count); 6] = [(1, 1000), (2, 30), (3, 1000), (4, 1000), (5, 60), (6, 1000)];

/// Whether each of six books of the guest of so many harts is replayed to its machine.
fn all_come_out_of(alloc: Global, harts: u8) -> Result<bool, Fail> {
    let image = image_of(alloc, &mixing(alloc, harts)?)?;
    for (seed, limit) in &BOOKS {
        if !all_come_out(alloc, &image, *limit, *seed)? {
            return Ok(false);
        }
    }
    Ok(true)
}

#[test]
fn each_replay_of_a_log_leads_to_the_recorded_machine(rt: HostRuntime) -> Result<(), Fail> {
    let mut right = true;
    for harts in 2..5u8 {
        right = right && all_come_out_of(rt.alloc(), harts)?;
    }
    assert!(rt; right);
    Ok(())
}

/// A replay of what a book recorded, without its edges.
fn without_edges(
    alloc: Global,
    image: &Image,
    recorded: &Book<Recording>,
) -> Result<Book<Replaying>, Fail> {
    let ends = recorded.counts();
    let none = EdgeLog::new(alloc, Counts::zero(ends.harts()));
    replayed(alloc, image, ends, &none, RISING)
}

/// Whether a replay of what a guest of three harts recorded comes to its machine without its edges too.
fn comes_out_without_edges(alloc: Global, image: &Image) -> Result<bool, Fail> {
    let recorded = recorded_turns(alloc, image, 1000, 1)?;
    let book = without_edges(alloc, image, &recorded)?;
    Ok(same_machine(&book, &recorded))
}

#[test]
fn without_its_edges_a_log_leads_elsewhere(rt: HostRuntime) -> Result<(), Fail> {
    let image = image_of(rt.alloc(), &mixing(rt.alloc(), 3)?)?;
    assert!(rt; !comes_out_without_edges(rt.alloc(), &image)?);
    Ok(())
}
