//! Logs that look random, of two terms, frame by frame in an order that looks random.

use crate::come::guest_of;
use crate::tracked::{agrees, put};
use edge_log::Edge;
use fixtures::{Dice, edge, key, opening_of, piece_of};
use fragment_codec::{Frame, Key, Record};
use ft_types::{Count, HART_LIMIT, HART_ROW, Memory, Term};
use input_log::Input;
use std::alloc::Global;
use std::test::Fail;
use tracked_position::Tracked;

/// Adds an edge, if there is one, and an input at this step.
fn add(records: &mut Vec<Record>, edge: Option<Edge>, last: Count) -> Result<(), Memory> {
    if let Some(edge) = edge {
        records.push(Record::Edge(edge))?;
    }
    records.push(Record::Input(last, Input::Timer))?;
    Ok(())
}

/// A piece of a hart, with an input at its last step and, if there is one, this edge.
fn piece(
    alloc: Global,
    harts: u8,
    key: Key,
    (from, to): (Count, Count),
    edge: Option<Edge>,
) -> Result<Frame, Fail> {
    let mut records = Vec::new(alloc);
    add(&mut records, edge, to.saturating_sub(1))?;
    piece_of(alloc, guest_of(harts), key, from, to, &records)
}

/// Puts these frames. Whether the position is that of the store from scratch behind each.
fn put_all(alloc: Global, tracked: &mut Tracked, frames: &[Frame]) -> Result<bool, Fail> {
    for frame in frames {
        let _put = put(alloc, tracked, frame)?;
        if !agrees(alloc, &*tracked)? {
            return Ok(false);
        }
    }
    Ok(true)
}

/// A number below this one.
fn below(dice: &mut Dice, limit: u8) -> u8 {
    dice.roll() % limit.max(1)
}

/// Most often, an edge from the last step of a piece to another hart.
fn fallen_edge(harts: u8, number: u8, (from, to): (Count, Count), dice: &mut Dice) -> Option<Edge> {
    let other = below(dice, harts);
    let after = from.saturating_add(u64::from(below(dice, 6)));
    if other == number || after == 0 {
        None
    } else {
        Some(edge(number, to.saturating_sub(1), other, after))
    }
}

/// The pieces of a hart in a term, each of a few steps and most with an edge to another hart. Now and then a second content
/// comes at a place.
fn pieces(
    alloc: Global,
    frames: &mut Vec<Frame>,
    harts: u8,
    (term, hart, from): (Term, u8, Count),
    dice: &mut Dice,
) -> Result<(), Fail> {
    let mut from = from;
    for place in 0..4u32 {
        let to = from
            .saturating_add(u64::from(below(dice, 3)))
            .saturating_add(1);
        let key = key(term, hart, place);
        let edge = fallen_edge(harts, hart, (from, to), dice);
        frames.push(piece(alloc, harts, key, (from, to), edge)?)?;
        if below(dice, 40) == 0 {
            let other = piece(alloc, harts, key, (from, to.saturating_add(1)), None)?;
            frames.push(other)?;
        }
        from = to;
    }
    Ok(())
}

/// Adds the openings of two terms, of which the second one goes on from this count; now and then it comes with two contents.
fn add_openings(
    frames: &mut Vec<Frame>,
    harts: u8,
    left: Count,
    dice: &mut Dice,
) -> Result<(), Fail> {
    let other = if below(dice, 8) == 0 { 0 } else { left };
    for (term, from) in [(1, 0), (2, left), (2, other)] {
        let base = [from; HART_ROW];
        let base = base.get(..usize::from(harts)).unwrap_or(&[]);
        frames.push(opening_of(guest_of(harts), term, term - 1, base)?)?;
    }
    Ok(())
}

/// Adds the frames of two terms.
fn add_log(alloc: Global, frames: &mut Vec<Frame>, harts: u8, dice: &mut Dice) -> Result<(), Fail> {
    let left = u64::from(below(dice, 6));
    add_openings(frames, harts, left, dice)?;
    for hart in 0..harts.min(HART_LIMIT) {
        pieces(alloc, frames, harts, (1, hart, 0), dice)?;
        pieces(alloc, frames, harts, (2, hart, left), dice)?;
    }
    Ok(())
}

/// Puts the frames into an order that looks random.
fn shuffle(frames: &mut [Frame], dice: &mut Dice) {
    for place in 1..frames.len() {
        let other = usize::from(dice.roll()) % (place + 1);
        frames.swap(place, other);
    }
}

/// Whether the position is right behind each frame of the log of a seed, which come twice, in two orders.
fn holds(alloc: Global, harts: u8, seed: u64) -> Result<bool, Fail> {
    let mut dice = Dice::new(u64::from(harts) * 1000 + seed % 1000 + 1);
    let mut frames = Vec::new(alloc);
    add_log(alloc, &mut frames, harts, &mut dice)?;
    let mut tracked = Tracked::new(alloc, guest_of(harts));
    shuffle(&mut frames, &mut dice);
    let once = put_all(alloc, &mut tracked, &frames)?;
    shuffle(&mut frames, &mut dice);
    Ok(once && put_all(alloc, &mut tracked, &frames)?)
}

/// So many harts, and how many logs.
static LOGS: [(u8, u64); 7] = [
    (2, 40),
    (3, 20),
    (4, 20),
    (5, 20),
    (6, 10),
    (7, 10),
    (8, 10),
];

#[test]
fn of_two_to_eight_harts(rt: HostRuntime) -> Result<(), Fail> {
    let mut right = true;
    for (harts, seeds) in &LOGS {
        for seed in 0..*seeds {
            right = right && holds(rt.alloc(), *harts, seed)?;
        }
    }
    assert!(rt; right);
    Ok(())
}
