//! Followers that keep up with stores.

use crate::runs::{came_to, leads_in_turn};
use fixtures::{Dice, HALTS, cut, image_of, key, opening_of, piece_of};
use fragment_codec::{Frame, first_opening};
use ft_types::{Count, Counts, Guest, Hart, LEASE_STEPS, Memory, Term};
use guest_image::{Image, Machine};
use hart_replay::ReplayFault;
use hart_threads::Follower;
use lease_rounds::run_plain;
use log_join::Store;
use log_pieces::Sealed;
use log_streams::{Budget, begin_run};
use page_book::{Book, Recording};
use std::alloc::Global;
use std::test::Fail;

/// Four harts add 1 to one word 100 times each, and halt after 305 steps.
pub static ADDS: &[u8] =
    b"harts 4\npages 2\n800010b7\n06400113\n00100193\n0030a02f\nfff10113\nfe011ce3\nf0000237\n00022a23\n";

/// Goes to the store's position, again where memory was refused.
fn advance(alloc: Global, follower: &mut Follower, store: &Store) -> Result<(), ReplayFault> {
    match follower.advance(alloc, store) {
        Err(ReplayFault::Memory) => follower.advance(alloc, store),
        answer => answer,
    }
}

/// Whether a new follower of the store comes to this machine.
pub fn follows_to(
    alloc: Global,
    image: &Image,
    store: &Store,
    machine: &Machine,
) -> Result<bool, Memory> {
    let mut follower = Follower::new(alloc, image)?;
    match advance(alloc, &mut follower, store) {
        Ok(()) => Ok(follower.machine().same(machine)),
        Err(fault) => came_to(Err(fault), machine),
    }
}

/// Puts the frame, again where memory was refused.
fn put(alloc: Global, store: &mut Store, frame: &Frame) -> Result<(), Memory> {
    let answer = match store.put(frame.copy(alloc)?) {
        Err(Memory) => store.put(frame.copy(alloc)?),
        answer => answer,
    };
    let _put = answer?;
    Ok(())
}

/// Of a piece of term 1 its place, from and to, behind 0; of an opening its term, 0 and its base.
pub type Comes = (Term, u32, Count, Count);

/// Where a follower stands: the position's term and count, the machine's count, and how many steps it took last.
pub type Stand = (u64, u64, u64, u64);

/// What comes; and where the follower stands once it went on, if it does, with the number of its fault, or 0.
pub type Row = (Comes, Option<(Stand, u64)>);

/// What comes to a store of a guest that halts at 4. A second opening of term 2 changes the chain, and a second piece at one key takes the position
/// back. A second piece costs its own steps alone. A piece past the halt is refused.
pub static STORES: [&[Row]; 3] = [
    &[
        ((1, 0, 0, 0), None),
        ((2, 0, 3, 0), None),
        ((0, 0, 0, 4), Some(((2, 3, 3, 3), 0))),
        ((2, 0, 4, 0), Some(((1, 4, 4, 4), 0))),
        ((0, 0, 0, 2), Some(((1, 0, 0, 0), 0))),
    ],
    &[
        ((1, 0, 0, 0), None),
        ((0, 0, 0, 3), Some(((1, 3, 3, 3), 0))),
        ((0, 1, 3, 4), Some(((1, 4, 4, 1), 0))),
    ],
    &[
        ((1, 0, 0, 0), None),
        ((0, 0, 0, 4), Some(((1, 4, 4, 4), 0))),
        ((0, 1, 4, 5), Some(((1, 4, 4, 4), 204))),
    ],
];

/// The frame that comes.
pub fn frame_of(
    alloc: Global,
    guest: Guest,
    (term, place, from, to): Comes,
) -> Result<Frame, Fail> {
    match term {
        0 => piece_of(alloc, guest, key(1, 0, place), from, to, &[]),
        _ => opening_of(guest, term, term.saturating_sub(1), &[from]),
    }
}

/// Where a hart halted inside, as its number and the last digit of its count: 0 where none did.
fn halted_at(fault: &ReplayFault) -> u64 {
    match fault {
        ReplayFault::HaltedInside(hart, count) => 10 * u64::from(hart.number()) + *count % 10,
        _ => 0,
    }
}

/// The fault as a number: its own, and for a halt 200 with the hart and the last digit of the count.
pub fn number_of(answer: Result<(), ReplayFault>) -> u64 {
    let Err(fault) = answer else {
        return 0;
    };
    match halted_at(&fault) {
        0 => u64::from(fault.number()),
        halted => halted.saturating_add(200),
    }
}

/// The count of a machine's one hart.
fn count_of(machine: &Machine) -> Count {
    if machine.harts() == 1 {
        machine.hart(Hart::new(0)).count()
    } else {
        0
    }
}

/// Whether the follower of a guest with one hart stands there.
fn stands_at(follower: &Follower, (term, count, reached, steps): Stand) -> bool {
    let position = follower.position();
    u64::from(position.term) == term
        && position.counts.as_slice() == [count].as_slice()
        && count_of(follower.machine()) == reached
        && follower.last_steps() == steps
}

/// Whether a follower of a new store goes on as these rows say.
fn goes_on(alloc: Global, image: &Image, rows: &[Row]) -> Result<bool, Fail> {
    let mut follower = Follower::new(alloc, image)?;
    let mut store = Store::new(alloc, image.guest());
    for (comes, told) in rows {
        put(alloc, &mut store, &frame_of(alloc, image.guest(), *comes)?)?;
        if let Some((stand, fault)) = told {
            let number = number_of(advance(alloc, &mut follower, &store));
            if number != *fault || !stands_at(&follower, *stand) {
                return Ok(false);
            }
        }
    }
    Ok(true)
}

#[test]
fn where_followers_stand(rt: HostRuntime) -> Result<(), Fail> {
    let image = image_of(rt.alloc(), HALTS)?;
    let mut right = true;
    for rows in &STORES {
        right = right && goes_on(rt.alloc(), &image, rows)?;
    }
    assert!(rt; right);
    Ok(())
}

/// Whether another guest's store is not followed.
pub fn is_not_followed(alloc: Global, image: &Image, store: &Store) -> Result<bool, Memory> {
    let mut follower = Follower::new(alloc, image)?;
    match advance(alloc, &mut follower, store) {
        Err(ReplayFault::OtherGuest) => Ok(true),
        _ => Ok(false),
    }
}

/// The book after each hart went on to this count, or halted.
pub fn gone_to(
    alloc: Global,
    book: Book<Recording>,
    count: Count,
) -> Result<Book<Recording>, Memory> {
    let mut book = book;
    if let Some(limits) = Counts::from_slice(&[count; 4]) {
        if book.machine().harts() == limits.harts() {
            book.limit_to(limits);
        }
    }
    book.reclaim();
    match run_plain(alloc, book, LEASE_STEPS) {
        Ok(book) => Ok(book),
        Err(_) => Err(Memory),
    }
}

/// The pieces of a book's log behind what is sealed come to the others.
fn add_pieces(
    alloc: Global,
    image: &Image,
    book: &Book<Recording>,
    sealed: &mut Sealed,
    pieces: &mut Vec<Frame>,
) -> Result<(), Memory> {
    let mut more = cut(alloc, image.guest(), book, 1, sealed)?;
    Ok(pieces.append(&mut more)?)
}

/// The pieces of a primary that was cut again and again.
fn many_pieces(alloc: Global, image: &Image) -> Result<Vec<Frame>, Memory> {
    let mut sealed = Sealed::new(Counts::zero(image.harts()));
    let mut pieces = Vec::new(alloc);
    let mut book = begin_run(alloc, image, &[], Budget::new(0))?;
    let mut added = Ok(());
    for round in 1..9u64 {
        book = gone_to(alloc, book, round * 40)?;
        added = add_pieces(alloc, image, &book, &mut sealed, &mut pieces);
        if added.is_err() {
            break;
        }
    }
    let _machine = book.into_machine();
    added?;
    Ok(pieces)
}

/// The sum of the counts at which the follower stands.
fn steps_to(follower: &Follower) -> u64 {
    let mut steps = 0u64;
    for count in follower.position().counts.as_slice() {
        steps = steps.saturating_add(*count);
    }
    steps
}

/// Lets the follower go on. Whether it took the new steps alone, and has the machine of a replay from boot.
fn keeps_up(
    alloc: Global,
    image: &Image,
    follower: &mut Follower,
    store: &Store,
) -> Result<bool, Memory> {
    let before = steps_to(follower);
    if advance(alloc, follower, store).is_err() {
        return Ok(false);
    }
    if follower.last_steps() != steps_to(follower).saturating_sub(before) {
        return Ok(false);
    }
    leads_in_turn(alloc, image, store, follower.machine())
}

/// Which piece is put at this turn: one by chance, and in the end each.
fn number_at(turn: u32, dice: &mut Dice) -> usize {
    if turn < 80 {
        usize::from(dice.roll())
    } else {
        turn as usize
    }
}

/// Whether the follower keeps up with the store, to which these pieces come by chance and in the end all.
fn always_keeps_up(
    alloc: Global,
    image: &Image,
    follower: &mut Follower,
    store: &mut Store,
    pieces: &[Frame],
) -> Result<bool, Memory> {
    let mut dice = Dice::new(0x9e37);
    for turn in 0..120u32 {
        let number = number_at(turn, &mut dice);
        if let Some(piece) = pieces.get(number % pieces.len().max(1)) {
            put(alloc, store, piece)?;
        }
        if !keeps_up(alloc, image, follower, store)? {
            return Ok(false);
        }
    }
    Ok(true)
}

/// Whether a follower of harts that add does, and stands at their end at last.
fn is_followed(alloc: Global, image: &Image) -> Result<bool, Memory> {
    let pieces = many_pieces(alloc, image)?;
    let mut follower = Follower::new(alloc, image)?;
    let mut store = Store::new(alloc, image.guest());
    let opening = Frame::Opening(first_opening(image.guest()));
    put(alloc, &mut store, &opening)?;
    let followed = always_keeps_up(alloc, image, &mut follower, &mut store, &pieces)?;
    Ok(followed && steps_to(&follower) == 4 * 305)
}

#[test]
fn piece_by_piece_in_any_order(rt: HostRuntime) -> Result<(), Fail> {
    let image = image_of(rt.alloc(), ADDS)?;
    assert!(rt; is_followed(rt.alloc(), &image)?);
    Ok(())
}
