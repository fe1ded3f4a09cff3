//! What stores answer, and their positions, which are kept up frame by frame. A call that is refused memory is made once more, and must
//! have changed nothing. What stores then hold the cases of `stores` show, and what they tell of a term or a key those of `store` and `positions`.

use crate::come::{Come, Fact, Marks, frame_of, guest_of, marks, put as put_into, store_of};
use closed_cut::{Position, chain, position};
use fixtures::guest_with;
use fragment_codec::Frame;
use ft_types::{Count, Memory, Term};
use log_join::{Put, Store, StoreFault, joins_of_stores};
use std::alloc::Global;
use std::result::Result;
use std::test::Fail;
use tracked_position::Tracked;

/// Whether the position that is kept up is the one that is found from scratch.
pub fn agrees(alloc: Global, tracked: &Tracked) -> Result<bool, Memory> {
    Ok(*tracked.position() == position(alloc, tracked.store())?)
}

/// The last term of the store's chain: 0 where there is none.
fn top_of(alloc: Global, store: &Store) -> Result<Term, Memory> {
    match chain(alloc, store)?.as_slice() {
        [.., last] => Ok(*last),
        [] => Ok(0),
    }
}

/// What a tracked store tells of itself.
fn told(alloc: Global, tracked: &Tracked) -> Result<(Position, Marks), Memory> {
    Ok((*tracked.position(), marks(alloc, tracked.store())?))
}

/// Puts a frame, again where memory was refused.
pub fn put(alloc: Global, tracked: &mut Tracked, frame: &Frame) -> Result<Put, Fail> {
    let (copy, again) = (frame.copy(alloc)?, frame.copy(alloc)?);
    let before = told(alloc, tracked)?;
    match tracked.put(alloc, copy) {
        Ok(put) => Ok(put),
        Err(Memory) if told(alloc, tracked)? == before => Ok(tracked.put(alloc, again)?),
        Err(Memory) => Err("a refusal changed the store".into()),
    }
}

/// Joins a store, again where memory was refused. Whether they are of one guest.
fn join(alloc: Global, tracked: &mut Tracked, other: &Store) -> Result<bool, Fail> {
    let before = told(alloc, tracked)?;
    match tracked.join(alloc, other) {
        Ok(()) => Ok(true),
        Err(StoreFault::OtherGuest) => Ok(told(alloc, tracked)? != before),
        Err(StoreFault::Memory) => {
            let same = told(alloc, tracked)? == before;
            Ok(same && tracked.join(alloc, other).is_ok())
        }
    }
}

/// A frame, what putting it answers, the term, the top and the counts of the position then, and what the store tells of itself.
type Row = (Come, Put, (Term, Term), &'static [Count], Marks);

/// Whether the position stands there, as that of the store does, and the store tells so of itself.
fn stands_at(alloc: Global, tracked: &Tracked, row: &Row) -> Result<bool, Memory> {
    let ((term, top), (there, marks)) = (row.2, told(alloc, tracked)?);
    let is_there = there.term == term && there.top == top && there.counts.as_slice() == row.3;
    Ok(
        is_there
            && marks == row.4
            && top_of(alloc, tracked.store())? == top
            && agrees(alloc, tracked)?,
    )
}

/// Whether each of the rows does, one behind the other.
fn go_so(alloc: Global, tracked: &mut Tracked, rows: &[Row]) -> Result<bool, Fail> {
    for row in rows {
        let frame = frame_of(alloc, tracked.store().guest(), &row.0)?;
        if put(alloc, tracked, &frame)? != row.1 || !stands_at(alloc, tracked, row)? {
            return Ok(false);
        }
    }
    Ok(true)
}

/// The same in a new store of so many harts, to which a frame of another guest did not come.
fn go_so_anew(alloc: Global, harts: u8, rows: &[Row]) -> Result<bool, Fail> {
    let mut tracked = Tracked::new(alloc, guest_of(harts));
    let foreign = frame_of(alloc, guest_with([8; 32], 2), &OTHER)?;
    let refused = put(alloc, &mut tracked, &foreign)? == Put::OtherGuest;
    Ok(refused && go_so(alloc, &mut tracked, rows)?)
}

/// The other content of the first piece.
const OTHER: Come = Come::Piece(1, 0, 0, 0, 4, &[Fact::Timer(0)]);

/// Each answer to a put: a piece that comes before its opening and those before it, each again, a piece and an opening with two contents.
const PUTS: &[Row] = &[
    (
        Come::Piece(1, 0, 2, 6, 9, &[]),
        Put::New,
        (0, 0),
        &[0, 0],
        (0, 1, 0, 1),
    ),
    (
        Come::Piece(1, 0, 0, 0, 4, &[]),
        Put::New,
        (0, 0),
        &[0, 0],
        (0, 2, 0, 1),
    ),
    (
        Come::Piece(1, 0, 0, 0, 4, &[]),
        Put::Same,
        (0, 0),
        &[0, 0],
        (0, 2, 0, 1),
    ),
    (
        Come::Opening(1, 0, &[0, 0]),
        Put::New,
        (1, 1),
        &[4, 0],
        (1, 2, 0, 1),
    ),
    (
        Come::Opening(1, 0, &[0, 0]),
        Put::Same,
        (1, 1),
        &[4, 0],
        (1, 2, 0, 1),
    ),
    (OTHER, Put::Clash, (1, 1), &[0, 0], (1, 1, 1, 1)),
    (
        Come::Piece(1, 0, 0, 0, 4, &[]),
        Put::Clash,
        (1, 1),
        &[0, 0],
        (1, 1, 1, 1),
    ),
    (
        Come::Piece(1, 0, 1, 4, 6, &[]),
        Put::New,
        (1, 1),
        &[0, 0],
        (1, 2, 1, 1),
    ),
    (
        Come::Opening(3, 1, &[4, 4]),
        Put::New,
        (1, 3),
        &[0, 0],
        (2, 2, 1, 3),
    ),
    (
        Come::Opening(3, 1, &[5, 5]),
        Put::Clash,
        (1, 1),
        &[0, 0],
        (1, 2, 2, 3),
    ),
];

/// A gap is filled, and then a piece clashes: the position goes back.
const LATE_CLASH: &[Row] = &[
    (
        Come::Opening(1, 0, &[0]),
        Put::New,
        (1, 1),
        &[0],
        (1, 0, 0, 1),
    ),
    (
        Come::Piece(1, 0, 0, 0, 4, &[]),
        Put::New,
        (1, 1),
        &[4],
        (1, 1, 0, 1),
    ),
    (
        Come::Piece(1, 0, 2, 7, 9, &[]),
        Put::New,
        (1, 1),
        &[4],
        (1, 2, 0, 1),
    ),
    (
        Come::Piece(1, 0, 0, 0, 4, &[]),
        Put::Same,
        (1, 1),
        &[4],
        (1, 2, 0, 1),
    ),
    (
        Come::Piece(1, 0, 1, 4, 7, &[]),
        Put::New,
        (1, 1),
        &[9],
        (1, 3, 0, 1),
    ),
    (
        Come::Piece(1, 0, 1, 4, 8, &[]),
        Put::Clash,
        (1, 1),
        &[4],
        (1, 2, 1, 1),
    ),
    (
        Come::Piece(1, 0, 1, 4, 7, &[]),
        Put::Clash,
        (1, 1),
        &[4],
        (1, 2, 1, 1),
    ),
];

/// A term goes on from where the one before it was left; its pieces and those of the other come in either order, and at last
/// its opening clashes.
const CHANGING_CHAIN: &[Row] = &[
    (
        Come::Opening(1, 0, &[0, 0]),
        Put::New,
        (1, 1),
        &[0, 0],
        (1, 0, 0, 1),
    ),
    (
        Come::Piece(1, 0, 0, 0, 18, &[]),
        Put::New,
        (1, 1),
        &[18, 0],
        (1, 1, 0, 1),
    ),
    (
        Come::Piece(1, 1, 0, 0, 20, &[]),
        Put::New,
        (1, 1),
        &[18, 20],
        (1, 2, 0, 1),
    ),
    (
        Come::Opening(2, 1, &[20, 20]),
        Put::New,
        (1, 2),
        &[18, 20],
        (2, 2, 0, 2),
    ),
    (
        Come::Piece(2, 1, 0, 20, 25, &[]),
        Put::New,
        (1, 2),
        &[18, 20],
        (2, 3, 0, 2),
    ),
    (
        Come::Piece(1, 0, 1, 18, 30, &[]),
        Put::New,
        (2, 2),
        &[20, 25],
        (2, 4, 0, 2),
    ),
    (
        Come::Piece(2, 0, 0, 20, 21, &[]),
        Put::New,
        (2, 2),
        &[21, 25],
        (2, 5, 0, 2),
    ),
    (
        Come::Opening(2, 1, &[19, 20]),
        Put::Clash,
        (1, 1),
        &[30, 20],
        (1, 5, 1, 2),
    ),
];

/// Each of two harts waits for the other: only both together go on, and then the next term, whose opening clashes at last.
const WAITING: &[Row] = &[
    (
        Come::Opening(1, 0, &[0, 0]),
        Put::New,
        (1, 1),
        &[0, 0],
        (1, 0, 0, 1),
    ),
    (
        Come::Piece(1, 0, 0, 0, 5, &[Fact::Edge(2, 1, 3)]),
        Put::New,
        (1, 1),
        &[2, 0],
        (1, 1, 0, 1),
    ),
    (
        Come::Opening(2, 1, &[5, 5]),
        Put::New,
        (1, 2),
        &[2, 0],
        (2, 1, 0, 2),
    ),
    (
        Come::Piece(2, 1, 0, 5, 9, &[]),
        Put::New,
        (1, 2),
        &[2, 0],
        (2, 2, 0, 2),
    ),
    (
        Come::Piece(1, 1, 0, 0, 5, &[Fact::Edge(1, 0, 4)]),
        Put::New,
        (2, 2),
        &[5, 9],
        (2, 3, 0, 2),
    ),
    (
        Come::Opening(2, 1, &[5, 4]),
        Put::Clash,
        (1, 1),
        &[5, 5],
        (1, 3, 1, 2),
    ),
];

/// A piece that a join brings to the last of these stores.
const PIECE: Come = Come::Piece(1, 1, 1, 5, 8, &[]);

/// What the join brings.
static REST: [Come; 2] = [PIECE, Come::Piece(2, 0, 0, 5, 6, &[])];

/// The piece again, once it was joined.
const JOINED: &[Row] = &[(PIECE, Put::Same, (1, 1), &[5, 8], (1, 5, 1, 2))];

/// How many harts a store has, and what comes to it.
static STORES: [(u8, &[Row]); 3] = [(2, PUTS), (1, LATE_CLASH), (2, CHANGING_CHAIN)];

#[test]
fn puts(rt: HostRuntime) -> Result<(), Fail> {
    let mut right = true;
    for (harts, rows) in &STORES {
        right = right && go_so_anew(rt.alloc(), *harts, rows)?;
    }
    assert!(rt; right);
    Ok(())
}

/// Whether a store that is waited for is joined, and one of another guest is not.
fn are_joined(alloc: Global, tracked: &mut Tracked) -> Result<bool, Fail> {
    let rest = store_of(alloc, guest_of(2), &REST)?;
    let foreign = Store::new(alloc, guest_with([8; 32], 2));
    Ok(join(alloc, tracked, &rest)? && !join(alloc, tracked, &foreign)?)
}

/// Whether harts that wait go so, and then what a join brings.
fn go_on(alloc: Global) -> Result<bool, Fail> {
    let mut tracked = Tracked::new(alloc, guest_of(2));
    let waited = go_so(alloc, &mut tracked, WAITING)? && are_joined(alloc, &mut tracked)?;
    Ok(waited && go_so(alloc, &mut tracked, JOINED)?)
}

#[test]
fn joins(rt: HostRuntime) -> Result<(), Fail> {
    joins_of_stores();
    assert!(rt; go_on(rt.alloc())? && are_joined_often(rt.alloc())?);
    Ok(())
}

/// The piece at a place of a hart, which goes this many steps on.
fn piece_at(number: u8, place: u32, steps: Count) -> Come {
    let from = u64::from(place);
    Come::Piece(1, number, place, from, from.saturating_add(steps), &[])
}

/// Puts twenty places of a hart, each of which goes this far.
fn put_twenty(alloc: Global, store: &mut Store, number: u8, steps: Count) -> Result<(), Fail> {
    for place in 0..20u32 {
        let piece = piece_at(number, place, steps);
        let _put = put_into(alloc, store, guest_of(2), &piece)?;
    }
    Ok(())
}

/// A store of those.
fn twenty(alloc: Global, number: u8, steps: Count) -> Result<Store, Fail> {
    let mut store = Store::new(alloc, guest_of(2));
    put_twenty(alloc, &mut store, number, steps)?;
    Ok(store)
}

/// A piece that clashes with one of the twenty, and openings.
static FRONT: [Come; 3] = [
    Come::Piece(1, 1, 7, 0, 9, &[]),
    Come::Opening(2, 1, &[3, 3]),
    Come::Opening(21, 20, &[3, 3]),
];

/// Whether twenty places of each of two harts are joined, and then a copy of the store, and the position is right, and what the store tells.
fn are_joined_often(alloc: Global) -> Result<bool, Fail> {
    let mut tracked = Tracked::new(alloc, guest_of(2));
    for store in 0..3u8 {
        let brought = match store {
            0 => store_of(alloc, guest_of(2), &FRONT)?,
            _ => twenty(alloc, store - 1, u64::from(store))?,
        };
        if !join(alloc, &mut tracked, &brought)? {
            return Ok(false);
        }
    }
    let copy = tracked.store().copy(alloc)?;
    let joined = join(alloc, &mut tracked, &copy)? && agrees(alloc, &tracked)?;
    Ok(joined && marks(alloc, tracked.store())? == (2, 39, 1, 21))
}
