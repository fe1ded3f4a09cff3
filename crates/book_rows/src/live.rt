//! Going live from stores that were worked out by hand, and from the same as keepers gave them to the term.

use crate::guests::BOTH_COUNT_ALOUD;
use crate::rows::Edge;
use fenced_live::{Given, GivenFault, go_live_given};
use fixtures::{HALTS, TWO_LOOPS, edge, hart, image_of, key, opening_of, piece_of};
use fragment_codec::{Frame, Record};
use ft_types::{Count, Counts, Guest, Keeper, Memory, Term};
use go_live::{Live, LiveFault, enough_meet_any, go_live, live_histories, most_meet_most};
use guest_image::Image;
use hart_replay::ReplayFault;
use log_join::Store;
use page_book::{BookFault, books_tell_on};
use std::alloc::Global;
use std::test::Fail;

/// A frame that came to a keeper.
enum Part {
    /// The opening of a term: its parent and its base.
    Opens(Term, Term, &'static [Count]),
    /// What a hart did in term 1 up to a count, with an edge, where there is one.
    Did(u8, Count, Option<Edge>),
}

/// A keeper, the file of its store's guest, and what came to it.
type Kept = (u8, &'static [u8], &'static [Part]);

/// What comes of it: the parent, the base, and how many outputs are offered again; or a fault.
#[derive(Clone, Copy)]
enum Comes {
    Lives(Term, &'static [Count], usize),
    TooFew,
    NotNew,
    OtherGuest,
    /// No hart can go on from these counts.
    Cyclic(&'static [Count]),
    /// A hart halted with a count before its end.
    Halted(u8, Count),
}

/// A row: what it shows, the file of the image, how many keepers there are and how many must hold an output, the term, and the
/// stores at hand, of which the first so many are asked.
type Row = (
    &'static str,
    &'static [u8],
    [u8; 2],
    Term,
    [Kept; 2],
    usize,
    Comes,
);

/// The opening of term 1 from boot came to the first of two keepers. To the second one came the opening of term 2, which goes on
/// from 20 and 20, and each hart's piece of term 1: hart 0 to 18, and hart 1 to 20.
const FIRST: Kept = (1, TWO_LOOPS, &[Part::Opens(1, 0, &[0, 0])]);

const SECOND: Kept = (
    3,
    TWO_LOOPS,
    &[
        Part::Opens(2, 1, &[20, 20]),
        Part::Did(0, 18, None),
        Part::Did(1, 20, None),
    ],
);
/// The same, but that the second hart's last step waits for one that nobody holds.
const WAITS: Kept = (
    3,
    TWO_LOOPS,
    &[
        Part::Opens(2, 1, &[20, 20]),
        Part::Did(0, 18, None),
        Part::Did(1, 20, Some((19, 0, 19))),
    ],
);
/// Nothing came.
const NOTHING: Kept = (0, TWO_LOOPS, &[]);

const FOREIGN: Kept = (3, HALTS, &[]);
/// Each hart waits for the other.
const STUCK: Kept = (
    0,
    TWO_LOOPS,
    &[
        Part::Opens(1, 0, &[0, 0]),
        Part::Did(0, 5, Some((2, 1, 3))),
        Part::Did(1, 5, Some((1, 0, 4))),
    ],
);
/// One step more than there are.
const TOO_FAR: Kept = (0, HALTS, &[Part::Opens(1, 0, &[0]), Part::Did(0, 5, None)]);
/// Each of two keepers has the piece of one hart that counts aloud.
const ONE: Kept = (
    4,
    BOTH_COUNT_ALOUD,
    &[Part::Opens(1, 0, &[0, 0]), Part::Did(0, 6, None)],
);

const OTHER: Kept = (
    2,
    BOTH_COUNT_ALOUD,
    &[Part::Opens(1, 0, &[0, 0]), Part::Did(1, 9, None)],
);

static ROWS: [Row; 14] = [
    (
        "joined stores end",
        TWO_LOOPS,
        [4, 3],
        3,
        [FIRST, SECOND],
        2,
        Comes::Lives(1, &[18, 20], 0),
    ),
    (
        "a step waits",
        TWO_LOOPS,
        [4, 3],
        3,
        [FIRST, WAITS],
        2,
        Comes::Lives(1, &[18, 19], 0),
    ),
    (
        "from boot",
        TWO_LOOPS,
        [3, 3],
        1,
        [NOTHING, NOTHING],
        1,
        Comes::Lives(0, &[0, 0], 0),
    ),
    (
        "outputs of both",
        BOTH_COUNT_ALOUD,
        [5, 4],
        7,
        [ONE, OTHER],
        2,
        Comes::Lives(1, &[6, 9], 5),
    ),
    (
        "a term that is there",
        TWO_LOOPS,
        [4, 3],
        2,
        [FIRST, SECOND],
        2,
        Comes::NotNew,
    ),
    (
        "no term",
        TWO_LOOPS,
        [4, 3],
        0,
        [FIRST, SECOND],
        2,
        Comes::NotNew,
    ),
    (
        "one keeper twice",
        TWO_LOOPS,
        [4, 3],
        3,
        [SECOND, SECOND],
        2,
        Comes::TooFew,
    ),
    (
        "too few before an old term",
        TWO_LOOPS,
        [4, 3],
        2,
        [SECOND, SECOND],
        2,
        Comes::TooFew,
    ),
    (
        "numbers that are no keeper's",
        TWO_LOOPS,
        [3, 2],
        3,
        [SECOND, (4, TWO_LOOPS, &[])],
        2,
        Comes::TooFew,
    ),
    (
        "one that is a keeper's, and one that is none",
        TWO_LOOPS,
        [3, 2],
        3,
        [FIRST, SECOND],
        2,
        Comes::TooFew,
    ),
    (
        "an old term before another guest",
        TWO_LOOPS,
        [4, 3],
        2,
        [WAITS, (1, HALTS, &[])],
        2,
        Comes::NotNew,
    ),
    (
        "another guest",
        TWO_LOOPS,
        [4, 3],
        3,
        [FIRST, FOREIGN],
        2,
        Comes::OtherGuest,
    ),
    (
        "harts that wait for each other",
        TWO_LOOPS,
        [1, 1],
        2,
        [STUCK, NOTHING],
        1,
        Comes::Cyclic(&[2, 1]),
    ),
    (
        "a hart that halted",
        HALTS,
        [1, 1],
        2,
        [TOO_FAR, NOTHING],
        1,
        Comes::Halted(0, 4),
    ),
];

fn record_of(number: u8, (at, other, after): Edge) -> Record {
    Record::Edge(edge(number, at, other, after))
}

/// What a hart did in term 1 up to a count, where its step at a count waits for the other hart.
fn waiting_piece(
    alloc: Global,
    guest: Guest,
    number: u8,
    to: Count,
    edge: Edge,
) -> Result<Frame, Fail> {
    let waits = record_of(number, edge);
    piece_of(alloc, guest, key(1, number, 0), 0, to, &[waits])
}

fn frame_of(alloc: Global, guest: Guest, part: &Part) -> Result<Frame, Fail> {
    match *part {
        Part::Opens(term, parent, base) => opening_of(guest, term, parent, base),
        Part::Did(number, to, None) => piece_of(alloc, guest, key(1, number, 0), 0, to, &[]),
        Part::Did(number, to, Some(edge)) => waiting_piece(alloc, guest, number, to, edge),
    }
}

/// Puts a part, once more where memory was refused.
fn put(alloc: Global, store: &mut Store, part: &Part) -> Result<(), Fail> {
    let guest = store.guest();
    if store.put(frame_of(alloc, guest, part)?).is_err() {
        let _put = store.put(frame_of(alloc, guest, part)?)?;
    }
    Ok(())
}

fn put_all(alloc: Global, store: &mut Store, parts: &[Part]) -> Result<(), Fail> {
    for part in parts {
        put(alloc, store, part)?;
    }
    Ok(())
}

/// A keeper's store.
fn store_of(alloc: Global, (_, file, parts): Kept) -> Result<Store, Fail> {
    let guest = image_of(alloc, file)?.guest();
    let mut store = Store::new(alloc, guest);
    put_all(alloc, &mut store, parts)?;
    Ok(store)
}

/// Whether nothing is recorded in a primary's book, and no hart may go on from these counts.
fn is_unused(live: &Live, counts: &[Count]) -> bool {
    let book = &live.book;
    book.counts().as_slice() == counts
        && book.limits().as_slice() == counts
        && book.journal().is_empty()
}

/// Whether a primary goes on from these counts of a term.
fn lives(live: &Live, term: Term, parent: Term, base: &[Count], outputs: usize) -> bool {
    let opening = &live.opening;
    opening.term() == term
        && opening.parent() == parent
        && opening.base().as_slice() == base
        && live.outputs.len() == outputs
        && is_unused(live, base)
}

/// The fault that is to come.
fn fault_of(comes: &Comes) -> Option<LiveFault> {
    match *comes {
        Comes::Lives(_, _, _) => None,
        Comes::TooFew => Some(LiveFault::TooFewStores),
        Comes::NotNew => Some(LiveFault::TermNotNew),
        Comes::OtherGuest => Some(LiveFault::Replay(ReplayFault::OtherGuest)),
        Comes::Cyclic(counts) => {
            let counts = Counts::from_slice(counts)?;
            Some(LiveFault::Replay(ReplayFault::Cyclic(counts)))
        }
        Comes::Halted(number, count) => {
            let fault = ReplayFault::HaltedInside(hart(number), count);
            Some(LiveFault::Replay(fault))
        }
    }
}

/// Whether a primary lives as is to come.
fn lives_so(live: &Live, term: Term, comes: &Comes) -> bool {
    match *comes {
        Comes::Lives(parent, base, outputs) => lives(live, term, parent, base, outputs),
        _ => false,
    }
}

/// Whether that comes of going live which is to come. Where memory was refused, none.
fn is_so(
    alloc: Global,
    image: &Image,
    stores: &[(Keeper, &Store)],
    [keepers, need]: [u8; 2],
    (term, comes): (Term, &Comes),
) -> Option<bool> {
    if need == 0 || need > keepers || keepers > 5 {
        return None;
    }
    let fault = match go_live(alloc, image, stores, keepers, need, term) {
        Ok(live) => return Some(lives_so(&live, term, comes)),
        Err(fault) => fault,
    };
    if fault == LiveFault::Memory {
        return None;
    }
    Some(fault_of(comes) == Some(fault))
}

/// Two stores, as their keepers gave them to these terms.
fn given_to<'k>(stores: &[(Keeper, &'k Store); 2], terms: [Term; 2]) -> [Given<'k>; 2] {
    let (one, first) = stores[0];
    let (other, second) = stores[1];
    [
        Given {
            keeper: one,
            term: terms[0],
            store: first,
        },
        Given {
            keeper: other,
            term: terms[1],
            store: second,
        },
    ]
}

/// Whether the same comes of going live from given stores, and whether one of them was given to another term. Where memory was
/// refused, none.
fn is_so_given(
    alloc: Global,
    image: &Image,
    given: &[Given<'_>],
    [keepers, need]: [u8; 2],
    (term, comes): (Term, &Comes),
) -> Option<(bool, bool)> {
    if need == 0 || need > keepers || keepers > 5 {
        return None;
    }
    match go_live_given(alloc, image, given, keepers, need, term) {
        Ok(live) => Some((lives_so(&live, term, comes), false)),
        Err(GivenFault::Live(LiveFault::Memory)) => None,
        Err(GivenFault::Live(fault)) => Some((fault_of(comes) == Some(fault), false)),
        Err(GivenFault::OtherTerm) => Some((false, true)),
    }
}

/// Whether a row is as it says of these stores once they were given to its term, and refused once the first was given to the next.
fn holds_given(
    alloc: Global,
    image: &Image,
    stores: &[(Keeper, &Store); 2],
    row: &Row,
) -> Option<bool> {
    let (_, _, quorum, term, _, asked, comes) = row;
    let (quorum, term, asked) = (*quorum, *term, *asked);
    let own = given_to(stores, [term, term]);
    let (so, _) = is_so_given(alloc, image, own.get(..asked)?, quorum, (term, comes))?;
    let other = given_to(stores, [term.saturating_add(1), term]);
    let (_, refused) = is_so_given(alloc, image, other.get(..asked)?, quorum, (term, comes))?;
    Some(so && refused)
}

/// Both. Where memory was refused, none.
fn holds_of(
    alloc: Global,
    image: &Image,
    stores: &[(Keeper, &Store); 2],
    row: &Row,
) -> Option<bool> {
    let (_, _, quorum, term, _, asked, comes) = row;
    let (quorum, term, asked) = (*quorum, *term, *asked);
    let so = is_so(alloc, image, stores.get(..asked)?, quorum, (term, comes))?;
    Some(so && holds_given(alloc, image, stores, row)?)
}

/// Whether it is of these two stores, asked again where memory was refused.
fn holds_of_both<'a>(
    alloc: Global,
    image: &Image,
    first: &'a Store,
    second: &'a Store,
    row: &Row,
) -> bool {
    let [one, other] = row.4;
    let stores = [
        (Keeper::new(one.0 % 5), first),
        (Keeper::new(other.0 % 5), second),
    ];
    let so = match holds_of(alloc, image, &stores, row) {
        None => holds_of(alloc, image, &stores, row),
        so => so,
    };
    so == Some(true)
}

/// Whether it is of the first keeper's store.
fn holds_with(alloc: Global, image: &Image, first: &Store, row: &Row) -> Result<bool, Fail> {
    let second = store_of(alloc, row.4[1])?;
    Ok(holds_of_both(alloc, image, first, &second, row))
}

/// Whether it is of the image.
fn holds_in(alloc: Global, image: &Image, row: &Row) -> Result<bool, Fail> {
    let first = store_of(alloc, row.4[0])?;
    holds_with(alloc, image, &first, row)
}

/// Whether a row is as it says.
fn holds(alloc: Global, row: &Row) -> Result<bool, Fail> {
    let image = image_of(alloc, row.1)?;
    holds_in(alloc, &image, row)
}

#[test]
fn a_primary_goes_live(rt: HostRuntime) -> Result<(), Fail> {
    for row in ROWS {
        if !holds(rt.alloc(), &row)? {
            return Err(row.0.into());
        }
    }
    Ok(())
}

/// Whether each fault has its number.
fn have_numbers() -> bool {
    let foreign = LiveFault::from(ReplayFault::OtherGuest);
    let (replay, memory) = (
        LiveFault::from(ReplayFault::Memory),
        LiveFault::from(Memory),
    );
    LiveFault::TooFewStores.number() == 1
        && LiveFault::TermNotNew.number() == 2
        && foreign.number() == 3
        && (replay.number(), memory.number()) == (4, 4)
        && BookFault::Memory.number() == 6
}

#[test]
fn faults_by_number(rt: HostRuntime) {
    assert!(rt; have_numbers());
}

#[test]
fn the_laws_hold() {
    live_histories();
    enough_meet_any();
    most_meet_most();
    books_tell_on();
}
