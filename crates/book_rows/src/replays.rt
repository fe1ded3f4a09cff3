//! Plans that were worked out by hand. What they lead to the cases of `replay` and `replays` show.

use crate::come::{Come, Fact, guest_of, records_of, store_of};
use closed_cut::position;
use fixtures::{edge, hart};
use fragment_codec::Record;
use ft_types::{Count, HART_LIMIT, Memory, Term};
use hart_replay::{Plan, PlannedLeg, ReplayFault, honest_plans, honest_primaries, plan};
use input_log::Input;
use log_join::Store;
use std::alloc::Global;
use std::result::Result;
use std::test::Fail;

/// The plan of the store.
fn plan_of(alloc: Global, store: &Store) -> Result<Plan, Fail> {
    let position = position(alloc, store)?;
    match plan(alloc, store, &position) {
        Ok(plan) => Ok(plan),
        Err(ReplayFault::Memory) => Err(Memory.into()),
        Err(_) => Err("a plan".into()),
    }
}

/// What is expected of a leg: its term, base and ends, all its edges, by hart, and the inputs of harts at some counts.
struct Leg {
    term: Term,
    base: &'static [Count],
    ends: &'static [Count],
    edges: &'static [(u8, Count, u8, Count)],
    inputs: &'static [(u8, Count, &'static [Fact])],
}

/// How many harts a store has, what comes to it, and the legs of its plan.
type Row = (u8, &'static [Come], &'static [Leg]);

/// Records of hart 1 in a first term that is left at its count 4, in the midst of the piece.
const FIRST: &[Fact] = &[
    Fact::Edge(1, 0, 2),
    Fact::Edge(2, 0, 1),
    Fact::Timer(2),
    Fact::Bell(2, 0),
    Fact::Edge(4, 0, 3),
    Fact::Timer(4),
];

/// Edges that wait for one another; two terms; nine inputs; a term that is not reached. In the first leg of two terms the second
/// edge says less than the first, and the third stands at the leg's end. In the second one the base implies the first edge, and
/// the last one's step is where the leg ends.
static ROWS: [Row; 7] = [
    (2, &[], &[]),
    (
        1,
        &[Come::Opening(1, 0, &[0])],
        &[Leg {
            term: 1,
            base: &[0],
            ends: &[0],
            edges: &[],
            inputs: &[],
        }],
    ),
    (
        1,
        &[Come::Opening(1, 0, &[0]), Come::Piece(1, 0, 0, 0, 5, &[])],
        &[Leg {
            term: 1,
            base: &[0],
            ends: &[5],
            edges: &[],
            inputs: &[],
        }],
    ),
    (
        2,
        &[
            Come::Opening(1, 0, &[0, 0]),
            Come::Piece(1, 0, 0, 0, 5, &[Fact::Edge(2, 1, 3)]),
            Come::Piece(1, 1, 0, 0, 5, &[Fact::Edge(1, 0, 4)]),
        ],
        &[Leg {
            term: 1,
            base: &[0, 0],
            ends: &[5, 5],
            edges: &[(0, 2, 1, 3), (1, 1, 0, 4)],
            inputs: &[],
        }],
    ),
    (
        2,
        &[
            Come::Opening(2, 1, &[3, 4]),
            Come::Opening(1, 0, &[0, 0]),
            Come::Piece(1, 0, 0, 0, 3, &[Fact::Word(1, 17)]),
            Come::Piece(1, 1, 0, 0, 6, FIRST),
            Come::Piece(
                2,
                0,
                0,
                3,
                7,
                &[Fact::Edge(3, 1, 4), Fact::Edge(5, 1, 6), Fact::Word(6, 18)],
            ),
            Come::Piece(2, 1, 0, 4, 6, &[]),
            Come::Piece(2, 1, 1, 6, 9, &[Fact::Timer(6), Fact::Edge(7, 0, 8)]),
        ],
        &[
            Leg {
                term: 1,
                base: &[0, 0],
                ends: &[3, 4],
                edges: &[(1, 1, 0, 2)],
                inputs: &[
                    (0, 1, &[Fact::Word(1, 17)]),
                    (1, 2, &[Fact::Timer(2), Fact::Bell(2, 0)]),
                    (1, 4, &[]),
                ],
            },
            Leg {
                term: 2,
                base: &[3, 4],
                ends: &[7, 7],
                edges: &[(0, 5, 1, 6)],
                inputs: &[(0, 6, &[Fact::Word(6, 18)]), (1, 6, &[Fact::Timer(6)])],
            },
        ],
    ),
    (
        1,
        &[Come::Opening(1, 0, &[0]), Come::Piece(1, 0, 0, 0, 4, NINE)],
        &[Leg {
            term: 1,
            base: &[0],
            ends: &[4],
            edges: &[],
            inputs: &[(0, 2, EIGHT), (0, 3, &[Fact::Timer(3)])],
        }],
    ),
    (
        2,
        &[
            Come::Opening(2, 1, &[20, 20]),
            Come::Opening(1, 0, &[0, 0]),
            Come::Piece(1, 0, 0, 0, 18, &[]),
            Come::Piece(1, 1, 0, 0, 20, &[Fact::Edge(19, 0, 19)]),
            Come::Piece(2, 0, 0, 20, 30, &[]),
        ],
        &[Leg {
            term: 1,
            base: &[0, 0],
            ends: &[18, 19],
            edges: &[],
            inputs: &[],
        }],
    ),
];

const EIGHT: &[Fact] = &[Fact::Timer(2); 8];

const NINE: &[Fact] = &[
    Fact::Timer(2),
    Fact::Timer(2),
    Fact::Timer(2),
    Fact::Timer(2),
    Fact::Timer(2),
    Fact::Timer(2),
    Fact::Timer(2),
    Fact::Timer(2),
    Fact::Timer(3),
];

/// Whether these are all edges of a leg, by hart.
fn has_edges(leg: &PlannedLeg, edges: &[(u8, Count, u8, Count)]) -> bool {
    let mut next = 0usize;
    for number in 0..HART_LIMIT {
        for there in leg.edges.of_hart(hart(number)) {
            match edges.get(next) {
                Some((from, at, to, after)) if *there == edge(*from, *at, *to, *after) => {}
                _ => return false,
            }
            next = next.saturating_add(1);
        }
    }
    next == edges.len()
}

/// Whether these inputs are those of the records.
fn are_inputs(inputs: &[Input], wanted: &[Record]) -> bool {
    let mut rest = wanted;
    for input in inputs {
        match rest {
            [Record::Input(_, wanted), behind @ ..] if *input == *wanted => rest = behind,
            _ => return false,
        }
    }
    rest.is_empty()
}

/// Whether a leg gives a hart these inputs at a count, and no others.
fn gives(
    alloc: Global,
    leg: &PlannedLeg,
    (number, count, facts): (u8, Count, &[Fact]),
) -> Result<bool, Memory> {
    let wanted = records_of(alloc, number, facts)?;
    Ok(are_inputs(leg.inputs.at(hart(number), count), &wanted))
}

/// Whether a leg gives what it should.
fn gives_all(alloc: Global, leg: &PlannedLeg, want: &Leg) -> Result<bool, Memory> {
    for row in want.inputs {
        if !gives(alloc, leg, *row)? {
            return Ok(false);
        }
    }
    Ok(true)
}

/// Whether it begins and ends where it should, with its edges.
fn is_so(leg: &PlannedLeg, want: &Leg) -> bool {
    leg.term == want.term
        && leg.base.as_slice() == want.base
        && leg.edges.start() == leg.base
        && leg.ends.as_slice() == want.ends
        && has_edges(leg, want.edges)
}

/// Whether these are the legs.
fn are_so(alloc: Global, legs: &[PlannedLeg], wanted: &[Leg]) -> Result<bool, Memory> {
    let mut rest = wanted;
    for leg in legs {
        let [want, behind @ ..] = rest else {
            return Ok(false);
        };
        if !is_so(leg, want) || !gives_all(alloc, leg, want)? {
            return Ok(false);
        }
        rest = behind;
    }
    Ok(rest.is_empty())
}

/// Whether the plan of the row's store has its legs.
fn is_planned(alloc: Global, (harts, frames, legs): &Row) -> Result<bool, Fail> {
    let plan = plan_of(alloc, &store_of(alloc, guest_of(*harts), frames)?)?;
    Ok(plan.guest() == guest_of(*harts) && are_so(alloc, plan.legs(), legs)?)
}

#[test]
fn plans(rt: HostRuntime) -> Result<(), Fail> {
    let mut right = true;
    for row in &ROWS {
        right = right && is_planned(rt.alloc(), row)?;
    }
    assert!(rt; right);
    Ok(())
}

/// How many harts a store has, what comes to it, and what its plan knows to be out: of each hart below which number. In the second one a
/// note stands at the count that the second term begins with, and in the third one behind a piece that is missing.
static NOTES: [(u8, &[Come], &[Count]); 3] = [
    (
        1,
        &[
            Come::Opening(1, 0, &[0]),
            Come::Piece(1, 0, 0, 0, 5, &[Fact::Note(2, 1), Fact::Note(4, 3)]),
        ],
        &[3],
    ),
    (
        2,
        &[
            Come::Opening(2, 1, &[3, 4]),
            Come::Opening(1, 0, &[0, 0]),
            Come::Piece(1, 0, 0, 0, 5, &[Fact::Note(2, 1), Fact::Note(3, 2)]),
            Come::Piece(1, 1, 0, 0, 4, &[Fact::Note(3, 3)]),
            Come::Piece(2, 1, 0, 4, 6, &[Fact::Note(5, 1)]),
        ],
        &[1, 3],
    ),
    (
        1,
        &[
            Come::Opening(1, 0, &[0]),
            Come::Piece(1, 0, 1, 5, 9, &[Fact::Note(6, 2)]),
        ],
        &[0],
    ),
];

/// Whether the plan of a store knows that.
fn has_marks(alloc: Global, harts: u8, frames: &[Come], marks: &[Count]) -> Result<bool, Fail> {
    let plan = plan_of(alloc, &store_of(alloc, guest_of(harts), frames)?)?;
    Ok(plan.marks().as_slice() == marks)
}

#[test]
fn marks_of_plans(rt: HostRuntime) -> Result<(), Fail> {
    let mut right = true;
    for (harts, frames, marks) in &NOTES {
        right = right && has_marks(rt.alloc(), *harts, frames, marks)?;
    }
    assert!(rt; right);
    Ok(())
}

#[test]
fn laws_hold() {
    honest_plans::<u64, u64>();
    honest_primaries();
}
