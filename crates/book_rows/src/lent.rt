//! Books over machines that run: who is lent, who waits, and whose a lease is.

use crate::guests::{LOOPS, STORES_AND_HALTS};
use crate::plays::play_all;
use crate::rows::Row::{
    Ask, Counts, Discard, Go, Lend, Raise, Run, Settle, Stands, Trade, Turn, Waits,
};
use crate::rows::{AT_LIMIT, DONE, EDGE_OPEN, FOREIGN, HALTED, LEASED, Obeyed, Play, READ, WRITE};
use fixtures::{BOTH_STORE, TWO_LOOPS};
use page_book::Keep::{All, Nothing};
use std::test::Fail;

const FREE: Option<Obeyed> = Some(Obeyed {
    edges: &[],
    inputs: &[],
});

static LENT: [Play; 8] = [
    // Six steps, of which two ask for the page: to fetch, and to store.
    Play {
        name: "one lease runs to the halt",
        file: STORES_AND_HALTS,
        limits: &[100],
        obeyed: FREE,
        alike: false,
        rows: &[
            Lend(0, DONE),
            Go(0, 7, 5),
            Go(0, 1, 6),
            Go(0, 9, 6),
            Settle(0, All, DONE),
            Lend(0, HALTED),
            Counts(&[6], 1),
        ],
    },
    Play {
        name: "a hart is lent once and to its end",
        file: TWO_LOOPS,
        limits: &[3, 0],
        obeyed: FREE,
        alike: false,
        rows: &[
            Lend(1, AT_LIMIT),
            Lend(0, DONE),
            Lend(0, LEASED),
            Go(0, 9, 3),
            Settle(0, All, DONE),
            Lend(0, AT_LIMIT),
            Counts(&[3, 0], 1),
        ],
    },
    Play {
        name: "a hart waits where an edge is open",
        file: BOTH_STORE,
        limits: &[4, 4],
        obeyed: Some(Obeyed {
            edges: &[(1, (1, 0, 4))],
            inputs: &[],
        }),
        alike: false,
        rows: &[
            Run(1, 1),
            Lend(1, EDGE_OPEN),
            Run(0, 4),
            Run(1, 3),
            Lend(1, HALTED),
            Counts(&[4, 4], 3),
        ],
    },
    // It has its steps then, and its own book takes it.
    Play {
        name: "a lease of another book comes back",
        file: STORES_AND_HALTS,
        limits: &[100],
        obeyed: FREE,
        alike: false,
        rows: &[
            Lend(0, DONE),
            Go(0, 9, 6),
            Trade,
            Turn,
            Settle(0, Nothing, FOREIGN),
            Go(0, 9, 6),
            Turn,
            Trade,
            Discard(0, DONE),
            Lend(0, DONE),
            Counts(&[0], 0),
        ],
    },
    Play {
        name: "a page that is written is held",
        file: TWO_LOOPS,
        limits: &[9, 9],
        obeyed: FREE,
        alike: false,
        rows: &[
            Lend(0, DONE),
            Ask(0, 0, WRITE, 0),
            Lend(1, DONE),
            Ask(1, 0, READ, 1),
            Discard(1, DONE),
            Discard(0, DONE),
        ],
    },
    Play {
        name: "readers share, and a writer waits for all of them",
        file: TWO_LOOPS,
        limits: &[9, 9],
        obeyed: FREE,
        alike: false,
        rows: &[
            Lend(0, DONE),
            Lend(1, DONE),
            Ask(0, 0, READ, 0),
            Ask(1, 0, READ, 0),
            Ask(0, 0, WRITE, 2),
            Discard(1, DONE),
            Ask(0, 0, WRITE, 0),
            Discard(0, DONE),
        ],
    },
    Play {
        name: "a lease says how far it is",
        file: LOOPS,
        limits: &[1, 3, 0],
        obeyed: None,
        alike: false,
        rows: &[
            Raise(&[2, 1, 0]),
            Lend(0, DONE),
            Ask(0, 0, READ, 0),
            Go(0, 1, 1),
            Stands(0, [1, 2, 1]),
            Waits(0, &[]),
        ],
    },
    Play {
        name: "a limit is raised and never lowered",
        file: LOOPS,
        limits: &[1, 3, 0],
        obeyed: None,
        alike: false,
        rows: &[
            Raise(&[2, 1, 0]),
            Lend(0, DONE),
            Ask(0, 0, READ, 0),
            Go(0, 1, 1),
            Settle(0, All, DONE),
            Run(0, 1),
            Run(1, 3),
            Lend(0, AT_LIMIT),
            Lend(1, AT_LIMIT),
            Lend(2, AT_LIMIT),
            Counts(&[2, 3, 0], 3),
        ],
    },
];

#[test]
fn each_call_of_a_lease_answers_as_is_said(rt: HostRuntime) -> Result<(), Fail> {
    play_all(rt.alloc(), &LENT)
}
