//! Books whose harts are given inputs, and put out words.

use crate::guests::{COUNTS_ALOUD, LOOP};
use crate::plays::play_all;
use crate::rows::Heard::{Bell, Timer, Word};
use crate::rows::Row::{
    Ask, Begin, Counts, Discard, Edges, Given, Go, Lend, Offer, Out, Raise, Run, Settle, Waits,
};
use crate::rows::{AT_LIMIT, DONE, HALTED, Heard, Obeyed, Play, READ};
use fixtures::{RING_EACH_OTHER, SAYS_ITS_WORD};
use page_book::Keep::All;
use std::test::Fail;

const EIGHT_TIMERS: &[Heard] = &[Timer, Timer, Timer, Timer, Timer, Timer, Timer, Timer];

static HEARD: [Play; 7] = [
    Play {
        name: "nine timers at two counts",
        file: LOOP,
        limits: &[10],
        obeyed: None,
        alike: false,
        rows: &[
            Offer(0, 2, Timer),
            Offer(0, 2, Timer),
            Offer(0, 2, Timer),
            Offer(0, 2, Timer),
            Offer(0, 2, Timer),
            Offer(0, 2, Timer),
            Offer(0, 2, Timer),
            Offer(0, 2, Timer),
            Offer(0, 2, Timer),
            Run(0, 2),
            Run(0, 1),
            Run(0, 7),
            Lend(0, AT_LIMIT),
            Given(0, 1, &[], Some(2)),
            Given(0, 2, EIGHT_TIMERS, Some(3)),
            Given(0, 3, &[Timer], None),
        ],
    },
    Play {
        name: "a word is recorded where it was given",
        file: SAYS_ITS_WORD,
        limits: &[100],
        obeyed: None,
        alike: false,
        rows: &[
            Offer(0, 1, Word(42)),
            Run(0, 1),
            Run(0, 3),
            Lend(0, HALTED),
            Given(0, 0, &[], Some(1)),
            Given(0, 1, &[Word(42)], None),
            Out(0, &[(2, 42)]),
        ],
    },
    Play {
        name: "a replay hears what was recorded",
        file: SAYS_ITS_WORD,
        limits: &[4],
        obeyed: Some(Obeyed {
            edges: &[],
            inputs: &[(0, 1, Word(42))],
        }),
        alike: true,
        rows: &[Run(0, 1), Run(0, 3), Out(0, &[(2, 42)])],
    },
    Play {
        name: "what an ended lease had is the next one's",
        file: LOOP,
        limits: &[10],
        obeyed: None,
        alike: false,
        rows: &[
            Offer(0, 0, Word(7)),
            Lend(0, DONE),
            Discard(0, DONE),
            Offer(0, 0, Timer),
            Lend(0, DONE),
            Settle(0, All, DONE),
            Run(0, 1),
            Run(0, 9),
            Given(0, 0, &[Word(7)], Some(1)),
            Given(0, 1, &[Timer], None),
        ],
    },
    Play {
        name: "a hart refused at its limit goes on once that is raised",
        file: LOOP,
        limits: &[2],
        obeyed: None,
        alike: false,
        rows: &[
            Run(0, 2),
            Lend(0, AT_LIMIT),
            Raise(&[5]),
            Run(0, 3),
            Counts(&[5], 2),
        ],
    },
    Play {
        name: "a bell is heard after the step that rang it",
        file: RING_EACH_OTHER,
        limits: &[100, 100],
        obeyed: None,
        alike: false,
        rows: &[
            Run(1, 4),
            Lend(1, DONE),
            Go(1, 3, 2),
            Settle(1, All, DONE),
            Run(0, 4),
            Lend(1, DONE),
            Waits(1, &[(6, 0, 4)]),
            Go(1, 2, 1),
            Settle(1, All, DONE),
            Given(0, 0, &[Bell(1)], None),
            Given(1, 6, &[Bell(0)], None),
            Edges(0, &[(0, 1, 4)]),
            Edges(1, &[(6, 0, 4)]),
        ],
    },
    Play {
        name: "a bell that nobody heard waits in the next book",
        file: RING_EACH_OTHER,
        limits: &[100, 100],
        obeyed: None,
        alike: false,
        rows: &[
            Run(1, 4),
            Begin,
            Lend(0, DONE),
            Waits(0, &[(0, 1, 4)]),
            Go(0, 2, 1),
            Settle(0, All, DONE),
            Given(0, 0, &[Bell(1)], None),
            Edges(0, &[]),
            Edges(1, &[]),
        ],
    },
];

#[test]
fn inputs_come_where_they_are_due(rt: HostRuntime) -> Result<(), Fail> {
    play_all(rt.alloc(), &HEARD)
}

static PUT_OUT: [Play; 3] = [
    Play {
        name: "outputs of leases stand in the order of their steps",
        file: COUNTS_ALOUD,
        limits: &[100],
        obeyed: None,
        alike: false,
        rows: &[
            Lend(0, DONE),
            Ask(0, 0, READ, 0),
            Go(0, 6, 6),
            Settle(0, All, DONE),
            Out(0, &[(2, 1), (5, 2)]),
            Lend(0, DONE),
            Ask(0, 0, READ, 0),
            Go(0, 3, 3),
            Settle(0, All, DONE),
            Out(0, &[(2, 1), (5, 2), (8, 3)]),
            Lend(0, DONE),
            Ask(0, 0, READ, 0),
            Go(0, 1, 1),
            Settle(0, All, DONE),
            Out(0, &[(2, 1), (5, 2), (8, 3)]),
            Lend(0, DONE),
            Ask(0, 0, READ, 0),
            Go(0, 2, 2),
            Settle(0, All, DONE),
            Out(0, &[(2, 1), (5, 2), (8, 3), (11, 4)]),
        ],
    },
    Play {
        name: "one lease of as many steps leads to the same",
        file: COUNTS_ALOUD,
        limits: &[100],
        obeyed: None,
        alike: true,
        rows: &[
            Lend(0, DONE),
            Ask(0, 0, READ, 0),
            Go(0, 12, 12),
            Settle(0, All, DONE),
            Out(0, &[(2, 1), (5, 2), (8, 3), (11, 4)]),
        ],
    },
    Play {
        name: "a discarded lease leaves no output",
        file: COUNTS_ALOUD,
        limits: &[100],
        obeyed: None,
        alike: false,
        rows: &[
            Lend(0, DONE),
            Ask(0, 0, READ, 0),
            Go(0, 3, 3),
            Settle(0, All, DONE),
            Lend(0, DONE),
            Ask(0, 0, READ, 0),
            Go(0, 6, 6),
            Discard(0, DONE),
            Out(0, &[(2, 1)]),
            Lend(0, DONE),
            Ask(0, 0, READ, 0),
            Go(0, 3, 3),
            Settle(0, All, DONE),
            Out(0, &[(2, 1), (5, 2)]),
        ],
    },
];

#[test]
fn outputs_stay_when_their_hart_goes_out(rt: HostRuntime) -> Result<(), Fail> {
    play_all(rt.alloc(), &PUT_OUT)
}
