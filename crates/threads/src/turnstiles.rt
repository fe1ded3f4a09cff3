//! Turnstiles that see how harts go, on threads of their own or alone, and hold each hart's second lease up until all have come to
//! theirs.

use crate::followers::follows_to;
use crate::runs::{in_turn, leads, leads_on_threads, on_threads};
use fixtures::{image_of, key, opening_of, piece_of};
use ft_types::{Count, Hart, HartSet, Memory, Term};
use guest_image::Image;
use hart_threads::Turnstile;
use log_join::Store;
use log_streams::Budget;
use std::alloc::Global;
use std::sync::Wait;
use std::sync::atomic::{AtomicU64, Ordering};
use std::test::Fail;
use std::thread;
use std::thread::Threads;

/// One hart adds 1 to a word 600 times, and halts after 1,805 steps.
const ALONE: &[u8] =
    b"harts 1\npages 2\n800010b7\n25800113\n00100193\n0030a02f\nfff10113\nfe011ce3\nf0000237\n00022a23\n";

/// Four harts add 1 to one word 10,000 times each, and halt after 30,006 steps.
const FOUR: &[u8] =
    b"harts 4\npages 2\n800010b7\n00002137\n71010113\n00100193\n0030a02f\nfff10113\nfe011ce3\nf0000237\n00022a23\n";

/// Four harts count from 1,500 down to 1 and put each number out, and halt after 4,503 steps. None waits for another.
const APART: &[u8] =
    b"harts 4\npages 1\nf00000b7\n5dc00113\n0020a423\nfff10113\nfe011ce3\n0000aa23\n";

/// Sees the calls of up to four harts, in a leg or in several.
#[derive(Drop)]
struct Watch {
    harts: usize,
    legs: AtomicU64,
    begun: [AtomicU64; 4],
    settled: [AtomicU64; 4],
    counts: [AtomicU64; 4],
    met: AtomicU64,
    strays: AtomicU64,
}

/// What was seen: how many leases a hart that is alone began in the last leg, how many harts were at the second lease of a leg when each had come
/// to its own, how many calls were out of order, the least and the greatest count at which a hart's last lease was settled, and how many legs
/// the harts began, all of them together.
type Seen = [u64; 6];

fn zeros() -> [AtomicU64; 4] {
    [
        AtomicU64::new(0),
        AtomicU64::new(0),
        AtomicU64::new(0),
        AtomicU64::new(0),
    ]
}

impl Watch {
    /// Nobody has come.
    fn new(harts: u8) -> Watch {
        Watch {
            harts: usize::from(harts),
            legs: AtomicU64::new(0),
            begun: zeros(),
            settled: zeros(),
            counts: zeros(),
            met: AtomicU64::new(0),
            strays: AtomicU64::new(0),
        }
    }

    fn saw(&self) -> Seen {
        let mut least = u64::MAX;
        let mut greatest = 0u64;
        let mut place = 0usize;
        for count in &self.counts {
            if place < self.harts {
                least = least.min(count.load(Ordering::SeqCst));
                greatest = greatest.max(count.load(Ordering::SeqCst));
            }
            place = place.saturating_add(1);
        }
        let leases = if self.harts == 1 {
            self.begun[0].load(Ordering::SeqCst)
        } else {
            0
        };
        let met = self.met.load(Ordering::SeqCst);
        [
            leases,
            met,
            self.strays.load(Ordering::SeqCst),
            least,
            greatest,
            self.legs.load(Ordering::SeqCst),
        ]
    }

    fn stray(&self) {
        self.strays.fetch_add(1, Ordering::SeqCst);
    }

    /// The hart begins a leg. All its leases of the one before are settled.
    fn begin_leg(&self, hart: Hart) {
        let place = hart.index() % 4;
        let begun = self.begun[place].swap(0, Ordering::SeqCst);
        if self.settled[place].swap(0, Ordering::SeqCst) != begun {
            self.stray();
        }
        self.legs.fetch_add(1, Ordering::SeqCst);
    }

    fn all_came(&self) -> bool {
        let mut place = 0usize;
        for begun in &self.begun {
            if place < self.harts && begun.load(Ordering::SeqCst) < 2 {
                return false;
            }
            place = place.saturating_add(1);
        }
        true
    }

    /// Waits for the others, but not for ever.
    fn meet(&self) {
        for _turn in 0..1000000u32 {
            if self.all_came() {
                self.met.fetch_add(1, Ordering::SeqCst);
                return;
            }
            thread::yield_now();
        }
    }
}

impl Turnstile for Watch {
    fn before_lease(&self, hart: Hart, number: u64) {
        let place = hart.index() % 4;
        if number == 1 {
            self.begin_leg(hart);
        }
        let begun = self.begun[place].load(Ordering::SeqCst);
        if number != begun.wrapping_add(1) || self.settled[place].load(Ordering::SeqCst) != begun {
            self.stray();
        }
        self.begun[place].store(number, Ordering::SeqCst);
        if number == 2 {
            self.meet();
        }
    }

    fn after_settle(&self, hart: Hart, count: Count) {
        let place = hart.index() % 4;
        let begun = self.begun[place].load(Ordering::SeqCst);
        let last = self.counts[place].swap(count, Ordering::SeqCst);
        if count <= last || self.settled[place].swap(begun, Ordering::SeqCst) == begun {
            self.stray();
        }
    }
}

/// Whether the log of a run to this budget leads to its machine on threads, in turn and by a follower.
fn run_leads<R: Threads + Wait + Sync>(
    rt: &R,
    alloc: Global,
    image: &Image,
    budget: Budget,
    watch: &Watch,
) -> Result<bool, Memory> {
    let left = on_threads(rt, alloc, image, budget, watch, HartSet::new())?;
    if !follows_to(alloc, image, &left.1, &left.0)? {
        return Ok(false);
    }
    leads(rt, alloc, image, &left)
}

/// Puts the frames of a term in which each hart goes on from one count to another.
fn put_term(
    alloc: Global,
    store: &mut Store,
    term: Term,
    from: Count,
    to: Count,
) -> Result<(), Fail> {
    let guest = store.guest();
    let base = [from; 4];
    let base = base.get(..usize::from(guest.harts())).unwrap_or(&[]);
    let _put = store.put(opening_of(guest, term, term.saturating_sub(1), base)?)?;
    for hart in 0..guest.harts() {
        let _put = store.put(piece_of(alloc, guest, key(term, hart, 0), from, to, &[])?)?;
    }
    Ok(())
}

/// A store of harts that wait for none, in a term to one count, and in another from there to the end.
fn in_two_terms(alloc: Global, image: &Image, middle: Count, end: Count) -> Result<Store, Fail> {
    let mut store = Store::new(alloc, image.guest());
    put_term(alloc, &mut store, 1, 0, middle)?;
    put_term(alloc, &mut store, 2, middle, end)?;
    Ok(store)
}

/// Of a replay of what harts did in turn, as if a primary had failed when each hart was at the first count: its log ends at the second one.
type Terms = Option<(Count, Count)>;

/// Whether a replay of what harts did in turn comes to their machine.
fn replay_leads<R: Threads + Wait + Sync>(
    rt: &R,
    alloc: Global,
    image: &Image,
    budget: Budget,
    terms: Terms,
    watch: &Watch,
) -> Result<bool, Fail> {
    let (machine, mut store) = in_turn(alloc, image, budget)?;
    if let Some((middle, end)) = terms {
        store = in_two_terms(alloc, image, middle, end)?;
    }
    Ok(leads_on_threads(rt, alloc, image, &store, &machine, watch)?)
}

/// A guest and its budget; whether it runs, else it is a replay; and what is seen. Where harts come to their end by leases that the turnstile saw,
/// nothing was left to be done in turn.
type Row = (&'static [u8], u32, bool, Terms, Seen);

/// Whether that is seen of such a run or replay, and its log leads where it is to.
fn is_seen<R: Threads + Wait + Sync>(rt: &R, alloc: Global, row: &Row) -> Result<bool, Fail> {
    let (file, steps, runs, terms, seen) = *row;
    let budget = Budget::new(Count::from(steps));
    let image = image_of(alloc, file)?;
    let watch = Watch::new(image.harts());
    let leads = if runs {
        run_leads(rt, alloc, &image, budget, &watch)?
    } else {
        replay_leads(rt, alloc, &image, budget, terms, &watch)?
    };
    Ok(leads && watch.saw() == seen)
}

static ROWS: [Row; 9] = [
    (ALONE, 5000, true, None, [2, 1, 0, 1805, 1805, 1]),
    (ALONE, 1000, true, None, [1, 0, 0, 1000, 1000, 1]),
    (ALONE, 0, true, None, [0; 6]),
    (ALONE, 5000, false, None, [2, 1, 0, 1805, 1805, 1]),
    (ALONE, 1000, false, None, [1, 0, 0, 1000, 1000, 1]),
    (
        ALONE,
        5000,
        false,
        Some((500, 1805)),
        [2, 1, 0, 1805, 1805, 2],
    ),
    (FOUR, 100_000, true, None, [0, 4, 0, 30006, 30006, 4]),
    (FOUR, 100_000, false, None, [0, 4, 0, 30006, 30006, 4]),
    (
        APART,
        5000,
        false,
        Some((2100, 4503)),
        [0, 8, 0, 4503, 4503, 8],
    ),
];

#[test]
fn each_hart_goes_through_its_turnstile(rt: HostRuntime) -> Result<(), Fail> {
    let mut right = true;
    for row in &ROWS {
        right = right && is_seen(&rt, rt.alloc(), row)?;
    }
    assert!(rt; right);
    Ok(())
}
