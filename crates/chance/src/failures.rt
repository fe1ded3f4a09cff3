//! Primaries that fail one after the other, of whose frames each keeper lost some.

use crate::again::machine_at;
use crate::calls::make_many;
use crate::starts::{deliver, image_in, opens, recorder_of};
use fixtures::{Crew, Dice, cut, file_of};
use fragment_codec::Frame;
use ft_types::{Count, Counts, HART_ROW, Keeper, Memory, Term};
use go_live::{Live, go_live};
use guest_image::{Image, Machine};
use log_join::Store;
use log_pieces::Sealed;
use page_book::{Book, Recording};
use std::alloc::Global;
use std::test::Fail;

/// lui x1, 80001; lui x4, f0000; csrrs x5, mhartid, x0; andi x5, x5, -2. Then round and round: addi x3, x3, 3;
/// amoadd.w x2, x3, (x1); add x3, x3, x2; lw x6, 4(x1); add x6, x6, x3; sw x6, 4(x1); sw x3, 8(x4), an output;
/// lw x2, 0(x4), the input word; add x3, x3, x2; sw x5, 16(x4), which rings a hart: harts share two words, put out what they read,
/// and ring one another.
static TALKS: &[u8] = b"800010b7\nf0000237\nf14022f3\nffe2f293\n\
00318193\n0030a12f\n002181b3\n0040a303\n00330333\n0060a223\n00322423\n00022103\n002181b3\n00522823\nfd9ff06f\n";

/// No hart comes so far.
const FAR: Count = 1_000_000;

/// How many primaries that went live began with all that the term before recorded, with a part of it, and with what an older term
/// recorded or at boot.
type Tally = [u32; 3];

/// A term: the counts and the machine with which it began, and what it recorded from there.
#[derive(Drop)]
struct Past {
    base: Counts,
    start: Machine,
    book: Book<Recording>,
}

/// A guest, the stores of its three keepers, of which two must hold an output, its terms, and chance.
#[derive(Drop)]
struct World {
    image: Image,
    first: Store,
    second: Store,
    third: Store,
    pasts: Vec<Past>,
    dice: Dice,
    tally: Tally,
}

/// The frame comes to a keeper's store, or is lost on the way.
fn scatter_to(
    dice: &mut Dice,
    alloc: Global,
    store: &mut Store,
    frame: &Frame,
) -> Result<(), Memory> {
    if dice.roll() % 3 == 0 {
        return Ok(());
    }
    deliver(alloc, store, frame)
}

/// The primary of the term from the stores of two of three keepers.
fn live_from(
    alloc: Global,
    image: &Image,
    stores: &[(Keeper, &Store)],
    term: Term,
) -> Result<Live, Memory> {
    match go_live(alloc, image, stores, 3, 2, term) {
        Ok(live) => Ok(live),
        Err(_) => Err(Memory),
    }
}

/// Whether the primary's book is where it goes on, nothing is recorded in it, and no hart may go on.
fn is_unused(live: &Live) -> bool {
    let base = live.opening.base();
    let book = &live.book;
    book.counts() == base && book.limits() == base && book.journal().is_empty()
}

/// Limits of so many harts that no hart comes to.
fn far(harts: u8) -> Option<Counts> {
    Counts::from_slice([FAR; HART_ROW].get(..usize::from(harts))?)
}

/// Each hart of the book may go on.
fn raise(book: &mut Book<Recording>) {
    let harts = book.machine().harts();
    match far(harts) {
        Some(limits) if limits.harts() == harts => book.limit_to(limits),
        _ => {}
    }
}

impl World {
    fn new(alloc: Global, harts: u8, seed: u64) -> Result<World, Memory> {
        let image = image_in(alloc, &file_of(alloc, harts, 2, TALKS)?)?;
        let guest = image.guest();
        Ok(World {
            image,
            first: Store::new(alloc, guest),
            second: Store::new(alloc, guest),
            third: Store::new(alloc, guest),
            pasts: Vec::new(alloc),
            dice: Dice::new(seed),
            tally: [0; 3],
        })
    }

    /// The term that comes next.
    fn next_term(&self) -> Term {
        u32::try_from(self.pasts.len())
            .unwrap_or(0)
            .saturating_add(1)
    }

    /// The frame comes to each keeper, or is lost on the way to it.
    fn scatter(&mut self, alloc: Global, frame: &Frame) -> Result<(), Memory> {
        scatter_to(&mut self.dice, alloc, &mut self.first, frame)?;
        scatter_to(&mut self.dice, alloc, &mut self.second, frame)?;
        scatter_to(&mut self.dice, alloc, &mut self.third, frame)
    }

    fn scatter_all(&mut self, alloc: Global, frames: &[Frame]) -> Result<(), Memory> {
        for frame in frames {
            self.scatter(alloc, frame)?;
        }
        Ok(())
    }

    /// What a primary did behind what is sealed is cut and sent.
    fn send(
        &mut self,
        alloc: Global,
        book: &Book<Recording>,
        sealed: &mut Sealed,
    ) -> Result<(), Memory> {
        let pieces = cut(alloc, self.image.guest(), book, self.next_term(), sealed)?;
        self.scatter_all(alloc, &pieces)
    }

    /// Calls of a primary, which are cut and sent three times.
    fn record(
        &mut self,
        alloc: Global,
        crew: &mut Crew<Recording>,
        base: Counts,
    ) -> Result<(), Memory> {
        let mut sealed = Sealed::new(base);
        for _cut in 0..3 {
            make_many(crew, alloc, 100, true, &mut self.dice);
            self.send(alloc, &crew.book, &mut sealed)?;
        }
        Ok(())
    }

    /// What a primary records from here on, until it fails.
    fn failed(
        &mut self,
        alloc: Global,
        book: Book<Recording>,
    ) -> (Book<Recording>, Result<(), Memory>) {
        let base = book.counts();
        let mut crew = Crew::new(book);
        let recorded = self.record(alloc, &mut crew, base);
        (crew.end(), recorded)
    }

    /// A term of a book, until it fails.
    fn term(&mut self, alloc: Global, book: Book<Recording>) -> Result<(), Memory> {
        let base = book.counts();
        let start = book.machine().copy()?;
        let (book, recorded) = self.failed(alloc, book);
        self.pasts.push(Past { base, start, book })?;
        recorded
    }

    fn first_term(&mut self, alloc: Global) -> Result<(), Memory> {
        let base = Counts::zero(self.image.harts());
        let opening = opens(self.image.guest(), 1, 0, base)?;
        self.scatter(alloc, &opening)?;
        let book = recorder_of(alloc, &self.image, FAR)?;
        self.term(alloc, book)
    }

    /// The next primary goes live from the stores of two of the three keepers.
    fn live(&self, alloc: Global, lost: u8) -> Result<Live, Memory> {
        let term = self.next_term();
        let (first, second, third) = (&self.first, &self.second, &self.third);
        let stores = match lost {
            0 => [(Keeper::new(1), second), (Keeper::new(2), third)],
            1 => [(Keeper::new(2), third), (Keeper::new(0), first)],
            _ => [(Keeper::new(0), first), (Keeper::new(1), second)],
        };
        live_from(alloc, &self.image, &stores, term)
    }

    /// Two of the three keepers are there, and the next primary goes live.
    fn grant(&mut self, alloc: Global) -> Result<Live, Memory> {
        let lost = self.dice.roll() % 3;
        self.live(alloc, lost)
    }

    /// The machine that the terms recorded where the opening goes on.
    fn recorded_at(&self, alloc: Global, parent: Term, base: Counts) -> Result<Machine, Memory> {
        if parent == 0 {
            return Machine::boot(alloc, &self.image);
        }
        match self.pasts.get(parent as usize - 1) {
            Some(past) => machine_at(alloc, &past.start, &past.book, past.base, base),
            None => Err(Memory),
        }
    }

    /// Whether a primary begins with what was recorded, and nothing is recorded yet.
    fn is_right(&self, alloc: Global, live: &Live) -> Result<bool, Memory> {
        let machine = self.recorded_at(alloc, live.opening.parent(), live.opening.base())?;
        Ok(is_unused(live) && machine.same(live.book.machine()))
    }

    /// With what the primary begins, by its place in the tally.
    fn begins_with(&self, live: &Live) -> usize {
        match self.pasts.last() {
            Some(past) if live.opening.parent() as usize == self.pasts.len() => {
                if live.opening.base() == past.book.counts() {
                    0
                } else {
                    1
                }
            }
            _ => 2,
        }
    }

    /// Counts with what the primary begins.
    fn count(&mut self, live: &Live) {
        let place = self.begins_with(live);
        if let Some(many) = self.tally.get_mut(place) {
            *many = many.saturating_add(1);
        }
    }

    /// A primary goes on until it fails again.
    fn go_on(&mut self, alloc: Global, live: Live) -> Result<(), Memory> {
        let Live {
            mut book,
            opening,
            outputs: _,
            marks: _,
        } = live;
        raise(&mut book);
        let sent = self.scatter(alloc, &Frame::Opening(opening));
        let went = self.term(alloc, book);
        sent.and(went)
    }

    /// The next primary goes live and fails again. Whether it begins with what was recorded.
    fn next_fails(&mut self, alloc: Global) -> Result<bool, Memory> {
        let live = self.grant(alloc)?;
        let right = self.is_right(alloc, &live);
        self.count(&live);
        let went = self.go_on(alloc, live);
        match (right, went) {
            (Ok(true), Err(Memory)) => Err(Memory),
            _ => right,
        }
    }

    /// A primary fails, and the next one, and the one after it, and one more. Whether each begins with what was recorded.
    fn all_fail(&mut self, alloc: Global) -> Result<bool, Memory> {
        self.first_term(alloc)?;
        for _term in 2..5u32 {
            if !self.next_fails(alloc)? {
                return Ok(false);
            }
        }
        Ok(true)
    }
}

/// Where the primaries of a world began, if each began with what was recorded.
fn begun_in(alloc: Global, harts: u8, seed: u64) -> Result<Option<Tally>, Memory> {
    let mut world = World::new(alloc, harts, seed)?;
    let right = world.all_fail(alloc);
    let tally = world.tally;
    match right {
        Ok(true) => Ok(Some(tally)),
        Ok(false) => Ok(None),
        Err(Memory) => Err(Memory),
    }
}

#[test]
fn each_primary_begins_with_what_was_recorded(rt: HostRuntime) -> Result<(), Fail> {
    let mut tally = [0u32; 3];
    for harts in [2, 3, 4] {
        for seed in 1..9u64 {
            let seed = seed * 0x9e37_79b9 + u64::from(harts);
            let seen = match begun_in(rt.alloc(), harts, seed) {
                Ok(seen) => seen,
                Err(Memory) => begun_in(rt.alloc(), harts, seed)?,
            };
            let Some(seen) = seen else {
                return Err("another machine".into());
            };
            for kind in 0..3 {
                tally[kind] = tally[kind].saturating_add(seen[kind]);
            }
        }
    }
    assert!(rt; tally[0] > 0 && tally[1] > 0 && tally[2] > 0);
    Ok(())
}
