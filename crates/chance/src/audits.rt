//! Audits of what guests recorded by chance, of which one edge is changed or none; and audits that are refused.

use crate::calls::make_many;
use crate::changes::changed;
use crate::starts::{deliver, image_in, opens, recorder_from, recorder_of};
use crate::verdicts::{
    COVERED, STUCK, STUCK_UNCOVERED, Tally, UNCOVERED, UNLIKE, Verdict, verdict_of,
};
use closed_cut::position;
use fixtures::{BOTH_STORE, Crew, Dice, Rounds, TWO_LOOPS, cut, edge, hart, key, offer};
use fragment_codec::{Fragment, Frame, Record};
use ft_types::{Counts, Guest, HART_LIMIT, Memory, PageNo, Term};
use guest_image::{Image, Machine};
use hart_replay::{Plan, ReplayFault, plan};
use input_log::Input;
use log_audit::{AuditFault, audit};
use log_join::Store;
use log_pieces::Sealed;
use page_book::{Book, Recording};
use std::alloc::Global;
use std::test::Fail;

/// Before the loop: lui x1, 80001; lui x4, f0000; csrrs x5, mhartid, x0; andi x5, x5, -2; lui x6, 80002. In the loop lw x2, 0(x1);
/// sw x2, 0(x1); lw x3, 4(x1); lw x7, 0(x6); sw x7, 0(x6); amoadd.w x3, x2, (x1); add x2, x2, x3; addi x3, x3, 1; sw x2, 8(x4),
/// an output; lw x2, 0(x4), the input word; sw x5, 16(x4), which rings; addi x7, x7, 1. Each step uses the same pages, whatever was
/// loaded before.
static TWO_SHARED_PAGES: Rounds = Rounds {
    pages: 3,
    front: b"800010b7\nf0000237\nf14022f3\nffe2f293\n80002337\n",
    words: &[
        b"0000a103\n",
        b"0020a023\n",
        b"0040a183\n",
        b"00032383\n",
        b"00732023\n",
        b"0020a1af\n",
        b"00310133\n",
        b"00118193\n",
        b"00222423\n",
        b"00022103\n",
        b"00522823\n",
        b"00138393\n",
    ],
};

fn guest_by(alloc: Global, harts: u8, dice: &mut Dice) -> Result<Image, Memory> {
    image_in(alloc, &TWO_SHARED_PAGES.file(alloc, harts, dice)?)
}

/// Offers each hart timers and words by chance.
fn offer_all(book: &mut Book<Recording>, dice: &mut Dice) {
    for number in 0..HART_LIMIT {
        offer(book, hart(number), u64::from(dice.roll()), Input::Timer);
        for _word in 0..4 {
            let word = Input::Word(u32::from(dice.roll()));
            offer(book, hart(number), u64::from(dice.roll() % 64), word);
        }
    }
}

/// The book after some hundred calls for each hart, with what is offered by chance.
fn ran(alloc: Global, mut book: Book<Recording>, dice: &mut Dice) -> Book<Recording> {
    offer_all(&mut book, dice);
    let mut crew = Crew::new(book);
    let calls = 100 * u32::from(crew.book.machine().harts());
    make_many(&mut crew, alloc, calls, false, dice);
    crew.end()
}

/// What a guest records from boot.
fn recorded(alloc: Global, image: &Image, dice: &mut Dice) -> Result<Book<Recording>, Memory> {
    Ok(ran(alloc, recorder_of(alloc, image, 60)?, dice))
}

/// What it records from this machine on.
fn recorded_on(
    alloc: Global,
    machine: &Machine,
    dice: &mut Dice,
) -> Result<Book<Recording>, Memory> {
    Ok(ran(alloc, recorder_from(alloc, machine.copy()?, 120)?, dice))
}

fn deliver_all(alloc: Global, store: &mut Store, frames: &[Frame]) -> Result<(), Memory> {
    for frame in frames {
        deliver(alloc, store, frame)?;
    }
    Ok(())
}

/// Puts a term of the book's log, which goes on from the one before.
fn put_log(
    alloc: Global,
    store: &mut Store,
    book: &Book<Recording>,
    (term, base): (Term, Counts),
) -> Result<(), Memory> {
    let guest = store.guest();
    let opening = opens(guest, term, term.saturating_sub(1), base)?;
    deliver(alloc, store, &opening)?;
    let pieces = cut(alloc, guest, book, term, &mut Sealed::new(base))?;
    deliver_all(alloc, store, &pieces)
}

/// The plan of the store.
fn planned(alloc: Global, store: &Store) -> Result<Plan, Memory> {
    let reached = position(alloc, store)?;
    match plan(alloc, store, &reached) {
        Ok(plan) => Ok(plan),
        Err(_) => Err(Memory),
    }
}

/// Whether the audit of a plan comes to this machine.
fn comes_to(alloc: Global, image: &Image, plan: &Plan, machine: &Machine) -> Result<bool, Memory> {
    match audit(alloc, image, plan) {
        Ok(found) => Ok(found.same(machine)),
        Err(AuditFault::Replay(ReplayFault::Memory)) => Err(Memory),
        Err(_) => Ok(false),
    }
}

/// Whether the audit of a store of what the book recorded comes to the book's machine, where it began a term at this base.
fn leads_to(
    alloc: Global,
    image: &Image,
    store: &mut Store,
    book: &Book<Recording>,
    begun: (Term, Counts),
) -> Result<bool, Memory> {
    put_log(alloc, store, book, begun)?;
    let plan = planned(alloc, store)?;
    comes_to(alloc, image, &plan, book.machine())
}

/// Whether the audit of what the guest of this book goes on to record in a second term comes to its machine.
fn leads_on(
    alloc: Global,
    image: &Image,
    store: &mut Store,
    first: &Book<Recording>,
    dice: &mut Dice,
) -> Result<bool, Memory> {
    let next = recorded_on(alloc, first.machine(), dice)?;
    leads_to(alloc, image, store, &next, (2, first.counts()))
}

/// Whether the audit of what the book recorded comes to its machine, and that of a second term too, if it is to be.
fn both_lead(
    alloc: Global,
    image: &Image,
    store: &mut Store,
    book: &Book<Recording>,
    dice: &mut Dice,
    in_two: bool,
) -> Result<bool, Memory> {
    let leads = leads_to(alloc, image, store, book, (1, Counts::zero(image.harts())))?;
    if leads && in_two {
        leads_on(alloc, image, store, book, dice)
    } else {
        Ok(leads)
    }
}

/// The same of what the guest of an image records.
fn is_covered_of(
    alloc: Global,
    image: &Image,
    dice: &mut Dice,
    in_two: bool,
) -> Result<bool, Memory> {
    let book = recorded(alloc, image, dice)?;
    let mut store = Store::new(alloc, image.guest());
    both_lead(alloc, image, &mut store, &book, dice, in_two)
}

/// The same of a guest by chance.
fn is_covered(alloc: Global, harts: u8, seed: u64, in_two: bool) -> Result<bool, Memory> {
    let mut dice = Dice::new(seed);
    let image = guest_by(alloc, harts, &mut dice)?;
    is_covered_of(alloc, &image, &mut dice, in_two)
}

/// The same, once more where memory was refused.
fn is_covered_again(alloc: Global, harts: u8, seed: u64, in_two: bool) -> Result<bool, Fail> {
    match is_covered(alloc, harts, seed, in_two) {
        Ok(covered) => Ok(covered),
        Err(Memory) => Ok(is_covered(alloc, harts, seed, in_two)?),
    }
}

/// The first guest whose recorded log is not covered, by its harts and its seed. The first three seeds go on in a second term.
fn first_uncovered(alloc: Global) -> Result<Option<(u8, u64)>, Fail> {
    for harts in 2..9u8 {
        for seed in 1..6u64 {
            if !is_covered_again(alloc, harts, seed, seed < 4)? {
                return Ok(Some((harts, seed)));
            }
        }
    }
    Ok(None)
}

#[test]
fn what_is_recorded_is_covered(rt: HostRuntime) -> Result<(), Fail> {
    assert_eq!(rt; first_uncovered(rt.alloc())?, None);
    Ok(())
}

/// The pieces of what a guest records in term 1.
fn pieces_recorded(alloc: Global, image: &Image, dice: &mut Dice) -> Result<Vec<Frame>, Memory> {
    let book = recorded(alloc, image, dice)?;
    let mut sealed = Sealed::new(Counts::zero(image.harts()));
    cut(alloc, image.guest(), &book, 1, &mut sealed)
}

/// The plan of a store to which the opening of term 1 comes, and these pieces of it.
fn plan_with(alloc: Global, store: &mut Store, pieces: &[Frame]) -> Result<Plan, Memory> {
    deliver_all(alloc, store, pieces)?;
    let guest = store.guest();
    let opening = opens(guest, 1, 0, Counts::zero(guest.harts()))?;
    deliver(alloc, store, &opening)?;
    planned(alloc, &*store)
}

/// The plan of these pieces of term 1.
fn plan_of(alloc: Global, guest: Guest, pieces: &[Frame]) -> Result<Plan, Memory> {
    let mut store = Store::new(alloc, guest);
    plan_with(alloc, &mut store, pieces)
}

/// What both audits say of what the guest of an image recorded, where one edge is taken out, and maybe another one is of later steps.
fn verdict_in(
    alloc: Global,
    image: &Image,
    later: bool,
    dice: &mut Dice,
) -> Result<Verdict, Memory> {
    let pieces = pieces_recorded(alloc, image, dice)?;
    let changed = changed(alloc, &pieces, later, dice)?;
    let plan = plan_of(alloc, image.guest(), &changed)?;
    verdict_of(alloc, image, &plan)
}

/// The same of a guest by chance.
fn verdict_on(alloc: Global, seed: u64, later: bool) -> Result<Verdict, Memory> {
    let mut dice = Dice::new(seed);
    let harts = 2 + dice.roll() % 3;
    let image = guest_by(alloc, harts, &mut dice)?;
    verdict_in(alloc, &image, later, &mut dice)
}

/// The verdicts on 150 logs. Where memory is refused for one it is asked for once more.
fn tally_of(alloc: Global, later: bool) -> Result<Tally, Fail> {
    let mut tally = [0u32; 5];
    for seed in 1..151u64 {
        let verdict = match verdict_on(alloc, seed, later) {
            Ok(verdict) => verdict,
            Err(Memory) => verdict_on(alloc, seed, later)?,
        };
        if let Some(many) = tally.get_mut(verdict) {
            *many = many.saturating_add(1);
        }
    }
    Ok(tally)
}

#[test]
fn an_edge_is_taken_out(rt: HostRuntime) -> Result<(), Fail> {
    let tally = tally_of(rt.alloc(), false)?;
    assert!(rt; tally[UNLIKE] == 0 && tally[COVERED] >= 20 && tally[UNCOVERED] >= 20);
    Ok(())
}

#[test]
fn an_edge_is_of_later_steps(rt: HostRuntime) -> Result<(), Fail> {
    let tally = tally_of(rt.alloc(), true)?;
    assert!(rt; tally[UNLIKE] == 0 && tally[STUCK] >= 20 && tally[STUCK_UNCOVERED] >= 20);
    Ok(())
}

/// Four steps of a hart.
fn piece_of_four(
    alloc: Global,
    guest: Guest,
    number: u8,
    edges: &[Record],
) -> Result<Frame, Memory> {
    match Fragment::new(guest, key(1, number, 0), 0, 4, edges.to_vec(alloc)?) {
        Some(piece) => Ok(Frame::Log(piece)),
        None => Err(Memory),
    }
}

/// The plan of four steps of each of two harts, of which the second one's have these edges.
fn plan_of_four(alloc: Global, guest: Guest, edges: &[Record]) -> Result<Plan, Memory> {
    let mut pieces = Vec::new(alloc);
    pieces.push(piece_of_four(alloc, guest, 0, &[])?)?;
    pieces.push(piece_of_four(alloc, guest, 1, edges)?)?;
    plan_of(alloc, guest, &pieces)
}

/// Why the audit says no, and that of the same plan after it where memory was refused.
fn fault_in_the_end(alloc: Global, image: &Image, plan: &Plan) -> Option<AuditFault> {
    match audit(alloc, image, plan) {
        Err(AuditFault::Replay(ReplayFault::Memory)) => audit(alloc, image, plan).err(),
        answer => answer.err(),
    }
}

/// Why the audit of such a plan of this guest says no, for the image of which both harts store into the second page.
fn fault_of(alloc: Global, guest: Guest, edges: &[Record]) -> Result<Option<AuditFault>, Memory> {
    let plan = plan_of_four(alloc, guest, edges)?;
    let image = image_in(alloc, BOTH_STORE)?;
    Ok(fault_in_the_end(alloc, &image, &plan))
}

/// The same of this file's guest.
fn fault_told(alloc: Global, file: &[u8], edges: &[Record]) -> Result<Option<AuditFault>, Memory> {
    let guest = image_in(alloc, file)?.guest();
    fault_of(alloc, guest, edges)
}

/// An audit refuses the plan of another guest. One to which memory is refused says so, and says the same as ever when it is asked again:
/// run with each allocation refused in turn.
#[test]
fn audits_that_are_refused(rt: HostRuntime) -> Result<(), Fail> {
    let uncovered = AuditFault::Uncovered(PageNo::new(1), (hart(0), 1), (hart(1), 1));
    let other_guest = AuditFault::Replay(ReplayFault::OtherGuest);
    for (file, edges, fault) in [
        (BOTH_STORE, &[][..], Some(uncovered)),
        (BOTH_STORE, &[Record::Edge(edge(1, 1, 0, 2))], None),
        (TWO_LOOPS, &[], Some(other_guest)),
    ] {
        let told = match fault_told(rt.alloc(), file, edges) {
            Ok(told) => told,
            Err(Memory) => fault_told(rt.alloc(), file, edges)?,
        };
        assert!(rt; told == fault);
    }
    Ok(())
}
