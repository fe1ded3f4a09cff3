//! Leases that run beside leases that tick, on words that fall by chance.

use crate::begun::{recording, same_machine};
use fixtures::{Crew, Dice, hart, image_of};
use ft_types::{Count, Memory};
use guest_image::Image;
use page_book::{Book, Keep, Need, Recording};
use rv32_hart::Tick;
use std::alloc::Global;
use std::test::Fail;

/// Whether a lease takes many steps at once, else one after the other; and whether it goes up to 2,500 steps.
type Way = (bool, bool);

const TICKS: Way = (false, false);

const RUNS: Way = (true, false);

const LONG_RUNS: Way = (true, true);

/// One hart with two pages and a page that is not there. Its traps lead back to the first word; x1 is the first page's
/// address, x2 the second one's, x3 that of the devices.
static HEAD: &[u8] = b"harts 1\npages 2\n800002b7\n30529073\n800000b7\n80001137\nf00001b7\n";

/// The opcodes of loads, stores, operations, branches and jumps, of atomic operations and CSRs, and one that is none.
static OPCODES: [u32; 16] = [
    0x03, 0x03, 0x03, 0x23, 0x23, 0x23, 0x13, 0x13, 0x33, 0x33, 0x63, 0x17, 0x67, 0x2f, 0x73, 0x0b,
];

fn opcode(dice: &mut Dice) -> u32 {
    OPCODES[usize::from(dice.roll() % 16)]
}

/// The bits of a word that fall by chance: of an operation fewer, so that more of them are there.
fn fields(dice: &mut Dice, opcode: u32) -> u32 {
    let bytes = [dice.roll(), dice.roll(), dice.roll(), dice.roll()];
    let kept = if opcode == 0x33 {
        0x03f0_7f80
    } else {
        0x7ff0_7f80
    };
    u32::from_le_bytes(bytes) & kept
}

/// A word of an instruction by chance, more often than not one that is there, whose address is in one of x0 to x3.
fn word(dice: &mut Dice) -> u32 {
    let opcode = opcode(dice);
    let fields = fields(dice, opcode);
    let address = u32::from(dice.roll() % 4) << 15;
    fields | address | opcode
}

/// The line of a word.
fn push_line(text: &mut Vec<u8>, word: u32) -> Result<(), Memory> {
    for place in 0..8u32 {
        let digit = (word >> (28 - 4 * place) & 0xf) as u8;
        text.push(if digit < 10 {
            b'0' + digit
        } else {
            b'a' + (digit - 10)
        })?;
    }
    text.push(b'\n')?;
    Ok(())
}

/// Adds the lines of sixty words.
fn push_lines(text: &mut Vec<u8>, dice: &mut Dice) -> Result<(), Memory> {
    for _word in 0..60 {
        push_line(text, word(dice))?;
    }
    Ok(())
}

fn guest_text(alloc: Global, seed: u64) -> Result<Vec<u8>, Memory> {
    let mut dice = Dice::new(seed);
    let mut text = HEAD.to_vec(alloc)?;
    push_lines(&mut text, &mut dice)?;
    Ok(text)
}

/// The file of a guest whose words fall by chance.
fn guest(alloc: Global, seed: u64) -> Result<Vec<u8>, Memory> {
    match guest_text(alloc, seed) {
        Err(Memory) => guest_text(alloc, seed),
        text => text,
    }
}

/// Steps of the hart's open lease, until it is full or lacks a page.
fn run(crew: &mut Crew<Recording>) -> Tick {
    match crew.lease_mut(hart(0)) {
        None => Tick::Halted,
        Some(lease) if lease.full() => Tick::Halted,
        Some(lease) => lease.run(),
    }
}

/// Lets the hart's open lease take up to 2,500 steps.
fn lengthen(crew: &mut Crew<Recording>) {
    if let Some(lease) = crew.lease_mut(hart(0)) {
        lease.allow(2500);
    }
}

/// Takes the steps of the hart's open lease, and asks for the pages that they lack.
fn go(crew: &mut Crew<Recording>, runs: bool) {
    if !runs {
        let _steps = crew.go(hart(0), 4096);
        return;
    }
    for _page in 0..100 {
        match run(crew) {
            Tick::Miss(page, want) => {
                if crew.ask(hart(0), page, want) != Ok(Need::Given) {
                    return;
                }
            }
            Tick::Memory => {}
            Tick::Done | Tick::Halted => return,
        }
    }
}

/// Twenty leases at most, this way.
fn lead(crew: &mut Crew<Recording>, alloc: Global, (runs, far): Way) {
    for _lease in 0..20 {
        if crew.lend(alloc, hart(0)).is_err() {
            return;
        }
        if far {
            lengthen(crew);
        }
        go(crew, runs);
        let _settled = crew.settle(hart(0), Keep::All);
    }
}

/// The book of a guest, led this way up to a limit.
fn led(alloc: Global, image: &Image, limit: Count, way: Way) -> Result<Book<Recording>, Fail> {
    let mut crew = recording(alloc, image, &[limit])?;
    lead(&mut crew, alloc, way);
    Ok(crew.end())
}

/// By how many leases a guest comes to the machine and the counts of this book, led this way, if it does.
fn leases_to(
    alloc: Global,
    image: &Image,
    limit: Count,
    way: Way,
    ticked: &Book<Recording>,
) -> Result<Option<usize>, Fail> {
    let book = led(alloc, image, limit, way)?;
    let comes = same_machine(&book, ticked) && book.counts() == ticked.counts();
    Ok(if comes {
        Some(book.journal().len())
    } else {
        None
    })
}

/// Whether the other ways lead to the machine of a book that ticked, one of them in as many leases; and if they do, whether
/// longer leases are fewer.
fn are_fewer_than(
    alloc: Global,
    image: &Image,
    limit: Count,
    ticked: &Book<Recording>,
) -> Result<Option<bool>, Fail> {
    let ran = leases_to(alloc, image, limit, RUNS, ticked)?;
    let far = leases_to(alloc, image, limit, LONG_RUNS, ticked)?;
    match (ran, far) {
        (Some(ran), Some(far)) if ran == ticked.journal().len() => Ok(Some(far < ran)),
        _ => Ok(None),
    }
}

/// The same of a guest of which one book ticks.
fn are_fewer(alloc: Global, image: &Image, limit: Count) -> Result<Option<bool>, Fail> {
    let ticked = led(alloc, image, limit, TICKS)?;
    are_fewer_than(alloc, image, limit, &ticked)
}

/// The same of the guest of a seed.
fn are_fewer_of(alloc: Global, seed: u64) -> Result<Option<bool>, Fail> {
    let image = image_of(alloc, &guest(alloc, seed.wrapping_mul(0x9e37_79b9))?)?;
    are_fewer(alloc, &image, seed.saturating_mul(40).saturating_add(1))
}

// All ways lead to the same machine, the first two in as many leases, also where the words store among themselves, trap and put
// out. Longer leases are fewer, where the guest goes so far.
#[test]
fn a_run_is_its_ticks(rt: HostRuntime) -> Result<(), Fail> {
    let (mut right, mut fewer) = (true, 0u32);
    for seed in 1..60u64 {
        match are_fewer_of(rt.alloc(), seed)? {
            None => right = false,
            Some(true) => fewer = fewer.saturating_add(1),
            Some(false) => {}
        }
    }
    assert!(rt; right && fewer > 0);
    Ok(())
}
