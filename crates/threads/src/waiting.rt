//! Guests whose harts wait for each other, on threads. What they put out does not depend on how their harts go beside each other.

use crate::runs::{in_turn, leads_in_turn, on_threads};
use fixtures::{hart, image_of};
use ft_types::{Count, Hart, HartSet, Memory};
use guest_image::{Image, Machine};
use hart_threads::Free;
use log_streams::Budget;
use rv32_hart::HartState;
use std::alloc::Global;
use std::sync::Wait;
use std::test::Fail;
use std::thread::Threads;

/// More than any hart takes, unless what it waits for does not come.
const BUDGET: Count = 1_000_000;

/// Four harts count to 200 each under one lock, wait until all have, and put the sum out.
///
/// csrrs x3, mhartid, x0; lui x1, 80001; addi x2, x0, 200; addi x5, x0, 1; addi x8, x1, 4; take: amoswap.w x6, x5, (x8);
/// bne x6, x0, take; lw x7, 0(x1); addi x7, x7, 1; sw x7, 0(x1); amoswap.w x0, x0, (x8); addi x2, x2, -1; bne x2, x0, take;
/// addi x8, x1, 8; addi x9, x0, 4; amoadd.w x0, x5, (x8); wait: lw x6, 8(x1); bne x6, x9, wait; lw x7, 0(x1); lui x4, f0000;
/// sw x7, 8(x4), which puts out; sw x0, 20(x4), which halts.
const COUNT_UNDER_A_LOCK: &[u8] =
    b"harts 4\npages 2\nf14021f3\n800010b7\n0c800113\n00100293\n00408413\n0854232f\nfe031ee3\n0000a383\n00138393\n0070a023\n0804202f\nfff10113\nfe0112e3\n00808413\n00400493\n0054202f\n0080a303\nfe931ee3\n0000a383\nf0000237\n00722423\n00022a23\n";

/// Four harts meet 20 times at a counter. Before it each writes the number of the meeting into a byte of its own, of one of two
/// words that take turns; behind it each puts the word out.
///
/// csrrs x3, mhartid, x0; lui x1, 80001; lui x4, f0000; addi x5, x0, 1; addi x12, x0, 20; round: addi x6, x6, 1; andi x7, x6, 1;
/// slli x7, x7, 2; add x7, x7, x1; add x8, x7, x3; sb x6, 16(x8); amoadd.w x0, x5, (x1); slli x10, x6, 2; wait: lw x11, 0(x1);
/// blt x11, x10, wait; lw x9, 16(x7); sw x9, 8(x4), which puts out; bne x6, x12, round; sw x0, 20(x4), which halts.
const MEET: &[u8] =
    b"harts 4\npages 2\nf14021f3\n800010b7\nf0000237\n00100293\n01400613\n00130313\n00137393\n00239393\n001383b3\n00338433\n00640823\n0050a02f\n00231513\n0000a583\nfea5cee3\n0103a483\n00922423\nfcc318e3\n00022a23\n";

/// Hart 0 rings the harts 3, 2 and 1, three times over. Each adds its number to a word and rings back; both put the word out.
///
/// csrrs x3, mhartid, x0; lui x1, 80001; lui x4, f0000; addi x8, x0, 8; addi x2, x0, 3; bne x3, x0, other; again: addi x5, x0, 3;
/// next: sw x5, 16(x4), which rings; hear: csrrs x6, mip, x0; andi x6, x6, 8; beq x6, x0, hear; sw x8, 12(x4), which acknowledges;
/// lw x7, 0(x1); sw x7, 8(x4), which puts out; addi x5, x5, -1; bne x5, x0, next; addi x2, x2, -1; bne x2, x0, again;
/// sw x0, 20(x4), which halts; other: csrrs x6, mip, x0; andi x6, x6, 8; beq x6, x0, other; sw x8, 12(x4); lw x7, 0(x1);
/// add x7, x7, x3; sw x7, 0(x1); sw x7, 8(x4); sw x0, 16(x4); addi x2, x2, -1; bne x2, x0, other; sw x0, 20(x4).
const RING_BACK: &[u8] =
    b"harts 4\npages 2\nf14021f3\n800010b7\nf0000237\n00800413\n00300113\n02019c63\n00300293\n00522823\n34402373\n00837313\nfe030ce3\n00822623\n0000a383\n00722423\nfff28293\nfe0290e3\nfff10113\nfc011ae3\n00022a23\n34402373\n00837313\nfe030ce3\n00822623\n0000a383\n003383b3\n0070a023\n00722423\n00022823\nfff10113\nfc011ce3\n00022a23\n";

/// Eight harts hand a word round three times, each rung by the one before it, the first time hart 0 by itself. Each adds 1 to it
/// and puts it out.
///
/// csrrs x3, mhartid, x0; lui x1, 80001; lui x4, f0000; addi x8, x0, 8; addi x2, x0, 3; addi x9, x3, 1; andi x9, x9, 7;
/// bne x3, x0, hear; sw x0, 16(x4), which rings; hear: csrrs x6, mip, x0; andi x6, x6, 8; beq x6, x0, hear;
/// sw x8, 12(x4), which acknowledges; lw x7, 0(x1); addi x7, x7, 1; sw x7, 0(x1); sw x7, 8(x4), which puts out; sw x9, 16(x4);
/// addi x2, x2, -1; bne x2, x0, hear; sw x0, 20(x4), which halts.
const HAND_ROUND: &[u8] =
    b"harts 8\npages 2\nf14021f3\n800010b7\nf0000237\n00800413\n00300113\n00118493\n0074f493\n00019463\n00022823\n34402373\n00837313\nfe030ce3\n00822623\n0000a383\n00138393\n0070a023\n00722423\n00922823\nfff10113\nfc011ce3\n00022a23\n";

/// Seven harts look at a word until hart 7, which counts to 2000 first, has written it. Each puts it out.
///
/// csrrs x3, mhartid, x0; lui x1, 80001; lui x4, f0000; addi x5, x0, 7; addi x2, x0, 2000; bne x3, x5, look;
/// count: addi x7, x7, 1; bne x7, x2, count; sw x7, 0(x1); look: lw x7, 0(x1); beq x7, x0, look; sw x7, 8(x4), which puts out;
/// sw x0, 20(x4), which halts.
const LOOK_UNTIL_WRITTEN: &[u8] =
    b"harts 8\npages 2\nf14021f3\n800010b7\nf0000237\n00700293\n7d000113\n00519863\n00138393\nfe239ee3\n0070a023\n0000a383\nfe038ee3\n00722423\n00022a23\n";

/// Four harts go in turns, ten each, by a word that counts them: its remainder by 4 says whose turn it is. Each puts it out.
///
/// csrrs x3, mhartid, x0; lui x1, 80001; lui x4, f0000; addi x2, x0, 10; turn: lw x7, 0(x1); andi x6, x7, 3; bne x6, x3, turn;
/// sw x7, 8(x4), which puts out; addi x7, x7, 1; sw x7, 0(x1); addi x2, x2, -1; bne x2, x0, turn; sw x0, 20(x4), which halts.
const GO_IN_TURNS: &[u8] =
    b"harts 4\npages 2\nf14021f3\n800010b7\nf0000237\n00a00113\n0000a383\n0033f313\nfe331ce3\n00722423\n00138393\n0070a023\nfff10113\nfe0112e3\n00022a23\n";

/// Hart 0 counts to 12 in a word, with the same registers whenever it has taken 1,024 steps more, and rings hart 1, which has counted
/// to 2000 and waits. Both put the word out.
///
/// csrrs x3, mhartid, x0; lui x1, 80001; lui x4, f0000; addi x8, x0, 8; bne x3, x0, other; again: lw x5, 0(x1); addi x5, x5, 1;
/// sw x5, 0(x1); slti x7, x5, 12; addi x5, x0, 0; addi x2, x0, 508; addi x6, x0, 0; pass: addi x2, x2, -1; bne x2, x0, pass;
/// bne x7, x0, again; addi x5, x0, 1; sw x5, 16(x4), which rings; lw x7, 0(x1); sw x7, 8(x4), which puts out;
/// sw x0, 20(x4), which halts; other: addi x9, x0, 2000; count: addi x2, x2, 1; addi x7, x0, 0; bne x2, x9, count;
/// hear: csrrs x6, mip, x0; andi x6, x6, 8; beq x6, x0, hear; sw x8, 12(x4), which acknowledges; lw x7, 0(x1); sw x7, 8(x4);
/// sw x0, 20(x4).
const SEEM_TO_WAIT: &[u8] =
    b"harts 2\npages 2\nf14021f3\n800010b7\nf0000237\n00800413\n04019063\n0000a283\n00128293\n0050a023\n00c2a393\n00000293\n1fc00113\n00000313\nfff10113\nfe011ee3\nfc039ee3\n00100293\n00522823\n0000a383\n00722423\n00022a23\n7d000493\n00110113\n00000393\nfe911ce3\n34402373\n00837313\nfe030ce3\n00822623\n0000a383\n00722423\n00022a23\n";

/// A guest, with the last word that each of its harts puts out.
type Row = (&'static [u8], [u32; 8]);

static GUESTS: [Row; 7] = [
    (COUNT_UNDER_A_LOCK, [800, 800, 800, 800, 0, 0, 0, 0]),
    (
        MEET,
        [0x14141414, 0x14141414, 0x14141414, 0x14141414, 0, 0, 0, 0],
    ),
    (RING_BACK, [18, 18, 17, 15, 0, 0, 0, 0]),
    (HAND_ROUND, [17, 18, 19, 20, 21, 22, 23, 24]),
    (LOOK_UNTIL_WRITTEN, [2000; 8]),
    (GO_IN_TURNS, [36, 37, 38, 39, 0, 0, 0, 0]),
    (SEEM_TO_WAIT, [12, 12, 0, 0, 0, 0, 0, 0]),
];

fn with(harts: HartSet, number: u8) -> HartSet {
    harts.with(hart(number))
}

/// Which harts have no threads, as where these cannot be made.
fn crews() -> [HartSet; 4] {
    let none = HartSet::new();
    let one = with(none, 0);
    let two = with(one, 2);
    [none, one, two, with(with(two, 1), 3)]
}

/// What harts put out: all words, in one number, and of each hart that is halted below the budget the last one.
type Said = (u64, [u32; 8]);

/// Adds the words of a hart to the number. Also the last one, or 0 where it is not at its end.
fn say(hart: &HartState, sum: u64) -> (u64, u32) {
    let mut sum = sum;
    let mut last = 0u32;
    for (_, word) in hart.outputs() {
        sum = sum.wrapping_mul(1_000_003).wrapping_add(u64::from(*word));
        last = *word;
    }
    if !hart.is_halted() || hart.count() >= BUDGET {
        last = 0;
    }
    (sum.wrapping_mul(1_000_003), last)
}

fn said_by(machine: &Machine) -> Said {
    let mut sum = 1u64;
    let mut lasts = [0u32; 8];
    for number in 0..machine.harts().min(8) {
        let (behind, last) = say(machine.hart(Hart::new(number)), sum);
        sum = behind;
        lasts[usize::from(number)] = last;
    }
    (sum, lasts)
}

/// What the guest's harts put out in turn.
fn said_in_turn(alloc: Global, image: &Image) -> Result<Said, Memory> {
    let left = in_turn(alloc, image, Budget::new(BUDGET))?;
    Ok(said_by(&left.0))
}

/// What they put out on threads, these harts on none, and whether their log leads to their machine.
fn said_on_threads<R: Threads + Wait + Sync>(
    rt: &R,
    alloc: Global,
    image: &Image,
    here: HartSet,
) -> Result<(Said, bool), Memory> {
    let left = on_threads(rt, alloc, image, Budget::new(BUDGET), &Free, here)?;
    let leads = leads_in_turn(alloc, image, &left.1, &left.0)?;
    Ok((said_by(&left.0), leads))
}

/// Whether by each of the crews the guest ends with these words, as in turn.
fn end_so<R: Threads + Wait + Sync>(
    rt: &R,
    alloc: Global,
    image: &Image,
    lasts: [u32; 8],
) -> Result<bool, Memory> {
    let (sum, _) = said_in_turn(alloc, image)?;
    for here in &crews() {
        let (said, leads) = said_on_threads(rt, alloc, image, *here)?;
        if said.0 != sum || said.1 != lasts || !leads {
            return Ok(false);
        }
    }
    Ok(true)
}

#[test]
fn harts_that_wait_for_each_other_end(rt: HostRuntime) -> Result<(), Fail> {
    let mut right = true;
    for (file, lasts) in &GUESTS {
        let image = image_of(rt.alloc(), *file)?;
        right = right && end_so(&rt, rt.alloc(), &image, *lasts)?;
    }
    assert!(rt; right);
    Ok(())
}
