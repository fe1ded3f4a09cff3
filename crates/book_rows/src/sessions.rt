//! Sessions of a debugger, by packets typed by hand: what each is answered.

use crate::come::{Come, Fact, store_of};
use closed_cut::position;
use debugging::{Answer, Session, mnemonic};
use fixtures::{BOTH_STORE, image_of};
use ft_types::Memory;
use hart_replay::{Plan, ReplayFault, plan};
use log_join::Store;
use moments::Timeline;
use std::alloc::Global;
use std::result::Result;
use std::test::Fail;

/// Each hart has four steps, and the second one of hart 1 comes after two of hart 0: steps 0, 0, 1, 1, and so on, hart 0 first.
const LOG: &[Come] = &[
    Come::Opening(1, 0, &[0, 0]),
    Come::Piece(1, 0, 0, 0, 4, &[]),
    Come::Piece(1, 1, 0, 0, 4, &[Fact::Edge(1, 0, 2)]),
];

/// What is asked, and what is answered.
static ASKED: [(&str, &str); 72] = [
    ("?", "T05thread:01;"),
    ("qC", "QC01"),
    ("qfThreadInfo", "m01,02"),
    ("qsThreadInfo", "l"),
    ("qAttached", "1"),
    ("vMustReplyEmpty", ""),
    ("vCont?", "vCont;c;C;s;S"),
    ("QStartNoAckMode", "OK"),
    (
        "g",
        "000000000000000000000000000000000000000000000000000000000000000000000000000000000000000000000000000000000000000000000000000000000000000000000000000000000000000000000000000000000000000000000000000000000000000000000000000000000000000000000000000000000000000000000080",
    ),
    ("s", "T05thread:01;"),
    ("p1", "00100080"),
    ("p20", "04000080"),
    ("p0", "00000000"),
    ("pf55", "00000000"),
    ("Hg2", "OK"),
    ("p20", "00000080"),
    ("pf55", "01000000"),
    ("Hg0", "OK"),
    ("Hc-1", "OK"),
    ("Hg3", "E02"),
    ("T2", "OK"),
    ("T3", "E02"),
    ("Z2,80001000,4", "OK"),
    ("Z1,0", "E02"),
    ("Z9,80001000,4", "E02"),
    ("c", "T05watch:80001000;thread:01;"),
    ("m80001000,4", "00000000"),
    ("s", "T05thread:01;"),
    ("m80001000,4", "00100080"),
    ("m80001ffe,8", "0000"),
    ("m80002000,4", "E02"),
    ("m7fffffff,2", "E02"),
    ("c", "T05watch:80001000;thread:02;"),
    ("s", "T05thread:02;"),
    (
        "qRcmd,7768657265",
        "7465726d2031206d6f6d656e742034206f66203820636f756e7473203220320a",
    ),
    ("bc", "T05watch:80001000;thread:02;"),
    (
        "qRcmd,7768657265",
        "7465726d2031206d6f6d656e742034206f66203820636f756e7473203220320a",
    ),
    ("bs", "T05thread:02;"),
    ("bc", "T05watch:80001000;thread:01;"),
    (
        "qRcmd,7768657265",
        "7465726d2031206d6f6d656e742033206f66203820636f756e7473203220310a",
    ),
    ("bs", "T05thread:01;"),
    ("m80001000,4", "00000000"),
    ("bc", "T05replaylog:begin;thread:01;"),
    ("vCont;s:2;c", "T05thread:02;"),
    (
        "qRcmd,7768657265",
        "7465726d2031206d6f6d656e742032206f66203820636f756e7473203120310a",
    ),
    ("bs", "T05thread:02;"),
    (
        "qRcmd,7768657265",
        "7465726d2031206d6f6d656e742031206f66203820636f756e7473203120300a",
    ),
    ("bs", "T05replaylog:begin;thread:02;"),
    ("z2,80001000,4", "OK"),
    ("Z0,80000008,4", "OK"),
    ("vCont;c", "T05swbreak:;thread:01;"),
    (
        "qRcmd,7768657265",
        "7465726d2031206d6f6d656e742034206f66203820636f756e7473203220320a",
    ),
    ("z0,80000008,4", "OK"),
    ("c", "T05replaylog:end;thread:01;"),
    (
        "qThreadExtraInfo,2",
        "68617274203120636f756e7420342068616c746564",
    ),
    ("s", "T05replaylog:end;thread:01;"),
    (
        "qRcmd,77686f203830303031303030",
        "7772697474656e20627920686172742031207374657020310a",
    ),
    ("qRcmd,77686f203830303031303034", "6e6f74207772697474656e0a"),
    (
        "qRcmd,72616365203830303031303030",
        "7772697474656e20627920686172742030207374657020310a7772697474656e20627920686172742031207374657020310a",
    ),
    (
        "qRcmd,676f746f20312031",
        "7465726d2031206d6f6d656e742032206f66203820636f756e7473203120310a",
    ),
    (
        "qRcmd,6564676573",
        "68617274203120636f756e7420310a776169747320666f7220686172742030207374657020320a",
    ),
    ("qRcmd,676f746f20312035", "6e6f207375636820737465700a"),
    ("qRcmd,6f757470757420302030", "6e6f207375636820737465700a"),
    ("qRcmd,696e70757420302030", "6e6f207375636820737465700a"),
    (
        "qRcmd,6e6f6e73656e7365",
        "7768657265207c20676f746f2048204e207c206f75747075742048204b207c20696e7075742048204b207c206564676573207c2077686f2041444452455353207c207261636520414444524553530a",
    ),
    ("G00", "E01"),
    ("P1=00000000", "E01"),
    ("M80001000,1:00", "E01"),
    ("X80001000,0:", "E01"),
    ("c80000000", "E01"),
    (
        "qRcmd,7768657265",
        "7465726d2031206d6f6d656e742032206f66203820636f756e7473203120310a",
    ),
    ("D", "OK"),
];

/// The plan of the store.
fn plan_of(alloc: Global, store: &Store) -> Result<Plan, Fail> {
    match plan(alloc, store, &position(alloc, store)?) {
        Ok(plan) => Ok(plan),
        Err(ReplayFault::Memory) => Err(Memory.into()),
        Err(_) => Err("a plan".into()),
    }
}

/// A session over the log.
fn session(alloc: Global) -> Result<Session, Fail> {
    let image = image_of(alloc, BOTH_STORE)?;
    let plan = plan_of(alloc, &store_of(alloc, image.guest(), LOG)?)?;
    match Timeline::begin(alloc, &image, plan) {
        Ok(line) => Ok(Session::begin(alloc, line)),
        Err(ReplayFault::Memory) => Err(Memory.into()),
        Err(_) => Err("a timeline".into()),
    }
}

/// What the packet is answered.
fn answered(alloc: Global, session: &mut Session, packet: &str) -> Result<Vec<u8>, Memory> {
    match session.answer(alloc, packet.as_bytes())? {
        Answer::Says(text) | Answer::SaysLast(text) => Ok(text),
        Answer::Over => Ok(Vec::new(alloc)),
    }
}

#[test]
fn sessions(rt: HostRuntime) -> Result<(), Fail> {
    let mut session = session(rt.alloc())?;
    let mut right = true;
    for (packet, wanted) in &ASKED {
        let text = answered(rt.alloc(), &mut session, packet)?;
        if text.as_slice() != wanted.as_bytes() {
            let said = str::from_utf8(&text).unwrap_or("no text");
            println!(rt; "{packet} {said}")?;
            right = false;
        }
    }
    assert!(rt; right);
    Ok(())
}

/// Words, and what assembler has for them at the beginning of RAM; binutils says the same of each, in its own layout.
static WORDS: [(u32, &str); 22] = [
    (0x0000_0013, "addi zero,zero,0"),
    (0xfff5_0513, "addi a0,a0,-1"),
    (0x8000_10b7, "lui ra,80001"),
    (0x0010_a023, "sw ra,0(ra)"),
    (0xfe11_2e23, "sw ra,-4(sp)"),
    (0xffc1_2083, "lw ra,-4(sp)"),
    (0x0000_8067, "jalr zero,0(ra)"),
    (0xff9f_f0ef, "jal ra,7ffffff8"),
    (0xfe05_88e3, "beq a1,zero,7ffffff0"),
    (0x00b5_0463, "beq a0,a1,80000008"),
    (0x40b5_0533, "sub a0,a0,a1"),
    (0x02b5_0533, "mul a0,a0,a1"),
    (0x41f5_5513, "srai a0,a0,31"),
    (0x3004_7073, "csrrci zero,300,8"),
    (0xf140_21f3, "csrrs gp,f14,zero"),
    (0x3020_0073, "mret"),
    (0x0ff0_000f, "fence"),
    (0x00b5_252f, "amoadd.w a0,a1,(a0)"),
    (0x0cb5_252f, "amoswap.w.aq a0,a1,(a0)"),
    (0xe0b5_252f, "amomaxu.w a0,a1,(a0)"),
    (0x0000_0000, "illegal"),
    (0x02b5_1513, "illegal"),
];

#[test]
fn mnemonics(rt: HostRuntime) -> Result<(), Fail> {
    for (word, wanted) in &WORDS {
        let text = mnemonic(rt.alloc(), 0x8000_0000, *word)?;
        let right = text.as_slice() == wanted.as_bytes();
        if !right {
            println!(rt; "{wanted}")?;
        }
        assert!(rt; right);
    }
    Ok(())
}
