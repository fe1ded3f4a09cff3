//! Words from outside: the lines in comments, assembled by GNU as 2.40 (Debian's binutils-riscv64-unknown-elf) with
//! -march=rv32ima_zicsr_zifencei_zihintpause, options norvc and norelax, and read off by objdump -d -M no-aliases,numeric.

use crate::tables::{all_right, row};
use ft_types::{Memory, read_word};
use rv32_isa::{
    BranchOffset, CsrNumber, Imm12, JumpOffset, Reg, ShiftAmount, Uimm5, UpperImm, decode, encode,
};
use std::alloc::Global;

/// Words, and the instructions that they are, a line each, or nothing; a line with `#` has what was assembled. Offsets and immediates are shown as words. One text and no
/// table: each entry of a table is proved.
static INSTRUCTIONS: &str = "\
# lui x5, 0x12345, 0x80000, 0xfffff, 0 and 0x7ffff
123452b7|Lui { rd: Reg { number: 5 }, imm: UpperImm { upper: 305418240 } }
800002b7|Lui { rd: Reg { number: 5 }, imm: UpperImm { upper: 2147483648 } }
fffff2b7|Lui { rd: Reg { number: 5 }, imm: UpperImm { upper: 4294963200 } }
000002b7|Lui { rd: Reg { number: 5 }, imm: UpperImm { upper: 0 } }
7ffff2b7|Lui { rd: Reg { number: 5 }, imm: UpperImm { upper: 2147479552 } }
# auipc x5, 0x12345
12345297|Auipc { rd: Reg { number: 5 }, imm: UpperImm { upper: 305418240 } }
# jal x5, .+0x55556, .-0x100000, .-2, .+0 and .+0xffffe
556552ef|Jal { rd: Reg { number: 5 }, offset: JumpOffset { distance: 349526 } }
800002ef|Jal { rd: Reg { number: 5 }, offset: JumpOffset { distance: 4293918720 } }
fffff2ef|Jal { rd: Reg { number: 5 }, offset: JumpOffset { distance: 4294967294 } }
000002ef|Jal { rd: Reg { number: 5 }, offset: JumpOffset { distance: 0 } }
7ffff2ef|Jal { rd: Reg { number: 5 }, offset: JumpOffset { distance: 1048574 } }
# jalr x5, -273(x10)
eef502e7|Jalr { rd: Reg { number: 5 }, rs1: Reg { number: 10 }, imm: Imm12 { immediate: 4294967023 } }
# beq x10, x28, .-1366; then bne, blt, bge, bltu and bgeu
abc505e3|Branch { comparison: Equal, rs1: Reg { number: 10 }, rs2: Reg { number: 28 }, offset: BranchOffset { offset: 4294965930 } }
abc515e3|Branch { comparison: NotEqual, rs1: Reg { number: 10 }, rs2: Reg { number: 28 }, offset: BranchOffset { offset: 4294965930 } }
abc545e3|Branch { comparison: Less, rs1: Reg { number: 10 }, rs2: Reg { number: 28 }, offset: BranchOffset { offset: 4294965930 } }
abc555e3|Branch { comparison: GreaterEqual, rs1: Reg { number: 10 }, rs2: Reg { number: 28 }, offset: BranchOffset { offset: 4294965930 } }
abc565e3|Branch { comparison: LessUnsigned, rs1: Reg { number: 10 }, rs2: Reg { number: 28 }, offset: BranchOffset { offset: 4294965930 } }
abc575e3|Branch { comparison: GreaterEqualUnsigned, rs1: Reg { number: 10 }, rs2: Reg { number: 28 }, offset: BranchOffset { offset: 4294965930 } }
# beq x10, x28, .-4096, .-2, .+0 and .+4094
81c50063|Branch { comparison: Equal, rs1: Reg { number: 10 }, rs2: Reg { number: 28 }, offset: BranchOffset { offset: 4294963200 } }
ffc50fe3|Branch { comparison: Equal, rs1: Reg { number: 10 }, rs2: Reg { number: 28 }, offset: BranchOffset { offset: 4294967294 } }
01c50063|Branch { comparison: Equal, rs1: Reg { number: 10 }, rs2: Reg { number: 28 }, offset: BranchOffset { offset: 0 } }
7fc50fe3|Branch { comparison: Equal, rs1: Reg { number: 10 }, rs2: Reg { number: 28 }, offset: BranchOffset { offset: 4094 } }
# lb x5, -273(x10); then lh, lw, lbu and lhu
eef50283|Load { kind: Byte, rd: Reg { number: 5 }, rs1: Reg { number: 10 }, imm: Imm12 { immediate: 4294967023 } }
eef51283|Load { kind: Half, rd: Reg { number: 5 }, rs1: Reg { number: 10 }, imm: Imm12 { immediate: 4294967023 } }
eef52283|Load { kind: Word, rd: Reg { number: 5 }, rs1: Reg { number: 10 }, imm: Imm12 { immediate: 4294967023 } }
eef54283|Load { kind: ByteUnsigned, rd: Reg { number: 5 }, rs1: Reg { number: 10 }, imm: Imm12 { immediate: 4294967023 } }
eef55283|Load { kind: HalfUnsigned, rd: Reg { number: 5 }, rs1: Reg { number: 10 }, imm: Imm12 { immediate: 4294967023 } }
# sb x28, -273(x10); then sh and sw
efc507a3|Store { kind: Byte, rs1: Reg { number: 10 }, rs2: Reg { number: 28 }, imm: Imm12 { immediate: 4294967023 } }
efc517a3|Store { kind: Half, rs1: Reg { number: 10 }, rs2: Reg { number: 28 }, imm: Imm12 { immediate: 4294967023 } }
efc527a3|Store { kind: Word, rs1: Reg { number: 10 }, rs2: Reg { number: 28 }, imm: Imm12 { immediate: 4294967023 } }
# sw x28, -2048(x10), -1(x10), 0(x10) and 2047(x10)
81c52023|Store { kind: Word, rs1: Reg { number: 10 }, rs2: Reg { number: 28 }, imm: Imm12 { immediate: 4294965248 } }
ffc52fa3|Store { kind: Word, rs1: Reg { number: 10 }, rs2: Reg { number: 28 }, imm: Imm12 { immediate: 4294967295 } }
01c52023|Store { kind: Word, rs1: Reg { number: 10 }, rs2: Reg { number: 28 }, imm: Imm12 { immediate: 0 } }
7fc52fa3|Store { kind: Word, rs1: Reg { number: 10 }, rs2: Reg { number: 28 }, imm: Imm12 { immediate: 2047 } }
# addi x5, x10, -273; then slti, sltiu, xori, ori and andi
eef50293|OpImm { op: Add, rd: Reg { number: 5 }, rs1: Reg { number: 10 }, imm: Imm12 { immediate: 4294967023 } }
eef52293|OpImm { op: SetLess, rd: Reg { number: 5 }, rs1: Reg { number: 10 }, imm: Imm12 { immediate: 4294967023 } }
eef53293|OpImm { op: SetLessUnsigned, rd: Reg { number: 5 }, rs1: Reg { number: 10 }, imm: Imm12 { immediate: 4294967023 } }
eef54293|OpImm { op: Xor, rd: Reg { number: 5 }, rs1: Reg { number: 10 }, imm: Imm12 { immediate: 4294967023 } }
eef56293|OpImm { op: Or, rd: Reg { number: 5 }, rs1: Reg { number: 10 }, imm: Imm12 { immediate: 4294967023 } }
eef57293|OpImm { op: And, rd: Reg { number: 5 }, rs1: Reg { number: 10 }, imm: Imm12 { immediate: 4294967023 } }
# addi x5, x10, -2048, -1, 0 and 2047
80050293|OpImm { op: Add, rd: Reg { number: 5 }, rs1: Reg { number: 10 }, imm: Imm12 { immediate: 4294965248 } }
fff50293|OpImm { op: Add, rd: Reg { number: 5 }, rs1: Reg { number: 10 }, imm: Imm12 { immediate: 4294967295 } }
00050293|OpImm { op: Add, rd: Reg { number: 5 }, rs1: Reg { number: 10 }, imm: Imm12 { immediate: 0 } }
7ff50293|OpImm { op: Add, rd: Reg { number: 5 }, rs1: Reg { number: 10 }, imm: Imm12 { immediate: 2047 } }
# slli, srli and srai x5, x10, 19; slli x5, x10, 0; srai x5, x10, 31
01351293|ShiftImm { op: Left, rd: Reg { number: 5 }, rs1: Reg { number: 10 }, amount: ShiftAmount { places: 19 } }
01355293|ShiftImm { op: Right, rd: Reg { number: 5 }, rs1: Reg { number: 10 }, amount: ShiftAmount { places: 19 } }
41355293|ShiftImm { op: RightSigned, rd: Reg { number: 5 }, rs1: Reg { number: 10 }, amount: ShiftAmount { places: 19 } }
00051293|ShiftImm { op: Left, rd: Reg { number: 5 }, rs1: Reg { number: 10 }, amount: ShiftAmount { places: 0 } }
41f55293|ShiftImm { op: RightSigned, rd: Reg { number: 5 }, rs1: Reg { number: 10 }, amount: ShiftAmount { places: 31 } }
# add x5, x10, x28, and the like, in the order of the standard's listing
01c502b3|Op { op: Add, rd: Reg { number: 5 }, rs1: Reg { number: 10 }, rs2: Reg { number: 28 } }
41c502b3|Op { op: Sub, rd: Reg { number: 5 }, rs1: Reg { number: 10 }, rs2: Reg { number: 28 } }
01c512b3|Op { op: ShiftLeft, rd: Reg { number: 5 }, rs1: Reg { number: 10 }, rs2: Reg { number: 28 } }
01c522b3|Op { op: SetLess, rd: Reg { number: 5 }, rs1: Reg { number: 10 }, rs2: Reg { number: 28 } }
01c532b3|Op { op: SetLessUnsigned, rd: Reg { number: 5 }, rs1: Reg { number: 10 }, rs2: Reg { number: 28 } }
01c542b3|Op { op: Xor, rd: Reg { number: 5 }, rs1: Reg { number: 10 }, rs2: Reg { number: 28 } }
01c552b3|Op { op: ShiftRight, rd: Reg { number: 5 }, rs1: Reg { number: 10 }, rs2: Reg { number: 28 } }
41c552b3|Op { op: ShiftRightSigned, rd: Reg { number: 5 }, rs1: Reg { number: 10 }, rs2: Reg { number: 28 } }
01c562b3|Op { op: Or, rd: Reg { number: 5 }, rs1: Reg { number: 10 }, rs2: Reg { number: 28 } }
01c572b3|Op { op: And, rd: Reg { number: 5 }, rs1: Reg { number: 10 }, rs2: Reg { number: 28 } }
03c502b3|Op { op: Mul, rd: Reg { number: 5 }, rs1: Reg { number: 10 }, rs2: Reg { number: 28 } }
03c512b3|Op { op: MulHigh, rd: Reg { number: 5 }, rs1: Reg { number: 10 }, rs2: Reg { number: 28 } }
03c522b3|Op { op: MulHighSignedUnsigned, rd: Reg { number: 5 }, rs1: Reg { number: 10 }, rs2: Reg { number: 28 } }
03c532b3|Op { op: MulHighUnsigned, rd: Reg { number: 5 }, rs1: Reg { number: 10 }, rs2: Reg { number: 28 } }
03c542b3|Op { op: Div, rd: Reg { number: 5 }, rs1: Reg { number: 10 }, rs2: Reg { number: 28 } }
03c552b3|Op { op: DivUnsigned, rd: Reg { number: 5 }, rs1: Reg { number: 10 }, rs2: Reg { number: 28 } }
03c562b3|Op { op: Rem, rd: Reg { number: 5 }, rs1: Reg { number: 10 }, rs2: Reg { number: 28 } }
03c572b3|Op { op: RemUnsigned, rd: Reg { number: 5 }, rs1: Reg { number: 10 }, rs2: Reg { number: 28 } }
# ecall, ebreak, mret and wfi; fence with no bits
00000073|Ecall
00100073|Ebreak
30200073|Mret
10500073|Wfi
0000000f|Fence
# csrrw x5, mepc, x10; then csrrs and csrrc
341512f3|CsrReg { op: Write, rd: Reg { number: 5 }, csr: CsrNumber { address: 833 }, rs1: Reg { number: 10 } }
341522f3|CsrReg { op: Set, rd: Reg { number: 5 }, csr: CsrNumber { address: 833 }, rs1: Reg { number: 10 } }
341532f3|CsrReg { op: Clear, rd: Reg { number: 5 }, csr: CsrNumber { address: 833 }, rs1: Reg { number: 10 } }
# csrrwi x5, mepc, 21; then csrrsi and csrrci
341ad2f3|CsrImm { op: Write, rd: Reg { number: 5 }, csr: CsrNumber { address: 833 }, imm: Uimm5 { value: 21 } }
341ae2f3|CsrImm { op: Set, rd: Reg { number: 5 }, csr: CsrNumber { address: 833 }, imm: Uimm5 { value: 21 } }
341af2f3|CsrImm { op: Clear, rd: Reg { number: 5 }, csr: CsrNumber { address: 833 }, imm: Uimm5 { value: 21 } }
# csrrs x5, CSR, x10, where CSR is 0, mhartid and 0xfff
000522f3|CsrReg { op: Set, rd: Reg { number: 5 }, csr: CsrNumber { address: 0 }, rs1: Reg { number: 10 } }
f14522f3|CsrReg { op: Set, rd: Reg { number: 5 }, csr: CsrNumber { address: 3860 }, rs1: Reg { number: 10 } }
fff522f3|CsrReg { op: Set, rd: Reg { number: 5 }, csr: CsrNumber { address: 4095 }, rs1: Reg { number: 10 } }
# amoswap.w x5, x28, (x10), and the like; then amoadd.w.aq, amoadd.w.rl and amoadd.w.aqrl
09c522af|Amo { op: Swap, rd: Reg { number: 5 }, rs1: Reg { number: 10 }, rs2: Reg { number: 28 }, acquire: false, release: false }
01c522af|Amo { op: Add, rd: Reg { number: 5 }, rs1: Reg { number: 10 }, rs2: Reg { number: 28 }, acquire: false, release: false }
21c522af|Amo { op: Xor, rd: Reg { number: 5 }, rs1: Reg { number: 10 }, rs2: Reg { number: 28 }, acquire: false, release: false }
61c522af|Amo { op: And, rd: Reg { number: 5 }, rs1: Reg { number: 10 }, rs2: Reg { number: 28 }, acquire: false, release: false }
41c522af|Amo { op: Or, rd: Reg { number: 5 }, rs1: Reg { number: 10 }, rs2: Reg { number: 28 }, acquire: false, release: false }
81c522af|Amo { op: Min, rd: Reg { number: 5 }, rs1: Reg { number: 10 }, rs2: Reg { number: 28 }, acquire: false, release: false }
a1c522af|Amo { op: Max, rd: Reg { number: 5 }, rs1: Reg { number: 10 }, rs2: Reg { number: 28 }, acquire: false, release: false }
c1c522af|Amo { op: MinUnsigned, rd: Reg { number: 5 }, rs1: Reg { number: 10 }, rs2: Reg { number: 28 }, acquire: false, release: false }
e1c522af|Amo { op: MaxUnsigned, rd: Reg { number: 5 }, rs1: Reg { number: 10 }, rs2: Reg { number: 28 }, acquire: false, release: false }
05c522af|Amo { op: Add, rd: Reg { number: 5 }, rs1: Reg { number: 10 }, rs2: Reg { number: 28 }, acquire: true, release: false }
03c522af|Amo { op: Add, rd: Reg { number: 5 }, rs1: Reg { number: 10 }, rs2: Reg { number: 28 }, acquire: false, release: true }
07c522af|Amo { op: Add, rd: Reg { number: 5 }, rs1: Reg { number: 10 }, rs2: Reg { number: 28 }, acquire: true, release: true }
# fence iorw, iorw; fence rw, w; fence.tso; pause: each is written as one that orders all
0ff0000f|Fence 0000000f
0310000f|Fence 0000000f
8330000f|Fence 0000000f
0100000f|Fence 0000000f
# what is no instruction: no instruction at all, by the standard
00000000|nothing
ffffffff|nothing
# c.nop, c.ebreak and c.addi x5, -1, each with c.nop above it
00010001|nothing
00019002|nothing
000112fd|nothing
# jalr with funct3 1; branches with funct3 2 and 3; loads with funct3 3 and 6; a store with 3
eef512e7|nothing
abc525e3|nothing
abc535e3|nothing
eef53283|nothing
eef56283|nothing
efc537a3|nothing
# slli, srli and srai with a bit of funct7 wrong; slli with that of srai
03351293|nothing
81355293|nothing
43355293|nothing
41351293|nothing
# add, sra and mul with a bit of funct7 wrong; slt and and with that of sub
05c502b3|nothing
43c552b3|nothing
07c502b3|nothing
41c522b3|nothing
41c572b3|nothing
# fence.i
0000100f|nothing
# ecall with rd 1 and with rs1 1; mret with rd 1; wfi with rs1 1; funct3 4 of SYSTEM
000000f3|nothing
00008073|nothing
302000f3|nothing
10508073|nothing
341542f3|nothing
# sret, dret, sfence.vma x0, x0
10200073|nothing
7b200073|nothing
12000073|nothing
# amoadd with funct3 1 and 3 (.d); lr.w; sc.w; amo bits 00110, 01001 and 11101
01c512af|nothing
01c532af|nothing
100522af|nothing
19c522af|nothing
31c522af|nothing
49c522af|nothing
e9c522af|nothing
# flw f5, 0(x10); addiw x5, x10, -1 and add.w of RV64; custom-0
00052287|nothing
fff5029b|nothing
01c502bb|nothing
0000000b|nothing
";

/// How the instruction is written that a word is, with its word where that is another.
fn shown(alloc: Global, word: u32) -> Result<String, Memory> {
    let Some(instr) = decode(word) else {
        return Ok(format!(in alloc; "nothing")?);
    };
    let again = encode(instr);
    if again == word {
        Ok(format!(in alloc; "{instr:?}")?)
    } else {
        Ok(format!(in alloc; "{instr:?} {again:08x}")?)
    }
}

fn is_comment(line: &[u8]) -> bool {
    match line {
        [b'#', ..] => true,
        _ => false,
    }
}

/// Whether the word is shown so.
fn is_shown(alloc: Global, word: &str, wanted: &str) -> Result<bool, Memory> {
    match read_word(word.as_bytes()) {
        Some(word) => Ok(shown(alloc, word)?.as_str() == wanted),
        None => Ok(is_comment(word.as_bytes())),
    }
}

/// The first line whose word is shown otherwise.
fn first_wrong(alloc: Global, lines: &'static str) -> Result<Option<&'static str>, Memory> {
    for line in lines.lines() {
        let (word, wanted) = row(line);
        if !is_shown(alloc, word, wanted)? {
            return Ok(Some(line));
        }
    }
    Ok(None)
}

/// Operands of the greatest numbers, which they keep.
fn greatest() -> (u8, u16, u8, u8) {
    (
        Reg::new(31).number(),
        CsrNumber::new(0xf14).number(),
        ShiftAmount::new(31).places(),
        Uimm5::new(31).value(),
    )
}

/// The word of an immediate, where it is one.
fn immediate(word: u32) -> Option<u32> {
    match Imm12::new(word) {
        Some(imm) => Some(imm.word()),
        None => None,
    }
}

fn branch_offset(word: u32) -> Option<u32> {
    match BranchOffset::new(word) {
        Some(offset) => Some(offset.word()),
        None => None,
    }
}

fn jump_offset(word: u32) -> Option<u32> {
    match JumpOffset::new(word) {
        Some(offset) => Some(offset.word()),
        None => None,
    }
}

fn upper_immediate(word: u32) -> Option<u32> {
    match UpperImm::new(word) {
        Some(imm) => Some(imm.word()),
        None => None,
    }
}

/// An immediate, the offsets of a branch and of a jump, and an upper immediate, where they are there.
fn immediates(words: [u32; 4]) -> [Option<u32>; 4] {
    let [imm, branch, jump, upper] = words;
    [
        immediate(imm),
        branch_offset(branch),
        jump_offset(jump),
        upper_immediate(upper),
    ]
}

fn operands_are_right() -> bool {
    let there = [0xffff_f800, 0xffff_f000, 0x000f_fffe, 0x8000_0000];
    let [imm, branch, jump, upper] = there;
    greatest() == (31, 0xf14, 31, 31)
        && immediates(there) == [Some(imm), Some(branch), Some(jump), Some(upper)]
        && immediates([0xffff_f7ff, 0x0000_1000, 0x0010_0000, 0x8000_0800]) == [None; 4]
        && immediates([0x0000_0800, 0x0000_0001, 0xffff_ffff, 0x8000_0001]) == [None; 4]
}

#[test]
fn instructions(rt: HostRuntime) -> Result<(), Memory> {
    all_right(&rt, first_wrong(rt.alloc(), INSTRUCTIONS)?);
    assert!(rt; operands_are_right());
    Ok(())
}
