// The instructions of the words.
ghost use Rattle.std.specs.Prelude.{◌≡◌, ◌≢◌, ◌+◌, IfSome};
ghost use Rattle.rv32_isa.specs.Fields.{opcode as opcode_of, funct3 as funct3_of};
ghost use Rattle.rv32_isa.specs.Decode.{comparison_of, load_of, store_of, imm_op_of, shift_of, base_op_of, alternate_op_of, multiply_op_of, reg_op_of, amo_of};
ghost use Rattle.rv32_isa.specs.Decode.{jalr_at, branch_at, load_at, store_at, op_imm_at, op_at, fence_at, whole_word_at, csr_reg_at, csr_imm_at, system_at};
ghost use Rattle.rv32_isa.specs.Decode.{amo_at, decode_of};
ghost use Rattle.rv32_isa.specs.Encode.{comparison_code, load_code, store_code, imm_op_code, shift_code, shift_funct7, reg_op_code, reg_op_funct7, csr_op_code};
ghost use Rattle.rv32_isa.specs.Encode.{amo_code, encoding};

use super::fields::{
    acquire, csr_immediate, csr_number, funct3, funct5, funct7, immediate_b, immediate_i,
    immediate_j, immediate_s, immediate_u, opcode, rd, release, rs1, rs2, shift_amount,
};
use super::instruction::{Comparison, CsrOp, ImmOp, Instr, LoadKind, RegOp, ShiftOp, StoreKind};
use zaamo::AmoOp;

#[inline(always)]
fn comparison(funct3: u32) -> Option<Comparison>
    ensures value { result ≡ comparison_of funct3 }
    ensures back { IfSome result (λ o. comparison_code o ≡ funct3) }
{
    match funct3 {
        0 => Some(Comparison::Equal),
        1 => Some(Comparison::NotEqual),
        4 => Some(Comparison::Less),
        5 => Some(Comparison::GreaterEqual),
        6 => Some(Comparison::LessUnsigned),
        7 => Some(Comparison::GreaterEqualUnsigned),
        _ => None,
    }
}

#[inline(always)]
fn load_kind(funct3: u32) -> Option<LoadKind>
    ensures value { result ≡ load_of funct3 }
    ensures back { IfSome result (λ o. load_code o ≡ funct3) }
{
    match funct3 {
        0 => Some(LoadKind::Byte),
        1 => Some(LoadKind::Half),
        2 => Some(LoadKind::Word),
        4 => Some(LoadKind::ByteUnsigned),
        5 => Some(LoadKind::HalfUnsigned),
        _ => None,
    }
}

#[inline(always)]
fn store_kind(funct3: u32) -> Option<StoreKind>
    ensures value { result ≡ store_of funct3 }
    ensures back { IfSome result (λ o. store_code o ≡ funct3) }
{
    match funct3 {
        0 => Some(StoreKind::Byte),
        1 => Some(StoreKind::Half),
        2 => Some(StoreKind::Word),
        _ => None,
    }
}

#[inline(always)]
fn imm_op(funct3: u32) -> Option<ImmOp>
    ensures value { result ≡ imm_op_of funct3 }
    ensures back { IfSome result (λ o. imm_op_code o ≡ funct3) }
{
    match funct3 {
        0 => Some(ImmOp::Add),
        2 => Some(ImmOp::SetLess),
        3 => Some(ImmOp::SetLessUnsigned),
        4 => Some(ImmOp::Xor),
        6 => Some(ImmOp::Or),
        7 => Some(ImmOp::And),
        _ => None,
    }
}

#[inline(always)]
fn shift_op(funct7: u32, funct3: u32) -> Option<ShiftOp>
    ensures value { result ≡ shift_of funct7 funct3 }
    ensures back { IfSome result (λ o. shift_code o ≡ funct3) }
    ensures funct7 { IfSome result (λ o. shift_funct7 o ≡ funct7) }
{
    match (funct7, funct3) {
        (0b0000000, 1) => Some(ShiftOp::Left),
        (0b0000000, 5) => Some(ShiftOp::Right),
        (0b0100000, 5) => Some(ShiftOp::RightSigned),
        _ => None,
    }
}

#[inline(always)]
fn base_op(funct3: u32) -> Option<RegOp>
    ensures value { result ≡ base_op_of funct3 }
    ensures back { IfSome result (λ o. reg_op_code o ≡ funct3) }
    ensures funct7 { IfSome result (λ o. reg_op_funct7 o ≡ 0) }
{
    match funct3 {
        0 => Some(RegOp::Add),
        1 => Some(RegOp::ShiftLeft),
        2 => Some(RegOp::SetLess),
        3 => Some(RegOp::SetLessUnsigned),
        4 => Some(RegOp::Xor),
        5 => Some(RegOp::ShiftRight),
        6 => Some(RegOp::Or),
        7 => Some(RegOp::And),
        _ => None,
    }
}

#[inline(always)]
fn alternate_op(funct3: u32) -> Option<RegOp>
    ensures value { result ≡ alternate_op_of funct3 }
    ensures back { IfSome result (λ o. reg_op_code o ≡ funct3) }
    ensures funct7 { IfSome result (λ o. reg_op_funct7 o ≡ 32) }
{
    match funct3 {
        0 => Some(RegOp::Sub),
        5 => Some(RegOp::ShiftRightSigned),
        _ => None,
    }
}

#[inline(always)]
fn multiply_op(funct3: u32) -> Option<RegOp>
    ensures value { result ≡ multiply_op_of funct3 }
    ensures back { IfSome result (λ o. reg_op_code o ≡ funct3) }
    ensures funct7 { IfSome result (λ o. reg_op_funct7 o ≡ 1) }
{
    match funct3 {
        0 => Some(RegOp::Mul),
        1 => Some(RegOp::MulHigh),
        2 => Some(RegOp::MulHighSignedUnsigned),
        3 => Some(RegOp::MulHighUnsigned),
        4 => Some(RegOp::Div),
        5 => Some(RegOp::DivUnsigned),
        6 => Some(RegOp::Rem),
        7 => Some(RegOp::RemUnsigned),
        _ => None,
    }
}

#[inline(always)]
fn reg_op(funct7: u32, funct3: u32) -> Option<RegOp>
    ensures value { result ≡ reg_op_of funct7 funct3 }
    ensures back { IfSome result (λ o. reg_op_code o ≡ funct3) }
    ensures funct7 { IfSome result (λ o. reg_op_funct7 o ≡ funct7) }
{
    match funct7 {
        0b0000000 => base_op(funct3),
        0b0100000 => alternate_op(funct3),
        0b0000001 => multiply_op(funct3),
        _ => None,
    }
}

#[inline(always)]
fn amo_op(funct5: u32) -> Option<AmoOp>
    ensures value { result ≡ amo_of funct5 }
    ensures back { IfSome result (λ o. amo_code o ≡ funct5) }
{
    match funct5 {
        0b00001 => Some(AmoOp::Swap),
        0b00000 => Some(AmoOp::Add),
        0b00100 => Some(AmoOp::Xor),
        0b01100 => Some(AmoOp::And),
        0b01000 => Some(AmoOp::Or),
        0b10000 => Some(AmoOp::Min),
        0b10100 => Some(AmoOp::Max),
        0b11000 => Some(AmoOp::MinUnsigned),
        0b11100 => Some(AmoOp::MaxUnsigned),
        _ => None,
    }
}

#[inline(always)]
fn jalr(word: u32) -> Option<Instr>
    requires opcode { opcode_of word ≡ 0b1100111 }
    ensures value { result ≡ jalr_at word }
    ensures back { IfSome result (λ i. encoding i ≡ word) }
{
    if funct3(word) != 0 {
        return None;
    }
    Some(Instr::Jalr {
        rd: rd(word),
        rs1: rs1(word),
        imm: immediate_i(word),
    })
}

#[inline(always)]
fn branch(word: u32) -> Option<Instr>
    requires opcode { opcode_of word ≡ 0b1100011 }
    ensures value { result ≡ branch_at word }
    ensures back { IfSome result (λ i. encoding i ≡ word) }
{
    let comparison = comparison(funct3(word))?;
    Some(Instr::Branch {
        comparison,
        rs1: rs1(word),
        rs2: rs2(word),
        offset: immediate_b(word),
    })
}

#[inline(always)]
fn load(word: u32) -> Option<Instr>
    requires opcode { opcode_of word ≡ 0b0000011 }
    ensures value { result ≡ load_at word }
    ensures back { IfSome result (λ i. encoding i ≡ word) }
{
    let kind = load_kind(funct3(word))?;
    Some(Instr::Load {
        kind,
        rd: rd(word),
        rs1: rs1(word),
        imm: immediate_i(word),
    })
}

#[inline(always)]
fn store(word: u32) -> Option<Instr>
    requires opcode { opcode_of word ≡ 0b0100011 }
    ensures value { result ≡ store_at word }
    ensures back { IfSome result (λ i. encoding i ≡ word) }
{
    let kind = store_kind(funct3(word))?;
    Some(Instr::Store {
        kind,
        rs1: rs1(word),
        rs2: rs2(word),
        imm: immediate_s(word),
    })
}

#[inline(always)]
fn op_imm(word: u32) -> Option<Instr>
    requires opcode { opcode_of word ≡ 0b0010011 }
    ensures value { result ≡ op_imm_at word }
    ensures back { IfSome result (λ i. encoding i ≡ word) }
{
    let funct3 = funct3(word);
    if funct3 == 1 || funct3 == 5 {
        let op = shift_op(funct7(word), funct3)?;
        Some(Instr::ShiftImm {
            op,
            rd: rd(word),
            rs1: rs1(word),
            amount: shift_amount(word),
        })
    } else {
        let op = imm_op(funct3)?;
        Some(Instr::OpImm {
            op,
            rd: rd(word),
            rs1: rs1(word),
            imm: immediate_i(word),
        })
    }
}

#[inline(always)]
fn op(word: u32) -> Option<Instr>
    requires opcode { opcode_of word ≡ 0b0110011 }
    ensures value { result ≡ op_at word }
    ensures back { IfSome result (λ i. encoding i ≡ word) }
{
    let op = reg_op(funct7(word), funct3(word))?;
    Some(Instr::Op {
        op,
        rd: rd(word),
        rs1: rs1(word),
        rs2: rs2(word),
    })
}

#[inline(always)]
fn fence(word: u32) -> Option<Instr>
    ensures value { result ≡ fence_at word }
{
    if funct3(word) == 0 {
        Some(Instr::Fence)
    } else {
        None
    }
}

#[inline(always)]
fn whole_word(word: u32) -> Option<Instr>
    ensures value { result ≡ whole_word_at word }
    ensures back { IfSome result (λ i. encoding i ≡ word) }
{
    match word {
        0x0000_0073 => Some(Instr::Ecall),
        0x0010_0073 => Some(Instr::Ebreak),
        0x3020_0073 => Some(Instr::Mret),
        0x1050_0073 => Some(Instr::Wfi),
        _ => None,
    }
}

#[inline(always)]
fn csr_reg(word: u32, op: CsrOp) -> Instr
    requires opcode { opcode_of word ≡ 0b1110011 }
    requires funct3 { funct3_of word ≡ csr_op_code op }
    ensures value { result ≡ csr_reg_at word op }
    ensures back { encoding result ≡ word }
{
    Instr::CsrReg {
        op,
        rd: rd(word),
        csr: csr_number(word),
        rs1: rs1(word),
    }
}

#[inline(always)]
fn csr_imm(word: u32, op: CsrOp) -> Instr
    requires opcode { opcode_of word ≡ 0b1110011 }
    requires funct3 { funct3_of word ≡ csr_op_code op + 4 }
    ensures value { result ≡ csr_imm_at word op }
    ensures back { encoding result ≡ word }
{
    Instr::CsrImm {
        op,
        rd: rd(word),
        csr: csr_number(word),
        imm: csr_immediate(word),
    }
}

#[inline(always)]
fn system(word: u32) -> Option<Instr>
    requires opcode { opcode_of word ≡ 0b1110011 }
    ensures value { result ≡ system_at word }
    ensures back { IfSome result (λ i. encoding i ≡ word) }
{
    match funct3(word) {
        0 => whole_word(word),
        1 => Some(csr_reg(word, CsrOp::Write)),
        2 => Some(csr_reg(word, CsrOp::Set)),
        3 => Some(csr_reg(word, CsrOp::Clear)),
        5 => Some(csr_imm(word, CsrOp::Write)),
        6 => Some(csr_imm(word, CsrOp::Set)),
        7 => Some(csr_imm(word, CsrOp::Clear)),
        _ => None,
    }
}

#[inline(always)]
fn amo(word: u32) -> Option<Instr>
    requires opcode { opcode_of word ≡ 0b0101111 }
    ensures value { result ≡ amo_at word }
    ensures back { IfSome result (λ i. encoding i ≡ word) }
{
    if funct3(word) != 2 {
        return None;
    }
    let op = amo_op(funct5(word))?;
    Some(Instr::Amo {
        op,
        rd: rd(word),
        rs1: rs1(word),
        rs2: rs2(word),
        acquire: acquire(word),
        release: release(word),
    })
}

/// The instruction that a word encodes, or `None` for an illegal word.
#[inline(always)]
pub fn decode(word: u32) -> Option<Instr>
    ensures value { result ≡ decode_of word }
    ensures back { IfSome result (λ i. i ≢ Instr.Fence → encoding i ≡ word) }
{
    match opcode(word) {
        0b0110111 => Some(Instr::Lui {
            rd: rd(word),
            imm: immediate_u(word),
        }),
        0b0010111 => Some(Instr::Auipc {
            rd: rd(word),
            imm: immediate_u(word),
        }),
        0b1101111 => Some(Instr::Jal {
            rd: rd(word),
            offset: immediate_j(word),
        }),
        0b1100111 => jalr(word),
        0b1100011 => branch(word),
        0b0000011 => load(word),
        0b0100011 => store(word),
        0b0010011 => op_imm(word),
        0b0110011 => op(word),
        0b0001111 => fence(word),
        0b1110011 => system(word),
        0b0101111 => amo(word),
        _ => None,
    }
}
