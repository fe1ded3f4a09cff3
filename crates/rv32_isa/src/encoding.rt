// The words of the instructions.
ghost use Rattle.std.specs.Prelude.{◌≡◌, ◌^◌, ◌<◌, ◌+◌, Some};
ghost use Rattle.rv32_isa.specs.Fields.{opcode as opcode_of, rd as rd_of, rs1 as rs1_of, rs2 as rs2_of, funct3 as funct3_of, funct7 as funct7_of, imm_i, imm_s};
ghost use Rattle.rv32_isa.specs.Fields.{imm_b, IsSignExtended, IsEven};
ghost use Rattle.rv32_isa.specs.Decode.{comparison_of, load_of, store_of, imm_op_of, shift_of, reg_op_of, amo_of, branch_at, op_imm_at, op_at, system_at};
ghost use Rattle.rv32_isa.specs.Decode.{amo_at, decode_of};
ghost use Rattle.rv32_isa.specs.Encode.{comparison_code, load_code, store_code, imm_op_code, csr_op_code, shift_code, shift_funct7, reg_op_code, reg_op_funct7};
ghost use Rattle.rv32_isa.specs.Encode.{amo_code, r_form, i_form, s_form, b_form, u_form, j_form, encoding};

use super::instruction::{Comparison, CsrOp, ImmOp, Instr, LoadKind, RegOp, ShiftOp, StoreKind};
use super::operands::{BranchOffset, CsrNumber, Reg, ShiftAmount, Uimm5, UpperImm};
use zaamo::AmoOp;

fn code_of_comparison(comparison: Comparison) -> u32
    ensures value { result ≡ comparison_code comparison }
    ensures again { comparison_of result ≡ Some comparison }
    ensures below { result < 8 }
{
    match comparison {
        Comparison::Equal => 0,
        Comparison::NotEqual => 1,
        Comparison::Less => 4,
        Comparison::GreaterEqual => 5,
        Comparison::LessUnsigned => 6,
        Comparison::GreaterEqualUnsigned => 7,
    }
}

fn code_of_load(kind: LoadKind) -> u32
    ensures value { result ≡ load_code kind }
    ensures again { load_of result ≡ Some kind }
    ensures below { result < 8 }
{
    match kind {
        LoadKind::Byte => 0,
        LoadKind::Half => 1,
        LoadKind::Word => 2,
        LoadKind::ByteUnsigned => 4,
        LoadKind::HalfUnsigned => 5,
    }
}

fn code_of_store(kind: StoreKind) -> u32
    ensures value { result ≡ store_code kind }
    ensures again { store_of result ≡ Some kind }
    ensures below { result < 8 }
{
    match kind {
        StoreKind::Byte => 0,
        StoreKind::Half => 1,
        StoreKind::Word => 2,
    }
}

fn code_of_imm_op(op: ImmOp) -> u32
    ensures value { result ≡ imm_op_code op }
    ensures again { imm_op_of result ≡ Some op }
    ensures below { result < 8 }
{
    match op {
        ImmOp::Add => 0,
        ImmOp::SetLess => 2,
        ImmOp::SetLessUnsigned => 3,
        ImmOp::Xor => 4,
        ImmOp::Or => 6,
        ImmOp::And => 7,
    }
}

fn code_of_csr_op(op: CsrOp) -> u32
    ensures value { result ≡ csr_op_code op }
    ensures below { result < 4 }
{
    match op {
        CsrOp::Write => 1,
        CsrOp::Set => 2,
        CsrOp::Clear => 3,
    }
}

fn code_of_shift(op: ShiftOp) -> u32
    ensures value { result ≡ shift_code op }
    ensures again { shift_of (shift_funct7 op) result ≡ Some op }
    ensures below { result < 8 }
{
    match op {
        ShiftOp::Left => 1,
        ShiftOp::Right => 5,
        ShiftOp::RightSigned => 5,
    }
}

fn funct7_of_shift(op: ShiftOp) -> u32
    ensures value { result ≡ shift_funct7 op }
    ensures below { result < 128 }
{
    match op {
        ShiftOp::Left => 0b0000000,
        ShiftOp::Right => 0b0000000,
        ShiftOp::RightSigned => 0b0100000,
    }
}

fn code_of_reg_op(op: RegOp) -> u32
    ensures value { result ≡ reg_op_code op }
    ensures again { reg_op_of (reg_op_funct7 op) result ≡ Some op }
    ensures below { result < 8 }
{
    match op {
        RegOp::Add => 0,
        RegOp::ShiftLeft => 1,
        RegOp::SetLess => 2,
        RegOp::SetLessUnsigned => 3,
        RegOp::Xor => 4,
        RegOp::ShiftRight => 5,
        RegOp::Or => 6,
        RegOp::And => 7,
        RegOp::Sub => 0,
        RegOp::ShiftRightSigned => 5,
        RegOp::Mul => 0,
        RegOp::MulHigh => 1,
        RegOp::MulHighSignedUnsigned => 2,
        RegOp::MulHighUnsigned => 3,
        RegOp::Div => 4,
        RegOp::DivUnsigned => 5,
        RegOp::Rem => 6,
        RegOp::RemUnsigned => 7,
    }
}

fn funct7_of_reg_op(op: RegOp) -> u32
    ensures value { result ≡ reg_op_funct7 op }
    ensures below { result < 128 }
{
    match op {
        RegOp::Add => 0b0000000,
        RegOp::ShiftLeft => 0b0000000,
        RegOp::SetLess => 0b0000000,
        RegOp::SetLessUnsigned => 0b0000000,
        RegOp::Xor => 0b0000000,
        RegOp::ShiftRight => 0b0000000,
        RegOp::Or => 0b0000000,
        RegOp::And => 0b0000000,
        RegOp::Sub => 0b0100000,
        RegOp::ShiftRightSigned => 0b0100000,
        RegOp::Mul => 0b0000001,
        RegOp::MulHigh => 0b0000001,
        RegOp::MulHighSignedUnsigned => 0b0000001,
        RegOp::MulHighUnsigned => 0b0000001,
        RegOp::Div => 0b0000001,
        RegOp::DivUnsigned => 0b0000001,
        RegOp::Rem => 0b0000001,
        RegOp::RemUnsigned => 0b0000001,
    }
}

fn code_of_amo(op: AmoOp) -> u32
    ensures value { result ≡ amo_code op }
    ensures again { amo_of result ≡ Some op }
    ensures below { result < 32 }
{
    match op {
        AmoOp::Swap => 0b00001,
        AmoOp::Add => 0b00000,
        AmoOp::Xor => 0b00100,
        AmoOp::And => 0b01100,
        AmoOp::Or => 0b01000,
        AmoOp::Min => 0b10000,
        AmoOp::Max => 0b10100,
        AmoOp::MinUnsigned => 0b11000,
        AmoOp::MaxUnsigned => 0b11100,
    }
}

fn r_word(funct7: u32, rs2: u8, rs1: Reg, funct3: u32, rd: Reg, opcode: u32) -> u32
    requires funct7 { funct7 < 2 ^ 7 }
    requires rs2 { rs2 < 2 ^ 5 }
    requires funct3 { funct3 < 2 ^ 3 }
    requires opcode { opcode < 2 ^ 7 }
    ensures value { result ≡ r_form funct7 rs2 rs1 funct3 rd opcode }
    ensures funct7 { funct7_of result ≡ funct7 }
    ensures rs2 { rs2_of result ≡ rs2 }
    ensures rs1 { rs1_of result ≡ rs1 }
    ensures funct3 { funct3_of result ≡ funct3 }
    ensures rd { rd_of result ≡ rd }
    ensures opcode { opcode_of result ≡ opcode }
{
    (funct7 << 25)
        + (u32::from(rs2) << 20)
        + (u32::from(rs1.number()) << 15)
        + (funct3 << 12)
        + (u32::from(rd.number()) << 7)
        + opcode
}

fn i_word(imm: u32, rs1: u8, funct3: u32, rd: Reg, opcode: u32) -> u32
    requires rs1 { rs1 < 2 ^ 5 }
    requires funct3 { funct3 < 2 ^ 3 }
    requires opcode { opcode < 2 ^ 7 }
    ensures value { result ≡ i_form imm rs1 funct3 rd opcode }
    ensures imm { IsSignExtended 12 imm → imm_i result ≡ imm }
    ensures rs1 { rs1_of result ≡ rs1 }
    ensures funct3 { funct3_of result ≡ funct3 }
    ensures rd { rd_of result ≡ rd }
    ensures opcode { opcode_of result ≡ opcode }
{
    (imm << 20) + (u32::from(rs1) << 15) + (funct3 << 12) + (u32::from(rd.number()) << 7) + opcode
}

fn s_word(imm: u32, rs2: Reg, rs1: Reg, funct3: u32, opcode: u32) -> u32
    requires funct3 { funct3 < 2 ^ 3 }
    requires opcode { opcode < 2 ^ 7 }
    ensures value { result ≡ s_form imm rs2 rs1 funct3 opcode }
    ensures imm { IsSignExtended 12 imm → imm_s result ≡ imm }
    ensures rs2 { rs2_of result ≡ rs2 }
    ensures rs1 { rs1_of result ≡ rs1 }
    ensures funct3 { funct3_of result ≡ funct3 }
    ensures opcode { opcode_of result ≡ opcode }
{
    ((imm >> 5 & 0x7f) << 25)
        + (u32::from(rs2.number()) << 20)
        + (u32::from(rs1.number()) << 15)
        + (funct3 << 12)
        + ((imm & 0x1f) << 7)
        + opcode
}

fn b_word(imm: u32, rs2: Reg, rs1: Reg, funct3: u32, opcode: u32) -> u32
    requires funct3 { funct3 < 2 ^ 3 }
    requires opcode { opcode < 2 ^ 7 }
    ensures value { result ≡ b_form imm rs2 rs1 funct3 opcode }
    ensures imm { IsSignExtended 13 imm → IsEven imm → imm_b result ≡ imm }
    ensures rs2 { rs2_of result ≡ rs2 }
    ensures rs1 { rs1_of result ≡ rs1 }
    ensures funct3 { funct3_of result ≡ funct3 }
    ensures opcode { opcode_of result ≡ opcode }
{
    ((imm >> 12 & 1) << 31)
        + ((imm >> 5 & 0x3f) << 25)
        + (u32::from(rs2.number()) << 20)
        + (u32::from(rs1.number()) << 15)
        + (funct3 << 12)
        + ((imm >> 1 & 0xf) << 8)
        + ((imm >> 11 & 1) << 7)
        + opcode
}

fn u_word(imm: UpperImm, rd: Reg, opcode: u32) -> u32
    requires { opcode < 2 ^ 7 }
    ensures { result ≡ u_form imm rd opcode }
{
    imm.word() + (u32::from(rd.number()) << 7) + opcode
}

fn j_word(imm: u32, rd: Reg, opcode: u32) -> u32
    requires { opcode < 2 ^ 7 }
    ensures { result ≡ j_form imm rd opcode }
{
    ((imm >> 20 & 1) << 31)
        + ((imm >> 1 & 0x3ff) << 21)
        + ((imm >> 11 & 1) << 20)
        + ((imm >> 12 & 0xff) << 12)
        + (u32::from(rd.number()) << 7)
        + opcode
}

fn branch_word(comparison: Comparison, rs1: Reg, rs2: Reg, offset: BranchOffset) -> u32
    ensures value { result ≡ encoding (Instr.Branch comparison rs1 rs2 offset) }
    ensures opcode { opcode_of result ≡ 0b1100011 }
    ensures row { branch_at result ≡ Some (Instr.Branch comparison rs1 rs2 offset) }
{
    b_word(
        offset.word(),
        rs2,
        rs1,
        code_of_comparison(comparison),
        0b1100011,
    )
}

fn shift_word(op: ShiftOp, rd: Reg, rs1: Reg, amount: ShiftAmount) -> u32
    ensures value { result ≡ encoding (Instr.ShiftImm op rd rs1 amount) }
    ensures opcode { opcode_of result ≡ 0b0010011 }
    ensures row { op_imm_at result ≡ Some (Instr.ShiftImm op rd rs1 amount) }
{
    r_word(
        funct7_of_shift(op),
        amount.places(),
        rs1,
        code_of_shift(op),
        rd,
        0b0010011,
    )
}

fn op_word(op: RegOp, rd: Reg, rs1: Reg, rs2: Reg) -> u32
    ensures value { result ≡ encoding (Instr.Op op rd rs1 rs2) }
    ensures opcode { opcode_of result ≡ 0b0110011 }
    ensures row { op_at result ≡ Some (Instr.Op op rd rs1 rs2) }
{
    r_word(
        funct7_of_reg_op(op),
        rs2.number(),
        rs1,
        code_of_reg_op(op),
        rd,
        0b0110011,
    )
}

fn csr_reg_word(op: CsrOp, rd: Reg, csr: CsrNumber, rs1: Reg) -> u32
    ensures value { result ≡ encoding (Instr.CsrReg op rd csr rs1) }
    ensures opcode { opcode_of result ≡ 0b1110011 }
    ensures row { system_at result ≡ Some (Instr.CsrReg op rd csr rs1) }
{
    i_word(
        u32::from(csr.number()),
        rs1.number(),
        code_of_csr_op(op),
        rd,
        0b1110011,
    )
}

fn csr_imm_word(op: CsrOp, rd: Reg, csr: CsrNumber, imm: Uimm5) -> u32
    ensures value { result ≡ encoding (Instr.CsrImm op rd csr imm) }
    ensures opcode { opcode_of result ≡ 0b1110011 }
    ensures row { system_at result ≡ Some (Instr.CsrImm op rd csr imm) }
{
    i_word(
        u32::from(csr.number()),
        imm.value(),
        code_of_csr_op(op) + 4,
        rd,
        0b1110011,
    )
}

fn amo_word(op: AmoOp, rd: Reg, rs1: Reg, rs2: Reg, acquire: bool, release: bool) -> u32
    ensures value { result ≡ encoding (Instr.Amo op rd rs1 rs2 acquire release) }
    ensures opcode { opcode_of result ≡ 0b0101111 }
    ensures row { amo_at result ≡ Some (Instr.Amo op rd rs1 rs2 acquire release) }
{
    let flags = u32::from(acquire) * 2 + u32::from(release);
    r_word(
        code_of_amo(op) * 4 + flags,
        rs2.number(),
        rs1,
        2,
        rd,
        0b0101111,
    )
}

/// The word of an instruction.
pub fn encode(instr: Instr) -> u32
    ensures value { result ≡ encoding instr }
    ensures decodes { decode_of result ≡ Some instr }
{
    match instr {
        Instr::Lui { rd, imm } => u_word(imm, rd, 0b0110111),
        Instr::Auipc { rd, imm } => u_word(imm, rd, 0b0010111),
        Instr::Jal { rd, offset } => j_word(offset.word(), rd, 0b1101111),
        Instr::Jalr { rd, rs1, imm } => i_word(imm.word(), rs1.number(), 0, rd, 0b1100111),
        Instr::Branch {
            comparison,
            rs1,
            rs2,
            offset,
        } => branch_word(comparison, rs1, rs2, offset),
        Instr::Load { kind, rd, rs1, imm } => {
            i_word(imm.word(), rs1.number(), code_of_load(kind), rd, 0b0000011)
        }
        Instr::Store {
            kind,
            rs1,
            rs2,
            imm,
        } => { s_word(imm.word(), rs2, rs1, code_of_store(kind), 0b0100011) }
        Instr::OpImm { op, rd, rs1, imm } => {
            i_word(imm.word(), rs1.number(), code_of_imm_op(op), rd, 0b0010011)
        }
        Instr::ShiftImm {
            op,
            rd,
            rs1,
            amount,
        } => shift_word(op, rd, rs1, amount),
        Instr::Op { op, rd, rs1, rs2 } => op_word(op, rd, rs1, rs2),
        Instr::Fence => 0x0000_000f,
        Instr::Ecall => 0x0000_0073,
        Instr::Ebreak => 0x0010_0073,
        Instr::Mret => 0x3020_0073,
        Instr::Wfi => 0x1050_0073,
        Instr::CsrReg { op, rd, csr, rs1 } => csr_reg_word(op, rd, csr, rs1),
        Instr::CsrImm { op, rd, csr, imm } => csr_imm_word(op, rd, csr, imm),
        Instr::Amo {
            op,
            rd,
            rs1,
            rs2,
            acquire,
            release,
        } => amo_word(op, rd, rs1, rs2, acquire, release),
    }
}
