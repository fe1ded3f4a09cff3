// The fields of an instruction word.
ghost use Rattle.std.specs.Prelude.{◌≡◌, ◌^◌, ◌<◌};
ghost use Rattle.rv32_isa.specs.Fields.{opcode as opcode_of, rd as rd_of, funct3 as funct3_of, rs1 as rs1_of, rs2 as rs2_of, funct7 as funct7_of};
ghost use Rattle.rv32_isa.specs.Fields.{funct5 as funct5_of, acquire as acquire_of, release as release_of, csr as csr_of, bits_b, bits_j, imm_i, imm_s, imm_b};
ghost use Rattle.rv32_isa.specs.Fields.{imm_u, imm_j, IsEven};

use super::operands::{
    BranchOffset, CsrNumber, Imm12, JumpOffset, Reg, ShiftAmount, Uimm5, UpperImm,
};

#[inline(always)]
pub(crate) fn opcode(word: u32) -> u32
    ensures value { result ≡ opcode_of word }
{
    word & 0x7f
}

#[inline(always)]
pub(crate) fn rd(word: u32) -> Reg
    ensures value { result ≡ rd_of word }
{
    Reg::new((word >> 7 & 0x1f) as u8)
}

#[inline(always)]
pub(crate) fn funct3(word: u32) -> u32
    ensures value { result ≡ funct3_of word }
{
    word >> 12 & 7
}

#[inline(always)]
pub(crate) fn rs1(word: u32) -> Reg
    ensures value { result ≡ rs1_of word }
{
    Reg::new((word >> 15 & 0x1f) as u8)
}

#[inline(always)]
pub(crate) fn rs2(word: u32) -> Reg
    ensures value { result ≡ rs2_of word }
{
    Reg::new((word >> 20 & 0x1f) as u8)
}

#[inline(always)]
pub(crate) fn funct7(word: u32) -> u32
    ensures value { result ≡ funct7_of word }
{
    word >> 25
}

#[inline(always)]
pub(crate) fn funct5(word: u32) -> u32
    ensures value { result ≡ funct5_of word }
{
    word >> 27
}

#[inline(always)]
pub(crate) fn acquire(word: u32) -> bool
    ensures value { result ≡ acquire_of word }
{
    word >> 26 & 1 == 1
}

#[inline(always)]
pub(crate) fn release(word: u32) -> bool
    ensures value { result ≡ release_of word }
{
    word >> 25 & 1 == 1
}

// An immediate shift has its amount where rs2 stands.
#[inline(always)]
pub(crate) fn shift_amount(word: u32) -> ShiftAmount
    ensures value { result ≡ rs2_of word }
{
    ShiftAmount::new((word >> 20 & 0x1f) as u8)
}

// A CSR instruction with an immediate has it where rs1 stands.
#[inline(always)]
pub(crate) fn csr_immediate(word: u32) -> Uimm5
    ensures value { result ≡ rs1_of word }
{
    Uimm5::new((word >> 15 & 0x1f) as u8)
}

#[inline(always)]
pub(crate) fn csr_number(word: u32) -> CsrNumber
    ensures value { result ≡ csr_of word }
{
    CsrNumber::new((word >> 20) as u16)
}

#[inline(always)]
pub(crate) fn immediate_i(word: u32) -> Imm12
    ensures value { result ≡ imm_i word }
{
    Imm12::from_extended((word.cast_signed() >> 20).cast_unsigned())
}

#[inline(always)]
pub(crate) fn immediate_s(word: u32) -> Imm12
    ensures value { result ≡ imm_s word }
{
    let bits = word >> 25 << 5 | word >> 7 & 0x1f;
    Imm12::from_extended(if bits < 0x800 {
        bits
    } else {
        bits + 0xffff_f000
    })
}

#[inline(always)]
fn branch_bits(word: u32) -> u32
    ensures value { result ≡ bits_b word }
    ensures below { result < 2 ^ 13 }
    ensures even { IsEven result }
{
    word >> 31 << 12 | ((word >> 7 & 1) << 11 | ((word >> 25 & 0x3f) << 5 | (word >> 8 & 0xf) << 1))
}

#[inline(always)]
pub(crate) fn immediate_b(word: u32) -> BranchOffset
    ensures value { result ≡ imm_b word }
{
    let bits = branch_bits(word);
    BranchOffset::from_extended(if bits < 0x1000 {
        bits
    } else {
        bits + 0xffff_e000
    })
}

#[inline(always)]
pub(crate) fn immediate_u(word: u32) -> UpperImm
    ensures value { result ≡ imm_u word }
{
    UpperImm::from_upper(word & 0xffff_f000)
}

#[inline(always)]
fn jump_bits(word: u32) -> u32
    ensures value { result ≡ bits_j word }
    ensures below { result < 2 ^ 21 }
    ensures even { IsEven result }
{
    (word >> 31 << 20)
        + ((word >> 12 & 0xff) << 12)
        + ((word >> 20 & 1) << 11)
        + ((word >> 21 & 0x3ff) << 1)
}

#[inline(always)]
pub(crate) fn immediate_j(word: u32) -> JumpOffset
    ensures value { result ≡ imm_j word }
{
    let bits = jump_bits(word);
    JumpOffset::from_extended(if bits < 0x10_0000 {
        bits
    } else {
        bits + 0xffe0_0000
    })
}
