//! Words as assembler has them.

use crate::names::{register_name, trimmed};
use crate::stops::put_number;
use ft_types::{Memory, word_text};
use rv32_isa::decode;
use std::alloc::Global;

/// What stands behind a name.
#[derive(Clone, Copy)]
enum Form {
    /// Nothing.
    Bare,
    /// rd and an upper immediate.
    Upper,
    /// rd and a target.
    Jump,
    /// rs1, rs2 and a target.
    Branch,
    /// rd, and an address by rs1.
    Load,
    /// rs2, and an address by rs1.
    Store,
    /// rd, rs1 and an immediate.
    Immediate,
    /// rd, rs1 and a number of places.
    Shift,
    /// rd, rs1 and rs2.
    Registers,
    /// rd, a CSR and rs1.
    CsrRegister,
    /// rd, a CSR and a number.
    CsrImmediate,
    /// rd, rs2, and an address in rs1.
    Atomic,
}

/// Words of one name: those that under the mask have these bits; the name, with spaces behind it; what stands behind that.
type Row = (u32, u32, [u8; 9], Form);

/// opcode.
const OPCODE: u32 = 0x7f;

/// opcode and funct3.
const FUNCT3: u32 = 0x707f;

/// opcode, funct3 and funct7.
const FUNCT7: u32 = 0xfe00_707f;

/// opcode, funct3 and funct5.
const FUNCT5: u32 = 0xf800_707f;

/// The whole word.
const WHOLE: u32 = 0xffff_ffff;

static ROWS: [Row; 65] = [
    (OPCODE, 0x0000_0037, *b"lui      ", Form::Upper),
    (OPCODE, 0x0000_0017, *b"auipc    ", Form::Upper),
    (OPCODE, 0x0000_006f, *b"jal      ", Form::Jump),
    (FUNCT3, 0x0000_0067, *b"jalr     ", Form::Load),
    (FUNCT3, 0x0000_0063, *b"beq      ", Form::Branch),
    (FUNCT3, 0x0000_1063, *b"bne      ", Form::Branch),
    (FUNCT3, 0x0000_4063, *b"blt      ", Form::Branch),
    (FUNCT3, 0x0000_5063, *b"bge      ", Form::Branch),
    (FUNCT3, 0x0000_6063, *b"bltu     ", Form::Branch),
    (FUNCT3, 0x0000_7063, *b"bgeu     ", Form::Branch),
    (FUNCT3, 0x0000_0003, *b"lb       ", Form::Load),
    (FUNCT3, 0x0000_1003, *b"lh       ", Form::Load),
    (FUNCT3, 0x0000_2003, *b"lw       ", Form::Load),
    (FUNCT3, 0x0000_4003, *b"lbu      ", Form::Load),
    (FUNCT3, 0x0000_5003, *b"lhu      ", Form::Load),
    (FUNCT3, 0x0000_0023, *b"sb       ", Form::Store),
    (FUNCT3, 0x0000_1023, *b"sh       ", Form::Store),
    (FUNCT3, 0x0000_2023, *b"sw       ", Form::Store),
    (FUNCT3, 0x0000_0013, *b"addi     ", Form::Immediate),
    (FUNCT3, 0x0000_2013, *b"slti     ", Form::Immediate),
    (FUNCT3, 0x0000_3013, *b"sltiu    ", Form::Immediate),
    (FUNCT3, 0x0000_4013, *b"xori     ", Form::Immediate),
    (FUNCT3, 0x0000_6013, *b"ori      ", Form::Immediate),
    (FUNCT3, 0x0000_7013, *b"andi     ", Form::Immediate),
    (FUNCT7, 0x0000_1013, *b"slli     ", Form::Shift),
    (FUNCT7, 0x0000_5013, *b"srli     ", Form::Shift),
    (FUNCT7, 0x4000_5013, *b"srai     ", Form::Shift),
    (FUNCT7, 0x0000_0033, *b"add      ", Form::Registers),
    (FUNCT7, 0x4000_0033, *b"sub      ", Form::Registers),
    (FUNCT7, 0x0000_1033, *b"sll      ", Form::Registers),
    (FUNCT7, 0x0000_2033, *b"slt      ", Form::Registers),
    (FUNCT7, 0x0000_3033, *b"sltu     ", Form::Registers),
    (FUNCT7, 0x0000_4033, *b"xor      ", Form::Registers),
    (FUNCT7, 0x0000_5033, *b"srl      ", Form::Registers),
    (FUNCT7, 0x4000_5033, *b"sra      ", Form::Registers),
    (FUNCT7, 0x0000_6033, *b"or       ", Form::Registers),
    (FUNCT7, 0x0000_7033, *b"and      ", Form::Registers),
    (FUNCT7, 0x0200_0033, *b"mul      ", Form::Registers),
    (FUNCT7, 0x0200_1033, *b"mulh     ", Form::Registers),
    (FUNCT7, 0x0200_2033, *b"mulhsu   ", Form::Registers),
    (FUNCT7, 0x0200_3033, *b"mulhu    ", Form::Registers),
    (FUNCT7, 0x0200_4033, *b"div      ", Form::Registers),
    (FUNCT7, 0x0200_5033, *b"divu     ", Form::Registers),
    (FUNCT7, 0x0200_6033, *b"rem      ", Form::Registers),
    (FUNCT7, 0x0200_7033, *b"remu     ", Form::Registers),
    (FUNCT3, 0x0000_000f, *b"fence    ", Form::Bare),
    (WHOLE, 0x0000_0073, *b"ecall    ", Form::Bare),
    (WHOLE, 0x0010_0073, *b"ebreak   ", Form::Bare),
    (WHOLE, 0x3020_0073, *b"mret     ", Form::Bare),
    (WHOLE, 0x1050_0073, *b"wfi      ", Form::Bare),
    (FUNCT3, 0x0000_1073, *b"csrrw    ", Form::CsrRegister),
    (FUNCT3, 0x0000_2073, *b"csrrs    ", Form::CsrRegister),
    (FUNCT3, 0x0000_3073, *b"csrrc    ", Form::CsrRegister),
    (FUNCT3, 0x0000_5073, *b"csrrwi   ", Form::CsrImmediate),
    (FUNCT3, 0x0000_6073, *b"csrrsi   ", Form::CsrImmediate),
    (FUNCT3, 0x0000_7073, *b"csrrci   ", Form::CsrImmediate),
    (FUNCT5, 0x0800_202f, *b"amoswap.w", Form::Atomic),
    (FUNCT5, 0x0000_202f, *b"amoadd.w ", Form::Atomic),
    (FUNCT5, 0x2000_202f, *b"amoxor.w ", Form::Atomic),
    (FUNCT5, 0x6000_202f, *b"amoand.w ", Form::Atomic),
    (FUNCT5, 0x4000_202f, *b"amoor.w  ", Form::Atomic),
    (FUNCT5, 0x8000_202f, *b"amomin.w ", Form::Atomic),
    (FUNCT5, 0xa000_202f, *b"amomax.w ", Form::Atomic),
    (FUNCT5, 0xc000_202f, *b"amominu.w", Form::Atomic),
    (FUNCT5, 0xe000_202f, *b"amomaxu.w", Form::Atomic),
];

/// The row of a word.
fn row_of(word: u32) -> Option<&'static Row> {
    for row in &ROWS {
        let (mask, bits, _, _) = row;
        if word & *mask == *bits {
            return Some(row);
        }
    }
    None
}

/// The register whose number stands from this bit on.
fn register_at(word: u32, bit: u32) -> &'static [u8] {
    register_name((word.wrapping_shr(bit) % 32) as u8)
}

/// A number whose sign is this bit: its value modulo 2 ^ 32.
fn extended(value: u32, sign: u32) -> u32 {
    (value ^ sign).wrapping_sub(sign)
}

/// How far a branch or a jump leads, modulo 2 ^ 32.
fn distance(word: u32, form: Form) -> u32 {
    match form {
        Form::Jump => extended(
            word >> 31 << 20
                | (word >> 12 & 0xff) << 12
                | (word >> 20 & 1) << 11
                | (word >> 21 & 0x3ff) << 1,
            1 << 20,
        ),
        _ => extended(
            word >> 31 << 12
                | (word >> 7 & 1) << 11
                | (word >> 25 & 0x3f) << 5
                | (word >> 8 & 0xf) << 1,
            1 << 12,
        ),
    }
}

/// Puts a number with its sign.
fn put_signed(text: &mut Vec<u8>, value: u32) -> Result<(), Memory> {
    if value >> 31 == 1 {
        text.push(b'-')?;
        return put_number(text, u64::from(value.wrapping_neg()));
    }
    put_number(text, u64::from(value))
}

/// Puts registers, with a comma behind each.
fn put_registers(text: &mut Vec<u8>, word: u32, bits: &[u32]) -> Result<(), Memory> {
    for bit in bits {
        text.extend_from_slice(register_at(word, *bit))?;
        text.push(b',')?;
    }
    Ok(())
}

/// Puts an address: a distance from what a register says.
fn put_address(text: &mut Vec<u8>, word: u32, distance: u32) -> Result<(), Memory> {
    put_signed(text, extended(distance, 1 << 11))?;
    text.push(b'(')?;
    text.extend_from_slice(register_at(word, 15))?;
    text.push(b')')?;
    Ok(())
}

/// Puts a name, with what orders an atomic operation, and a space behind it where more follows.
fn put_name(text: &mut Vec<u8>, word: u32, name: [u8; 9], form: Form) -> Result<(), Memory> {
    text.extend_from_slice(trimmed(&name))?;
    let order: &[u8] = match (form, word >> 25 & 3) {
        (Form::Bare, _) => b"",
        (Form::Atomic, 1) => b".rl ",
        (Form::Atomic, 2) => b".aq ",
        (Form::Atomic, 3) => b".aqrl ",
        _ => b" ",
    };
    text.extend_from_slice(order)?;
    Ok(())
}

/// Puts what stands behind the registers.
fn put_rest(text: &mut Vec<u8>, pc: u32, word: u32, form: Form) -> Result<(), Memory> {
    match form {
        Form::Bare => {}
        Form::Upper => text.extend_from_slice(&word_text(word >> 12)[3..])?,
        Form::Jump | Form::Branch => {
            text.extend_from_slice(&word_text(pc.wrapping_add(distance(word, form))))?
        }
        Form::Load => put_address(text, word, word >> 20)?,
        Form::Store => put_address(text, word, word >> 25 << 5 | word >> 7 & 31)?,
        Form::Immediate => put_signed(text, extended(word >> 20, 1 << 11))?,
        Form::Shift => put_number(text, u64::from(word >> 20 & 31))?,
        Form::Registers => text.extend_from_slice(register_at(word, 20))?,
        Form::CsrRegister => {
            text.extend_from_slice(&word_text(word >> 20)[5..])?;
            text.push(b',')?;
            text.extend_from_slice(register_at(word, 15))?;
        }
        Form::CsrImmediate => {
            text.extend_from_slice(&word_text(word >> 20)[5..])?;
            text.push(b',')?;
            put_number(text, u64::from(word >> 15 & 31))?;
        }
        Form::Atomic => {
            text.push(b'(')?;
            text.extend_from_slice(register_at(word, 15))?;
            text.push(b')')?;
        }
    }
    Ok(())
}

/// The bits from which on the registers stand that come first.
fn first_registers(form: Form) -> &'static [u32] {
    match form {
        Form::Bare => &[],
        Form::Upper | Form::Jump | Form::Load | Form::CsrRegister | Form::CsrImmediate => &[7],
        Form::Branch => &[15, 20],
        Form::Store => &[20],
        Form::Immediate | Form::Shift | Form::Registers => &[7, 15],
        Form::Atomic => &[7, 20],
    }
}

/// A word as assembler has it, at this pc.
pub fn mnemonic(alloc: Global, pc: u32, word: u32) -> Result<Vec<u8>, Memory> {
    let mut text = Vec::new(alloc);
    match row_of(word) {
        Some(row) if decode(word).is_some() => {
            let form = row.3;
            put_name(&mut text, word, row.2, form)?;
            put_registers(&mut text, word, first_registers(form))?;
            put_rest(&mut text, pc, word, form)?;
        }
        _ => text.extend_from_slice(b"illegal")?,
    }
    Ok(text)
}
