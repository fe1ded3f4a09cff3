//! What gdb is told of the machine.

use crate::names::{register_name, trimmed};
use crate::numbers::read_range;
use crate::registers::{CSR_NUMBER, PC_NUMBER};
use ft_types::{LineBuffer, Memory};
use std::alloc::Global;

/// The names of the CSRs, eight bytes each, with spaces behind them.
static CSR_NAMES: [u8; 72] =
    *b"mstatus mie     mtvec   mscratchmepc    mcause  mtval   mip     mhartid ";

/// Their addresses.
static CSR_ADDRESSES: [u16; 9] = [
    0x300, 0x304, 0x305, 0x340, 0x341, 0x342, 0x343, 0x344, 0xf14,
];

/// Puts what describes a register.
fn put_register(text: &mut Vec<u8>, name: &[u8], kind: &[u8], number: u32) -> Result<(), Memory> {
    let mut digits = LineBuffer::new();
    digits.push_number(u64::from(number));
    text.extend_from_slice(b"<reg name=\"")?;
    text.extend_from_slice(name)?;
    text.extend_from_slice(b"\" bitsize=\"32\" type=\"")?;
    text.extend_from_slice(kind)?;
    text.extend_from_slice(b"\" regnum=\"")?;
    text.extend_from_slice(digits.as_slice())?;
    text.extend_from_slice(b"\"/>")?;
    Ok(())
}

/// What describes the machine: its registers, by gdb's numbers.
fn description(alloc: Global) -> Result<Vec<u8>, Memory> {
    let mut text = Vec::new(alloc);
    text.extend_from_slice(
        b"<?xml version=\"1.0\"?><!DOCTYPE target SYSTEM \"gdb-target.dtd\"><target version=\"1.0\"><architecture>riscv:rv32</architecture><feature name=\"org.gnu.gdb.riscv.cpu\">",
    )?;
    for number in 0..32 {
        put_register(&mut text, register_name(number), b"int", u32::from(number))?;
    }
    put_register(&mut text, b"pc", b"code_ptr", PC_NUMBER)?;
    text.extend_from_slice(b"</feature><feature name=\"org.gnu.gdb.riscv.csr\">")?;
    for number in 0..CSR_ADDRESSES.len() {
        let name = trimmed(&CSR_NAMES[number * 8..number * 8 + 8]);
        let address = u32::from(CSR_ADDRESSES[number]);
        put_register(&mut text, name, b"int", CSR_NUMBER + address)?;
    }
    text.extend_from_slice(b"</feature></target>")?;
    Ok(text)
}

/// The part of the description that is asked for, by its place and length: `m` stands before it, or `l` where it is the last one.
pub(crate) fn features_text(alloc: Global, range: &[u8]) -> Result<Vec<u8>, Memory> {
    let Some(part) = read_range(range) else {
        return Ok(b"E02".to_vec(alloc)?);
    };
    let whole = description(alloc)?;
    let from = whole.len().min(part.first as usize);
    let to = whole.len().min(from + part.length as usize);
    let mut text = Vec::new(alloc);
    text.push(if to < whole.len() { b'm' } else { b'l' })?;
    text.extend_from_slice(&whole[from..to])?;
    Ok(text)
}
