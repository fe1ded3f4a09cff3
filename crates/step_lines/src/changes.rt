//! What a step changes in its hart.

ghost use Rattle.std.specs.Prelude.{◌≡◌, ◌≤◌, ◌<◌, ◌+◌, ◌++◌, ℕ, codes, decimal, length, drop, OnOk, IsTrue};
ghost use Rattle.rv32_hart.specs.Hart.{csr_words};
ghost use Rattle.step_lines.specs.Changes.{changed, register_name, csr_name, changed_texts, ring_text, entered_status, has_entered};

use crate::parts::{add_number, add_word};
use ft_types::{LineBuffer, Memory};
use rv32_hart::HartState;
use std::result::Result;

/// Adds a word that is another one than before.
fn add_changed(text: &mut Vec<u8>, name: &[u8], old: u32, new: u32) -> Result<(), Memory>
    requires { length name.now ≤ 24 }
    ensures { OnOk result (text.new.items ≡ text.old.items ++ changed name.now old new) }
{
    if new == old {
        return Ok(());
    }
    add_word(text, name, new)
}

/// Adds a register's word, where it is another one than before.
fn add_register(text: &mut Vec<u8>, number: u8, old: u32, new: u32) -> Result<(), Memory>
    requires { number < 32 }
    ensures { OnOk result (text.new.items ≡ text.old.items ++ changed (register_name number) old new) }
{
    let mut name = LineBuffer::new();
    name.push(b"x");
    name.push_number(u64::from(number));
    add_changed(text, name.as_slice(), old, new)
}

/// Adds the registers, numbered from this one on, that have another word than before.
fn add_registers(text: &mut Vec<u8>, number: u8, olds: &[u32], news: &[u32]) -> Result<(), Memory>
    requires { number + length olds.now ≤ 32 }
    ensures { OnOk result (text.new.items ≡ text.old.items ++ changed_texts register_name number olds.now news.now) }
{
    let Some((old, olds)) = olds.split_first() else {
        return Ok(());
    };
    let Some((new, news)) = news.split_first() else {
        return Ok(());
    };
    add_register(text, number, *old, *new)?;
    add_registers(text, number + 1, olds, news)
}

/// The name of a CSR, by its place among the words of CSRs.
fn name_of(place: u8) -> &'static [u8]
    ensures name { result.now ≡ csr_name place }
    ensures short { length result.now ≤ 24 }
{
    match place {
        0 => b"mstatus",
        1 => b"mie",
        2 => b"mip",
        3 => b"mtvec",
        4 => b"mscratch",
        5 => b"mepc",
        _ => b"mcause",
    }
}

/// Adds the CSRs, from this place on, that have another word than before.
fn add_csrs(text: &mut Vec<u8>, place: u8, olds: &[u32], news: &[u32]) -> Result<(), Memory>
    requires { place + length olds.now ≤ 7 }
    ensures { OnOk result (text.new.items ≡ text.old.items ++ changed_texts csr_name place olds.now news.now) }
{
    let Some((old, olds)) = olds.split_first() else {
        return Ok(());
    };
    let Some((new, news)) = news.split_first() else {
        return Ok(());
    };
    add_changed(text, name_of(place), *old, *new)?;
    add_csrs(text, place + 1, olds, news)
}

/// Adds the hart that the step rang, from this number on.
fn add_ring(text: &mut Vec<u8>, number: u8, olds: &[u64], news: &[u64]) -> Result<(), Memory>
    requires { number + length olds.now ≤ 32 }
    ensures { OnOk result (text.new.items ≡ text.old.items ++ ring_text number olds.now news.now) }
{
    let Some((old, olds)) = olds.split_first() else {
        return Ok(());
    };
    let Some((new, news)) = news.split_first() else {
        return Ok(());
    };
    if new == old {
        return add_ring(text, number + 1, olds, news);
    }
    add_number(text, b"ring", u64::from(number))
}

/// Adds the registers and CSRs that the step changed.
pub(crate) fn add_changes(
    text: &mut Vec<u8>,
    before: &HartState,
    after: &HartState,
) -> Result<(), Memory>
    ensures { OnOk result (text.new.items ≡ text.old.items ++ changed_texts register_name 1 (drop 1 before.now.registers) (drop 1 after.now.registers)
        ++ changed_texts csr_name 0 (csr_words before.now) (csr_words after.now)) }
{
    let (olds, news) = (before.csr_words(), after.csr_words());
    add_registers(text, 1, before.registers(), after.registers())?;
    add_csrs(text, 0, &olds, &news)
}

/// Adds whom the step rang.
pub(crate) fn add_rung(
    text: &mut Vec<u8>,
    before: &HartState,
    after: &HartState,
) -> Result<(), Memory>
    ensures { OnOk result (text.new.items ≡ text.old.items ++ ring_text 0 before.now.rung after.now.rung) }
{
    add_ring(text, 0, before.rung(), after.rung())
}

/// Whether the step entered a trap.
pub(crate) fn is_entry(before: &HartState, after: &HartState) -> bool
    ensures { result ≡ has_entered before.now after.now }
{
    let (olds, news) = (before.csr_words(), after.csr_words());
    let handler = olds[3];
    after.pc() == handler && news[5] == before.pc() && news[0] == 0x1800 + olds[0] / 8 % 2 * 128
}
