//! What a step reads and writes.

ghost use Rattle.std.specs.Prelude.{◌≡◌, ◌↔◌, ◌<◌, ◌≤◌, ◌+◌, ◌%◌, ◌≢◌, ◌==◌, ◌&&◌, ℕ, length, slice_get, true, false, Some, None, IsTrue, IfSome, IfNone, Option, IsSome};
ghost use Rattle.input_log.specs.declared.Input.{Input as input_of_specs};
ghost use Rattle.rv32_hart.specs.Hart.{Hart as HartRecord};
ghost use Rattle.rv32_hart.specs.Csrs.{received_all, interrupt_of, first_interrupt};
ghost use Rattle.rv32_hart.specs.Access.{in_ram as is_in_ram, page_at, offset_at, load_width as width_of_load, store_width as width_of_store};
ghost use Rattle.moments.specs.machinery.Machines.{machine_of};
ghost use Rattle.plan_lines.specs.Uses.{Overlap, used_by as used_by_of, used_next, word_in};
ghost use Rattle.ft_types.specs.declared.names.TheConstants.{PAGE_LIMIT};
ghost use Rattle.plan_lines.specs.machinery.Pending.{mip_after, bit_of as bit_of_specs};

use crate::machines::SteppedMachine;
use ft_types::{Hart, PAGE_BYTES, PageNo};
use input_log::Input;
use plan_lines::{Access, Bytes};
use rv32_hart::{HartState, RAM_BASE};
use rv32_isa::{Instr, LoadKind, Reg, StoreKind, decode};

/// Whether the first bytes and the second have one in common.
pub(crate) fn overlap(these: Bytes, those: Bytes) -> bool
    ensures { IsTrue result ↔ Overlap these those }
{
    let first = u64::from(these.first.max(those.first));
    let these_end = u64::from(these.first) + u64::from(these.length);
    let those_end = u64::from(those.first) + u64::from(those.length);
    first < these_end && first < those_end
}

/// The bit of the interrupt that an input makes pending.
fn bit_of(input: &Input) -> u32
    ensures { result ≡ bit_of_specs input.now }
{
    match input {
        Input::Timer => 0x80,
        Input::Word(_) => 0x800,
        Input::Bell(_) => 0x8,
    }
}

/// The pending interrupts, once these inputs are received.
fn pending(inputs: &[Input], mip: u32) -> u32
    ensures { result ≡ mip_after inputs.now mip }
{
    let mut pending = mip;
    for input in inputs {
        pending |= bit_of(input);
    }
    pending
}

/// Whether one of the interrupts is in the set.
fn has_one(set: u32) -> bool
    ensures { IsTrue result ↔ IsSome (first_interrupt set) }
{
    set / 0x800 % 2 == 1 || set / 0x8 % 2 == 1 || set / 0x80 % 2 == 1
}

/// Whether the hart takes an interrupt instead of an instruction.
fn is_interrupted(state: &HartState, inputs: &[Input]) -> bool
    ensures { IsTrue result ↔ IsSome (interrupt_of (received_all inputs.now state.now)) }
{
    let [mstatus, mie, mip, ..] = state.csr_words();
    mstatus / 0x8 % 2 == 1 && has_one(mie & pending(inputs, mip))
}

/// A page and an offset of it, where the address is one of RAM with so many pages.
pub(crate) fn place_of(pages: u16, address: u32) -> Option<(PageNo, u32)>
    requires { pages ≤ PAGE_LIMIT }
    ensures page { IfSome result (λ p. p.0 ≡ page_at address) }
    ensures offset { IfSome result (λ p. p.1 ≡ offset_at address) }
    ensures some { IfSome result (λ p. is_in_ram pages address ≡ true) }
    ensures none { IfNone result (is_in_ram pages address ≡ false) }
{
    if address < RAM_BASE {
        return None;
    }
    let number = (address - RAM_BASE) / PAGE_BYTES as u32;
    if number >= u32::from(pages) {
        return None;
    }
    Some((PageNo::of_word(number), address % PAGE_BYTES as u32))
}

/// The same, where the address is a multiple of four.
fn place_of_word(pages: u16, address: u32) -> Option<(PageNo, u32)>
    requires { pages ≤ PAGE_LIMIT }
    ensures page { IfSome result (λ p. p.0 ≡ page_at address) }
    ensures offset { IfSome result (λ p. p.1 ≡ offset_at address) }
    ensures within { IfSome result (λ p. p.1 + 4 ≤ 4096) }
    ensures some { IfSome result (λ p. ((address % 4 == 0) && is_in_ram pages address) ≡ true) }
    ensures none { IfNone result (((address % 4 == 0) && is_in_ram pages address) ≡ false) }
{
    if address % 4 != 0 {
        return None;
    }
    place_of(pages, address)
}

/// So many bytes at an address, where they are aligned and lie in RAM.
fn in_ram(pages: u16, first: u32, length: u32) -> Option<Bytes>
    requires pages { pages ≤ PAGE_LIMIT }
    requires length { 0 < length }
    ensures some { IfSome result (λ bytes. bytes ≡ record { first = first; length = length }) }
    ensures there { IfSome result (λ bytes. ((first % length == 0) && is_in_ram pages first) ≡ true) }
    ensures none { IfNone result (((first % length == 0) && is_in_ram pages first) ≡ false) }
{
    if first % length != 0 || place_of(pages, first).is_none() {
        return None;
    }
    Some(Bytes { first, length })
}

fn load_width(kind: LoadKind) -> u32
    ensures value { result ≡ width_of_load kind }
    ensures some { 0 < result }
{
    match kind {
        LoadKind::Byte | LoadKind::ByteUnsigned => 1,
        LoadKind::Half | LoadKind::HalfUnsigned => 2,
        LoadKind::Word => 4,
    }
}

fn store_width(kind: StoreKind) -> u32
    ensures value { result ≡ width_of_store kind }
    ensures some { 0 < result }
{
    match kind {
        StoreKind::Byte => 1,
        StoreKind::Half => 2,
        StoreKind::Word => 4,
    }
}

/// A register's word.
fn register(state: &HartState, number: Reg) -> u32
    ensures { result ≡ word_in state.now number }
{
    if number.number() == 0 {
        return 0;
    }
    state.registers()[usize::from(number.number()) - 1]
}

/// What an instruction uses on a machine of so many pages.
fn used_by(instr: Instr, state: &HartState, pages: u16) -> Access
    requires { pages ≤ PAGE_LIMIT }
    ensures { result ≡ used_by_of instr pages state.now }
{
    match instr {
        Instr::Load { kind, rs1, imm, .. } => {
            let first = register(state, rs1).wrapping_add(imm.word());
            match in_ram(pages, first, load_width(kind)) {
                Some(bytes) => Access::Reads(bytes),
                None => Access::Nothing,
            }
        }
        Instr::Store { kind, rs1, imm, .. } => {
            let first = register(state, rs1).wrapping_add(imm.word());
            match in_ram(pages, first, store_width(kind)) {
                Some(bytes) => Access::Writes(bytes),
                None => Access::Nothing,
            }
        }
        Instr::Amo { rs1, .. } => match in_ram(pages, register(state, rs1), 4) {
            Some(bytes) => Access::Changes(bytes),
            None => Access::Nothing,
        },
        _ => Access::Nothing,
    }
}

/// What the hart's step on these inputs uses.
pub(crate) fn access_of(machine: &SteppedMachine, hart: Hart, inputs: &[Input]) -> Access
    requires { hart < length (machine_of machine.now).harts }
    ensures { (h : HartRecord) → slice_get (machine_of machine.now).harts hart ≡ Some h →
        result ≡ used_next (machine_of machine.now).pages (received_all inputs.now h) }
{
    let state = machine.hart(hart);
    if is_interrupted(state, inputs) {
        return Access::Nothing;
    }
    let Some((page, offset)) = place_of_word(machine.pages(), state.pc()) else {
        return Access::Nothing;
    };
    match decode(machine.word(page, offset)) {
        Some(instr) => used_by(instr, state, machine.pages()),
        None => Access::Nothing,
    }
}
