//! Steps that load and store.
ghost use Rattle.std.specs.Prelude.{◌≡◌, ℕ, ◌+◌, ◌-◌, ◌*◌, ◌/◌, ◌%◌, ◌^◌, ◌<◌, ◌≤◌, ◌==◌, true, length};
ghost use Rattle.rv32_hart.specs.Ram.{page_of, may_read, may_write, put, with_page};
ghost use Rattle.rv32_hart.specs.Access.{load_access, load_device, loaded, load_width, in_ram, page_at, offset_at, store_access, stored, store_width};
ghost use Rattle.rv32_hart.specs.Access.{device_step, amo_access};
ghost use Rattle.rv32_hart.specs.machinery.Granted.{granted, Goes, GoesAlone};

use super::hart_core::HartCore;
use super::memory_map::{ACK, BELL, HALT, INSEQ, INWORD, OUT, RAM_BASE};
use super::outcome::Tick;
use super::pages::Pages;
use super::steps::{go_on, set_register_step};
use ft_types::{COUNT_LIMIT, Hart, PAGE_LIMIT, PageNo, Want};
use rv32_isa::{LoadKind, Reg, StoreKind};
use zaamo::{AmoOp, Exchanged, amo};

#[inline(always)]
pub(crate) fn load_value<P: Pages>(kind: LoadKind, page: PageNo, offset: u32, pages: &P) -> u32
    requires page { page < length (P.ram pages.now).contents }
    requires right { may_read (P.ram pages.now) page ≡ true }
    requires offset { offset < 4096 }
    requires aligned { offset % load_width kind ≡ 0 }
    ensures { result ≡ loaded kind (page_of (P.ram pages.now) page) offset }
{
    match kind {
        LoadKind::Byte => {
            let byte = u32::from(pages.read_byte(page, offset));
            if byte < 0x80 {
                byte
            } else {
                byte + 0xffff_ff00
            }
        }
        LoadKind::Half => {
            let half = u32::from(pages.read_half(page, offset));
            if half < 0x8000 {
                half
            } else {
                half + 0xffff_0000
            }
        }
        LoadKind::Word => pages.read_word(page, offset),
        LoadKind::ByteUnsigned => u32::from(pages.read_byte(page, offset)),
        LoadKind::HalfUnsigned => u32::from(pages.read_half(page, offset)),
    }
}

#[inline(always)]
pub(crate) fn is_in_ram<P: Pages>(address: u32, pages: &P) -> bool
    ensures value { result ≡ in_ram (length (P.ram pages.now).contents) address }
    ensures limit { result ≡ true → page_at address < PAGE_LIMIT }
{
    address.wrapping_sub(RAM_BASE) >> 12 < pages.count()
}

/// The page of an address in RAM.
#[inline(always)]
pub(crate) fn page_number(address: u32) -> PageNo
    requires ram { 0x8000_0000 ≤ address }
    requires limit { page_at address < PAGE_LIMIT }
    ensures { result ≡ page_at address }
{
    PageNo::of_word((address - RAM_BASE) >> 12)
}

#[inline(always)]
fn load_from_ram<P: Pages>(
    core: &mut HartCore,
    kind: LoadKind,
    rd: Reg,
    address: u32,
    pages: &P,
) -> Tick
    requires count { core.old.count < COUNT_LIMIT - 1 }
    requires ram { in_ram (length (P.ram pages.now).contents) address ≡ true }
    requires limit { page_at address < PAGE_LIMIT }
    requires aligned { address % load_width kind ≡ 0 }
    ensures { Goes result core.old (P.ram pages.now) core.new (P.ram pages.now)
        (granted (load_access kind rd address (length (P.ram pages.now).contents) core.old) core.old (P.ram pages.now)) }
{
    let page = page_number(address);
    if !pages.can_read(page) {
        return Tick::Miss(page, Want::Read);
    }
    let value = load_value(kind, page, address & 0xfff, pages);
    set_register_step(core, rd, value);
    Tick::Done
}

fn load_from_device(core: &mut HartCore, kind: LoadKind, rd: Reg, address: u32)
    requires { core.old.count < COUNT_LIMIT - 1 }
    ensures { core.new ≡ load_device kind rd address core.old }
{
    if kind == LoadKind::Word && address == INWORD {
        let value = core.received().input_word;
        set_register_step(core, rd, value);
    } else if kind == LoadKind::Word && address == INSEQ {
        let value = core.received().input_sequence;
        set_register_step(core, rd, value);
    } else {
        core.enter(5);
    }
}

#[inline(always)]
fn is_aligned(kind: LoadKind, address: u32) -> bool
    ensures { result ≡ (address % load_width kind == 0) }
{
    match kind {
        LoadKind::Byte | LoadKind::ByteUnsigned => true,
        LoadKind::Half | LoadKind::HalfUnsigned => address & 1 == 0,
        LoadKind::Word => address & 3 == 0,
    }
}

#[inline(always)]
pub(crate) fn load<P: Pages>(
    core: &mut HartCore,
    kind: LoadKind,
    rd: Reg,
    address: u32,
    pages: &P,
) -> Tick
    requires { core.old.count < COUNT_LIMIT - 1 }
    ensures { Goes result core.old (P.ram pages.now) core.new (P.ram pages.now)
        (granted (load_access kind rd address (length (P.ram pages.now).contents) core.old) core.old (P.ram pages.now)) }
{
    if !is_aligned(kind, address) {
        core.enter(4);
        return Tick::Done;
    }
    if is_in_ram(address, pages) {
        return load_from_ram(core, kind, rd, address, pages);
    }
    load_from_device(core, kind, rd, address);
    Tick::Done
}

#[inline(always)]
pub(crate) fn store_value<P: Pages>(
    kind: StoreKind,
    page: PageNo,
    offset: u32,
    value: u32,
    pages: &mut P,
)
    requires page { page < length (P.ram pages.old).contents }
    requires right { may_write (P.ram pages.old) page ≡ true }
    requires offset { offset < 4096 }
    requires aligned { offset % store_width kind ≡ 0 }
    ensures { P.ram pages.new ≡ with_page (P.ram pages.old) page (put (page_of (P.ram pages.old) page) offset (stored kind value)) }
{
    match kind {
        StoreKind::Byte => pages.write_byte(page, offset, (value & 0xff) as u8),
        StoreKind::Half => pages.write_half(page, offset, (value & 0xffff) as u16),
        StoreKind::Word => pages.write_word(page, offset, value),
    }
}

#[inline(always)]
fn store_to_ram<P: Pages>(
    core: &mut HartCore,
    kind: StoreKind,
    address: u32,
    value: u32,
    pages: &mut P,
) -> Tick
    requires count { core.old.count < COUNT_LIMIT - 1 }
    requires ram { in_ram (length (P.ram pages.old).contents) address ≡ true }
    requires limit { page_at address < PAGE_LIMIT }
    requires aligned { address % store_width kind ≡ 0 }
    ensures { Goes result core.old (P.ram pages.old) core.new (P.ram pages.new) (granted (store_access kind address value (length (P.ram pages.old).contents)
        core.old) core.old (P.ram pages.old)) }
{
    let page = page_number(address);
    if !pages.can_write(page) {
        return Tick::Miss(page, Want::Write);
    }
    store_value(kind, page, address & 0xfff, value, pages);
    go_on(core);
    Tick::Done
}

#[inline(always)]
pub(crate) fn is_store_aligned(kind: StoreKind, address: u32) -> bool
    ensures { result ≡ (address % store_width kind == 0) }
{
    match kind {
        StoreKind::Byte => true,
        StoreKind::Half => address & 1 == 0,
        StoreKind::Word => address & 3 == 0,
    }
}

fn store_to_device(core: &mut HartCore, address: u32, value: u32) -> Tick
    requires { core.old.count < COUNT_LIMIT - 1 }
    ensures { GoesAlone result core.old core.new (device_step address value core.old) }
{
    match address {
        OUT => {
            if core.push_output(value).is_err() {
                return Tick::Memory;
            }
            go_on(core);
        }
        ACK => {
            core.acknowledge(value);
            go_on(core);
        }
        BELL => {
            if value < u32::from(core.harts()) {
                core.ring(Hart::new(value as u8));
            } else {
                core.enter(7);
            }
        }
        HALT => {
            core.halt();
            go_on(core);
        }
        _ => core.enter(7),
    }
    Tick::Done
}

#[inline(always)]
pub(crate) fn store<P: Pages>(
    core: &mut HartCore,
    kind: StoreKind,
    address: u32,
    value: u32,
    pages: &mut P,
) -> Tick
    requires { core.old.count < COUNT_LIMIT - 1 }
    ensures { Goes result core.old (P.ram pages.old) core.new (P.ram pages.new) (granted (store_access kind address value (length (P.ram pages.old).contents)
        core.old) core.old (P.ram pages.old)) }
{
    if !is_store_aligned(kind, address) {
        core.enter(6);
        return Tick::Done;
    }
    if is_in_ram(address, pages) {
        return store_to_ram(core, kind, address, value, pages);
    }
    if kind == StoreKind::Word {
        return store_to_device(core, address, value);
    }
    core.enter(7);
    Tick::Done
}

#[inline(always)]
fn atomic_in_ram<P: Pages>(
    core: &mut HartCore,
    op: AmoOp,
    rd: Reg,
    address: u32,
    value: u32,
    pages: &mut P,
) -> Tick
    requires count { core.old.count < COUNT_LIMIT - 1 }
    requires ram { in_ram (length (P.ram pages.old).contents) address ≡ true }
    requires limit { page_at address < PAGE_LIMIT }
    requires aligned { address % 4 ≡ 0 }
    ensures { Goes result core.old (P.ram pages.old) core.new (P.ram pages.new) (granted (amo_access op rd address value (length (P.ram pages.old).contents)
        core.old) core.old (P.ram pages.old)) }
{
    let page = page_number(address);
    if !pages.can_write(page) {
        return Tick::Miss(page, Want::Write);
    }
    let old = pages.read_word(page, address & 0xfff);
    let Exchanged { register, memory } = amo(op, old, value);
    pages.write_word(page, address & 0xfff, memory);
    set_register_step(core, rd, register);
    Tick::Done
}

#[inline(always)]
pub(crate) fn atomic<P: Pages>(
    core: &mut HartCore,
    op: AmoOp,
    rd: Reg,
    address: u32,
    value: u32,
    pages: &mut P,
) -> Tick
    requires { core.old.count < COUNT_LIMIT - 1 }
    ensures { Goes result core.old (P.ram pages.old) core.new (P.ram pages.new) (granted (amo_access op rd address value (length (P.ram pages.old).contents)
        core.old) core.old (P.ram pages.old)) }
{
    if address & 3 != 0 {
        core.enter(6);
        return Tick::Done;
    }
    if is_in_ram(address, pages) {
        return atomic_in_ram(core, op, rd, address, value, pages);
    }
    core.enter(7);
    Tick::Done
}
