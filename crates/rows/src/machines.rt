//! Harts with and without their outputs, machines that keep them, and pages.

use crate::images::booted;
use ft_types::{Count, Hart, Memory};
use guest_image::{Machine, Page};
use rv32_hart::HartState;
use std::alloc::Global;

static EARLIER: &[(Count, u32)] = &[(2, 7), (5, 8)];

static LATER: &[(Count, u32)] = &[(9, 1)];

static ALL: &[(Count, u32)] = &[(2, 7), (5, 8), (9, 1)];

/// The first hart of two, or the second, which put out so much.
fn hart_with(alloc: Global, second: bool, outputs: &[(Count, u32)]) -> Result<HartState, Memory> {
    let mut hart = HartState::boot(alloc, Hart::new(u8::from(second)), 2);
    hart.add_outputs(outputs)?;
    Ok(hart)
}

fn is_bare(hart: &HartState, other: &HartState) -> bool {
    hart.is_without_outputs(other)
}

/// Whether a hart without its outputs has none, and is known as such.
fn knows_bare(hart: &HartState) -> bool {
    let bare = hart.without_outputs();
    bare.outputs().is_empty() && is_bare(hart, &bare)
}

fn same(one: &HartState, other: &HartState) -> bool {
    one.same(other)
}

fn is_known_without_outputs(alloc: Global) -> Result<bool, Memory> {
    let hart = hart_with(alloc, false, EARLIER)?;
    let other = hart_with(alloc, true, &[])?;
    Ok(knows_bare(&hart) && !is_bare(&hart, &hart) && !is_bare(&hart, &other))
}

/// What a hart has put out once more is added and then only so many are left.
fn cut(alloc: Global, more: &[(Count, u32)], left: usize) -> Result<HartState, Memory> {
    let mut hart = hart_with(alloc, false, EARLIER)?;
    hart.add_outputs(more)?;
    hart.cut_outputs(left);
    Ok(hart)
}

/// Whether a hart that is so cut is one that put out this alone, and a copy of it is.
fn is_cut(
    alloc: Global,
    more: &[(Count, u32)],
    left: usize,
    there: &[(Count, u32)],
) -> Result<bool, Memory> {
    let hart = cut(alloc, more, left)?;
    let wanted = hart_with(alloc, false, there)?.copy()?;
    Ok(same(&hart, &wanted))
}

fn are_added_and_cut(alloc: Global) -> Result<bool, Memory> {
    Ok(
        is_cut(alloc, LATER, 3, ALL)?
            && is_cut(alloc, LATER, 2, EARLIER)?
            && is_cut(alloc, &[], 3, EARLIER)?
            && !is_cut(alloc, LATER, 3, EARLIER)?,
    )
}

#[test]
fn outputs_of_harts(rt: HostRuntime) -> Result<(), Memory> {
    assert!(rt; is_known_without_outputs(rt.alloc())?);
    assert!(rt; are_added_and_cut(rt.alloc())?);
    Ok(())
}

/// A machine of two harts, of which the second put this out.
fn loud(alloc: Global, outputs: &[(Count, u32)]) -> Result<Machine, Memory> {
    let mut machine = booted(alloc, b"harts 2\npages 1\n")?;
    if machine.harts() != 2 {
        return Err(Memory);
    }
    machine.add_outputs(Hart::new(1), outputs)?;
    Ok(machine)
}

/// Puts the second hart back without its outputs.
fn put_bare(machine: &mut Machine) -> bool {
    let (harts, hart) = (machine.harts(), Hart::new(1));
    if harts != 2 {
        return false;
    }
    let bare = machine.hart(hart).without_outputs();
    let fits = bare.number() == hart && bare.harts() == harts;
    if fits {
        machine.take_hart_but_outputs(hart, &bare);
    }
    fits
}

/// Leaves so many of the second hart's outputs.
fn leave(machine: &mut Machine, outputs: usize) {
    if machine.harts() == 2 {
        machine.cut_outputs(Hart::new(1), outputs);
    }
}

/// Whether a machine is the one whose second hart put this out.
fn is_loud(alloc: Global, machine: &Machine, outputs: &[(Count, u32)]) -> Result<bool, Memory> {
    Ok(machine.same(&loud(alloc, outputs)?))
}

/// A hart that is put back keeps the outputs that are there.
fn keep_outputs(alloc: Global) -> Result<bool, Memory> {
    let mut machine = loud(alloc, ALL)?;
    if !put_bare(&mut machine) || !is_loud(alloc, &machine, ALL)? {
        return Ok(false);
    }
    leave(&mut machine, 2);
    Ok(is_loud(alloc, &machine.copy()?, EARLIER)? && !is_loud(alloc, &machine, ALL)?)
}

fn write(page: &mut Page) {
    page.write_word(4092, 0x89ab_cdef);
    page.write_half(0, 0x1234);
    page.write_byte(3, 0x56);
}

fn read(page: &Page) -> (u32, u16, u8) {
    (
        page.read_word(0),
        page.read_half(4094),
        page.read_byte(4092),
    )
}

/// Whether a page is its copy, and no page of zeros.
fn is_its_own(alloc: Global, page: &Page) -> Result<bool, Memory> {
    let (copy, zeros) = (page.copy()?, Page::zeros(alloc)?);
    Ok(copy.same(page) && !page.same(&zeros) && page.bytes().len() == 4096)
}

fn is_written(alloc: Global) -> Result<bool, Memory> {
    let mut page = Page::zeros(alloc)?;
    write(&mut page);
    Ok(read(&page) == (0x5600_1234, 0x89ab, 0xef) && is_its_own(alloc, &page)?)
}

#[test]
fn machines_and_pages(rt: HostRuntime) -> Result<(), Memory> {
    assert!(rt; keep_outputs(rt.alloc())?);
    assert!(rt; is_written(rt.alloc())?);
    Ok(())
}
