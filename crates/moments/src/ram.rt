//! Pages of RAM that other machines may have too.

ghost use Rattle.std.specs.Prelude.{◌≡◌, ◌<◌, ◌≤◌, ◌+◌, length, slice_set, slice_index, slice_index_or, [], true, IfOk, OnOk, OnErr};
ghost use Rattle.ft_types.specs.declared.names.TheConstants.{PAGE_LIMIT};
ghost use Rattle.rv32_hart.specs.Ram.{IsRam, word_at};
ghost use Rattle.moments.specs.machinery.Parts.{bytes_of, is_own, contents_of, owned, ram_of};

use ft_types::{Memory, PageNo};
use guest_image::{Machine, Page};
use rv32_hart::Pages;
use std::alloc::Global;
use std::result::Result;
use std::sync::Arc;

/// A page that can be written, or one that other machines have too.
#[derive(Drop)]
pub(crate) enum Part {
    Own(Page),
    Shared(Arc<Page>),
}

/// The page of a part.
#[inline(always)]
fn page_of(part: &Part) -> &Page
    ensures { result.now ≡ bytes_of part.now }
{
    match part {
        Part::Own(page) => page,
        Part::Shared(page) => &**page,
    }
}

/// Sees to it that the page can be written.
fn make_own(part: &mut Part) -> Result<(), Memory>
    ensures same { bytes_of part.new ≡ bytes_of part.old }
    ensures own { OnOk result (is_own part.new ≡ true) }
    ensures kept { OnErr result (part.new ≡ part.old) }
{
    let copy = match part {
        Part::Own(_) => return Ok(()),
        Part::Shared(page) => page.copy()?,
    };
    *part = Part::Own(copy);
    Ok(())
}

/// Sees to it that others can have the page.
fn make_shared(alloc: Global, part: &mut Part) -> Result<(), Memory>
    ensures { bytes_of part.new ≡ bytes_of part.old }
{
    let copy = match part {
        Part::Own(page) => Arc::new(alloc, page.copy()?)?,
        Part::Shared(_) => return Ok(()),
    };
    *part = Part::Shared(copy);
    Ok(())
}

/// An equal page, which is shared where this one is.
fn part_copied(part: &Part) -> Result<Part, Memory>
    ensures { IfOk result (λ copy. bytes_of copy ≡ bytes_of part.now) }
{
    match part {
        Part::Own(page) => Ok(Part::Own(page.copy()?)),
        Part::Shared(page) => Ok(Part::Shared(Arc::try_clone(page)?)),
    }
}

/// RAM, of which other machines may have pages. The pages of its own can be written.
#[derive(Drop)]
pub(crate) struct SharedRam {
    parts: Vec<Part>,
    ghost ram: { IsRam (ram_of parts.items) },
}

impl SharedRam {
    /// The RAM of this machine, which has the pages too.
    pub(crate) fn of(alloc: Global, machine: &Machine) -> Result<SharedRam, Memory>
        ensures { IfOk result (λ r. contents_of r.parts.items ≡ machine.now.pages) }
    {
        let mut parts = Vec::with_capacity(alloc, machine.pages() as usize)?;
        for number in 0..machine.pages() {
            let page = machine.page(PageNo::new(number));
            parts.push(Part::Shared(Arc::try_clone(page)?))?;
        }
        Ok(SharedRam { parts })
    }

    /// The number of pages.
    pub(crate) fn pages(&self) -> u16
        ensures value { result ≡ length self.now.parts.items }
        ensures limit { result ≤ PAGE_LIMIT }
    {
        self.parts.len() as u16
    }

    /// Sees to it that the page can be written.
    pub(crate) fn own(&mut self, page: PageNo) -> Result<(), Memory>
        requires { page < length self.old.parts.items }
        ensures contents { contents_of self.new.parts.items ≡ contents_of self.old.parts.items }
        ensures owned { OnOk result (owned self.new.parts.items ≡ slice_set (owned self.old.parts.items) page true) }
    {
        make_own(&mut self.parts[page.index()])
    }

    /// Sees to it that others can have all pages.
    pub(crate) fn share(&mut self) -> Result<(), Memory>
        ensures { contents_of self.new.parts.items ≡ contents_of self.old.parts.items }
    {
        let alloc = *self.parts.allocator();
        for place in 0..self.parts.len() {
            make_shared(alloc, &mut self.parts[place])?;
        }
        Ok(())
    }

    /// Equal RAM.
    pub(crate) fn copy(&self) -> Result<SharedRam, Memory>
        ensures { IfOk result (λ r. contents_of r.parts.items ≡ contents_of self.now.parts.items) }
    {
        let mut parts = Vec::with_capacity(*self.parts.allocator(), self.parts.len())?;
        for part in &self.parts {
            parts.push(part_copied(part)?)?;
        }
        Ok(SharedRam { parts })
    }

    /// The byte at an offset of a page.
    pub(crate) fn byte(&self, page: PageNo, offset: u32) -> u8
        requires page { page < length self.now.parts.items }
        requires offset { offset < 4096 }
        ensures { result ≡ slice_index (slice_index_or (contents_of self.now.parts.items) page []) offset }
    {
        page_of(&self.parts[page.index()]).read_byte(offset)
    }

    /// The word at an offset of a page.
    pub(crate) fn word(&self, page: PageNo, offset: u32) -> u32
        requires page { page < length self.now.parts.items }
        requires offset { offset + 4 ≤ 4096 }
        ensures { result ≡ word_at (slice_index_or (contents_of self.now.parts.items) page []) offset }
    {
        page_of(&self.parts[page.index()]).read_word(offset)
    }
}

impl Pages for SharedRam {
    ghost use Rattle.moments.specs.machinery.Parts.{ram_of};

    ghost ram = { λ r. ram_of r.parts.items };

    #[inline(always)]
    fn count(&self) -> u32 {
        self.parts.len() as u32
    }

    #[inline(always)]
    fn can_read(&self, _page: PageNo) -> bool {
        true
    }

    #[inline(always)]
    fn can_write(&self, page: PageNo) -> bool {
        match &self.parts[page.index()] {
            Part::Own(_) => true,
            Part::Shared(_) => false,
        }
    }

    #[inline(always)]
    fn read_byte(&self, page: PageNo, offset: u32) -> u8 {
        page_of(&self.parts[page.index()]).read_byte(offset)
    }

    #[inline(always)]
    fn read_half(&self, page: PageNo, offset: u32) -> u16 {
        page_of(&self.parts[page.index()]).read_half(offset)
    }

    #[inline(always)]
    fn read_word(&self, page: PageNo, offset: u32) -> u32 {
        page_of(&self.parts[page.index()]).read_word(offset)
    }

    #[inline(always)]
    fn write_byte(&mut self, page: PageNo, offset: u32, value: u8) {
        match &mut self.parts[page.index()] {
            Part::Own(page) => page.write_byte(offset, value),
            Part::Shared(_) => unreachable!(),
        }
    }

    #[inline(always)]
    fn write_half(&mut self, page: PageNo, offset: u32, value: u16) {
        match &mut self.parts[page.index()] {
            Part::Own(page) => page.write_half(offset, value),
            Part::Shared(_) => unreachable!(),
        }
    }

    #[inline(always)]
    fn write_word(&mut self, page: PageNo, offset: u32, value: u32) {
        match &mut self.parts[page.index()] {
            Part::Own(page) => page.write_word(offset, value),
            Part::Shared(_) => unreachable!(),
        }
    }
}
