//! Pages, and what a step asked for.

ghost use Rattle.std.specs.Prelude.{◌≡◌, ◌<◌, ◌≤◌, ◌^◌, ℕ, List, length, replicate, slice_set, false, true, IfOk, OnOk};
ghost use Rattle.ft_types.specs.declared.names.TheConstants.{PAGE_LIMIT};
ghost use Rattle.rv32_hart.specs.Ram.{may_read, may_write};
ghost use Rattle.log_audit.specs.machinery.Asking.{granted, no_rights};

use ft_types::{Memory, PAGE_ROW, PageNo, Want};
use guest_image::{Machine, Page};
use rv32_hart::Pages;
use std::alloc::Global;
use std::marker::Model;

/// The pages of a machine, and which of them the present step asked to read and to write. Who may write a page may read it.
#[derive(Drop)]
pub(crate) struct AskedPages {
    pages: Vec<Page>,
    readable: [bool; PAGE_ROW],
    writable: [bool; PAGE_ROW],
}

impl Model for AskedPages {
    ghost use Rattle.rv32_hart.specs.Ram.{Ram};
    ghost use Rattle.log_audit.specs.machinery.Asking.{AreAsked};

    ghost Value = { Ram };

    ghost view = { λ p. record { contents = p.pages.items; readable = p.readable; writable = p.writable } };

    ghost invariant = { λ p. AreAsked (record { contents = p.pages.items; readable = p.readable; writable = p.writable }) };
}

fn pages_of(alloc: Global, machine: &Machine) -> Result<Vec<Page>, Memory>
    ensures { IfOk result (λ v. v.items ≡ machine.now.pages) }
{
    let mut pages = Vec::with_capacity(alloc, machine.pages() as usize)?;
    for number in 0..machine.pages() {
        pages.push(machine.page(PageNo::new(number)).copy()?)?;
    }
    Ok(pages)
}

/// No page's flag is set.
fn no_flags() -> [bool; PAGE_ROW]
    ensures { result ≡ replicate PAGE_ROW false }
{
    [false; PAGE_ROW]
}

impl AskedPages {
    /// The pages of this machine, for which no step asked.
    pub(crate) fn unasked(alloc: Global, machine: &Machine) -> Result<AskedPages, Memory>
        ensures { IfOk result (λ p. p.contents ≡ machine.now.pages) }
    {
        // proof: a machine has at most so many pages.
        let _whole = machine.pages();
        let pages = pages_of(alloc, machine)?;
        Ok(AskedPages {
            pages,
            readable: no_flags(),
            writable: no_flags(),
        })
    }

    /// Another step is next, which has asked for nothing.
    pub(crate) fn begin_step(&mut self)
        ensures { self.new ≡ no_rights self.old.contents }
    {
        self.readable = no_flags();
        self.writable = no_flags();
    }

    /// The present step may use the page so.
    pub(crate) fn grant(&mut self, page: PageNo, want: Want)
        ensures granted { self.new ≡ granted self.old page want }
        ensures below { page < PAGE_LIMIT }
    {
        self.readable[page.index()] = true;
        match want {
            Want::Read => {}
            Want::Write => self.writable[page.index()] = true,
        }
    }

    /// Puts equal pages into the machine.
    pub(crate) fn put_into(&self, machine: &mut Machine) -> Result<(), Memory>
        requires { length machine.old.pages ≡ length self.now.contents }
        ensures { OnOk result (machine.new ≡ record machine.old { pages = self.now.contents }) }
    {
        for number in 0..machine.pages() {
            let page = PageNo::new(number);
            machine.put_page(page, self.pages[page.index()].copy()?)?;
        }
        Ok(())
    }
}

impl Pages for AskedPages {
    ghost ram = { λ p. p };

    #[inline(always)]
    fn count(&self) -> u32 {
        self.pages.len() as u32
    }

    #[inline(always)]
    fn can_read(&self, page: PageNo) -> bool {
        self.readable[page.index()]
    }

    #[inline(always)]
    fn can_write(&self, page: PageNo) -> bool {
        self.writable[page.index()]
    }

    #[inline(always)]
    fn read_byte(&self, page: PageNo, offset: u32) -> u8 {
        self.pages[page.index()].read_byte(offset)
    }

    #[inline(always)]
    fn read_half(&self, page: PageNo, offset: u32) -> u16 {
        self.pages[page.index()].read_half(offset)
    }

    #[inline(always)]
    fn read_word(&self, page: PageNo, offset: u32) -> u32 {
        self.pages[page.index()].read_word(offset)
    }

    #[inline(always)]
    fn write_byte(&mut self, page: PageNo, offset: u32, value: u8) {
        self.pages[page.index()].write_byte(offset, value);
    }

    #[inline(always)]
    fn write_half(&mut self, page: PageNo, offset: u32, value: u16) {
        self.pages[page.index()].write_half(offset, value);
    }

    #[inline(always)]
    fn write_word(&mut self, page: PageNo, offset: u32, value: u32) {
        self.pages[page.index()].write_word(offset, value);
    }
}
