//! The page that a load or a store in RAM uses, by its address from RAM on: one test tells that there is one and that the address is aligned.
ghost use Rattle.std.specs.Prelude.{◌≡◌, ◌+◌, ◌*◌, ◌/◌, ◌%◌, ◌^◌, ◌<◌, ◌≤◌, length, IfSome};
ghost use Rattle.rv32_hart.specs.Access.{load_width, store_width};
ghost use Rattle.rv32_hart.specs.machinery.QuickForms.{from_ram};
ghost use Rattle.rv32_hart.specs.machinery.QuickSteps.{IsPageAt};

use super::pages::Pages;
use ft_types::{PAGE_LIMIT, PageNo};
use rv32_isa::{LoadKind, StoreKind};

/// The number of the page of a byte of RAM; behind RAM it is the number of no page.
#[inline(always)]
fn byte_page(offset: u32) -> u32
    ensures { result < PAGE_LIMIT → IsPageAt result 1 (from_ram offset) }
{
    offset >> 12
}

/// The same of two bytes: a bit that an aligned address does not have comes before the number.
#[inline(always)]
fn half_page(offset: u32) -> u32
    ensures { result < PAGE_LIMIT → IsPageAt result 2 (from_ram offset) }
{
    ((offset >> 1) + (offset << 31)) >> 11
}

/// The same of a word, of two such bits.
#[inline(always)]
fn word_page(offset: u32) -> u32
    ensures { result < PAGE_LIMIT → IsPageAt result 4 (from_ram offset) }
{
    ((offset >> 2) + (offset << 30)) >> 10
}

/// The number of the page that a load uses, or that of no page.
#[inline(always)]
pub(crate) fn load_page(kind: LoadKind, offset: u32) -> u32
    ensures { result < PAGE_LIMIT → IsPageAt result (load_width kind) (from_ram offset) }
{
    match kind {
        LoadKind::Byte => byte_page(offset),
        LoadKind::Half => half_page(offset),
        LoadKind::Word => word_page(offset),
        LoadKind::ByteUnsigned => byte_page(offset),
        LoadKind::HalfUnsigned => half_page(offset),
    }
}

/// The number of the page that a store uses, or that of no page.
#[inline(always)]
pub(crate) fn store_page(kind: StoreKind, offset: u32) -> u32
    ensures { result < PAGE_LIMIT → IsPageAt result (store_width kind) (from_ram offset) }
{
    match kind {
        StoreKind::Byte => byte_page(offset),
        StoreKind::Half => half_page(offset),
        StoreKind::Word => word_page(offset),
    }
}

/// The page of a number, where there is one.
#[inline(always)]
pub(crate) fn page_of<P: Pages>(number: u32, pages: &P) -> Option<PageNo>
    ensures is { IfSome result (λ p. p ≡ number) }
    ensures there { IfSome result (λ p. p < length (P.ram pages.now).contents) }
    ensures limit { IfSome result (λ p. p < PAGE_LIMIT) }
{
    if number < pages.count() {
        Some(PageNo::of_word(number))
    } else {
        None
    }
}
