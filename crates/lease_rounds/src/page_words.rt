//! Words whose bits are flags of pages.

ghost use Rattle.std.specs.Prelude.{◌≡◌, ◌%◌, ◌⊎◌, ◌↔◌, ℕ, IsTrue, bit_or};
ghost use Rattle.ft_types.specs.Sets.{IsMember};
ghost use Rattle.ft_types.specs.Counts.{zipped};
ghost use Rattle.lease_rounds.specs.machinery.Flags.{flags_in, AreWords, IsBitOf, left_of};

use ft_types::PageNo;

/// How many words have a bit for each page.
pub(crate) const WORDS: usize = 4;

/// The bit of a page in its word.
#[inline(always)]
fn bit_of(page: PageNo) -> u64
    ensures { IsBitOf (page % 64) result }
{
    1u64.wrapping_shl(u32::from(page.number()))
}

/// No page.
#[inline(always)]
pub(crate) fn no_page() -> [u64; WORDS]
    ensures none { (i : ℕ) → ¬ (IsMember (flags_in result) i) }
    ensures words { AreWords result }
{
    [0; WORDS]
}

/// This page alone.
#[inline(always)]
pub(crate) fn one_page(page: PageNo) -> [u64; WORDS]
    ensures one { (i : ℕ) → IsMember (flags_in result) i ↔ (i ≡ page) }
    ensures words { AreWords result }
{
    let mut words = [0; WORDS];
    words[page.index() / 64] = bit_of(page);
    words
}

#[inline(always)]
fn ored(these: [u64; WORDS], those: [u64; WORDS]) -> [u64; WORDS]
    ensures { result ≡ zipped bit_or these those }
{
    let mut words = these;
    for place in 0..WORDS {
        words[place] = these[place] | those[place];
    }
    words
}

#[inline(always)]
fn cleared(these: [u64; WORDS], those: [u64; WORDS]) -> [u64; WORDS]
    ensures { result ≡ zipped left_of these those }
{
    let mut words = these;
    for place in 0..WORDS {
        words[place] = these[place] & !those[place];
    }
    words
}

/// The pages of either.
#[inline(always)]
pub(crate) fn either(these: [u64; WORDS], those: [u64; WORDS]) -> [u64; WORDS]
    requires first { AreWords these }
    requires second { AreWords those }
    ensures pages { (i : ℕ) → IsMember (flags_in result) i ↔ (IsMember (flags_in these) i ⊎ IsMember (flags_in those) i) }
    ensures words { AreWords result }
{
    ored(these, those)
}

/// The pages of the first that the second lacks.
#[inline(always)]
pub(crate) fn left(these: [u64; WORDS], those: [u64; WORDS]) -> [u64; WORDS]
    requires first { AreWords these }
    requires second { AreWords those }
    ensures pages { (i : ℕ) → IsMember (flags_in result) i ↔ (IsMember (flags_in these) i × ¬ (IsMember (flags_in those) i)) }
    ensures words { AreWords result }
{
    cleared(these, those)
}

/// Whether there is a page.
#[inline(always)]
pub(crate) fn has_any(words: [u64; WORDS]) -> bool
    requires { AreWords words }
    ensures { IsTrue result ↔ ((i : ℕ) × IsMember (flags_in words) i) }
{
    for place in 0..WORDS {
        if words[place] != 0 {
            return true;
        }
    }
    false
}

/// Whether both have a page.
#[inline(always)]
pub(crate) fn do_meet(these: [u64; WORDS], those: [u64; WORDS]) -> bool
    requires { AreWords these }
    ensures { IsTrue result ↔ ((i : ℕ) × (IsMember (flags_in these) i × IsMember (flags_in those) i)) }
{
    for place in 0..WORDS {
        if these[place] & those[place] != 0 {
            return true;
        }
    }
    false
}

/// Whether the page is among them.
#[inline(always)]
pub(crate) fn has_page(words: [u64; WORDS], page: PageNo) -> bool
    ensures { IsTrue result ↔ IsMember (flags_in words) page }
{
    words[page.index() / 64] & bit_of(page) != 0
}
