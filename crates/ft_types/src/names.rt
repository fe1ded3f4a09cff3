//! Harts, keepers, pages, terms and counts.

ghost use Rattle.std.specs.Prelude.{◌≡◌, ◌<◌, ℕ};
ghost use Rattle.ft_types.specs.declared.names.TheConstants.{HART_LIMIT, KEEPER_LIMIT, PAGE_LIMIT};

use std::marker::Model;

/// The number of harts that a machine has at the most.
pub const HART_LIMIT: u8 = 32;

/// The length of a row with a place for each hart.
pub const HART_ROW: usize = HART_LIMIT as usize;

/// The number of keepers that there are at the most.
pub const KEEPER_LIMIT: u8 = 5;

/// The length of a row with a place for each keeper.
pub const KEEPER_ROW: usize = KEEPER_LIMIT as usize;

/// The number of pages that a machine has at the most.
pub const PAGE_LIMIT: u16 = 256;

/// The length of a row with a place for each page.
pub const PAGE_ROW: usize = PAGE_LIMIT as usize;

/// The number of inputs that a hart takes at one count at the most.
pub const INPUT_LIMIT: usize = 8;

/// The number of steps of a lease at the most.
pub const LEASE_STEPS: u64 = 1024;

/// The number of bytes of a page.
pub const PAGE_BYTES: usize = 4096;

/// One more than the greatest count.
pub const COUNT_LIMIT: u64 = 1 << 48;

/// A number of steps of one hart, below `COUNT_LIMIT`.
pub type Count = u64;

/// A term: 0 means boot, and granted ones count from 1.
pub type Term = u32;

/// A hart, by its number.
#[derive(Clone, Copy, Debug, PartialEq, Eq)]
pub struct Hart {
    number: u8,
}

impl Model for Hart {
    ghost Value = { ℕ };

    ghost view = { λ h. h.number };

    ghost invariant = { λ h. h.number < HART_LIMIT };

    ghost inverse = { λ n. record { number = n } };
}

impl Hart {
    /// The hart of this number.
    #[inline(always)]
    pub fn new(number: u8) -> Hart
        requires { number < HART_LIMIT }
        ensures { result ≡ number }
    {
        Hart { number }
    }

    /// The hart's number, below `HART_LIMIT`.
    #[inline(always)]
    pub fn number(self) -> u8
        ensures value { result ≡ self }
        ensures below { result < HART_LIMIT }
    {
        self.number
    }

    /// The hart's number, as the index of a row.
    #[inline(always)]
    pub fn index(self) -> usize
        ensures value { result ≡ self }
        ensures below { result < HART_LIMIT }
    {
        self.number as usize
    }
}

/// A keeper, by its number.
#[derive(Clone, Copy, PartialEq, Eq)]
pub struct Keeper {
    number: u8,
}

impl Model for Keeper {
    ghost Value = { ℕ };

    ghost view = { λ k. k.number };

    ghost invariant = { λ k. k.number < KEEPER_LIMIT };

    ghost inverse = { λ n. record { number = n } };
}

impl Keeper {
    /// The keeper of this number.
    pub fn new(number: u8) -> Keeper
        requires { number < KEEPER_LIMIT }
        ensures { result ≡ number }
    {
        Keeper { number }
    }

    /// The keeper's number, below `KEEPER_LIMIT`.
    pub fn number(self) -> u8
        ensures value { result ≡ self }
        ensures below { result < KEEPER_LIMIT }
    {
        self.number
    }

    /// The keeper's number, as the index of a row.
    pub fn index(self) -> usize
        ensures value { result ≡ self }
        ensures below { result < KEEPER_LIMIT }
    {
        self.number as usize
    }
}

/// A page of RAM, by its number: page `p` begins `p * PAGE_BYTES` bytes after the first address of RAM.
#[derive(Clone, Copy, PartialEq, Eq)]
pub struct PageNo {
    number: u32,
}

impl Model for PageNo {
    ghost Value = { ℕ };

    ghost view = { λ p. p.number };

    ghost invariant = { λ p. p.number < PAGE_LIMIT };

    ghost inverse = { λ n. record { number = n } };
}

impl PageNo {
    /// The page of this number.
    #[inline(always)]
    pub fn new(number: u16) -> PageNo
        requires { number < PAGE_LIMIT }
        ensures { result ≡ number }
    {
        PageNo {
            number: u32::from(number),
        }
    }

    /// The page of a number that is told by a word.
    #[inline(always)]
    pub fn of_word(number: u32) -> PageNo
        requires { number < PAGE_LIMIT }
        ensures { result ≡ number }
    {
        PageNo { number }
    }

    /// The page's number, below `PAGE_LIMIT`.
    #[inline(always)]
    pub fn number(self) -> u8
        ensures value { result ≡ self }
        ensures below { result < PAGE_LIMIT }
    {
        self.number as u8
    }

    /// The page's number, as the index of a row.
    #[inline(always)]
    pub fn index(self) -> usize
        ensures value { result ≡ self }
        ensures below { result < PAGE_LIMIT }
    {
        self.number as usize
    }
}

/// What a hart wants to do with a page.
#[derive(Clone, Copy, PartialEq, Eq)]
pub enum Want {
    Read,
    Write,
}
