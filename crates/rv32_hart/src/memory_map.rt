//! Where RAM and the registers of the device page lie.

/// The address of the first byte of RAM.
pub const RAM_BASE: u32 = 0x8000_0000;

/// The number of words of a page.
pub const PAGE_WORDS: u32 = 1024;

/// The last input word.
pub(crate) const INWORD: u32 = 0xf000_0000;

/// How many input words there were.
pub(crate) const INSEQ: u32 = 0xf000_0004;

/// Takes an output.
pub(crate) const OUT: u32 = 0xf000_0008;

/// Takes what is acknowledged of pending interrupts.
pub(crate) const ACK: u32 = 0xf000_000c;

/// Takes the number of a hart that is rung.
pub(crate) const BELL: u32 = 0xf000_0010;

/// Halts the hart.
pub(crate) const HALT: u32 = 0xf000_0014;
