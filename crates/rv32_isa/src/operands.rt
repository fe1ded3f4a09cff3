// What instructions work on: registers, CSRs, amounts and immediates.
ghost use Rattle.std.specs.Prelude.{◌≡◌, ◌↔◌, ℕ, ◌<◌, IsSome, IfSome};
ghost use Rattle.rv32_isa.specs.Fields.{IsSignExtended, IsEven, IsUpper};

use std::marker::Model;

/// A register, x0 to x31.
#[derive(Clone, Copy, Debug, PartialEq, Eq)]
pub struct Reg {
    number: u8,
}

impl Model for Reg {
    ghost Value = { ℕ };

    ghost view = { λ x. x.number };

    ghost invariant = { λ x. x.number < 32 };

    ghost inverse = { λ n. record { number = n } };
}

impl Reg {
    /// The register of a number.
    #[inline(always)]
    pub fn new(number: u8) -> Self
        requires below { number < 32 }
        ensures value { result ≡ number }
    {
        Reg { number }
    }

    /// The number of the register.
    #[inline(always)]
    pub fn number(self) -> u8
        ensures value { result ≡ self }
        ensures below { result < 32 }
    {
        self.number
    }
}

/// A control and status register.
#[derive(Clone, Copy, Debug, PartialEq, Eq)]
pub struct CsrNumber {
    address: u16,
}

impl Model for CsrNumber {
    ghost Value = { ℕ };

    ghost view = { λ x. x.address };

    ghost invariant = { λ x. x.address < 4096 };

    ghost inverse = { λ n. record { address = n } };
}

impl CsrNumber {
    /// The CSR of a number.
    #[inline(always)]
    pub fn new(address: u16) -> Self
        requires below { address < 4096 }
        ensures value { result ≡ address }
    {
        CsrNumber { address }
    }

    /// The number of the CSR, of 12 bits.
    #[inline(always)]
    pub fn number(self) -> u16
        ensures value { result ≡ self }
        ensures below { result < 4096 }
    {
        self.address
    }
}

/// By how many places an immediate shift moves.
#[derive(Clone, Copy, Debug, PartialEq, Eq)]
pub struct ShiftAmount {
    places: u8,
}

impl Model for ShiftAmount {
    ghost Value = { ℕ };

    ghost view = { λ x. x.places };

    ghost invariant = { λ x. x.places < 32 };

    ghost inverse = { λ n. record { places = n } };
}

impl ShiftAmount {
    /// The shift by a number of places.
    #[inline(always)]
    pub fn new(places: u8) -> Self
        requires below { places < 32 }
        ensures value { result ≡ places }
    {
        ShiftAmount { places }
    }

    /// The number of places.
    #[inline(always)]
    pub fn places(self) -> u8
        ensures value { result ≡ self }
        ensures below { result < 32 }
    {
        self.places
    }
}

/// The unsigned immediate of five bits of a CSR instruction.
#[derive(Clone, Copy, Debug, PartialEq, Eq)]
pub struct Uimm5 {
    value: u8,
}

impl Model for Uimm5 {
    ghost Value = { ℕ };

    ghost view = { λ x. x.value };

    ghost invariant = { λ x. x.value < 32 };

    ghost inverse = { λ n. record { value = n } };
}

impl Uimm5 {
    /// The immediate of a value.
    #[inline(always)]
    pub fn new(value: u8) -> Self
        requires below { value < 32 }
        ensures value { result ≡ value }
    {
        Uimm5 { value }
    }

    /// The value, below 32.
    #[inline(always)]
    pub fn value(self) -> u8
        ensures value { result ≡ self }
        ensures below { result < 32 }
    {
        self.value
    }
}

/// A signed immediate of 12 bits, as the sign-extended word.
#[derive(Clone, Copy, Debug, PartialEq, Eq)]
pub struct Imm12 {
    immediate: u32,
}

impl Model for Imm12 {
    ghost Value = { ℕ };

    ghost view = { λ x. x.immediate };

    ghost invariant = { λ x. IsSignExtended 12 x.immediate };

    ghost inverse = { λ n. record { immediate = n } };
}

impl Imm12 {
    /// The immediate that is this word, or `None` where it takes more than 12 bits.
    pub fn new(word: u32) -> Option<Self>
        ensures encodable { IsSome result ↔ IsSignExtended 12 word }
        ensures value { IfSome result (λ x. x ≡ word) }
    {
        if word < 0x800 || word >= 0xffff_f800 {
            Some(Imm12 { immediate: word })
        } else {
            None
        }
    }

    #[inline(always)]
    pub(crate) fn from_extended(word: u32) -> Self
        requires extended { IsSignExtended 12 word }
        ensures value { result ≡ word }
    {
        Imm12 { immediate: word }
    }

    /// The sign-extended word.
    #[inline(always)]
    pub fn word(self) -> u32
        ensures value { result ≡ self }
        ensures extended { IsSignExtended 12 result }
    {
        self.immediate
    }
}

/// The offset of a branch: an even signed number of 13 bits, as the sign-extended word.
#[derive(Clone, Copy, Debug, PartialEq, Eq)]
pub struct BranchOffset {
    offset: u32,
}

impl Model for BranchOffset {
    ghost Value = { ℕ };

    ghost view = { λ x. x.offset };

    ghost invariant = { λ x. IsSignExtended 13 x.offset × IsEven x.offset };

    ghost inverse = { λ n. record { offset = n } };
}

impl BranchOffset {
    /// The offset that is this word, or `None` where it is odd or takes more than 13 bits.
    pub fn new(word: u32) -> Option<Self>
        ensures encodable { IsSome result ↔ (IsSignExtended 13 word × IsEven word) }
        ensures value { IfSome result (λ x. x ≡ word) }
    {
        if (word < 0x1000 || word >= 0xffff_f000) && word % 2 == 0 {
            Some(BranchOffset { offset: word })
        } else {
            None
        }
    }

    #[inline(always)]
    pub(crate) fn from_extended(word: u32) -> Self
        requires extended { IsSignExtended 13 word }
        requires even { IsEven word }
        ensures value { result ≡ word }
    {
        BranchOffset { offset: word }
    }

    /// The sign-extended word.
    #[inline(always)]
    pub fn word(self) -> u32
        ensures value { result ≡ self }
        ensures extended { IsSignExtended 13 result }
        ensures even { IsEven result }
    {
        self.offset
    }
}

/// The offset of a jump: an even signed number of 21 bits, as the sign-extended word.
#[derive(Clone, Copy, Debug, PartialEq, Eq)]
pub struct JumpOffset {
    distance: u32,
}

impl Model for JumpOffset {
    ghost Value = { ℕ };

    ghost view = { λ x. x.distance };

    ghost invariant = { λ x. IsSignExtended 21 x.distance × IsEven x.distance };

    ghost inverse = { λ n. record { distance = n } };
}

impl JumpOffset {
    /// The offset that is this word, or `None` where it is odd or takes more than 21 bits.
    pub fn new(word: u32) -> Option<Self>
        ensures encodable { IsSome result ↔ (IsSignExtended 21 word × IsEven word) }
        ensures value { IfSome result (λ x. x ≡ word) }
    {
        if (word < 0x10_0000 || word >= 0xfff0_0000) && word % 2 == 0 {
            Some(JumpOffset { distance: word })
        } else {
            None
        }
    }

    #[inline(always)]
    pub(crate) fn from_extended(word: u32) -> Self
        requires extended { IsSignExtended 21 word }
        requires even { IsEven word }
        ensures value { result ≡ word }
    {
        JumpOffset { distance: word }
    }

    /// The sign-extended word.
    #[inline(always)]
    pub fn word(self) -> u32
        ensures value { result ≡ self }
        ensures extended { IsSignExtended 21 result }
        ensures even { IsEven result }
    {
        self.distance
    }
}

/// An upper immediate: a word whose lowest 12 bits are 0.
#[derive(Clone, Copy, Debug, PartialEq, Eq)]
pub struct UpperImm {
    upper: u32,
}

impl Model for UpperImm {
    ghost Value = { ℕ };

    ghost view = { λ x. x.upper };

    ghost invariant = { λ x. IsUpper x.upper };

    ghost inverse = { λ n. record { upper = n } };
}

impl UpperImm {
    /// The immediate that is this word, or `None` where one of the lowest 12 bits is set.
    pub fn new(word: u32) -> Option<Self>
        ensures encodable { IsSome result ↔ IsUpper word }
        ensures value { IfSome result (λ x. x ≡ word) }
    {
        if word % 0x1000 == 0 {
            Some(UpperImm { upper: word })
        } else {
            None
        }
    }

    #[inline(always)]
    pub(crate) fn from_upper(word: u32) -> Self
        requires upper { IsUpper word }
        ensures value { result ≡ word }
    {
        UpperImm { upper: word }
    }

    /// The word.
    #[inline(always)]
    pub fn word(self) -> u32
        ensures value { result ≡ self }
        ensures upper { IsUpper result }
    {
        self.upper
    }
}
