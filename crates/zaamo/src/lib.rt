// What the atomic memory operations of Zaamo write.
#![tactic(auto)]

ghost use Rattle.std.specs.Prelude.{◌≡◌};
ghost use Rattle.zaamo.specs.Amo.{amo_result};

/// Which atomic memory operation: how the new word is made.
#[derive(Clone, Copy, Debug, PartialEq, Eq)]
pub enum AmoOp {
    /// AMOADD.W.
    Add,
    /// AMOSWAP.W.
    Swap,
    /// AMOXOR.W.
    Xor,
    /// AMOAND.W.
    And,
    /// AMOOR.W.
    Or,
    /// AMOMIN.W: the less of two signed words.
    Min,
    /// AMOMAX.W: the greater of two signed words.
    Max,
    /// AMOMINU.W.
    MinUnsigned,
    /// AMOMAXU.W.
    MaxUnsigned,
}

/// The words that an atomic memory operation leaves.
#[derive(Clone, Copy, Debug, PartialEq, Eq)]
pub struct Exchanged {
    /// The word for rd.
    pub register: u32,
    /// The word for memory.
    pub memory: u32,
}

#[inline(always)]
fn new_word(op: AmoOp, old: u32, arg: u32) -> u32
    ensures { result ≡ amo_result op old arg }
{
    match op {
        AmoOp::Add => old.wrapping_add(arg),
        AmoOp::Swap => arg,
        AmoOp::Xor => old ^ arg,
        AmoOp::And => old & arg,
        AmoOp::Or => old | arg,
        AmoOp::Min => old.cast_signed().min(arg.cast_signed()).cast_unsigned(),
        AmoOp::Max => old.cast_signed().max(arg.cast_signed()).cast_unsigned(),
        AmoOp::MinUnsigned => old.min(arg),
        AmoOp::MaxUnsigned => old.max(arg),
    }
}

/// What rd and memory get, from the word that memory had and the one in rs2.
#[inline(always)]
pub fn amo(op: AmoOp, old: u32, arg: u32) -> Exchanged
    ensures register { result.register ≡ old }
    ensures memory { result.memory ≡ amo_result op old arg }
{
    Exchanged {
        register: old,
        memory: new_word(op, old, arg),
    }
}
