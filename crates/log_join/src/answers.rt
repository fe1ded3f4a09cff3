//! What the calls of a store answer.

ghost use Rattle.std.specs.Prelude.{◌≡◌};
ghost use Rattle.log_join.specs.declared.answers.StoreFault.TheVariants.{Memory as NoMemory};

use fragment_codec::Frame;
use ft_types::Memory;

/// What became of a frame that was put into a store.
#[derive(Clone, Copy, PartialEq, Eq)]
pub enum Put {
    /// Nothing had come at its key, and it is there now.
    New,
    /// An equal frame is there.
    Same,
    /// Unequal ones came at its key, which clashes for good.
    Clash,
    /// It is of another guest, and was not taken.
    OtherGuest,
}

/// What a store has at a key.
#[derive(Clone, Copy)]
pub enum Found<'a> {
    /// Nothing came.
    Absent,
    /// One content came.
    One(&'a Frame),
    /// Unequal contents came.
    Clash,
}

/// Why a store was not joined.
#[derive(Clone, Copy, PartialEq, Eq)]
pub enum StoreFault {
    /// The other store is of another guest.
    OtherGuest,
    /// A growth was refused.
    Memory,
}

impl From<Memory> for StoreFault {
    ghost from_gives = { λ _ e. e ≡ NoMemory };

    fn from(_e: Memory) -> StoreFault {
        StoreFault::Memory
    }
}
