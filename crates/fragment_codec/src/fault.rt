//! Why a stream is no stream of frames.

ghost use Rattle.std.specs.Prelude.{◌≡◌};
ghost use Rattle.fragment_codec.specs.declared.fault.FrameFault.TheVariants.{Memory as NoMemory};

use std::alloc::{AllocError, AllocFailed};

/// What is wrong with the first frame that is not whole and right, or want of memory.
#[derive(Clone, Copy, Debug, PartialEq, Eq)]
pub enum FrameFault {
    /// It does not begin with `VF`.
    Magic,
    /// Its version is neither 1 nor 2.
    Version,
    /// Its kind is neither 1 nor 2.
    Kind,
    /// No body of its kind has this length.
    Length,
    /// The digest is not that of the bytes before it.
    Digest,
    /// The body breaks a rule.
    Body,
    /// A growth was refused.
    Memory,
}

impl From<AllocError> for FrameFault {
    ghost from_gives = { λ _ e. e ≡ NoMemory };

    fn from(_e: AllocError) -> FrameFault {
        FrameFault::Memory
    }
}

impl<T: Drop> From<AllocFailed<T>> for FrameFault {
    ghost from_gives = { λ _ e. e ≡ NoMemory };

    fn from(_e: AllocFailed<T>) -> FrameFault {
        FrameFault::Memory
    }
}

impl FrameFault {
    ghost use Rattle.std.specs.Prelude.{◌≡◌};
    ghost use Rattle.fragment_codec.specs.Faults.{fault_number};

    /// The fault's number, from 1.
    pub fn number(self) -> u8
        ensures { result ≡ fault_number self }
    {
        match self {
            FrameFault::Magic => 1,
            FrameFault::Version => 2,
            FrameFault::Kind => 3,
            FrameFault::Length => 4,
            FrameFault::Digest => 5,
            FrameFault::Body => 6,
            FrameFault::Memory => 7,
        }
    }
}
