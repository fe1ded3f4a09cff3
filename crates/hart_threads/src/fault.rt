//! Why a primary was not run.

use ft_types::Memory;

/// Why a primary was not run.
#[derive(Clone, Copy, PartialEq, Eq)]
pub enum PoolFault {
    /// A growth was refused.
    Memory,
}

impl From<Memory> for PoolFault {
    ghost use Rattle.std.specs.Prelude.{◌≡◌};
    ghost use Rattle.hart_threads.specs.declared.fault.PoolFault.TheVariants.{Memory as NoMemory};

    ghost from_gives = { λ _ e. e ≡ NoMemory };

    fn from(_e: Memory) -> PoolFault {
        PoolFault::Memory
    }
}
