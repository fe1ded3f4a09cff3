//! Why words ask for nothing.

use std::alloc::{AllocError, AllocFailed};

/// Why words ask for nothing.
#[derive(Clone, Copy)]
pub enum WordsFault {
    /// The words have no form that there is.
    Usage,
    /// A growth was refused.
    Memory,
}

impl From<AllocError> for WordsFault {
    fn from(_e: AllocError) -> WordsFault {
        WordsFault::Memory
    }
}

impl<T: Drop> From<AllocFailed<T>> for WordsFault {
    fn from(_e: AllocFailed<T>) -> WordsFault {
        WordsFault::Memory
    }
}
