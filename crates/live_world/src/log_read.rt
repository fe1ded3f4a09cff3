//! What whoever hands a log over put and read.

ghost use Rattle.std.specs.Prelude.{◌<◌};

use ft_types::Term;

/// A fence that whoever hands a log over put.
#[derive(Clone, Copy)]
pub struct FencePut {
    /// The last fence that it saw before.
    pub last: Term,
    /// The term of its own.
    pub term: Term,
    ghost above: { last < term },
}

/// What whoever hands the log over has read of it.
#[derive(Drop)]
pub struct LogRead {
    /// The fence that it put before.
    pub put: FencePut,
    /// The bytes that the log had behind that.
    pub log: Vec<u8>,
}
