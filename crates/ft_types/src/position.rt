//! What a position is.

use crate::counts::Counts;
use crate::names::Term;

/// Where the walk along a store's chain stops.
#[derive(Clone, Copy, PartialEq, Eq)]
pub struct Position {
    /// The term in which it stops, 0 without a chain.
    pub term: Term,
    /// The counts at which it stops.
    pub counts: Counts,
    /// The last term of the chain, 0 without one.
    pub top: Term,
}
