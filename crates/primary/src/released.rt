//! What went out.

use ft_types::Term;
use output_gate::Output;

/// An output that went out, and the term of the primary whose gate let it.
#[derive(Clone, Copy, PartialEq, Eq)]
pub struct Released {
    pub term: Term,
    pub output: Output,
}
