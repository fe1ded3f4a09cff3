//! Ownership edges: which step of a hart comes after how many steps of another.
#![tactic(auto)]

mod log;
mod row;

use ft_types::{Count, Hart};
pub use log::EdgeLog;

/// Step `at` of `hart`, and each later one of it, comes after the first `after` steps of `other`.
#[derive(Clone, Copy, PartialEq, Eq)]
pub struct Edge {
    /// The hart that waits.
    pub hart: Hart,
    /// The hart that it waits for.
    pub other: Hart,
    /// The count at which its step finds it.
    pub at: Count,
    /// How many steps that other hart has taken by then, at the least.
    pub after: Count,
}

impl Default for Edge {
    /// The edge that asks for nothing.
    fn default() -> Edge {
        Edge {
            hart: Hart::new(0),
            at: 0,
            other: Hart::new(0),
            after: 0,
        }
    }
}

/// What became of an edge that was added.
#[derive(Clone, Copy, PartialEq, Eq)]
pub enum Added {
    /// The log has it.
    New,
    /// The start or another edge of the log says as much, and the log stays as it was.
    Implied,
}
