//! How the harts of a book go beside one another.

/// How the harts of a book go beside one another.
#[derive(Clone, Copy, PartialEq, Eq)]
pub enum Pace {
    /// No hart runs far ahead of the others.
    Even,
    /// Each goes on as it may.
    Own,
}
