//! What comes of an act.

/// What comes of an act.
#[derive(Clone, Copy, PartialEq, Eq)]
pub enum Outcome {
    /// It is done.
    Done,
    /// It is a release that lets nothing out.
    NothingGoesOut,
    /// It is refused by a fence.
    Fenced,
    /// It is a grant from too few stores.
    TooFewStores,
    /// It is refused otherwise.
    Refused,
    /// The worlds answer it unlike, or not the same went out.
    Unlike,
}
