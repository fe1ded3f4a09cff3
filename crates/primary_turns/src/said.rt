//! What is said to a primary.

use ft_types::Keeper;
use wire::{Acknowledgement, Request};

/// What a line, or the clock, says to a primary.
#[derive(Clone, Copy)]
pub enum Said {
    /// A client wants this.
    Request(Request),
    /// A keeper has this.
    Acknowledgement(Acknowledgement),
    /// This keeper is to be sent all frames once more.
    Again(Keeper),
    /// One more tick of the clock.
    Tick,
}
