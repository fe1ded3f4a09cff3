//! Modes of a book: one obeys a log of edges and inputs, the other records one.
#![tactic(auto)]

mod due;
mod keep;
mod mode;
mod recording;
mod rights;
mod settled;
mod unheard;
mod yielding;

pub use due::Due;
pub use keep::Keep;
pub use mode::{Leg, Mode, Replaying};
pub use recording::Recording;
pub use settled::{settled_counts, steps_taken};
