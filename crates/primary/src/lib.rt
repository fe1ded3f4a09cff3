//! A primary of a granted term, which worlds and threads share: its opening, its book, how far its log is cut, and what it puts out.
#![tactic(auto)]

mod gating;
mod granted;
mod limits;
mod noting;
mod outputs;
mod released;

pub use gating::{offer_all, release_outputs};
pub use granted::{Primary, tell_primary};
pub use limits::no_limits;
pub use outputs::{all_outputs, outputs_since, outputs_told};
pub use released::Released;
