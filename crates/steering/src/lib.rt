//! Which harts of a book go on beside each other: who waits for which page, which pages a hart takes with its lease, who only waits,
//! how far apart the harts may be, and how long a lease is. All of it on values: there is no book here, no lock and no thread.
#![tactic(auto)]

mod crowd;
mod habits;
mod idlers;
mod pace;
mod progress;
mod queue;
mod rests;
mod steering;

pub use idlers::{Returned, trace_of};
pub use pace::Pace;
pub use steering::{FAR, Steering};
