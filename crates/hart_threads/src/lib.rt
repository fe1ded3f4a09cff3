//! The harts of a book on threads: each goes on under leases of its own over the book behind one lock, one hart alone on the calling
//! thread. So a primary runs and a plan is replayed; and a follower keeps up with a store.
#![tactic(auto)]

mod alone;
mod calls;
mod crew;
mod desk;
mod fault;
mod follower;
mod legs;
mod overseer;
mod replays;
mod room;
mod runs;
mod standing;
mod telling;
mod together;
mod turns;
mod turnstile;

pub use crew::run_crew;
pub use fault::PoolFault;
pub use follower::Follower;
pub use overseer::{Grant, Overseer};
pub use replays::replay;
pub use runs::{run, run_seen, run_with};
pub use steering::Pace;
pub use turnstile::{Free, Turnstile};
