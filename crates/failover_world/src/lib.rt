//! A primary, its keepers and the gate for its outputs, led by a list of events: what fails, what is lost, who goes live.
#![tactic(auto)]

mod fault;
mod keepers;
mod world;

pub use fault::WorldFault;
pub use primary::{Primary, Released};
pub use scripts::Event;
pub use world::World;
