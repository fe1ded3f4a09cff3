//! A pair's processes together, led by a list of events: each makes the calls that ship, over keepers' files in memory.
#![tactic(auto)]

#[cfg(test)]
mod acting;
mod at_clients;
mod at_keepers;
mod at_primaries;
mod event;
mod fault;
mod files;
mod hand;
mod keepers;
mod leaders;
mod log_read;
mod new_files;
mod parts;
mod renewal;
mod room;
mod seat;
mod site;
#[cfg(test)]
mod tests;
mod world;

pub use event::{ClientEvent, HandAct, KeeperEvent, LiveEvent, Meanwhile, Planned, PrimaryEvent};
pub use fault::EventFault;
pub use files::MemoryFiles;
pub use hand::HandedTo;
pub use site::Site;
pub use world::LiveWorld;
