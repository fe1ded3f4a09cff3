//! Scripts, which say what a run offers to the harts of a guest, and lists of events, which say what happens to a primary and its
//! keepers: files, line by line.
#![tactic(auto)]

mod event;
mod event_lines;
mod events;
mod fault;
mod fields;
mod numbers;
mod script;
mod script_lines;

pub use event::Event;
pub use events::read_events;
pub use fault::{EventsFault, ScriptFault};
pub use script::{Offered, read_script};
