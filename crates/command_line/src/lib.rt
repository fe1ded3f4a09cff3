//! The command line of the program: what its words ask for, done over files that the caller opens, and told in texts and a
//! status.
#![tactic(auto)]

mod audits;
mod commands;
mod debugger;
mod failing_over;
mod faults;
mod files;
mod graphs;
mod looking_back;
mod tracing;
mod words;

pub use audits::audit_streams;
pub use commands::{answer, command, no_output, no_request};
pub use debugger::debug_streams;
pub use failing_over::fail_over;
pub use faults::CommandFault;
pub use files::Files;
pub use graphs::graph_streams;
pub use log_streams::{PairOrders, Pairs};
pub use looking_back::replay_streams_at;
pub use tracing::trace_streams;
pub use word_forms::WordsFault;
pub use words::Place;
