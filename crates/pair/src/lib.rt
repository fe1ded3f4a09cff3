//! A pair in one process: a primary whose harts run on threads, keepers that take its frames from channels and acknowledge, and
//! a gate that lets its outputs go. What decides stands in functions with contracts; the threads are thin.
#![tactic(auto)]

mod adding;
mod apart;
mod beside;
mod exits;
mod gate_thread;
mod herald;
mod holding;
mod keeper_thread;
mod keeping;
mod known;
mod messages;
mod news;
mod noting;
mod posts;
mod primary_thread;
mod printing;
mod released;
mod rounds;
mod settling;
mod tally;
mod telling;
mod threads;
mod warm;

pub use holding::Held;
pub use printing::{write_pair, write_warm};
pub use threads::{OnThreads, PairEnd, run_pair};
pub use warm::{WarmEnd, run_pair_warm};
