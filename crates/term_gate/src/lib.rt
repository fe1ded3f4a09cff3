//! The gate of one term: by what its keepers acknowledged last, outputs go out.
#![tactic(auto)]

mod acked;
mod gate;

pub use gate::TermGate;
