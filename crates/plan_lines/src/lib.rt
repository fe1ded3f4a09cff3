//! The line of a plan's steps: whose step comes next, and what each uses of RAM.
#![tactic(auto)]

mod access;
mod laws;

pub use access::{Access, Bytes};
pub use laws::{honest_moments, seen_accesses};
