//! The least closed cut at which a hart has so many steps, and the machine there.
#![tactic(auto)]

mod closure;
mod cuts;

pub use cuts::machine_at;
