//! A backup that keeps warm: a store of its own, and a machine that follows what it tells.
#![tactic(auto)]

mod backup;
mod growing;
mod leading;
mod legs;
mod slices;
mod stand;
mod work;

pub use backup::Backup;
