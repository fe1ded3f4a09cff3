//! The line of a plan's steps, forwards and back.
#![tactic(auto)]

mod access;
mod machines;
mod next;
mod points;
mod ram;
mod snapshots;
mod timeline;
mod travel;
mod turning;

pub use points::{Point, Stop, Watched};
pub use timeline::Timeline;
