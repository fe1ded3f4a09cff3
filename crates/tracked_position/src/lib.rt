//! The position of a store that frames come to, kept up: what a frame costs is what it adds, and not what the store holds.
#![tactic(auto)]

mod answering;
mod beyond;
mod held;
mod lowering;
mod raising;
mod starting;
mod taking;
mod tracked;
mod walk;

pub use tracked::Tracked;
