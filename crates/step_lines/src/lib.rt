//! The line that tells of a step of a hart.
#![tactic(auto)]

mod changes;
mod line;
mod parts;

pub use line::{Found, add_step_line};
