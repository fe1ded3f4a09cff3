//! When two frames are equal, and what there is at a key at which several came: one frame, or a clash.
#![tactic(auto)]

mod content;
mod kept;

pub use content::{Content, is_same_fragment, is_same_opening};
pub use kept::Kept;
