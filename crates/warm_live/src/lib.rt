//! Going live from a backup: what other keepers hold is joined to its own store, and it goes on from where it stands in place of
//! from boot.
#![tactic(auto)]

mod checks;
mod live;
mod onward;

pub use live::go_live_warm;
