//! Going live from stores that keepers gave to the term.
#![tactic(auto)]

mod fault;
mod given;
mod live;

pub use fault::GivenFault;
pub use given::Given;
pub use live::go_live_given;
