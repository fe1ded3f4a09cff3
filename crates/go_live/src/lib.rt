//! Going live: from the stores of enough keepers comes a book that goes on where their log ends, in a new term.
#![tactic(auto)]

mod fault;
mod joining;
mod laws;
mod live;
mod quorum;

pub use fault::LiveFault;
pub use laws::{enough_meet_any, live_histories, most_meet_most};
pub use live::{Live, begin, go_live, opening_of};
pub use quorum::{are_of, is_new, keepers_of, suffice};
