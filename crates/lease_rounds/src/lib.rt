//! Leading a book lease by lease, in either mode: its harts go on in turn.
#![tactic(auto)]

mod page_mask;
mod page_words;
mod plain;
mod rounds;
mod stepping;

pub use page_mask::PageMask;
pub use plain::{has_run, run_plain};
pub use rounds::{bring_back, fill, give, go, go_for, go_round};
pub use stepping::take_step;
