//! Stores of frames, and their join: whatever came, in whatever order and however often, two stores to which the same
//! frames came are the same.
#![tactic(auto)]

mod answers;
mod laws;
mod place;
mod shelf;
mod shelves;
mod store;

pub use answers::{Found, Put, StoreFault};
pub use laws::{honest_joins, joins_of_cells, joins_of_stores, order_and_repetition};
pub use store::Store;
