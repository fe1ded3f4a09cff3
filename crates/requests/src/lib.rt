//! Requests by their numbers: the words that wait for a hart, each of which is taken exactly once and in its order, and what a client
//! has heard of those that it asked for.
#![tactic(auto)]

mod asker;
mod laws;
mod queue;

pub use asker::{Asker, Heard};
pub use laws::words_in_their_places;
pub use queue::{Came, QUEUE_ROOM, Queue, WORD_LIMIT};
