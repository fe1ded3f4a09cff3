//! What a client does that has words for hart 0, one event at a time: it asks for each, hears what comes, and tells the answers in their order.
#![tactic(auto)]

mod talk;
mod words;

pub use requests::Heard;
pub use talk::{Talk, Told, told_line};
pub use words::{WordsFault, read_words};
