//! What a client does with what comes, turn by turn: deeds in their order. No file, stream, thread or clock is named here.
#![tactic(auto)]

mod client;
mod deeds;
mod talking;

pub use client::Client;
pub use deeds::{ClientCame, ClientDeed, ClientEnd};
