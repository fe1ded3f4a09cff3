//! A debugger's session over a timeline: what gdb asks, and what it is answered.
#![tactic(auto)]

mod commands;
mod dialogue;
mod features;
mod memory;
mod mnemonics;
mod monitor;
mod names;
mod numbers;
mod points;
mod queries;
mod registers;
mod runs;
mod session;
mod stops;

pub use dialogue::Dialogue;
pub use mnemonics::mnemonic;
pub use session::{Answer, Session};
