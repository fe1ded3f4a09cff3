//! One hart of RV32IM with Zaamo and Zicsr in machine mode, step by step.
#![tactic(auto)]

mod arithmetic;
mod code;
mod decoder;
mod hart_core;
mod memory_map;
mod memory_steps;
mod outcome;
mod pages;
mod place;
mod quick_form;
mod quick_step;
mod quiet_run;
mod ram_page;
mod registers;
mod second;
mod state;
mod step;
mod steps;
mod turn;
mod word_form;

pub use code::{Code, CodedPages};
pub use decoder::{Anew, Decode, Decoder};
pub use memory_map::{PAGE_WORDS, RAM_BASE};
pub use outcome::Tick;
pub use pages::Pages;
pub use quiet_run::run_quietly;
pub use registers::{Csrs, Received};
pub use state::HartState;
pub use step::{tick, tick_running, tick_with};
