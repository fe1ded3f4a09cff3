//! The words of a command line, by clap: which form they have, which words stand where in it, and which text they ask for.
#![tactic(auto)]

mod fault;
mod forms;
mod matching;
mod texts;

pub use fault::WordsFault;
pub use forms::Form;
pub use matching::{Words, read_form};
pub use texts::{Program, read_text};
