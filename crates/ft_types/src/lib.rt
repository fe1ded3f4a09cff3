//! The words that every other crate speaks in: harts, keepers, terms, pages and counts; guests, outputs, positions and quorums; devices
//! that are read and written; the lines, numbers and words of text files.
#![tactic(auto)]

mod boxes;
mod counts;
mod device;
mod errors;
mod guest;
mod line_buffer;
mod memory_device;
mod names;
mod output;
mod position;
mod quorum;
mod sets;
mod text;
mod text_before;

pub use boxes::boxed;
pub use counts::{Counts, same_counts};
pub use device::{Sink, Source, write_all};
pub use errors::{Failed, Memory};
pub use guest::{Guest, is_same_guest};
pub use line_buffer::LineBuffer;
pub use memory_device::{MemorySink, MemorySource};
pub use names::{
    COUNT_LIMIT, Count, HART_LIMIT, HART_ROW, Hart, INPUT_LIMIT, KEEPER_LIMIT, KEEPER_ROW, Keeper,
    LEASE_STEPS, PAGE_BYTES, PAGE_LIMIT, PAGE_ROW, PageNo, Term, Want,
};
pub use output::Output;
pub use position::Position;
pub use quorum::Quorum;
pub use sets::{HartSet, KeeperSet};
pub use text::{first_line, read_number, read_word, word_text};
pub use text_before::{put_before, put_number_before, put_word_before};
