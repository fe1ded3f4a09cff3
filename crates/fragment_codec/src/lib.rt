//! Frames of a log as bytes, and bytes as frames, in whatever pieces they come.
#![tactic(auto)]

mod fault;
mod feed;
mod first_term;
mod frame;
mod front;
mod laws;
mod reading;
mod types;
mod writing;

pub use fault::FrameFault;
pub use feed::Feed;
pub use first_term::{FIRST_TERM, first_opening};
pub use frame::{Fragment, Frame, Opening};
pub use laws::{
    any_cutting, faults_by_bytes, has_reading, lasting_fault, one_fault, one_reading, one_spelling,
    short_rest, some_spelling,
};
pub use types::{
    FIRST_HARTS, FIRST_VERSION, FRAME_LIMIT, FRAME_VERSION, Key, RECORD_LIMIT, Record, SPAN_LIMIT,
};
pub use writing::write_frame;
