//! The lines that the processes of a pair send each other beside frames: acknowledgements, fences, what is handed out, requests and
//! answers. Each has one spelling, and what is read is spelled so.
#![tactic(auto)]

mod acknowledgements;
mod again;
mod answers;
mod feed;
mod fences;
mod fields;
mod full;
mod handed;
mod keeps;
mod laws;
mod line;
mod long_words;
mod pairs;
mod requests;
mod seals;
mod text;

pub use acknowledgements::{Acknowledgement, acknowledgement_line, read_acknowledgement};
pub use again::{again_line, read_again};
pub use answers::{Answer, answer_line, read_answer};
pub use feed::LineFeed;
pub use fences::{fence_entry, fence_line, last_fence, read_fence};
pub use full::{full_line, read_full};
pub use handed::{Handed, handed_line, read_handed};
pub use keeps::{Inode, Keeps, keeps_line, read_keeps};
pub use laws::fence_is_added;
pub use line::{LINE_LIMIT, Line};
pub use long_words::read_long_word;
pub use pairs::{Pair, pair_line, read_pair};
pub use requests::{Request, read_request, request_line};
pub use text::LineText;
