//! What a keeper that is a process of its own decides, and whoever hands its log out: what stands in a log file, which frames are added to it, what is
//! acknowledged behind the fence, and which log is handed to a term. The files are a trait; no file, stream or thread is named here.
#![tactic(auto)]

mod admitting;
mod faults;
mod files;
mod handing;
mod laws;
mod log_front;
mod reach;
mod station;
mod written;
mod written_feed;

pub use admitting::is_of;
pub use faults::{FenceFault, FilesFault, LogFault};
pub use files::KeeperFiles;
pub use handing::{FencedLog, HandedOver, Refused, fence_off};
pub use laws::handshake;
pub use log_front::{LogFront, read_frames};
pub use reach::TERM_REACH;
pub use station::KeeperStation;
pub use written::WrittenFrame;
pub use written_feed::WrittenFeed;
