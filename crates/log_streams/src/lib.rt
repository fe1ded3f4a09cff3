//! What the commands do with streams of frames: they are read into a store, a store is written, its plan is replayed, and a
//! primary's run becomes frames. And who replays plans and runs pairs, which the commands are handed.
#![tactic(auto)]

mod budget;
mod faults;
mod first_term;
mod laws;
mod lines;
mod pairs;
mod reading;
mod replays;
mod runs;
mod stores;
mod streams;

pub use budget::Budget;
pub use faults::StreamsFault;
pub use first_term::{begin_primary, begin_run, frames_of, run_primary};
pub use ft_types::Quorum;
pub use laws::honest_runs;
pub use lines::{write_counts_line, write_long_line, write_numbered, write_three};
pub use pairs::{PairOrders, Pairs, WarmFault};
pub use reading::read_store;
pub use replays::{Plainly, Replays};
pub use runs::Runs;
pub use stores::{
    StoreList, StoreSize, cut_streams, list_store, write_frames, write_list, write_size,
    write_store,
};
pub use streams::replay_streams;
