//! Packets of gdb's remote serial protocol, out of a stream in any pieces, and their spelling.
#![tactic(auto)]

mod event;
mod feed;
mod laws;
mod reading;
mod spelling;

pub use event::{Event, PacketBytes};
pub use feed::PacketFeed;
pub use laws::{any_cutting, one_spelling};
pub use reading::read_packet;
pub use spelling::{TEXT_LIMIT, write_packet};
