//! Keepers acknowledge how far they hold the log, on a board that threads share with no lock.
#![tactic(auto)]

mod board;
mod calls;
mod rule;
mod seats;
mod view;

pub use board::{AckFault, Board};
pub use seats::{GateSeat, KeeperSeat};
