//! What may happen to a primary and its keepers.

use ft_types::{Hart, Term};
use input_log::Input;

/// What happens next. Keepers are named by their numbers, from 0, and frames by theirs: frame 0 is the opening of term 1, and
/// each piece of a seal and each granted opening has the next number.
#[derive(Drop)]
pub enum Event {
    /// The primary's hart takes one step, and gives up its rights after it.
    Step(Hart),
    /// An input, which is no bell, is put behind those that wait for the hart.
    Offer(Hart, Input),
    /// Pieces up to the settled counts are cut and sent.
    Seal,
    /// The frame comes to the keeper.
    Deliver { keeper: u64, frame: u64 },
    /// The keeper joins the other's store.
    Join { keeper: u64, other: u64 },
    /// The keeper acknowledges its store's position.
    Acknowledge(u64),
    /// The gate is offered the outputs that it lacks, and releases what it may.
    Release,
    /// The primary stops.
    Stop,
    /// The keeper and its store are gone.
    Lose(u64),
    /// A primary goes live in the term, from the stores of these keepers.
    Grant { term: Term, keepers: Vec<u64> },
}
