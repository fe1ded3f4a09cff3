//! What a pair's threads send each other.

use crossbeam_channel::Sender;
use fragment_codec::Frame;
use ft_types::{Hart, Memory};
use output_gate::Output;
use std::alloc::Global;
use std::sync::Wait;

/// What a keeper is sent: frames, or that there are no more.
pub(crate) type ToKeeper = Option<Vec<Frame>>;

/// What the gate is sent. It waits for what keepers and the primary tell it; what harts have put out it takes when it is told, since none of it goes out
/// before keepers hold it.
#[derive(Drop)]
pub(crate) enum ToGate {
    /// Harts have put these out since the last look.
    Offers(Vec<Output>),
    /// Keepers have published.
    Published,
    /// The primary is at its end.
    End,
}

/// What the primary is sent: the hart's outputs up to this one went out.
#[derive(Drop)]
pub(crate) struct Went {
    pub(crate) hart: Hart,
    /// Its number.
    pub(crate) last: u64,
}

/// Sends a message. A channel that has lost its receiver takes as little as one that finds no memory.
pub(crate) fn send<R: Wait, T: Drop>(
    rt: &R,
    sender: &Sender<T, Global>,
    message: T,
) -> Result<(), Memory> {
    match sender.send(rt, message) {
        Ok(()) => Ok(()),
        Err(_) => Err(Memory),
    }
}
