//! What the threads of a keeper tell whoever decides, and what is done of it.

use ends::Fault;
use stations::WrittenFrame;
use wire::Acknowledgement;

/// What came of an input or an output.
#[derive(Drop)]
pub enum Event {
    /// Nothing yet: the keeper begins.
    Begin,
    /// The input with this number brought frames, all that ended in a piece.
    Frames(usize, Vec<WrittenFrame>),
    /// An input is at its end, for good.
    Ended,
    /// An input is at fault, and passed over up to the end of its connection.
    Passed(Fault),
    /// The keeper can't go on.
    Failed(Fault),
}

/// What a keeper does, beside what it does with its files.
#[derive(Clone, Copy)]
pub enum KeeperDeed {
    /// It acknowledges what it has.
    Say(Acknowledgement),
    /// It tells a fault that is passed over.
    Pass(Fault),
}
