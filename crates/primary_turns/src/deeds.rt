//! What is to be done.

ghost use Rattle.std.specs.Prelude.{◌≡◌, ◌↔◌, [], length, IfOk, IsTrue};
ghost use Rattle.std.specs.List.{flat_map};
ghost use Rattle.fragment_codec.specs.Streams.{spelling};

use attendance::Finding;
use fragment_codec::{Frame, write_frame};
use ft_types::{Hart, Keeper, Memory, MemorySink};
use std::alloc::Global;
use std::marker::Model;
use std::result::Result;
use wire::Answer;

/// The bytes of frames. Contracts see the list of them.
#[derive(Drop)]
pub struct FrameBytes {
    bytes: Vec<u8>,
}

impl Model for FrameBytes {
    ghost use Rattle.std.specs.Prelude.{ℕ, List};

    ghost Value = { List ℕ };

    ghost view = { λ b. b.bytes.items };
}

impl FrameBytes {
    /// The bytes of these frames, one behind the other.
    pub(crate) fn of(alloc: Global, frames: &[Frame]) -> Result<FrameBytes, Memory>
        ensures { IfOk result (λ bytes. bytes ≡ flat_map spelling frames.now) }
    {
        let mut sink = MemorySink::new(alloc, usize::MAX);
        for frame in frames {
            match write_frame(frame, &mut sink) {
                Ok(()) => {}
                Err(_) => return Err(Memory),
            }
        }
        Ok(FrameBytes {
            bytes: sink.into_bytes(),
        })
    }

    /// Whether there are none.
    pub(crate) fn is_empty(&self) -> bool
        ensures { IsTrue result ↔ (self.now ≡ []) }
    {
        self.bytes.is_empty()
    }

    /// How many they are.
    pub(crate) fn len(&self) -> usize
        ensures { result ≡ length self.now }
    {
        self.bytes.len()
    }

    /// They, as whoever writes takes them.
    pub fn into_bytes(self) -> Vec<u8>
        ensures { result.items ≡ self }
    {
        let FrameBytes { bytes } = self;
        bytes
    }
}

/// What is to be done. What only steers how it is written says so.
#[derive(Drop)]
pub enum Deed {
    /// These bytes are sent to the keepers.
    Send(FrameBytes),
    /// This answer is told to clients.
    Tell(Answer),
    /// Clients are told that this hart is given no more words.
    Full(Hart),
    /// This keeper is sent all frames once more.
    Anew(Keeper),
    /// This steers: the keeper has read all that was sent, or all but the last of it.
    HasRead(Keeper, Extent),
    /// This steers: it is attended to what a tick finds of keepers. One that lacks frames is sent all once more, unless some still wait to be written to it.
    Attend(Finding),
    /// This steers: a client has read all answers that were told.
    AnswersRead,
}

/// How much was read.
#[derive(Clone, Copy)]
pub enum Extent {
    /// All.
    All,
    /// All but the last piece.
    AllButLast,
}
