//! A stream of frames, each with its bytes.

ghost use Rattle.std.specs.Prelude.{◌≡◌, ◌≢◌, ◌++◌, ℕ, List, [], Err, None, Some, IfOk, IfErr};
ghost use Rattle.fragment_codec.specs.declared.frame.Frame.{Frame as LogFrame};
ghost use Rattle.fragment_codec.specs.Streams.{Follows, HasFault, IsPartial, Splits};

use crate::log_front::frame_size;
use crate::written::WrittenFrame;
use fragment_codec::{Feed, Frame, FrameFault};
use ft_types::Memory;
use std::alloc::Global;
use std::marker::Model;
use std::option::Option;
use std::result::Result;

/// The frames at the front of the bytes, each with its own, and the bytes behind them.
fn split(
    alloc: Global,
    bytes: &[u8],
    frames: Vec<Frame>,
) -> Result<(Vec<WrittenFrame>, Vec<u8>), Memory>
    requires { (rest : List ℕ) × Splits bytes.now frames.items rest }
    ensures frames { IfOk result (λ r. r.0.items ≡ frames.items) }
    ensures rest { IfOk result (λ r. (rest : List ℕ) → Splits bytes.now frames.items rest → r.1.items ≡ rest) }
{
    let mut written = Vec::with_capacity(alloc, frames.len())?;
    let mut rest = bytes;
    for frame in frames {
        let (own, behind) = rest.split_at(frame_size(rest));
        written.push(WrittenFrame::of(alloc, frame, own)?)?;
        rest = behind;
    }
    Ok((written, rest.to_vec(alloc)?))
}

/// The frames at the front of what is held and the piece behind it, each with its own bytes, and the bytes behind them.
fn split_both(
    alloc: Global,
    held: Vec<u8>,
    piece: &[u8],
    frames: Vec<Frame>,
) -> Result<(Vec<WrittenFrame>, Vec<u8>), Memory>
    requires { (rest : List ℕ) × Splits (held.items ++ piece.now) frames.items rest }
    ensures frames { IfOk result (λ r. r.0.items ≡ frames.items) }
    ensures rest { IfOk result (λ r. (rest : List ℕ) → Splits (held.items ++ piece.now) frames.items rest → r.1.items ≡ rest) }
{
    if held.is_empty() {
        return split(alloc, piece, frames);
    }
    let mut bytes = held;
    bytes.extend_from_slice(piece)?;
    split(alloc, &bytes, frames)
}

/// A stream of frames that comes in pieces, which gives each frame with its bytes.
#[derive(Drop)]
pub struct WrittenFeed {
    feed: Feed,
    /// The bytes behind the frames given.
    held: Vec<u8>,
}

impl Model for WrittenFeed {
    ghost use Rattle.std.specs.Prelude.{[]};
    ghost use Rattle.fragment_codec.specs.Streams.{Unread, Follows};

    ghost Value = { Unread };

    ghost view = { λ a. a.feed };

    ghost invariant = { λ a. Follows a.held.items [] a.feed };
}

impl WrittenFeed {
    /// A stream of which nothing has come.
    pub fn new(alloc: Global) -> Result<WrittenFeed, Memory>
        ensures follows { IfOk result (λ feed. Follows [] [] feed) }
        ensures sound { IfOk result (λ feed. feed.fault ≡ None) }
    {
        let feed = Feed::new(alloc)?;
        Ok(WrittenFeed {
            feed,
            held: Vec::new(alloc),
        })
    }

    /// Takes the next piece of the stream, and gives the frames that it completes. At a fault, and where memory is refused, the feed is gone.
    pub fn push(
        self,
        alloc: Global,
        piece: &[u8],
    ) -> Result<(Vec<WrittenFrame>, WrittenFeed), FrameFault>
        // The frames given so far are all whole right frames at the front of the stream so far, however it was cut.
        ensures given { (stream : List ℕ) (given : List LogFrame) → Follows stream given self →
            IfOk result (λ r. Follows (stream ++ piece.now) (given ++ r.0.items) r.1) }
        // A fault is the stream's, behind the frames given before.
        ensures fault { (stream : List ℕ) (given : List LogFrame) → Follows stream given self →
            IfErr result (λ f. f ≢ FrameFault.Memory → (rest : List ℕ) × Splits (stream ++ piece.now) given rest × HasFault rest f) }
        // It is answered as soon as no frame is completed.
        ensures for_good { (f : FrameFault) → self.fault ≡ Some f → result ≡ Err f }
        ensures at_once { IfOk result (λ r. r.0.items ≡ [] → r.1.fault ≡ None) }
        // What is held is less than a whole frame.
        ensures partial { IfOk result (λ r. r.1.fault ≡ None → IsPartial r.1.rest) }
    {
        let WrittenFeed { mut feed, held } = self;
        let frames = feed.push(alloc, piece)?;
        let Ok((written, held)) = split_both(alloc, held, piece, frames) else {
            return Err(FrameFault::Memory);
        };
        Ok((written, WrittenFeed { feed, held }))
    }
}
