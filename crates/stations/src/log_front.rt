//! What stands in a log file.

ghost use Rattle.std.specs.Prelude.{◌≡◌, ◌≤◌, ◌+◌, ℕ, List, [], length, take, drop, IfOk};
ghost use Rattle.fragment_codec.specs.declared.frame.Frame.{Frame as LogFrame};
ghost use Rattle.fragment_codec.specs.Streams.{body_len, Follows, Splits};
ghost use Rattle.stations.specs.Logs.{StandsBehind, IsFrontOf};

use byteorder::{ByteOrder, LittleEndian};
use fragment_codec::{Feed, Frame, FrameFault};
use ft_types::Memory;
use std::alloc::Global;
use std::option::Option;
use std::result::Result;

/// The front of a log file.
#[derive(Drop)]
pub struct LogFront {
    /// All frames at its front.
    pub frames: Vec<Frame>,
    /// How many bytes they are.
    pub size: usize,
    /// The fault that stands behind them, where it is not less than a whole frame.
    pub fault: Option<FrameFault>,
}

/// The frames that a feed gives of the bytes, none where a fault stands at their front.
fn given_by(alloc: Global, feed: &mut Feed, bytes: &[u8]) -> Result<Vec<Frame>, Memory>
    requires { Follows [] [] feed.old }
    ensures { IfOk result (λ frames. Follows bytes.now frames.items feed.new) }
{
    match feed.push(alloc, bytes) {
        Ok(frames) => Ok(frames),
        Err(FrameFault::Memory) => Err(Memory),
        Err(_) => Ok(Vec::new(alloc)),
    }
}

/// All frames at the front of the bytes, and the fault that stands behind them.
fn split(alloc: Global, bytes: &[u8]) -> Result<(Vec<Frame>, Option<FrameFault>), Memory>
    ensures { IfOk result (λ r. (rest : List ℕ) × Splits bytes.now r.0.items rest × StandsBehind rest r.1) }
{
    let mut feed = Feed::new(alloc)?;
    let frames = given_by(alloc, &mut feed, bytes)?;
    Ok((frames, feed.fault()))
}

/// How many bytes the frame at the front is: 8, its body and 32.
#[tactic(auto, using(fragment_codec::proofs::bytes::Numbers::little_32))]
pub(crate) fn frame_size(bytes: &[u8]) -> usize
    requires { 8 ≤ length bytes.now }
    ensures { result ≡ body_len bytes.now + 40 }
{
    let (_, behind) = bytes.split_at(4);
    let (len, _) = behind.split_at(4);
    LittleEndian::read_u32(len) as usize + 40
}

/// How many bytes these frames at the front are.
fn size_of(bytes: &[u8], frames: &[Frame]) -> usize
    requires { (rest : List ℕ) × Splits bytes.now frames.now rest }
    ensures { (rest : List ℕ) → Splits bytes.now frames.now rest → (result ≤ length bytes.now) × (drop result bytes.now ≡ rest) }
{
    let mut size = 0;
    for _frame in frames {
        let (_, rest) = bytes.split_at(size);
        size += frame_size(rest);
    }
    size
}

/// All frames at the front of a log file.
pub fn read_frames(alloc: Global, bytes: &[u8]) -> Result<LogFront, Memory>
    ensures front { IfOk result (λ f. IsFrontOf bytes.now f.frames.items f.size f.fault) }
    // No frames at its front are more bytes.
    ensures most { IfOk result (λ f. (frames : List LogFrame) (size : ℕ) → size ≤ length bytes.now → Splits (take size bytes.now) frames [] → size ≤ f.size) }
{
    let (frames, fault) = split(alloc, bytes)?;
    let size = size_of(bytes, &frames);
    Ok(LogFront {
        frames,
        size,
        fault,
    })
}
