//! Whether a frame stands in bytes that are at fault.

ghost use Rattle.std.specs.Prelude.{◌≡◌, ◌==◌, ℕ, false, true, drop, length, IfOk};
ghost use Rattle.log_mending.specs.Mending.{HasFrame, HasNoFrames};

use fragment_codec::Frame;
use ft_types::Memory;
use stations::read_frames;
use std::alloc::Global;
use std::result::Result;

/// Whether there are none.
fn are_none(frames: &[Frame]) -> bool
    ensures { result ≡ (length frames.now == 0) }
{
    frames.is_empty()
}

/// Whether a whole right frame stands at the front of the bytes.
fn has_frame(alloc: Global, bytes: &[u8]) -> Result<bool, Memory>
    ensures some { IfOk result (λ is. is ≡ true → HasFrame bytes.now) }
    ensures none { IfOk result (λ is. is ≡ false → HasFrame bytes.now → ⊥) }
{
    let front = read_frames(alloc, bytes)?;
    Ok(!are_none(&front.frames))
}

/// Whether a whole right frame stands anywhere in the bytes.
pub(crate) fn has_frames(alloc: Global, bytes: &[u8]) -> Result<bool, Memory>
    ensures some { IfOk result (λ is. is ≡ true → (at : ℕ) × HasFrame (drop at bytes.now)) }
    ensures none { IfOk result (λ is. is ≡ false → HasNoFrames bytes.now) }
{
    for at in 0..bytes.len() {
        let (_, rest) = bytes.split_at(at);
        if has_frame(alloc, rest)? {
            return Ok(true);
        }
    }
    Ok(false)
}
