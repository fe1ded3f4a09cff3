//! A frame with its bytes.

ghost use Rattle.std.specs.Prelude.{◌≡◌, [], ◌∷◌, IfOk};
ghost use Rattle.fragment_codec.specs.Streams.{spelling, Splits};

use fragment_codec::{FRAME_LIMIT, FRAME_VERSION, Frame, write_frame};
use ft_types::{Memory, MemorySink};
use std::alloc::Global;
use std::marker::Model;
use std::result::Result;

/// A frame and its bytes, as it is written.
#[derive(Drop)]
pub struct WrittenFrame {
    frame: Frame,
    bytes: Vec<u8>,
}

impl Model for WrittenFrame {
    ghost use Rattle.std.specs.Prelude.{◌≡◌, [], ◌∷◌};
    ghost use Rattle.fragment_codec.specs.declared.frame.Frame.{Frame as LogFrame};
    ghost use Rattle.fragment_codec.specs.Streams.{spelling, Splits};

    ghost Value = { LogFrame };

    ghost view = { λ w. w.frame };

    ghost invariant = { λ w. (w.bytes.items ≡ spelling w.frame) × Splits (spelling w.frame) (w.frame ∷ []) [] };
}

impl WrittenFrame {
    /// A frame that is written.
    pub fn write(alloc: Global, frame: Frame) -> Result<WrittenFrame, Memory>
        ensures { IfOk result (λ written. written ≡ frame) }
    {
        let mut sink = MemorySink::new(alloc, FRAME_LIMIT);
        if write_frame(&frame, &mut sink).is_err() {
            return Err(Memory);
        }
        let bytes = sink.into_bytes();
        Ok(WrittenFrame { frame, bytes })
    }

    /// A frame that came as these bytes. Those of the version in which frames are written are its own as it is written; of another it is
    /// written anew.
    pub(crate) fn of(alloc: Global, frame: Frame, came: &[u8]) -> Result<WrittenFrame, Memory>
        requires { Splits came.now (frame ∷ []) [] }
        ensures { IfOk result (λ written. written ≡ frame) }
    {
        if came[2] != FRAME_VERSION {
            return WrittenFrame::write(alloc, frame);
        }
        let bytes = came.to_vec(alloc)?;
        Ok(WrittenFrame { frame, bytes })
    }

    /// The frame.
    pub fn frame(&self) -> &Frame
        ensures { result.now ≡ self.now }
    {
        &self.frame
    }

    /// The frame, and its bytes.
    pub(crate) fn into_parts(self) -> (Frame, Vec<u8>)
        ensures frame { result.0 ≡ self }
        ensures bytes { result.1.items ≡ spelling self }
        // They are this frame and nothing else.
        ensures one { Splits (spelling self) (self ∷ []) [] }
    {
        let WrittenFrame { frame, bytes } = self;
        (frame, bytes)
    }
}
