//! A frame in a box.

ghost use Rattle.std.specs.Prelude.{◌≡◌, IfOk};

use fragment_codec::Frame;
use ft_types::Memory;
use std::alloc::Global;
use std::marker::Model;

/// A frame, which is moved as one word. Contracts see the frame.
pub struct Kept {
    frame: Box<Frame>,
}

impl Drop for Kept {
    fn drop(self) {
        let Kept { frame: _ } = self;
    }
}

impl Model for Kept {
    ghost use Rattle.fragment_codec.specs.declared.frame.Frame.{Frame as frame_of_specs};

    ghost Value = { frame_of_specs };

    ghost view = { λ k. k.frame.value };
}

impl Kept {
    /// The frame, kept.
    pub fn new(alloc: Global, frame: Frame) -> Result<Kept, Memory>
        ensures { IfOk result (λ k. k ≡ frame) }
    {
        Ok(Kept {
            frame: Box::new(alloc, frame)?,
        })
    }

    /// The frame.
    pub fn frame(&self) -> &Frame
        ensures { result.now ≡ self.now }
    {
        &*self.frame
    }
}
