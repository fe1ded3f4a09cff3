//! Marks at counts, of which no two stand at one place.

use crate::canvas::{Canvas, Place};
use ft_types::Memory;
use std::option::Option;
use std::result::Result;

/// Marks of one kind, from left to right.
#[derive(Clone, Copy)]
pub(crate) struct Marks {
    class: &'static [u8],
    last: Option<u64>,
}

impl Marks {
    /// None yet.
    pub(crate) fn new(class: &'static [u8]) -> Marks {
        Marks { class, last: None }
    }

    /// Draws a line, unless the last one of this kind ended as far from the left.
    pub(crate) fn draw(
        &mut self,
        canvas: &mut Canvas,
        from: Place,
        to: Place,
    ) -> Result<(), Memory> {
        if self.last == Some(to.x) {
            return Ok(());
        }
        self.last = Some(to.x);
        canvas.line(self.class, from, to)
    }
}
