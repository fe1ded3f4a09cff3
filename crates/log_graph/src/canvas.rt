//! The text of a picture.

use ft_types::{LineBuffer, Memory};
use std::alloc::Global;
use std::result::Result;

/// A place in a picture, in pixels from its upper left corner.
#[derive(Clone, Copy)]
pub(crate) struct Place {
    pub(crate) x: u64,
    pub(crate) y: u64,
}

/// A picture that is being drawn.
#[derive(Drop)]
pub(crate) struct Canvas {
    text: Vec<u8>,
}

impl Canvas {
    /// An empty picture of this size.
    pub(crate) fn new(
        alloc: Global,
        width: u64,
        height: u64,
        style: &[u8],
    ) -> Result<Canvas, Memory> {
        let mut canvas = Canvas {
            text: Vec::new(alloc),
        };
        canvas.put(b"<svg xmlns=\"http://www.w3.org/2000/svg\" width=\"")?;
        canvas.number(width)?;
        canvas.put(b"\" height=\"")?;
        canvas.number(height)?;
        canvas.put(b"\">\n<style>\n")?;
        canvas.put(style)?;
        canvas.put(b"</style>\n<rect width=\"100%\" height=\"100%\" fill=\"white\"/>\n")?;
        Ok(canvas)
    }

    fn put(&mut self, text: &[u8]) -> Result<(), Memory> {
        self.text.extend_from_slice(text)?;
        Ok(())
    }

    fn number(&mut self, number: u64) -> Result<(), Memory> {
        let mut digits = LineBuffer::new();
        digits.push_number(number);
        self.put(digits.as_slice())
    }

    /// The value of an attribute that is a number.
    fn attribute(&mut self, name: &[u8], value: u64) -> Result<(), Memory> {
        self.put(b" ")?;
        self.put(name)?;
        self.put(b"=\"")?;
        self.number(value)?;
        self.put(b"\"")
    }

    /// A line from one place to another.
    pub(crate) fn line(&mut self, class: &[u8], from: Place, to: Place) -> Result<(), Memory> {
        self.put(b"<line class=\"")?;
        self.put(class)?;
        self.put(b"\"")?;
        self.attribute(b"x1", from.x)?;
        self.attribute(b"y1", from.y)?;
        self.attribute(b"x2", to.x)?;
        self.attribute(b"y2", to.y)?;
        self.put(b"/>\n")
    }

    /// A word and a number behind it, at a place.
    pub(crate) fn label(
        &mut self,
        class: &[u8],
        at: Place,
        word: &[u8],
        number: u64,
    ) -> Result<(), Memory> {
        self.put(b"<text class=\"")?;
        self.put(class)?;
        self.put(b"\"")?;
        self.attribute(b"x", at.x)?;
        self.attribute(b"y", at.y)?;
        self.put(b">")?;
        self.put(word)?;
        self.put(b" ")?;
        self.number(number)?;
        self.put(b"</text>\n")
    }

    /// The whole text.
    pub(crate) fn end(self) -> Result<Vec<u8>, Memory> {
        let mut canvas = self;
        canvas.put(b"</svg>\n")?;
        Ok(canvas.text)
    }
}
