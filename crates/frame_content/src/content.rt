//! What there is at a key at which something came.

ghost use Rattle.std.specs.Prelude.{◌≡◌, IfOk};
ghost use Rattle.frame_content.specs.Tests.{same_opening, same_fragment};
ghost use Rattle.frame_content.specs.machinery.Contents.{same_frame, holds, clashes, joined};

use crate::kept::Kept;
use fragment_codec::{Fragment, Frame, Opening};
use ft_types::{Memory, is_same_guest};
use std::alloc::Global;

/// One frame, or unequal ones.
#[derive(Drop)]
pub enum Content {
    One(Kept),
    Clash,
}

/// Whether the openings are equal.
pub fn is_same_opening(opening: &Opening, other: &Opening) -> bool
    ensures { result ≡ same_opening opening.now other.now }
{
    is_same_guest(&opening.guest(), &other.guest())
        && opening.term() == other.term()
        && opening.parent() == other.parent()
        && opening.base().as_slice() == other.base().as_slice()
}

/// Whether the fragments are equal.
pub fn is_same_fragment(fragment: &Fragment, other: &Fragment) -> bool
    ensures { result ≡ same_fragment fragment.now other.now }
{
    is_same_guest(&fragment.guest(), &other.guest())
        && fragment.key() == other.key()
        && fragment.from() == other.from()
        && fragment.to() == other.to()
        && fragment.records() == other.records()
}

fn is_same(frame: &Frame, other: &Frame) -> bool
    ensures { result ≡ same_frame frame.now other.now }
{
    match (frame, other) {
        (Frame::Log(fragment), Frame::Log(other)) => is_same_fragment(fragment, other),
        (Frame::Opening(opening), Frame::Opening(other)) => is_same_opening(opening, other),
        _ => false,
    }
}

impl Content {
    /// Whether it is this frame alone.
    pub fn is(&self, frame: &Frame) -> bool
        ensures { result ≡ holds self.now frame.now }
    {
        match self {
            Content::One(there) => is_same(there.frame(), frame),
            Content::Clash => false,
        }
    }

    /// Whether it is unequal frames.
    pub fn is_clash(&self) -> bool
        ensures { result ≡ clashes self.now }
    {
        matches!(self, Content::Clash)
    }

    /// An equal content.
    pub fn copy(&self, alloc: Global) -> Result<Content, Memory>
        ensures { IfOk result (λ c. c ≡ self.now) }
    {
        match self {
            Content::One(kept) => Ok(Content::One(Kept::new(alloc, kept.frame().copy(alloc)?)?)),
            Content::Clash => Ok(Content::Clash),
        }
    }

    /// Joins another content of the same key.
    pub fn join(&mut self, other: &Content)
        ensures { self.new ≡ joined self.old other.now }
    {
        let stays = match other {
            Content::One(kept) => self.is(kept.frame()),
            Content::Clash => false,
        };
        if !stays {
            *self = Content::Clash;
        }
    }
}
