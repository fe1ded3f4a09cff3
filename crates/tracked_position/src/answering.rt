//! What is known of a store's answer to a frame before it comes.

ghost use Rattle.std.specs.Prelude.{◌≡◌, ◌↔◌, IsTrue};
ghost use Rattle.log_join.specs.Answers.{answer_to};
ghost use Rattle.tracked_position.specs.machinery.Keeping.{AreBeyond, IsClashAt};

use crate::beyond::Beyond;
use fragment_codec::Frame;
use ft_types::is_same_guest;
use log_join::{Found, Put, Store};

/// Whether the frame is one of the store's guest, and it is known that nothing came at its key.
pub(crate) fn is_beyond(store: &Store, beyond: &Beyond, frame: &Frame) -> bool
    requires { AreBeyond store.now beyond.now }
    ensures { IsTrue result → answer_to store.now frame.now ≡ Put.New }
{
    match frame {
        Frame::Log(fragment) => {
            is_same_guest(&fragment.guest(), &store.guest()) && beyond.has(fragment.key())
        }
        Frame::Opening(_) => false,
    }
}

/// Whether unequal contents came at the frame's key. No frame changes that.
pub(crate) fn is_clash_at(store: &Store, frame: &Frame) -> bool
    ensures { IsTrue result ↔ IsClashAt store.now frame.now }
{
    match frame {
        Frame::Log(fragment) => matches!(store.get(fragment.key()), Found::Clash),
        Frame::Opening(opening) => matches!(store.opening(opening.term()), Found::Clash),
    }
}
