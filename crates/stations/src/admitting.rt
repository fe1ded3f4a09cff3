//! Whose frame it is.

ghost use Rattle.std.specs.Prelude.{◌≡◌, ◌↔◌, IsTrue};
ghost use Rattle.log_join.specs.Stores.{guest_of as guest_in};
ghost use Rattle.stations.specs.Logs.{IsOf};

use fragment_codec::Frame;
use ft_types::{Guest, is_same_guest};

/// The guest of a frame.
fn guest_of(frame: &Frame) -> Guest
    ensures { result ≡ guest_in frame.now }
{
    match frame {
        Frame::Log(fragment) => fragment.guest(),
        Frame::Opening(opening) => opening.guest(),
    }
}

/// Whether a frame is of the guest.
pub fn is_of(frame: &Frame, guest: &Guest) -> bool
    ensures { IsTrue result ↔ IsOf guest.now frame.now }
{
    is_same_guest(&guest_of(frame), guest)
}
