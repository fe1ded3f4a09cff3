//! The term that begins from boot.

ghost use Rattle.std.specs.Prelude.{◌≡◌, replicate};
ghost use Rattle.ft_types.specs.Guests.{IsGuest};

use crate::frame::Opening;
use ft_types::{Counts, Guest, Term};

/// The first term of a guest.
pub const FIRST_TERM: Term = 1;

/// The opening of the first term, from boot.
pub fn first_opening(guest: Guest) -> Opening
    ensures opening { result ≡ record { guest = guest; term = 1; parent = 0; base = replicate guest.harts 0 } }
    ensures guest { IsGuest guest }
{
    let base = Counts::zero(guest.harts());
    Opening::new(guest, FIRST_TERM, 0, base).unwrap()
}
