//! Guests.

ghost use Rattle.std.specs.Prelude.{◌≡◌, ◌<◌, ◌≤◌, ◌↔◌, ℕ, IfSome, IsSome, slice_index};
ghost use Rattle.ft_types.specs.Guests.{IsGuest, same_guest};

use crate::names::HART_LIMIT;
use std::marker::Model;

/// The guest that a log is of: SHA-256 of its image file, and its number of harts, 1 to `HART_LIMIT`.
#[derive(Clone, Copy, PartialEq, Eq)]
pub struct Guest {
    digest: [u8; 32],
    harts: u8,
}

impl Model for Guest {
    ghost use Rattle.ft_types.specs.Guests.{GuestParts, IsGuest};

    ghost Value = { GuestParts };

    ghost view = { λ g. record { digest = g.digest; harts = g.harts } };

    ghost invariant = { λ g. IsGuest (record { digest = g.digest; harts = g.harts }) };

    ghost inverse = { λ p. record { digest = p.digest; harts = p.harts } };
}

/// What the type of bytes says of each.
fn bytes_fit(_bytes: &[u8])
    ensures { (i : ℕ) → slice_index _bytes.now i < 256 }
{}

/// Whether the guests are equal.
pub fn is_same_guest(guest: &Guest, other: &Guest) -> bool
    ensures { result ≡ same_guest guest.now other.now }
{
    guest == other
}

impl Guest {
    /// The guest with this digest and so many harts, or `None` exactly where no guest has so many.
    pub fn new(digest: [u8; 32], harts: u8) -> Option<Guest>
        ensures exact { IsSome result ↔ ((1 ≤ harts) × (harts ≤ HART_LIMIT)) }
        ensures parts { IfSome result (λ g. g ≡ record { digest = digest; harts = harts }) }
    {
        bytes_fit(&digest);
        if harts == 0 || harts > HART_LIMIT {
            return None;
        }
        Some(Guest { digest, harts })
    }

    /// SHA-256 of the image file's bytes.
    pub fn digest(&self) -> [u8; 32]
        ensures { result ≡ self.now.digest }
    {
        self.digest
    }

    /// The number of harts, 1 to `HART_LIMIT`.
    pub fn harts(&self) -> u8
        ensures value { result ≡ self.now.harts }
        ensures some { 1 ≤ result }
        ensures limit { result ≤ HART_LIMIT }
        ensures rules { IsGuest self.now }
    {
        self.harts
    }
}
