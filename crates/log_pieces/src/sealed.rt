//! How far the logs of a guest's harts are cut into pieces.

ghost use Rattle.std.specs.Prelude.{◌≡◌, ℕ, ◌+◌, ◌<◌, ◌≤◌, ◌^◌, ◌↔◌, length, slice_index, slice_set, IsTrue, IsSome, IfSome};
ghost use Rattle.ft_types.specs.Counts.{count_at, IsWithin};
ghost use Rattle.log_pieces.specs.Pieces.{mark_of};
ghost use Rattle.log_pieces.specs.machinery.Cutting.{ArePlaces};

use ft_types::{COUNT_LIMIT, Count, Counts, HART_ROW, Hart};
use std::marker::Model;

/// For each hart of a guest, the place of its next piece and the count that its pieces reach.
#[derive(Clone, Copy, PartialEq, Eq)]
pub struct Sealed {
    places: [u64; HART_ROW],
    reached: Counts,
}

impl Model for Sealed {
    ghost use Rattle.log_pieces.specs.Pieces.{SealedView};
    ghost use Rattle.log_pieces.specs.machinery.Cutting.{ArePlaces};

    ghost Value = { SealedView };

    ghost view = { λ s. record { places = s.places; reached = s.reached } };

    ghost invariant = { λ s. ArePlaces s.places };

    ghost inverse = { λ v. record { places = v.places; reached = v.reached } };
}

/// Of each hart, place 0.
fn first_places() -> [u64; HART_ROW]
    ensures places { ArePlaces result }
    ensures first { (hart : ℕ) → slice_index result hart ≡ 0 }
{
    [0; HART_ROW]
}

impl Sealed {
    /// No piece yet: each hart's first one has place 0 and begins at its count here.
    pub fn new(counts: Counts) -> Sealed
        ensures reached { result.reached ≡ counts }
        ensures marks { (hart : ℕ) → mark_of result hart ≡ record { place = 0; count = count_at counts hart } }
    {
        Sealed {
            places: first_places(),
            reached: counts,
        }
    }

    /// Whether the pieces of each hart, of as many harts, reach at most its count here.
    pub fn is_within(&self, counts: &Counts) -> bool
        ensures { IsTrue result ↔ ((length self.now.reached ≡ length counts.now) × IsWithin self.now.reached counts.now) }
    {
        self.reached.harts() == counts.harts() && self.reached.within(*counts)
    }

    /// The place of the hart's next piece: `None` where it has had all places.
    pub fn next_place(&self, hart: Hart) -> Option<u32>
        ensures exact { IsSome result ↔ ((mark_of self.now hart).place < 2 ^ 32) }
        ensures place { IfSome result (λ place. place ≡ (mark_of self.now hart).place) }
        ensures limit { (mark_of self.now hart).place ≤ 2 ^ 32 }
    {
        u32::try_from(self.places[hart.index()]).ok()
    }

    /// The count that the hart's pieces reach.
    pub fn reached(&self, hart: Hart) -> Count
        requires { hart < length self.now.reached }
        ensures value { result ≡ (mark_of self.now hart).count }
        ensures limit { result < COUNT_LIMIT }
    {
        self.reached.get(hart)
    }

    /// The hart has one piece more, up to this count.
    pub(crate) fn advance(&mut self, hart: Hart, to: Count)
        requires hart { hart < length self.old.reached }
        requires place { (mark_of self.old hart).place < 2 ^ 32 }
        requires count { to < COUNT_LIMIT }
        ensures places { self.new.places ≡ slice_set self.old.places hart (slice_index self.old.places hart + 1) }
        ensures reached { self.new.reached ≡ slice_set self.old.reached hart to }
        ensures many { length self.new.places ≡ HART_ROW }
    {
        self.places[hart.index()] += 1;
        self.reached.set(hart, to);
    }
}
