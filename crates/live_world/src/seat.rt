//! The primaries, by the order in which their terms were granted.

ghost use Rattle.std.specs.Prelude.{◌≡◌, ◌<◌, ◌↔◌, length, slice_get, slice_set, Some, IsTrue, IfSome, IfNone};
ghost use Rattle.live_world.specs.Seats.{IsGrantedIn, RunsNot, term_of};
ghost use Rattle.live_world.specs.declared.seat.Seat.TheVariants.{Runs, Ended};

use ft_types::Term;
use leading::Leader;
use std::mem;
use std::option::Option;

/// The primary of a term that was granted.
#[derive(Drop)]
pub enum Seat {
    /// Its process runs.
    Runs(Leader),
    /// The process of the primary of this term is gone.
    Ended(Term),
}

/// Takes the primary of this number away, whose process runs.
pub(crate) fn take_leader(led: &mut Vec<Seat>, number: usize) -> Option<Leader>
    ensures some { IfSome result (λ l. (slice_get led.old.items number ≡ Some (Runs l)) × (led.new.items ≡ slice_set led.old.items number (Ended l.primary.opening.term))) }
    ensures none { IfNone result ((led.new.items ≡ led.old.items) × RunsNot led.old.items number) }
{
    if number >= led.len() {
        return None;
    }
    let term = match &led[number] {
        Seat::Runs(leader) => leader.term(),
        Seat::Ended(_) => return None,
    };
    match mem::replace(&mut led[number], Seat::Ended(term)) {
        Seat::Runs(leader) => Some(leader),
        Seat::Ended(_) => None,
    }
}

/// Puts a primary back.
pub(crate) fn put_leader(led: &mut Vec<Seat>, number: usize, leader: Leader)
    requires { number < length led.old.items }
    ensures { led.new.items ≡ slice_set led.old.items number (Runs leader) }
{
    led[number] = Seat::Runs(leader);
}

/// The term of a seat.
fn term_of_seat(seat: &Seat) -> Term
    ensures { result ≡ term_of seat.now }
{
    match seat {
        Seat::Runs(leader) => leader.term(),
        Seat::Ended(term) => *term,
    }
}

/// Whether the term was granted.
pub(crate) fn is_granted(led: &[Seat], term: Term) -> bool
    ensures { IsTrue result ↔ IsGrantedIn led.now term }
{
    led.iter().any(|seat| term_of_seat(seat) == term)
}
