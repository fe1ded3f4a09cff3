//! Who looks at a book while its harts go on.

ghost use Rattle.std.specs.Prelude.{◌≡◌};

use ft_types::Counts;
use page_book::{Book, Mode};
use std::alloc::Global;
use std::sync::Wait;

/// How far harts may go until an overseer looks again.
#[derive(Clone, Copy)]
pub struct Grant {
    /// A hart that has come here has him look again, and goes on.
    pub calls: Counts,
    /// One that has come here goes on once he has looked.
    pub ends: Counts,
}

/// Who looks at a book now and then while its harts go on, and takes what is new in it.
pub trait Overseer<M: Mode> {
    /// Looks at the book, and says how far each hart may go until the next look; None where none is to go on. Harts whose leases come
    /// back meanwhile are held up, so it is to be short.
    fn look<R: Wait>(&mut self, rt: &R, alloc: Global, book: &mut Book<M>) -> Option<Grant>
        ensures only { book.new ≡ record book.old { mode = book.new.mode } };

    /// Hands on what it took. Harts go on meanwhile.
    fn hand_on<R: Wait>(&mut self, rt: &R, alloc: Global);

    /// Whether he could not hand on what he took: the run is given up, as where memory is refused.
    fn is_lost(&self) -> bool {
        false
    }

    /// Whether there is none: no hart waits for a look.
    fn is_absent(&self) -> bool {
        false
    }
}

/// Nobody looks: each hart goes on to its end.
#[derive(Clone, Copy)]
pub struct Nobody;

impl<M: Mode> Overseer<M> for Nobody {
    fn look<R: Wait>(&mut self, _rt: &R, _alloc: Global, _book: &mut Book<M>) -> Option<Grant> {
        None
    }

    fn hand_on<R: Wait>(&mut self, _rt: &R, _alloc: Global) {}

    fn is_absent(&self) -> bool {
        true
    }
}
