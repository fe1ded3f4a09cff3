//! Whether what a keeper acknowledged was sent.

ghost use Rattle.std.specs.Prelude.{◌<◌, ◌≤◌, ◌↔◌, ℕ, length, slice_index, IsTrue};
ghost use Rattle.ft_types.specs.Counts.{count_at};

use ft_types::{Counts, Hart};
use log_pieces::Sealed;

/// Whether no count is above what is cut of its hart's log: nothing else was ever sent.
pub(crate) fn is_of_sent(sealed: &Sealed, counts: &Counts) -> bool
    requires { length counts.now ≤ length sealed.now.reached }
    ensures { IsTrue result ↔ ((hart : ℕ) → hart < length counts.now → slice_index counts.now hart ≤ count_at sealed.now.reached hart) }
{
    for number in 0..counts.harts() {
        let hart = Hart::new(number);
        if counts.get(hart) > sealed.reached(hart) {
            return false;
        }
    }
    true
}
