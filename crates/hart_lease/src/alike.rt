//! What a lease that comes back is compared by.

ghost use Rattle.std.specs.Cmp.Lexicographic.{pointwise};
ghost use Rattle.std.specs.Prelude.{◌≡◌, ◌==◌, ◌&&◌, ◌↔◌, ℕ, List, Some, IsTrue};
ghost use Rattle.input_log.specs.Alike.{same_input};
ghost use Rattle.hart_lease.specs.Slots.{base_of};

use crate::lease_pages::Slot;
use edge_log::Edge;
use guest_image::{Page, SharedPage};
use input_log::Input;

/// Whether the page that was lent, where one was, is this page.
pub(crate) fn is_base(slot: &Slot, kept: &Option<SharedPage>, here: &Page) -> bool
    ensures { IsTrue result ↔ ((bytes : List ℕ) → base_of slot.now kept.now ≡ Some bytes → here.now ≡ bytes) }
{
    match (slot, kept) {
        (Slot::Missing, _) | (Slot::Writable(_), None) => true,
        (Slot::Readable(page), _) => here.same(page.page()),
        (Slot::Writable(_), Some(page)) => here.same(page.page()),
    }
}

pub(crate) fn same_edges(edges: &[Edge], others: &[Edge]) -> bool
    ensures { result ≡ pointwise (λ a b. a.hart == b.hart && a.at == b.at && a.other == b.other && a.after == b.after) edges.now others.now }
{
    edges == others
}

pub(crate) fn same_inputs(inputs: &[Input], others: &[Input]) -> bool
    ensures { result ≡ pointwise same_input inputs.now others.now }
{
    inputs == others
}
