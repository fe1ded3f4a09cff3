//! Lowering harts from the ends of their pieces, where raising them one by one cannot tell how far they go.

ghost use Rattle.std.specs.Prelude.{◌≡◌, ◌<◌, ◌≤◌, ℕ, false, true, Option, length};
ghost use Rattle.std.specs.Option.{option_map, ForSome};
ghost use Rattle.ft_types.specs.Counts.{count_at};
ghost use Rattle.log_join.specs.Cells.{One};
ghost use Rattle.log_join.specs.Stores.{opening_at, IsStore};
ghost use Rattle.closed_cut.specs.Position.{base_of, pieces_of, Goes};
ghost use Rattle.tracked_position.specs.machinery.Cuts.{IsCutOf, IsHigh, IsGreatestCut};
ghost use Rattle.tracked_position.specs.machinery.Walks.{cursor_at, AreOver, IsMetFrom};
ghost use Rattle.tracked_position.specs.machinery.Waits.{total};

use crate::raising::limited;
use crate::walk::{Cursor, walk_on};
use fragment_codec::Opening;
use ft_types::{Counts, HART_ROW, Hart};
use log_join::Store;
use std::option::Option;

/// The ends of the harts' pieces, at most the limit.
fn ends(
    store: &Store,
    opening: &Opening,
    limit: &Option<Counts>,
    cursors: &[Cursor; HART_ROW],
    cut: &Counts,
) -> Counts
    requires rules { IsStore store.now }
    requires opening { opening_at store.now opening.now.term ≡ One opening.now }
    requires harts { length cut.now ≡ length opening.now.base }
    requires limit { ForSome limit.now (λ limit. length limit ≡ length cut.now) }
    requires cut { IsCutOf store.now opening.now.term (base_of opening.now) (option_map count_at limit.now) (count_at cut.now) }
    requires over { AreOver store.now opening.now.term (base_of opening.now) (count_at cut.now) cursors.now }
    ensures harts { length result ≡ length cut.now }
    ensures high { IsHigh store.now opening.now.term (base_of opening.now) (option_map count_at limit.now) (count_at result) }
{
    let mut ends = *cut;
    for number in 0..cut.harts() {
        let hart = Hart::new(number);
        let stop = walk_on(store, opening.term(), hart, cursors[hart.index()], 0, cut);
        ends.set(hart, limited(stop.cursor.end, limit, hart));
    }
    ends
}

/// Stops a hart in front of the first step behind the cursor that an edge forbids. Tells whether there was one.
fn lower_hart(
    store: &Store,
    opening: &Opening,
    hart: Hart,
    cursor: Cursor,
    high: &mut Counts,
) -> bool
    requires rules { IsStore store.now }
    requires hart { hart < length high.old }
    requires goes { Goes (pieces_of store.now opening.now.term hart) (base_of opening.now hart) cursor.place cursor.end }
    ensures harts { length high.new ≡ length high.old }
    ensures high { (next : Option (ℕ → ℕ)) → IsHigh store.now opening.now.term (base_of opening.now) next (count_at high.old) →
        IsHigh store.now opening.now.term (base_of opening.now) next (count_at high.new) }
    ensures same { result ≡ false → high.new ≡ high.old }
    ensures less { result ≡ true → total high.new < total high.old }
    ensures met { result ≡ false → IsMetFrom store.now opening.now.term (base_of opening.now) (count_at high.old) hart cursor.place }
{
    let stop = walk_on(store, opening.term(), hart, cursor, high.get(hart), high);
    match stop.edge {
        None => false,
        Some(edge) => {
            high.set(hart, edge.at);
            true
        }
    }
}

/// Lowers each hart once. Tells whether one was.
fn lower_each(
    store: &Store,
    opening: &Opening,
    cursors: &[Cursor; HART_ROW],
    high: &mut Counts,
) -> bool
    requires rules { IsStore store.now }
    requires goes { (hart : ℕ) → hart < length high.old → Goes (pieces_of store.now opening.now.term hart) (base_of opening.now hart) (cursor_at
        cursors.now hart).place
        (cursor_at cursors.now hart).end }
    ensures harts { length high.new ≡ length high.old }
    ensures high { (next : Option (ℕ → ℕ)) → IsHigh store.now opening.now.term (base_of opening.now) next (count_at high.old) →
        IsHigh store.now opening.now.term (base_of opening.now) next (count_at high.new) }
    ensures less { result ≡ true → total high.new < total high.old }
    ensures met { result ≡ false → (hart : ℕ) → hart < length high.new → IsMetFrom store.now opening.now.term (base_of opening.now) (count_at high.new) hart
        (cursor_at cursors.now hart).place }
{
    let mut fell = false;
    for number in 0..high.harts() {
        let hart = Hart::new(number);
        let lowered = lower_hart(store, opening, hart, cursors[hart.index()], high);
        fell = fell || lowered;
    }
    fell
}

/// From a cut, with the edges up to the cursors met, to the greatest one.
pub(crate) fn lower(
    store: &Store,
    opening: &Opening,
    limit: &Option<Counts>,
    cursors: &[Cursor; HART_ROW],
    cut: &mut Counts,
)
    requires rules { IsStore store.now }
    requires opening { opening_at store.now opening.now.term ≡ One opening.now }
    requires harts { length cut.old ≡ length opening.now.base }
    requires limit { ForSome limit.now (λ limit. length limit ≡ length cut.old) }
    requires cut { IsCutOf store.now opening.now.term (base_of opening.now) (option_map count_at limit.now) (count_at cut.old) }
    requires over { AreOver store.now opening.now.term (base_of opening.now) (count_at cut.old) cursors.now }
    ensures harts { length cut.new ≡ length cut.old }
    ensures greatest { IsGreatestCut store.now opening.now.term (base_of opening.now) (option_map count_at limit.now) (count_at cut.new) }
{
    let mut high = ends(store, opening, limit, cursors, cut);
    while lower_each(store, opening, cursors, &mut high) {}
    *cut = high;
}
