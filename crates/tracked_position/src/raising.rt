//! Raising harts as far as the edges of their next steps are met.

ghost use Rattle.std.specs.Prelude.{◌≡◌, ◌<◌, ◌≤◌, ℕ, false, true, Option, None, length, slice_index_or, IsTrue};
ghost use Rattle.std.specs.Option.{option_map, ForSome};
ghost use Rattle.ft_types.specs.Counts.{count_at};
ghost use Rattle.interleaving.specs.Lists as theory;
ghost use Rattle.log_join.specs.Cells.{One};
ghost use Rattle.log_join.specs.Stores.{opening_at, IsStore};
ghost use Rattle.closed_cut.specs.Position.{base_of, pieces_of};
ghost use Rattle.tracked_position.specs.machinery.Cuts.{IsCutOf, IsGreatestCut};
ghost use Rattle.tracked_position.specs.machinery.Walks.{IsOver, AreOver};
ghost use Rattle.tracked_position.specs.machinery.Waits.{IsWaiting, room, limited_to};

use crate::held::all_held;
use crate::lowering::lower;
use crate::walk::{Ahead, Cursor, walk_further};
use fragment_codec::Opening;
use ft_types::{Count, Counts, HART_ROW, Hart};
use log_join::Store;
use std::option::Option;

/// Whether a hart's count rose, and for which hart it then waits.
#[derive(Clone, Copy)]
struct Raised {
    rose: bool,
    waits: Option<Hart>,
}

/// Whether some count rose while some hart waits, and for which hart each then waits.
#[derive(Clone, Copy)]
struct Swept {
    rose: bool,
    waits: [Option<Hart>; HART_ROW],
}

/// The count, or the hart's limit where that is less.
pub(crate) fn limited(count: Count, limit: &Option<Counts>, hart: Hart) -> Count
    requires { ForSome limit.now (λ limit. hart < length limit) }
    ensures { result ≡ limited_to limit.now hart count }
{
    match limit {
        None => count,
        Some(limit) => count.min(limit.get(hart)),
    }
}

/// Whether a walk has ended no further than this count: its hart, which has come there, goes no further.
fn is_at_end(cursor: &Cursor, count: Count) -> bool
    ensures { IsTrue result → (cursor.now.ahead ≡ Ahead.End) × (cursor.now.end ≤ count) }
{
    match cursor.ahead {
        Ahead::End => cursor.end <= count,
        Ahead::Unseen | Ahead::Waits(_) => false,
    }
}

/// Raises a hart to the first edge that the counts do not meet, to the end of its pieces or to its limit.
fn raise_hart(
    store: &Store,
    opening: &Opening,
    limit: &Option<Counts>,
    hart: Hart,
    cursor: &mut Cursor,
    cut: &mut Counts,
) -> Raised
    requires rules { IsStore store.now }
    requires opening { opening_at store.now opening.now.term ≡ One opening.now }
    requires hart { hart < length cut.old }
    requires limit { ForSome limit.now (λ limit. length limit ≡ length cut.old) }
    requires cut { IsCutOf store.now opening.now.term (base_of opening.now) (option_map count_at limit.now) (count_at cut.old) }
    requires over { IsOver (pieces_of store.now opening.now.term hart) (base_of opening.now hart) (count_at cut.old) cursor.old }
    ensures harts { length cut.new ≡ length cut.old }
    ensures rises { theory.IsWithin (count_at cut.old) (count_at cut.new) }
    ensures cut { IsCutOf store.now opening.now.term (base_of opening.now) (option_map count_at limit.now) (count_at cut.new) }
    ensures over { IsOver (pieces_of store.now opening.now.term hart) (base_of opening.now hart) (count_at cut.new) cursor.new }
    ensures same { result.rose ≡ false → cut.new ≡ cut.old }
    ensures less { result.rose ≡ true → room cut.new < room cut.old }
    ensures waits { result.rose ≡ false → IsWaiting store.now opening.now.term (base_of opening.now) (option_map count_at limit.now) (count_at
        cut.old) hart result.waits }
    ensures ended { result.waits ≡ None → IsWaiting store.now opening.now.term (base_of opening.now) (option_map count_at limit.now) (count_at
        cut.new) hart None }
{
    let here = cut.get(hart);
    if is_at_end(cursor, here) {
        return Raised {
            rose: false,
            waits: None,
        };
    }
    let stop = walk_further(store, opening.term(), hart, *cursor, cut);
    *cursor = stop.cursor;
    let count = stop.count();
    let end = limited(count, limit, hart);
    let rose = here < end;
    if rose {
        cut.set(hart, end);
    }
    let waits = if end < count { None } else { stop.waits() };
    Raised { rose, waits }
}

/// No hart waits for another.
fn no_waits() -> [Option<Hart>; HART_ROW]
    ensures wide { length result ≡ HART_ROW }
    ensures none { (hart : ℕ) → slice_index_or result hart None ≡ None }
{
    [None; HART_ROW]
}

/// Raises each hart once.
fn sweep(
    store: &Store,
    opening: &Opening,
    limit: &Option<Counts>,
    cursors: &mut [Cursor; HART_ROW],
    cut: &mut Counts,
) -> Swept
    requires rules { IsStore store.now }
    requires opening { opening_at store.now opening.now.term ≡ One opening.now }
    requires harts { length cut.old ≡ length opening.now.base }
    requires limit { ForSome limit.now (λ limit. length limit ≡ length cut.old) }
    requires cut { IsCutOf store.now opening.now.term (base_of opening.now) (option_map count_at limit.now) (count_at cut.old) }
    requires over { AreOver store.now opening.now.term (base_of opening.now) (count_at cut.old) cursors.old }
    ensures harts { length cut.new ≡ length cut.old }
    ensures cut { IsCutOf store.now opening.now.term (base_of opening.now) (option_map count_at limit.now) (count_at cut.new) }
    ensures over { AreOver store.now opening.now.term (base_of opening.now) (count_at cut.new) cursors.new }
    ensures less { result.rose ≡ true → room cut.new < room cut.old }
    ensures waits { result.rose ≡ false → (hart : ℕ) → IsWaiting store.now opening.now.term (base_of opening.now) (option_map count_at limit.now)
        (count_at cut.new) hart
        (slice_index_or result.waits hart None) }
    ensures rest { (hart : ℕ) → length cut.old ≤ hart → slice_index_or result.waits hart None ≡ None }
{
    let mut rose = false;
    let mut waiting = false;
    let mut waits = no_waits();
    for number in 0..cut.harts() {
        let hart = Hart::new(number);
        let cursor = &mut cursors[hart.index()];
        let raised = raise_hart(store, opening, limit, hart, cursor, cut);
        waits[hart.index()] = raised.waits;
        rose = rose || raised.rose;
        waiting = waiting || raised.waits.is_some();
    }
    let rose = rose && waiting;
    Swept { rose, waits }
}

/// Raises the harts until none rises. Tells for which hart each then waits.
fn raise(
    store: &Store,
    opening: &Opening,
    limit: &Option<Counts>,
    cursors: &mut [Cursor; HART_ROW],
    cut: &mut Counts,
) -> [Option<Hart>; HART_ROW]
    requires rules { IsStore store.now }
    requires opening { opening_at store.now opening.now.term ≡ One opening.now }
    requires harts { length cut.old ≡ length opening.now.base }
    requires limit { ForSome limit.now (λ limit. length limit ≡ length cut.old) }
    requires cut { IsCutOf store.now opening.now.term (base_of opening.now) (option_map count_at limit.now) (count_at cut.old) }
    requires over { AreOver store.now opening.now.term (base_of opening.now) (count_at cut.old) cursors.old }
    ensures harts { length cut.new ≡ length cut.old }
    ensures cut { IsCutOf store.now opening.now.term (base_of opening.now) (option_map count_at limit.now) (count_at cut.new) }
    ensures over { AreOver store.now opening.now.term (base_of opening.now) (count_at cut.new) cursors.new }
    ensures waits { (hart : ℕ) → IsWaiting store.now opening.now.term (base_of opening.now) (option_map count_at limit.now) (count_at cut.new) hart
        (slice_index_or result hart None) }
    ensures rest { (hart : ℕ) → length cut.old ≤ hart → slice_index_or result hart None ≡ None }
{
    loop {
        let swept = sweep(store, opening, limit, cursors, cut);
        if !swept.rose {
            return swept.waits;
        }
    }
}

/// From a cut of an opened term, at most the limit where there is one, to the greatest one.
pub(crate) fn reach(
    store: &Store,
    opening: &Opening,
    limit: &Option<Counts>,
    cursors: &mut [Cursor; HART_ROW],
    cut: &mut Counts,
)
    requires rules { IsStore store.now }
    requires opening { opening_at store.now opening.now.term ≡ One opening.now }
    requires harts { length cut.old ≡ length opening.now.base }
    requires limit { ForSome limit.now (λ limit. length limit ≡ length cut.old) }
    requires cut { IsCutOf store.now opening.now.term (base_of opening.now) (option_map count_at limit.now) (count_at cut.old) }
    requires over { AreOver store.now opening.now.term (base_of opening.now) (count_at cut.old) cursors.old }
    ensures harts { length cut.new ≡ length cut.old }
    ensures greatest { IsGreatestCut store.now opening.now.term (base_of opening.now) (option_map count_at limit.now) (count_at cut.new) }
    ensures over { AreOver store.now opening.now.term (base_of opening.now) (count_at cut.new) cursors.new }
{
    let waits = raise(store, opening, limit, cursors, cut);
    if !all_held(&waits, cut.harts()) {
        lower(store, opening, limit, cursors, cut);
    }
}
