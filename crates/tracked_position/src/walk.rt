//! Walks over the pieces of a hart that go on from where an earlier one stopped.

ghost use Rattle.std.specs.Prelude.{◌≡◌, ◌<◌, Contains, IfSome, IfNone};
ghost use Rattle.std.specs.List.{filter_map};
ghost use Rattle.edge_log.specs.declared.Edge.{Edge as edge_of_specs};
ghost use Rattle.fragment_codec.specs.Facts.{edge_in};
ghost use Rattle.ft_types.specs.Counts.{count_at};
ghost use Rattle.log_join.specs.Stores.{IsStore};
ghost use Rattle.closed_cut.specs.Position.{pieces_of};
ghost use Rattle.tracked_position.specs.machinery.Cuts.{Meets};
ghost use Rattle.tracked_position.specs.machinery.Walks.{IsLeastUnmet, GoesTo, StopsBefore, EndsAt, IsAhead, stop_count, other_of, ahead_of};

use closed_cut::piece_from;
use edge_log::Edge;
use fragment_codec::{Key, Record};
use ft_types::{COUNT_LIMIT, Count, Counts, Hart, Term};
use log_join::Store;
use std::option::Option;

/// What was seen of the piece with which a walk would go on: that there is none, or its first edge that the counts did not
/// meet.
#[derive(Clone, Copy)]
pub(crate) enum Ahead {
    Unseen,
    End,
    Waits(Edge),
}

/// Where a walk stands: how many places it went over, the count at which they end, and what was seen ahead.
#[derive(Clone, Copy)]
pub(crate) struct Cursor {
    pub(crate) place: u64,
    pub(crate) end: Count,
    pub(crate) ahead: Ahead,
}

/// Where a walk stopped, and the edge that stopped it, if one did.
#[derive(Clone, Copy)]
pub(crate) struct Stop {
    pub(crate) cursor: Cursor,
    pub(crate) edge: Option<Edge>,
}

impl Stop {
    /// The count at which the walk stopped.
    pub(crate) fn count(&self) -> Count
        ensures { result ≡ stop_count self.now.cursor self.now.edge }
    {
        match self.edge {
            None => self.cursor.end,
            Some(edge) => edge.at,
        }
    }

    /// What is ahead of the walk.
    fn ahead(&self) -> Ahead
        ensures { result ≡ ahead_of self.now.edge }
    {
        match self.edge {
            None => Ahead::End,
            Some(edge) => Ahead::Waits(edge),
        }
    }

    /// The hart for which the walk waits.
    pub(crate) fn waits(&self) -> Option<Hart>
        ensures { result ≡ other_of self.now.edge }
    {
        match self.edge {
            None => None,
            Some(edge) => Some(edge.other),
        }
    }
}

/// The edge with the least count among those below the ceiling that ask for more of a hart's steps than the counts have.
pub(crate) fn least_unmet(records: &[Record], ceiling: Count, cut: &Counts) -> Option<Edge>
    ensures least { IfSome result (λ e. IsLeastUnmet (filter_map edge_in records.now) (count_at cut.now) ceiling e) }
    ensures none { IfNone result ((e : edge_of_specs) → Contains (filter_map edge_in records.now) e → e.at < ceiling → Meets (count_at cut.now) e) }
{
    let mut least = None;
    let mut below = ceiling;
    for record in records {
        if let Record::Edge(edge) = record {
            if edge.at < below && cut.count_of(edge.other) < edge.after {
                least = Some(*edge);
                below = edge.at;
            }
        }
    }
    least
}

impl Ahead {
    /// The edge for which a walk waits, while the counts do not meet it.
    fn waits(&self, cut: &Counts) -> Option<Edge>
        ensures seen { IfSome result (λ e. self.now ≡ Ahead.Waits e) }
        ensures unmet { IfSome result (λ e. count_at cut.now e.other < e.after) }
    {
        match self {
            Ahead::Waits(edge) if cut.count_of(edge.other) < edge.after => Some(*edge),
            _ => None,
        }
    }
}

/// Goes on over the hart's pieces of a term, while the counts meet each edge below the ceiling.
pub(crate) fn walk_on(
    store: &Store,
    term: Term,
    hart: Hart,
    cursor: Cursor,
    ceiling: Count,
    cut: &Counts,
) -> Stop
    requires { IsStore store.now }
    ensures goes { GoesTo (pieces_of store.now term hart) (count_at cut.now) ceiling cursor result.cursor }
    ensures before { IfSome result.edge (λ e. StopsBefore (pieces_of store.now term hart) (count_at cut.now) ceiling result.cursor e) }
    ensures end { IfNone result.edge (EndsAt (pieces_of store.now term hart) result.cursor) }
{
    let mut now = cursor;
    while now.place <= u32::MAX as u64 {
        let key = Key {
            term,
            hart,
            place: now.place as u32,
        };
        let Some(piece) = piece_from(store, key, now.end) else {
            return Stop {
                cursor: now,
                edge: None,
            };
        };
        if let Some(edge) = least_unmet(piece.records(), ceiling, cut) {
            return Stop {
                cursor: now,
                edge: Some(edge),
            };
        }
        now = Cursor {
            place: now.place + 1,
            end: piece.to(),
            ahead: Ahead::Unseen,
        };
    }
    Stop {
        cursor: now,
        edge: None,
    }
}

/// Goes on while the counts meet each edge. Looks at the store only where what was seen ahead does not tell.
pub(crate) fn walk_further(
    store: &Store,
    term: Term,
    hart: Hart,
    cursor: Cursor,
    cut: &Counts,
) -> Stop
    requires rules { IsStore store.now }
    requires ahead { IsAhead (pieces_of store.now term hart) (count_at cut.now) cursor cursor.ahead }
    ensures goes { GoesTo (pieces_of store.now term hart) (count_at cut.now) COUNT_LIMIT cursor result.cursor }
    ensures before { IfSome result.edge (λ e. StopsBefore (pieces_of store.now term hart) (count_at cut.now) COUNT_LIMIT result.cursor e) }
    ensures end { IfNone result.edge (EndsAt (pieces_of store.now term hart) result.cursor) }
    ensures ahead { IsAhead (pieces_of store.now term hart) (count_at cut.now) result.cursor result.cursor.ahead }
{
    if let Ahead::End = cursor.ahead {
        return Stop { cursor, edge: None };
    }
    if let Some(edge) = cursor.ahead.waits(cut) {
        let edge = Some(edge);
        return Stop { cursor, edge };
    }
    let stop = walk_on(store, term, hart, cursor, COUNT_LIMIT, cut);
    let ahead = stop.ahead();
    let cursor = Cursor {
        place: stop.cursor.place,
        end: stop.cursor.end,
        ahead,
    };
    Stop {
        cursor,
        edge: stop.edge,
    }
}
