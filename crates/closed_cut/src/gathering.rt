//! The pieces of a hart that go on without a gap, and their edges.

ghost use Rattle.std.specs.Prelude.{◌≡◌, ◌≢◌, ◌<◌, ◌≤◌, ◌++◌, IfOk, OnOk, IfSome, IfNone};
ghost use Rattle.std.specs.List.{filter_map};
ghost use Rattle.fragment_codec.specs.Rules.{FragmentParts};
ghost use Rattle.log_join.specs.Cells.{One};
ghost use Rattle.log_join.specs.Stores.{fragment_at, IsStore};
ghost use Rattle.fragment_codec.specs.Facts.{edge_in};
ghost use Rattle.closed_cut.specs.Position.{pieces_of};
ghost use Rattle.closed_cut.specs.machinery.Walks.{IsGathered};

use edge_log::Edge;
use fragment_codec::{Fragment, Frame, Key, Record};
use ft_types::{COUNT_LIMIT, Count, Hart, Memory, Term};
use log_join::{Found, Store};
use std::option::Option;
use std::result::Result;

/// The piece with this key, where one content came.
fn piece_of(store: &Store, key: Key) -> Option<&Fragment>
    ensures one { IfSome result (λ f. fragment_at store.entry.now key ≡ One f.now) }
    ensures rules { IsStore store.entry.now }
    ensures none { IfNone result ((f : FragmentParts) → fragment_at store.entry.now key ≡ One f → ⊥) }
{
    match store.get(key) {
        Found::One(Frame::Log(fragment)) => Some(fragment),
        _ => None,
    }
}

/// The piece with this key, where one content came and it begins at this count: how a walk over a hart's pieces of a term
/// goes on that has come to it.
pub fn piece_from(store: &Store, key: Key, end: Count) -> Option<&Fragment>
    ensures one { IfSome result (λ f. fragment_at store.entry.now key ≡ One f.now) }
    ensures from { IfSome result (λ f. f.now.from ≡ end) }
    ensures rules { IsStore store.entry.now }
    ensures none { IfNone result ((f : FragmentParts) → fragment_at store.entry.now key ≡ One f → f.from ≢ end) }
{
    let piece = piece_of(store, key)?;
    if piece.from() != end {
        return None;
    }
    Some(piece)
}

/// Adds the edges among the records.
fn add_edges(edges: &mut Vec<Edge>, records: &[Record]) -> Result<(), Memory>
    ensures { OnOk result (edges.new.items ≡ edges.old.items ++ filter_map edge_in records.now) }
{
    for record in records {
        if let Record::Edge(edge) = record {
            edges.push(*edge)?;
        }
    }
    Ok(())
}

/// Goes over the hart's pieces of a term from a count on, place by place, while each begins at the end so far. Gives the
/// end, and adds the edges of these pieces.
pub(crate) fn gather(
    store: &Store,
    term: Term,
    hart: Hart,
    from: Count,
    edges: &mut Vec<Edge>,
) -> Result<Count, Memory>
    requires { from < COUNT_LIMIT }
    ensures gathered { IfOk result (λ end. IsGathered (pieces_of store.now term hart) from edges.old.items end edges.new.items) }
    ensures limit { IfOk result (λ end. end < COUNT_LIMIT) }
{
    let mut end = from;
    for place in 0..=u32::MAX {
        let Some(piece) = piece_from(store, Key { term, hart, place }, end) else {
            break;
        };
        add_edges(edges, piece.records())?;
        end = piece.to();
    }
    Ok(end)
}
