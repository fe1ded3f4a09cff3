//! How far a store reaches.

ghost use Rattle.std.specs.Prelude.{◌≡◌, ◌≤◌, length, IfOk};
ghost use Rattle.std.specs.Option.{option_map, ForSome};
ghost use Rattle.ft_types.specs.Counts.{count_at, IsWithin};
ghost use Rattle.log_join.specs.Cells.{One};
ghost use Rattle.log_join.specs.Stores.{opening_at, IsStore};
ghost use Rattle.closed_cut.specs.Chain.{Sound, LeadsTo};
ghost use Rattle.closed_cut.specs.machinery.Walks.{IsLimited};
ghost use Rattle.closed_cut.specs.Position.{base_of, IsReached, Stops, IsPosition};

use crate::ancestry::{chain, last_of, opening_of};
use crate::gathering::gather;
use crate::lowering::greatest_closed;
use fragment_codec::Opening;
use ft_types::{Counts, Hart, Memory, Position, Term};
use log_join::Store;
use std::alloc::Global;
use std::option::Option;
use std::result::Result;

/// The counts, hart by hart at most the limit, where there is one.
fn limited(counts: Counts, limit: Option<Counts>) -> Counts
    requires { ForSome limit (λ limit. length limit ≡ length counts) }
    ensures { IsLimited counts limit result }
{
    match limit {
        None => counts,
        Some(limit) => counts.meet(limit),
    }
}

/// The greatest closed counts that the pieces of an opened term reach, at most the limit where there is one.
fn reached(
    alloc: Global,
    store: &Store,
    opening: &Opening,
    limit: Option<Counts>,
) -> Result<Counts, Memory>
    requires rules { IsStore store.now }
    requires opening { opening_at store.now opening.now.term ≡ One opening.now }
    requires limit { ForSome limit (λ limit. IsWithin opening.now.base limit) }
    requires limit_harts { ForSome limit (λ limit. length limit ≡ length opening.now.base) }
    ensures harts { IfOk result (λ counts. length counts ≡ length opening.now.base) }
    ensures reached { IfOk result (λ counts. IsReached store.now opening.now.term (base_of opening.now) (option_map count_at limit) (count_at counts)) }
{
    let mut edges = Vec::new(alloc);
    let base = opening.base();
    let mut bound = base;
    for number in 0..base.harts() {
        let hart = Hart::new(number);
        let end = gather(store, opening.term(), hart, base.get(hart), &mut edges)?;
        bound.set(hart, end);
    }
    Ok(greatest_closed(edges, limited(bound, limit)))
}

/// Where the walk stops that begins at this opening and goes on along these terms.
fn walk(
    alloc: Global,
    store: &Store,
    root: &Opening,
    rest: &[Term],
    top: Term,
) -> Result<Position, Memory>
    requires rules { IsStore store.now }
    requires root { opening_at store.now root.now.term ≡ One root.now }
    requires rest { LeadsTo store.now root.now.term rest.now top }
    requires sound { Sound store.now top }
    ensures top { IfOk result (λ p. p.top ≡ top) }
    ensures harts { IfOk result (λ p. length p.counts ≡ store.now.guest.harts) }
    ensures stops { IfOk result (λ p. Stops store.now top p.term (count_at p.counts) root.now.term) }
{
    let mut now = root;
    for term in rest {
        let Some(next) = opening_of(store, *term) else {
            unreachable!()
        };
        let counts = reached(alloc, store, now, Some(next.base()))?;
        if !next.base().within(counts) {
            return Ok(Position {
                term: now.term(),
                counts,
                top,
            });
        }
        now = next;
    }
    let counts = reached(alloc, store, now, None)?;
    Ok(Position {
        term: now.term(),
        counts,
        top,
    })
}

/// The store's position: where the walk along its chain stops.
pub fn position(alloc: Global, store: &Store) -> Result<Position, Memory>
    ensures position { IfOk result (λ p. IsPosition store.now p) }
    ensures harts { IfOk result (λ p. length p.counts ≡ store.now.guest.harts) }
{
    let terms = chain(alloc, store)?;
    let Some((first, rest)) = terms.as_slice().split_first() else {
        return Ok(Position {
            term: 0,
            counts: Counts::zero(store.guest().harts()),
            top: 0,
        });
    };
    let top = last_of(&terms);
    let Some(root) = opening_of(store, *first) else {
        unreachable!()
    };
    walk(alloc, store, root, rest, top)
}
