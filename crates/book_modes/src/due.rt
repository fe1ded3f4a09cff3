//! What a hart's next step is given.

ghost use Rattle.std.specs.Prelude.{◌≡◌, ◌≤◌, ◌<◌, ℕ, length, replicate, true};
ghost use Rattle.book_modes.specs.machinery.Words.{HasRoomFor, lent_with, small_vec_len};
ghost use Rattle.book_modes.specs.Dues.{DueView, nothing_due, bell_edges, is_silent, stop_before};
ghost use Rattle.ft_types.specs.declared.names.TheConstants.{HART_ROW};

use edge_log::Edge;
use ft_types::{Count, HART_ROW, Hart, INPUT_LIMIT};
use hart_lease::{EDGE_ROOM, Lent};
use input_log::{Input, WaitingBell};
use smallvec::SmallVec;
use std::alloc::Global;
use std::array;
use std::marker::Model;

/// What a hart's next step is given, until it is settled: its inputs, and the edges from the harts whose bells it hears:
/// `INPUT_LIMIT` inputs at the most, and at most an edge for each.
pub struct Due {
    inputs: SmallVec<Input, INPUT_LIMIT>,
    edges: SmallVec<Edge, EDGE_ROOM>,
}

impl Drop for Due {
    fn drop(self) {
        let Due {
            inputs: _,
            edges: _,
        } = self;
    }
}

impl Model for Due {
    ghost use Rattle.std.specs.Prelude.{◌≤◌, length};
    ghost use Rattle.book_modes.specs.Dues.{DueView};
    ghost use Rattle.ft_types.specs.declared.names.TheConstants.{INPUT_LIMIT};
    ghost use Rattle.hart_lease.specs.declared.lent.TheConstants.{EDGE_ROOM};

    ghost Value = { DueView };

    ghost view = { λ d. record { inputs = d.inputs.items; edges = d.edges.items } };

    ghost invariant = { λ d. (length d.inputs.items ≤ INPUT_LIMIT) × (length d.edges.items ≤ EDGE_ROOM) };
}

/// A copy of so few inputs, which takes no memory.
pub(crate) fn inputs_copied(alloc: Global, inputs: &[Input]) -> SmallVec<Input, INPUT_LIMIT>
    requires { length inputs.now ≤ INPUT_LIMIT }
    ensures { result.items ≡ inputs.now }
{
    SmallVec::from_slice(alloc, inputs).unwrap()
}

/// The edges from harts whose bells this hart hears at this count.
fn edges_of(
    alloc: Global,
    hart: Hart,
    count: Count,
    bells: &[WaitingBell],
) -> SmallVec<Edge, EDGE_ROOM>
    requires { length bells.now ≤ INPUT_LIMIT }
    ensures value { result.items ≡ bell_edges hart count bells.now }
    ensures few { length result.items ≤ EDGE_ROOM }
{
    let mut edges = SmallVec::new(alloc);
    for bell in bells {
        if bell.source != hart {
            edges.push_reserved(Edge {
                hart,
                at: count,
                other: bell.source,
                after: bell.after,
            });
        }
    }
    edges
}

impl Due {
    /// Nothing.
    pub(crate) fn nothing(alloc: Global) -> Due
        ensures { result ≡ nothing_due }
    {
        Due {
            inputs: SmallVec::new(alloc),
            edges: SmallVec::new(alloc),
        }
    }

    /// What a hart at this count is given with these inputs, where it hears these bells among them.
    pub(crate) fn new(
        alloc: Global,
        hart: Hart,
        count: Count,
        inputs: SmallVec<Input, INPUT_LIMIT>,
        bells: &[WaitingBell],
    ) -> Due
        requires inputs { length inputs.items ≤ INPUT_LIMIT }
        requires bells { length bells.now ≤ INPUT_LIMIT }
        ensures { result ≡ record { inputs = inputs.items; edges = bell_edges hart count bells.now } }
    {
        let edges = edges_of(alloc, hart, count, bells);
        Due { inputs, edges }
    }

    /// The same.
    pub(crate) fn copy(&self, alloc: Global) -> Due
        ensures { result ≡ self.now }
    {
        let inputs = inputs_copied(alloc, self.inputs.as_slice());
        let edges = SmallVec::from_slice(alloc, self.edges.as_slice()).unwrap();
        Due { inputs, edges }
    }

    /// The inputs.
    pub(crate) fn inputs(&self) -> &[Input]
        ensures { result.now ≡ self.now.inputs }
    {
        self.inputs.as_slice()
    }

    /// Whether it is given no inputs.
    pub(crate) fn is_silent(&self) -> bool
        ensures { result ≡ is_silent self.now.inputs }
    {
        self.inputs.is_empty()
    }

    /// Whether it is nothing: neither inputs nor edges.
    pub(crate) fn is_nothing(&self) -> bool
        ensures { result ≡ true → self.now ≡ nothing_due }
    {
        self.inputs.is_empty() && self.edges.is_empty()
    }

    /// A hart that is given this is lent with it, as far as this count.
    pub(crate) fn lent(&self, alloc: Global, stop: Count) -> Lent
        ensures { result ≡ lent_with stop self.now.inputs self.now.edges }
    {
        self.copy(alloc).out(stop)
    }

    /// A hart is lent with this itself, as far as this count.
    fn out(self, stop: Count) -> Lent
        ensures { result ≡ lent_with stop self.inputs self.edges }
    {
        let Due { inputs, edges } = self;
        Lent::new(stop, inputs, edges)
    }
}

/// Nothing, for each hart.
pub(crate) fn nothing_due(alloc: Global) -> [Due; HART_ROW]
    ensures { result ≡ replicate HART_ROW nothing_due }
{
    array::from_fn(|_| Due::nothing(alloc))
}

/// The same, for each hart.
pub(crate) fn dues_copied(alloc: Global, due: &[Due; HART_ROW]) -> [Due; HART_ROW]
    ensures { result ≡ due.now }
{
    let mut copied = nothing_due(alloc);
    for hart in 0..HART_ROW {
        copied[hart] = due[hart].copy(alloc);
    }
    copied
}

/// How far a hart at this count goes, where the next of what waits for it may be given at this other count.
pub(crate) fn stop_before(limit: Count, count: Count, next: Option<Count>) -> Count
    requires { count < limit }
    ensures { result ≡ stop_before limit count next }
{
    match next {
        None => limit,
        Some(next) => limit.min(next.max(count + 1)),
    }
}
