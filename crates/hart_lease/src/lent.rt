//! What a hart that is lent goes out with.

ghost use Rattle.std.specs.Prelude.{◌≡◌, ◌≤◌, length};

use edge_log::Edge;
use ft_types::{Count, INPUT_LIMIT};
use input_log::Input;
use smallvec::SmallVec;
use std::marker::Model;

/// The number of edges that lie in a lease itself: those that it goes out with are of bells, which are inputs. Where more wait in
/// it, they lie in memory of their own.
pub const EDGE_ROOM: usize = INPUT_LIMIT;

/// What a hart that is lent goes out with: the count that its lease does not go past, the inputs of its next step, and the
/// edges that this step owes whatever page it uses. At most `INPUT_LIMIT` inputs, and at most an edge for each.
pub struct Lent {
    stop: Count,
    inputs: SmallVec<Input, INPUT_LIMIT>,
    edges: SmallVec<Edge, EDGE_ROOM>,
}

impl Drop for Lent {
    fn drop(self) {
        let Lent {
            stop: _,
            inputs: _,
            edges: _,
        } = self;
    }
}

impl Model for Lent {
    ghost use Rattle.std.specs.Prelude.{◌≤◌, ◌<◌, ◌^◌, length};
    ghost use Rattle.hart_lease.specs.OpenLeases.{LentView};
    ghost use Rattle.ft_types.specs.declared.names.TheConstants.{INPUT_LIMIT};
    ghost use Rattle.hart_lease.specs.declared.lent.TheConstants.{EDGE_ROOM};

    ghost Value = { LentView };

    ghost view = { λ l. record { stop = l.stop; inputs = l.inputs.items; edges = l.edges.items } };

    ghost invariant = { λ l. (length l.inputs.items ≤ INPUT_LIMIT) × (length l.edges.items ≤ EDGE_ROOM) };
}

impl Lent {
    /// So far, with these inputs and edges.
    pub fn new(
        stop: Count,
        inputs: SmallVec<Input, INPUT_LIMIT>,
        edges: SmallVec<Edge, EDGE_ROOM>,
    ) -> Lent
        requires inputs { length inputs.items ≤ INPUT_LIMIT }
        requires edges { length edges.items ≤ EDGE_ROOM }
        ensures { result ≡ record { stop = stop; inputs = inputs.items; edges = edges.items } }
    {
        Lent {
            stop,
            inputs,
            edges,
        }
    }

    /// The count that the lease does not go past.
    pub(crate) fn stop(&self) -> Count
        ensures { result ≡ self.now.stop }
    {
        self.stop
    }

    /// The inputs of its first step.
    pub(crate) fn inputs(&self) -> &[Input]
        ensures value { result.now ≡ self.now.inputs }
        ensures few { length result.now ≤ INPUT_LIMIT }
    {
        self.inputs.as_slice()
    }

    /// The edges of its first step.
    pub(crate) fn edges(&self) -> &[Edge]
        ensures value { result.now ≡ self.now.edges }
        ensures few { length result.now ≤ EDGE_ROOM }
    {
        self.edges.as_slice()
    }

    /// The inputs, and the edges.
    pub(crate) fn into_parts(self) -> (SmallVec<Input, INPUT_LIMIT>, SmallVec<Edge, EDGE_ROOM>)
        ensures inputs { result.0.items ≡ self.inputs }
        ensures edges { result.1.items ≡ self.edges }
        ensures few { length self.inputs ≤ INPUT_LIMIT }
    {
        let Lent {
            stop: _,
            inputs,
            edges,
        } = self;
        (inputs, edges)
    }
}
