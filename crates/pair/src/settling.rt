//! What keepers are left with, once no thread goes on.

ghost use Rattle.std.specs.Prelude.{◌≡◌, ◌<◌, length, IfOk};
ghost use Rattle.ack_core.specs.Seats.{harts_of, keepers_of, IsGateOf};
ghost use Rattle.pair.specs.Serving.{AreHad, AreServed};

use crate::holding::Held;
use crate::keeper_thread::Served;
use ack_core::{Board, GateSeat};
use ft_types::{Hart, Memory};
use std::alloc::Global;
use std::result::Result;

/// The keepers' stores. All that the gate has heard of a keeper the keeper has published, and its store had it.
pub(crate) fn stores_of(
    alloc: Global,
    board: &Board,
    gate: GateSeat,
    served: Vec<Result<Served, Memory>>,
) -> Result<Vec<Held>, Memory>
    requires gate { IsGateOf board.now gate }
    requires served { AreServed board.now served.items }
    requires harts { 0 < harts_of board.now }
    ensures stores { IfOk result (λ stores. length stores.items ≡ keepers_of board.now) }
    ensures had { IfOk result (λ stores. AreHad board.now gate stores.items) }
{
    let mut gate = gate;
    let mut stores = Vec::new(alloc);
    for one in served {
        let (mut seat, store) = one?;
        // proof: what the gate has heard of this keeper begins what the keeper published.
        let _last = board.beside(&mut gate, &mut seat, Hart::new(0));
        stores.push(store)?;
    }
    Ok(stores)
}
