//! A keeper's work: frames go into its store, and the position of what it holds onto the board.

ghost use Rattle.std.specs.Prelude.{◌≡◌, OnOk};
ghost use Rattle.ack_core.specs.Seats.{harts_of, keeper_of, IsKeeperOf};
ghost use Rattle.pair.specs.Keeping.{AreTaken, Tells};

use crate::holding::Held;
use ack_core::{Board, KeeperSeat};
use fragment_codec::Frame;
use ft_types::Memory;
use std::alloc::Global;
use std::result::Result;

/// Takes frames, those of another guest aside.
pub(crate) fn take_all(alloc: Global, store: &mut Held, frames: Vec<Frame>) -> Result<(), Memory>
    ensures taken { OnOk result (AreTaken store.old frames.items store.new) }
    ensures guest { store.new.guest ≡ store.old.guest }
{
    for frame in frames {
        store.put(alloc, frame)?;
    }
    Ok(())
}

/// Takes frames, and then publishes the position of all that the store holds, where it is one of the board's term.
pub(crate) fn keep(
    alloc: Global,
    board: &Board,
    seat: &mut KeeperSeat,
    store: &mut Held,
    frames: Vec<Frame>,
) -> Result<(), Memory>
    requires seat { IsKeeperOf board.now seat.old }
    requires harts { store.old.guest.harts ≡ harts_of board.now }
    ensures seat { IsKeeperOf board.now seat.new × (keeper_of seat.new ≡ keeper_of seat.old) }
    ensures guest { store.new.guest ≡ store.old.guest }
    ensures taken { OnOk result (AreTaken store.old frames.items store.new) }
    ensures tells { OnOk result (Tells board.now seat.old store.new seat.new) }
{
    take_all(alloc, store, frames)?;
    let _harts = board.harts();
    let _published = board.publish(seat, store.position());
    Ok(())
}
