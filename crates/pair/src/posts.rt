//! The channels of a pair: what each keeper's thread begins with, and whom the primary sends to.

ghost use Rattle.std.specs.Prelude.{◌≡◌, IfOk};
ghost use Rattle.ack_core.specs.Seats.{harts_of};
ghost use Rattle.guest_image.specs.Image.{guest_of};
ghost use Rattle.log_join.specs.Stores.{nothing};
ghost use Rattle.pair.specs.Posts.{AreKeepersOf, ArePostsOf};

use crate::holding::Held;
use crate::messages::{ToGate, ToKeeper, Went};
use crate::tally::Tally;
use ack_core::{Board, GateSeat, KeeperSeat};
use crossbeam_channel::{Receiver, Sender, unbounded};
use ft_types::Memory;
use guest_image::Image;
use log_streams::Budget;
use output_gate::Gate;
use primary::Primary;
use std::alloc::Global;
use std::result::Result;
use std::sync::Arc;

/// What a keeper's thread begins with.
#[derive(Drop)]
pub(crate) struct Post {
    pub(crate) seat: KeeperSeat,
    pub(crate) store: Held,
    pub(crate) frames: Receiver<ToKeeper, Global>,
    pub(crate) gate: Sender<ToGate, Global>,
    /// Which keeper it is, and how far each of them is.
    pub(crate) place: usize,
    pub(crate) tally: Arc<Tally, Global>,
}

/// What the gate's thread begins with.
#[derive(Drop)]
pub(crate) struct Watch {
    pub(crate) gate: Gate,
    pub(crate) seat: GateSeat,
    pub(crate) channel: Receiver<ToGate, Global>,
    /// What harts have put out, which nobody waits for.
    pub(crate) offers: Receiver<ToGate, Global>,
    /// That the primary has something for keepers and gate.
    pub(crate) begun: Receiver<(), Global>,
    /// Whom it tells what went out.
    pub(crate) primary: Sender<Went, Global>,
}

/// What the primary's thread begins with.
#[derive(Drop)]
pub(crate) struct PrimaryPost {
    pub(crate) primary: Primary,
    /// The limit of each hart.
    pub(crate) budget: Budget,
    /// Whom it sends to.
    pub(crate) keepers: Vec<Sender<ToKeeper, Global>>,
    pub(crate) gate: Sender<ToGate, Global>,
    pub(crate) offers: Sender<ToGate, Global>,
    pub(crate) begins: Sender<(), Global>,
    /// What went out.
    pub(crate) went: Receiver<Went, Global>,
}

/// A post for this seat, and the sender of its frames.
fn new_post(
    alloc: Global,
    image: &Image,
    is_warm: bool,
    seat: KeeperSeat,
    gate: &Sender<ToGate, Global>,
    place: usize,
    tally: &Arc<Tally, Global>,
) -> Result<(Post, Sender<ToKeeper, Global>), Memory>
    ensures { IfOk result (λ r. (r.0.seat ≡ seat) × (r.0.store ≡ nothing (guest_of image.now))) }
{
    let (sender, frames) = unbounded(alloc)?;
    let store = Held::new(alloc, image, is_warm)?;
    let gate = gate.clone()?;
    let post = Post {
        seat,
        store,
        frames,
        gate,
        place,
        tally: Arc::try_clone(tally)?,
    };
    Ok((post, sender))
}

/// A post for each seat, and the senders of their frames. Where one is to be warm it is the first.
pub(crate) fn man_posts(
    alloc: Global,
    board: &Board,
    image: &Image,
    is_warm: bool,
    seats: Vec<KeeperSeat>,
    gate: &Sender<ToGate, Global>,
    tally: &Arc<Tally, Global>,
) -> Result<(Vec<Post>, Vec<Sender<ToKeeper, Global>>), Memory>
    requires seats { AreKeepersOf board.now seats.items }
    requires harts { image.now.harts ≡ harts_of board.now }
    ensures { IfOk result (λ r. ArePostsOf board.now r.0.items) }
{
    let mut posts = Vec::new(alloc);
    let mut keepers = Vec::new(alloc);
    for seat in seats {
        let place = posts.len();
        let (post, sender) = new_post(
            alloc,
            image,
            is_warm && place == 0,
            seat,
            gate,
            place,
            tally,
        )?;
        posts.push(post)?;
        keepers.push(sender)?;
    }
    Ok((posts, keepers))
}
