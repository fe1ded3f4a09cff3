//! A pair whose first keeper is warm, and the primary that goes live from it once the pair is at its end.

ghost use Rattle.std.specs.Prelude.{◌≡◌, ◌+◌, ◌<◌, ◌⊎◌, ◌∷◌, List, IfErr, IfOk, IfSome, IsTrue, OnOk, length, map};
ghost use Rattle.std.specs.List.{range_with_len};
ghost use Rattle.ft_types.specs.declared.names.TheConstants.{KEEPER_LIMIT};
ghost use Rattle.scripts.specs.Script.{AreOffered};
ghost use Rattle.log_streams.specs.Primary.{IsRunOf};
ghost use Rattle.primary.specs.Outputs.{outputs_in};
ghost use Rattle.pair.specs.Released.{AreNotesOut, IsPartOf};
ghost use Rattle.log_join.specs.Stores.{StoreView};
ghost use Rattle.hart_replay.specs.KeepingUp.{IsFaultOfStore};
ghost use Rattle.pair.specs.Warm.{AreMarksOut, AreSaid, GoesOn, HasGoneLive, HasReplayed, IsPlannedUpTo, IsRefused};

use crate::holding::Held;
use crate::known::knows;
use crate::threads::{PairEnd, run_kept};
use fragment_codec::FIRST_TERM;
use ft_types::{Keeper, Memory};
use go_live::{Live, LiveFault};
use guest_image::Image;
use hart_replay::ReplayFault;
use log_join::Store;
use log_streams::PairOrders;
use output_gate::Output;
use page_book::{Book, Recording};
use scripts::Offered;
use std::alloc::Global;
use std::result::Result;
use std::sync::Wait;
use std::thread::Threads;
use warm_backup::Backup;
use warm_live::go_live_warm;

/// What became of a pair whose first keeper was warm.
#[derive(Drop)]
pub struct WarmEnd {
    /// What went out, by hart and number.
    pub released: Vec<Output>,
    /// How many outputs did not go out.
    pub kept: usize,
    /// The primary's book.
    pub book: Book<Recording>,
    /// The primary of the next term.
    pub live: Live,
    /// How many steps were replayed when it went live.
    pub steps: u64,
}

/// The term behind the pair's.
pub(crate) const NEXT_TERM: u32 = FIRST_TERM + 1;

/// Whether the images are the same.
fn is_same(one: &Image, other: &Image) -> bool
    ensures { IsTrue result → one.now ≡ other.now }
{
    one.harts() == other.harts() && one.pages() == other.pages() && one.words() == other.words()
}

/// What these keepers hold, the first of whom has number 1, with their numbers.
fn stores_of<'a>(alloc: Global, held: &'a [Held]) -> Result<Vec<(Keeper, &'a Store)>, Memory>
    requires { length held.now < KEEPER_LIMIT }
    ensures stores { IfOk result (λ stores. map (λ s. s.1.now) stores.items ≡ held.now) }
    ensures numbers { IfOk result (λ stores. map (λ s. s.0) stores.items ≡ range_with_len 1 (length held.now)) }
{
    let mut stores = Vec::new(alloc);
    stores.reserve(held.len())?;
    let mut number = 0;
    for one in held {
        number += 1;
        stores.push_reserved((Keeper::new(number), one.store()));
    }
    Ok(stores)
}

/// The first keeper's backup, which is one of the image's, and what the others hold.
fn first_of(image: &Image, held: Vec<Held>) -> Option<(Backup, Vec<Held>)>
    ensures held { IfSome result (λ r. held.items ≡ r.0.store ∷ r.1.items) }
    ensures image { IfSome result (λ r. r.0.image ≡ image.now) }
{
    let mut held = held;
    if held.is_empty() {
        return None;
    }
    let Some(backup) = held.remove(0).into_backup() else {
        return None;
    };
    if !is_same(backup.image(), image) {
        return None;
    }
    Some((backup, held))
}

/// The backup goes to where its own store leads. Where it has kept up it is there.
fn keep_up(alloc: Global, backup: &mut Backup) -> Result<(), ReplayFault>
    ensures image { backup.new.image ≡ backup.old.image }
    ensures store { backup.new.store ≡ backup.old.store }
    ensures planned { OnOk result (IsPlannedUpTo backup.new.store backup.new.position backup.new.legs) }
    ensures fault { IfErr result (λ f. (f ≡ ReplayFault.Memory) ⊎ IsFaultOfStore backup.old.image backup.old.store f) }
{
    backup.advance(alloc)
}

/// The primary of the next term, from the first keeper's machine and what the others hold, and how many steps were replayed for it.
fn revive(
    alloc: Global,
    image: &Image,
    held: Vec<Held>,
    orders: &PairOrders,
) -> Result<(Live, u64), LiveFault>
    requires { length held.items ≡ orders.now.quorum.keepers }
    ensures live { IfOk result (λ r. GoesOn image.now held.items r.0) }
    ensures steps { IfOk result (λ r. HasReplayed image.now held.items r.0 r.1) }
    ensures refused { IfErr result (λ fault. IsRefused image.now held.items fault) }
{
    // In a pair the first keeper has one.
    let Some((mut backup, others)) = first_of(image, held) else {
        return Err(LiveFault::Memory);
    };
    keep_up(alloc, &mut backup)?;
    let stores = stores_of(alloc, &others)?;
    let live = go_live_warm(
        alloc,
        &mut backup,
        Keeper::new(0),
        stores.as_slice(),
        orders.quorum(),
        NEXT_TERM,
    )?;
    Ok((live, backup.last_steps()))
}

/// Runs a pair as `run_pair` does, whose first keeper is warm. At its end a primary of the next term goes live from that keeper's
/// machine and what the others hold. It is given up, as where memory is refused, where that primary does not know what went out.
pub fn run_pair_warm<R: Threads + Wait + Sync>(
    rt: &R,
    alloc: Global,
    image: &Image,
    script: &[Offered],
    orders: &PairOrders,
) -> Result<WarmEnd, LiveFault>
    requires { AreOffered image.now.harts script.now }
    ensures run { IfOk result (λ end. IsRunOf image.now script.now orders.now.budget end.book) }
    // The new primary goes live from stores on whose way as many keepers as are needed had each output inside a position. Replayed were the steps from where the
    // first store leads to on, where what is planned of it begins what is planned of all, else all.
    ensures live { IfOk result (λ end. HasGoneLive image.now orders.now.quorum.keepers orders.now.quorum.need end.released.items end.live end.steps) }
    // What went out is its machine's, with its steps and words, and it takes nothing for known to be out that did not go out.
    ensures said { IfOk result (λ end. AreSaid end.live.book.machine end.released.items) }
    ensures marks { IfOk result (λ end. AreMarksOut end.live.marks end.released.items) }
    ensures part { IfOk result (λ end. IsPartOf end.released.items (outputs_in end.book.machine)) }
    ensures kept { IfOk result (λ end. length end.released.items + end.kept ≡ length (outputs_in end.book.machine)) }
    ensures noted { IfOk result (λ end. AreNotesOut end.book end.released.items) }
    // Where there is memory it is refused for what the stores of all keepers tell.
    ensures refused { IfErr result (λ fault. (fault ≡ LiveFault.Memory)
        ⊎ ((stores : List StoreView) × (length stores ≡ orders.now.quorum.keepers) × IsRefused image.now stores fault)) }
{
    let PairEnd {
        released,
        early: _,
        kept,
        book,
        stores,
    } = run_kept(rt, alloc, image, script, orders, true)?;
    let (live, steps) = revive(alloc, image, stores, orders)?;
    if !knows(&live, &released) {
        return Err(LiveFault::Memory);
    }
    Ok(WarmEnd {
        released,
        kept,
        book,
        live,
        steps,
    })
}
