//! The threads of a pair.

ghost use Rattle.std.specs.Prelude.{◌≡◌, ◌+◌, ◌<◌, IfOk, filter, length};
ghost use Rattle.std.specs.List.{AllByRecursion};
ghost use Rattle.ack_core.specs.Seats.{term_of, harts_of, keepers_of, keeper_of, IsGateOf};
ghost use Rattle.scripts.specs.Script.{AreOffered};
ghost use Rattle.log_streams.specs.Primary.{IsRunOf};
ghost use Rattle.primary.specs.Outputs.{outputs_in};
ghost use Rattle.pair.specs.Leading.{HasLed};
ghost use Rattle.pair.specs.Posts.{ArePostsOf, IsPostOf, IsWatchOf, MayLead};
ghost use Rattle.pair.specs.Released.{AreNotesOut, IsPartOf, is_among};
ghost use Rattle.pair.specs.Serving.{AreHad, AreServed, IsHeard, IsHeldOnTheWay, IsServed};

use crate::apart::is_apart;
use crate::beside::released_of;
use crate::gate_thread::{GateEnd, guard};
use crate::holding::Held;
use crate::keeper_thread::{Served, serve};
use crate::posts::{Post, PrimaryPost, Watch, man_posts};
use crate::primary_thread::lead;
use crate::printing::{write_pair, write_warm};
use crate::settling::stores_of;
use crate::tally::Tally;
use crate::telling::outputs_in_all;
use crate::warm::run_pair_warm;
use ack_core::Board;
use crossbeam_channel::unbounded;
use fragment_codec::FIRST_TERM;
use ft_types::{Memory, Sink};
use go_live::LiveFault;
use guest_image::{Image, Machine};
use hart_replay::{Plan, ReplayFault, replay_plain};
use hart_threads::{Free, PoolFault, replay, run};
use log_streams::{PairOrders, Pairs, Replays, Runs, StreamsFault, WarmFault, begin_primary};
use output_gate::{Gate, Output};
use page_book::{Book, Recording};
use scripts::Offered;
use std::alloc::Global;
use std::result::Result;
use std::sync::{Arc, Wait};
use std::thread;
use std::thread::Threads;

/// What became of a pair.
#[derive(Drop)]
pub struct PairEnd {
    /// What went out, by hart and number.
    pub released: Vec<Output>,
    /// How many had gone out when the gate heard that the primary was at its end.
    pub early: usize,
    /// How many outputs did not go out.
    pub kept: usize,
    /// The primary's book.
    pub book: Book<Recording>,
    /// What each keeper holds, with its position.
    pub stores: Vec<Held>,
}

/// A thread for each keeper.
fn serve_all<R: Threads + Wait + Sync>(
    rt: &R,
    alloc: Global,
    board: &Board,
    posts: Vec<Post>,
) -> Result<Vec<Result<Served, Memory>>, Memory>
    requires { ArePostsOf board.now posts.items }
    ensures { IfOk result (λ all. AreServed board.now all.items) }
{
    Ok(thread::map_vec(
        rt,
        posts,
        &|post| -> Result<Served, Memory>
            requires { IsPostOf board.now post }
            ensures { IfOk result (λ s. IsServed board.entry.now (keeper_of post.seat) s) }
        { serve(rt, alloc, board, post) },
    )?)
}

/// The gate's thread beside those of the keepers, once the primary has something for them: its harts have their threads by then, each on a processor of its own where
/// there are enough. Where no thread can be made for the gate it comes last.
fn guard_and_serve<R: Threads + Wait + Sync>(
    rt: &R,
    alloc: Global,
    board: &Board,
    watch: Watch,
    posts: Vec<Post>,
) -> (
    Result<GateEnd, Memory>,
    Result<Vec<Result<Served, Memory>>, Memory>,
)
    requires watch { IsWatchOf board.now watch }
    requires posts { ArePostsOf board.now posts.items }
    ensures guarded { IfOk result.0 (λ end. IsGateOf board.now end.seat × AllByRecursion (IsHeard board.now end.seat watch.gate.need) end.released.items) }
    ensures served { IfOk result.1 (λ all. AreServed board.now all.items) }
{
    let _begun = watch.begun.recv(rt);
    thread::join(
        rt,
        move || -> Result<GateEnd, Memory>
            requires { IsWatchOf board.now watch }
            ensures { IfOk result (λ end. IsGateOf board.entry.now end.seat × AllByRecursion (IsHeard board.entry.now end.seat watch.gate.need) end.released.items) }
        { guard(rt, alloc, board, watch) },
        move || -> Result<Vec<Result<Served, Memory>>, Memory>
            requires { ArePostsOf board.now posts.items }
            ensures { IfOk result (λ all. AreServed board.entry.now all.items) }
        { serve_all(rt, alloc, board, posts) },
    )
}

/// All threads of a pair, and what they leave.
fn run_all<R: Threads + Wait + Sync>(
    rt: &R,
    alloc: Global,
    board: &Board,
    watch: Watch,
    posts: Vec<Post>,
    primary_post: PrimaryPost,
) -> Result<PairEnd, Memory>
    requires watch { IsWatchOf board.now watch }
    requires posts { ArePostsOf board.now posts.items }
    requires primary { MayLead primary_post }
    requires harts { 0 < harts_of board.now }
    ensures led { IfOk result (λ end. HasLed primary_post.primary.book end.book) }
    ensures stores { IfOk result (λ end. length end.stores.items ≡ keepers_of board.now) }
    ensures inside { IfOk result (λ end. AllByRecursion (IsHeldOnTheWay end.stores.items (term_of board.now) watch.gate.need) end.released.items) }
    ensures part { IfOk result (λ end. IsPartOf end.released.items (outputs_in end.book.machine)) }
    ensures kept { IfOk result (λ end. length end.released.items + end.kept ≡ length (outputs_in end.book.machine)) }
    ensures noted { IfOk result (λ end. AreNotesOut end.book end.released.items) }
{
    let ((gate, served), book) = thread::join(
        rt,
        move || -> (
            Result<GateEnd, Memory>,
            Result<Vec<Result<Served, Memory>>, Memory>,
        )
            requires { IsWatchOf board.now watch × ArePostsOf board.now posts.items }
            ensures { IfOk result.0 (λ end. IsGateOf board.entry.now end.seat × AllByRecursion (IsHeard board.entry.now end.seat watch.gate.need) end.released.items)
                × IfOk result.1 (λ all. AreServed board.entry.now all.items) }
        { guard_and_serve(rt, alloc, board, watch, posts) },
        move || -> Result<Book<Recording>, Memory>
            requires { MayLead primary_post }
            ensures { IfOk result (λ book. HasLed primary_post.primary.book book) }
        { lead(rt, alloc, primary_post) },
    );
    end_of(alloc, board, gate?, served?, book?)
}

/// What a pair comes to: of the outputs of the primary's machine those go out that the gate gave, at their numbers and with their
/// steps and words.
fn end_of(
    alloc: Global,
    board: &Board,
    gate: GateEnd,
    served: Vec<Result<Served, Memory>>,
    book: Book<Recording>,
) -> Result<PairEnd, Memory>
    requires gate { IsGateOf board.now gate.seat }
    requires served { AreServed board.now served.items }
    requires harts { 0 < harts_of board.now }
    ensures stores { IfOk result (λ end. length end.stores.items ≡ keepers_of board.now) }
    ensures had { IfOk result (λ end. AreHad board.now gate.seat end.stores.items) }
    ensures released { IfOk result (λ end. end.released.items ≡ filter (is_among gate.released.items) (outputs_in book.machine)) }
    ensures kept { IfOk result (λ end. length end.released.items + end.kept ≡ length (outputs_in book.machine)) }
    ensures rest { IfOk result (λ end. (end.early ≡ gate.early) × (end.book ≡ book)) }
    ensures noted { IfOk result (λ end. AreNotesOut end.book end.released.items) }
{
    let GateEnd {
        released,
        early,
        seat,
    } = gate;
    let stores = stores_of(alloc, board, seat, served)?;
    let released = released_of(alloc, &book, &released)?;
    let kept = outputs_in_all(book.machine()) - released.len();
    Ok(PairEnd {
        released,
        early,
        kept,
        book,
        stores,
    })
}

/// Runs a primary of the image from boot, with what the script offers, until each hart is halted or at the budget, beside
/// keepers and a gate, each on a thread of its own. Where one is to be warm it is the first keeper.
pub(crate) fn run_kept<R: Threads + Wait + Sync>(
    rt: &R,
    alloc: Global,
    image: &Image,
    script: &[Offered],
    orders: &PairOrders,
    is_warm: bool,
) -> Result<PairEnd, Memory>
    requires { AreOffered image.now.harts script.now }
    ensures run { IfOk result (λ end. IsRunOf image.now script.now orders.now.budget end.book) }
    // Each keeper's store.
    ensures stores { IfOk result (λ end. length end.stores.items ≡ orders.now.quorum.keepers) }
    // As many keepers as are needed had each output inside a position, on the way to the stores that they are left with.
    ensures inside { IfOk result (λ end. AllByRecursion (IsHeldOnTheWay end.stores.items 1 orders.now.quorum.need) end.released.items) }
    // What went out is a part of what the primary's machine put out, in its order, and the rest is counted.
    ensures part { IfOk result (λ end. IsPartOf end.released.items (outputs_in end.book.machine)) }
    ensures kept { IfOk result (λ end. length end.released.items + end.kept ≡ length (outputs_in end.book.machine)) }
    ensures noted { IfOk result (λ end. AreNotesOut end.book end.released.items) }
{
    let primary = begin_primary(alloc, image, script, orders.budget())?;
    let quorum = orders.quorum();
    let (board, seats, seat) = Board::new(alloc, FIRST_TERM, image.harts(), quorum.keepers())?;
    let gate = Gate::new(alloc, FIRST_TERM, quorum.keepers(), quorum.need());
    let (to_gate, channel) = unbounded(alloc)?;
    let (to_offers, offers) = unbounded(alloc)?;
    let (to_primary, went) = unbounded(alloc)?;
    let (begins, begun) = unbounded(alloc)?;
    let tally = Arc::new(alloc, Tally::new(quorum.need()))?;
    let (posts, keepers) = man_posts(alloc, &board, image, is_warm, seats, &to_gate, &tally)?;
    let primary_post = PrimaryPost {
        primary,
        budget: orders.budget(),
        keepers,
        gate: to_gate,
        offers: to_offers,
        begins,
        went,
    };
    let watch = Watch {
        gate,
        seat,
        channel,
        offers,
        begun,
        primary: to_primary,
    };
    run_all(rt, alloc, &board, watch, posts, primary_post)
}

/// Runs a primary of the image from boot, with what the script offers, until each hart is halted or at the budget, beside
/// keepers and a gate, each on a thread of its own.
pub fn run_pair<R: Threads + Wait + Sync>(
    rt: &R,
    alloc: Global,
    image: &Image,
    script: &[Offered],
    orders: &PairOrders,
) -> Result<PairEnd, Memory>
    requires { AreOffered image.now.harts script.now }
    ensures run { IfOk result (λ end. IsRunOf image.now script.now orders.now.budget end.book) }
    // Each keeper's store.
    ensures stores { IfOk result (λ end. length end.stores.items ≡ orders.now.quorum.keepers) }
    // As many keepers as are needed had each output inside a position, on the way to the stores that they are left with.
    ensures inside { IfOk result (λ end. AllByRecursion (IsHeldOnTheWay end.stores.items 1 orders.now.quorum.need) end.released.items) }
    // What went out is a part of what the primary's machine put out, in its order, and the rest is counted.
    ensures part { IfOk result (λ end. IsPartOf end.released.items (outputs_in end.book.machine)) }
    ensures kept { IfOk result (λ end. length end.released.items + end.kept ≡ length (outputs_in end.book.machine)) }
    // What the book notes went out.
    ensures noted { IfOk result (λ end. AreNotesOut end.book end.released.items) }
{
    run_kept(rt, alloc, image, script, orders, false)
}

/// Runs, pairs and replays on the threads of a runtime.
#[derive(Drop)]
pub struct OnThreads<'a, R: Threads + Wait + Sync> {
    rt: &'a R,
}

impl<'a, R: Threads + Wait + Sync> OnThreads<'a, R> {
    /// The threads of this runtime.
    pub fn new(rt: &'a R) -> OnThreads<'a, R> {
        OnThreads { rt }
    }
}

impl<R: Threads + Wait + Sync> Replays for OnThreads<'_, R> {
    ghost use Rattle.std.specs.Thread.{IsSync};

    ghost may_run = { λ _. IsSync R.row };

    fn replay(&self, alloc: Global, image: &Image, plan: &Plan) -> Result<Machine, ReplayFault> {
        if is_apart(plan) {
            replay(self.rt, alloc, image, plan, &Free)
        } else {
            replay_plain(alloc, image, plan)
        }
    }
}

impl<R: Threads + Wait + Sync> Runs for OnThreads<'_, R> {
    ghost use Rattle.std.specs.Prelude.{⊤};

    ghost goes = { λ _ _ _. ⊤ };

    fn run_book(&self, alloc: Global, book: Book<Recording>) -> Result<Book<Recording>, Memory> {
        let limits = book.limits();
        match run(self.rt, alloc, book, limits, &Free) {
            Ok(book) => Ok(book),
            Err(PoolFault::Memory) => Err(Memory),
        }
    }
}

impl<R: Threads + Wait + Sync> Pairs for OnThreads<'_, R> {
    fn run_pair<W: Sink>(
        &self,
        alloc: Global,
        image: &Image,
        script: &[Offered],
        orders: &PairOrders,
        out: &mut W,
    ) -> Result<(), StreamsFault> {
        let end = run_pair(self.rt, alloc, image, script, orders)?;
        match write_pair(&end, out) {
            Ok(()) => Ok(()),
            Err(_) => Err(StreamsFault::Write),
        }
    }

    fn run_pair_warm<W: Sink>(
        &self,
        alloc: Global,
        image: &Image,
        script: &[Offered],
        orders: &PairOrders,
        out: &mut W,
    ) -> Result<(), WarmFault> {
        match run_pair_warm(self.rt, alloc, image, script, orders) {
            Ok(end) => match write_warm(&end, out) {
                Ok(()) => Ok(()),
                Err(_) => Err(WarmFault::Write),
            },
            Err(LiveFault::Memory) => Err(WarmFault::Memory),
            Err(fault) => Err(WarmFault::Live(fault.number())),
        }
    }
}
