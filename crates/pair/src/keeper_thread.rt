//! A keeper's thread.

ghost use Rattle.std.specs.Prelude.{◌≡◌, ◌↔◌, ◌++◌, None, IfNone, IfOk, IfSome, IsTrue, OnOk};
ghost use Rattle.ack_core.specs.Seats.{keeper_of};
ghost use Rattle.pair.specs.Posts.{IsPostOf};
ghost use Rattle.pair.specs.Serving.{IsServed};

use crate::adding::add_all;
use crate::holding::Held;
use crate::keeping::keep;
use crate::messages::{ToGate, ToKeeper, send};
use crate::posts::Post;
use crate::tally::Tally;
use ack_core::{Board, KeeperSeat};
use crossbeam_channel::{Receiver, Sender};
use fragment_codec::Frame;
use ft_types::Memory;
use std::alloc::Global;
use std::result::Result;
use std::sync::Wait;

/// What a keeper's thread gives: the keeper's seat, which publishes no more, and what the keeper holds, with its position.
pub(crate) type Served = (KeeperSeat, Held);

/// What a keeper heard.
#[derive(Clone, Copy)]
struct Heard {
    /// How many messages with frames it took.
    messages: u64,
    /// Whether the last message came.
    ended: bool,
}

/// What the message brings goes behind the frames that came before it. Whether it is the last one.
fn add_from(message: ToKeeper, frames: &mut Vec<Frame>) -> Result<bool, Memory>
    ensures some { OnOk result (IfSome message (λ more. frames.new.items ≡ frames.old.items ++ more.items)) }
    ensures none { IfNone message (frames.new ≡ frames.old) }
    ensures last { IfOk result (λ is_last. IsTrue is_last ↔ (message ≡ None)) }
{
    match message {
        Some(more) => {
            add_all(frames, more)?;
            Ok(false)
        }
        None => Ok(true),
    }
}

/// Waits for a message to a keeper, and takes with it what is there by then.
fn hear<R: Wait>(
    rt: &R,
    channel: &Receiver<ToKeeper, Global>,
    frames: &mut Vec<Frame>,
) -> Result<Heard, Memory> {
    let mut heard = Heard {
        messages: 1,
        ended: false,
    };
    let Ok(first) = channel.recv(rt) else {
        return Err(Memory);
    };
    heard.ended = add_from(first, frames)?;
    for _more in 0..channel.len() {
        let Ok(message) = channel.try_recv(rt) else {
            break;
        };
        if add_from(message, frames)? {
            heard.ended = true;
        }
        heard.messages = heard.messages.wrapping_add(1);
    }
    Ok(heard)
}

/// Tells the gate that the keeper at this place, which has taken so many messages, has published, where that makes as many keepers as it needs.
fn tell_gate<R: Wait>(
    rt: &R,
    gate: &Sender<ToGate, Global>,
    tally: &Tally,
    place: usize,
    taken: u64,
) -> Result<(), Memory> {
    if tally.has_moved(place, taken) {
        send(rt, gate, ToGate::Published)?;
    }
    Ok(())
}

/// A keeper's thread, which publishes its position each time it took what came, tells the gate where it is the one that makes enough, and ends at the
/// primary's last message. Where it is warm, its machine keeps up whenever nothing more waits for it. Where it finds no memory, or none comes any more, it gives up. Each count that it published is one that its store had.
pub(crate) fn serve<R: Wait>(
    rt: &R,
    alloc: Global,
    board: &Board,
    post: Post,
) -> Result<Served, Memory>
    requires { IsPostOf board.now post }
    ensures { IfOk result (λ s. IsServed board.now (keeper_of post.seat) s) }
{
    let Post {
        mut seat,
        mut store,
        frames: channel,
        gate,
        place,
        tally,
    } = post;
    let mut taken = 0u64;
    for _ in rt.forever() {
        let mut fresh = Vec::new(alloc);
        let Heard { messages, ended } = hear(rt, &channel, &mut fresh)?;
        keep(alloc, board, &mut seat, &mut store, fresh)?;
        if ended {
            // The gate waits until no keeper tells it more, and so not for the last steps of one that is warm.
            drop(gate);
            store.keep_up(alloc, 0)?;
            return Ok((seat, store));
        }
        taken = taken.wrapping_add(messages);
        tell_gate(rt, &gate, &tally, place, taken)?;
        store.keep_up(alloc, channel.len())?;
    }
    unreachable!()
}
