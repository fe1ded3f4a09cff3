//! Where a keeper's threads meet: whoever brings frames has the log take them itself, where no other thread does so, and none has to be woken for it.

use crate::events::Event;
use crate::keeping::{KeeperHost, Kept, ROOM};
use crate::posting::Post;
use crossbeam_channel::{Receiver as EndReceiver, Sender as EndSender, bounded};
use ends::{Fault, Receiver, Taker};
use ft_types::Memory;
use std::alloc::Global;
use std::option::Option;
use std::sync::{Mutex, Wait};

/// What decides, which one thread has at a time, and why nothing does any more.
#[derive(Drop)]
struct Seat {
    kept: Option<Kept>,
    fault: Option<Fault>,
}

/// Where threads meet.
#[derive(Drop)]
pub(crate) struct Desk {
    seat: Mutex<Seat>,
    events: Receiver<Event>,
    outputs: Vec<Post>,
    /// By it the thread is woken that waits for the end.
    end: EndSender<(), Global>,
    ends: EndReceiver<(), Global>,
}

/// The events that are there, in their order.
fn all_of<H: KeeperHost>(rt: &H, events: &Receiver<Event>) -> Result<Vec<Event>, Memory> {
    let many = events.len().min(ROOM);
    let mut came = Vec::with_capacity(rt.alloc(), many)?;
    for _more in 0..many {
        let Ok(event) = events.try_recv(rt) else {
            break;
        };
        came.push(event)?;
    }
    Ok(came)
}

/// Takes the events that are there.
fn serve_all<H: KeeperHost>(
    rt: &H,
    kept: Kept,
    events: &Receiver<Event>,
    outputs: &[Post],
) -> Result<Kept, Fault> {
    let came = all_of(rt, events)?;
    kept.serve(rt, came, outputs)
}

impl Seat {
    /// Takes the events that are there. Whether the end has come.
    fn serve<H: KeeperHost>(&mut self, rt: &H, events: &Receiver<Event>, outputs: &[Post]) -> bool {
        let Some(kept) = self.kept.take() else {
            return false;
        };
        match serve_all(rt, kept, events, outputs) {
            Ok(kept) => {
                let is_over = kept.is_over();
                self.kept = Some(kept);
                is_over
            }
            Err(fault) => {
                self.fault = Some(fault);
                true
            }
        }
    }

    /// Takes what decides, once the end has come.
    fn end(&mut self) -> Result<Option<Kept>, Fault> {
        if let Some(fault) = self.fault.take() {
            return Err(fault);
        }
        match self.kept.take() {
            Some(kept) if kept.is_over() => Ok(Some(kept)),
            kept => {
                self.kept = kept;
                Ok(None)
            }
        }
    }
}

impl<H: KeeperHost> Taker<H> for Desk {
    /// Takes the events that are there. Where another thread does so, that one looks for events behind it.
    fn serve(&self, rt: &H, _by: Option<usize>) {
        for _ in rt.forever() {
            if !self.take(rt) {
                return;
            }
            // Whoever reads the only output may make this thread wait: what others left meanwhile is taken by the one that waits for the end.
            if !self.events.is_empty() {
                let _told = self.end.try_send(rt, ());
            }
            for output in &self.outputs {
                output.write(rt);
            }
            if self.events.is_empty() {
                return;
            }
        }
    }
}

impl Desk {
    /// A desk at which nothing is decided yet.
    pub(crate) fn new(
        alloc: Global,
        events: Receiver<Event>,
        outputs: Vec<Post>,
    ) -> Result<Desk, Memory> {
        let (end, ends) = bounded(alloc, 1)?;
        let seat = Seat {
            kept: None,
            fault: None,
        };
        Ok(Desk {
            seat: Mutex::new(seat),
            events,
            outputs,
            end,
            ends,
        })
    }

    /// Takes the events that are there, where no other thread does so. Whether there is anything to be written, and more may come.
    fn take<H: KeeperHost>(&self, rt: &H) -> bool {
        let Some(mut seat) = self.seat.try_lock() else {
            return false;
        };
        let is_over = seat.serve(rt, &self.events, &self.outputs);
        let is_left = seat.kept.is_none();
        drop(seat);
        if is_over {
            let _told = self.end.try_send(rt, ());
        }
        !is_left
    }

    /// Hears that one more input is at fault, or one less.
    pub(crate) fn hear<R: Wait>(&self, rt: &R, is_deaf: bool) {
        for output in &self.outputs {
            output.hear(rt, is_deaf);
        }
    }

    /// The outputs, in their order.
    pub(crate) fn outputs(&self) -> &[Post] {
        &self.outputs
    }

    /// Has it decided on what comes, up to the end: all inputs are at theirs, or the keeper can't go on.
    pub(crate) fn keep<H: KeeperHost>(&self, rt: &H, kept: Kept) -> Result<Kept, Fault> {
        let mut seat = self.seat.lock(rt);
        seat.kept = Some(kept);
        drop(seat);
        for _ in rt.forever() {
            if self.take(rt) {
                for output in &self.outputs {
                    output.call();
                }
            }
            let mut seat = self.seat.lock(rt);
            let end = seat.end()?;
            drop(seat);
            if let Some(kept) = end {
                return Ok(kept);
            }
            if self.events.is_empty() {
                let _told = self.ends.recv(rt);
            }
        }
        Err(Fault::Memory)
    }
}
