//! What the threads of inputs and outputs tell the one that decides.

use crate::faults::Fault;
use crate::host::Host;
use crossbeam_channel::TrySendError;
use ft_types::Memory;
use std::alloc::{AllocError, Global};
use std::sync::{Arc, Wait};
use wire::LineText;

/// What came of an input or an output.
#[derive(Drop)]
pub enum Event<S: Drop> {
    /// The input with this number brought lines, of which these say something: all that ended in a piece.
    Lines(usize, Vec<S>),
    /// The same of an input that is read no faster than its lines are taken, and where goes back what can't be taken yet.
    Paced(usize, Vec<S>, Sender<Vec<S>>),
    /// An input is at its end, for good.
    Ended,
    /// The process can't go on.
    Failed(Fault),
}

/// Where threads leave events.
pub type Sender<E> = crossbeam_channel::Sender<E, Global>;

/// Where the thread that decides takes them.
pub type Receiver<E> = crossbeam_channel::Receiver<E, Global>;

/// Both ends of a row of events, of which so many wait at the most. Whoever has one more waits for room.
pub fn row<E: Drop>(alloc: Global, room: usize) -> Result<(Sender<E>, Receiver<E>), AllocError> {
    crossbeam_channel::bounded(alloc, room)
}

/// Reads lines, each once, on the thread of the input that brought it: whoever takes the events only hears what they say.
pub trait Reads<S: Drop>: Send + Sync + Drop + 'static {
    /// What a line of the input with this number says, if anything. It stands here without its line feed.
    fn read(&self, input: usize, line: LineText) -> Option<S>;
}

/// Who takes the events. A thread that has left some asks it to serve, so that what they ask for can be done by that thread, and none has to be woken for it.
pub trait Taker<R: AllocGlobal + Wait>: Send + Sync + Drop + 'static {
    /// Takes the events that are there, or leaves them to a thread that looks for them behind this call. The thread of the input with the number `by` may be
    /// made to wait in it, since a spare one can go on in its place; any other one may not.
    fn serve(&self, rt: &R, by: Option<usize>);
}

/// A thread of its own takes them, as they come.
#[derive(Drop)]
pub struct Waiting;

impl<R: AllocGlobal + Wait> Taker<R> for Waiting {
    fn serve(&self, _rt: &R, _by: Option<usize>) {}
}

/// Where the thread of an input or an output leaves events.
#[derive(Drop)]
pub struct Door<E: Drop, T: Drop> {
    to: Sender<E>,
    taker: Arc<T, Global>,
}

/// Whoever takes the events is gone.
#[derive(Clone, Copy)]
pub struct Gone;

/// Leaves an event once there is room.
fn send<R: Wait, E: Drop>(rt: &R, to: &Sender<E>, event: E) -> Result<(), Gone> {
    match to.send(rt, event) {
        Ok(()) => Ok(()),
        Err(_) => Err(Gone),
    }
}

impl<E: Drop, T: Drop> Door<E, T> {
    /// A door to who takes the events.
    pub fn new(to: Sender<E>, taker: Arc<T, Global>) -> Door<E, T> {
        Door { to, taker }
    }

    /// Another one to the same.
    pub fn copy(&self) -> Result<Door<E, T>, Memory> {
        Ok(Door {
            to: self.to.clone()?,
            taker: Arc::try_clone(&self.taker)?,
        })
    }
}

/// Leaves an event. Where there is no room, those that are there are taken first, so that not all threads wait for one that takes them.
fn leave<H: Host, E: Drop, T: Taker<H>>(rt: &H, door: &Door<E, T>, event: E) -> Result<(), Gone> {
    match door.to.try_send(rt, event) {
        Ok(()) => Ok(()),
        Err(TrySendError::Full(event)) | Err(TrySendError::OutOfMemory(event)) => {
            door.taker.serve(rt, None);
            send(rt, &door.to, event)
        }
        Err(TrySendError::Disconnected(_)) => Err(Gone),
    }
}

/// Leaves an event, and has it taken.
pub fn bring<H: Host, E: Drop, T: Taker<H>>(
    rt: &H,
    door: &Door<E, T>,
    event: E,
) -> Result<(), Gone> {
    bring_as(rt, door, event, None)
}

/// Leaves an event, and has it taken, on the thread of the input with the number `by`, which spare threads relieve.
pub(crate) fn bring_as<H: Host, E: Drop, T: Taker<H>>(
    rt: &H,
    door: &Door<E, T>,
    event: E,
    by: Option<usize>,
) -> Result<(), Gone> {
    leave(rt, door, event)?;
    door.taker.serve(rt, by);
    Ok(())
}
