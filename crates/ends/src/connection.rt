//! The connection of an output: what is written to it, and with what the next one begins.

ghost use Rattle.std.specs.Prelude.{◌≡◌, ◌<◌, ◌↔◌, true};

use crate::faults::Why;
use crossbeam_channel::{SendError, Sender, TrySendError};
use ft_types::Memory;
use std::alloc::Global;
use std::fs::File;
use std::io;
use std::io::Write;
use std::sync::{Arc, Mutex, Wait};

/// Bytes that are written to some outputs.
pub(crate) type Piece = Arc<Vec<u8>, Global>;

/// With what of the pieces before a new connection begins.
#[derive(Clone, Copy)]
pub enum Keeps {
    /// With all: whoever reads gets each piece in one connection. Pieces wait for a reader that is slow.
    All,
    /// With the last one. A piece for which there is no room is left out, so that nobody waits for a reader that is slow.
    Last,
}

impl Keeps {
    /// Leaves an order for whoever takes orders. Whether it was left.
    pub(crate) fn send<R: Wait>(
        self,
        rt: &R,
        to: &Sender<Order, Global>,
        order: Order,
    ) -> Result<bool, Memory> {
        match self {
            Keeps::All => match to.send(rt, order) {
                Ok(()) => Ok(true),
                Err(SendError::OutOfMemory(_)) => Err(Memory),
                Err(SendError::Disconnected(_)) => Ok(false),
            },
            Keeps::Last => match to.try_send(rt, order) {
                Ok(()) => Ok(true),
                Err(TrySendError::OutOfMemory(_)) => Err(Memory),
                Err(TrySendError::Full(_) | TrySendError::Disconnected(_)) => Ok(false),
            },
        }
    }
}

/// What an output is to do.
#[derive(Drop)]
pub(crate) enum Order {
    Write(Piece),
    /// The connection is at its end.
    End(End),
}

/// How a connection ended.
#[derive(Clone, Copy)]
pub(crate) enum End {
    /// Nobody reads any more.
    Left,
    /// It is to begin anew.
    Anew,
    /// All is written.
    Done,
    /// Writing failed.
    Failed(Why),
    /// A growth was refused.
    Memory,
}

/// The connection of an output, which its thread shares with the one that decides.
#[derive(Drop)]
pub(crate) struct Connection {
    keeps: Keeps,
    /// None between connections.
    pub(crate) file: Option<File>,
    /// The pieces with which a new one begins.
    kept: Vec<Piece>,
    /// Bytes of pieces that are written before all others, once whoever left them has let go of what others wait for.
    next: Vec<u8>,
    /// How many pieces were taken, these among them.
    pub(crate) done: u64,
    /// How many of them were before this connection.
    pub(crate) before: u64,
}

fn write(file: &mut File, bytes: &[u8]) -> Result<(), End> {
    match file.write_all(bytes) {
        Ok(()) => Ok(()),
        Err(error) if error.kind() == io::ErrorKind::BrokenPipe => Err(End::Left),
        Err(error) => Err(End::Failed(Why::of(&error))),
    }
}

impl Connection {
    /// One that begins with what it keeps, and was not begun yet.
    pub(crate) fn new(alloc: Global, keeps: Keeps) -> Connection {
        Connection {
            keeps,
            file: None,
            kept: Vec::new(alloc),
            next: Vec::new(alloc),
            done: 0,
            before: 0,
        }
    }

    /// Keeps a piece for the connections to come.
    fn keep(&mut self, piece: &Piece) -> Result<(), End> {
        let Ok(same) = Arc::try_clone(piece) else {
            return Err(End::Memory);
        };
        if let Keeps::Last = self.keeps {
            self.kept.clear();
        }
        match self.kept.push(same) {
            Ok(()) => Ok(()),
            Err(_) => Err(End::Memory),
        }
    }

    /// Keeps a piece, and writes it.
    fn take(&mut self, piece: &Piece) -> Result<(), End> {
        self.keep(piece)?;
        match &mut self.file {
            Some(file) => write(file, piece),
            None => Err(End::Left),
        }
    }

    /// Puts a piece before all others, behind those that stand there.
    pub(crate) fn put_next(&mut self, piece: &Piece) -> Result<(), Memory> {
        self.next.extend_from_slice(piece)?;
        self.done = self.done.wrapping_add(1);
        match self.keep(piece) {
            Ok(()) => Ok(()),
            Err(_) => Err(Memory),
        }
    }

    /// Begins with what is kept.
    pub(crate) fn begin(&mut self, file: File) -> Result<(), End> {
        let mut file = file;
        self.next.clear();
        self.before = self.done;
        for piece in &self.kept {
            write(&mut file, piece)?;
        }
        self.file = Some(file);
        Ok(())
    }

    /// Writes what goes before all others.
    fn write_next(&mut self) -> Result<(), End> {
        if self.next.is_empty() {
            return Ok(());
        }
        let written = match &mut self.file {
            Some(file) => write(file, &self.next),
            None => Err(End::Left),
        };
        self.next.clear();
        written
    }

    /// Does what is ordered. What ends a connection, and was ordered before this one began, does not end this one.
    pub(crate) fn obey(&mut self, order: Order, is_old: bool) -> Result<(), End> {
        let before = self.write_next();
        let went = match order {
            Order::Write(piece) => {
                self.done = self.done.wrapping_add(1);
                self.take(&piece)
            }
            Order::End(_) if is_old => Ok(()),
            Order::End(end) => Err(end),
        };
        before?;
        went
    }
}

/// Whether a piece may be written without the output's thread: all `left` before it were taken, and of those that are known to be `read` one was left in this
/// connection.
pub(crate) fn is_next(done: u64, before: u64, left: u64, read: u64) -> bool
    ensures { result ≡ true ↔ ((done ≡ left) × (before < read)) }
{
    done == left && before < read
}

/// Writes what was left for later, on a thread that holds nothing others wait for: whoever reads may make it wait.
#[derive(Drop)]
pub struct Pen {
    to: Sender<Order, Global>,
    connection: Arc<Mutex<Connection>, Global>,
}

impl Pen {
    /// A pen of an output.
    pub(crate) fn new(
        to: &Sender<Order, Global>,
        connection: &Arc<Mutex<Connection>, Global>,
    ) -> Result<Pen, Memory> {
        Ok(Pen {
            to: to.clone()?,
            connection: Arc::try_clone(connection)?,
        })
    }

    /// Writes it, where no other thread does so.
    pub fn write<R: Wait>(&self, rt: &R) {
        let Some(mut connection) = self.connection.try_lock() else {
            return;
        };
        let written = connection.write_next();
        drop(connection);
        if let Err(end) = written {
            let _left = self.to.try_send(rt, Order::End(end));
        }
    }

    /// Whether all is written, and no thread writes.
    pub fn is_done(&self) -> bool {
        match self.connection.try_lock() {
            Some(connection) => connection.next.is_empty(),
            None => false,
        }
    }
}
