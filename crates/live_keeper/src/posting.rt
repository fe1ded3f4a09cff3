//! A thread for each output: it opens the path and writes what was acknowledged last, and from time to time once more, or asks for all frames. Where nobody
//! reads any more it opens the path again.

use crate::events::Event;
use ends::{Attempts, Door, Fault, Host, NamedFile, Taker, Why, bring, is_fifo};
use ft_types::{Guest, Keeper, Memory};
use std::alloc::{AllocError, Global};
use std::fs::File;
use std::io::Write;
use std::sync::{Arc, Condvar, Mutex, Wait};
use std::thread::JoinHandle;
use std::time::{Clock, Duration};
use std::{io, thread};
use wire::{Acknowledgement, Line, acknowledgement_line, again_line};

/// Why a connection ended.
#[derive(Clone, Copy)]
enum End {
    /// Nobody reads any more.
    Left,
    /// Writing failed.
    Failed(Why),
    /// All is written, and nothing is left any more.
    Done,
}

/// How many milliseconds go by at the most before what was acknowledged last is written once more: a line that broke may have lost it.
const BEAT: u64 = 500;

/// How many milliseconds an input is at fault before all frames are asked for, the first time.
const FIRST_PAUSE: u64 = 100;

/// How many milliseconds go by before they are asked for again: twice as many each time, up to the second number, while the input stays at fault, or nothing
/// comes and nothing was acknowledged.
const PAUSE: u64 = 1000;

const LONGEST_PAUSE: u64 = 32_000;

/// What is to be written next: a later acknowledgement takes the place of an earlier one, so nobody waits for a reader that is slow.
#[derive(Drop)]
struct Next {
    acknowledgement: Option<Acknowledgement>,
    /// Whether something was acknowledged.
    has_acknowledged: bool,
    /// Whether what is written may be lost: into a file it is not.
    is_fifo: bool,
    /// Whether what was acknowledged last is to be written once more.
    repeats: bool,
    /// Whether all frames are to be asked for.
    asks: bool,
    /// How many inputs are at fault.
    deaf: usize,
    /// How many milliseconds go by before frames are asked for while an input is at fault.
    pause: u64,
    /// How many milliseconds went by since they were asked for, or came.
    waited: u64,
    is_last: bool,
    /// How the connection ended, where it was not its thread that met that.
    end: Option<End>,
}

/// What is written to, and the lines with which the next connection begins.
#[derive(Drop)]
struct Connection {
    /// None between connections.
    file: Option<File>,
    /// It asks for all frames.
    again: Line,
    /// What was acknowledged last; none before the first.
    last: Option<Line>,
}

/// Where whoever decides leaves what is to be written.
#[derive(Drop)]
struct Tray {
    guest: Guest,
    next: Mutex<Next>,
    filled: Condvar,
    connection: Mutex<Connection>,
}

fn write(file: &mut File, line: &Line) -> Result<(), End> {
    match file.write_all(line.as_slice()) {
        Ok(()) => Ok(()),
        Err(error) if error.kind() == io::ErrorKind::BrokenPipe => Err(End::Left),
        Err(error) => Err(End::Failed(Why::of(&error))),
    }
}

impl Next {
    /// Whether there is something to be written.
    fn is_filled(&self) -> bool {
        self.asks || self.repeats || self.acknowledgement.is_some()
    }

    /// What is acknowledged takes the place of what was.
    fn fill(&mut self, acknowledgement: Acknowledgement) {
        self.acknowledgement = Some(acknowledgement);
        if !self.has_acknowledged {
            self.has_acknowledged = true;
            self.pause = FIRST_PAUSE;
        }
    }

    /// Hears that frames came: they need not be asked for, unless an input is at fault.
    fn hear_frames(&mut self) {
        if self.deaf == 0 {
            self.waited = 0;
        }
    }

    /// Whether all frames are asked for from time to time.
    fn lacks(&self) -> bool {
        self.deaf > 0 || (self.is_fifo && !self.has_acknowledged)
    }

    /// How many milliseconds go by before all frames are asked for the next time.
    fn pause_now(&self) -> u64 {
        if self.deaf > 0 {
            self.pause
        } else {
            self.pause.max(PAUSE)
        }
    }

    /// How many milliseconds may go by before the next look.
    fn time(&self) -> u64 {
        if self.lacks() {
            self.pause_now().saturating_sub(self.waited).clamp(1, BEAT)
        } else {
            BEAT
        }
    }

    /// Looks behind so many milliseconds in which nothing was to be written.
    fn look(&mut self, time: u64) {
        self.repeats = self.is_fifo && self.has_acknowledged;
        if !self.lacks() {
            return;
        }
        self.waited = self.waited.saturating_add(time);
        if self.waited >= self.pause_now() {
            self.ask();
        }
    }

    /// Asks for all frames, and waits longer before it does so again.
    fn ask(&mut self) {
        self.asks = true;
        self.waited = 0;
        self.pause = self.pause.saturating_mul(2).clamp(PAUSE, LONGEST_PAUSE);
    }

    /// Hears that one more input is at fault.
    fn deafen(&mut self) {
        self.deaf = self.deaf.saturating_add(1);
        self.waited = 0;
    }

    /// Hears that one input less is at fault.
    fn mend(&mut self) {
        self.deaf = self.deaf.saturating_sub(1);
        if self.deaf == 0 {
            self.asks = false;
            self.pause = self.pause.min(PAUSE);
        }
    }
}

impl Connection {
    /// Asks for all frames, where a connection is open.
    fn write_again(&mut self) -> Result<(), End> {
        match &mut self.file {
            Some(file) => write(file, &self.again),
            None => Ok(()),
        }
    }

    /// Writes what was acknowledged last, where a connection is open.
    fn write_last(&mut self) -> Result<(), End> {
        match (&mut self.file, &self.last) {
            (Some(file), Some(last)) => write(file, last),
            _ => Ok(()),
        }
    }
}

impl Tray {
    fn new(guest: Guest, keeper: Keeper) -> Tray {
        Tray {
            guest,
            next: Mutex::new(Next {
                acknowledgement: None,
                has_acknowledged: false,
                is_fifo: false,
                repeats: false,
                asks: false,
                deaf: 0,
                pause: FIRST_PAUSE,
                waited: 0,
                is_last: false,
                end: None,
            }),
            filled: Condvar::new(),
            connection: Mutex::new(Connection {
                file: None,
                again: again_line(&guest, keeper),
                last: None,
            }),
        }
    }

    fn fill<R: Wait>(&self, rt: &R, acknowledgement: Acknowledgement) {
        self.next.lock(rt).fill(acknowledgement);
    }

    /// Hears that frames came, of which nothing was acknowledged.
    fn hear_frames<R: Wait>(&self, rt: &R) {
        self.next.lock(rt).hear_frames();
    }

    /// Hears that one more input is at fault, or one less.
    fn hear<R: Wait>(&self, rt: &R, is_deaf: bool) {
        let mut next = self.next.lock(rt);
        if is_deaf {
            next.deafen();
        } else {
            next.mend();
        }
        drop(next);
        self.filled.notify_one();
    }

    /// Takes what is to be written, if anything: whether all frames are asked for, and what is acknowledged anew.
    fn take<R: Wait>(&self, rt: &R) -> Option<(bool, Option<Acknowledgement>)> {
        let mut next = self.next.lock(rt);
        if !next.is_filled() {
            return None;
        }
        let taken = (next.asks, next.acknowledgement);
        next.asks = false;
        next.repeats = false;
        next.acknowledgement = None;
        Some(taken)
    }

    /// Waits until something is to be written, which is something from time to time, or for the end of the connection.
    fn wait<R: Wait + Clock>(&self, rt: &R) -> Result<(), End> {
        let mut next = self.next.lock(rt);
        for _ in rt.forever() {
            if let Some(end) = next.end {
                return Err(end);
            }
            if next.is_filled() {
                return Ok(());
            }
            if next.is_last {
                return Err(End::Done);
            }
            let millis = next.time();
            let (waited, time) = self
                .filled
                .wait_timeout(rt, next, Duration::from_millis(millis));
            next = waited;
            if time.timed_out() {
                next.look(millis);
            }
        }
        Ok(())
    }

    /// Writes what there is to be written.
    fn write_all<R: Wait>(&self, rt: &R, connection: &mut Connection) -> Result<(), End> {
        for _ in rt.forever() {
            let Some((asks, acknowledgement)) = self.take(rt) else {
                return Ok(());
            };
            if asks {
                connection.write_again()?;
            }
            if let Some(acknowledgement) = acknowledgement {
                connection.last = Some(acknowledgement_line(&self.guest, &acknowledgement));
            }
            connection.write_last()?;
        }
        Ok(())
    }

    /// Writes what there is to be written, on the thread that has left it, where no other thread writes. Its own thread hears how that ended, or
    /// is woken to write it; between connections it does so when the next one has begun.
    fn write_now<R: Wait>(&self, rt: &R) {
        let Some(mut connection) = self.connection.try_lock() else {
            self.filled.notify_one();
            return;
        };
        if connection.file.is_none() {
            return;
        }
        if let Err(end) = self.write_all(rt, &mut connection) {
            connection.file = None;
            self.next.lock(rt).end = Some(end);
            self.filled.notify_one();
        }
    }

    /// Begins a connection: the first one, and each while an input is at fault, by asking for all frames.
    fn begin<R: Wait>(&self, rt: &R, file: File, is_fifo: bool) -> Result<(), End> {
        let mut connection = self.connection.lock(rt);
        let mut next = self.next.lock(rt);
        next.end = None;
        next.is_fifo = is_fifo;
        let is_deaf = next.deaf > 0;
        drop(next);
        connection.file = Some(file);
        if is_deaf || connection.last.is_none() {
            connection.write_again()?;
        }
        connection.write_last()
    }

    /// One connection.
    fn serve<R: Wait + Clock>(
        &self,
        rt: &R,
        file: File,
        attempts: &mut Attempts,
    ) -> Result<(), End> {
        self.begin(rt, file, attempts.comes_again)?;
        for _ in rt.forever() {
            attempts.go_well();
            self.wait(rt)?;
            let mut connection = self.connection.lock(rt);
            self.write_all(rt, &mut connection)?;
        }
        Ok(())
    }
}

/// An output.
#[derive(Drop)]
struct Output<T: Drop> {
    number: usize,
    path: String,
    from: Arc<Tray, Global>,
    to: Door<Event, T>,
}

impl<T: Drop> Output<T> {
    /// Opens the path, and serves one connection.
    fn connect<H: Host>(&self, rt: &H, attempts: &mut Attempts) -> Result<(), End> {
        let file = match rt.open_to_add(self.path.as_str()) {
            Ok(file) => file,
            Err(error) => return Err(End::Failed(Why::of(&error))),
        };
        attempts.open(is_fifo(&file));
        let end = self.from.serve(rt, file, attempts);
        self.from.connection.lock(rt).file = None;
        end
    }
}

/// One connection behind the other. The first begins by asking for all frames once more.
fn run<H: Host, T: Taker<H>>(rt: &H, output: &Output<T>) {
    let mut attempts = Attempts::new();
    for _ in rt.forever() {
        match output.connect(rt, &mut attempts) {
            Ok(()) | Err(End::Done) => return,
            Err(End::Left) => {}
            Err(End::Failed(why)) => {
                let fault = Fault::File(NamedFile::Output(output.number), why);
                if attempts.fail(rt, &fault, output.path.as_str()) {
                    let _told = bring(rt, &output.to, Event::Failed(fault));
                    return;
                }
                if output.from.next.lock(rt).is_last {
                    return;
                }
            }
        }
    }
}

/// An output, for whoever decides.
#[derive(Drop)]
pub(crate) struct Post {
    to: Arc<Tray, Global>,
    /// Whether whoever leaves something writes it itself.
    is_direct: bool,
}

impl Post {
    /// An output to which nothing is written yet. Where it is the only one, whoever leaves something is to write it itself: if nobody reads that, nobody
    /// is acknowledged anything.
    pub(crate) fn new(
        alloc: Global,
        guest: Guest,
        keeper: Keeper,
        is_only: bool,
    ) -> Result<Post, AllocError> {
        Ok(Post {
            to: Arc::new(alloc, Tray::new(guest, keeper))?,
            is_direct: is_only,
        })
    }

    /// Leaves an acknowledgement, in place of one that is not written yet.
    pub(crate) fn leave<R: Wait>(&self, rt: &R, acknowledgement: Acknowledgement) {
        self.to.fill(rt, acknowledgement);
        if !self.is_direct {
            self.to.filled.notify_one();
        }
    }

    /// Writes what was left, where whoever leaves something is to do that.
    pub(crate) fn write<R: Wait>(&self, rt: &R) {
        if self.is_direct {
            self.to.write_now(rt);
        }
    }

    /// Has its thread write what was left, where whoever leaves something is to write it and may not be made to wait.
    pub(crate) fn call(&self) {
        if self.is_direct {
            self.to.filled.notify_one();
        }
    }

    /// Hears that one more input is at fault, or one less: while one is, all frames are asked for from time to time.
    pub(crate) fn hear<R: Wait>(&self, rt: &R, is_deaf: bool) {
        self.to.hear(rt, is_deaf);
    }

    /// Hears that frames came, of which nothing was acknowledged.
    pub(crate) fn hear_frames<R: Wait>(&self, rt: &R) {
        self.to.hear_frames(rt);
    }

    /// Nothing is left any more: its thread ends once all is written.
    pub(crate) fn end<R: Wait>(&self, rt: &R) {
        self.to.next.lock(rt).is_last = true;
        self.to.filled.notify_one();
    }
}

/// Outputs with no threads yet.
pub(crate) fn posts(
    alloc: Global,
    guest: Guest,
    keeper: Keeper,
    count: usize,
) -> Result<Vec<Post>, Memory> {
    let mut posts = Vec::new(alloc);
    for _ in 0..count {
        posts.push(Post::new(alloc, guest, keeper, count == 1)?)?;
    }
    Ok(posts)
}

/// Starts the thread that writes to the output with this number.
fn begin_post<H: Host, T: Taker<H>>(
    rt: &H,
    post: &Post,
    number: usize,
    path: &str,
    to: &Door<Event, T>,
) -> Result<JoinHandle<()>, Memory> {
    let own = *rt;
    let output = Output {
        number,
        path: String::from_str(rt.alloc(), path)?,
        from: Arc::try_clone(&post.to)?,
        to: to.copy()?,
    };
    match thread::spawn(rt, move || run(&own, &output)) {
        Ok(thread) => Ok(thread),
        Err(_) => Err(Memory),
    }
}

/// Starts threads that write to all outputs, in their order.
pub(crate) fn begin_posts<H: Host, T: Taker<H>>(
    rt: &H,
    posts: &[Post],
    paths: &[&str],
    to: &Door<Event, T>,
) -> Result<Vec<JoinHandle<()>>, Memory> {
    let mut threads = Vec::new(rt.alloc());
    for (number, (post, path)) in posts.iter().zip(paths).enumerate() {
        threads.push(begin_post(rt, post, number, path, to)?)?;
    }
    Ok(threads)
}
