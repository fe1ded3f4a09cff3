//! A thread for each input: it opens the path, reads lines to its end, and opens it again where it is a FIFO. Where such a thread does not come back from
//! what it brought, a spare one goes on in its place.

use crate::attempts::Attempts;
use crate::events::{Door, Event, Gone, Reads, Taker, bring_as, row};
use crate::faults::{Fault, NamedFile, Why};
use crate::files::is_fifo;
use crate::host::Host;
use crossbeam_channel::{Receiver, Sender, bounded};
use ft_types::Memory;
use std::alloc::Global;
use std::fs::File;
use std::io::Read;
use std::sync::{Arc, Mutex, Wait};
use std::time::Duration;
use std::{io, thread};
use wire::{LineFeed, LineText};

/// How many bytes are read at once.
const PIECE: usize = 4096;

/// How many milliseconds go by before lines are brought again that could not be taken.
const PAUSE: u64 = 5;

/// Where an input is read, which one thread does at a time.
#[derive(Drop)]
struct Source {
    /// None between connections.
    file: Option<File>,
    /// The file of the connection before, which stays open until the next one is: so whoever writes there meanwhile meets a reader.
    before: Option<File>,
    feed: LineFeed,
    attempts: Attempts,
    comes_again: bool,
}

/// Why nothing comes any more.
#[derive(Clone, Copy)]
enum Stop {
    /// The input is at its end, for good.
    Ended,
    Failed(Fault),
}

/// An input.
#[derive(Drop)]
struct Input {
    number: usize,
    path: String,
    source: Mutex<Source>,
}

/// Inputs, who reads their lines, and where their threads are relieved.
#[derive(Drop)]
struct Hall<S: Drop, K: Drop, T: Drop> {
    inputs: Vec<Input>,
    reader: K,
    to: Door<Event<S>, T>,
    mode: Listening,
    calls: Receiver<usize, Global>,
}

/// How inputs are listened on.
#[derive(Clone, Copy, PartialEq, Eq)]
pub enum Listening {
    /// Whoever takes what comes makes no thread wait.
    Plain,
    /// It may make one wait: there is a spare one.
    Relieved,
    /// There is a spare one, and a file, which nobody writes again, is read no faster than its lines are taken.
    Paced,
}

/// By it a spare thread is called to an input.
#[derive(Drop)]
pub struct Relief {
    first: usize,
    calls: Sender<usize, Global>,
}

impl Relief {
    /// Calls a spare thread to the input with this number, whose own one does not come back.
    pub fn call<R: Wait>(&self, rt: &R, number: usize) {
        let _left = self.calls.try_send(rt, number.saturating_sub(self.first));
    }
}

impl Source {
    fn new() -> Source {
        Source {
            file: None,
            before: None,
            feed: LineFeed::new(),
            attempts: Attempts::new(),
            comes_again: false,
        }
    }

    /// Begins a connection. A line of which only a beginning came went with the one before.
    fn begin(&mut self, file: File) {
        self.comes_again = is_fifo(&file);
        self.attempts.open(self.comes_again);
        self.feed = LineFeed::new();
        self.file = Some(file);
        self.before = None;
    }

    /// Ends a connection.
    fn end(&mut self, alloc: Global) -> Result<Vec<LineText>, Stop> {
        self.attempts.go_well();
        self.before = self.file.take();
        if self.comes_again {
            Ok(Vec::new(alloc))
        } else {
            Err(Stop::Ended)
        }
    }

    /// Opens the path.
    fn open<H: Host>(&mut self, rt: &H, input: &Input) -> Result<Vec<LineText>, Stop> {
        match rt.open(input.path.as_str()) {
            Ok(file) => {
                self.begin(file);
                Ok(Vec::new(rt.alloc()))
            }
            Err(error) => self.fail(rt, input, &error),
        }
    }

    /// Opens the path, or reads a piece: the lines that ended in it.
    fn read<H: Host>(
        &mut self,
        rt: &H,
        input: &Input,
        piece: &mut [u8],
    ) -> Result<Vec<LineText>, Stop> {
        let Some(file) = &mut self.file else {
            return self.open(rt, input);
        };
        match file.read(piece) {
            Ok(0) => self.end(rt.alloc()),
            Ok(count) => self.take(rt.alloc(), &piece[..count]),
            Err(error) => self.fail(rt, input, &error),
        }
    }

    /// Takes a piece.
    fn take(&mut self, alloc: Global, piece: &[u8]) -> Result<Vec<LineText>, Stop> {
        self.attempts.go_well();
        match self.feed.push(alloc, piece) {
            Ok(lines) => Ok(lines),
            Err(Memory) => Err(Stop::Failed(Fault::Memory)),
        }
    }

    /// Hears that the path can't be opened, or read.
    fn fail<H: Host>(
        &mut self,
        rt: &H,
        input: &Input,
        error: &io::Error,
    ) -> Result<Vec<LineText>, Stop> {
        let fault = Fault::File(NamedFile::Input(input.number), Why::of(error));
        self.file = None;
        self.before = None;
        if self.attempts.fail(rt, &fault, input.path.as_str()) {
            return Err(Stop::Failed(fault));
        }
        Ok(Vec::new(rt.alloc()))
    }
}

impl<S: Drop, K: Reads<S>, T: Drop> Hall<S, K, T> {
    /// The input whose thread may be made to wait.
    fn by(&self, input: &Input) -> Option<usize> {
        match self.mode {
            Listening::Plain => None,
            Listening::Relieved | Listening::Paced => Some(input.number),
        }
    }

    /// What lines of an input say.
    fn read_all(&self, alloc: Global, input: &Input, lines: Vec<LineText>) -> Result<Vec<S>, Stop> {
        let mut said = Vec::new(alloc);
        for line in lines {
            if let Some(one) = self.reader.read(input.number, line)
                && said.push(one).is_err()
            {
                return Err(Stop::Failed(Fault::Memory));
            }
        }
        Ok(said)
    }

    /// Opens the path of an input, or reads a piece: what the lines say that ended in it, and whether the input comes again. None where another thread does so.
    fn read<H: Host>(
        &self,
        rt: &H,
        input: &Input,
        piece: &mut [u8],
    ) -> Option<Result<(Vec<S>, bool), Stop>> {
        let mut source = input.source.try_lock()?;
        let said = match source.read(rt, input, piece) {
            Ok(lines) => self.read_all(rt.alloc(), input, lines),
            Err(stop) => Err(stop),
        };
        match said {
            Ok(said) => Some(Ok((said, source.comes_again))),
            Err(stop) => Some(Err(stop)),
        }
    }

    /// Has taken what lines say, and waits where some can't be taken yet: what they say is brought again.
    fn bring_paced<H: Host>(&self, rt: &H, input: &Input, said: Vec<S>) -> Result<(), Gone>
    where
        T: Taker<H>,
    {
        let mut said = said;
        for _ in rt.forever() {
            let Ok((to, back)) = row(rt.alloc(), 1) else {
                return Err(self.stop(rt, Stop::Failed(Fault::Memory)));
            };
            let event = Event::Paced(input.number, said, to);
            bring_as(rt, &self.to, event, self.by(input))?;
            match back.recv(rt) {
                Ok(rest) if rest.is_empty() => return Ok(()),
                Ok(rest) => said = rest,
                Err(_) => return Err(Gone),
            }
            let _slept = thread::sleep(rt, Duration::from_millis(PAUSE));
        }
        Err(Gone)
    }

    /// Has taken what lines say.
    fn bring<H: Host>(
        &self,
        rt: &H,
        input: &Input,
        said: Vec<S>,
        comes_again: bool,
    ) -> Result<(), Gone>
    where
        T: Taker<H>,
    {
        if said.is_empty() {
            return Ok(());
        }
        if !comes_again && self.mode == Listening::Paced {
            return self.bring_paced(rt, input, said);
        }
        bring_as(
            rt,
            &self.to,
            Event::Lines(input.number, said),
            self.by(input),
        )
    }

    /// Tells why nothing comes any more.
    fn stop<H: Host>(&self, rt: &H, stop: Stop) -> Gone
    where
        T: Taker<H>,
    {
        let event = match stop {
            Stop::Ended => Event::Ended,
            Stop::Failed(fault) => Event::Failed(fault),
        };
        let _told = bring_as(rt, &self.to, event, None);
        Gone
    }

    /// Listens on an input, until another thread does so.
    fn listen<H: Host>(&self, rt: &H, input: &Input) -> Result<(), Gone>
    where
        T: Taker<H>,
    {
        let mut piece = [0; PIECE];
        for _ in rt.forever() {
            match self.read(rt, input, &mut piece) {
                Some(Ok((said, comes_again))) => self.bring(rt, input, said, comes_again)?,
                Some(Err(stop)) => return Err(self.stop(rt, stop)),
                None => return Ok(()),
            }
        }
        Err(Gone)
    }

    /// Listens on the input at a place, where there is one, and then on those to which it is called.
    fn serve<H: Host>(&self, rt: &H, place: Option<usize>) -> Result<(), Gone>
    where
        T: Taker<H>,
    {
        let mut place = place;
        for _ in rt.forever() {
            if let Some(number) = place
                && let Some(input) = self.inputs.get(number)
            {
                self.listen(rt, input)?;
            }
            match self.calls.recv(rt) {
                Ok(number) => place = Some(number),
                Err(_) => return Err(Gone),
            }
        }
        Err(Gone)
    }
}

fn inputs_of(alloc: Global, first: usize, paths: &[&str]) -> Result<Vec<Input>, Memory> {
    let mut inputs = Vec::new(alloc);
    for (place, path) in paths.iter().enumerate() {
        inputs.push(Input {
            number: first.saturating_add(place),
            path: String::from_str(alloc, path)?,
            source: Mutex::new(Source::new()),
        })?;
    }
    Ok(inputs)
}

/// Starts a thread.
fn start<H: Host, S: Drop + Send + 'static, K: Reads<S>, T: Taker<H>>(
    rt: &H,
    hall: &Arc<Hall<S, K, T>, Global>,
    place: Option<usize>,
) -> Result<(), Memory> {
    let own = *rt;
    let hall = Arc::try_clone(hall)?;
    match thread::spawn(rt, move || {
        let _ended = hall.serve(&own, place);
    }) {
        Ok(_thread) => Ok(()),
        Err(_) => Err(Memory),
    }
}

/// Starts threads that listen on inputs, whose numbers begin with this one, and read their lines.
pub fn listen_all<H: Host, S: Drop + Send + 'static, K: Reads<S>, T: Taker<H>>(
    rt: &H,
    first: usize,
    paths: &[&str],
    mode: Listening,
    reader: K,
    to: &Door<Event<S>, T>,
) -> Result<Relief, Memory> {
    let (calls, called) = bounded(rt.alloc(), 1)?;
    let hall = Arc::new(
        rt.alloc(),
        Hall {
            inputs: inputs_of(rt.alloc(), first, paths)?,
            reader,
            to: to.copy()?,
            mode,
            calls: called,
        },
    )?;
    for place in 0..paths.len() {
        start(rt, &hall, Some(place))?;
    }
    if mode != Listening::Plain {
        start(rt, &hall, None)?;
    }
    Ok(Relief { first, calls })
}
