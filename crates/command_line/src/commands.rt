//! The commands of the program.

ghost use Rattle.std.specs.Prelude.{◌≡◌, codes, length, IfOk};
ghost use Rattle.std.specs.Io.KnownBytes.{Appends};
ghost use Rattle.ft_types.specs.Text.{line};
ghost use Rattle.scripts.specs.Script.{AreOffered};
ghost use Rattle.command_line.specs.Faults.{words_line};
ghost use Rattle.command_line.specs.Writing.{Ends, WritesSome};

use crate::audits::audit_streams;
use crate::debugger::debug_streams;
use crate::failing_over::fail_over;
use crate::faults::{CommandFault, named_in, status_of, write_fault, write_words_fault, written};
use crate::files::Files;
use crate::graphs::graph_streams;
use crate::looking_back::replay_streams_at;
use crate::tracing::trace_streams;
use crate::words::{NamedFile, Place, Request, Task, asked_text, read_words};
use ft_types::{Count, Sink, Source, write_all};
use guest_image::{Image, read_image};
use log_join::Store;
use log_streams::{
    Budget, PairOrders, Pairs, Quorum, Replays, Runs, StreamsFault, cut_streams, frames_of,
    list_store, read_store, replay_streams, run_primary, write_frames, write_list, write_size,
};
use page_book::{Book, Recording};
use scripts::{Offered, read_events, read_script};
use std::alloc::Global;
use word_forms::WordsFault;

/// How many bytes of a file are read at once.
const PIECE: usize = 4096;

/// Why a file was not read.
#[derive(Clone, Copy)]
enum FileFault {
    Failed,
    Memory,
}

/// Reads to the end.
fn read_whole<R: Source>(alloc: Global, reader: &mut R) -> Result<Vec<u8>, FileFault> {
    let mut bytes = Vec::new(alloc);
    let mut piece = [0; PIECE];
    for _read in 0..u64::MAX {
        let Ok(count) = reader.read(&mut piece) else {
            return Err(FileFault::Failed);
        };
        if count == 0 {
            break;
        }
        if bytes.extend_from_slice(&piece[..count]).is_err() {
            return Err(FileFault::Memory);
        }
    }
    Ok(bytes)
}

/// The bytes of a file that the request names.
fn read_file<F: Files>(
    alloc: Global,
    request: &Request<'_>,
    file: NamedFile,
    files: &mut F,
) -> Result<Vec<u8>, CommandFault> {
    let Ok(mut reader) = files.reader(request.name(file)) else {
        return Err(CommandFault::File(file));
    };
    match read_whole(alloc, &mut reader) {
        Ok(bytes) => Ok(bytes),
        Err(FileFault::Failed) => Err(CommandFault::File(file)),
        Err(FileFault::Memory) => Err(CommandFault::Memory),
    }
}

fn read_image_file<F: Files>(
    alloc: Global,
    request: &Request<'_>,
    files: &mut F,
) -> Result<Image, CommandFault> {
    let bytes = read_file(alloc, request, NamedFile::Image, files)?;
    let image = read_image(alloc, &bytes)?;
    Ok(image)
}

fn read_script_file<F: Files>(
    alloc: Global,
    request: &Request<'_>,
    harts: u8,
    files: &mut F,
) -> Result<Vec<Offered>, CommandFault>
    ensures { IfOk result (λ script. AreOffered harts script.items) }
{
    let bytes = read_file(alloc, request, NamedFile::Script, files)?;
    let script = read_script(alloc, &bytes, harts)?;
    Ok(script)
}

/// Makes the file that the request names.
fn make_file<F: Files>(request: &Request<'_>, files: &mut F) -> Result<F::Writer, CommandFault> {
    match files.maker(request.name(NamedFile::Made)) {
        Ok(made) => Ok(made),
        Err(_) => Err(CommandFault::File(NamedFile::Made)),
    }
}

/// Opens these logs, all of them before the first is read.
fn open_logs<F: Files>(
    alloc: Global,
    names: &[&str],
    files: &mut F,
) -> Result<Vec<F::Reader>, CommandFault> {
    let mut readers = Vec::new(alloc);
    for number in 0..names.len() {
        let Ok(reader) = files.reader(names[number]) else {
            return Err(CommandFault::File(NamedFile::Log(number)));
        };
        if readers.push(reader).is_err() {
            return Err(CommandFault::Memory);
        }
    }
    Ok(readers)
}

/// Replays the logs, and writes the text of the machine.
fn replay_logs<F: Files, P: Replays, W: Sink>(
    alloc: Global,
    image: &Image,
    names: &[&str],
    files: &mut F,
    replays: &P,
    out: &mut W,
) -> Result<(), CommandFault>
    requires { P.may_run replays.now }
{
    let mut readers = open_logs(alloc, names, files)?;
    match replay_streams(alloc, image, &mut readers, replays, out) {
        Ok(()) => Ok(()),
        Err(fault) => Err(CommandFault::Streams(fault)),
    }
}

/// The store of the frames of these logs.
fn read_logs<F: Files>(
    alloc: Global,
    image: &Image,
    names: &[&str],
    files: &mut F,
) -> Result<Store, CommandFault> {
    let mut readers = open_logs(alloc, names, files)?;
    let store = read_store(alloc, &image.guest(), &mut readers)?;
    Ok(store)
}

/// Writes a store to the file that is made, and tells how much it holds.
fn write_joined<F: Files, W: Sink>(
    alloc: Global,
    store: &Store,
    request: &Request<'_>,
    files: &mut F,
    out: &mut W,
) -> Result<(), CommandFault> {
    let list = list_store(alloc, store)?;
    let mut made = make_file(request, files)?;
    let size = write_list(store, &list, &mut made)?;
    written(write_size(&size, out))
}

/// Joins the logs, writes the store to the file that is made, and tells how much it holds.
fn join_logs<F: Files, W: Sink>(
    alloc: Global,
    image: &Image,
    names: &[&str],
    request: &Request<'_>,
    files: &mut F,
    out: &mut W,
) -> Result<(), CommandFault> {
    let store = read_logs(alloc, image, names, files)?;
    write_joined(alloc, &store, request, files, out)
}

/// Tells how far the logs reach.
fn cut_logs<F: Files, W: Sink>(
    alloc: Global,
    image: &Image,
    names: &[&str],
    files: &mut F,
    out: &mut W,
) -> Result<(), CommandFault> {
    let mut readers = open_logs(alloc, names, files)?;
    Ok(cut_streams(alloc, image, &mut readers, out)?)
}

/// Tells whether the logs lead to one machine by every schedule, and writes its text.
fn audit_logs<F: Files, W: Sink>(
    alloc: Global,
    image: &Image,
    names: &[&str],
    files: &mut F,
    out: &mut W,
) -> Result<(), CommandFault> {
    let mut readers = open_logs(alloc, names, files)?;
    audit_streams(alloc, image, &mut readers, out)
}

/// Draws the logs.
fn graph_logs<F: Files, P: Replays, W: Sink>(
    alloc: Global,
    image: &Image,
    names: &[&str],
    files: &mut F,
    replays: &P,
    out: &mut W,
) -> Result<(), CommandFault>
    requires { P.may_run replays.now }
{
    let mut readers = open_logs(alloc, names, files)?;
    graph_streams(alloc, image, &mut readers, replays, out)
}

/// Writes the text of the machine to which the logs lead at a place.
fn replay_logs_at<F: Files, W: Sink>(
    alloc: Global,
    image: &Image,
    names: &[&str],
    place: Place,
    files: &mut F,
    out: &mut W,
) -> Result<(), CommandFault> {
    let mut readers = open_logs(alloc, names, files)?;
    replay_streams_at(alloc, image, &mut readers, place, out)
}

/// Writes a line for each of these steps of a hart.
fn trace_logs<F: Files, W: Sink>(
    alloc: Global,
    image: &Image,
    names: &[&str],
    from: Place,
    to: Count,
    files: &mut F,
    out: &mut W,
) -> Result<(), CommandFault> {
    let mut readers = open_logs(alloc, names, files)?;
    trace_streams(alloc, image, &mut readers, from, to, out)
}

/// Answers a debugger that looks at the logs.
fn debug_logs<F: Files>(
    alloc: Global,
    image: &Image,
    names: &[&str],
    files: &mut F,
) -> Result<(), CommandFault> {
    let mut readers = open_logs(alloc, names, files)?;
    let mut input = files.input();
    let mut output = files.output();
    debug_streams(alloc, image, &mut readers, &mut input, &mut output)
}

/// Runs a primary with what the request's script offers.
fn run_script<F: Files, P: Runs>(
    alloc: Global,
    image: &Image,
    budget: Budget,
    request: &Request<'_>,
    files: &mut F,
    runs: &P,
) -> Result<Book<Recording>, CommandFault>
    requires { P.may_run runs.now }
    ensures { IfOk result (λ b. length b.machine.harts ≡ image.now.harts) }
{
    let script = read_script_file(alloc, request, image.harts(), files)?;
    Ok(run_primary(alloc, runs, image, &script, budget)?)
}

/// Writes the frames of a primary to the file that is made.
fn write_log<F: Files>(
    alloc: Global,
    image: &Image,
    book: &Book<Recording>,
    request: &Request<'_>,
    files: &mut F,
) -> Result<(), CommandFault>
    requires { length book.now.machine.harts ≡ image.now.harts }
{
    let frames = frames_of(alloc, image, book)?;
    let mut made = make_file(request, files)?;
    Ok(write_frames(&frames, &mut made)?)
}

/// Writes the frames of a primary to the file that is made, and then the text of its machine.
fn write_run<F: Files, W: Sink>(
    alloc: Global,
    image: &Image,
    book: &Book<Recording>,
    request: &Request<'_>,
    files: &mut F,
    out: &mut W,
) -> Result<(), CommandFault>
    requires { length book.now.machine.harts ≡ image.now.harts }
{
    write_log(alloc, image, book, request, files)?;
    written(book.machine().write_text(out))
}

/// Runs a primary, and writes its frames and its machine.
fn record<F: Files, P: Runs, W: Sink>(
    alloc: Global,
    image: &Image,
    budget: Budget,
    request: &Request<'_>,
    files: &mut F,
    runs: &P,
    out: &mut W,
) -> Result<(), CommandFault>
    requires { P.may_run runs.now }
{
    let book = run_script(alloc, image, budget, request, files, runs)?;
    write_run(alloc, image, &book, request, files, out)
}

/// Runs a pair with what the request's script offers.
fn pair_script<F: Files, P: Pairs, W: Sink>(
    alloc: Global,
    image: &Image,
    orders: &PairOrders,
    is_warm: bool,
    request: &Request<'_>,
    files: &mut F,
    pairs: &P,
    out: &mut W,
) -> Result<(), CommandFault>
    requires { P.may_run pairs.now }
{
    let script = read_script_file(alloc, request, image.harts(), files)?;
    if is_warm {
        return Ok(pairs.run_pair_warm(alloc, image, &script, orders, out)?);
    }
    Ok(pairs.run_pair(alloc, image, &script, orders, out)?)
}

/// Applies the request's list of events to a primary of the image and its keepers. All lines are read before the first event.
fn apply_events<F: Files, W: Sink>(
    alloc: Global,
    image: &Image,
    quorum: Quorum,
    request: &Request<'_>,
    files: &mut F,
    out: &mut W,
) -> Result<(), CommandFault> {
    let bytes = read_file(alloc, request, NamedFile::Events, files)?;
    let events = read_events(alloc, &bytes, image.harts())?;
    fail_over(alloc, image, events, quorum, out)
}

/// Does what is asked for with the image.
fn run_task<F: Files, P: Pairs, W: Sink>(
    alloc: Global,
    image: &Image,
    request: &Request<'_>,
    files: &mut F,
    pairs: &P,
    out: &mut W,
) -> Result<(), CommandFault>
    requires { P.may_run pairs.now }
{
    match &request.task {
        Task::Replay(logs) => replay_logs(alloc, image, logs, files, pairs, out),
        Task::Join { logs, .. } => join_logs(alloc, image, logs, request, files, out),
        Task::Run { budget, .. } => record(alloc, image, *budget, request, files, pairs, out),
        Task::Cut(logs) => cut_logs(alloc, image, logs, files, out),
        Task::Audit(logs) => audit_logs(alloc, image, logs, files, out),
        Task::Graph(logs) => graph_logs(alloc, image, logs, files, pairs, out),
        Task::Pair {
            orders,
            is_warm,
            ..
        } => pair_script(alloc, image, orders, *is_warm, request, files, pairs, out),
        Task::FailOver { quorum, .. } => apply_events(alloc, image, *quorum, request, files, out),
        Task::ReplayAt { place, logs } => replay_logs_at(alloc, image, logs, *place, files, out),
        Task::Trace { from, to, logs } => trace_logs(alloc, image, logs, *from, *to, files, out),
        Task::Debug(logs) => debug_logs(alloc, image, logs, files),
    }
}

fn run<F: Files, P: Pairs, W: Sink>(
    alloc: Global,
    request: &Request<'_>,
    files: &mut F,
    pairs: &P,
    out: &mut W,
) -> Result<(), CommandFault>
    requires { P.may_run pairs.now }
{
    let image = read_image_file(alloc, request, files)?;
    run_task(alloc, &image, request, files, pairs, out)
}

fn run_and_tell<F: Files, P: Pairs, W: Sink, E: Sink>(
    alloc: Global,
    request: &Request<'_>,
    files: &mut F,
    pairs: &P,
    out: &mut W,
    err: &mut E,
) -> u8
    requires { P.may_run pairs.now }
    ensures { Ends result (E.bytes err.old) (E.bytes err.new) (E.failures err.old) (E.failures err.new) }
{
    match run(alloc, request, files, pairs, out) {
        Ok(()) => 0,
        Err(fault) => {
            // Where not even the fault can be told, the status says it alone.
            let _told = write_fault(&fault, named_in(&fault, request), err);
            status_of(&fault)
        }
    }
}

/// Says why there is no request, and gives the status that the program ends with.
pub fn no_request<E: Sink>(fault: WordsFault, err: &mut E) -> u8
    ensures told { WritesSome (E.bytes err.old) (E.bytes err.new) (E.failures err.old) (E.failures err.new) (words_line fault) }
    ensures usage { fault ≡ WordsFault.Usage → result ≡ 2 }
    ensures memory { fault ≡ WordsFault.Memory → result ≡ 1 }
{
    let _told = write_words_fault(fault, err);
    match fault {
        WordsFault::Usage => 2,
        WordsFault::Memory => 1,
    }
}

/// Says that what was held back could not be written, and gives the status that the program ends with.
pub fn no_output<E: Sink>(err: &mut E) -> u8
    ensures told { WritesSome (E.bytes err.old) (E.bytes err.new) (E.failures err.old) (E.failures err.new) (line (codes "fault write")) }
    ensures status { result ≡ 1 }
{
    let fault = CommandFault::Streams(StreamsFault::Write);
    let _told = write_fault(&fault, "", err);
    status_of(&fault)
}

/// Does what the words ask for, and gives the status that the program ends with.
pub fn command<F: Files, P: Pairs, W: Sink, E: Sink>(
    alloc: Global,
    words: &[String],
    files: &mut F,
    pairs: &P,
    out: &mut W,
    err: &mut E,
) -> u8
    requires { P.may_run pairs.now }
    // With 0 and nothing told, or with the status of a fault whose one line was told.
    ensures ends { Ends result (E.bytes err.old) (E.bytes err.new) (E.failures err.old) (E.failures err.new) }
{
    match read_words(alloc, words) {
        Ok(request) => run_and_tell(alloc, &request, files, pairs, out, err),
        Err(fault) => no_request(fault, err),
    }
}

/// Tells a text, and gives the status that the program ends with.
fn tell_text<W: Sink, E: Sink>(text: &str, out: &mut W, err: &mut E) -> u8
    ensures text { result ≡ 0 → Appends (W.bytes out.old) (W.bytes out.new) text.now }
    ensures ends { Ends result (E.bytes err.old) (E.bytes err.new) (E.failures err.old) (E.failures err.new) }
{
    match write_all(out, text.as_bytes()) {
        Ok(()) => 0,
        Err(_) => no_output(err),
    }
}

/// Tells the text that the words ask for, of a program of this version, or does what they ask for, and gives the status that the program ends with.
pub fn answer<F: Files, P: Pairs, W: Sink, E: Sink>(
    alloc: Global,
    version: &'static str,
    words: &[String],
    files: &mut F,
    pairs: &P,
    out: &mut W,
    err: &mut E,
) -> u8
    requires { P.may_run pairs.now }
    ensures ends { Ends result (E.bytes err.old) (E.bytes err.new) (E.failures err.old) (E.failures err.new) }
{
    match asked_text(alloc, version, words) {
        Ok(Some(text)) => tell_text(text.as_str(), out, err),
        Ok(None) => command(alloc, words, files, pairs, out, err),
        Err(fault) => no_request(fault, err),
    }
}
