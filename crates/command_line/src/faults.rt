//! What can go wrong, and the one line that says so.

ghost use Rattle.std.specs.Prelude.{◌≡◌, ◌≢◌, ◌+◌, ◌≤◌, ◌++◌, codes, length, decimal};
ghost use Rattle.ft_types.specs.Devices.{Writes};
ghost use Rattle.ft_types.specs.Text.{line};
ghost use Rattle.command_line.specs.Writing.{as_told};
ghost use Rattle.command_line.specs.Audits.{replay_fault};
ghost use Rattle.command_line.specs.Faults.{image_line, in_one_line, replay_line, shown, streams_line, step_text, uncovered_line, fault_line, words_line};

use crate::words::{NamedFile, Place, Request};
use failover_world::WorldFault;
use ft_types::{Count, Failed, Hart, LineBuffer, Memory, PageNo, Sink, write_all};
use guest_image::ImageFault;
use hart_replay::ReplayFault;
use log_audit::AuditFault;
use log_streams::{StreamsFault, WarmFault, write_counts_line, write_long_line, write_numbered};
use scripts::{EventsFault, ScriptFault};
use word_forms::WordsFault;

/// Why a command failed.
#[derive(Clone, Copy)]
pub enum CommandFault {
    /// The words have no form that there is.
    Usage,
    /// A file could not be opened, read or made.
    File(NamedFile),
    /// What is wrong with the image.
    Image(ImageFault),
    /// The line of the script, from 1, that is at fault.
    Script(u64),
    /// The line of the list of events, from 1, that is at fault.
    Events(u64),
    /// The line of the event, from 1, that was refused, and why.
    World(u64, WorldFault),
    /// The page, and the two steps that touch it and that nothing orders.
    Uncovered(PageNo, (Hart, Count), (Hart, Count)),
    /// What is wrong with the logs, their replay or the output.
    Streams(StreamsFault),
    /// The logs lead the hart to fewer steps.
    NoStep(Place),
    /// Standard input could not be read.
    Input,
    /// No primary goes live at the end of a pair with a warm keeper, by the number of that fault.
    Live(u8),
    /// A growth was refused.
    Memory,
}

impl From<StreamsFault> for CommandFault {
    ghost use Rattle.std.specs.Prelude.{◌≡◌};
    ghost use Rattle.command_line.specs.declared.faults.CommandFault.TheVariants.{Streams};

    ghost from_gives = { λ fault e. e ≡ Streams fault };

    fn from(fault: StreamsFault) -> CommandFault {
        CommandFault::Streams(fault)
    }
}

impl From<Memory> for CommandFault {
    ghost use Rattle.std.specs.Prelude.{◌≡◌};
    ghost use Rattle.command_line.specs.declared.faults.CommandFault.TheVariants.{Memory as NoMemory};

    ghost from_gives = { λ _ e. e ≡ NoMemory };

    fn from(_e: Memory) -> CommandFault {
        CommandFault::Memory
    }
}

impl From<ImageFault> for CommandFault {
    fn from(fault: ImageFault) -> CommandFault {
        match fault {
            ImageFault::Memory => CommandFault::Memory,
            fault => CommandFault::Image(fault),
        }
    }
}

impl From<ScriptFault> for CommandFault {
    fn from(fault: ScriptFault) -> CommandFault {
        match fault {
            ScriptFault::BadLine(line) => CommandFault::Script(line),
            ScriptFault::Memory => CommandFault::Memory,
        }
    }
}

impl From<EventsFault> for CommandFault {
    fn from(fault: EventsFault) -> CommandFault {
        match fault {
            EventsFault::BadLine(line) => CommandFault::Events(line),
            EventsFault::Memory => CommandFault::Memory,
        }
    }
}

impl From<WarmFault> for CommandFault {
    fn from(fault: WarmFault) -> CommandFault {
        match fault {
            WarmFault::Memory => CommandFault::Memory,
            WarmFault::Write => CommandFault::Streams(StreamsFault::Write),
            WarmFault::Live(fault) => CommandFault::Live(fault),
        }
    }
}

/// The fault of a command for that of a replay.
pub fn replayed(fault: ReplayFault) -> CommandFault
    ensures { result ≡ replay_fault fault }
{
    match fault {
        ReplayFault::Memory => CommandFault::Memory,
        fault => CommandFault::Streams(StreamsFault::Replay(fault)),
    }
}

impl From<AuditFault> for CommandFault {
    ghost use Rattle.std.specs.Prelude.{◌≡◌};
    ghost use Rattle.command_line.specs.Audits.{fault_of};

    ghost from_gives = { λ fault e. e ≡ fault_of fault };

    fn from(fault: AuditFault) -> CommandFault {
        match fault {
            AuditFault::Uncovered(page, one, other) => CommandFault::Uncovered(page, one, other),
            AuditFault::Replay(fault) => replayed(fault),
        }
    }
}

/// What came of writing to standard output.
pub fn written(done: Result<(), Failed>) -> Result<(), CommandFault>
    ensures { result ≡ as_told done }
{
    match done {
        Ok(()) => Ok(()),
        Err(_) => Err(CommandFault::Streams(StreamsFault::Write)),
    }
}

/// The status that the program ends with.
pub fn status_of(fault: &CommandFault) -> u8
    ensures usage { fault.now ≡ CommandFault.Usage → result ≡ 2 }
    ensures others { fault.now ≢ CommandFault.Usage → result ≡ 1 }
{
    match fault {
        CommandFault::Usage => 2,
        _ => 1,
    }
}

fn write_image_fault<W: Sink>(fault: ImageFault, out: &mut W) -> Result<(), Failed>
    ensures { Writes result (W.bytes out.old) (W.bytes out.new) (W.failures out.old) (W.failures out.new) (image_line fault) }
{
    match fault {
        ImageFault::BadLine(line) => write_numbered(b"fault image 1 line ", line, b"\n", out),
        ImageFault::TooLarge => write_all(out, b"fault image 2\n"),
        ImageFault::NoHarts => write_all(out, b"fault image 3\n"),
        ImageFault::Memory => write_all(out, b"fault memory\n"),
    }
}

/// Writes a line of two numbers, each behind a text.
fn write_two<W: Sink>(
    front: &[u8],
    first: u64,
    between: &[u8],
    second: u64,
    out: &mut W,
) -> Result<(), Failed>
    requires { length front.now + length between.now ≤ 50 }
    ensures { Writes result (W.bytes out.old) (W.bytes out.new) (W.failures out.old) (W.failures out.new) (line (front.now ++ decimal first ++ between.now ++ decimal second)) }
{
    let mut text = LineBuffer::new();
    text.push(front);
    text.push_number(first);
    text.push(between);
    text.push_number(second);
    text.write(out)
}

fn write_replay_fault<W: Sink>(fault: ReplayFault, out: &mut W) -> Result<(), Failed>
    ensures { Writes result (W.bytes out.old) (W.bytes out.new) (W.failures out.old) (W.failures out.new) (replay_line fault) }
{
    match fault {
        ReplayFault::Cyclic(counts) => {
            write_counts_line(b"fault replay 1 counts", counts.as_slice(), out)
        }
        ReplayFault::HaltedInside(hart, count) => {
            let hart = u64::from(hart.number());
            write_two(b"fault replay 2 hart ", hart, b" count ", count, out)
        }
        ReplayFault::OtherGuest => write_all(out, b"fault replay 3\n"),
        ReplayFault::Memory => write_all(out, b"fault memory\n"),
    }
}

fn write_streams_fault<W: Sink>(fault: StreamsFault, out: &mut W) -> Result<(), Failed>
    ensures { Writes result (W.bytes out.old) (W.bytes out.new) (W.failures out.old) (W.failures out.new) (streams_line fault) }
{
    match fault {
        StreamsFault::Read(stream) => {
            write_numbered(b"fault stream ", stream as u64, b" read\n", out)
        }
        StreamsFault::Frame(stream, fault) => {
            let fault = u64::from(fault.number());
            write_two(b"fault stream ", stream as u64, b" frame ", fault, out)
        }
        StreamsFault::Guest(stream) => {
            write_numbered(b"fault stream ", stream as u64, b" guest\n", out)
        }
        StreamsFault::Replay(fault) => write_replay_fault(fault, out),
        StreamsFault::Write => write_all(out, b"fault write\n"),
        StreamsFault::Memory => write_all(out, b"fault memory\n"),
    }
}

fn push_step(text: &mut LineBuffer, step: (Hart, Count))
    requires { length text.old + 52 ≤ 96 }
    ensures text { text.new ≡ text.old ++ step_text step }
    ensures short { length text.new ≤ length text.old + 52 }
{
    text.push(b" hart ");
    text.push_number(u64::from(step.0.number()));
    text.push(b" step ");
    text.push_number(step.1);
}

fn write_uncovered<W: Sink>(
    page: PageNo,
    one: (Hart, Count),
    other: (Hart, Count),
    out: &mut W,
) -> Result<(), Failed>
    ensures { Writes result (W.bytes out.old) (W.bytes out.new) (W.failures out.old) (W.failures out.new) (uncovered_line page one other) }
{
    let mut front = LineBuffer::new();
    front.push(b"fault audit 1 page ");
    front.push_number(u64::from(page.number()));
    push_step(&mut front, one);
    let mut back = LineBuffer::new();
    push_step(&mut back, other);
    write_long_line(front, back, out)
}

/// The name of the file that the fault names, empty where it names none.
pub fn named_in<'a>(fault: &CommandFault, request: &Request<'a>) -> &'a str {
    match fault {
        CommandFault::File(file) => request.name(*file),
        _ => "",
    }
}

/// Writes a byte of a name, a line feed as `\n`.
fn write_shown<W: Sink>(byte: u8, out: &mut W) -> Result<(), Failed>
    ensures { Writes result (W.bytes out.old) (W.bytes out.new) (W.failures out.old) (W.failures out.new) (shown byte) }
{
    match byte {
        b'\n' => write_all(out, b"\\n"),
        _ => write_all(out, &[byte]),
    }
}

/// Writes a name so that it stays in its line.
fn write_name<W: Sink>(name: &[u8], out: &mut W) -> Result<(), Failed>
    ensures { Writes result (W.bytes out.old) (W.bytes out.new) (W.failures out.old) (W.failures out.new) (in_one_line name.now) }
{
    for byte in name {
        write_shown(*byte, out)?;
    }
    Ok(())
}

/// Writes the line of a file that could not be opened, read or made.
fn write_file_fault<W: Sink>(name: &[u8], out: &mut W) -> Result<(), Failed>
    ensures { Writes result (W.bytes out.old) (W.bytes out.new) (W.failures out.old) (W.failures out.new) (line (codes "fault file " ++ in_one_line name.now)) }
{
    write_all(out, b"fault file ")?;
    write_name(name, out)?;
    write_all(out, b"\n")
}

/// Writes the line that says what went wrong with a request, with the name of the file that the fault names.
pub fn write_fault<W: Sink>(fault: &CommandFault, name: &str, out: &mut W) -> Result<(), Failed>
    ensures { Writes result (W.bytes out.old) (W.bytes out.new) (W.failures out.old) (W.failures out.new) (fault_line name.now fault.now) }
{
    match fault {
        CommandFault::Usage => write_all(out, b"fault usage\n"),
        CommandFault::File(_) => write_file_fault(name.as_bytes(), out),
        CommandFault::Image(fault) => write_image_fault(*fault, out),
        CommandFault::Script(line) => write_numbered(b"fault script line ", *line, b"\n", out),
        CommandFault::Events(line) => write_numbered(b"fault events line ", *line, b"\n", out),
        CommandFault::World(line, fault) => {
            let fault = u64::from(fault.number());
            write_two(b"fault events line ", *line, b" world ", fault, out)
        }
        CommandFault::Uncovered(page, one, other) => write_uncovered(*page, *one, *other, out),
        CommandFault::Streams(fault) => write_streams_fault(*fault, out),
        CommandFault::NoStep(place) => {
            let hart = u64::from(place.hart.number());
            write_two(b"fault replay 4 hart ", hart, b" count ", place.count, out)
        }
        CommandFault::Input => write_all(out, b"fault input\n"),
        CommandFault::Live(fault) => {
            write_numbered(b"fault live ", u64::from(*fault), b"\n", out)
        }
        CommandFault::Memory => write_all(out, b"fault memory\n"),
    }
}

/// Writes the line that says why the words are no request.
pub fn write_words_fault<W: Sink>(fault: WordsFault, out: &mut W) -> Result<(), Failed>
    ensures { Writes result (W.bytes out.old) (W.bytes out.new) (W.failures out.old) (W.failures out.new) (words_line fault) }
{
    match fault {
        WordsFault::Usage => write_all(out, b"fault usage\n"),
        WordsFault::Memory => write_all(out, b"fault memory\n"),
    }
}
