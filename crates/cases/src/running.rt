//! Runs cases, and tells which come out otherwise than they must.

use crate::cases::Case;
use crate::files::MemoryFiles;
use crate::sweeps::Sweep;
use command_line::{PairOrders, Pairs, command};
use ft_types::{Memory, MemorySink, Sink};
use guest_image::{Image, Machine};
use hart_replay::{Plan, ReplayFault};
use log_streams::{Plainly, Replays, Runs, StreamsFault, WarmFault};
use page_book::{Book, Recording};
use scripts::Offered;
use std::alloc::Global;
use std::cell::RefCell;
use std::io;

/// Runs and replays in turn, and no pair.
struct InTurn;

impl Replays for InTurn {
    ghost use Rattle.std.specs.Prelude.{⊤};

    ghost may_run = { λ _. ⊤ };

    fn replay(&self, alloc: Global, image: &Image, plan: &Plan) -> Result<Machine, ReplayFault> {
        Plainly.replay(alloc, image, plan)
    }
}

impl Runs for InTurn {
    ghost use Rattle.std.specs.Prelude.{⊤};

    ghost goes = { λ _ _ _. ⊤ };

    fn run_book(&self, alloc: Global, book: Book<Recording>) -> Result<Book<Recording>, Memory> {
        Plainly.run_book(alloc, book)
    }
}

impl Pairs for InTurn {
    fn run_pair<W: Sink>(
        &self,
        _alloc: Global,
        _image: &Image,
        _script: &[Offered],
        _orders: &PairOrders,
        _out: &mut W,
    ) -> Result<(), StreamsFault> {
        Err(StreamsFault::Memory)
    }

    fn run_pair_warm<W: Sink>(
        &self,
        _alloc: Global,
        _image: &Image,
        _script: &[Offered],
        _orders: &PairOrders,
        _out: &mut W,
    ) -> Result<(), WarmFault> {
        Err(WarmFault::Memory)
    }
}

/// What came of a case.
#[derive(Drop)]
struct Done {
    status: u8,
    out: MemorySink,
    err: MemorySink,
    made: MemorySink,
}

/// Does what the words of a case ask for.
fn perform<P: Pairs>(alloc: Global, case: &Case<'_>, pairs: &P) -> Done
    requires { P.may_run pairs.now }
{
    let sink = RefCell::new(MemorySink::new(alloc, case.holds));
    let mut files = MemoryFiles { case, sink: &sink };
    let mut out = MemorySink::new(alloc, case.room);
    let mut err = MemorySink::new(alloc, 1000);
    let status = command(alloc, &case.words, &mut files, pairs, &mut out, &mut err);
    Done {
        status,
        out,
        err,
        made: sink.into_inner(),
    }
}

/// Tells what the bytes of a case are where they must be others, and whether they need not.
fn tell<R: Print>(rt: &R, case: &str, what: &str, bytes: &[u8], wanted: &[u8]) -> io::Result<bool> {
    let right = bytes == wanted;
    if !right {
        println!(rt; "{case}: {what} {}", bytes.escape_ascii())?;
    }
    Ok(right)
}

/// Tells the status of a case where it must be another one, and whether it need not.
fn tell_status<R: Print>(rt: &R, label: &str, status: u8, wanted: usize) -> io::Result<bool> {
    let right = usize::from(status) == wanted;
    if !right {
        println!(rt; "{label}: status {status}")?;
    }
    Ok(right)
}

/// Tells a file that was read and may not be, and whether there is none.
fn tell_read<R: Print>(rt: &R, label: &str, case: &Case<'_>) -> io::Result<bool> {
    for file in &case.files {
        if !file.is_right() {
            println!(rt; "{label}: {} was read", file.name)?;
            return Ok(false);
        }
    }
    Ok(true)
}

/// Tells under this label what came out otherwise, and whether nothing did.
fn tell_all<R: Print>(rt: &R, label: &str, case: &Case<'_>, done: &Done) -> io::Result<bool> {
    let made = done.made.bytes();
    let mut right = tell_status(rt, label, done.status, case.status)?;
    right &= tell(rt, label, "out", done.out.bytes(), case.wanted_out())?;
    right &= tell(rt, label, "err", done.err.bytes(), &case.err)?;
    right &= tell(rt, label, "made", made, case.wanted(made))?;
    right &= tell_read(rt, label, case)?;
    Ok(right)
}

/// Runs a case, and tells under this label what comes out otherwise.
fn run_case<R: Print + AllocGlobal, P: Pairs>(
    rt: &R,
    label: &str,
    case: &Case<'_>,
    threads: &P,
) -> io::Result<bool>
    requires { P.may_run threads.now }
{
    let done = if case.on_threads {
        perform(rt.alloc(), case, threads)
    } else {
        perform(rt.alloc(), case, &InTurn)
    };
    tell_all(rt, label, case, &done)
}

/// Runs a case in each way of a sweep, and adds how many these are.
fn run_sweep<R: Print + AllocGlobal, P: Pairs>(
    rt: &R,
    label: &str,
    case: &mut Case<'_>,
    sweep: Sweep<'_>,
    threads: &P,
    calls: &mut usize,
) -> io::Result<bool>
    requires { P.may_run threads.now }
{
    let mut all_right = true;
    for place in sweep.places.0..=sweep.places.1 {
        for value in sweep.values.0..=sweep.values.1 {
            if case.vary(sweep, place, value) {
                let label = format!(in rt.alloc(); "{label}, {place}, {value}")?;
                all_right &= run_case(rt, label.as_str(), case, threads)?;
                *calls = calls.saturating_add(1);
            }
        }
    }
    Ok(all_right)
}

/// Runs the cases of a file, and tells how many there are, and which come out otherwise.
pub fn run_cases<R: Print + AllocGlobal, P: Pairs>(
    rt: &R,
    file: &str,
    cases: &mut [Case<'_>],
    threads: &P,
) -> io::Result<bool>
    requires { P.may_run threads.now }
{
    let (mut all_right, mut swept) = (true, 0usize);
    for case in cases.iter_mut() {
        let label = format!(in rt.alloc(); "{file}: {}", case.name)?;
        all_right &= match case.sweep {
            None => run_case(rt, label.as_str(), case, threads)?,
            Some(sweep) => run_sweep(rt, label.as_str(), case, sweep, threads, &mut swept)?,
        };
    }
    match swept {
        0 => println!(rt; "{file}: {} cases", cases.len())?,
        _ => println!(rt;
            "{file}: {} cases, some of them in {swept} ways",
            cases.len()
        )?,
    }
    Ok(all_right)
}
