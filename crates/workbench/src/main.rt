//! The program: it runs, replays, joins, cuts and audits logs of a guest, answers a debugger that looks at them, and leads a pair and a failover, over real files and threads.
#![tactic(auto)]

mod host;

use crate::host::{HostFiles, HostWriter};
use command_line::{Pairs, WordsFault, answer, no_output, no_request};
use pair::OnThreads;
use std::io::BufWriter;
use std::process::ExitCode;
use std::{env, io};
use version::VERSION;

/// The arguments, but the program's name.
fn arguments(rt: &HostRuntime) -> io::Result<Vec<String>> {
    let mut words = Vec::new(rt.alloc());
    let mut arguments = env::args(rt)?;
    let _program = arguments.next();
    for word in arguments {
        words.push(word)?;
    }
    Ok(words)
}

fn fault_of(error: &io::Error) -> WordsFault {
    match error.kind() {
        io::ErrorKind::OutOfMemory => WordsFault::Memory,
        _ => WordsFault::Usage,
    }
}

fn status<P: Pairs>(rt: &HostRuntime, pairs: &P) -> u8
    requires { P.may_run pairs.now }
{
    let mut files = HostFiles::new(rt, rt.stdin(), rt.stdout());
    let mut err = HostWriter::new(rt.stderr());
    let words = match arguments(rt) {
        Ok(words) => words,
        Err(error) => return no_request(fault_of(&error), &mut err),
    };
    // A pair prints a line of each output: written one by one they would take as long as its steps.
    let Ok(stdout) = BufWriter::new(rt.alloc(), rt.stdout()) else {
        return no_request(WordsFault::Memory, &mut err);
    };
    let mut out = HostWriter::new(stdout);
    let status = answer(
        rt.alloc(),
        VERSION,
        &words,
        &mut files,
        pairs,
        &mut out,
        &mut err,
    );
    if status == 0 && !out.flush() {
        return no_output(&mut err);
    }
    status
}

fn main(rt: HostRuntime) -> ExitCode {
    ExitCode::from(status(&rt, &OnThreads::new(&rt)))
}
