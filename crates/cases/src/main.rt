//! Runs the cases of the files that its arguments name: each is a call of the program over files in memory, and says what must come
//! of it.
#![tactic(auto)]

mod cases;
mod files;
mod frames;
mod packets;
mod reading;
mod running;
mod sweeps;

use crate::cases::cases_of;
use crate::running::run_cases;
use command_line::Pairs;
use pair::OnThreads;
use std::process::ExitCode;
use std::rt::{Env, Files};
use std::{env, fs, io};

/// Runs the cases of a text, and tells whether all came out as they must.
fn run_text<R: Print + AllocGlobal, P: Pairs>(
    rt: &R,
    name: &str,
    text: &str,
    threads: &P,
) -> io::Result<bool>
    requires { P.may_run threads.now }
{
    match cases_of(rt.alloc(), text) {
        Ok(mut cases) => run_cases(rt, name, &mut cases, threads),
        Err(line) => {
            println!(rt; "{name}: line {line} is at fault")?;
            Ok(false)
        }
    }
}

/// Runs the cases of a file, and tells whether all came out as they must.
fn run_file<R: Files + Print + AllocGlobal, P: Pairs>(
    rt: &R,
    name: &str,
    threads: &P,
) -> io::Result<bool>
    requires { P.may_run threads.now }
{
    match fs::read_to_string(rt, name) {
        Ok(text) => run_text(rt, name, text.as_str(), threads),
        Err(_) => {
            println!(rt; "{name}: cannot be read")?;
            Ok(false)
        }
    }
}

/// Runs the cases of the files that the arguments name.
fn run_files<R: Env + Files + Print + AllocGlobal, P: Pairs>(
    rt: &R,
    threads: &P,
) -> io::Result<bool>
    requires { P.may_run threads.now }
{
    let mut all_right = true;
    let mut names = env::args(rt)?;
    let _program = names.next();
    for name in names {
        all_right &= run_file(rt, name.as_str(), threads)?;
    }
    Ok(all_right)
}

fn main(rt: HostRuntime) -> ExitCode {
    match run_files(&rt, &OnThreads::new(&rt)) {
        Ok(true) => ExitCode::SUCCESS,
        _ => ExitCode::FAILURE,
    }
}
