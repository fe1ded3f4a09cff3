//! Logs of inputs. What memory is refused once is asked for once more, of a log that must be as it was.

use crate::tables::{all_right, hart_of, is_count, number, number_of, row, word};
use ft_types::{Count, Hart, INPUT_LIMIT, Memory};
use input_log::{Input, InputLog};
use std::alloc::Global;

/// An input: `t` is the timer's, `w7` the word 7, `b1` hart 1's bell.
pub fn input(text: &str) -> Option<Input> {
    match text.as_bytes() {
        [b't'] => Some(Input::Timer),
        [b'w', word @ ..] => Some(Input::Word((number_of(word) % 1000) as u32)),
        [b'b', source @ ..] => Some(Input::Bell(hart_of(source))),
        _ => None,
    }
}

/// Whether these inputs are those given.
pub fn are(inputs: &[Input], given: &str) -> bool {
    let mut rest = given;
    for one in inputs {
        let (first, behind) = word(rest);
        match input(first) {
            Some(given) if given == *one => {}
            _ => return false,
        }
        rest = behind;
    }
    rest.is_empty()
}

/// Adds an input, where the text is one.
fn push(inputs: &mut Vec<Input>, text: &str) -> Result<(), Memory> {
    if let Some(input) = input(text) {
        inputs.push(input)?;
    }
    Ok(())
}

/// These inputs, at most as many as a hart is given at a count.
fn inputs_of(alloc: Global, given: &str) -> Result<Vec<Input>, Memory> {
    let mut inputs = Vec::new(alloc);
    let mut rest = given;
    for _ in 0..INPUT_LIMIT {
        let (first, behind) = word(rest);
        push(&mut inputs, first)?;
        rest = behind;
    }
    Ok(inputs)
}

/// Adds an input, which may be added.
fn add(log: &mut InputLog, count: Count, input: Option<Input>) -> Result<bool, Memory> {
    let Some(input) = input else {
        return Ok(false);
    };
    let may = log.may_add(Hart::new(1), count);
    if may {
        log.add(Hart::new(1), count, input)?;
    }
    Ok(may)
}

/// Adds as many inputs as it may.
fn add_all(log: &mut InputLog, count: Count, inputs: &[Input]) -> Result<bool, Memory> {
    let room = INPUT_LIMIT - log.at(Hart::new(1), count).len();
    if !log.may_add(Hart::new(1), count) || inputs.len() > room {
        return Ok(false);
    }
    log.add_all(Hart::new(1), count, inputs)?;
    Ok(true)
}

fn may(log: &InputLog, count: Count) -> &'static str {
    if log.may_add(Hart::new(1), count) {
        "yes"
    } else {
        "no"
    }
}

fn gives(log: &InputLog, count: Count, given: &str) -> bool {
    are(log.at(Hart::new(1), count), given)
}

fn next(log: &InputLog, from: Count) -> Option<Count> {
    log.next(Hart::new(1), from)
}

fn take_back(log: &mut InputLog, many: u64) -> bool {
    log.take_back(Hart::new(1), many as usize);
    true
}

fn become_copy(log: &mut InputLog) -> Result<bool, Memory> {
    let copy = log.copy()?;
    let same = log.same(&copy);
    *log = copy;
    Ok(same)
}

/// Whether a log has hart 1's inputs at these counts and none of hart 0.
fn has(log: &InputLog, counts: &str) -> bool {
    let (at, inputs) = log.of_hart(Hart::new(1));
    let mut rest = counts;
    for count in at {
        let (first, behind) = word(rest);
        if *count != number(first) {
            return false;
        }
        rest = behind;
    }
    let idle = log.may_add(Hart::new(0), 0) && log.at(Hart::new(0), 3).is_empty();
    idle && rest.is_empty() && inputs.len() == at.len()
}

/// Whether one call of a log for hart 1 answers so: `add COUNT INPUT`, `all COUNT INPUT ..`, `may COUNT`, `at COUNT`, `next COUNT`, `back N`
/// for the last N inputs, `has` for the counts of all, and `copy`, of which the next calls are.
fn does(alloc: Global, log: &mut InputLog, asked: &str, answer: &str) -> Result<bool, Memory> {
    let (call, behind) = word(asked);
    let (first, last) = word(behind);
    let count = number(first);
    match call {
        "add" => add(log, count, input(last)),
        "all" => add_all(log, count, inputs_of(alloc, last)?.as_slice()),
        "may" => Ok(may(log, count) == answer),
        "at" => Ok(gives(log, count, answer)),
        "next" => Ok(is_count(next(log, count), answer)),
        "back" => Ok(take_back(log, count)),
        "has" => Ok(has(log, answer)),
        _ => become_copy(log),
    }
}

/// The first call of a new log that answers otherwise.
fn first_wrong(alloc: Global, calls: &'static str) -> Result<Option<&'static str>, Memory> {
    let mut log = InputLog::new(alloc);
    for line in calls.lines() {
        let (asked, answer) = row(line);
        let right = match does(alloc, &mut log, asked, answer) {
            Ok(right) => right,
            Err(Memory) => does(alloc, &mut log, asked, answer)?,
        };
        if !right {
            return Ok(Some(line));
        }
    }
    Ok(None)
}

/// Inputs stand in their order, each at its count.
static IN_ORDER: &str = "\
add 3 w7|
add 3 t|
add 3 b0|
add 9 w8|
copy|
at 3|w7 t b0
at 4|
next 0|3
next 4|9
next 10|none
has|3 3 3 9
";

/// Many at a count, and back; then eight at a count.
static MANY: &str = "\
add 3 t|
all 3 w7 t b0|
at 3|t w7 t b0
back 3|
at 3|t
all 4 w7 t b0|
back 2|
at 4|w7
back 9|
next 0|none
all 3 w0 w1 w2 w3 w4 w5 w6|
may 3|yes
add 3 w7|
at 3|w0 w1 w2 w3 w4 w5 w6 w7
may 3|no
may 2|no
may 4|yes
has|3 3 3 3 3 3 3 3
";

#[test]
fn inputs_of_a_hart(rt: HostRuntime) -> Result<(), Memory> {
    all_right(&rt, first_wrong(rt.alloc(), IN_ORDER)?);
    all_right(&rt, first_wrong(rt.alloc(), MANY)?);
    Ok(())
}
