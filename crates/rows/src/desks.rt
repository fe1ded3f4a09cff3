//! Desks at which inputs wait. What memory is refused once is asked for once more, of a desk that must be as it was.

use crate::inputs::{are, input};
use crate::tables::{all_right, hart, is_count, number, row, word};
use ft_types::{Count, Hart, Memory};
use input_log::{Desk, Input, WaitingBell};
use std::alloc::Global;

/// Whether these bells are those of sources and their counts.
fn are_bells(bells: &[WaitingBell], rung: &str) -> bool {
    let mut rest = rung;
    for bell in bells {
        let (source, behind) = word(rest);
        let (after, behind) = word(behind);
        if bell.source != hart(source) || bell.after != number(after) {
            return false;
        }
        rest = behind;
    }
    rest.is_empty()
}

fn put(desk: &mut Desk, not_before: Count, input: Option<Input>) -> Result<bool, Memory> {
    let Some(input) = input else {
        return Ok(false);
    };
    if input.is_bell() {
        return Ok(false);
    }
    desk.put(Hart::new(2), not_before, input)?;
    Ok(true)
}

fn ring(desk: &mut Desk, hart: Hart, source: Hart, after: Count) -> Result<bool, Memory> {
    desk.put_bell(hart, source, after)?;
    Ok(true)
}

fn take_back(desk: &mut Desk) -> bool {
    desk.take_back_bell(Hart::new(2));
    true
}

fn gives(desk: &mut Desk, count: Count, given: &str) -> bool {
    are(desk.take(Hart::new(2), count).as_slice(), given)
}

fn next(desk: &Desk) -> Option<Count> {
    desk.next(Hart::new(2))
}

fn rings(desk: &Desk, hart: Hart, bells: &str) -> bool {
    are_bells(desk.bells_next(hart).as_slice(), bells)
}

fn become_copy(desk: &mut Desk) -> Result<bool, Memory> {
    *desk = desk.copy()?;
    Ok(true)
}

/// Whether one call of a desk for hart 2 answers so: `put COUNT INPUT`, `ring HART COUNT`, `back` for the bell that came last, `take COUNT`,
/// `next`, `bells` for those that are given next, and `copy`, of which the next calls are.
fn does(desk: &mut Desk, asked: &str, answer: &str) -> Result<bool, Memory> {
    let (call, behind) = word(asked);
    let (first, last) = word(behind);
    match call {
        "put" => put(desk, number(first), input(last)),
        "ring" => ring(desk, Hart::new(2), hart(first), number(last)),
        "back" => Ok(take_back(desk)),
        "take" => Ok(gives(desk, number(first), answer)),
        "next" => Ok(is_count(next(desk), answer)),
        "bells" => Ok(rings(desk, Hart::new(2), answer)),
        _ => become_copy(desk),
    }
}

/// The first call that answers otherwise.
fn first_wrong(desk: &mut Desk, calls: &'static str) -> Result<Option<&'static str>, Memory> {
    for line in calls.lines() {
        let (asked, answer) = row(line);
        let before = next(desk);
        let right = match does(desk, asked, answer) {
            Ok(right) => right,
            Err(Memory) => next(desk) == before && does(desk, asked, answer)?,
        };
        if !right {
            return Ok(Some(line));
        }
    }
    Ok(None)
}

/// One that waits holds those behind it; then nine timers, of which eight are given at once. Then bells come before others, and are taken
/// back from the end. Then ten bells and a timer.
static CALLS: &str = "\
put 1 w1|
put 9 w2|
put 0 w3|
take 5|w1
next|9
take 8|
take 9|w2 w3
next|none
put 2 t|
put 2 t|
put 2 t|
put 2 t|
put 2 t|
put 2 t|
put 2 t|
put 2 t|
put 2 t|
next|2
take 1|
take 2|t t t t t t t t
next|2
take 3|t
next|none
take 4|
put 4 w5|
ring 1 6|
ring 0 4|
next|0
bells|1 6 0 4
back|
bells|1 6
back|
next|4
back|
ring 1 6|
ring 0 4|
copy|
bells|1 6 0 4
take 4|b1 b0 w5
bells|
next|none
put 0 t|
ring 1 0|
ring 1 1|
ring 1 2|
ring 1 3|
ring 1 4|
ring 1 5|
ring 1 6|
ring 1 7|
ring 1 8|
ring 1 9|
bells|1 0 1 1 1 2 1 3 1 4 1 5 1 6 1 7
take 0|b1 b1 b1 b1 b1 b1 b1 b1
take 1|b1 b1 t
next|none
";

/// Whether each hart has its own bells.
fn tells_harts_apart(alloc: Global) -> Result<bool, Memory> {
    let mut desk = Desk::new(alloc);
    ring(&mut desk, Hart::new(3), Hart::new(0), 5)?;
    Ok(rings(&desk, Hart::new(3), "0 5") && rings(&desk, Hart::new(2), ""))
}

#[test]
fn inputs_that_wait(rt: HostRuntime) -> Result<(), Memory> {
    let mut desk = Desk::new(rt.alloc());
    all_right(&rt, first_wrong(&mut desk, CALLS)?);
    assert!(rt; tells_harts_apart(rt.alloc())?);
    Ok(())
}
