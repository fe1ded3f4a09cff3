//! Schedules of a machine small enough to follow by hand.

use crate::tables::{all_right, number, parts, row, word};
use ft_types::Memory;
use interleaving::counters::{Act, Counter, Counters, Turn};
use std::alloc::Global;

/// A count: `max` is the greatest, and `last` the one before it.
fn count(text: &str) -> u64 {
    if text == "last" {
        u64::MAX - 1
    } else {
        number(text)
    }
}

/// Adds the harts of a machine, each by its count and its value, at most eight.
fn add_harts(harts: &mut Vec<Counter>, told: &str) -> Result<(), Memory> {
    let mut rest = told;
    for _ in 0..8 {
        if !rest.is_empty() {
            let (first, behind) = word(rest);
            let (value, behind) = word(behind);
            harts.push(Counter {
                count: count(first),
                value: number(value),
            })?;
            rest = behind;
        }
    }
    Ok(())
}

/// Adds its pages, at most eight.
fn add_pages(pages: &mut Vec<u64>, told: &str) -> Result<(), Memory> {
    let mut rest = told;
    for _ in 0..8 {
        if !rest.is_empty() {
            let (page, behind) = word(rest);
            pages.push(number(page))?;
            rest = behind;
        }
    }
    Ok(())
}

/// A machine: its harts, a slash, and its pages.
fn machine(alloc: Global, told: &str) -> Result<Counters, Memory> {
    let (own, shared) = parts(told, '/');
    let mut harts = Vec::new(alloc);
    add_harts(&mut harts, own)?;
    let mut pages = Vec::new(alloc);
    add_pages(&mut pages, shared)?;
    Ok(Counters { harts, pages })
}

fn small(text: &str) -> usize {
    (number(text) % 8) as usize
}

/// The turn that a text begins with, a hart that loads or stores, and a page; and what stands behind it.
fn turn(text: &str) -> (Turn, &str) {
    let (hart, behind) = word(text);
    let (act, behind) = word(behind);
    let (page, behind) = word(behind);
    let act = match act {
        "loads" => Act::Load(small(page)),
        _ => Act::Store(small(page)),
    };
    let hart = small(hart);
    (Turn { hart, act }, behind)
}

/// Adds turns, at most eight.
fn add_turns(turns: &mut Vec<Turn>, told: &str) -> Result<(), Memory> {
    let mut rest = told;
    for _ in 0..8 {
        if !rest.is_empty() {
            let (first, behind) = turn(rest);
            turns.push(first)?;
            rest = behind;
        }
    }
    Ok(())
}

/// Whether these turns lead from a machine to another: to none where one of them cannot be taken.
fn lead(alloc: Global, told: &str, wanted: &str) -> Result<bool, Memory> {
    let (start, taken) = parts(told, ':');
    let mut turns = Vec::new(alloc);
    add_turns(&mut turns, taken)?;
    match machine(alloc, start)?.run(turns.as_slice()) {
        Some(ended) => Ok(wanted != "none" && ended == machine(alloc, wanted)?),
        None => Ok(wanted == "none"),
    }
}

/// Hart 1 loads what hart 0 stored first, and stores where hart 2 stored. In the third row hart 0 stores again before hart 1 has loaded,
/// which an edge forbids. Then a log that lacks a part of honesty lets the hart that loads go first, and it loads something else; so it is
/// where a page was handed on, and the hart between is lost. A hart that is not there, or whose count is full, takes no turn; a page that is
/// not there holds nothing.
static ROWS: &str = "\
0 0 0 0 0 0/0 0:0 stores 0 1 loads 0 0 stores 0 2 stores 1 1 stores 1|2 0 2 1 1 0/2 2
0 0 0 0 0 0/0 0:2 stores 1 0 stores 0 1 loads 0 1 stores 1 0 stores 0|2 0 2 1 1 0/2 2
0 0 0 0 0 0/0 0:0 stores 0 0 stores 0 1 loads 0 2 stores 1 1 stores 1|2 0 2 2 1 0/2 2
7 0 5 0/0:0 stores 0 1 loads 0|8 0 6 8/8
7 0 5 0/0:1 loads 0 0 stores 0|8 0 6 0/8
0 0 0 0 0 0/0 0:0 stores 0 2 loads 0|1 0 0 0 1 1/1 0
0 0 0 0 0 0/0 0:2 loads 0 0 stores 0|1 0 0 0 1 0/1 0
0 0/7:0 loads 0 1 loads 0|none
max 0/7:0 stores 0|none
last 0/7:0 stores 1|max 0/7
";

/// The first row that goes otherwise.
fn first_wrong(alloc: Global) -> Result<Option<&'static str>, Memory> {
    for line in ROWS.lines() {
        let (told, wanted) = row(line);
        if !lead(alloc, told, wanted)? {
            return Ok(Some(line));
        }
    }
    Ok(None)
}

#[test]
fn turns_of_harts(rt: HostRuntime) -> Result<(), Memory> {
    all_right(&rt, first_wrong(rt.alloc())?);
    Ok(())
}
