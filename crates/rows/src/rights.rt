//! The right to a page, asked for and given up.

use crate::edges::are;
use crate::tables::{all_right, hart, number, row, word};
use crew_pages::{Ask, PageRight};
use ft_types::{Count, Counts, HART_LIMIT, HART_ROW, Hart, HartSet, Want};
use std::alloc::Global;

/// What a hart wants of a page.
fn want(text: &str) -> Want {
    if text == "read" {
        Want::Read
    } else {
        Want::Write
    }
}

fn ask(alloc: Global, right: &mut PageRight, hart: Hart, want: Want, at: Count) -> Option<Ask> {
    let counts = Counts::from_slice(&[at; HART_ROW])?;
    if counts.harts() != HART_LIMIT {
        return None;
    }
    Some(right.ask(alloc, hart, want, &counts))
}

fn is_given(asked: &Option<Ask>, edges: &str) -> bool {
    match asked {
        Some(Ask::Given(given)) => are(given.as_slice(), edges),
        _ => false,
    }
}

fn is_held(asked: &Option<Ask>, by: Hart) -> bool {
    match asked {
        Some(Ask::HeldBy(harts)) => *harts == HartSet::new().with(by),
        _ => false,
    }
}

fn leave(right: &mut PageRight, hart: Hart, at: Count) -> bool {
    let holds = right.holds(hart);
    if holds {
        right.give_up(hart, at);
    }
    holds
}

fn lower(right: &mut PageRight, hart: Hart, at: Count) -> bool {
    let owns = right.owns(hart);
    if owns {
        right.lower(hart, at);
    }
    owns
}

/// Whether a hart that asks is held by another alone, and the right stays.
fn is_refused(alloc: Global, right: &mut PageRight, hart: Hart, want: Want, by: Hart) -> bool {
    let before = *right;
    let asked = ask(alloc, right, hart, want, 0);
    is_held(&asked, by) && *right == before
}

/// Whether one call goes as it is said: `given HART WANT COUNT`, of a machine whose harts are all at this count, with these edges;
/// `held HART WANT OTHER`, where that hart alone stands against it; `leave HART COUNT`, of what it holds; `lower HART COUNT`, of a page that
/// it owns.
fn does(alloc: Global, right: &mut PageRight, asked: &str, answer: &str) -> bool {
    let (call, behind) = word(asked);
    let (first, behind) = word(behind);
    let (second, last) = word(behind);
    let hart_of_row = hart(first);
    match call {
        "given" => {
            let asked = ask(alloc, right, hart_of_row, want(second), number(last));
            is_given(&asked, answer)
        }
        "held" => is_refused(alloc, right, hart_of_row, want(second), hart(last)),
        "leave" => leave(right, hart_of_row, number(second)),
        _ => lower(right, hart_of_row, number(second)),
    }
}

/// The first call on a new right that goes otherwise.
fn first_wrong(alloc: Global, calls: &'static str) -> Option<&'static str> {
    let mut right = PageRight::new();
    for line in calls.lines() {
        let (asked, answer) = row(line);
        if !does(alloc, &mut right, asked, answer) {
            return Some(line);
        }
    }
    None
}

/// Two read, and then two others write.
static TWO_READ: &str = "\
given 0 read 0|
given 1 read 0|
leave 0 3|
leave 1 5|
given 2 write 7|2 7 0 3 2 7 1 5
leave 2 7|
given 3 write 0|3 0 0 3 3 0 1 5 3 0 2 7
";

/// An owner lowers its right.
static LOWERS: &str = "\
given 0 write 0|
lower 0 4|
given 1 read 2|1 2 0 4
given 2 read 6|2 6 0 4
";

/// Another reads, and stands against one that would write.
static HELD: &str = "\
given 0 read 0|
given 5 read 0|
held 5 write 0|
";

#[test]
fn readers_and_writers(rt: HostRuntime) {
    all_right(&rt, first_wrong(rt.alloc(), TWO_READ));
    all_right(&rt, first_wrong(rt.alloc(), LOWERS));
    all_right(&rt, first_wrong(rt.alloc(), HELD));
}
