//! Logs of edges.

use crate::tables::{all_right, hart, is_count, number, row, word};
use edge_log::{Added, Edge, EdgeLog};
use ft_types::{Count, Counts, Hart, Memory};
use std::alloc::Global;

/// The edge that a text begins with, by the hart's number, its count, the other's number and that one's count, and what stands behind it.
fn edge(text: &str) -> (Edge, &str) {
    let (number_of_hart, behind) = word(text);
    let (at, behind) = word(behind);
    let (other, behind) = word(behind);
    let (after, behind) = word(behind);
    let edge = Edge {
        hart: hart(number_of_hart),
        at: number(at),
        other: hart(other),
        after: number(after),
    };
    (edge, behind)
}

/// Whether these edges are those told.
pub fn are(edges: &[Edge], told: &str) -> bool {
    let mut rest = told;
    for one in edges {
        let (first, behind) = edge(rest);
        if *one != first {
            return false;
        }
        rest = behind;
    }
    rest.is_empty()
}

/// What comes of an edge: none where it may not be added.
fn added(log: &mut EdgeLog, edge: Edge) -> Result<&'static str, Memory> {
    if !log.may_add(&edge) {
        return Ok("none");
    }
    Ok(match log.add(edge)? {
        Added::New => "new",
        Added::Implied => "implied",
    })
}

/// The first of these edges that is answered otherwise.
fn first_wrong(log: &mut EdgeLog, rows: &'static str) -> Result<Option<&'static str>, Memory> {
    for line in rows.lines() {
        let (told, answer) = row(line);
        if added(log, edge(told).0)? != answer {
            return Ok(Some(line));
        }
    }
    Ok(None)
}

fn has_at(log: &EdgeLog, count: Count, told: &str) -> bool {
    are(log.at(Hart::new(1), count), told)
}

/// Whether this is the next count of an edge of hart 1.
fn is_next(log: &EdgeLog, from: Count, count: &str) -> bool {
    is_count(log.next(Hart::new(1), from), count)
}

/// A log of nothing.
fn started(alloc: Global, start: &[Count]) -> Result<EdgeLog, Memory> {
    match Counts::from_slice(start) {
        Some(start) => Ok(EdgeLog::new(alloc, start)),
        None => Err(Memory),
    }
}

static LATER: &str = "\
1 3 0 5|new
1 6 0 4|implied
1 6 0 7|new
1 6 0 9|new
";

/// Where the log starts at the counts 5 and 2.
static STARTED: &str = "\
1 2 0 5|implied
1 2 0 6|new
1 1 0 9|none
";

static OF_ONE_COUNT: &str = "\
1 3 3 5|new
1 3 0 5|new
1 3 2 5|new
1 8 2 6|new
1 7 0 6|none
1 8 4 6|none
";

/// Whether a copy of a log of four harts has these edges of one count, and says which comes next.
fn has_copy(log: &EdgeLog) -> Result<bool, Memory> {
    let copy = log.copy()?;
    Ok(
        has_at(&copy, 3, "1 3 0 5 1 3 2 5 1 3 3 5")
            && has_at(&copy, 8, "1 8 2 6")
            && copy.start().harts() == 4
            && is_next(&copy, 4, "8")
            && is_next(&copy, 9, "none"),
    )
}

#[test]
fn edges_one_by_one(rt: HostRuntime) -> Result<(), Memory> {
    let mut log = started(rt.alloc(), &[0; 2])?;
    all_right(&rt, first_wrong(&mut log, LATER)?);
    assert!(rt; has_at(&log, 6, "1 6 0 9"));
    let mut log = started(rt.alloc(), &[5, 2])?;
    all_right(&rt, first_wrong(&mut log, STARTED)?);
    let mut log = started(rt.alloc(), &[0; 4])?;
    all_right(&rt, first_wrong(&mut log, OF_ONE_COUNT)?);
    assert!(rt; has_copy(&log)?);
    Ok(())
}

/// Adds edges of a hart, where what that asks for is so.
fn add_all(log: &mut EdgeLog, hart: Hart, edges: &[Edge]) -> Result<bool, Memory> {
    let mut last = 0;
    for edge in edges {
        if edge.hart != hart || !log.may_add(edge) || edge.at < last {
            return Ok(false);
        }
        last = edge.at;
    }
    log.add_all(hart, edges)?;
    Ok(true)
}

static BEGUN: &str = "\
0 5 1 3|new
1 3 2 5|new
";

static MANY: &str = "\
1 3 3 4|new
1 3 2 9|new
1 4 0 4|implied
1 6 0 7|new
1 6 2 8|implied
1 6 0 8|new
1 6 3 5|new
1 9 0 9|new
";

fn push_all(edges: &mut Vec<Edge>, rows: &'static str) -> Result<(), Memory> {
    for line in rows.lines() {
        edges.push(edge(row(line).0).0)?;
    }
    Ok(())
}

/// The edges of a table.
fn edges_of(alloc: Global, rows: &'static str) -> Result<Vec<Edge>, Memory> {
    let mut edges = Vec::new(alloc);
    push_all(&mut edges, rows)?;
    Ok(edges)
}

/// Whether two logs have these edges of hart 1.
fn have(log: &EdgeLog, other: &EdgeLog, told: &str) -> bool {
    are(log.of_hart(Hart::new(1)), told) && log.same(other)
}

/// Edges that are added at once leave what they leave one by one.
#[test]
fn edges_at_once(rt: HostRuntime) -> Result<(), Memory> {
    let mut one_by_one = started(rt.alloc(), &[4, 2, 0, 0])?;
    all_right(&rt, first_wrong(&mut one_by_one, BEGUN)?);
    let mut at_once = one_by_one.copy()?;
    all_right(&rt, first_wrong(&mut one_by_one, MANY)?);
    let edges = edges_of(rt.alloc(), MANY)?;
    assert!(rt; add_all(&mut at_once, Hart::new(1), edges.as_slice())?);
    assert!(rt; add_all(&mut at_once, Hart::new(7), &[])?);
    let left = "1 3 2 9 1 3 3 4 1 6 0 8 1 6 3 5 1 9 0 9";
    assert!(rt; have(&at_once, &one_by_one, left));
    Ok(())
}

/// The edge of hart 1 that is this much behind a count.
fn behind(from: u8, more: u8) -> Edge {
    let count = u64::from(from) + u64::from(more);
    Edge {
        hart: Hart::new(1),
        at: count,
        other: Hart::new(0),
        after: count,
    }
}

fn next_three(from: u8) -> [Edge; 3] {
    [behind(from, 1), behind(from, 2), behind(from, 3)]
}

/// Whether a log of two harts has so many edges of hart 1, none of them behind this count.
fn ends(log: &EdgeLog, many: u8) -> bool {
    log.of_hart(Hart::new(1)).len() == usize::from(many)
        && log.start().harts() == 2
        && is_next(log, u64::from(many) + 1, "none")
}

/// Three more edges are added: where memory is refused the log is as it was, and takes all when they are added again.
fn adds_three(log: &mut EdgeLog, from: u8) -> Result<bool, Memory> {
    let edges = next_three(from);
    let added = match add_all(log, Hart::new(1), &edges) {
        Err(Memory) => ends(log, from) && add_all(log, Hart::new(1), &edges)?,
        Ok(added) => added,
    };
    Ok(added && ends(log, from % 100 + 3))
}

#[test]
fn refused_memory(rt: HostRuntime) -> Result<(), Memory> {
    let mut log = started(rt.alloc(), &[0; 2])?;
    for from in [0u8, 3, 6, 9, 12, 15] {
        assert!(rt; adds_three(&mut log, from)?);
    }
    Ok(())
}
