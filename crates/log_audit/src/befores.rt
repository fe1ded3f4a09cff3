//! What the edges put before steps.

ghost use Rattle.std.specs.Prelude.{◌≡◌, ◌<◌, ◌≤◌, ◌^◌, ℕ, [], All, AllPairs, length, replicate, IfOk};
ghost use Rattle.ft_types.specs.Counts.{greater};
ghost use Rattle.log_audit.specs.machinery.Befores.{row_of, AreRising, IsLatest, IsBrought, Brings};

use crate::trimmed::{Row, TrimmedRow, no_steps};
use edge_log::Edge;
use ft_types::{Count, HART_ROW, Hart, Memory};
use std::alloc::Global;
use std::array;
use std::marker::Model;

/// From a count of a hart on, so many first steps of each come before its steps.
#[derive(Drop)]
pub(crate) struct Before {
    /// The hart's count.
    pub(crate) since: Count,
    /// How many steps of each.
    pub(crate) steps: TrimmedRow,
}

/// For each hart, what comes before its steps, by rising count.
#[derive(Drop)]
pub(crate) struct Befores {
    alloc: Global,
    rows: [Vec<Before>; HART_ROW],
}

/// Raises each count to the other row's.
fn raise(row: &mut Row, other: &Row)
    ensures { row.new ≡ greater row.old other.now }
{
    let before = *row;
    for hart in 0..HART_ROW {
        row[hart] = before[hart].max(other[hart]);
    }
}

/// What comes before a hart's step of this count.
fn latest(row: &[Before], count: Count) -> Row
    requires { AllPairs (λ a b. a.since ≤ b.since) row.now }
    ensures { IsLatest row.now count result }
{
    let place = row.partition_point(|before| before.since <= count);
    if place == 0 {
        no_steps()
    } else {
        row[place - 1].steps.row()
    }
}

impl Model for Befores {
    ghost use Rattle.std.specs.Prelude.{List, map};
    ghost use Rattle.log_audit.specs.declared.befores.Before.{Before};

    ghost Value = { List (List Before) };

    ghost view = { λ b. map (λ row. row.items) b.rows };
}

impl Befores {
    /// Nothing comes before any step.
    pub(crate) fn none(alloc: Global) -> Befores
        ensures { result ≡ replicate HART_ROW [] }
    {
        Befores {
            alloc,
            rows: array::from_fn(|_| Vec::new(alloc)),
        }
    }

    /// With what an edge brings: the steps that it names, and what comes before the last of these.
    fn bring_one(&self, steps: &mut Row, edge: &Edge)
        requires { AreRising self.now }
        ensures { IsBrought self.now steps.old edge.now steps.new }
    {
        if edge.after == 0 {
            return;
        }
        let other = edge.other.index();
        let below = latest(&self.rows[other], edge.after - 1);
        raise(steps, &below);
        steps[other] = steps[other].max(edge.after);
    }

    /// What comes before the hart's next step, which has this count and these edges.
    pub(crate) fn bring(&mut self, hart: Hart, count: Count, edges: &[Edge]) -> Result<Row, Memory>
        requires { AreRising self.old }
        ensures { IfOk result (λ steps. Brings self.old hart count edges.now steps self.new) }
    {
        let mut steps = latest(&self.rows[hart.index()], count);
        if edges.is_empty() {
            return Ok(steps);
        }
        for edge in edges {
            self.bring_one(&mut steps, edge);
        }
        let kept = TrimmedRow::of(self.alloc, &steps)?;
        let row = &mut self.rows[hart.index()];
        row.push(Before {
            since: count,
            steps: kept,
        })?;
        Ok(steps)
    }
}
