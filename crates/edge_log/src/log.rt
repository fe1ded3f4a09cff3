//! The edges that a log keeps.

ghost use Rattle.std.specs.Prelude.{◌≡◌, ℕ, ◌+◌, ◌<◌, ◌≤◌, ◌==◌, ◌↔◌, ◌≢◌, All, Any, AllPairs, Contains, List, [], ◌∷◌, ◌++◌, Ok, length, map, filter, IsTrue, slice_index_or};
ghost use Rattle.std.specs.Prelude.{OnOk, OnErr, IfOk, IfSome, IfNone};
ghost use Rattle.ft_types.specs.Counts.{count_at};
ghost use Rattle.interleaving.specs.Log.{Edge as edge_of_theory};
ghost use Rattle.interleaving.specs.Cuts.{IsImplied, IsEnough, IsSameOrder};
ghost use Rattle.edge_log.specs.Rows.{ComesBefore, IsPut, SayOn};
ghost use Rattle.edge_log.specs.EdgeLog.{row_of, edge_as, edges_of, start_of, MayAdd, AddsLater, AreAdded, IsOfHart, IsLog};

use crate::row::Row;
use crate::{Added, Edge};
use ft_types::{Count, Counts, HART_LIMIT, HART_ROW, Hart, Memory, same_counts};
use std::alloc::Global;
use std::array;
use std::marker::Model;
use std::option::Option;
use std::result::Result;

/// Edges between the harts of one machine, with those dropped that its start or another edge implies.
///
/// Contracts see the start, and for each hart the list of its edges, by rising step and other hart.
pub struct EdgeLog {
    start: Counts,
    rows: [Row; HART_ROW],
}

impl Drop for EdgeLog {
    fn drop(self) {
        let EdgeLog { start: _, rows: _ } = self;
    }
}

impl Model for EdgeLog {
    ghost use Rattle.std.specs.Prelude.{map};
    ghost use Rattle.edge_log.specs.EdgeLog.{Edges, IsLog};

    ghost Value = { Edges };

    ghost view = { λ l. record { start = l.start; rows = map (λ r. r.edges) l.rows } };

    ghost invariant = { λ l. IsLog l.start (map (λ r. r.edges) l.rows) };
}

fn same_rows(rows: &[Row; HART_ROW], others: &[Row; HART_ROW]) -> bool
    ensures { IsTrue result ↔ (map (λ r. r.edges) rows.now ≡ map (λ r. r.edges) others.now) }
{
    for hart in 0..HART_ROW {
        if !rows[hart].has_edges_of(&others[hart]) {
            return false;
        }
    }
    true
}

fn rows_say_on(rows: &[Row; HART_ROW], settled: &Counts, before: &[Row; HART_ROW]) -> bool
    ensures { IsTrue result ↔ ((hart : ℕ) → SayOn (slice_index_or (map (λ r. r.edges) before.now) hart []) (count_at settled.now hart) (slice_index_or
        (map (λ r. r.edges) rows.now) hart [])) }
{
    for hart in 0..HART_LIMIT {
        let count = settled.count_of(Hart::new(hart));
        if !rows[hart as usize].says_on(count, &before[hart as usize]) {
            return false;
        }
    }
    true
}

fn rows_copied(rows: &[Row; HART_ROW]) -> Result<[Row; HART_ROW], Memory>
    ensures { IfOk result (λ copied. copied ≡ rows.now) }
{
    let alloc = rows[0].allocator();
    let mut copied = array::from_fn(|_| Row::new(alloc));
    for row in 0..HART_ROW {
        copied[row] = rows[row].copy()?;
    }
    Ok(copied)
}

impl EdgeLog {
    /// A log without edges, from these counts on.
    pub fn new(alloc: Global, start: Counts) -> EdgeLog
        ensures start { result.start ≡ start }
        ensures edges { edges_of result ≡ [] }
        ensures rows { (hart : ℕ) → row_of result hart ≡ [] }
    {
        EdgeLog {
            start,
            rows: array::from_fn(|_| Row::new(alloc)),
        }
    }

    /// An equal log.
    pub fn copy(&self) -> Result<EdgeLog, Memory>
        ensures { IfOk result (λ log. log ≡ self.now) }
    {
        let rows = rows_copied(&self.rows)?;
        Ok(EdgeLog {
            start: self.start,
            rows,
        })
    }

    /// Whether the logs are equal.
    pub fn same(&self, other: &EdgeLog) -> bool
        ensures { IsTrue result ↔ (self.now ≡ other.now) }
    {
        same_counts(self.start.as_slice(), other.start.as_slice())
            && same_rows(&self.rows, &other.rows)
    }

    /// Whether it goes on from the other log, when the harts had settled these counts: from there on it may say more.
    pub fn adds_later(&self, settled: &Counts, before: &EdgeLog) -> bool
        ensures { IsTrue result ↔ AddsLater before.now (count_at settled.now) self.now }
    {
        same_counts(self.start.as_slice(), before.start.as_slice())
            && rows_say_on(&self.rows, settled, &before.rows)
    }

    /// The counts that the log begins at.
    pub fn start(&self) -> Counts
        ensures { result ≡ self.now.start }
    {
        self.start
    }

    /// All edges of a hart.
    pub fn of_hart(&self, hart: Hart) -> &[Edge]
        ensures value { result.now ≡ row_of self.now hart }
        ensures rising { AllPairs ComesBefore result.now }
        ensures own { All (IsOfHart self.now.start hart) result.now }
    {
        self.rows[hart.index()].edges()
    }

    /// The edges of a hart at a count.
    pub fn at(&self, hart: Hart, count: Count) -> &[Edge]
        ensures value { result.now ≡ filter (λ e. e.at == count) (row_of self.now hart) }
        ensures rising { AllPairs (λ a b. a.other < b.other) result.now }
        ensures rules { IsLog self.now.start self.now.rows }
    {
        self.rows[hart.index()].at(count)
    }

    /// The first count, from this one on, at which the hart has an edge.
    pub fn next(&self, hart: Hart, count: Count) -> Option<Count>
        ensures found { IfSome result (λ n. (count ≤ n) × Any (λ e. e.at ≡ n) (row_of self.now hart)) }
        ensures first { IfSome result (λ n. All (λ e. count ≤ e.at → n ≤ e.at) (row_of self.now hart)) }
        ensures none { IfNone result (All (λ e. e.at < count) (row_of self.now hart)) }
        ensures rules { IsLog self.now.start self.now.rows }
    {
        self.rows[hart.index()].next(count)
    }

    /// Whether the edge may be added: it is between harts of the machine, at no step before the start or that of an earlier
    /// edge of its hart.
    pub fn may_add(&self, edge: &Edge) -> bool
        ensures { IsTrue result ↔ MayAdd self.now edge.now }
    {
        let harts = self.start.harts();
        if edge.hart.number() >= harts || edge.other.number() >= harts {
            return false;
        }
        let from = self.start.get(edge.hart);
        from <= edge.at && self.rows[edge.hart.index()].ends_by(edge.at)
    }

    /// Adds an edge, unless the start or an edge of the log implies it.
    pub fn add(&mut self, edge: Edge) -> Result<Added, Memory>
        requires { MayAdd self.old edge }
        ensures start { self.new.start ≡ self.old.start }
        // Implied exactly where the theory says so.
        ensures implied { (result ≡ Ok Added.Implied) ↔ IsImplied (edges_of self.old) (start_of self.old) (edge_as edge) }
        // New: it stands in its place, where an edge between the same harts at the same step makes way.
        ensures put { result ≡ Ok Added.New → IsPut (row_of self.old edge.hart) edge (row_of self.new edge.hart) }
        ensures others_kept { (hart : ℕ) → hart ≢ edge.hart → row_of self.new hart ≡ row_of self.old hart }
        ensures kept { (result ≡ Ok Added.New → ⊥) → self.new ≡ self.old }
        ensures latest { All (λ e. e.at ≤ edge.at) (row_of self.new edge.hart) }
        // What is kept says all that was added: the same order, closed cuts and schedules.
        ensures enough { IfOk result (λ _. (all : List edge_of_theory) → IsEnough (edges_of self.old) all (start_of self.old) → IsEnough (edges_of self.new)
            (all ++ edge_as edge ∷ []) (start_of self.new)) }
        ensures same_order { IfOk result (λ _. (all : List edge_of_theory) → IsEnough (edges_of self.old) all (start_of self.old) →
            IsSameOrder (edges_of self.new) (all ++ edge_as edge ∷ []) (start_of self.new)) }
    {
        if edge.after <= self.start.get(edge.other) {
            return Ok(Added::Implied);
        }
        let row = &mut self.rows[edge.hart.index()];
        row.add(edge)
    }

    /// Adds edges of one hart, in their order, or none of them.
    pub fn add_all(&mut self, hart: Hart, edges: &[Edge]) -> Result<(), Memory>
        requires own { All (λ e. e.hart ≡ hart) edges.now }
        requires each { All (λ e. MayAdd self.old e) edges.now }
        requires rising { AllPairs (λ a b. a.at ≤ b.at) edges.now }
        ensures start { self.new.start ≡ self.old.start }
        ensures err { OnErr result (self.new ≡ self.old) }
        ensures rules_before { IsLog self.old.start self.old.rows }
        ensures rules { IsLog self.new.start self.new.rows }
        // What adding them one after another leaves.
        ensures added { OnOk result (AreAdded self.old edges.now self.new) }
        ensures others_kept { (other : ℕ) → other ≢ hart → row_of self.new other ≡ row_of self.old other }
        ensures among { OnOk result ((e : edge_of_theory) → Contains (edges_of self.new) e → Contains (edges_of self.old ++ map edge_as edges.now) e) }
        // What is kept says all that was added: the same order, closed cuts and schedules.
        ensures enough { OnOk result ((all : List edge_of_theory) → IsEnough (edges_of self.old) all (start_of self.old) → IsEnough (edges_of self.new)
            (all ++ map edge_as edges.now) (start_of self.new)) }
        ensures same_order { OnOk result ((all : List edge_of_theory) → IsEnough (edges_of self.old) all (start_of self.old) → IsSameOrder (edges_of self.new)
            (all ++ map edge_as edges.now) (start_of self.new)) }
    {
        let row = &mut self.rows[hart.index()];
        row.add_all(&self.start, edges)
    }
}
