//! The edges of one hart.

ghost use Rattle.std.specs.Prelude.{◌≡◌, ℕ, ◌+◌, ◌<◌, ◌≤◌, ◌==◌, ◌↔◌, All, Any, AllPairs, Ok, [], replicate, length, filter, slice_index, vec_len};
ghost use Rattle.std.specs.Prelude.{vec_capacity, IsTrue, OnOk, OnErr, IfOk, IfSome, IfNone, ◌&&◌};
ghost use Rattle.std.specs.Cmp.Lexicographic.{pointwise};
ghost use Rattle.std.specs.List.{AllWithin};
ghost use Rattle.std.specs.List.Sorted.{IsNonDecreasingBy};
ghost use Rattle.edge_log.specs.Rows.{ComesBefore, AsksAsMuch, SayOn, IsPut, SaysAsMuch, CannotComeBefore, TwinStands, IsRow, Takes, TakesAll};

use crate::{Added, Edge};
use ft_types::{Count, Counts, Memory};
use std::alloc::Global;
use std::marker::Model;
use std::option::Option;
use std::result::Result;

/// The edges of one hart, by rising step and other hart.
#[derive(Drop)]
pub(crate) struct Row {
    edges: Vec<Edge>,
    // The greatest `after` of the edges to each hart, 0 where there is none. It has a place for each hart that an edge was to.
    reached: Vec<Count>,
}

impl Model for Row {
    ghost use Rattle.edge_log.specs.Rows.{EdgesOfOne, IsRow};

    ghost Value = { EdgesOfOne };

    ghost view = { λ r. record { edges = r.edges.items; reached = r.reached.items } };

    ghost invariant = { λ r. IsRow r.edges.items r.reached.items };
}

fn comes_before(one: &Edge, other: &Edge) -> bool
    ensures { IsTrue result ↔ ComesBefore one.now other.now }
{
    one.at < other.at || (one.at == other.at && one.other.number() < other.other.number())
}

/// Where the edge belongs.
fn place_of(edges: &[Edge], edge: &Edge) -> usize
    requires { AllPairs ComesBefore edges.now }
    ensures within { result ≤ length edges.now }
    ensures before { AllWithin (λ e. ComesBefore e edge.now) edges.now 0 result }
    ensures behind { AllWithin (λ e. CannotComeBefore e edge.now) edges.now result (length edges.now) }
{
    let mut place = edges.len();
    while place > 0 {
        if comes_before(&edges[place - 1], edge) {
            break;
        }
        place -= 1;
    }
    place
}

/// Whether an edge to the same hart at the same step stands there.
fn has_twin(edges: &[Edge], place: usize, edge: &Edge) -> bool
    ensures { IsTrue result ↔ TwinStands edges.now place edge.now }
{
    match edges.get(place) {
        Some(there) => there.at == edge.at && there.other == edge.other,
        None => false,
    }
}

/// Puts the edge in its place, where an edge to the same hart at the same step makes way.
fn put(edges: &mut Vec<Edge>, edge: Edge)
    requires rising { AllPairs ComesBefore edges.old.items }
    requires last { All (λ e. e.at ≤ edge.at) edges.old.items }
    requires room { vec_len edges.old < vec_capacity edges.old }
    ensures put { IsPut edges.old.items edge edges.new.items }
    ensures one_more { vec_len edges.new ≤ vec_len edges.old + 1 }
    ensures capacity { vec_capacity edges.old ≤ vec_capacity edges.new }
{
    let place = place_of(edges, &edge);
    if has_twin(edges, place, &edge) {
        edges[place] = edge;
        return;
    }
    edges.insert(place, edge).unwrap();
}

/// Whether an edge to the same hart has asked for as much.
fn is_reached(reached: &[Count], edge: &Edge) -> bool
    ensures { IsTrue result ↔ edge.now.after ≤ slice_index reached.now edge.now.other }
{
    match reached.get(edge.other.index()) {
        Some(count) => edge.after <= *count,
        None => edge.after == 0,
    }
}

/// Sees to it that so many harts have a place.
fn reach_to(reached: &mut Vec<Count>, harts: usize) -> Result<(), Memory>
    ensures same { (hart : ℕ) → slice_index reached.new.items hart ≡ slice_index reached.old.items hart }
    ensures harts { OnOk result (harts ≤ length reached.new.items) }
{
    if reached.len() < harts {
        reached.resize(harts, 0)?;
    }
    Ok(())
}

/// Makes room for so many more edges, and for what they ask of so many harts.
fn make_room(
    edges: &mut Vec<Edge>,
    reached: &mut Vec<Count>,
    more: usize,
    harts: usize,
) -> Result<(), Memory>
    requires { IsRow edges.old.items reached.old.items }
    ensures row { IsRow edges.new.items reached.new.items }
    ensures edges { edges.new.items ≡ edges.old.items }
    ensures same { (hart : ℕ) → slice_index reached.new.items hart ≡ slice_index reached.old.items hart }
    ensures room { OnOk result (vec_len edges.new + more ≤ vec_capacity edges.new) }
    ensures harts { OnOk result (harts ≤ length reached.new.items) }
{
    edges.reserve(more)?;
    reach_to(reached, harts)
}

/// Puts an edge that none of them implies in its place, where there is room for one more.
fn put_new(edges: &mut Vec<Edge>, reached: &mut Vec<Count>, edge: Edge)
    requires row { IsRow edges.old.items reached.old.items }
    requires hart { edge.other < length reached.old.items }
    requires last { All (λ e. e.at ≤ edge.at) edges.old.items }
    requires more { slice_index reached.old.items edge.other < edge.after }
    requires room { vec_len edges.old < vec_capacity edges.old }
    ensures row { IsRow edges.new.items reached.new.items }
    ensures harts { length reached.new.items ≡ length reached.old.items }
    ensures put { IsPut edges.old.items edge edges.new.items }
    ensures one_more { vec_len edges.new ≤ vec_len edges.old + 1 }
    ensures capacity { vec_capacity edges.old ≤ vec_capacity edges.new }
{
    let to = edge.other.index();
    let after = edge.after;
    put(edges, edge);
    reached[to] = after;
}

/// Adds an edge, where there is room for one more, unless the start or one of them implies it.
fn add_one(edges: &mut Vec<Edge>, reached: &mut Vec<Count>, start: &Counts, edge: Edge)
    requires row { IsRow edges.old.items reached.old.items }
    requires harts { length start.now ≤ length reached.old.items }
    requires other { edge.other < length start.now }
    requires last { All (λ e. e.at ≤ edge.at) edges.old.items }
    requires room { vec_len edges.old < vec_capacity edges.old }
    ensures row { IsRow edges.new.items reached.new.items }
    ensures harts { length reached.new.items ≡ length reached.old.items }
    ensures takes { Takes start.now edges.old.items edge edges.new.items }
    ensures one_more { vec_len edges.new ≤ vec_len edges.old + 1 }
    ensures capacity { vec_capacity edges.old ≤ vec_capacity edges.new }
{
    if edge.after > start.get(edge.other) && !is_reached(reached.as_slice(), &edge) {
        put_new(edges, reached, edge);
    }
}

/// Adds edges in their order, where there is room for all, but those that the start or one of them implies.
fn add_each(edges: &mut Vec<Edge>, reached: &mut Vec<Count>, start: &Counts, more: &[Edge])
    requires row { IsRow edges.old.items reached.old.items }
    requires harts { length start.now ≤ length reached.old.items }
    requires others { All (λ e. e.other < length start.now) more.now }
    requires last { All (λ e. All (λ x. x.at ≤ e.at) edges.old.items) more.now }
    requires rising { AllPairs (λ a b. a.at ≤ b.at) more.now }
    requires room { vec_len edges.old + length more.now ≤ vec_capacity edges.old }
    ensures row { IsRow edges.new.items reached.new.items }
    ensures takes { TakesAll start.now edges.old.items more.now edges.new.items }
{
    for edge in more {
        add_one(edges, reached, start, *edge);
    }
}

/// Where the edges of this count and later ones begin.
fn first_from(edges: &[Edge], count: Count) -> usize
    requires { IsNonDecreasingBy (λ e. e.at) edges.now }
    ensures within { result ≤ length edges.now }
    ensures before { AllWithin (λ e. e.at < count) edges.now 0 result }
    ensures from { AllWithin (λ e. count ≤ e.at) edges.now result (length edges.now) }
{
    edges.partition_point(|e| e.at < count)
}

/// Where the edges of later counts begin.
fn first_after(edges: &[Edge], count: Count) -> usize
    requires { IsNonDecreasingBy (λ e. e.at) edges.now }
    ensures within { result ≤ length edges.now }
    ensures upto { AllWithin (λ e. e.at ≤ count) edges.now 0 result }
    ensures after { AllWithin (λ e. count < e.at) edges.now result (length edges.now) }
{
    edges.partition_point(|e| e.at <= count)
}

fn same_edges(edges: &[Edge], others: &[Edge]) -> bool
    ensures { result ≡ pointwise (λ a b. a.hart == b.hart && a.at == b.at && a.other == b.other && a.after == b.after) edges.now others.now }
{
    edges == others
}

/// Whether one of the edges asks for as much.
fn says_as_much(edges: &[Edge], edge: &Edge) -> bool
    ensures { IsTrue result ↔ Any (λ by. AsksAsMuch by edge.now) edges.now }
{
    for by in edges {
        if by.other == edge.other && by.at <= edge.at && edge.after <= by.after {
            return true;
        }
    }
    false
}

/// Whether one of the edges asks for as much as each of these.
fn says_all(edges: &[Edge], said: &[Edge]) -> bool
    ensures { IsTrue result ↔ All (λ e. Any (λ by. AsksAsMuch by e) edges.now) said.now }
{
    for edge in said {
        if !says_as_much(edges, edge) {
            return false;
        }
    }
    true
}

/// Whether the edges say on from these, which were there when the hart was at this count.
fn says_on(edges: &[Edge], count: Count, before: &[Edge]) -> bool
    requires rising { IsNonDecreasingBy (λ e. e.at) edges.now }
    requires rising_before { IsNonDecreasingBy (λ e. e.at) before.now }
    ensures { IsTrue result ↔ SayOn before.now count edges.now }
{
    let kept = first_from(before, count);
    same_edges(&edges[..first_from(edges, count)], &before[..kept])
        && says_all(edges, &before[kept..])
}

impl Row {
    /// A row without edges.
    pub(crate) fn new(alloc: Global) -> Row
        ensures edges { result.edges ≡ [] }
    {
        Row {
            edges: Vec::new(alloc),
            reached: Vec::new(alloc),
        }
    }

    /// Where its edges lie.
    pub(crate) fn allocator(&self) -> Global {
        *self.edges.allocator()
    }

    /// An equal row.
    pub(crate) fn copy(&self) -> Result<Row, Memory>
        ensures { IfOk result (λ r. r ≡ self.now) }
    {
        Ok(Row {
            edges: self.edges.clone()?,
            reached: self.reached.clone()?,
        })
    }

    /// Whether both rows have the same edges.
    pub(crate) fn has_edges_of(&self, other: &Row) -> bool
        ensures { IsTrue result ↔ (self.now.edges ≡ other.now.edges) }
    {
        same_edges(self.edges.as_slice(), other.edges.as_slice())
    }

    /// Whether it says on from the other, from this count on.
    pub(crate) fn says_on(&self, count: Count, before: &Row) -> bool
        ensures { IsTrue result ↔ SayOn before.now.edges count self.now.edges }
    {
        says_on(self.edges.as_slice(), count, before.edges.as_slice())
    }

    /// All edges.
    pub(crate) fn edges(&self) -> &[Edge]
        ensures value { result.now ≡ self.now.edges }
        ensures rising { AllPairs ComesBefore result.now }
    {
        self.edges.as_slice()
    }

    /// The edges of a count.
    pub(crate) fn at(&self, count: Count) -> &[Edge]
        ensures value { result.now ≡ filter (λ e. e.at == count) self.now.edges }
        ensures rising { AllPairs (λ a b. a.other < b.other) result.now }
    {
        let edges = self.edges.as_slice();
        let rest = &edges[first_from(edges, count)..];
        &rest[..first_after(rest, count)]
    }

    /// The first count, from this one on, that has an edge.
    pub(crate) fn next(&self, count: Count) -> Option<Count>
        ensures found { IfSome result (λ n. (count ≤ n) × Any (λ e. e.at ≡ n) self.now.edges) }
        ensures first { IfSome result (λ n. All (λ e. count ≤ e.at → n ≤ e.at) self.now.edges) }
        ensures none { IfNone result (All (λ e. e.at < count) self.now.edges) }
    {
        let edges = self.edges.as_slice();
        let place = first_from(edges, count);
        if place < edges.len() {
            Some(edges[place].at)
        } else {
            None
        }
    }

    /// Whether no edge is of a later count.
    pub(crate) fn ends_by(&self, count: Count) -> bool
        ensures { IsTrue result ↔ All (λ e. e.at ≤ count) self.now.edges }
    {
        let edges = self.edges.as_slice();
        if edges.len() == 0 {
            return true;
        }
        edges[edges.len() - 1].at <= count
    }

    /// Adds an edge, no earlier than the others, unless one of them says as much.
    pub(crate) fn add(&mut self, edge: Edge) -> Result<Added, Memory>
        requires last { All (λ e. e.at ≤ edge.at) self.old.edges }
        requires some { 0 < edge.after }
        ensures implied { (result ≡ Ok Added.Implied) ↔ SaysAsMuch self.old.edges edge }
        ensures put { result ≡ Ok Added.New → IsPut self.old.edges edge self.new.edges }
        ensures kept { (result ≡ Ok Added.New → ⊥) → self.new.edges ≡ self.old.edges }
    {
        if is_reached(self.reached.as_slice(), &edge) {
            return Ok(Added::Implied);
        }
        let harts = edge.other.index() + 1;
        make_room(&mut self.edges, &mut self.reached, 1, harts)?;
        put_new(&mut self.edges, &mut self.reached, edge);
        Ok(Added::New)
    }

    /// Adds edges, no earlier than the others, in their order, but those that the start or another implies, or none of them.
    pub(crate) fn add_all(&mut self, start: &Counts, edges: &[Edge]) -> Result<(), Memory>
        requires others { All (λ e. e.other < length start.now) edges.now }
        requires last { All (λ e. All (λ x. x.at ≤ e.at) self.old.edges) edges.now }
        requires rising { AllPairs (λ a b. a.at ≤ b.at) edges.now }
        ensures takes { OnOk result (TakesAll start.now self.old.edges edges.now self.new.edges) }
        ensures err { OnErr result (self.new.edges ≡ self.old.edges) }
    {
        let harts = start.harts() as usize;
        make_room(&mut self.edges, &mut self.reached, edges.len(), harts)?;
        add_each(&mut self.edges, &mut self.reached, start, edges);
        Ok(())
    }
}
