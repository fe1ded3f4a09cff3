//! What a book does with the log: a replaying one obeys it.

ghost use Rattle.std.specs.Prelude.{◌≡◌, ◌<◌, ◌≤◌, ◌^◌, ◌↔◌, ℕ, All, Any, AllPairs, List, [], length, filter, slice_index, slice_get, Option, Some, ◌⊎◌};
ghost use Rattle.std.specs.Prelude.{IsTrue, OnOk, OnErr, IfOk, IfSome};
ghost use Rattle.book_modes.specs.machinery.Words.{count_at, counts_of, edges_of, Heard, heard_in, IsHolder, IsMember, IsStop, LeaseView, LentView, MachineState};
ghost use Rattle.book_modes.specs.machinery.Words.{MayGoTo, open_at, OpenView, stands_against, whole};
ghost use Rattle.hart_lease.specs.OpenLeases.{right_of};
ghost use Rattle.interleaving.specs.Log.{Edge as edge_of_theory, HasUnmet};
ghost use Rattle.smallvec.specs.SmallVec.{SmallVec as small_vec};
ghost use Rattle.book_modes.specs.declared.keep.Keep.{Keep as keep_told};
ghost use Rattle.hart_lease.specs.declared.asked.Asked.{Asked as asked_for};
ghost use Rattle.hart_lease.specs.declared.taken.Taken.{Taken as taken_since};
ghost use Rattle.edge_log.specs.declared.Edge.{Edge as edge_found};
ghost use Rattle.book_modes.specs.Obeying.{GoesOut, EachHears};
ghost use Rattle.book_modes.specs.Modes.{Fact, IsAsking, IsGiven, IsSettling, IsEnding, KeepsLending, KeepsGiving, KeepsSettling, SettlesHeard, KeepsEnding};

use crate::due::inputs_copied;
use crate::keep::Keep;
use crate::settled::steps_taken;
use edge_log::{Edge, EdgeLog};
use ft_types::{
    COUNT_LIMIT, Count, Counts, HART_LIMIT, HART_ROW, Hart, HartSet, Memory, PageNo, Want,
    same_counts,
};
use guest_image::Machine;
use hart_lease::{Asked, Lease, Lent, OpenLease, Taken};
use input_log::InputLog;
use smallvec::SmallVec;
use std::alloc::Global;
use std::marker::Model;
use std::mem;

/// What a replaying book has to obey.
pub struct Leg {
    /// The count at which each hart ends.
    pub ends: Counts,
    /// Which steps wait for which.
    pub edges: EdgeLog,
    /// What each hart is given at which count.
    pub inputs: InputLog,
}

impl Drop for Leg {
    fn drop(self) {
        let Leg {
            ends: _,
            edges: _,
            inputs: _,
        } = self;
    }
}

/// The lesser of the two counts, where the second is there.
fn lesser(count: Count, other: Option<Count>) -> Count
    ensures at_most { result ≤ count }
    ensures least { IfSome other (λ n. result ≤ n) }
    ensures one { (result ≡ count) ⊎ (other ≡ Some result) }
{
    match other {
        Some(other) if other < count => other,
        _ => count,
    }
}

impl Leg {
    /// An equal leg.
    pub fn copy(&self) -> Result<Leg, Memory>
        ensures { IfOk result (λ leg. leg ≡ self.now) }
    {
        Ok(Leg {
            ends: self.ends,
            edges: self.edges.copy()?,
            inputs: self.inputs.copy()?,
        })
    }

    /// Whether the legs are equal.
    pub fn same(&self, other: &Leg) -> bool
        ensures { IsTrue result ↔ (self.now ≡ other.now) }
    {
        same_counts(self.ends.as_slice(), other.ends.as_slice())
            && self.edges.same(&other.edges)
            && self.inputs.same(&other.inputs)
    }

    /// The count that a lease of the hart goes to, which is at this count.
    pub fn stop(&self, hart: Hart, count: Count) -> Count
        requires { count < count_at self.now.ends hart }
        ensures value { IsStop (edges_of self.now.edges) (heard_in self.now.inputs) (count_at self.now.ends hart) hart count result }
        ensures limit { result < COUNT_LIMIT }
    {
        let end = self.ends.count_of(hart);
        let next_edge = self.edges.next(hart, count + 1);
        let next_input = self.inputs.next(hart, count + 1);
        lesser(lesser(end, next_edge), next_input)
    }
}

/// A book's mode, with what only that mode has.
pub trait Mode: Drop {
    /// The counts that no hart goes past.
    ghost stops: { Self → List ℕ };

    /// The edges that the harts wait for.
    ghost obeyed: { Self → List edge_of_theory };

    /// The inputs that the harts were given at the settled steps.
    ghost heard: { Self → Heard };

    /// What it keeps of a book's start, machine, journal and open leases.
    ghost keeps: { Self → Fact };

    /// What a hart at a count is lent with, and what that makes of the mode.
    ghost lends: { Self → ℕ → ℕ → LentView → Self → Type 0 };

    /// The hart is in the asker's way.
    ghost is_holder: { Self → List (Option OpenView) → asked_for → ℕ → Type 0 };

    /// These are the edges that the asker's next step owes, by the settled counts.
    ghost owes: { Self → (ℕ → ℕ) → asked_for → List edge_found → Type 0 };

    /// What giving the asker its right makes of the mode.
    ghost gives: { Self → (ℕ → ℕ) → asked_for → Self → Type 0 };

    /// What a lease that comes back makes of it, with what its hart keeps.
    ghost settles: { Self → LeaseView → keep_told → Self → Type 0 };

    /// What a lease of a hart with a settled count makes of it, which took these pages, and ends without its steps.
    ghost ends: { Self → ℕ → ℕ → List (Option taken_since) → Self → Type 0 };

    /// The mode of a book that goes on from one of another mode, where the harts had settled the first counts, and the second now.
    ghost goes_on: { Self → (ℕ → ℕ) → Self → (ℕ → ℕ) → Type 0 };

    /// An equal mode.
    fn copy(&self) -> Result<Self, Memory>
        ensures { IfOk result (λ mode. mode ≡ self.now) };

    /// Whether it goes on so from the other.
    fn goes_on_from(&self, now: &Counts, settled: &Counts, before: &Self) -> bool
        ensures { IsTrue result ↔ goes_on before.now (count_at settled.now) self.now (count_at now.now) };

    /// The count that the hart does not go past.
    fn limit(&self, hart: Hart) -> Count
        ensures value { result ≡ count_at (stops self.now) hart }
        ensures limit { result < COUNT_LIMIT };

    /// Whether an edge of the hart's next step waits for steps that the machine has not taken.
    fn is_open(&self, hart: Hart, machine: &Machine) -> bool
        requires { hart < length machine.now.harts }
        ensures { IsTrue result ↔ HasUnmet (obeyed self.now) (counts_of machine.now) hart };

    /// What the hart, which is at this count, goes out with. Takes no memory.
    fn lend(&mut self, alloc: Global, hart: Hart, count: Count) -> Lent
        requires { count < count_at (stops self.old) hart }
        ensures lent { lends self.old hart count result self.new }
        ensures stops { stops self.new ≡ stops self.old }
        ensures obeyed { obeyed self.new ≡ obeyed self.old }
        ensures heard { heard self.new ≡ heard self.old }
        ensures within { result.stop ≤ count_at (stops self.old) hart }
        ensures limit { result.stop < COUNT_LIMIT }
        ensures unhindered { (now : ℕ → ℕ) → now hart ≡ count → (HasUnmet (obeyed self.old) now hart → ⊥) → MayGoTo (obeyed self.old) now hart result.stop }
        ensures kept { KeepsLending (keeps self.old) (keeps self.new) hart count result };

    /// The other harts whose open leases are in the asker's way.
    fn holders(&self, leases: &[Option<OpenLease>; HART_ROW], asked: &Asked) -> HartSet
        requires { (machine : MachineState) × IsAsking (keeps self.now) machine leases.now asked.now }
        ensures { (g : ℕ) → IsMember result g ↔ is_holder self.now leases.now asked.now g };

    /// The edges that the asker's next step owes, where no open lease is in its way.
    fn edges_owed(&self, alloc: Global, settled: &Counts, asked: &Asked) -> SmallVec<Edge, HART_ROW>
        requires { IsGiven (keeps self.now) (is_holder self.now) settled.now asked.now }
        ensures { owes self.now (count_at settled.now) asked.now result.items };

    /// Gives the asker the right, where no open lease is in its way.
    fn give(&mut self, alloc: Global, settled: &Counts, asked: &Asked)
        requires { IsGiven (keeps self.old) (is_holder self.old) settled.now asked.now }
        ensures given { gives self.old (count_at settled.now) asked.now self.new }
        ensures stops { stops self.new ≡ stops self.old }
        ensures obeyed { obeyed self.new ≡ obeyed self.old }
        ensures heard { heard self.new ≡ heard self.old }
        ensures kept { (found : List edge_found) → owes self.old (count_at settled.now) asked.now found → KeepsGiving (keeps self.old) (is_holder self.old)
            (keeps self.new) settled.now asked.now found };

    /// Takes in what a lease that comes back tells, and what its hart keeps of its rights.
    fn settle(&mut self, lease: &Lease, keep: Keep) -> Result<(), Memory>
        // Whatever outputs the hart had before.
        requires { (earlier : List (ℕ × ℕ)) × IsSettling (keeps self.old) (whole earlier lease.now) }
        ensures settled { OnOk result (settles self.old lease.now keep self.new) }
        ensures stops { stops self.new ≡ stops self.old }
        ensures obeyed { obeyed self.new ≡ obeyed self.old }
        ensures heard { OnOk result ((earlier : List (ℕ × ℕ)) → SettlesHeard (keeps self.old) (heard self.old) (heard self.new) (whole earlier lease.now)) }
        ensures kept { OnOk result ((earlier : List (ℕ × ℕ)) → KeepsSettling (keeps self.old) (keeps self.new) (whole earlier lease.now)) }
        ensures err { OnErr result (self.new ≡ self.old) };

    /// Gives up what a lease of the hart took, which ends without its steps, at the hart's settled count.
    fn end(&mut self, hart: Hart, count: Count, taken: &[Option<Taken>])
        requires { IsEnding (keeps self.old) hart count taken.now }
        ensures ended { ends self.old hart count taken.now self.new }
        ensures stops { stops self.new ≡ stops self.old }
        ensures obeyed { obeyed self.new ≡ obeyed self.old }
        ensures heard { heard self.new ≡ heard self.old }
        ensures kept { KeepsEnding (keeps self.old) (keeps self.new) hart count taken.now };
}

/// The log is obeyed.
pub struct Replaying {
    /// Boxed, so that a swap is of a pointer.
    leg: Box<Leg>,
}

impl Drop for Replaying {
    fn drop(self) {
        let Replaying { leg: _ } = self;
    }
}

impl Model for Replaying {
    ghost use Rattle.book_modes.specs.declared.mode.Leg.{Leg};

    ghost Value = { Leg };

    ghost view = { λ r. r.leg.value };
}

impl Replaying {
    /// The mode that obeys a leg.
    pub fn new(leg: Box<Leg>) -> Replaying
        ensures { result ≡ leg.value }
    {
        Replaying { leg }
    }

    /// Obeys another leg; the one that it obeyed comes in that one's place.
    pub fn swap(&mut self, leg: &mut Box<Leg>)
        ensures obeys { self.new ≡ leg.old.value }
        ensures obeyed { leg.new.value ≡ self.old }
    {
        mem::swap(&mut self.leg, leg);
    }

    /// What is obeyed.
    pub fn leg(&self) -> &Leg
        ensures { result.now ≡ self.now }
    {
        &self.leg
    }
}

/// Whether one of the edges waits for steps that the machine has not taken.
fn is_unmet(edges: &[Edge], machine: &Machine) -> bool
    ensures { IsTrue result ↔ Any (λ e. counts_of machine.now e.other < e.after) edges.now }
{
    for edge in edges {
        if steps_taken(machine, edge.other) < edge.after {
            return true;
        }
    }
    false
}

fn stands_in_the_way(held: Option<Want>, asked: Want) -> bool
    ensures { result ≡ stands_against held asked }
{
    match held {
        None => false,
        Some(Want::Write) => true,
        Some(Want::Read) => asked == Want::Write,
    }
}

fn held_by(lease: &Option<OpenLease>, page: PageNo) -> Option<Want>
    ensures { result ≡ right_of lease.now page }
{
    match lease {
        None => None,
        Some(open) => open.right(page),
    }
}

/// Whether the hart's open lease is in the asker's way.
fn is_holder(leases: &[Option<OpenLease>; HART_ROW], asked: &Asked, hart: Hart) -> bool
    ensures { IsTrue result ↔ IsHolder leases.now asked.now.hart asked.now.page asked.now.want hart }
{
    if hart == asked.hart {
        return false;
    }
    stands_in_the_way(held_by(&leases[hart.index()], asked.page), asked.want)
}

impl Mode for Replaying {
    ghost stops = { λ r. r.ends };

    ghost obeyed = { λ r. edges_of r.edges };

    ghost heard = { λ r. heard_in r.inputs };

    ghost keeps = { λ r start machine journal leases. EachHears (heard_in r.inputs) machine leases };

    ghost lends = { λ r hart count lent new. (new ≡ r) × GoesOut r hart count lent };

    ghost is_holder = { λ r leases asked other. IsHolder leases asked.hart asked.page asked.want other };

    ghost owes = { λ r settled asked found. found ≡ [] };

    ghost gives = { λ r settled asked new. new ≡ r };

    ghost settles = { λ r lease keep new. new ≡ r };

    ghost ends = { λ r hart count taken new. new ≡ r };

    ghost goes_on = { λ r settled new now. new ≡ r };

    fn copy(&self) -> Result<Replaying, Memory> {
        let leg = Box::new(*Box::allocator(&self.leg), self.leg.copy()?)?;
        Ok(Replaying { leg })
    }

    fn goes_on_from(&self, _now: &Counts, _settled: &Counts, before: &Replaying) -> bool {
        self.leg.same(&before.leg)
    }

    fn limit(&self, hart: Hart) -> Count {
        self.leg.ends.count_of(hart)
    }

    fn is_open(&self, hart: Hart, machine: &Machine) -> bool {
        let count = machine.hart(hart).count();
        is_unmet(self.leg.edges.at(hart, count), machine)
    }

    fn lend(&mut self, alloc: Global, hart: Hart, count: Count) -> Lent {
        let inputs = inputs_copied(alloc, self.leg.inputs.at(hart, count));
        let stop = self.leg.stop(hart, count);
        Lent::new(stop, inputs, SmallVec::new(alloc))
    }

    fn holders(&self, leases: &[Option<OpenLease>; HART_ROW], asked: &Asked) -> HartSet {
        let mut harts = HartSet::new();
        for number in 0..HART_LIMIT {
            let hart = Hart::new(number);
            if is_holder(leases, asked, hart) {
                harts = harts.with(hart);
            }
        }
        harts
    }

    fn edges_owed(
        &self,
        alloc: Global,
        _settled: &Counts,
        _asked: &Asked,
    ) -> SmallVec<Edge, HART_ROW> {
        SmallVec::new(alloc)
    }

    fn give(&mut self, _alloc: Global, _settled: &Counts, _asked: &Asked) {}

    fn settle(&mut self, _lease: &Lease, _keep: Keep) -> Result<(), Memory> {
        Ok(())
    }

    fn end(&mut self, _hart: Hart, _count: Count, _taken: &[Option<Taken>]) {}
}
