//! The right to a page.

ghost use Rattle.std.specs.Prelude.{◌≡◌, ◌≢◌, ℕ, ◌+◌, ◌<◌, ◌≤◌, ◌↔◌, Bool, false, true, AllPairs, Contains, length, slice_index, Option, Some, None};
ghost use Rattle.std.specs.Prelude.{slice_index_or, slice_set};
ghost use Rattle.ft_types.specs.Sets.{IsMember};
ghost use Rattle.ft_types.specs.declared.names.Want.{Want as WantName};
ghost use Rattle.smallvec.specs.SmallVec.{small_vec_len};
ghost use Rattle.edge_log.specs.EdgeLog.{edge_as};
ghost use Rattle.crew_pages.specs.Rights.{right_of, unused, holds, owns, has_it, stands, IsFree, count_of, greater, after_count, IsOwed, given, give_up, lower};
ghost use Rattle.crew_pages.specs.Rights.{nobody, Shared};
ghost use Rattle.crew_pages.specs.Answers.{OnHeldBy, OnGiven, IfHeldBy, IfGiven};

use crate::left_at::LeftAt;
use edge_log::Edge;
use ft_types::{Count, Counts, HART_LIMIT, HART_ROW, Hart, HartSet, Want};
use smallvec::SmallVec;
use std::alloc::Global;
use std::option::Option;

/// The last writer of a page.
#[derive(Clone, Copy, PartialEq, Eq)]
pub struct LastWriter {
    /// The hart that wrote.
    pub hart: Hart,
    /// Its count when it lost the right.
    pub count: Count,
}

/// Who may read and write a page, and who did.
#[derive(Clone, Copy, PartialEq, Eq)]
pub enum PageRight {
    /// Any number of harts may read.
    Shared {
        /// The last writer.
        since: Option<LastWriter>,
        /// The harts that may read.
        readers: HartSet,
        /// For each hart that read since then and left, its count on leaving.
        left: LeftAt,
    },
    /// One hart may read and write.
    Exclusive {
        /// That hart.
        owner: Hart,
        /// Its count when it got the right.
        at: Count,
        /// The last writer before it.
        since: Option<LastWriter>,
        /// For each hart that read since that one and left, its count on leaving.
        left: LeftAt,
    },
}

/// What a hart is answered that asks for a right.
#[derive(Drop)]
pub enum Ask {
    /// These harts hold a right that stands against it.
    HeldBy(HartSet),
    /// It has the right, and its next step owes these edges, by rising other hart.
    Given(SmallVec<Edge, HART_ROW>),
}

/// The last writer's count, where it is this hart.
fn count_since(since: &Option<LastWriter>, other: Hart) -> Option<Count>
    ensures { result ≡ count_of since.now other }
{
    match *since {
        None => None,
        Some(writer) => {
            if writer.hart == other {
                Some(writer.count)
            } else {
                None
            }
        }
    }
}

/// The greater of two counts that may be there.
fn greater_count(one: Option<Count>, other: Option<Count>) -> Option<Count>
    ensures { result ≡ greater one other }
{
    match (one, other) {
        (None, _) => other,
        (Some(_), None) => one,
        (Some(a), Some(b)) => Some(a.max(b)),
    }
}

/// The count of another hart that an asker for a shared page comes after.
fn count_before(since: &Option<LastWriter>, left: &LeftAt, want: Want, other: Hart) -> Option<Count>
    ensures { (readers : ℕ → Bool) → result ≡ after_count (Shared since.now readers (λ g. slice_index_or left.now g None)) want other }
{
    match want {
        Want::Read => count_since(since, other),
        Want::Write => greater_count(count_since(since, other), left.get(other)),
    }
}

/// From this hart on, an asker for a shared page comes after none.
fn reach_of(since: &Option<LastWriter>, left: &LeftAt) -> u8
    ensures limit { result ≤ HART_LIMIT }
    ensures beyond { (readers : ℕ → Bool) (want : WantName) (other : ℕ) → result ≤ other →
        after_count (Shared since.now readers (λ g. slice_index_or left.now g None)) want other ≡ None }
{
    match *since {
        None => left.reach(),
        Some(writer) => left.reach().max(writer.hart.number() + 1),
    }
}

impl PageRight {
    /// The right to a page that nobody used.
    pub fn new() -> PageRight
        ensures { right_of result ≡ unused }
    {
        PageRight::Shared {
            since: None,
            readers: HartSet::new(),
            left: LeftAt::none(),
        }
    }

    /// Whether the hart may read the page.
    pub fn holds(&self, hart: Hart) -> bool
        ensures { result ≡ holds (right_of self.now) hart }
    {
        match *self {
            PageRight::Shared { readers, .. } => readers.contains(hart),
            PageRight::Exclusive { owner, .. } => owner == hart,
        }
    }

    /// Whether the hart may write the page.
    pub fn owns(&self, hart: Hart) -> bool
        ensures { result ≡ owns (right_of self.now) hart }
    {
        match *self {
            PageRight::Shared { .. } => false,
            PageRight::Exclusive { owner, .. } => owner == hart,
        }
    }

    /// Whether the hart has what it wants.
    pub fn has(&self, hart: Hart, want: Want) -> bool
        ensures { result ≡ has_it (right_of self.now) hart want }
    {
        match want {
            Want::Read => self.holds(hart),
            Want::Write => self.owns(hart),
        }
    }

    /// Whether the other hart's right stands against what the hart wants.
    pub fn stands(&self, hart: Hart, want: Want, other: Hart) -> bool
        ensures { result ≡ stands (right_of self.now) hart want other }
    {
        match *self {
            PageRight::Shared { readers, .. } => match want {
                Want::Read => false,
                Want::Write => other != hart && readers.contains(other),
            },
            PageRight::Exclusive { owner, .. } => other != hart && owner == other,
        }
    }

    /// The other harts whose right stands against what the hart wants.
    pub fn against(&self, hart: Hart, want: Want) -> HartSet
        ensures { (g : ℕ) → IsMember result g ↔ (stands (right_of self.now) hart want g ≡ true) }
    {
        match *self {
            PageRight::Shared { readers, .. } => match want {
                Want::Read => HartSet::new(),
                Want::Write => readers.without(hart),
            },
            PageRight::Exclusive { owner, .. } => {
                if owner == hart {
                    HartSet::new()
                } else {
                    HartSet::of(owner)
                }
            }
        }
    }

    /// The edges that the hart owes at this count, which lacks what it wants.
    pub fn edges_owed(
        &self,
        alloc: Global,
        hart: Hart,
        want: Want,
        at: Count,
    ) -> SmallVec<Edge, HART_ROW>
        requires { has_it (right_of self.now) hart want ≡ false }
        ensures exact { (e : Edge) → Contains result.items e ↔ IsOwed (right_of self.now) hart want at (edge_as e) }
        ensures rising { AllPairs (λ a b. a.other < b.other) result.items }
        ensures inline { result.capacity ≡ HART_ROW }
    {
        let mut edges = SmallVec::new(alloc);
        let PageRight::Shared { since, left, .. } = self else {
            return edges;
        };
        for number in 0..reach_of(since, left) {
            let other = Hart::new(number);
            let before = count_before(since, left, want, other);
            if let Some(after) = before {
                if other != hart {
                    edges.push_reserved(Edge {
                        hart,
                        at,
                        other,
                        after,
                    });
                }
            }
        }
        edges
    }

    /// The hart is given what it asked for at this count.
    pub fn give(&mut self, hart: Hart, want: Want, at: Count)
        ensures { right_of self.new ≡ given (right_of self.old) hart want at }
    {
        match self {
            PageRight::Shared {
                since,
                readers,
                left,
            } => match want {
                Want::Read => *readers = readers.with(hart),
                Want::Write => {
                    *self = PageRight::Exclusive {
                        owner: hart,
                        at,
                        since: *since,
                        left: *left,
                    };
                }
            },
            PageRight::Exclusive { .. } => {}
        }
    }

    /// The hart asks for a right, at its present count. Takes no memory.
    pub fn ask(&mut self, alloc: Global, hart: Hart, want: Want, counts: &Counts) -> Ask
        requires { hart < length counts.now }
        ensures held { IfHeldBy result (λ harts. (g : ℕ) → IsMember harts g ↔ (stands (right_of self.old) hart want g ≡ true)) }
        ensures not_free { OnHeldBy result (IsFree (right_of self.old) hart want → ⊥) }
        ensures unchanged { OnHeldBy result (self.new ≡ self.old) }
        ensures free { OnGiven result (IsFree (right_of self.old) hart want) }
        ensures given { OnGiven result (right_of self.new ≡ given (right_of self.old) hart want (slice_index counts.now hart)) }
        ensures edges { IfGiven result (λ edges. (e : Edge) → Contains edges.items e ↔ IsOwed (right_of self.old) hart want (slice_index counts.now hart)
            (edge_as e)) }
        ensures rising { IfGiven result (λ edges. AllPairs (λ a b. a.other < b.other) edges.items) }
        ensures inline { IfGiven result (λ edges. edges.capacity ≡ HART_ROW) }
    {
        let against = self.against(hart, want);
        if !against.is_empty() {
            return Ask::HeldBy(against);
        }
        if self.has(hart, want) {
            return Ask::Given(SmallVec::new(alloc));
        }
        let at = counts.get(hart);
        let edges = self.edges_owed(alloc, hart, want, at);
        self.give(hart, want, at);
        Ask::Given(edges)
    }

    /// The hart, which holds the right, gives it up at this count. Takes no memory.
    pub fn give_up(&mut self, hart: Hart, count: Count)
        requires { holds (right_of self.old) hart ≡ true }
        ensures { right_of self.new ≡ give_up (right_of self.old) hart count }
    {
        match self {
            PageRight::Shared { readers, left, .. } => {
                *readers = readers.without(hart);
                left.leave(hart, count);
            }
            PageRight::Exclusive {
                owner,
                at,
                since,
                left,
            } => {
                if *at < count {
                    *self = PageRight::written(*owner, count, HartSet::new());
                } else {
                    left.leave(*owner, count);
                    *self = PageRight::Shared {
                        since: *since,
                        readers: HartSet::new(),
                        left: *left,
                    };
                }
            }
        }
    }

    /// The owner goes on as a reader from this count. Takes no memory.
    pub fn lower(&mut self, hart: Hart, count: Count)
        requires { owns (right_of self.old) hart ≡ true }
        ensures { right_of self.new ≡ lower (right_of self.old) hart count }
    {
        let readers = HartSet::of(hart);
        match self {
            PageRight::Shared { .. } => {}
            PageRight::Exclusive {
                owner,
                at,
                since,
                left,
            } => {
                if count > *at {
                    *self = PageRight::written(*owner, count, readers);
                } else {
                    *self = PageRight::Shared {
                        since: *since,
                        readers,
                        left: *left,
                    };
                }
            }
        }
    }

    /// The right after a writer's last step: nobody has left since.
    fn written(hart: Hart, count: Count, readers: HartSet) -> PageRight
        ensures { right_of result ≡ Shared (Some (record { hart = hart; count = count })) (λ g. slice_index_or readers g false) nobody }
    {
        PageRight::Shared {
            since: Some(LastWriter { hart, count }),
            readers,
            left: LeftAt::none(),
        }
    }
}
