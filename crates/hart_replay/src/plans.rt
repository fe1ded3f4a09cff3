//! What a replay is to do.

ghost use Rattle.std.specs.Prelude.{◌≡◌, ℕ, length};
ghost use Rattle.ft_types.specs.Counts.{count_at};
ghost use Rattle.hart_replay.specs.Plans.{IsPlan, noted_in};

use edge_log::EdgeLog;
use ft_types::{Counts, Guest, Term};
use input_log::InputLog;
use std::marker::Model;

/// The part of a plan that is of one term.
pub struct PlannedLeg {
    /// The term.
    pub term: Term,
    /// The counts at which it begins.
    pub base: Counts,
    /// The counts at which it ends.
    pub ends: Counts,
    /// Which of its steps wait for which.
    pub edges: EdgeLog,
    /// What its steps are given.
    pub inputs: InputLog,
    /// For each hart the greatest number that is noted inside: outputs with lower numbers were released. 0 where none is.
    pub marks: Counts,
}

impl Drop for PlannedLeg {
    fn drop(self) {
        let PlannedLeg {
            term: _,
            base: _,
            ends: _,
            edges: _,
            inputs: _,
            marks: _,
        } = self;
    }
}

/// What a store asks of the harts of its guest, from boot on: a leg for each term.
pub struct Plan {
    guest: Guest,
    legs: Vec<PlannedLeg>,
}

impl Drop for Plan {
    fn drop(self) {
        let Plan { guest: _, legs: _ } = self;
    }
}

impl Model for Plan {
    ghost use Rattle.hart_replay.specs.Plans.{PlanView, IsPlan};

    ghost Value = { PlanView };

    ghost view = { λ p. record { guest = p.guest; legs = p.legs.items } };

    ghost invariant = { λ p. IsPlan p.guest p.legs.items };
}

impl Plan {
    /// The plan of these legs.
    pub(crate) fn new(guest: Guest, legs: Vec<PlannedLeg>) -> Plan
        requires { IsPlan guest legs.items }
        ensures guest { result.guest ≡ guest }
        ensures legs { result.legs ≡ legs.items }
    {
        Plan { guest, legs }
    }

    /// The guest whose plan it is.
    pub fn guest(&self) -> Guest
        ensures { result ≡ self.now.guest }
    {
        self.guest
    }

    /// For each hart the greatest number that is noted in one of its legs, or 0.
    pub fn marks(&self) -> Counts
        ensures harts { length result ≡ self.now.guest.harts }
        ensures greatest { (hart : ℕ) → count_at result hart ≡ noted_in self.now.legs hart }
    {
        let mut marks = Counts::zero(self.guest.harts());
        for leg in &self.legs {
            marks = marks.max(leg.marks);
        }
        marks
    }

    /// The legs, the oldest term first.
    pub fn legs(&self) -> &[PlannedLeg]
        ensures legs { result.now ≡ self.now.legs }
        ensures rules { IsPlan self.now.guest self.now.legs }
    {
        &self.legs
    }
}
