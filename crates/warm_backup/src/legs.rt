//! Legs that are left behind.

ghost use Rattle.std.specs.Prelude.{◌≡◌, ◌-◌, ◌≤◌, ℕ, All, length, take, IfOk};
ghost use Rattle.ft_types.specs.declared.names.TheConstants.{HART_LIMIT};
ghost use Rattle.ft_types.specs.Counts.{count_at};
ghost use Rattle.hart_replay.specs.Plans.{noted_in};

use ft_types::{Counts, Memory};
use hart_replay::PlannedLeg;
use std::alloc::Global;
use std::result::Result;

/// An equal leg.
pub(crate) fn copy_leg(leg: &PlannedLeg) -> Result<PlannedLeg, Memory>
    ensures { IfOk result (λ copy. copy ≡ leg.now) }
{
    Ok(PlannedLeg {
        term: leg.term,
        base: leg.base,
        ends: leg.ends,
        edges: leg.edges.copy()?,
        inputs: leg.inputs.copy()?,
        marks: leg.marks,
    })
}

/// The legs but the last.
pub(crate) fn front_of(alloc: Global, legs: &[PlannedLeg]) -> Result<Vec<PlannedLeg>, Memory>
    ensures { IfOk result (λ front. front.items ≡ take (length legs.now - 1) legs.now) }
{
    let mut front = Vec::new(alloc);
    for number in 1..legs.len() {
        front.push(copy_leg(&legs[number - 1])?)?;
    }
    Ok(front)
}

/// For each hart the greatest number that is noted in these legs, or 0.
pub(crate) fn marks_of(harts: u8, legs: &[PlannedLeg]) -> Counts
    requires harts { harts ≤ HART_LIMIT }
    requires marks { All (λ leg. length leg.marks ≡ harts) legs.now }
    ensures harts { length result ≡ harts }
    ensures greatest { (hart : ℕ) → count_at result hart ≡ noted_in legs.now hart }
{
    let mut marks = Counts::zero(harts);
    for leg in legs {
        marks = marks.max(leg.marks);
    }
    marks
}
