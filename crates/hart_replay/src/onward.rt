//! Whether a plan goes on where another one ends.

ghost use Rattle.std.specs.Prelude.{◌≡◌, ◌↔◌, ◌<◌, ◌≤◌, ℕ, IsTrue};
ghost use Rattle.ft_types.specs.Counts.{count_at};
ghost use Rattle.input_log.specs.Inputs.{HearsMore, inputs_of};
ghost use Rattle.hart_replay.specs.GoingOn.{BeginsLeg, GoOnFrom, IsFront, but_notes};

use crate::plans::PlannedLeg;
use ft_types::{HART_LIMIT, Hart, same_counts};

/// Whether the legs are equal, but for what they note.
fn same_leg(leg: &PlannedLeg, other: &PlannedLeg) -> bool
    ensures { IsTrue result ↔ (but_notes other.now ≡ but_notes leg.now) }
{
    leg.term == other.term
        && same_counts(leg.base.as_slice(), other.base.as_slice())
        && same_counts(leg.ends.as_slice(), other.ends.as_slice())
        && leg.edges.same(&other.edges)
        && leg.inputs.same(&other.inputs)
}

/// Whether the first legs begin the second, but for what they note.
pub fn begin_legs(first: &[PlannedLeg], second: &[PlannedLeg]) -> bool
    ensures { IsTrue result ↔ IsFront first.now second.now }
{
    if first.len() > second.len() {
        return false;
    }
    for i in 0..first.len() {
        if !same_leg(&first[i], &second[i]) {
            return false;
        }
    }
    true
}

/// Whether no hart's end is above the other leg's.
fn ends_within(leg: &PlannedLeg, later: &PlannedLeg) -> bool
    ensures { IsTrue result ↔ ((hart : ℕ) → hart < HART_LIMIT → count_at leg.now.ends hart ≤ count_at later.now.ends hart) }
{
    for number in 0..HART_LIMIT {
        let hart = Hart::new(number);
        if leg.ends.count_of(hart) > later.ends.count_of(hart) {
            return false;
        }
    }
    true
}

/// Whether each hart of the second leg is given what it was given in the first, and the rest at that one's ends or later.
fn hear_more(leg: &PlannedLeg, later: &PlannedLeg) -> bool
    ensures { IsTrue result ↔ ((hart : ℕ) → hart < HART_LIMIT →
        HearsMore (inputs_of leg.now.inputs hart) (count_at leg.now.ends hart) (inputs_of later.now.inputs hart)) }
{
    for number in 0..HART_LIMIT {
        let hart = Hart::new(number);
        if !later
            .inputs
            .hears_more(hart, leg.ends.count_of(hart), &leg.inputs)
        {
            return false;
        }
    }
    true
}

/// Whether the first leg begins the second.
fn begins_leg(leg: &PlannedLeg, later: &PlannedLeg) -> bool
    ensures { IsTrue result ↔ BeginsLeg leg.now later.now }
{
    later.term == leg.term
        && same_counts(later.base.as_slice(), leg.base.as_slice())
        && ends_within(leg, later)
        && later.edges.adds_later(&leg.ends, &leg.edges)
        && hear_more(leg, later)
}

/// Whether the second legs go on from the first.
pub fn go_on_from(old: &[PlannedLeg], new: &[PlannedLeg]) -> bool
    ensures { IsTrue result ↔ GoOnFrom old.now new.now }
{
    if old.is_empty() || new.len() < old.len() {
        return false;
    }
    let last = old.len() - 1;
    begin_legs(&old[..last], new) && begins_leg(&old[last], &new[last])
}
