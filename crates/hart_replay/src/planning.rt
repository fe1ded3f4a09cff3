//! The plan of a store.

ghost use Rattle.std.specs.Prelude.{◌≡◌, ℕ, ◌++◌, List, All, IfOk, IfErr};
ghost use Rattle.log_join.specs.Cells.{One};
ghost use Rattle.log_join.specs.Stores.{opening_at, IsStore};
ghost use Rattle.closed_cut.specs.Chain.{LeadsTo, IsChain};
ghost use Rattle.closed_cut.specs.Position.{IsPosition};
ghost use Rattle.hart_replay.specs.Facts.{EndsInside, HasEdges, HasInputs, HasMarks};
ghost use Rattle.hart_replay.specs.Plans.{terms_of, BeginsAtBase, EndAt, IsPlan};

use crate::facts::add_hart;
use crate::fault::ReplayFault;
use crate::plans::{Plan, PlannedLeg};
use closed_cut::{Position, opening_of};
use edge_log::EdgeLog;
use fragment_codec::Opening;
use ft_types::{Counts, Hart, Memory};
use input_log::InputLog;
use log_join::Store;
use std::alloc::Global;
use std::option::Option;
use std::result::Result;

/// The leg of an opened term, as far as these counts.
fn leg_to(
    alloc: Global,
    store: &Store,
    opening: &Opening,
    ends: Counts,
) -> Result<PlannedLeg, Memory>
    requires rules { IsStore store.now }
    requires opening { opening_at store.now opening.now.term ≡ One opening.now }
    ensures term { IfOk result (λ leg. leg.term ≡ opening.now.term) }
    ensures base { IfOk result (λ leg. leg.base ≡ opening.now.base) }
    ensures ends { IfOk result (λ leg. leg.ends ≡ ends) }
    ensures start { IfOk result (λ leg. leg.edges.start ≡ leg.base) }
    ensures edges { IfOk result (λ leg. HasEdges store.now leg) }
    ensures inputs { IfOk result (λ leg. HasInputs store.now leg) }
    ensures marks { IfOk result (λ leg. HasMarks store.now leg) }
{
    let base = opening.base();
    let mut leg = PlannedLeg {
        term: opening.term(),
        base,
        ends,
        edges: EdgeLog::new(alloc, base),
        inputs: InputLog::new(alloc),
        marks: Counts::zero(base.harts()),
    };
    for number in 0..base.harts() {
        add_hart(store, &mut leg, Hart::new(number))?;
    }
    Ok(leg)
}

/// The legs of the walk to the position, the oldest term first.
fn legs_to(alloc: Global, store: &Store, position: &Position) -> Result<Vec<PlannedLeg>, Memory>
    requires { IsPosition store.now position.now }
    ensures terms { IfOk result (λ legs. LeadsTo store.now 0 (terms_of legs.items) position.now.term) }
    ensures bases { IfOk result (λ legs. All (BeginsAtBase store.now) legs.items) }
    ensures ends { IfOk result (λ legs. EndAt position.now.counts legs.items) }
    ensures cuts { IfOk result (λ legs. All (EndsInside store.now) legs.items) }
    ensures edges { IfOk result (λ legs. All (HasEdges store.now) legs.items) }
    ensures inputs { IfOk result (λ legs. All (HasInputs store.now) legs.items) }
    ensures marks { IfOk result (λ legs. All (HasMarks store.now) legs.items) }
    ensures plan { IfOk result (λ legs. IsPlan store.now.guest legs.items) }
{
    let mut legs = Vec::new(alloc);
    let mut term = position.term;
    let mut ends = position.counts;
    while let Some(opening) = opening_of(store, term) {
        legs.push(leg_to(alloc, store, opening, ends)?)?;
        ends = opening.base();
        term = opening.parent();
    }
    legs.reverse();
    Ok(legs)
}

/// What the store asks of the harts of its guest up to its position.
pub fn plan(alloc: Global, store: &Store, position: &Position) -> Result<Plan, ReplayFault>
    requires { IsPosition store.now position.now }
    ensures guest { IfOk result (λ plan. plan.guest ≡ store.now.guest) }

    // One leg for each term that the walk to the position went through, in order.
    ensures terms { IfOk result (λ plan. LeadsTo store.now 0 (terms_of plan.legs) position.now.term) }
    ensures chain { IfOk result (λ plan. (rest : List ℕ) × IsChain store.now (terms_of plan.legs ++ rest)) }

    // Each goes from its term's base to the next one's, the last one to the position's counts: a closed cut of what came.
    ensures bases { IfOk result (λ plan. All (BeginsAtBase store.now) plan.legs) }
    ensures ends { IfOk result (λ plan. EndAt position.now.counts plan.legs) }
    ensures cuts { IfOk result (λ plan. All (EndsInside store.now) plan.legs) }

    // Each has the store's edges and inputs inside, and the greatest number that is noted there of each hart.
    ensures edges { IfOk result (λ plan. All (HasEdges store.now) plan.legs) }
    ensures inputs { IfOk result (λ plan. All (HasInputs store.now) plan.legs) }
    ensures marks { IfOk result (λ plan. All (HasMarks store.now) plan.legs) }
    ensures fault { IfErr result (λ fault. fault ≡ ReplayFault.Memory) }
{
    let legs = legs_to(alloc, store, position)?;
    Ok(Plan::new(store.guest(), legs))
}
