//! What an audit says of a plan, beside an audit by the definition.

use crate::plain_audits::{Outcome, Pair, outcome_of};
use ft_types::Memory;
use guest_image::{Image, Machine};
use hart_replay::{Plan, ReplayFault, replay_plain};
use log_audit::{AuditFault, audit};
use std::alloc::Global;

/// What both audits say of a plan: the place of its number among those of a tally.
pub type Verdict = usize;

/// The one machine, and no pair.
pub const COVERED: Verdict = 0;
/// A pair that is found.
pub const UNCOVERED: Verdict = 1;
/// The same, of a replay that is stuck.
pub const STUCK_UNCOVERED: Verdict = 2;
/// Why the replay is stuck, and no pair.
pub const STUCK: Verdict = 3;
/// Not the same.
pub const UNLIKE: Verdict = 4;

/// Of how many cases which verdict is.
pub type Tally = [u32; 5];

/// Whether the fault is one of the pairs.
fn is_among(fault: AuditFault, pairs: &[Pair]) -> bool {
    for (page, one, other) in pairs {
        if fault == AuditFault::Uncovered(*page, *one, *other) {
            return true;
        }
    }
    false
}

/// What both say where the audit has this fault, and the replay that one.
fn verdict_no(fault: AuditFault, replay: Option<ReplayFault>, plain: &Outcome) -> Verdict {
    if is_among(fault, &plain.pairs) {
        return if plain.ended {
            UNCOVERED
        } else {
            STUCK_UNCOVERED
        };
    }
    match replay {
        Some(stuck) if plain.pairs.is_empty() && fault == AuditFault::Replay(stuck) => STUCK,
        _ => UNLIKE,
    }
}

/// What both say where the audit comes to this machine.
fn verdict_yes(machine: &Machine, plain: &Outcome) -> Verdict {
    if plain.pairs.is_empty() && plain.ended && machine.same(&plain.machine) {
        COVERED
    } else {
        UNLIKE
    }
}

/// Why the replay of the plan is stuck, where it is.
fn stuck_by(alloc: Global, image: &Image, plan: &Plan) -> Result<Option<ReplayFault>, Memory> {
    let fault = match replay_plain(alloc, image, plan) {
        Ok(_) => return Ok(None),
        Err(fault) => fault,
    };
    if fault == ReplayFault::Memory {
        return Err(Memory);
    }
    Ok(Some(fault))
}

/// What the audit says beside the plain one.
fn verdict_beside(
    alloc: Global,
    image: &Image,
    plan: &Plan,
    plain: &Outcome,
) -> Result<Verdict, Memory> {
    let fault = match audit(alloc, image, plan) {
        Ok(machine) => return Ok(verdict_yes(&machine, plain)),
        Err(fault) => fault,
    };
    if fault == AuditFault::Replay(ReplayFault::Memory) {
        return Err(Memory);
    }
    Ok(verdict_no(fault, stuck_by(alloc, image, plan)?, plain))
}

/// What both audits say of a plan of one term.
pub fn verdict_of(alloc: Global, image: &Image, plan: &Plan) -> Result<Verdict, Memory> {
    match plan.legs() {
        [leg] => verdict_beside(alloc, image, plan, &outcome_of(alloc, image, leg)?),
        _ => Err(Memory),
    }
}
