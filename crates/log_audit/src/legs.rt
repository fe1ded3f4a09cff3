//! Legs that are audited.

ghost use Rattle.std.specs.Prelude.{◌≡◌, ◌<◌, ◌≤◌, ℕ, length, IfOk, IfSome, IfNone};
ghost use Rattle.ft_types.specs.declared.names.TheConstants.{HART_LIMIT};
ghost use Rattle.edge_log.specs.EdgeLog.{IsLog};
ghost use Rattle.hart_replay.specs.Plans.{IsLeg};
ghost use Rattle.log_audit.specs.machinery.Covered.{IsOn};
ghost use Rattle.log_audit.specs.machinery.Turns.{TurnsOf, HasStopped, IsClash, Ends};
ghost use Rattle.hart_lease.specs.Runs.{counts_of};
ghost use Rattle.ft_types.specs.Counts.{count_at};

use crate::harts::{Clash, Harts, Turn};
use ft_types::{Hart, Memory};
use guest_image::Machine;
use hart_replay::PlannedLeg;
use std::alloc::Global;
use std::result::Result;

/// What became of a leg.
pub(crate) enum Ended {
    /// None of its harts can go on from here.
    Stopped(Machine),
    /// Two of its steps clash.
    Clashed(Clash),
}

/// Lets each hart go on in turn, where it may, until one's step clashes.
fn go_round(harts: &mut Harts, leg: &PlannedLeg, many: u8) -> Result<Turn, Memory>
    requires many { many ≡ length harts.old.harts }
    requires few { many ≤ HART_LIMIT }
    requires leg { IsLeg (length harts.old.start.harts) leg.now }
    requires on { IsOn leg.now harts.old }
    ensures turns { IfOk result (λ turn. TurnsOf leg.now many harts.old turn harts.new) }
{
    let mut turn = Turn::Held;
    for number in 0..many {
        match harts.go(leg, Hart::new(number))? {
            Turn::Held => {}
            Turn::Went => turn = Turn::Went,
            Turn::Clashed(clash) => return Ok(Turn::Clashed(clash)),
        }
    }
    Ok(turn)
}

/// Lets the harts go on until none can, or one's step clashes.
fn go_on(harts: &mut Harts, leg: &PlannedLeg, many: u8) -> Result<Option<Clash>, Memory>
    requires many { many ≡ length harts.old.harts }
    requires few { many ≤ HART_LIMIT }
    requires leg { IsLeg (length harts.old.start.harts) leg.now }
    requires on { IsOn leg.now harts.old }
    ensures stopped { IfOk result (λ clash. IfNone clash (HasStopped leg.now many harts.old harts.new)) }
    ensures clash { IfOk result (λ clash. IfSome clash (IsClash leg.now harts.old.start)) }
{
    loop {
        match go_round(harts, leg, many)? {
            Turn::Held => return Ok(None),
            Turn::Went => {}
            Turn::Clashed(clash) => return Ok(Some(clash)),
        }
    }
}

/// Takes the machine as far as its harts can go in the leg.
pub(crate) fn run_leg(alloc: Global, start: Machine, leg: &PlannedLeg) -> Result<Ended, Memory>
    requires leg { IsLeg (length start.harts) leg.now }
    requires base { (hart : ℕ) → count_at leg.now.base hart ≡ counts_of start hart }
    requires rules { IsLog leg.now.edges.start leg.now.edges.rows }
    ensures { IfOk result (Ends leg.now start) }
{
    let mut harts = Harts::begin(alloc, start)?;
    let many = harts.many();
    match go_on(&mut harts, leg, many)? {
        Some(clash) => Ok(Ended::Clashed(clash)),
        None => Ok(Ended::Stopped(harts.end()?)),
    }
}
