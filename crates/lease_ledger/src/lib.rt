//! A ledger of leases that are values outside it: whatever leases are settled, in whatever order, its machine is the run of
//! its journal and its log is honest.
#![tactic(auto)]

ghost use Rattle.interleaving.specs.Machine.{System};
ghost use Rattle.interleaving.specs.Stored.{Hardware};
ghost use Rattle.lease_ledger.specs.Laws.{KeepsLedger, HasHonestLog, AddsItsSteps, LaysItsRun, RunsInLists};
ghost use Rattle.lease_ledger.specs.Laws.{KeepsOrder, MayAddNext, KeepsRights, HeldByTakers, LeavesTheWay};
ghost use Rattle.lease_ledger.specs.Laws.{LeasesGoOn, NoneIsForeign, TicksGoOn, LendsMore};
ghost use Rattle.lease_ledger.specs.Examples.{SideBySide, ForgetsCounts};

/// Over every list of calls, with several leases open at once and whatever values of a lease's type are handed in: the
/// machine is the run of the journal, and the log is honest for it.
pub fn honest_ledger<H, P, I>()
    ensures kept { (system : System H P I) → KeepsLedger system }
    ensures has_log { (system : System H P I) → HasHonestLog system }
    ensures adds_its_steps { (system : System H P I) → AddsItsSteps system }
    ensures lays_its_run { (system : System H P I) → LaysItsRun system }
    ensures in_lists { (hardware : Hardware H P I) → RunsInLists hardware }
{}

/// The edges of one hart come into the log in the order of its steps, none before the start.
pub fn edge_order<H, P, I>()
    ensures in_order { (system : System H P I) → KeepsOrder system }
    ensures may_add { (system : System H P I) → MayAddNext system }
{}

/// A lease that only the calls change keeps its type and passes each comparison, whatever the other leases do; and what
/// it has at present.
pub fn leases_go_on<H, P, I>()
    ensures leases { (system : System H P I) → LeasesGoOn system }
    ensures none_is_foreign { (system : System H P I) → NoneIsForeign system }
    ensures ticks { (system : System H P I) → TicksGoOn system }
    ensures lends_more { (system : System H P I) → LendsMore system }
{}

/// A hart has the rights to what its open lease took, and who is in the way of an asker has taken the page.
pub fn rights_held<H, P, I>()
    ensures rights { (system : System H P I) → KeepsRights system }
    ensures held_by { (system : System H P I) → HeldByTakers system }
    ensures leaves_the_way { LeavesTheWay }
{}

/// The calls at work: two leases side by side, of which one waits for the other's page, and a lease that must not be
/// settled, since its type forgot at which count it took a page.
pub fn examples()
    ensures side_by_side { SideBySide }
    ensures counts_matter { ForgetsCounts }
{}
