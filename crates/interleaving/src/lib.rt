//! Whatever order the harts of a replay go in, as far as the log's edges let them, the machine comes out the same.
#![tactic(auto)]

ghost use Rattle.interleaving.specs.Machine.{System};
ghost use Rattle.interleaving.specs.Log.{Confluence, StuckCannotGoOn, OneOfThree};
ghost use Rattle.interleaving.specs.Cuts.{StartIsClosed, GreaterIsClosed, HasGreatest, ClosedOrBroken};
ghost use Rattle.interleaving.specs.Cuts.{LoweringKeeps, ImpliedMayGo, StaysHonest};
ghost use Rattle.interleaving.specs.Beginnings.{FrontBegins, Reached, EndsAreCuts, Extends, OwnOrder};
ghost use Rattle.interleaving.specs.Stored.{Hardware, RunsStored, StoredRuns, OneOutcome};
ghost use Rattle.interleaving.specs.Recorder.{RecordsHonestly, RecordsEachRun};
ghost use Rattle.interleaving.specs.Examples.{PartsOfHonesty, EndsAlike, StartMatters, HandOversLoseOrder};
ghost use Rattle.interleaving.specs.AsItWas.{HartAsItWas, HartWasThere};
ghost use Rattle.interleaving.specs.AsItWas.{PageAsItWas, PageUnwritten, PageHasWriter};

/// Harts that count, as an example.
pub mod counters;

/// A replay of an honest log to a closed cut runs, never gets stuck, and ends where the log's interleaving was.
pub fn confluence<H, P, I>()
    ensures confluence { (system : System H P I) → Confluence system }
    ensures stuck_cannot_go_on { (system : System H P I) → StuckCannotGoOn system }
    ensures one_of_three { (system : System H P I) → OneOfThree system }
{}

/// The machine at a cut, hart by hart and page by page, is as it was in the interleaving's run.
pub fn as_it_was<H, P, I>()
    ensures hart { (system : System H P I) → HartAsItWas system }
    ensures hart_was_there { (system : System H P I) → HartWasThere system }
    ensures page { (system : System H P I) → PageAsItWas system }
    ensures unwritten { (system : System H P I) → PageUnwritten system }
    ensures no_third_case { (system : System H P I) → PageHasWriter system }
{}

/// The greater of two closed cuts is closed, below each bound there is a greatest, and lowering leads to it.
pub fn closed_cuts()
    ensures start { StartIsClosed }
    ensures greater { GreaterIsClosed }
    ensures greatest { HasGreatest }
    ensures closed_or_broken { ClosedOrBroken }
    ensures lowering { LoweringKeeps }
{}

/// Edges that the start or another edge implies can be dropped.
pub fn implied_edges<H, P, I>()
    ensures same_order { ImpliedMayGo }
    ensures stays_honest { (system : System H P I) → StaysHonest system }
{}

/// Each beginning of a schedule stands at a cut of its own and goes on to a schedule, and the interleaving's own order
/// is one.
pub fn schedules<H, P, I>()
    ensures front { FrontBegins }
    ensures reached { (system : System H P I) → Reached system }
    ensures ends_are_cuts { (system : System H P I) → EndsAreCuts system }
    ensures extends { (system : System H P I) → Extends system }
    ensures own_order { (system : System H P I) → OwnOrder system }
{}

/// The same for a machine whose harts and pages stand in lists: its runs are those of the theory, and schedules leave
/// one store.
pub fn stored<H, P, I>()
    ensures runs { (hardware : Hardware H P I) → RunsStored hardware }
    ensures only_runs { (hardware : Hardware H P I) → StoredRuns hardware }
    ensures one_outcome { (hardware : Hardware H P I) → OneOutcome hardware }
{}

/// Each run has an honest log: one with an edge from the last step that wrote a page to each that touches it, and from
/// each that touched it since to one that writes it.
pub fn recording<H, P, I>()
    ensures honest { (system : System H P I) → RecordsHonestly system }
    ensures each_run { (system : System H P I) → RecordsEachRun system }
{}

/// The definitions at work: an honest log, two of whose schedules end alike, and two logs that lack one part of honesty
/// each, so that a schedule of theirs goes wrong.
pub fn examples<H, P, I>()
    ensures ends_alike { EndsAlike }
    ensures parts_of_honesty { (system : System H P I) → PartsOfHonesty system }
    ensures start_matters { StartMatters }
    ensures hand_overs_lose_order { HandOversLoseOrder }
{}
