//! What holds of what a primary's run tells.

ghost use Rattle.log_streams.specs.Honest.{RunsTellTruly, RunsReplay};

/// The frames of a primary's run from boot, in whatever streams, are honest frames of one history, and the machine that is
/// the history's at their position is the run's, so that a replay writes what the run wrote.
pub fn honest_runs()
    ensures truly { RunsTellTruly }
    ensures replay { RunsReplay }
{}
