//! What holds of each line.

ghost use Rattle.plan_lines.specs.Laws.{OneMachine, CountsAreCuts, EndsAreOutcomes, EndsTellHistories, MomentsTellHistories, WritesAreUsed, ReadsAreUsed};

/// At each moment of a line there is one machine, whose counts are a closed cut of its leg, and of honest frames it is the history's
/// there. At the end it is an outcome of the plan, and of honest frames the history's machine at the position.
pub fn honest_moments()
    ensures one { OneMachine }
    ensures cuts { CountsAreCuts }
    ensures outcomes { EndsAreOutcomes }
    ensures tell { EndsTellHistories }
    ensures moments { MomentsTellHistories }
{}

/// What a watchpoint stands on: a step changes no byte of RAM but those that it uses so, and does the same whatever stands at the others
/// that it neither reads nor fetches.
pub fn seen_accesses()
    ensures writes { WritesAreUsed }
    ensures reads { ReadsAreUsed }
{}
