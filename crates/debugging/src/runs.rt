//! Ways through a timeline.

ghost use Rattle.std.specs.Prelude.{◌≡◌, ◌≢◌, ◌<◌, ◌≤◌, IfSome, IfNone, IfOk, IfErr, Some, length, slice_get};
ghost use Rattle.hart_lease.specs.Runs.{counts_of};
ghost use Rattle.debugging.specs.Monitor.{IsLastTouch};
ghost use Rattle.plan_lines.specs.Line.{GetsStuck};
ghost use Rattle.hart_replay.specs.declared.fault.ReplayFault.TheVariants as Faults;
ghost use Rattle.debugging.specs.Sessions.{IsOfLine};
ghost use Rattle.debugging.specs.Ways.{IsNextOr, HasStepped, HasSteppedBack, HasContinued, HasContinuedBack, Goes, arrival_at, reason_of_stop, watching_stop};

use crate::commands::Way;
use crate::stops::Reason;
use ft_types::{COUNT_LIMIT, Count, Hart};
use hart_replay::ReplayFault;
use moments::{Point, Stop, Timeline};
use rv32_hart::HartState;

/// Where a way has led: to a step of this hart, and why it ends there.
#[derive(Clone, Copy)]
pub(crate) struct Arrival {
    pub(crate) hart: Hart,
    pub(crate) reason: Reason,
}

/// How many steps a hart has taken.
pub(crate) fn count_of(line: &Timeline, hart: Hart) -> Count
    ensures value { result ≡ counts_of line.now.stands.machine hart }
    ensures limit { result < COUNT_LIMIT }
{
    line.counts().count_of(hart)
}

/// A hart, where the machine has it.
pub(crate) fn hart_at(line: &Timeline, hart: Hart) -> Option<&HartState>
    ensures some { IfSome result (λ h. slice_get line.now.stands.machine.harts hart ≡ Some h.now) }
    ensures none { IfNone result (length line.now.stands.machine.harts ≤ hart) }
{
    if hart.number() < line.harts() {
        Some(line.hart(hart))
    } else {
        None
    }
}

/// The hart of the step that comes next; this one, where none does.
fn next_hart(line: &Timeline, otherwise: Hart) -> Hart
    ensures { IsNextOr line.now result otherwise }
{
    match line.next() {
        Some(hart) => hart,
        None => otherwise,
    }
}

/// At the hart, for this reason.
fn arrived(hart: Hart, reason: Reason) -> Arrival
    ensures { result ≡ arrival_at hart reason }
{
    Arrival { hart, reason }
}

/// On to the first moment at which the hart has one step more.
#[tactic(auto, using(crate::proofs::Lines::led_on, crate::proofs::Lines::stays, crate::proofs::Lines::goes_on, crate::proofs::Lines::stuck_before))]
fn step(line: &mut Timeline, hart: Hart) -> Result<Arrival, ReplayFault>
    ensures line { IsOfLine line.old line.new }
    ensures went { IfOk result (HasStepped line.old line.new hart) }
    ensures stuck { IfErr result (λ f. f ≢ Faults.Memory → GetsStuck line.old f) }
{
    let count = count_of(line, hart);
    let is_led = line.go_to_count(hart, count + 1)?;
    if is_led {
        return Ok(arrived(hart, Reason::Led));
    }
    Ok(arrived(hart, Reason::End))
}

/// Back to where the hart's last step comes next.
#[tactic(auto, using(crate::proofs::Lines::led_on, crate::proofs::Lines::stays, crate::proofs::Lines::goes_on, crate::proofs::Lines::stuck_before))]
fn step_back(line: &mut Timeline, hart: Hart) -> Result<Arrival, ReplayFault>
    ensures line { IsOfLine line.old line.new }
    ensures went { IfOk result (HasSteppedBack line.old line.new hart) }
    ensures stuck { IfErr result (λ f. f ≢ Faults.Memory → GetsStuck line.old f) }
{
    let count = count_of(line, hart);
    if count == 0 {
        return Ok(arrived(hart, Reason::Begin));
    }
    let is_there = line.go_to_count(hart, count)?;
    let now = line.now();
    if now == 0 {
        return Ok(arrived(hart, Reason::Begin));
    }
    if is_there {
        line.go_to(now - 1)?;
        return Ok(arrived(hart, Reason::Led));
    }
    Ok(arrived(hart, Reason::Begin))
}

/// What the stop is a reason for.
fn reason_of(points: &[Point], stop: Stop) -> Reason
    ensures { result ≡ reason_of_stop points.now stop }
{
    match stop {
        Stop::At(number) => match points.get(number) {
            Some(point) => Reason::Point(*point),
            None => Reason::Led,
        },
        Stop::End => Reason::End,
        Stop::Begin => Reason::Begin,
    }
}

/// How many steps lie between the stop and where gdb looks at what is watched.
fn watching(points: &[Point], stop: Stop) -> u64
    ensures { result ≡ watching_stop points.now stop }
{
    let Stop::At(number) = stop else {
        return 0;
    };
    match points.get(number) {
        Some(Point::Watch(_, _)) => 1,
        _ => 0,
    }
}

/// On to a point or to the end. A step that is watched comes next then: gdb takes it before it looks at the word.
#[tactic(auto, using(crate::proofs::Lines::led_on, crate::proofs::Lines::stays, crate::proofs::Lines::goes_on, crate::proofs::Lines::stuck_before))]
fn go_on(line: &mut Timeline, points: &[Point], hart: Hart) -> Result<Arrival, ReplayFault>
    ensures line { IsOfLine line.old line.new }
    ensures went { IfOk result (HasContinued points.now hart line.old line.new) }
    ensures stuck { IfErr result (λ f. f ≢ Faults.Memory → GetsStuck line.old f) }
{
    let stop = line.until(points)?;
    let there = line.now();
    line.go_to(there.saturating_sub(watching(points, stop)))?;
    let hart = next_hart(line, hart);
    let reason = reason_of(points, stop);
    Ok(Arrival { hart, reason })
}

/// Back to a point or to the beginning. A step that is watched was the last one then: gdb takes it back before it looks at the word.
#[tactic(auto, using(crate::proofs::Lines::led_on, crate::proofs::Lines::stays, crate::proofs::Lines::goes_on, crate::proofs::Lines::stuck_before))]
fn go_back(line: &mut Timeline, points: &[Point], hart: Hart) -> Result<Arrival, ReplayFault>
    ensures line { IsOfLine line.old line.new }
    ensures went { IfOk result (HasContinuedBack points.now hart line.old line.new) }
    ensures stuck { IfErr result (λ f. f ≢ Faults.Memory → GetsStuck line.old f) }
{
    // proof: the line has this moment.
    let _from = line.now();
    let stop = line.back_until(points)?;
    let hart = next_hart(line, hart);
    let there = line.now();
    line.go_to(there + watching(points, stop))?;
    let reason = reason_of(points, stop);
    Ok(Arrival { hart, reason })
}

/// Goes this way, with the steps of this hart, or up to one of these points.
pub(crate) fn go(
    line: &mut Timeline,
    points: &[Point],
    way: Way,
    hart: Hart,
) -> Result<Arrival, ReplayFault>
    ensures line { IsOfLine line.old line.new }
    ensures went { IfOk result (Goes way points.now hart line.old line.new) }
    ensures stuck { IfErr result (λ f. f ≢ Faults.Memory → GetsStuck line.old f) }
{
    match way {
        Way::Step => step(line, hart),
        Way::StepBack => step_back(line, hart),
        Way::Continue => go_on(line, points, hart),
        Way::ContinueBack => go_back(line, points, hart),
    }
}

/// The step that touched what the point watches last, by its hart and count. The line stands before it then, or at its beginning, where there is none.
#[tactic(auto, using(crate::proofs::Lines::led_on, crate::proofs::Lines::stays, crate::proofs::Lines::goes_on))]
pub(crate) fn last_touch(
    line: &mut Timeline,
    point: Point,
) -> Result<Option<(Hart, Count)>, ReplayFault>
    ensures line { IsOfLine line.old line.new }
    ensures last { IfOk result (IsLastTouch point line.old line.new) }
{
    match line.back_until(&[point])? {
        Stop::At(_) => {
            let hart = next_hart(line, Hart::new(0));
            Ok(Some((hart, count_of(line, hart))))
        }
        Stop::Begin | Stop::End => Ok(None),
    }
}
