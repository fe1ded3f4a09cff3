//! Moments that are gone to.

ghost use Rattle.std.specs.Prelude.{◌≡◌, ◌≢◌, ◌<◌, ◌≤◌, ◌+◌, ℕ, IfOk, IfErr, OnOk, IfSome, IfNone, Some, true, false, length, slice_get};
ghost use Rattle.guest_image.specs.Machine.{MachineState};
ghost use Rattle.hart_lease.specs.Runs.{counts_of};
ghost use Rattle.hart_replay.specs.declared.fault.ReplayFault.TheVariants as fault;
ghost use Rattle.plan_lines.specs.Line.{IsAt, GetsStuck, steps_of, ends_of};
ghost use Rattle.moments.specs.Points.{BreaksAt, WatchesAt, HoldsAt, HitsAt, IsOne, NoneFrom};
ghost use Rattle.moments.specs.Stops.{HasStopped, HasStoppedBack, LastHit};

use crate::points::{Point, Stop, first_break, first_watch};
use crate::timeline::Timeline;
use ft_types::{Count, Hart};
use hart_replay::ReplayFault;
use std::option::Option;
use std::result::Result;

/// The hit at this moment, where there is one; else the last one before.
fn later_hit(last: Option<(u64, usize)>, now: u64, hit: Option<usize>) -> Option<(u64, usize)>
    ensures some { IfSome hit (λ number. result ≡ Some (now, number)) }
    ensures none { IfNone hit (result ≡ last) }
{
    match hit {
        Some(number) => Some((now, number)),
        None => last,
    }
}

impl Timeline {
    /// Goes to a moment.
    pub fn go_to(&mut self, moment: u64) -> Result<(), ReplayFault>
        requires { moment ≤ steps_of self.old.legs }
        ensures line { self.new ≡ record self.old { stands = self.new.stands } }
        ensures there { OnOk result (self.new.stands.moment ≡ moment) }
        ensures stuck { IfErr result (λ f. f ≢ fault.Memory → GetsStuck self.old f) }
    {
        self.near(moment)?;
        while self.now() < moment {
            self.forward()?;
        }
        Ok(())
    }

    /// Goes to the first moment at which the hart has so many steps. False, and nothing is changed, where the line has none.
    pub fn go_to_count(&mut self, hart: Hart, count: Count) -> Result<bool, ReplayFault>
        ensures line { self.new ≡ record self.old { stands = self.new.stands } }
        ensures there { IfOk result (λ went. went ≡ true → counts_of self.new.stands.machine hart ≡ count) }
        ensures first { IfOk result (λ went. went ≡ true → (moment : ℕ) (m : MachineState) → moment < self.new.stands.moment →
            IsAt self.new.legs self.new.start moment m → counts_of m hart < count) }
        ensures none { IfOk result (λ went. went ≡ false → (self.new ≡ self.old) × ((moment : ℕ) (m : MachineState) →
            IsAt self.old.legs self.old.start moment m → counts_of m hart < count)) }
        ensures stuck { IfErr result (λ f. f ≢ fault.Memory → GetsStuck self.old f) }
    {
        if self.end_of(hart) < count {
            return Ok(false);
        }
        self.near_count(hart, count)?;
        // proof: the line leads here.
        self.stands_there();
        while self.count_of(hart) < count {
            self.forward()?;
            // proof: and here.
            self.stands_there();
        }
        Ok(true)
    }

    /// The first point that is where the step that comes next is.
    fn broken(&self, points: &[Point]) -> Option<usize>
        ensures some { IfSome result (IsOne BreaksAt points.now self.now self.now.stands.moment) }
        ensures none { IfNone result (NoneFrom BreaksAt points.now self.now self.now.stands.moment (self.now.stands.moment + 1)) }
    {
        // proof: the line leads here, where it does not turn.
        self.stands_there();
        match self.next() {
            Some(hart) => first_break(points, self.hart(hart).pc()),
            None => None,
        }
    }

    /// The first point that watches what the step that comes next uses.
    fn watched(&self, points: &[Point]) -> Option<usize>
        ensures some { IfSome result (IsOne WatchesAt points.now self.now self.now.stands.moment) }
        ensures none { IfNone result (NoneFrom WatchesAt points.now self.now self.now.stands.moment (self.now.stands.moment + 1)) }
    {
        // proof: the line leads here, where it does not turn.
        self.stands_there();
        first_watch(points, self.access())
    }

    /// Goes on to the first moment at which a point holds, or to the end.
    pub fn until(&mut self, points: &[Point]) -> Result<Stop, ReplayFault>
        ensures line { self.new ≡ record self.old { stands = self.new.stands } }
        ensures stopped { IfOk result (HasStopped points.now self.old self.new) }
        ensures stuck { IfErr result (λ f. f ≢ fault.Memory → GetsStuck self.old f) }
    {
        loop {
            let watched = self.watched(points);
            if !self.forward()? {
                return Ok(Stop::End);
            }
            if let Some(number) = watched {
                return Ok(Stop::At(number));
            }
            if let Some(number) = self.broken(points) {
                return Ok(Stop::At(number));
            }
        }
    }

    /// The first point at which the step that comes next is, or that watches it.
    fn hit(&self, points: &[Point]) -> Option<usize>
        ensures some { IfSome result (IsOne HitsAt points.now self.now self.now.stands.moment) }
        ensures none { IfNone result (NoneFrom HitsAt points.now self.now self.now.stands.moment (self.now.stands.moment + 1)) }
    {
        match self.broken(points) {
            Some(number) => Some(number),
            None => self.watched(points),
        }
    }

    /// Goes on to a moment. Of the moments on the way the last one whose step hits a point, and which point.
    fn last_hit(&mut self, points: &[Point], end: u64) -> Result<Option<(u64, usize)>, ReplayFault>
        requires from { self.old.stands.moment ≤ end }
        requires within { end ≤ steps_of self.old.legs }
        ensures line { self.new ≡ record self.old { stands = self.new.stands } }
        ensures last { IfOk result (LastHit points.now self.old end) }
        ensures stuck { IfErr result (λ f. f ≢ fault.Memory → GetsStuck self.old f) }
    {
        let mut last = None;
        while self.now() < end {
            let hit = self.hit(points);
            last = later_hit(last, self.now(), hit);
            self.forward()?;
        }
        Ok(last)
    }

    /// Goes back to the last moment whose step is at a breakpoint or is watched, or to the beginning.
    pub fn back_until(&mut self, points: &[Point]) -> Result<Stop, ReplayFault>
        ensures line { self.new ≡ record self.old { stands = self.new.stands } }
        ensures stopped { IfOk result (HasStoppedBack points.now self.old self.new) }
        ensures stuck { IfErr result (λ f. f ≢ fault.Memory → GetsStuck self.old f) }
    {
        let mut end = self.now();
        while end > 0 {
            self.near(end - 1)?;
            let begin = self.now();
            if let Some((moment, number)) = self.last_hit(points, end)? {
                self.go_to(moment)?;
                return Ok(Stop::At(number));
            }
            end = begin;
        }
        self.go_to(0)?;
        Ok(Stop::Begin)
    }
}
