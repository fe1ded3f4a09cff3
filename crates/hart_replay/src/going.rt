//! Legs that are replayed in turn, from the first one's base or from where its harts have come to.

ghost use Rattle.std.specs.Prelude.{◌≡◌, ◌<◌, ◌≤◌, length, IfOk, IfErr};
ghost use Rattle.guest_image.specs.Image.{guest_of};
ghost use Rattle.hart_replay.specs.Plans.{IsPlan};
ghost use Rattle.hart_replay.specs.Replays.{IsOutcome};
ghost use Rattle.hart_replay.specs.Leading.{IsLegsFault};
ghost use Rattle.hart_replay.specs.machinery.Going.{LeadsOn, FailsOn, IsAt};

use crate::fault::ReplayFault;
use crate::leading::{has_come_to, lead};
use crate::plans::PlannedLeg;
use guest_image::{Image, Machine};
use std::alloc::Global;
use std::result::Result;

/// The machine to which the leg leads on from this one.
fn lead_on(alloc: Global, now: Machine, leg: &PlannedLeg) -> Result<Machine, ReplayFault>
    ensures ok { IfOk result (λ m. LeadsOn leg.now now m) }
    ensures fault { IfErr result (λ fault. FailsOn leg.now now fault) }
{
    let book = lead(alloc, now, leg)?;
    has_come_to(book.machine(), &book.counts(), &leg.ends)?;
    Ok(book.into_machine())
}

/// The machine to which the legs before the last of these lead on from this one, to which the first ones have led.
pub fn lead_through(
    alloc: Global,
    _image: &Image,
    now: Machine,
    legs: &[PlannedLeg],
    first: usize,
    last: usize,
) -> Result<Machine, ReplayFault>
    requires plan { IsPlan (guest_of _image.now) legs.now }
    requires within { first ≤ last }
    requires last { last ≤ length legs.now }
    requires at { IsAt _image.now legs.now first now }
    ensures ok { IfOk result (λ m. IsAt _image.now legs.now last m) }
    ensures fault { IfErr result (λ fault. IsLegsFault _image.now legs.now fault) }
{
    let mut machine = now;
    for number in first..last {
        machine = lead_on(alloc, machine, &legs[number])?;
    }
    Ok(machine)
}

/// The machine to which the legs lead on from this one, to which the first ones have led.
pub fn lead_all(
    alloc: Global,
    image: &Image,
    now: Machine,
    legs: &[PlannedLeg],
    first: usize,
) -> Result<Machine, ReplayFault>
    requires plan { IsPlan (guest_of image.now) legs.now }
    requires within { first ≤ length legs.now }
    requires at { IsAt image.now legs.now first now }
    ensures ok { IfOk result (λ m. IsOutcome image.now legs.now m) }
    ensures fault { IfErr result (λ fault. IsLegsFault image.now legs.now fault) }
{
    lead_through(alloc, image, now, legs, first, legs.len())
}
