//! What decides: events are taken, in their order, then the log takes what they brought, once, and then that is acknowledged.

ghost use Rattle.std.specs.Prelude.{◌≡◌, ◌≢◌, ◌++◌, ◌∷◌, ◌⊎◌, [], List, false, map, IfOk, IfErr, OnOk, OnErr, IsTrue, ◌↔◌};
ghost use Rattle.std.specs.List.{AllByRecursion};
ghost use Rattle.std.specs.Option.{option_to_list};
ghost use Rattle.log_join.specs.Answers.{answer_to};
ghost use Rattle.live_keeper.specs.Turns.{IsPass, Logs, TakesEvent, TakesEvents, TakesFrames, TurnsKeeper, are_logged, is_logged, passed_of, passes};
ghost use Rattle.live_keeper.specs.declared.events.KeeperDeed.{KeeperDeed as deed_of_specs};
ghost use Rattle.live_keeper.specs.declared.events.KeeperDeed.TheVariants.{Say};

use crate::events::{Event, KeeperDeed};
use crate::faults::files_fault;
use ends::{Fault, Frames, FramesFault};
use ft_types::Memory;
use log_join::Put;
use stations::{KeeperFiles, KeeperStation, WrittenFrame};
use std::alloc::Global;
use std::marker::Model;
use std::option::Option;
use std::result::Result;
use wire::Acknowledgement;

/// What decides. Contracts see its station, how many inputs are not at their end, and whether a fault was passed over.
#[derive(Drop)]
pub struct Keeping {
    station: KeeperStation,
    inputs: usize,
    passed: bool,
}

impl Model for Keeping {
    ghost use Rattle.live_keeper.specs.Turns.{KeepingView};

    ghost Value = { KeepingView };

    ghost use Rattle.std.specs.Coded.{codes};
    ghost use Rattle.log_join.specs.Stores.{coded_store};

    ghost coded = { Prim.hlevel (codes, coded_store) };

    ghost view = { λ k. record { station = k.station; inputs = k.inputs; passed = k.passed } };
}

/// Adds a deed.
fn add(deeds: &mut Vec<KeeperDeed>, deed: KeeperDeed) -> Result<(), Memory>
    ensures added { OnOk result (deeds.new.items ≡ deeds.old.items ++ deed ∷ []) }
    ensures err { OnErr result (deeds.new.items ≡ deeds.old.items) }
{
    deeds.reserve(1)?;
    deeds.push_reserved(deed);
    Ok(())
}

/// Says what is acknowledged, where something is.
fn say(said: Option<Acknowledgement>, deeds: &mut Vec<KeeperDeed>) -> Result<(), Memory>
    ensures said { OnOk result (deeds.new.items ≡ deeds.old.items ++ map Say (option_to_list said)) }
    ensures err { OnErr result (deeds.new.items ≡ deeds.old.items) }
{
    match said {
        Some(said) => add(deeds, KeeperDeed::Say(said)),
        None => Ok(()),
    }
}

/// Takes a frame of the input with this number, but for an opening that is far, which is passed over. One that clashes ends the keeper.
fn take_frame(
    alloc: Global,
    station: &mut KeeperStation,
    input: usize,
    frame: WrittenFrame,
) -> Result<(), Fault>
    ensures taken { OnOk result (TakesFrames station.old (frame ∷ []) station.new) }
    ensures fault { IfErr result (λ f. (f ≡ Fault.Memory) ⊎ ((f ≡ Fault.Frames (Frames.Input input) FramesFault.Clash) × (answer_to station.old.store frame ≡ Put.Clash))) }
{
    if station.is_far(&frame) {
        return Ok(());
    }
    let Ok(put) = station.take(alloc, frame) else {
        return Err(Fault::Memory);
    };
    match put {
        Put::Clash => Err(Fault::Frames(Frames::Input(input), FramesFault::Clash)),
        Put::New | Put::Same | Put::OtherGuest => Ok(()),
    }
}

/// Takes the frames of an input, in their order.
fn take_frames(
    alloc: Global,
    station: &mut KeeperStation,
    input: usize,
    frames: Vec<WrittenFrame>,
) -> Result<(), Fault>
    ensures { OnOk result (TakesFrames station.old frames.items station.new) }
{
    for frame in frames {
        take_frame(alloc, station, input, frame)?;
    }
    Ok(())
}

impl Keeping {
    /// A keeper that begins, with so many inputs.
    pub fn new(station: KeeperStation, inputs: usize) -> Keeping
        ensures { result ≡ record { station = station; inputs = inputs; passed = false } }
    {
        Keeping {
            station,
            inputs,
            passed: false,
        }
    }

    /// Whether all inputs are at their end.
    pub fn is_over(&self) -> bool
        ensures { IsTrue result ↔ (self.now.inputs ≡ 0) }
    {
        self.inputs == 0
    }

    /// Whether a fault was passed over.
    pub fn has_passed(&self) -> bool
        ensures { result ≡ self.now.passed }
    {
        self.passed
    }

    /// Takes an event, and says whether the log is to be brought to disk for it.
    fn take(
        &mut self,
        alloc: Global,
        event: Event,
        deeds: &mut Vec<KeeperDeed>,
    ) -> Result<bool, Fault>
        ensures taken { OnOk result (TakesEvent event self.old self.new) }
        ensures logged { IfOk result (λ logged. logged ≡ is_logged event) }
        ensures passed { OnOk result (deeds.new.items ≡ deeds.old.items ++ passed_of event) }
        ensures silent { IfErr result (λ _. deeds.new.items ≡ deeds.old.items) }
    {
        match event {
            Event::Begin => Ok(true),
            Event::Frames(input, frames) => {
                take_frames(alloc, &mut self.station, input, frames)?;
                Ok(true)
            }
            Event::Ended => {
                self.inputs = self.inputs.saturating_sub(1);
                Ok(false)
            }
            Event::Passed(fault) => {
                add(deeds, KeeperDeed::Pass(fault))?;
                self.passed = true;
                Ok(false)
            }
            Event::Failed(fault) => Err(fault),
        }
    }

    /// Takes events, in their order, and says whether the log is to be brought to disk for one of them.
    fn take_all(
        &mut self,
        alloc: Global,
        came: Vec<Event>,
        deeds: &mut Vec<KeeperDeed>,
    ) -> Result<bool, Fault>
        ensures taken { OnOk result (TakesEvents self.old came.items self.new) }
        ensures logged { IfOk result (λ logged. logged ≡ are_logged came.items) }
        ensures passed { OnOk result (deeds.new.items ≡ deeds.old.items ++ passes came.items) }
        ensures silent { AllByRecursion IsPass deeds.old.items → AllByRecursion IsPass deeds.new.items }
    {
        let mut logged = false;
        for event in came {
            let is_asked = self.take(alloc, event, deeds)?;
            logged = logged || is_asked;
        }
        Ok(logged)
    }

    /// Has the log take what came. What that acknowledges.
    fn log<F: KeeperFiles>(
        self,
        alloc: Global,
        files: &mut F,
    ) -> Result<(Keeping, Option<Acknowledgement>), Fault>
        ensures logged { IfOk result (λ r. Logs (F.acts files.old) (F.acts files.new) self.station r.0.station r.1) }
        ensures rest { IfOk result (λ r. r.0 ≡ record self { station = r.0.station }) }
    {
        let Keeping {
            station,
            inputs,
            passed,
        } = self;
        match station.log_and_acknowledge(alloc, files) {
            Ok((station, said)) => Ok((
                Keeping {
                    station,
                    inputs,
                    passed,
                },
                said,
            )),
            Err(fault) => Err(files_fault(fault)),
        }
    }

    /// Takes what came, has the log take it, and acknowledges that: what is to be done is added to the deeds.
    fn go_on<F: KeeperFiles>(
        self,
        alloc: Global,
        files: &mut F,
        came: Vec<Event>,
        deeds: &mut Vec<KeeperDeed>,
    ) -> Result<Keeping, Fault>
        ensures turns { IfOk result (λ keeping. (done : List deed_of_specs) × TurnsKeeper came.items (F.acts files.old) (F.acts files.new) self keeping done × (deeds.new.items ≡ deeds.old.items ++ done)) }
        ensures silent { IfErr result (λ _. AllByRecursion IsPass deeds.old.items → AllByRecursion IsPass deeds.new.items) }
    {
        let mut keeping = self;
        let logged = keeping.take_all(alloc, came, deeds)?;
        if !logged {
            return Ok(keeping);
        }
        let (keeping, said) = keeping.log(alloc, files)?;
        say(said, deeds)?;
        Ok(keeping)
    }

    /// Takes what came: what is to be done then, in its order, and the keeper that goes on behind it, or why it ends.
    pub fn turn<F: KeeperFiles>(
        self,
        alloc: Global,
        files: &mut F,
        came: Vec<Event>,
    ) -> (Vec<KeeperDeed>, Result<Keeping, Fault>)
        ensures turns { IfOk result.1 (λ keeping. TurnsKeeper came.items (F.acts files.old) (F.acts files.new) self keeping result.0.items) }
        // Where it ends nothing is acknowledged any more.
        ensures silent { IfErr result.1 (λ _. AllByRecursion IsPass result.0.items) }
    {
        let mut deeds = Vec::new(alloc);
        let turned = self.go_on(alloc, files, came, &mut deeds);
        (deeds, turned)
    }
}
