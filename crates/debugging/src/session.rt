//! A session: what is asked, and what is answered.

ghost use Rattle.std.specs.Prelude.{◌≡◌, ◌≢◌, ◌≤◌, ◌⊎◌, ℕ, Bool, true, false, List, IfOk, IfErr, IfSome, IfNone, None, Some, codes};
ghost use Rattle.debugging.specs.declared.commands.Command.{Command as CommandOf};
ghost use Rattle.plan_lines.specs.Line.{GetsStuck};
ghost use Rattle.hart_replay.specs.declared.fault.ReplayFault.TheVariants as Faults;
ghost use Rattle.debugging.specs.declared.commands.Command.TheVariants as Command;
ghost use Rattle.debugging.specs.declared.commands.Show.TheVariants as Show;
ghost use Rattle.debugging.specs.Asked.{IsOfHart, IsOfNone};
ghost use Rattle.debugging.specs.Commands.{AsksFor, IsStill};
ghost use Rattle.debugging.specs.Queries.{AsksForText};
ghost use Rattle.debugging.specs.Notes.{HasChosen, HasNoted, harts_of, is_any, told};
ghost use Rattle.debugging.specs.Sessions.{IsShown, IsOfLine, session_at};
ghost use Rattle.debugging.specs.Ways.{IsLed, HasGone};
ghost use Rattle.debugging.specs.Answers.{Says, IsShowing, IsStuck, Answers};

use crate::commands::{Command, Note, Other, Show, Way, read_command};
use crate::memory::memory_text;
use crate::numbers::{Thread, hart_of};
use crate::points::{drop_point, put_point};
use crate::registers::{register_text, registers_text};
use crate::runs::{go, hart_at};
use crate::stops::{Reason, stop_text};
use ft_types::{Hart, Memory};
use hart_replay::ReplayFault;
use moments::{Point, Timeline};
use rv32_hart::HartState;
use std::alloc::Global;
use std::marker::Model;

/// A session over a timeline.
#[derive(Drop)]
pub struct Session {
    pub(crate) line: Timeline,
    /// The hart of which more is asked.
    pub(crate) shown: Hart,
    /// The hart whose steps are taken.
    led: Hart,
    points: Vec<Point>,
}

/// What is answered.
#[derive(Drop)]
pub enum Answer {
    /// The packet that says this.
    Says(Vec<u8>),
    /// That packet, and the session is over.
    SaysLast(Vec<u8>),
    /// Nothing, and the session is over.
    Over,
}

/// The past is not changed.
const PAST: &[u8] = b"E01";

/// There is no such thing.
const WRONG: &[u8] = b"E02";

/// The log leads nowhere from here.
const NOWHERE: &[u8] = b"E03";

/// That the past is not changed.
fn past(alloc: Global) -> Result<Answer, Memory>
    ensures { IfOk result (Says (codes "E01")) }
{
    Ok(Answer::Says(PAST.to_vec(alloc)?))
}

/// `OK`, or that it is wrong.
fn told(alloc: Global, is_right: bool) -> Result<Vec<u8>, Memory>
    ensures { IfOk result (λ text. text.items ≡ told is_right) }
{
    Ok(if is_right { b"OK" } else { WRONG }.to_vec(alloc)?)
}

/// That the log leads nowhere, where memory is not what lacks.
fn nowhere(alloc: Global, fault: ReplayFault) -> Result<Vec<u8>, Memory>
    ensures said { IfOk result (λ text. text.items ≡ codes "E03") }
    ensures stuck { IfOk result (λ text. fault ≢ Faults.Memory) }
{
    match fault {
        ReplayFault::Memory => Err(Memory),
        _ => Ok(NOWHERE.to_vec(alloc)?),
    }
}

impl Model for Session {
    ghost use Rattle.debugging.specs.Sessions.{SessionView};

    ghost Value = { SessionView };

    ghost view = { λ s. record { line = s.line; shown = s.shown; led = s.led; points = s.points.items } };
}

impl Session {
    /// A session that stands where the timeline does.
    pub fn begin(alloc: Global, line: Timeline) -> Session
        ensures { result ≡ session_at line }
    {
        Session {
            line,
            shown: Hart::new(0),
            led: Hart::new(0),
            points: Vec::new(alloc),
        }
    }

    /// The timeline.
    pub fn line(&self) -> &Timeline
        ensures { result.now ≡ self.now.line }
    {
        &self.line
    }

    /// The hart of a thread, where it is one.
    fn hart_of(&self, thread: Thread) -> Option<Hart>
        ensures some { (hart : ℕ) → IsOfHart (harts_of self.now) thread hart → result ≡ Some hart }
        ensures found { IfSome result (IsOfHart (harts_of self.now) thread) }
    {
        hart_of(thread, self.line.harts())
    }

    /// Notes the hart of which more is asked, or that is led.
    fn choose_hart(&mut self, kind: u8, hart: Hart) -> bool
        ensures line { self.new.line ≡ self.old.line }
        ensures chosen { HasChosen kind hart self.old self.new result }
    {
        match kind {
            b'g' => self.shown = hart,
            b'c' => self.led = hart,
            _ => return false,
        }
        true
    }

    /// Chooses a hart for what more is asked, or for what is led. Every thread, and any, leave it as it was.
    fn choose(&mut self, kind: u8, thread: Thread) -> bool
        ensures line { self.new.line ≡ self.old.line }
        ensures chosen { (hart : ℕ) → IsOfHart (harts_of self.old) thread hart → HasChosen kind hart self.old self.new result }
        ensures none { IsOfNone (harts_of self.old) thread → (result ≡ is_any thread) × (self.new ≡ self.old) }
    {
        match self.hart_of(thread) {
            Some(hart) => self.choose_hart(kind, hart),
            None => matches!(thread, Thread::Any),
        }
    }

    /// Whether a hart is that of the thread.
    fn has(&self, thread: Thread) -> bool
        ensures there { (hart : ℕ) → IsOfHart (harts_of self.now) thread hart → result ≡ true }
        ensures none { IsOfNone (harts_of self.now) thread → result ≡ false }
    {
        self.hart_of(thread).is_some()
    }

    /// The hart of a thread, where it is one; else the one that was led last.
    fn led_by(&self, thread: Thread) -> Hart
        ensures { (hart : ℕ) → IsLed self.now thread hart → result ≡ hart }
    {
        match self.hart_of(thread) {
            Some(hart) => hart,
            None => self.led,
        }
    }

    /// Goes a way, and says why it ends.
    fn go(&mut self, alloc: Global, way: Way, thread: Thread) -> Result<Vec<u8>, ReplayFault>
        ensures line { IsOfLine self.old.line self.new.line }
        ensures went { IfOk result (λ text. (hart : ℕ) → IsLed self.old thread hart → HasGone self.old self.new way hart text.items) }
        ensures stuck { IfErr result (λ f. f ≢ Faults.Memory → GetsStuck self.old.line f) }
    {
        let hart = self.led_by(thread);
        let arrival = go(&mut self.line, &self.points, way, hart)?;
        self.shown = arrival.hart;
        self.led = arrival.hart;
        Ok(stop_text(alloc, arrival.hart, arrival.reason)?)
    }

    /// What a packet that asks to go is answered.
    fn lead(&mut self, alloc: Global, way: Way, thread: Thread) -> Result<Answer, Memory>
        ensures line { IsOfLine self.old.line self.new.line }
        ensures went { IfOk result (λ a. (hart : ℕ) → IsLed self.old thread hart →
            IsStuck self.old a ⊎ ((text : List ℕ) × HasGone self.old self.new way hart text × Says text a)) }
    {
        match self.go(alloc, way, thread) {
            Ok(text) => Ok(Answer::Says(text)),
            Err(fault) => Ok(Answer::Says(nowhere(alloc, fault)?)),
        }
    }

    /// The hart of which more is asked, where the machine has it.
    fn chosen(&self) -> Option<&HartState>
        ensures some { IfSome result (λ h. IsShown self.now h.now) }
        ensures none { IfNone result (harts_of self.now ≤ self.now.shown) }
    {
        hart_at(&self.line, self.shown)
    }

    /// What shows the registers of the chosen hart.
    fn show_registers(&self, alloc: Global) -> Result<Vec<u8>, Memory>
        ensures { IfOk result (λ text. IsShowing Show.Registers self.now text.items) }
    {
        match self.chosen() {
            Some(hart) => registers_text(alloc, hart),
            None => Ok(WRONG.to_vec(alloc)?),
        }
    }

    /// What shows a register of the chosen hart.
    fn show_register(&self, alloc: Global, number: u32) -> Result<Vec<u8>, Memory>
        ensures { IfOk result (λ text. IsShowing (Show.Register number) self.now text.items) }
    {
        match self.chosen() {
            Some(hart) => register_text(alloc, hart, number),
            None => Ok(WRONG.to_vec(alloc)?),
        }
    }

    /// What shows the machine so.
    fn show(&self, alloc: Global, show: Show) -> Result<Vec<u8>, Memory>
        ensures { IfOk result (λ text. IsShowing show self.now text.items) }
    {
        match show {
            Show::Why => stop_text(alloc, self.shown, Reason::Led),
            Show::Registers => self.show_registers(alloc),
            Show::Register(number) => self.show_register(alloc, number),
            Show::Memory(range) => memory_text(alloc, &self.line, range),
        }
    }

    /// What is answered to a packet that asks for it.
    fn answer_show(&self, alloc: Global, show: Show) -> Result<Answer, Memory>
        ensures { IfOk result (λ a. (text : List ℕ) × IsShowing show self.now text × Says text a) }
    {
        Ok(Answer::Says(self.show(alloc, show)?))
    }

    /// Notes it. Whether it is right.
    fn note(&mut self, note: Note) -> Result<bool, Memory>
        ensures line { self.new.line ≡ self.old.line }
        ensures noted { IfOk result (HasNoted note self.old self.new) }
    {
        match note {
            Note::Choose(kind, thread) => Ok(self.choose(kind, thread)),
            Note::IsThere(thread) => Ok(self.has(thread)),
            Note::Insert(point) => put_point(&mut self.points, point),
            Note::Remove(point) => {
                drop_point(&mut self.points, point);
                Ok(true)
            }
        }
    }

    /// What is answered to something that is to be noted.
    fn answer_note(&mut self, alloc: Global, note: Note) -> Result<Answer, Memory>
        ensures line { self.new.line ≡ self.old.line }
        ensures noted { IfOk result (λ a. (is_right : Bool) × HasNoted note self.old self.new is_right × Says (told is_right) a) }
    {
        let is_right = self.note(note)?;
        Ok(Answer::Says(told(alloc, is_right)?))
    }

    /// What a command of gdb's `monitor` is answered, whose text these digits are.
    pub(crate) fn answer_monitor(&mut self, alloc: Global, digits: &[u8]) -> Result<Vec<u8>, Memory>
        ensures line { IsOfLine self.old.line self.new.line }
    {
        match self.tell(alloc, digits) {
            Ok(text) => Ok(text),
            Err(fault) => nowhere(alloc, fault),
        }
    }

    /// What a query is answered.
    fn answer_query(&mut self, alloc: Global, query: &[u8]) -> Result<Answer, Memory>
        ensures line { IsOfLine self.old.line self.new.line }
        ensures still { (text : List ℕ) → AsksForText query.now self.old text → self.new ≡ self.old }
        ensures told { (text : List ℕ) → AsksForText query.now self.old text → IfOk result (Says text) }
    {
        Ok(Answer::Says(self.ask(alloc, query)?))
    }

    /// What anything else is answered.
    #[tactic(auto, using(crate::proofs::Lines::stays))]
    fn obey(&mut self, alloc: Global, other: Other, packet: &[u8]) -> Result<Answer, Memory>
        ensures line { IsOfLine self.old.line self.new.line }
        ensures still { IsStill (Command.Other other) → self.new ≡ self.old }
        ensures answers { IfOk result (Answers packet.now (Command.Other other) self.old self.new) }
    {
        match other {
            Other::Query => self.answer_query(alloc, packet),
            Other::Detach => Ok(Answer::SaysLast(told(alloc, true)?)),
            Other::Kill => Ok(Answer::Over),
            Other::Wrong => Ok(Answer::Says(told(alloc, false)?)),
            Other::Unknown => Ok(Answer::Says(Vec::new(alloc))),
        }
    }

    /// What the packet that says these bytes is answered.
    pub fn answer(&mut self, alloc: Global, packet: &[u8]) -> Result<Answer, Memory>
        // What a packet asks for is answered as it must be.
        ensures answers { (command : CommandOf) → AsksFor packet.now command → IfOk result (Answers packet.now command self.old self.new) }

        // What is only shown, would be another past, ends the session or is not known changes nothing.
        ensures still { (command : CommandOf) → AsksFor packet.now command → IsStill command → self.new ≡ self.old }

        // It stands on the same line, whatever comes.
        ensures line { IsOfLine self.old.line self.new.line }
    {
        match read_command(packet) {
            Command::Show(show) => self.answer_show(alloc, show),
            Command::Change => past(alloc),
            Command::Note(note) => self.answer_note(alloc, note),
            Command::Go(way, thread) => self.lead(alloc, way, thread),
            Command::Other(other) => self.obey(alloc, other, packet),
        }
    }
}
