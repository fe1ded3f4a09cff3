//! Commands of gdb's `monitor`.

ghost use Rattle.std.specs.Prelude.{◌≡◌, ℕ, ◌≤◌, ◌<◌, ◌++◌, Some, OnOk, codes, length};
ghost use Rattle.ft_types.specs.declared.names.TheConstants.{HART_LIMIT};
ghost use Rattle.plan_lines.specs.Line.{steps_of};
ghost use Rattle.debugging.specs.Monitor.{step_text, writer_text, moment_text, counts_text, IsPutBehind, TellsPlace, TellsWriter, HasStayed, HasGoneTo, IsPlace, IsAddress, IsNamed, AsksToTell, Tells, Told, Who};
ghost use Rattle.debugging.specs.Notes.{harts_of};
ghost use Rattle.debugging.specs.Sessions.{IsOfLine};

use crate::numbers::{cut, is, read_hex};
use crate::queries::{hex_text, put_hart};
use crate::runs::{count_of, hart_at, last_touch};
use crate::session::Session;
use crate::stops::{put, put_number};
use ft_types::{Count, Hart, Memory, read_number};
use hart_replay::{PlannedLeg, ReplayFault};
use hex::FromHexError;
use moments::{Point, Timeline, Watched};
use plan_lines::{Access, Bytes};
use std::alloc::Global;

/// How many steps `race` looks at, at the most.
const TOUCH_LIMIT: usize = 1000;

/// What the commands are.
const HELP: &[u8] =
    b"where | goto H N | output H K | input H K | edges | who ADDRESS | race ADDRESS\n";

/// A step that touched a word, by its hart and count, and whether it wrote it.
#[derive(Clone, Copy)]
struct Touch {
    hart: Hart,
    count: Count,
    writes: bool,
}

/// Puts each hart's count.
fn put_counts(text: &mut Vec<u8>, line: &Timeline) -> Result<(), Memory>
    ensures { OnOk result (text.new.items ≡ text.old.items ++ counts_text line.now.stands.machine (length line.now.stands.machine.harts)) }
{
    for number in 0..line.harts() {
        text.push(b' ')?;
        put_number(text, count_of(line, Hart::new(number)))?;
    }
    Ok(())
}

/// Puts the moment, and how many there are.
fn put_moment(text: &mut Vec<u8>, line: &Timeline) -> Result<(), Memory>
    ensures { OnOk result (text.new.items ≡ text.old.items ++ moment_text line.now) }
{
    text.extend_from_slice(b" moment ")?;
    put_number(text, line.now())?;
    text.extend_from_slice(b" of ")?;
    put_number(text, line.last())
}

/// Puts the term, the moment, how many there are, and each hart's count.
fn put_place(text: &mut Vec<u8>, line: &Timeline) -> Result<(), Memory>
    ensures { OnOk result (IsPutBehind text.old.items text.new.items (TellsPlace line.now)) }
{
    text.extend_from_slice(b"term ")?;
    put_number(text, u64::from(line.term()))?;
    put_moment(text, line)?;
    text.extend_from_slice(b" counts")?;
    put_counts(text, line)?;
    text.push(b'\n')?;
    Ok(())
}

/// Puts a step, by its hart and count.
fn put_step(text: &mut Vec<u8>, verb: &[u8], hart: Hart, count: Count) -> Result<(), Memory>
    ensures { OnOk result (text.new.items ≡ text.old.items ++ step_text verb.now hart count) }
{
    text.extend_from_slice(verb)?;
    text.extend_from_slice(b" hart ")?;
    put_number(text, u64::from(hart.number()))?;
    text.extend_from_slice(b" step ")?;
    put_number(text, count)?;
    text.push(b'\n')?;
    Ok(())
}

/// The hart and the number that these words are.
fn read_place(words: &[u8], harts: u8) -> Option<(Hart, u64)>
    requires { harts ≤ HART_LIMIT }
    ensures { (hart number : ℕ) → IsPlace words.now hart number → hart < harts → result ≡ Some (hart, number) }
{
    let (hart, number) = cut(words, b' ');
    let hart = read_number(hart)?;
    if hart >= u64::from(harts) {
        return None;
    }
    Some((Hart::new(hart as u8), read_number(number)?))
}

/// The word at the address that this text is.
fn read_watched(text: &[u8]) -> Option<Bytes>
    ensures { (address : ℕ) → IsAddress text.now address → result ≡ Some (record { first = address; length = 4 }) }
{
    let digits = match text.strip_prefix(b"0x") {
        Some(digits) => digits,
        None => text,
    };
    Some(Bytes {
        first: read_hex(digits)?,
        length: 4,
    })
}

/// Puts who wrote a word last.
fn put_writer(text: &mut Vec<u8>, found: Option<(Hart, Count)>) -> Result<(), Memory>
    ensures { OnOk result (text.new.items ≡ text.old.items ++ writer_text found) }
{
    match found {
        Some((hart, count)) => put_step(text, b"written by", hart, count),
        None => put(text, b"not written\n"),
    }
}

/// The step at which the hart puts out the output with this number: the line stands anywhere then.
#[tactic(auto, using(crate::proofs::Lines::led_on, crate::proofs::Lines::stays, crate::proofs::Lines::goes_on))]
fn output_step(line: &mut Timeline, hart: Hart, number: u64) -> Result<Option<Count>, ReplayFault>
    ensures line { IsOfLine line.old line.new }
{
    line.go_to(line.last())?;
    let Some(state) = hart_at(line, hart) else {
        return Ok(None);
    };
    match state.outputs().get(number as usize) {
        Some((count, _)) => Ok(Some(*count)),
        None => Ok(None),
    }
}

/// The step at which the hart is given the input with this number.
fn input_step(legs: &[PlannedLeg], hart: Hart, number: u64) -> Option<Count> {
    let mut left = number;
    for leg in legs {
        let (counts, _) = leg.inputs.of_hart(hart);
        if left < counts.len() as u64 {
            return Some(counts[left as usize]);
        }
        left -= counts.len() as u64;
    }
    None
}

/// Puts what the hart's next step waits for: each edge with which it has not been met.
fn put_edges(text: &mut Vec<u8>, line: &Timeline, hart: Hart) -> Result<(), Memory> {
    put_hart(text, line, hart)?;
    text.push(b'\n')?;
    let Some(leg) = line.leg() else {
        return Ok(());
    };
    for edge in leg.edges.at(hart, count_of(line, hart)) {
        let is_met = line.counts().count_of(edge.other) >= edge.after;
        let verb: &[u8] = if is_met { b"after" } else { b"waits for" };
        put_step(text, verb, edge.other, edge.after)?;
    }
    Ok(())
}

/// The step that touched the word last, before where the line stands. It stands there then.
fn touch_before(line: &mut Timeline, word: Bytes) -> Result<Option<Touch>, ReplayFault>
    ensures line { IsOfLine line.old line.new }
{
    let Some((hart, count)) = last_touch(line, Point::Watch(Watched::Access, word))? else {
        return Ok(None);
    };
    Ok(Some(Touch {
        hart,
        count,
        writes: matches!(line.access(), Access::Writes(_) | Access::Changes(_)),
    }))
}

/// The last two steps of two harts that touched the word, of which one wrote it, the later one first.
fn last_race(line: &mut Timeline, word: Bytes) -> Result<Option<(Touch, Touch)>, ReplayFault>
    ensures line { IsOfLine line.old line.new }
{
    let Some(mut later) = touch_before(line, word)? else {
        return Ok(None);
    };
    for _look in 0..TOUCH_LIMIT {
        let Some(touch) = touch_before(line, word)? else {
            return Ok(None);
        };
        if touch.hart != later.hart && (touch.writes || later.writes) {
            return Ok(Some((touch, later)));
        }
        later = touch;
    }
    Ok(None)
}

/// Puts a touch.
fn put_touch(text: &mut Vec<u8>, touch: Touch) -> Result<(), Memory> {
    let verb: &[u8] = if touch.writes {
        b"written by"
    } else {
        b"read by"
    };
    put_step(text, verb, touch.hart, touch.count)
}

impl Session {
    /// Goes back to where it stood, since there is no such step.
    #[tactic(auto, using(crate::proofs::Lines::led_on, crate::proofs::Lines::stays, crate::proofs::Lines::goes_on))]
    fn stay(&mut self, text: &mut Vec<u8>, now: u64) -> Result<(), ReplayFault>
        requires { now ≤ steps_of self.old.line.legs }
        ensures line { IsOfLine self.old.line self.new.line }
        ensures there { OnOk result ((self.new.line.stands.moment ≡ now) × (self.new.shown ≡ self.old.shown)) }
        ensures told { OnOk result (text.new.items ≡ text.old.items ++ codes "no such step\n") }
    {
        self.line.go_to(now)?;
        Ok(put(text, b"no such step\n")?)
    }

    /// Goes to a step of a hart, where there is one, and else back to where it stood.
    #[tactic(auto, using(crate::proofs::Lines::led_on, crate::proofs::Lines::stays, crate::proofs::Lines::goes_on, crate::proofs::Lines::within))]
    fn go_to_step(
        &mut self,
        text: &mut Vec<u8>,
        hart: Hart,
        count: Option<Count>,
        now: u64,
    ) -> Result<(), ReplayFault>
        requires { now ≤ steps_of self.old.line.legs }
        ensures line { IsOfLine self.old.line self.new.line }
        ensures went { OnOk result (IsPutBehind text.old.items text.new.items (HasGoneTo hart count now self.old self.new)) }
    {
        let Some(count) = count else {
            return self.stay(text, now);
        };
        if !self.line.go_to_count(hart, count)? {
            return self.stay(text, now);
        }
        self.shown = hart;
        Ok(put_place(text, &self.line)?)
    }

    /// Says who wrote the word last.
    #[tactic(auto, using(crate::proofs::Lines::led_on, crate::proofs::Lines::stays, crate::proofs::Lines::goes_on, crate::proofs::Lines::within))]
    fn tell_writer(&mut self, text: &mut Vec<u8>, word: Bytes) -> Result<(), ReplayFault>
        ensures line { IsOfLine self.old.line self.new.line }
        ensures stays { OnOk result (HasStayed self.old self.new) }
        ensures told { OnOk result (IsPutBehind text.old.items text.new.items (TellsWriter self.old.line word)) }
    {
        let now = self.line.now();
        let found = last_touch(&mut self.line, Point::Watch(Watched::Write, word))?;
        self.line.go_to(now)?;
        Ok(put_writer(text, found)?)
    }

    /// Says which two steps of two harts touched the word last, of which one wrote it.
    #[tactic(auto, using(crate::proofs::Lines::led_on, crate::proofs::Lines::stays, crate::proofs::Lines::goes_on, crate::proofs::Lines::within))]
    fn tell_race(&mut self, text: &mut Vec<u8>, word: Bytes) -> Result<(), ReplayFault>
        ensures line { IsOfLine self.old.line self.new.line }
    {
        let now = self.line.now();
        let found = last_race(&mut self.line, word)?;
        self.line.go_to(now)?;
        let Some((earlier, later)) = found else {
            return Ok(put(text, b"no race\n")?);
        };
        put_touch(text, earlier)?;
        Ok(put_touch(text, later)?)
    }

    /// `goto H N`
    fn go_to_place(&mut self, text: &mut Vec<u8>, words: &[u8]) -> Result<(), ReplayFault>
        ensures line { IsOfLine self.old.line self.new.line }
        ensures went { OnOk result ((hart count : ℕ) → hart < harts_of self.old → IsPlace words.now hart count →
            IsPutBehind text.old.items text.new.items (HasGoneTo hart (Some count) self.old.line.stands.moment self.old self.new)) }
    {
        let now = self.line.now();
        match read_place(words, self.line.harts()) {
            Some((hart, count)) => self.go_to_step(text, hart, Some(count), now),
            None => Ok(put(text, HELP)?),
        }
    }

    /// `output H K`
    fn go_to_output(&mut self, text: &mut Vec<u8>, words: &[u8]) -> Result<(), ReplayFault>
        ensures line { IsOfLine self.old.line self.new.line }
    {
        let now = self.line.now();
        let Some((hart, number)) = read_place(words, self.line.harts()) else {
            return Ok(put(text, HELP)?);
        };
        let count = output_step(&mut self.line, hart, number)?;
        self.go_to_step(text, hart, count, now)
    }

    /// `input H K`
    fn go_to_input(&mut self, text: &mut Vec<u8>, words: &[u8]) -> Result<(), ReplayFault>
        ensures line { IsOfLine self.old.line self.new.line }
    {
        let now = self.line.now();
        let Some((hart, number)) = read_place(words, self.line.harts()) else {
            return Ok(put(text, HELP)?);
        };
        let count = input_step(self.line.plan().legs(), hart, number);
        self.go_to_step(text, hart, count, now)
    }

    /// `who ADDRESS`
    fn tell_who(&mut self, text: &mut Vec<u8>, words: &[u8]) -> Result<(), ReplayFault>
        ensures line { IsOfLine self.old.line self.new.line }
        ensures told { OnOk result ((address : ℕ) → IsAddress words.now address →
            IsPutBehind text.old.items text.new.items (Tells (Who address) self.old self.new)) }
    {
        match read_watched(words) {
            Some(word) => self.tell_writer(text, word),
            None => Ok(put(text, HELP)?),
        }
    }

    /// Does what another command asks that has words behind its name.
    fn do_other(&mut self, text: &mut Vec<u8>, name: &[u8], words: &[u8]) -> Result<(), ReplayFault>
        ensures line { IsOfLine self.old.line self.new.line }
    {
        match (name, read_watched(words)) {
            (b"output", _) => self.go_to_output(text, words),
            (b"input", _) => self.go_to_input(text, words),
            (b"race", Some(word)) => self.tell_race(text, word),
            _ => Ok(put(text, HELP)?),
        }
    }

    /// Does what a command asks that has words behind its name.
    fn do_with(&mut self, text: &mut Vec<u8>, name: &[u8], words: &[u8]) -> Result<(), ReplayFault>
        ensures line { IsOfLine self.old.line self.new.line }
        ensures told { OnOk result ((told : Told) → IsNamed (harts_of self.old) name.now words.now told →
            IsPutBehind text.old.items text.new.items (Tells told self.old self.new)) }
    {
        if is(name, b"goto") {
            return self.go_to_place(text, words);
        }
        if is(name, b"who") {
            return self.tell_who(text, words);
        }
        self.do_other(text, name, words)
    }

    /// What gdb prints for a command, whose text these digits are.
    pub(crate) fn tell(&mut self, alloc: Global, digits: &[u8]) -> Result<Vec<u8>, ReplayFault>
        ensures line { IsOfLine self.old.line self.new.line }
    {
        let mut text = Vec::new(alloc);
        self.tell_digits(alloc, &mut text, digits)?;
        Ok(hex_text(alloc, &text)?)
    }

    /// Does what the command asks whose text these digits are.
    #[tactic(auto, using(crate::proofs::Lines::led_on, crate::proofs::Lines::stays, crate::proofs::Lines::goes_on))]
    fn tell_digits(
        &mut self,
        alloc: Global,
        text: &mut Vec<u8>,
        digits: &[u8],
    ) -> Result<(), ReplayFault>
        ensures line { IsOfLine self.old.line self.new.line }
    {
        match hex::decode(alloc, digits) {
            Ok(command) => self.tell_of(text, &command),
            Err(FromHexError::OutOfMemory) => Err(ReplayFault::Memory),
            Err(_) => Ok(put(text, HELP)?),
        }
    }

    /// Does what the command asks.
    #[tactic(auto, using(crate::proofs::Lines::led_on, crate::proofs::Lines::stays, crate::proofs::Lines::goes_on))]
    fn tell_of(&mut self, text: &mut Vec<u8>, command: &[u8]) -> Result<(), ReplayFault>
        ensures line { IsOfLine self.old.line self.new.line }
        ensures told { OnOk result ((told : Told) → AsksToTell (harts_of self.old) command.now told →
            IsPutBehind text.old.items text.new.items (Tells told self.old self.new)) }
    {
        let (name, words) = cut(command, b' ');
        if is(name, b"where") {
            return Ok(put_place(text, &self.line)?);
        }
        if is(name, b"edges") {
            return Ok(put_edges(text, &self.line, self.shown)?);
        }
        self.do_with(text, name, words)
    }
}
