//! What is asked about the machine and the session.

ghost use Rattle.std.specs.Prelude.{◌≡◌, ◌≤◌, ◌++◌, ℕ, List, codes, IfOk};
ghost use Rattle.ft_types.specs.declared.names.TheConstants.{HART_LIMIT};
ghost use Rattle.debugging.specs.Sessions.{IsOfLine};
ghost use Rattle.debugging.specs.Stops.{thread_text};
ghost use Rattle.debugging.specs.Queries.{threads_of, supported, AsksForConstant, AsksForText};

use crate::features::features_text;
use crate::numbers::{behind, hart_of, is, read_thread};
use crate::runs::{count_of, hart_at};
use crate::session::Session;
use crate::stops::{put_number, put_thread};
use ft_types::{Hart, Memory};
use moments::Timeline;
use std::alloc::Global;

/// What a session can.
const SUPPORTED: &[u8] =
    b"PacketSize=1000;QStartNoAckMode+;ReverseStep+;ReverseContinue+;qXfer:features:read+;vContSupported+;swbreak+";

/// Every thread.
fn threads_text(alloc: Global, harts: u8) -> Result<Vec<u8>, Memory>
    requires { harts ≤ HART_LIMIT }
    ensures { IfOk result (λ text. text.items ≡ threads_of harts) }
{
    let mut text = Vec::new(alloc);
    for number in 0..harts {
        text.push(if number == 0 { b'm' } else { b',' })?;
        put_thread(&mut text, Hart::new(number))?;
    }
    Ok(text)
}

/// Whether the hart is halted.
fn is_halted(line: &Timeline, hart: Hart) -> bool {
    match hart_at(line, hart) {
        Some(state) => state.is_halted(),
        None => true,
    }
}

/// How many steps a hart has taken, and whether it is halted.
pub(crate) fn put_hart(text: &mut Vec<u8>, line: &Timeline, hart: Hart) -> Result<(), Memory> {
    text.extend_from_slice(b"hart ")?;
    put_number(text, u64::from(hart.number()))?;
    text.extend_from_slice(b" count ")?;
    put_number(text, count_of(line, hart))?;
    if is_halted(line, hart) {
        text.extend_from_slice(b" halted")?;
    }
    Ok(())
}

/// What is told of a thread.
fn told_thread(alloc: Global, line: &Timeline, thread: &[u8]) -> Result<Vec<u8>, Memory> {
    let mut text = Vec::new(alloc);
    if let Some(hart) = hart_of(read_thread(thread), line.harts()) {
        put_hart(&mut text, line, hart)?;
    }
    hex_text(alloc, &text)
}

/// Two digits for each byte.
pub(crate) fn hex_text(alloc: Global, bytes: &[u8]) -> Result<Vec<u8>, Memory> {
    Ok(hex::encode(alloc, bytes)?.into_bytes())
}

/// The thread of which more is asked.
fn chosen_text(alloc: Global, hart: Hart) -> Result<Vec<u8>, Memory>
    ensures { IfOk result (λ text. text.items ≡ codes "QC" ++ thread_text hart) }
{
    let mut text = Vec::new(alloc);
    text.extend_from_slice(b"QC")?;
    put_thread(&mut text, hart)?;
    Ok(text)
}

/// What a query about what a session can is answered; nothing else of this form is known.
fn abilities(query: &[u8]) -> &'static [u8]
    ensures { (rest : List ℕ) → query.now ≡ codes "qSupported" ++ rest → result.now ≡ supported }
{
    if is(query, b"vCont?") {
        return b"vCont;c;C;s;S";
    }
    match behind(query, b"qSupported") {
        Some(_) => SUPPORTED,
        None => b"",
    }
}

/// The constant that a query is answered, where it is answered one.
fn constant(query: &[u8]) -> &'static [u8]
    ensures { (text : List ℕ) → AsksForConstant query.now text → result.now ≡ text }
{
    if is(query, b"QStartNoAckMode") {
        return b"OK";
    }
    if is(query, b"qsThreadInfo") {
        return b"l";
    }
    if is(query, b"qAttached") {
        return b"1";
    }
    abilities(query)
}

/// These bytes.
fn copied(alloc: Global, bytes: &[u8]) -> Result<Vec<u8>, Memory>
    ensures { IfOk result (λ text. text.items ≡ bytes.now) }
{
    Ok(bytes.to_vec(alloc)?)
}

/// What is told of a thread, or of the registers; or a constant.
fn told_otherwise(alloc: Global, line: &Timeline, query: &[u8]) -> Result<Vec<u8>, Memory>
    ensures { (text : List ℕ) → AsksForConstant query.now text → IfOk result (λ told. told.items ≡ text) }
{
    if let Some(range) = behind(query, b"qXfer:features:read:target.xml:") {
        return features_text(alloc, range);
    }
    if let Some(thread) = behind(query, b"qThreadExtraInfo,") {
        return told_thread(alloc, line, thread);
    }
    copied(alloc, constant(query))
}

impl Session {
    /// What the query is answered.
    #[tactic(auto, using(crate::proofs::Lines::stays))]
    pub(crate) fn ask(&mut self, alloc: Global, query: &[u8]) -> Result<Vec<u8>, Memory>
        ensures line { IsOfLine self.old.line self.new.line }
        ensures still { (text : List ℕ) → AsksForText query.now self.old text → self.new ≡ self.old }
        ensures told { (text : List ℕ) → AsksForText query.now self.old text → IfOk result (λ told. told.items ≡ text) }
    {
        match behind(query, b"qRcmd,") {
            Some(digits) => self.answer_monitor(alloc, digits),
            None => self.told_of(alloc, query),
        }
    }

    /// What is told of the machine and of what a session can.
    fn told_of(&self, alloc: Global, query: &[u8]) -> Result<Vec<u8>, Memory>
        ensures { (text : List ℕ) → AsksForText query.now self.now text → IfOk result (λ told. told.items ≡ text) }
    {
        if is(query, b"qfThreadInfo") {
            return threads_text(alloc, self.line.harts());
        }
        if is(query, b"qC") {
            return chosen_text(alloc, self.shown);
        }
        told_otherwise(alloc, &self.line, query)
    }
}
