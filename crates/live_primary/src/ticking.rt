//! A thread that says to a primary how time goes by, and tells what that finds of keepers.

use attendance::Finding;
use ends::{Door, Event, Gone, Host, Note, Taker, bring, tell_note};
use ft_types::Memory;
use primary_turns::Said;
use std::alloc::{AllocError, Global};
use std::sync::{Arc, Mutex, Wait};
use std::thread;
use std::time::Duration;

/// How many milliseconds lie between two ticks.
const INTERVAL: u64 = 500;

/// How many findings wait at the most until they are told; others are left out.
const ROOM: usize = 64;

/// Where findings are left for the thread that tells them.
#[derive(Drop)]
pub(crate) struct Findings {
    waiting: Arc<Mutex<Vec<Finding>>, Global>,
}

impl Findings {
    /// None was left.
    pub(crate) fn new(alloc: Global) -> Result<Findings, AllocError> {
        Ok(Findings {
            waiting: Arc::new(alloc, Mutex::new(Vec::new(alloc)))?,
        })
    }

    /// The same place.
    pub(crate) fn copy(&self) -> Result<Findings, Memory> {
        Ok(Findings {
            waiting: Arc::try_clone(&self.waiting)?,
        })
    }

    /// Leaves one.
    pub(crate) fn leave<R: Wait>(&self, rt: &R, finding: Finding) -> Result<(), Memory> {
        let mut waiting = self.waiting.lock(rt);
        if waiting.len() < ROOM {
            waiting.push(finding)?;
        }
        Ok(())
    }

    /// Takes those that were left.
    fn take<R: AllocGlobal + Wait>(&self, rt: &R) -> Result<Vec<Finding>, Memory> {
        let mut waiting = self.waiting.lock(rt);
        let taken = waiting.as_slice().to_vec(rt.alloc())?;
        waiting.clear();
        Ok(taken)
    }
}

/// As it is noted, where it is.
fn note_of(finding: Finding) -> Option<Note> {
    match finding {
        Finding::Lacks(_) => None,
        Finding::Lost(keeper) => Some(Note::Lost(keeper)),
        Finding::Back(keeper) => Some(Note::Back(keeper)),
        Finding::Fenced(keeper, term) => Some(Note::Fenced(keeper, term)),
        Finding::Few(there) => Some(Note::Few(there)),
        Finding::Enough(there) => Some(Note::Enough(there)),
    }
}

/// Notes the findings that were left.
fn note_all<H: Host>(rt: &H, findings: &Findings) -> Result<(), Memory> {
    for finding in findings.take(rt)? {
        if let Some(what) = note_of(finding) {
            tell_note(rt, &what);
        }
    }
    Ok(())
}

/// Brings a tick.
fn bring_tick<H: Host, T: Taker<H>>(rt: &H, to: &Door<Event<Said>, T>) -> Result<(), Gone> {
    match vec![in rt.alloc(); Said::Tick] {
        Ok(said) => bring(rt, to, Event::Lines(0, said)),
        Err(_) => Ok(()),
    }
}

/// Brings each tick, and notes what is found, until nobody leads any more. A tick for which memory is wanting is left out.
fn tick<H: Host, T: Taker<H>>(
    rt: &H,
    to: &Door<Event<Said>, T>,
    findings: &Findings,
) -> Result<(), Gone> {
    for _ in rt.forever() {
        let _slept = thread::sleep(rt, Duration::from_millis(INTERVAL));
        bring_tick(rt, to)?;
        let _noted = note_all(rt, findings);
    }
    Ok(())
}

/// Starts a thread that brings a tick each half of a second.
pub(crate) fn begin_ticks<H: Host, T: Taker<H>>(
    rt: &H,
    to: &Door<Event<Said>, T>,
    findings: Findings,
) -> Result<(), Memory> {
    let own = *rt;
    let to = to.copy()?;
    match thread::spawn(rt, move || {
        let _ended = tick(&own, &to, &findings);
    }) {
        Ok(_thread) => Ok(()),
        Err(_) => Err(Memory),
    }
}
