//! The inputs that wait for one hart.

ghost use Rattle.std.specs.Prelude.{◌≡◌, ◌≤◌, ◌<◌, ◌⊎◌, ℕ, [], false, Ok, None, length, IfOk, IfSome, OnOk, OnErr};
ghost use Rattle.input_log.specs.Inputs.{is_bell};
ghost use Rattle.input_log.specs.declared.Input.TheVariants.{Timer, Word};
ghost use Rattle.requests.specs.Numbered.{Words, HandsOn, GoesOnAt, after, came_of};
ghost use Rattle.requests.specs.Queues.{IsQueueOf, after_asked, at_room, came, comes_of, front, handed_on, with_input};
ghost use Rattle.requests.specs.declared.queue.Came.TheVariants.{Taken as WasTaken};

use ft_types::{Count, Memory};
use input_log::Input;
use std::alloc::Global;
use std::collections::VecDeque;
use std::marker::Model;
use std::option::Option;
use std::result::Result;

/// The number of words that a hart is given at the most: so many are told apart by INSEQ, which goes round behind them.
pub const WORD_LIMIT: u32 = u32::MAX;

/// The number of inputs that wait for a hart at the most, timer's interrupts among them: twice as many as the shortest lines in a piece of
/// 4,096 bytes that a client writes at once.
pub const QUEUE_ROOM: usize = 1_024;

/// What became of a word that was asked for, or of the timer's interrupt.
#[derive(Clone, Copy, PartialEq, Eq)]
pub enum Came {
    /// It waits now, behind all that came before it.
    Taken,
    /// The word of this number came before.
    Repeat,
    /// Words before it are missing. Its client is to ask for it again.
    Ahead,
    /// `WORD_LIMIT` words came.
    Full,
    /// `QUEUE_ROOM` inputs wait. Its client is to ask for it again.
    Busy,
}

/// What becomes of an input that would be taken, where so many wait.
fn room_for(waiting: usize) -> Came
    ensures answer { result ≡ at_room waiting WasTaken }
    ensures room { result ≡ WasTaken → waiting < QUEUE_ROOM }
{
    if waiting < QUEUE_ROOM {
        Came::Taken
    } else {
        Came::Busy
    }
}

/// What becomes of a word with this number, or with none, where so many came before it, and so many inputs wait.
fn answer(came: u32, waiting: usize, number: Option<Count>) -> Came
    ensures answer { result ≡ at_room waiting (came_of came number) }
    ensures limit { result ≡ WasTaken → came < WORD_LIMIT }
    ensures room { result ≡ WasTaken → waiting < QUEUE_ROOM }
{
    if let Some(number) = number {
        if number < u64::from(came) {
            return Came::Repeat;
        }
        if number > u64::from(came) {
            return Came::Ahead;
        }
    }
    if came < WORD_LIMIT {
        room_for(waiting)
    } else {
        Came::Full
    }
}

/// The inputs that came for a hart and wait until its machine is handed them, words and the timer's interrupts in the order in which they
/// came. A machine tells a hart's last word alone, so a word is handed on once the hart was given those before it.
///
/// Contracts see how many words were handed on, and what waits.
#[derive(Drop)]
pub struct Queue {
    /// How many words the machine was handed since boot.
    handed: u32,
    /// How many words came in all.
    came: u32,
    waiting: VecDeque<Input>,
}

impl Model for Queue {
    ghost use Rattle.std.specs.Prelude.{◌≡◌, ◌+◌, ◌≤◌, length};
    ghost use Rattle.requests.specs.Queues.{QueueView, words_in, AreNoBells};
    ghost use Rattle.requests.specs.declared.queue.TheConstants.{QUEUE_ROOM};

    ghost Value = { QueueView };

    ghost view = { λ q. record { handed = q.handed; waiting = q.waiting.items } };

    ghost invariant = { λ q. (q.came ≡ q.handed + length (words_in q.waiting.items)) × AreNoBells q.waiting.items
        × (length q.waiting.items ≤ QUEUE_ROOM) };
}

impl Queue {
    /// The queue of a hart that was given so many words: INSEQ of the machine with which a primary begins or goes on. The word of this
    /// number is the next one that is taken.
    pub fn new(alloc: Global, given: u32) -> Queue
        ensures value { result ≡ record { handed = given; waiting = [] } }
        ensures follows { (words : Words) → given ≤ length words.handed → IsQueueOf (after words (GoesOnAt given)) result }
    {
        Queue {
            handed: given,
            came: given,
            waiting: VecDeque::new(alloc),
        }
    }

    /// How many words came in all: those that the machine was handed, and those that wait.
    pub fn words(&self) -> u32
        ensures value { result ≡ came self.now }
        ensures limit { result ≤ WORD_LIMIT }
        // Whatever was asked, no more wait.
        ensures room { length self.now.waiting ≤ QUEUE_ROOM }
    {
        self.came
    }

    /// How many words the machine was handed.
    pub fn handed(&self) -> u32
        ensures { result ≡ self.now.handed }
    {
        self.handed
    }

    /// Takes a word where it is the next one by its number, or has none.
    pub fn put_word(&mut self, word: u32, number: Option<Count>) -> Result<Came, Memory>
        ensures answer { IfOk result (λ c. c ≡ comes_of self.old number) }
        ensures taken { result ≡ Ok WasTaken → self.new ≡ with_input self.old (Word word) }
        // A word that is not taken changes nothing, nor does want of memory.
        ensures stays { (result ≡ Ok WasTaken → ⊥) → self.new ≡ self.old }
        // Memory is wanted for a word alone that would be taken.
        ensures memory { OnErr result (comes_of self.old number ≡ WasTaken) }
        ensures follows { (words : Words) → IsQueueOf words self.old →
            IfOk result (λ c. IsQueueOf (after_asked words (record { word = word; number = number }) c) self.new) }
    {
        let answer = answer(self.came, self.waiting.len(), number);
        if let Came::Taken = answer {
            self.waiting.push_back(Input::Word(word))?;
            self.came += 1;
        }
        Ok(answer)
    }

    /// Takes the timer's interrupt, where there is room for it.
    pub fn put_timer(&mut self) -> Result<Came, Memory>
        ensures answer { IfOk result (λ c. c ≡ at_room (length self.old.waiting) WasTaken) }
        ensures taken { result ≡ Ok WasTaken → self.new ≡ with_input self.old Timer }
        // One that is not taken changes nothing, nor does want of memory.
        ensures stays { (result ≡ Ok WasTaken → ⊥) → self.new ≡ self.old }
        // Memory is wanted for one alone that would be taken.
        ensures memory { OnErr result (at_room (length self.old.waiting) WasTaken ≡ WasTaken) }
        ensures follows { (words : Words) → IsQueueOf words self.old → IsQueueOf words self.new }
    {
        let room = room_for(self.waiting.len());
        if let Came::Taken = room {
            self.waiting.push_back(Input::Timer)?;
        }
        Ok(room)
    }

    /// What the machine may be handed next, where it gave the hart so many words: the front, once the hart was given all that were handed
    /// on.
    pub fn next(&self, given: u32) -> Option<Input>
        ensures ready { given ≡ self.now.handed → result ≡ front self.now.waiting }
        ensures waits { (given ≡ self.now.handed → ⊥) → result ≡ None }
        ensures no_bell { IfSome result (λ input. is_bell input ≡ false) }
    {
        if given != self.handed {
            return None;
        }
        match self.waiting.front() {
            Some(input) => Some(*input),
            None => None,
        }
    }

    /// The machine was handed the front, which waits no longer.
    pub fn hand_on(&mut self)
        ensures value { self.new ≡ handed_on self.old.handed self.old.waiting }
        ensures came { came self.new ≡ came self.old }
        ensures follows { (words : Words) → IsQueueOf words self.old →
            IsQueueOf words self.new ⊎ IsQueueOf (after words HandsOn) self.new }
    {
        if let Some(Input::Word(_)) = self.waiting.pop_front() {
            self.handed += 1;
        }
    }
}
