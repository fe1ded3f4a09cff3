//! A client that has words for one hart, each of which is answered by one output: the word of a number by the output of that number.

ghost use Rattle.std.specs.Prelude.{◌≡◌, ◌+◌, ◌<◌, ◌≤◌, ℕ, Option, None, Some, length, replicate, IfOk, IsTrue, ◌↔◌};
ghost use Rattle.std.specs.Option.{option_to_list};
ghost use Rattle.requests.specs.Asking.{had, heard, told, first_open, with_answer, request_of, next_of, asked_again};
ghost use Rattle.requests.specs.declared.asker.Heard.TheVariants.{New as IsNew};

use ft_types::{Hart, Memory};
use std::alloc::Global;
use std::marker::Model;
use std::option::Option;
use std::result::Result;
use wire::{Answer, Request};

/// What an answer is to a client.
#[derive(Clone, Copy, PartialEq, Eq)]
pub enum Heard {
    /// The first answer to the word of its number.
    New,
    /// What was heard before.
    Known,
    /// Another word than what was heard before.
    Contradiction,
    /// Nothing that was asked for.
    Foreign,
}

/// A client. Contracts see its words and what it has heard of each.
#[derive(Drop)]
pub struct Asker {
    hart: Hart,
    words: Vec<u32>,
    answers: Vec<Option<u32>>,
    /// How many words were asked for.
    sent: usize,
    /// The number of the first word without an answer.
    first: usize,
    window: usize,
}

impl Model for Asker {
    ghost use Rattle.std.specs.Prelude.{◌≡◌, ◌≤◌, length};
    ghost use Rattle.requests.specs.Asking.{AskerView, first_open};

    ghost Value = { AskerView };

    ghost view = { λ a. record { hart = a.hart; words = a.words.items; answers = a.answers.items; sent = a.sent; window = a.window } };

    ghost invariant = { λ a. (length a.answers.items ≡ length a.words.items) × (a.sent ≤ length a.words.items) × (a.first ≡ first_open a.answers.items) };
}

/// No answer for each of so many words.
fn no_answers(alloc: Global, many: usize) -> Result<Vec<Option<u32>>, Memory>
    ensures { IfOk result (λ answers. answers.items ≡ replicate many None) }
{
    let mut answers = Vec::new(alloc);
    for _ in 0..many {
        answers.push(None)?;
    }
    Ok(answers)
}

/// What a word is to a client that had this one before, or none.
fn compare(before: Option<u32>, word: u32) -> Heard
    ensures { result ≡ told before word }
{
    match before {
        None => Heard::New,
        Some(before) if before == word => Heard::Known,
        Some(_) => Heard::Contradiction,
    }
}

/// The number of the first word without an answer, where those below this one have theirs.
fn first_from(answers: &[Option<u32>], from: usize) -> usize
    requires { from ≤ first_open answers.now }
    ensures { result ≡ first_open answers.now }
{
    for number in from..answers.len() {
        if answers[number].is_none() {
            return number;
        }
    }
    answers.len()
}

impl Asker {
    /// A client with these words for a hart, of which so many may be open.
    pub fn new(alloc: Global, hart: Hart, words: Vec<u32>, window: usize) -> Result<Asker, Memory>
        ensures { IfOk result (λ a. a ≡ record {
          hart = hart;
          words = words.items;
          answers = replicate (length words.items) None;
          sent = 0;
          window = window;
        }) }
    {
        let answers = no_answers(alloc, words.len())?;
        Ok(Asker {
            hart,
            words,
            answers,
            sent: 0,
            first: 0,
            window,
        })
    }

    /// The next word that is asked for, where there is one and not too many are open.
    pub fn next(&mut self) -> Option<Request>
        ensures request { result ≡ next_of self.old }
        ensures sent { self.new ≡ record self.old { sent = self.old.sent + length (option_to_list result) } }
    {
        let number = self.sent;
        if number >= self.words.len() {
            return None;
        }
        if number >= self.first && number - self.first >= self.window {
            return None;
        }
        self.sent += 1;
        Some(self.request(number))
    }

    /// The request for the word of this number.
    fn request(&self, number: usize) -> Request
        requires { number < length self.now.words }
        ensures { result ≡ request_of self.now number }
    {
        Request::Word {
            hart: self.hart,
            word: self.words[number],
            number: Some(number as u64),
        }
    }

    /// What is asked once more where answers are missing: the outputs from the first of them on, and each word without one.
    pub fn again(&self, alloc: Global) -> Result<Vec<Request>, Memory>
        ensures { IfOk result (λ requests. requests.items ≡ asked_again self.now) }
    {
        let mut requests = Vec::new(alloc);
        requests.push(Request::From {
            hart: self.hart,
            number: self.first as u64,
        })?;
        for number in self.first..self.sent {
            if self.answers[number].is_none() {
                requests.push(self.request(number))?;
            }
        }
        Ok(requests)
    }

    /// Takes an answer. What was heard stays.
    pub fn hear(&mut self, answer: &Answer) -> Heard
        ensures answer { result ≡ heard self.old answer.now.output }
        ensures new { result ≡ IsNew → self.new ≡ with_answer self.old answer.now.output }
        // What is no new answer changes nothing.
        ensures stays { (result ≡ IsNew → ⊥) → self.new ≡ self.old }
        ensures grows { (number word : ℕ) → had self.old number ≡ Some word → had self.new number ≡ Some word }
    {
        let output = &answer.output;
        if output.hart != self.hart || output.number >= self.sent as u64 {
            return Heard::Foreign;
        }
        let number = output.number as usize;
        let heard = compare(self.answers[number], output.word);
        if let Heard::New = heard {
            self.answers[number] = Some(output.word);
            self.first = first_from(&self.answers, self.first);
        }
        heard
    }

    /// How many words it has, each of which has an answer or none.
    pub fn words(&self) -> usize
        ensures words { result ≡ length self.now.words }
        ensures answers { result ≡ length self.now.answers }
    {
        self.words.len()
    }

    /// What was heard of the word of this number.
    pub fn answer(&self, number: usize) -> Option<u32>
        ensures { result ≡ had self.now number }
    {
        match self.answers.get(number) {
            Some(answer) => *answer,
            None => None,
        }
    }

    /// Whether each word has its answer.
    pub fn is_done(&self) -> bool
        ensures { IsTrue result ↔ (first_open self.now.answers ≡ length self.now.words) }
    {
        self.first == self.words.len()
    }
}
