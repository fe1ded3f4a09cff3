//! A client's side of a talk.

ghost use Rattle.std.specs.Prelude.{◌≡◌, ◌+◌, ◌↔◌, ℕ, None, Some, length, replicate, IfOk, IfSome, IfNone, IsTrue};
ghost use Rattle.std.specs.Option.{option_to_list};
ghost use Rattle.ft_types.specs.Text.{line};
ghost use Rattle.ft_types.specs.declared.names.TheConstants.{HART_LIMIT};
ghost use Rattle.requests.specs.Asking.{had, heard, first_open, with_answer, next_of, asked_again};
ghost use Rattle.requests.specs.declared.asker.Heard.TheVariants.{New as IsNew, Foreign as IsForeign};
ghost use Rattle.wire.specs.Answers.{SaysAnswer};
ghost use Rattle.wire.specs.declared.answers.Answer.{Answer as answer_of_specs};
ghost use Rattle.asking.specs.Talks.{told_text};

use ft_types::{Count, HART_LIMIT, Hart, LineBuffer, Memory};
use requests::{Asker, Heard};
use std::alloc::Global;
use std::marker::Model;
use std::option::Option;
use std::result::Result;
use wire::{Request, read_answer};

/// An answer, to the word of its number.
#[derive(Clone, Copy, PartialEq, Eq)]
pub struct Told {
    /// The number.
    pub number: Count,
    /// The word that the guest answered.
    pub word: u32,
}

/// The line of an answer.
pub fn told_line(told: &Told) -> LineBuffer
    ensures { result ≡ line (told_text told.now) }
{
    let mut text = LineBuffer::new();
    text.push(b"number ");
    text.push_number(told.number);
    text.push(b" word ");
    text.push_word(told.word);
    text.push(b"\n");
    text
}

/// A client. Contracts see what it asks and has heard, and how many answers it has told.
#[derive(Drop)]
pub struct Talk {
    asker: Asker,
    told: usize,
}

impl Model for Talk {
    ghost use Rattle.asking.specs.Talks.{TalkView};

    ghost Value = { TalkView };

    ghost view = { λ t. record { asker = t.asker; told = t.told } };
}

impl Talk {
    /// A client with these words for hart 0, of which so many may be open.
    pub fn new(alloc: Global, words: Vec<u32>, window: usize) -> Result<Talk, Memory>
        ensures { IfOk result (λ t. t ≡ record {
          asker = record {
            hart = 0;
            words = words.items;
            answers = replicate (length words.items) None;
            sent = 0;
            window = window;
          };
          told = 0;
        }) }
    {
        let asker = Asker::new(alloc, Hart::new(0), words, window)?;
        Ok(Talk { asker, told: 0 })
    }

    /// The next word that is asked for, where there is one and not too many are open.
    pub fn ask(&mut self) -> Option<Request>
        ensures request { result ≡ next_of self.old.asker }
        ensures sent { self.new ≡ record self.old { asker = record self.old.asker { sent = self.old.asker.sent + length (option_to_list result) } } }
    {
        self.asker.next()
    }

    /// What is asked once more where answers are missing: the outputs from the first of them on, and each word without one.
    pub fn ask_again(&self, alloc: Global) -> Result<Vec<Request>, Memory>
        ensures { IfOk result (λ requests. requests.items ≡ asked_again self.now.asker) }
    {
        self.asker.again(alloc)
    }

    /// Takes a line's text. One that is no answer is nothing that was asked for. What was heard stays.
    pub fn hear(&mut self, text: &[u8]) -> Heard
        ensures answer { (a : answer_of_specs) → SaysAnswer HART_LIMIT text.now a → result ≡ heard self.old.asker a.output }
        ensures new { (a : answer_of_specs) → SaysAnswer HART_LIMIT text.now a → result ≡ IsNew →
            self.new ≡ record self.old { asker = with_answer self.old.asker a.output } }
        ensures other { ((a : answer_of_specs) → SaysAnswer HART_LIMIT text.now a → ⊥) → result ≡ IsForeign }
        // What is no new answer changes nothing.
        ensures stays { (result ≡ IsNew → ⊥) → self.new ≡ self.old }
        ensures grows { (number word : ℕ) → had self.old.asker number ≡ Some word → had self.new.asker number ≡ Some word }
    {
        match read_answer(HART_LIMIT, text) {
            Some(answer) => self.asker.hear(&answer),
            None => Heard::Foreign,
        }
    }

    /// The next answer, in the order of the words, where it is there. Each is told once.
    pub fn tell(&mut self) -> Option<Told>
        ensures next { IfSome result (λ t. (t.number ≡ self.old.told) × (had self.old.asker self.old.told ≡ Some t.word)
            × (self.new ≡ record self.old { told = self.old.told + 1 })) }
        ensures none { IfNone result ((had self.old.asker self.old.told ≡ None) × (self.new ≡ self.old)) }
    {
        if self.told >= self.asker.words() {
            return None;
        }
        let word = self.asker.answer(self.told)?;
        let number = self.told as u64;
        self.told += 1;
        Some(Told { number, word })
    }

    /// How many answers were told.
    pub fn told(&self) -> usize
        ensures { result ≡ self.now.told }
    {
        self.told
    }

    /// Whether each word has its answer.
    pub fn is_done(&self) -> bool
        ensures { IsTrue result ↔ (first_open self.now.asker.answers ≡ length self.now.asker.words) }
    {
        self.asker.is_done()
    }
}
