//! What comes to a client, and what it does.

use asking::Told;
use wire::{LineText, Request};

/// What came to a client.
#[derive(Drop)]
pub enum ClientCame {
    /// Nothing yet: it begins.
    Begin,
    /// An input brought lines.
    Lines(Vec<LineText>),
    /// An input is at its end, for good.
    Ended,
    /// Its patience has run out.
    Late,
}

/// Why a client ends.
#[derive(Clone, Copy)]
pub enum ClientEnd {
    /// Each word has its answer, and all are printed.
    Done,
    /// Another answer came for the word of a number that had one.
    Contradiction,
    /// The hart is given no more words.
    Full,
    /// All inputs are at their end, and the answer of this number is missing.
    Unanswered(usize),
}

/// What a client does.
#[derive(Clone, Copy)]
pub enum ClientDeed {
    /// It asks for something.
    Ask(Request),
    /// It prints an answer.
    Print(Told),
    /// Its patience begins anew.
    BePatient,
    /// It ends.
    End(ClientEnd),
}
