//! What a process notes of itself and others, and the line that says so.

use ft_types::{Keeper, Term};
use std::fmt;
use std::fmt::{Display, Formatter};

/// What a process notes, which goes on.
#[derive(Clone, Copy)]
pub enum Note {
    /// It keeps a log, as this keeper.
    Keeps(Keeper),
    /// It leads this term.
    Leads(Term),
    /// It does not hear this keeper any more.
    Lost(Keeper),
    /// It hears this one again.
    Back(Keeper),
    /// This one was fenced off, and acknowledges in this later term.
    Fenced(Keeper, Term),
    /// Outputs wait, and it hears so many keepers, too few.
    Few(u8),
    /// It hears so many again, which is enough.
    Enough(u8),
    /// It waits for the answer of this number for long.
    Unanswered(u64),
    /// The answer of this number came, behind a long wait.
    Answered(u64),
}

impl Display for Note {
    fn fmt<W: fmt::Write>(&self, f: &mut Formatter<W>) -> fmt::Result {
        match self {
            Note::Keeps(keeper) => write!(f, "keeps {}", keeper.number()),
            Note::Leads(term) => write!(f, "leads {term}"),
            Note::Lost(keeper) => write!(f, "keeper {} lost", keeper.number()),
            Note::Back(keeper) => write!(f, "keeper {} back", keeper.number()),
            Note::Fenced(keeper, term) => write!(f, "keeper {} fenced {term}", keeper.number()),
            Note::Few(there) => write!(f, "few {there}"),
            Note::Enough(there) => write!(f, "enough {there}"),
            Note::Unanswered(number) => write!(f, "unanswered {number}"),
            Note::Answered(number) => write!(f, "answered {number}"),
        }
    }
}

/// Notes something on standard error. Where that can't be written the process goes on all the same.
pub fn tell_note<R: Eprint>(rt: &R, what: &Note) {
    let _written = eprintln!(rt; "note {what}");
}
