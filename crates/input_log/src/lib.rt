//! What comes to a hart from outside: inputs, the log of those that were given at a count, and the desk of those that wait.
#![tactic(auto)]

ghost use Rattle.std.specs.Prelude.{◌≡◌};
ghost use Rattle.input_log.specs.Inputs.{is_bell};

mod desk;
mod log;
mod note_log;
mod note_row;
mod offered;
mod queue;
mod row;

pub use desk::Desk;
use ft_types::{Count, Hart};
pub use log::InputLog;
pub use note_log::NoteLog;
pub use offered::{Offer, Offered};

/// What a hart is given at a step, before it takes it.
#[derive(Clone, Copy, PartialEq, Eq)]
pub enum Input {
    /// The machine timer's interrupt becomes pending.
    Timer,
    /// A word comes in, and the machine external interrupt becomes pending.
    Word(u32),
    /// This hart rang, and the machine software interrupt becomes pending.
    Bell(Hart),
}

impl Input {
    /// Whether a hart rang.
    pub fn is_bell(&self) -> bool
        ensures { result ≡ is_bell self.now }
    {
        match *self {
            Input::Timer | Input::Word(_) => false,
            Input::Bell(_) => true,
        }
    }
}

impl Default for Input {
    fn default() -> Input {
        Input::Timer
    }
}

/// A bell that waits.
#[derive(Clone, Copy)]
pub struct WaitingBell {
    /// The hart that rang.
    pub source: Hart,
    /// That hart's count after the step that rang: whoever hears the bell comes after so many steps of it.
    pub after: Count,
}

impl Default for WaitingBell {
    fn default() -> WaitingBell {
        WaitingBell {
            source: Hart::new(0),
            after: 0,
        }
    }
}

/// An input that waits, and is no bell.
#[derive(Clone, Copy)]
pub struct WaitingInput {
    /// The least count at which it may be given.
    pub not_before: Count,
    /// What is given.
    pub input: Input,
}

/// At this count of a hart, all its outputs with numbers below `number` were released.
#[derive(Clone, Copy)]
pub struct Note {
    /// The hart.
    pub hart: Hart,
    /// The count at which this was noted.
    pub at: Count,
    /// The number of the next output.
    pub number: u64,
}
