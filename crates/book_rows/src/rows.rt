//! Plays: a guest, how its books begin, and rows of calls on them and on their leases, each with what it answers.

use ft_types::{Count, Want};
use input_log::Input;
use page_book::Keep;

/// The call is done.
pub const DONE: u8 = 0;
/// Otherwise it is refused with a fault of this number: a lease of the hart is open.
pub const LEASED: u8 = 1;
/// The hart is halted.
pub const HALTED: u8 = 2;
/// An edge at its count is open.
pub const EDGE_OPEN: u8 = 3;
/// It is at its limit, or its end.
pub const AT_LIMIT: u8 = 4;
/// The lease is not this book's.
pub const FOREIGN: u8 = 5;

pub const READ: Want = Want::Read;

pub const WRITE: Want = Want::Write;

/// An edge of a hart: its count, the other hart, and after how many of its steps.
pub type Edge = (Count, u8, Count);

/// An input.
pub enum Heard {
    Timer,
    Word(u32),
    Bell(u8),
}

/// A call of a crew, or of its book, with the answer last. Harts and pages are numbers.
pub enum Row {
    /// Lends a hart.
    Lend(u8, u8),
    /// Asks for a page: the harts in the way, of which each is a bit.
    Ask(u8, u8, Want, u8),
    /// So many turns of the hart's lease, each a step or a page that it lacks: how many steps it has then.
    Go(u8, u32, u64),
    /// Settles the hart's lease.
    Settle(u8, Keep, u8),
    /// Discards it.
    Discard(u8, u8),
    /// Lends the hart, goes as far as it may, and settles it: how many steps it had.
    Run(u8, u64),
    /// The edges that wait in the hart's lease.
    Waits(u8, &'static [Edge]),
    /// The count, stop and steps of its lease.
    Stands(u8, [u64; 3]),
    /// The book's counts, and how many leases were settled.
    Counts(&'static [Count], usize),
    /// What the hart has put out.
    Out(u8, &'static [(Count, u32)]),
    /// The edges of the hart that a book recorded.
    Edges(u8, &'static [Edge]),
    /// The inputs that the hart was given at a count, and the next count behind it at which it was given one.
    Given(u8, Count, &'static [Heard], Option<Count>),
    /// Offers the hart an input, from a count on.
    Offer(u8, Count, Heard),
    /// Raises the limits.
    Raise(&'static [Count]),
    /// A book that begins where this one ends, with limits of 100, is played from here on.
    Begin,
    /// The other one of two books that began alike is played from here on.
    Turn,
    /// The two books' crews trade their open leases.
    Trade,
}

/// What a book obeys that replays: edges, each behind its hart, and the inputs that harts were given.
pub struct Obeyed {
    pub edges: &'static [(u8, Edge)],
    pub inputs: &'static [(u8, Count, Heard)],
}

/// A play of a book that records up to these limits, or replays up to these ends what it obeys.
pub struct Play {
    pub name: &'static str,
    pub file: &'static [u8],
    pub limits: &'static [Count],
    pub obeyed: Option<Obeyed>,
    /// Whether it comes to the machine of the play before it.
    pub alike: bool,
    pub rows: &'static [Row],
}

impl Heard {
    /// The input.
    pub fn input(&self) -> Input {
        match *self {
            Heard::Timer => Input::Timer,
            Heard::Word(word) => Input::Word(word),
            Heard::Bell(number) => Input::Bell(fixtures::hart(number)),
        }
    }
}
