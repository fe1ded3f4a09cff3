//! What a fragment of a log speaks of.

ghost use Rattle.std.specs.Prelude.{◌≡◌};
ghost use Rattle.fragment_codec.specs.Rules.{count_of};

use edge_log::Edge;
use ft_types::{Count, HART_ROW, Hart, Term};
use input_log::Input;

/// The first version of frames, which is read, and in which a frame is written that has no spelling in `FRAME_VERSION`.
pub const FIRST_VERSION: u8 = 1;

/// The version in which frames are written where they have a spelling in it.
pub const FRAME_VERSION: u8 = 2;

/// The number of harts of a guest of which the first version tells at the most.
pub const FIRST_HARTS: u8 = 8;

/// One more than the number of counts of which a fragment tells in `FRAME_VERSION` at the most.
pub const SPAN_LIMIT: u64 = 1 << 32;

/// The number of records of a fragment at the most.
pub const RECORD_LIMIT: usize = 256;

/// The number of bytes of a log body of the first version at the most, in which each record is an edge.
pub const FIRST_BODY_LIMIT: usize = 60 + 18 * RECORD_LIMIT;

/// The number of bytes of a log body at the most, in which each record is an edge.
pub const BODY_LIMIT: usize = 60 + 14 * RECORD_LIMIT;

/// The number of bytes of an opening body of the first version at the most, which has a count for each hart.
pub const FIRST_OPENING_LIMIT: usize = 41 + 8 * FIRST_HARTS as usize;

/// The number of bytes of an opening body at the most, which has a count for each hart.
pub const OPENING_LIMIT: usize = 41 + 8 * HART_ROW;

/// The number of bytes of a frame of any version at the most: head, body and digest.
pub const FRAME_LIMIT: usize = 8 + FIRST_BODY_LIMIT + 32;

/// Which fragment it is.
#[derive(Clone, Copy, PartialEq, Eq)]
pub struct Key {
    /// The term in which it was logged.
    pub term: Term,
    /// The hart whose log it is of.
    pub hart: Hart,
    /// Its place among that hart's fragments of the term, from 0.
    pub place: u32,
}

/// One fact of a hart's log.
#[derive(Clone, Copy, PartialEq, Eq)]
pub enum Record {
    /// A step of the hart comes after steps of another.
    Edge(Edge),
    /// The hart is given an input at this count.
    Input(Count, Input),
    /// At this count the hart's outputs with numbers below this one were released.
    Note(Count, u64),
}

impl Record {
    /// The count at which the fact stands.
    pub fn count(&self) -> Count
        ensures { result ≡ count_of self.now }
    {
        match self {
            Record::Edge(edge) => edge.at,
            Record::Input(at, _) | Record::Note(at, _) => *at,
        }
    }
}
