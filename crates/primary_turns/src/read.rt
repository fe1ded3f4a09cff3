//! What keepers have read.

ghost use Rattle.std.specs.Prelude.{◌≡◌};

use crate::deeds::Extent;
use ft_types::{Counts, Hart};
use std::option::Option;
use wire::Acknowledgement;

/// To which counts frames went that were sent.
#[derive(Clone, Copy)]
pub(crate) struct Sent {
    /// Those that were sent last; none before the first.
    pub(crate) last: Option<Counts>,
    /// Those that were sent before them.
    before: Option<Counts>,
}

/// Whether each hart of the first is at least where it is in the second.
pub(crate) fn reaches(counts: &Counts, others: &Counts) -> bool {
    for number in 0..others.harts() {
        let hart = Hart::new(number);
        if number >= counts.harts() || counts.get(hart) < others.get(hart) {
            return false;
        }
    }
    true
}

/// Whether what was acknowledged reaches what was sent, if anything was.
fn has_come_to(acknowledgement: &Acknowledgement, sent: &Option<Counts>) -> bool {
    match sent {
        Some(sent) => reaches(&acknowledgement.counts, sent),
        None => false,
    }
}

impl Sent {
    /// Nothing was sent.
    pub(crate) fn new() -> Sent {
        Sent {
            last: None,
            before: None,
        }
    }

    /// Notes that frames are sent which go to these counts.
    pub(crate) fn note(&mut self, counts: Counts) {
        self.before = self.last.replace(counts);
    }

    /// Those that were sent last.
    pub(crate) fn last(&self) -> Option<Counts> {
        self.last
    }

    /// How much a keeper has read that acknowledges this in the term, as far as that is known.
    pub(crate) fn read_by(&self, acknowledgement: &Acknowledgement) -> Option<Extent> {
        if has_come_to(acknowledgement, &self.last) {
            Some(Extent::All)
        } else if has_come_to(acknowledgement, &self.before) {
            Some(Extent::AllButLast)
        } else {
            None
        }
    }
}
