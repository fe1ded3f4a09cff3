//! Grants in a plain world.

use crate::fault::PlainFault;
use crate::keeper::Rules;
use crate::plain::PlainWorld;
use crate::plain_primary::PlainPrimary;
use closed_cut::{Position, position};
use fragment_codec::{Frame, Opening};
use ft_types::{Memory, Term};
use go_live::LiveFault;
use guest_image::Machine;
use log_join::Store;
use std::alloc::Global;

/// Of which term the frame is.
fn term_of(frame: &Frame) -> Term {
    match frame {
        Frame::Opening(opening) => opening.term(),
        Frame::Log(piece) => piece.key().term,
    }
}

impl PlainWorld {
    /// Each of these keepers gives its store to the term, where they fence terms off.
    fn give_all(&mut self, term: Term, keepers: &[u64]) -> Result<(), Memory> {
        if matches!(self.rules, Rules::Stopping) {
            return Ok(());
        }
        for keeper in keepers {
            self.give(*keeper, term)?;
        }
        Ok(())
    }

    /// How many different keepers these are.
    fn different(&self, keepers: &[u64]) -> usize {
        let mut many = 0usize;
        for keeper in 0..u64::from(self.keepers) {
            if keepers.contains(&keeper) {
                many = many.saturating_add(1);
            }
        }
        many
    }

    /// Whether more keepers gave their stores than may lack an output that went out.
    fn are_enough(&self, keepers: &[u64]) -> bool {
        let most_lacking = usize::from(self.keepers.saturating_sub(self.need));
        let enough = if matches!(self.rules, Rules::NoQuorum) {
            most_lacking
        } else {
            most_lacking.saturating_add(1)
        };
        self.different(keepers) >= enough
    }

    /// What the keeper gives to the term.
    pub fn given(&self, keeper: u64, term: Term) -> &[u64] {
        match self.keeper(keeper) {
            Ok(keeper) => keeper.given(term),
            Err(_) => &[],
        }
    }

    /// Whether a frame of this term or a later one is in what the keeper gives to the term.
    fn knows_later(&self, keeper: u64, term: Term) -> bool {
        for number in self.given(keeper, term) {
            if let Some(frame) = self.sent.get(*number as usize) {
                if term_of(frame) >= term {
                    return true;
                }
            }
        }
        false
    }

    /// Whether one of these keepers is not there.
    fn lacks_one(&self, keepers: &[u64]) -> bool {
        for keeper in keepers {
            if self.keeper(*keeper).is_err() {
                return true;
            }
        }
        false
    }

    /// Whether one of them gave its store to a later term than this one.
    fn one_gave_later(&self, keepers: &[u64], term: Term) -> bool {
        for keeper in keepers {
            if let Ok(keeper) = self.keeper(*keeper) {
                if keeper.gave_later(term) {
                    return true;
                }
            }
        }
        false
    }

    /// Whether a frame of this term or a later one is in what one of them gives to the term.
    fn one_knows_later(&self, keepers: &[u64], term: Term) -> bool {
        for keeper in keepers {
            if self.knows_later(*keeper, term) {
                return true;
            }
        }
        false
    }

    /// Why the term is not granted to a primary that begins with what these keepers have, where primaries stop, if it is not.
    fn why_not_after(&self, term: Term, keepers: &[u64]) -> Option<PlainFault> {
        let last = self.greatest_term();
        if self.lacks_one(keepers) {
            Some(PlainFault::NoKeeper)
        } else if self.machine(last).is_some() {
            Some(PlainFault::Fenced)
        } else if !self.are_enough(keepers) {
            Some(PlainFault::Live(LiveFault::TooFewStores))
        } else if term <= last {
            Some(PlainFault::Live(LiveFault::TermNotNew))
        } else {
            None
        }
    }

    /// Why it is not granted to one that begins with what they give, where nobody stops a primary, if it is not.
    fn why_not_beside(&self, term: Term, keepers: &[u64]) -> Option<PlainFault> {
        if self.lacks_one(keepers) {
            Some(PlainFault::NoKeeper)
        } else if self.primary(term).is_some() {
            Some(PlainFault::Live(LiveFault::TermNotNew))
        } else if self.one_gave_later(keepers, term) {
            Some(PlainFault::Fenced)
        } else if !self.are_enough(keepers) {
            Some(PlainFault::Live(LiveFault::TooFewStores))
        } else if self.one_knows_later(keepers, term) {
            Some(PlainFault::Live(LiveFault::TermNotNew))
        } else {
            None
        }
    }

    /// The position of all that these keepers give to the term.
    fn position_given(
        &self,
        alloc: Global,
        term: Term,
        keepers: &[u64],
    ) -> Result<Position, Memory> {
        let mut store = Store::new(alloc, self.image.guest());
        for keeper in keepers {
            self.put(alloc, &mut store, self.given(*keeper, term))?;
        }
        position(alloc, &store)
    }

    /// The machine of a position: what the term's primary had done there, or that of the image before the first step.
    fn machine_at(&self, alloc: Global, position: &Position) -> Result<Machine, Memory> {
        match self.primary(position.term) {
            Some(primary) => primary.machine_at(alloc, position.counts),
            None => Machine::boot(alloc, &self.image),
        }
    }

    /// The primary of the term where what these keepers give leads to.
    fn next_primary(
        &self,
        alloc: Global,
        term: Term,
        keepers: &[u64],
    ) -> Result<PlainPrimary, Memory> {
        let position = self.position_given(alloc, term, keepers)?;
        let marks = self.marks_at(&position, term, keepers);
        let guest = self.image.guest();
        let start = self.machine_at(alloc, &position)?;
        match Opening::new(guest, term, position.term, position.counts) {
            Some(opening) => PlainPrimary::begin(alloc, opening, start, marks),
            None => Err(Memory),
        }
    }

    /// A primary goes live in the term from what these keepers give.
    pub fn grant(&mut self, alloc: Global, term: Term, keepers: &[u64]) -> Result<(), PlainFault> {
        let fault = match self.rules {
            Rules::Stopping => self.why_not_after(term, keepers),
            _ => self.why_not_beside(term, keepers),
        };
        if let Some(fault) = fault {
            return Err(fault);
        }
        self.give_all(term, keepers)?;
        let primary = self.next_primary(alloc, term, keepers)?;
        Ok(self.begin(primary)?)
    }
}
