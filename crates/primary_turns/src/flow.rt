//! How far a primary is ahead of its keepers.

ghost use Rattle.std.specs.Prelude.{◌≡◌, ◌+◌, ◌<◌, ◌≤◌, ◌↔◌, ℕ, false, min, true, IsTrue, OnOk};
ghost use Rattle.ft_types.specs.Sets.{IsMember};
ghost use Rattle.primary_turns.specs.machinery.Flows.{how_many, with_if};

use crate::read::{Sent, reaches};
use ft_types::{Counts, Keeper, KeeperSet, Memory, Quorum};
use std::result::Result;
use wire::Acknowledgement;

/// How many bytes of frames that were cut in the term too few keepers may be known to have before rounds rest; those of one more call come on top.
pub const FLOW_LIMIT: u64 = 4_194_304;

/// How many bytes were sent in the term that too few keepers are known to have. What keepers have is known at a mark, which moves on to the end of what was
/// sent once enough of them came to it: so a few words do, however much is sent. Counted is what was lacking as it was set, and all that was sent since.
#[derive(Clone, Copy)]
pub(crate) struct Flow {
    quorum: Quorum,
    /// How many they are.
    ahead: u64,
    /// How many of them were sent behind the mark.
    behind: u64,
    /// Whether there is a mark: something is ahead.
    is_marked: bool,
    /// To which counts what was sent before the mark goes, where there is one.
    mark: Counts,
    /// The keepers that came to the mark.
    at_mark: KeeperSet,
    /// The keepers that have all.
    at_end: KeeperSet,
}

/// The keepers, with this one too where it is said so.
fn with_if(keepers: KeeperSet, keeper: Keeper, is_one: bool) -> KeeperSet
    ensures { result ≡ with_if keepers keeper is_one }
{
    if is_one {
        keepers.with(keeper)
    } else {
        keepers
    }
}

impl Flow {
    /// Nothing was sent.
    pub(crate) fn new(quorum: Quorum) -> Flow
        ensures { result.ahead ≡ 0 }
    {
        Flow {
            quorum,
            ahead: 0,
            behind: 0,
            is_marked: false,
            mark: Counts::zero(0),
            at_mark: KeeperSet::new(),
            at_end: KeeperSet::new(),
        }
    }

    /// Whether rounds rest.
    pub(crate) fn rests(&self) -> bool
        ensures { IsTrue result ↔ (FLOW_LIMIT < self.now.ahead) }
    {
        self.ahead > FLOW_LIMIT
    }

    /// Notes that so many bytes are sent, which go to these counts. More of them than there are numbers are had by nobody: that is want of memory.
    pub(crate) fn note(&mut self, bytes: usize, counts: &Counts) -> Result<(), Memory>
        ensures ahead { OnOk result (self.new.ahead ≡ self.old.ahead + bytes) }
        ensures behind { OnOk result (self.old.is_marked ≡ true →
            (self.new.behind ≡ self.old.behind + bytes) × (self.new.is_marked ≡ true) × (self.new.mark ≡ self.old.mark) × (self.new.at_mark ≡ self.old.at_mark)) }
        ensures begins { OnOk result (self.old.is_marked ≡ false →
            (self.new.behind ≡ self.old.behind) × (self.new.is_marked ≡ true) × (self.new.mark ≡ counts.now) × ((keeper : ℕ) → ¬ (IsMember self.new.at_mark keeper))) }
        ensures nobody { OnOk result ((keeper : ℕ) → ¬ (IsMember self.new.at_end keeper)) }
    {
        let (Some(ahead), Some(behind)) = (
            self.ahead.checked_add(bytes as u64),
            self.behind.checked_add(bytes as u64),
        ) else {
            return Err(Memory);
        };
        self.ahead = ahead;
        self.at_end = KeeperSet::new();
        if self.is_marked {
            self.behind = behind;
        } else {
            self.is_marked = true;
            self.mark.copy_from(counts);
            self.at_mark = KeeperSet::new();
        }
        Ok(())
    }

    /// Notes whether a keeper has come to the mark, and to the end of what was sent. Where enough have come to the mark it goes to that end.
    fn come(&mut self, keeper: Keeper, to_mark: bool, to_end: bool, last: &Counts)
        ensures end { self.new.at_end ≡ with_if self.old.at_end keeper to_end }
        ensures all { self.old.quorum.need ≤ how_many self.new.at_end → (self.new.ahead ≡ 0) × (self.new.behind ≡ 0) × (self.new.is_marked ≡ false) }
        ensures some { how_many self.new.at_end < self.old.quorum.need → self.old.quorum.need ≤ how_many (with_if self.old.at_mark keeper to_mark) →
            self.new ≡ record self.old {
              ahead = min self.old.ahead self.old.behind;
              behind = 0;
              mark = last.now;
              at_mark = self.new.at_end;
              at_end = self.new.at_end;
            } }
        ensures few { how_many self.new.at_end < self.old.quorum.need → how_many (with_if self.old.at_mark keeper to_mark) < self.old.quorum.need →
            self.new ≡ record self.old { at_mark = with_if self.old.at_mark keeper to_mark; at_end = self.new.at_end } }
        ensures fewer { self.new.ahead ≤ self.old.ahead }
    {
        self.at_end = with_if(self.at_end, keeper, to_end);
        self.at_mark = with_if(self.at_mark, keeper, to_mark);
        let need = usize::from(self.quorum.need());
        if self.at_end.len() >= need {
            self.ahead = 0;
            self.behind = 0;
            self.is_marked = false;
        } else if self.at_mark.len() >= need {
            self.ahead = self.ahead.min(self.behind);
            self.behind = 0;
            self.mark.copy_from(last);
            self.at_mark = self.at_end;
        }
    }

    /// Hears what a keeper acknowledges in the term. One that is none of the quorum is passed over.
    pub(crate) fn hear(&mut self, acknowledgement: &Acknowledgement, sent: &Sent)
        ensures { self.new.ahead ≤ self.old.ahead }
    {
        let Acknowledgement { keeper, counts, .. } = acknowledgement;
        let Some(last) = &sent.last else {
            return;
        };
        if self.ahead == 0 || keeper.number() >= self.quorum.keepers() {
            return;
        }
        let to_end = reaches(counts, last);
        let to_mark = to_end || reaches(counts, &self.mark);
        self.come(*keeper, to_mark, to_end, last);
    }
}
