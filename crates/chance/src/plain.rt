//! A plain world, by what events mean: whole lists of what was sent, taken, written down and acknowledged. It keeps no position, no
//! board and no fence: what it is asked it finds in these lists.

use crate::acts::{Act, hart_of};
use crate::fault::PlainFault;
use crate::keeper::{PlainKeeper, Rules};
use crate::plain_primary::PlainPrimary;
use ack_core::AckFault;
use closed_cut::{Position, position};
use fragment_codec::{Frame, Opening};
use ft_types::{Count, Counts, HART_LIMIT, HART_ROW, Hart, Memory, Term};
use guest_image::{Image, Machine};
use input_log::Input;
use log_join::Store;
use primary::Released;
use std::alloc::Global;

/// Who acknowledged which counts in which term.
#[derive(Clone, Copy)]
pub struct Acknowledged {
    by: u64,
    pub term: Term,
    counts: Counts,
}

/// A world by whole lists.
#[derive(Drop)]
pub struct PlainWorld {
    pub image: Image,
    /// How many keepers there were at first.
    pub keepers: u8,
    pub need: u8,
    pub rules: Rules,
    /// In the order in which their terms were granted.
    pub primaries: Vec<PlainPrimary>,
    /// All frames that were sent.
    pub sent: Vec<Frame>,
    pub held: Vec<PlainKeeper>,
    pub acknowledged: Vec<Acknowledged>,
    /// All outputs that went out.
    pub released: Vec<Released>,
}

/// Keepers that took nothing.
fn empty_keepers(alloc: Global, keepers: u8) -> Result<Vec<PlainKeeper>, Memory> {
    let mut held = Vec::new(alloc);
    for _keeper in 0..keepers {
        held.push(PlainKeeper::new(alloc)?)?;
    }
    Ok(held)
}

/// The primary of term 1, from boot.
fn first_primary(alloc: Global, image: &Image) -> Result<PlainPrimary, Memory> {
    let base = Counts::zero(image.harts());
    let start = Machine::boot(alloc, image)?;
    match Opening::new(image.guest(), 1, 0, base) {
        Some(opening) => PlainPrimary::begin(alloc, opening, start, [0; HART_ROW]),
        None => Err(Memory),
    }
}

/// Whether some hart's count is less than before.
fn are_lower(counts: &Counts, before: &Counts) -> bool {
    for number in 0..HART_LIMIT {
        let hart = Hart::new(number);
        if counts.count_of(hart) < before.count_of(hart) {
            return true;
        }
    }
    false
}

impl PlainWorld {
    /// A primary that runs from boot, whose opening is sent, and keepers that took nothing.
    pub fn new(
        alloc: Global,
        image: &Image,
        rules: Rules,
        keepers: u8,
        need: u8,
    ) -> Result<PlainWorld, Memory> {
        let own = image.copy()?;
        let primary = first_primary(alloc, image)?;
        let mut world = PlainWorld {
            image: own,
            keepers,
            need,
            rules,
            primaries: Vec::new(alloc),
            sent: Vec::new(alloc),
            held: empty_keepers(alloc, keepers)?,
            acknowledged: Vec::new(alloc),
            released: Vec::new(alloc),
        };
        world.begin(primary)?;
        Ok(world)
    }

    /// A primary begins its term, and its opening is sent.
    pub fn begin(&mut self, primary: PlainPrimary) -> Result<(), Memory> {
        self.sent.push(Frame::Opening(primary.opening.copy()))?;
        Ok(self.primaries.push(primary)?)
    }

    /// The term that was granted as the one of this number, 0 where there is none.
    pub fn term_at(&self, number: usize) -> Term {
        match self.primaries.get(number) {
            Some(primary) => primary.opening.term(),
            None => 0,
        }
    }

    /// The greatest term that was granted.
    pub fn greatest_term(&self) -> Term {
        let mut greatest = 0;
        for primary in &self.primaries {
            greatest = primary.opening.term().max(greatest);
        }
        greatest
    }

    /// The term's primary.
    pub fn primary(&self, term: Term) -> Option<&PlainPrimary> {
        for primary in &self.primaries {
            if primary.opening.term() == term {
                return Some(primary);
            }
        }
        None
    }

    /// The machine of the term's primary, if that runs.
    pub fn machine(&self, term: Term) -> Option<&Machine> {
        match self.primary(term) {
            Some(primary) if !primary.stopped => Some(primary.book.machine()),
            _ => None,
        }
    }

    /// The term's primary, if that runs.
    pub fn running(&mut self, term: Term) -> Result<&mut PlainPrimary, PlainFault> {
        for primary in &mut self.primaries {
            if primary.opening.term() == term && !primary.stopped {
                return Ok(primary);
            }
        }
        Err(PlainFault::NoPrimary)
    }

    /// The keeper of this number, where there is one that is not lost.
    pub fn keeper(&self, number: u64) -> Result<&PlainKeeper, PlainFault> {
        match self.held.get(number as usize) {
            Some(keeper) if !keeper.lost => Ok(keeper),
            _ => Err(PlainFault::NoKeeper),
        }
    }

    /// The same, to which something happens.
    fn keeper_mut(&mut self, number: u64) -> Result<&mut PlainKeeper, PlainFault> {
        match self.held.get_mut(number as usize) {
            Some(keeper) if !keeper.lost => Ok(keeper),
            _ => Err(PlainFault::NoKeeper),
        }
    }

    /// The number of the first frame that the keeper lacks.
    pub fn first_missing(&self, number: u64) -> Option<u64> {
        let Ok(keeper) = self.keeper(number) else {
            return None;
        };
        for frame in 0..self.sent.len() as u64 {
            if !keeper.taken.contains(&frame) {
                return Some(frame);
            }
        }
        None
    }

    /// Whether the keeper has written down all that it took.
    pub fn has_saved(&self, number: u64) -> bool {
        match self.keeper(number) {
            Ok(keeper) => keeper.has_saved(),
            Err(_) => true,
        }
    }

    fn deliver(&mut self, number: u64, frame: u64) -> Result<(), PlainFault> {
        let frames = self.sent.len() as u64;
        let keeper = self.keeper_mut(number)?;
        if frame >= frames {
            return Err(PlainFault::NoFrame);
        }
        Ok(keeper.take(&[frame])?)
    }

    fn join(&mut self, alloc: Global, number: u64, other: u64) -> Result<(), PlainFault> {
        match self.keeper(other)?.taken.to_vec(alloc) {
            Ok(frames) => Ok(self.keeper_mut(number)?.take(&frames)?),
            Err(_) => Err(PlainFault::Memory),
        }
    }

    fn lose(&mut self, number: u64) -> Result<(), PlainFault> {
        self.keeper_mut(number)?.lost = true;
        Ok(())
    }

    /// The keeper gives its store to the term.
    pub fn give(&mut self, number: u64, term: Term) -> Result<(), Memory> {
        match self.held.get_mut(number as usize) {
            Some(keeper) => keeper.give(term),
            None => Ok(()),
        }
    }

    fn fence(&mut self, alloc: Global, number: u64, term: Term) -> Result<(), PlainFault> {
        let rules = self.rules;
        let keeper = self.keeper_mut(number)?;
        if keeper.gave_later(term) {
            return Err(PlainFault::Fenced);
        }
        Ok(keeper.fence(alloc, term, rules)?)
    }

    /// Puts frames of these numbers into the store.
    pub fn put(&self, alloc: Global, store: &mut Store, frames: &[u64]) -> Result<(), Memory> {
        for number in frames {
            if let Some(frame) = self.sent.get(*number as usize) {
                let _put = store.put(frame.copy(alloc)?)?;
            }
        }
        Ok(())
    }

    /// The position of frames of these numbers.
    fn position_of(&self, alloc: Global, frames: &[u64]) -> Result<Position, Memory> {
        let mut store = Store::new(alloc, self.image.guest());
        self.put(alloc, &mut store, frames)?;
        position(alloc, &store)
    }

    /// Why no gate counts a position of the term, if none does.
    fn why_no_gate(&self, term: Term) -> Option<PlainFault> {
        if self.primary(term).is_none() {
            Some(PlainFault::NoPrimary)
        } else {
            None
        }
    }

    /// Why the keeper acknowledges no position of the term, if it does not.
    fn why_not_acknowledged(&self, keeper: &PlainKeeper, term: Term) -> Option<PlainFault> {
        match self.rules {
            Rules::Stopping if term != self.greatest_term() => {
                Some(PlainFault::Ack(AckFault::OtherTerm))
            }
            Rules::Stopping => None,
            Rules::NoFence => self.why_no_gate(term),
            _ if keeper.gave_later(term) => Some(PlainFault::Fenced),
            _ => self.why_no_gate(term),
        }
    }

    fn acknowledge(&mut self, alloc: Global, number: u64) -> Result<(), PlainFault> {
        let keeper = self.keeper(number)?;
        let position = self.position_of(alloc, keeper.acknowledged(self.rules))?;
        if let Some(fault) = self.why_not_acknowledged(keeper, position.term) {
            return Err(fault);
        }
        self.add_acknowledged(Acknowledged {
            by: number,
            term: position.term,
            counts: position.counts,
        })
    }

    fn add_acknowledged(&mut self, one: Acknowledged) -> Result<(), PlainFault> {
        if self.acknowledged_more(&one) {
            return Err(PlainFault::Ack(AckFault::Lower));
        }
        match self.acknowledged.push(one) {
            Ok(()) => Ok(()),
            Err(_) => Err(PlainFault::Memory),
        }
    }

    /// Whether the keeper acknowledged a greater count of some hart in the term.
    fn acknowledged_more(&self, one: &Acknowledged) -> bool {
        for before in &self.acknowledged {
            if before.by == one.by
                && before.term == one.term
                && are_lower(&one.counts, &before.counts)
            {
                return true;
            }
        }
        false
    }

    /// Whether the gate of the term counts what was acknowledged.
    fn counts(&self, one: &Acknowledged, term: Term) -> bool {
        one.term == term || matches!(self.rules, Rules::AnyTerm)
    }

    /// Whether the keeper acknowledged counts with the hart's step inside, in the term.
    fn holds(&self, keeper: u64, term: Term, hart: Hart, step: Count) -> bool {
        for one in &self.acknowledged {
            if one.by == keeper && self.counts(one, term) && one.counts.count_of(hart) > step {
                return true;
            }
        }
        false
    }

    /// How many keepers acknowledged counts with the hart's step inside, in the term.
    pub fn holders(&self, term: Term, hart: Hart, step: Count) -> usize {
        let mut many = 0usize;
        for keeper in 0..u64::from(self.keepers) {
            if self.holds(keeper, term, hart, step) {
                many = many.saturating_add(1);
            }
        }
        many
    }

    fn seal(&mut self, alloc: Global, term: Term) -> Result<(), PlainFault> {
        let guest = self.image.guest();
        let mut pieces = self.running(term)?.seal(alloc, guest)?;
        match self.sent.append(&mut pieces) {
            Ok(()) => Ok(()),
            Err(_) => Err(PlainFault::Memory),
        }
    }

    /// The term's primary does this, if it runs.
    fn lead(&mut self, alloc: Global, term: Term, act: Act) -> Result<(), PlainFault> {
        let harts = self.image.harts();
        let primary = self.running(term)?;
        match act {
            Act::Step(_, hart) => primary.step(alloc, hart_of(hart, harts)),
            Act::Timer(_, hart) => primary.offer(hart_of(hart, harts), Input::Timer),
            Act::Word(_, hart, word) => primary.offer(hart_of(hart, harts), Input::Word(word)),
            _ => {
                primary.stopped = true;
                Ok(())
            }
        }
    }

    /// Does what the act says, or says why not.
    pub fn apply(&mut self, alloc: Global, act: Act) -> Result<(), PlainFault> {
        let rules = self.rules;
        match act {
            Act::Step(term, _) | Act::Timer(term, _) | Act::Word(term, _, _) | Act::Stop(term) => {
                self.lead(alloc, term, act)
            }
            Act::Seal(term) => self.seal(alloc, term),
            Act::Release(term) => self.release(alloc, term),
            Act::Deliver(keeper, frame) => self.deliver(keeper, frame),
            Act::Join(keeper, other) => self.join(alloc, keeper, other),
            Act::Save(keeper) => Ok(self.keeper_mut(keeper)?.save(alloc)?),
            Act::Restart(keeper) => Ok(self.keeper_mut(keeper)?.restart(alloc, rules)?),
            Act::Fence(keeper, term) => self.fence(alloc, keeper, term),
            Act::Ack(keeper) => self.acknowledge(alloc, keeper),
            Act::Lose(keeper) => self.lose(keeper),
            Act::Grant(term, keepers) => self.grant(alloc, term, keepers),
        }
    }
}
