//! A plain keeper, by whole lists, and what a plain world keeps to.

use ft_types::{Memory, Term};
use std::alloc::Global;

/// What a plain world keeps to.
#[derive(Clone, Copy)]
pub enum Rules {
    /// A primary has stopped before the next one goes live, and its log notes what went out. Keepers neither write down nor fence off.
    Stopping,
    /// Nobody stops a primary. Keepers write down what they took, and fence terms off. So it is in all that follow, but for one rule.
    Fencing,
    /// Not that a keeper acknowledges nothing of a term below its fence.
    NoFence,
    /// Not that a fence outlives a restart.
    FenceEnds,
    /// Not that a fence is raised before the store is read.
    FenceBehind,
    /// Not that a keeper acknowledges only what it has written down.
    Unsaved,
    /// Not that one keeper more gives its store than may lack an output.
    NoQuorum,
    /// Not that a gate counts what was acknowledged in its own term.
    AnyTerm,
}

/// What a keeper took, and what of it is written down: the numbers of frames, in the order in which they came. And all terms to which
/// it gave its store.
#[derive(Drop)]
pub struct PlainKeeper {
    pub taken: Vec<u64>,
    written: Vec<u64>,
    gave: Vec<Term>,
    /// What was read for a term, where the fence is not raised first.
    read: Option<(Term, Vec<u64>)>,
    pub lost: bool,
}

impl PlainKeeper {
    /// A keeper that took nothing, and gave that to term 1.
    pub fn new(alloc: Global) -> Result<PlainKeeper, Memory> {
        let mut gave = Vec::new(alloc);
        gave.push(1u32)?;
        Ok(PlainKeeper {
            taken: Vec::new(alloc),
            written: Vec::new(alloc),
            gave,
            read: None,
            lost: false,
        })
    }

    /// It takes frames of these numbers.
    pub fn take(&mut self, frames: &[u64]) -> Result<(), Memory> {
        Ok(self.taken.extend_from_slice(frames)?)
    }

    /// It writes down what it took.
    pub fn save(&mut self, alloc: Global) -> Result<(), Memory> {
        self.written = self.taken.to_vec(alloc)?;
        Ok(())
    }

    /// Whether it has written down all that it took.
    pub fn has_saved(&self) -> bool {
        self.written.len() == self.taken.len()
    }

    /// It comes back with what it wrote down.
    pub fn restart(&mut self, alloc: Global, rules: Rules) -> Result<(), Memory> {
        self.taken = self.written.to_vec(alloc)?;
        if matches!(rules, Rules::FenceEnds) {
            self.gave.clear();
        }
        Ok(())
    }

    /// Whether it gave its store to a later term than this one.
    pub fn gave_later(&self, term: Term) -> bool {
        for given in &self.gave {
            if *given > term {
                return true;
            }
        }
        false
    }

    /// It gives its store to the term.
    pub fn give(&mut self, term: Term) -> Result<(), Memory> {
        Ok(self.gave.push(term)?)
    }

    /// Its fence is raised to the term: its store is given to it. Where fences come behind, it is read only, and given later.
    pub fn fence(&mut self, alloc: Global, term: Term, rules: Rules) -> Result<(), Memory> {
        if matches!(rules, Rules::FenceBehind) {
            self.read = Some((term, self.taken.to_vec(alloc)?));
            Ok(())
        } else {
            self.give(term)
        }
    }

    /// What the term begins with.
    pub fn given(&self, term: Term) -> &[u64] {
        match &self.read {
            Some((read, frames)) if *read == term => frames.as_slice(),
            _ => self.taken.as_slice(),
        }
    }

    /// What it acknowledges.
    pub fn acknowledged(&self, rules: Rules) -> &[u64] {
        match rules {
            Rules::Stopping | Rules::Unsaved => self.taken.as_slice(),
            _ => self.written.as_slice(),
        }
    }
}
