//! How often something happened in lists of events.

use crate::acts::Act;
use crate::fault::PlainFault;
use primary::Released;

/// Lists that were applied.
pub const LISTS: usize = 0;
/// Steps that were taken.
pub const STEPS: usize = 1;
/// Frames that came to keepers.
pub const DELIVERIES: usize = 2;
/// Positions that were acknowledged.
pub const ACKNOWLEDGED: usize = 3;
/// Primaries that went live.
pub const GRANTS: usize = 4;
/// All events that were refused.
pub const REFUSED: usize = 5;
/// Outputs that went out.
pub const RELEASED: usize = 6;
/// Those that had gone out in an older term.
pub const AGAIN: usize = 7;
/// Lists in which outputs went out in more than one term.
pub const SPREAD: usize = 8;

/// Of how many kinds there is a number.
const KINDS: usize = 9;

/// How often something happened, of each kind.
#[derive(Clone, Copy)]
pub struct Tally {
    many: [u64; KINDS],
}

/// Whether the output went out in an older term.
fn went_out_before(released: &[Released], one: &Released) -> bool {
    for other in released {
        if other.term < one.term && other.output == one.output {
            return true;
        }
    }
    false
}

/// Of which kind it is what came of an act.
fn kind_of(act: Act, answer: Result<(), PlainFault>) -> Option<usize> {
    match (act, answer) {
        (_, Err(_)) => Some(REFUSED),
        (Act::Step(..), Ok(())) => Some(STEPS),
        (Act::Deliver(..), Ok(())) => Some(DELIVERIES),
        (Act::Ack(_), Ok(())) => Some(ACKNOWLEDGED),
        (Act::Grant(..), Ok(())) => Some(GRANTS),
        _ => None,
    }
}

impl Tally {
    /// Nothing happened.
    pub fn new() -> Tally {
        Tally { many: [0; KINDS] }
    }

    /// So many more of the kind.
    fn add(&mut self, kind: usize, more: u64) {
        if let Some(many) = self.many.get_mut(kind) {
            *many = many.saturating_add(more);
        }
    }

    /// Counts what came of an act.
    pub fn count(&mut self, act: Act, answer: Result<(), PlainFault>) {
        if let Some(kind) = kind_of(act, answer) {
            self.add(kind, 1);
        }
    }

    /// Counts outputs that went out in a list.
    fn count_released(&mut self, released: &[Released]) {
        for one in released {
            self.add(RELEASED, 1);
            self.add(AGAIN, u64::from(went_out_before(released, one)));
        }
        if let (Some(first), Some(last)) = (released.first(), released.last()) {
            self.add(SPREAD, u64::from(first.term != last.term));
        }
    }

    /// Adds a list in which that happened, and at whose end these outputs had gone out.
    pub fn add_list(&mut self, list: &Tally, released: &[Released]) {
        for kind in 0..KINDS {
            self.add(kind, list.many[kind]);
        }
        self.add(LISTS, 1);
        self.count_released(released);
    }

    /// Whether each of these numbers is reached.
    pub fn reaches(&self, least: &[(usize, u64)]) -> bool {
        for (kind, least) in least {
            match self.many.get(*kind) {
                Some(many) if many >= least => {}
                _ => return false,
            }
        }
        true
    }
}
