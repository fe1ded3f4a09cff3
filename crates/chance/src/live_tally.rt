//! How often something happened in lists of processes.

/// Lists that were led.
pub const LISTS: usize = 0;
/// Rounds of primaries.
pub const ROUNDS: usize = 1;
/// Streams of frames that came to keepers.
pub const TAKEN: usize = 2;
/// Calls of keepers that logged.
pub const LOGGED: usize = 3;
/// Those that were cut short, by a crash or a file that failed, or were none.
pub const CUT_SHORT: usize = 4;
/// Acknowledgements.
pub const SAID: usize = 5;
/// Logs that were read between a keeper's acts.
pub const HANDED: usize = 6;
/// Crashes, ends and losses of keepers between their calls.
pub const CRASHES: usize = 7;
/// Requests that came to primaries.
pub const ASKED: usize = 8;
/// Primaries that went live.
pub const GRANTS: usize = 9;
/// Those that did not.
pub const REFUSED_GRANTS: usize = 10;
/// Answers that were told.
pub const TOLD: usize = 11;
/// Those that a primary told once a later term was granted.
pub const LATE_TOLD: usize = 12;
/// What clients did.
pub const HEARD: usize = 13;
/// Answers that clients told.
pub const PRINTED: usize = 14;
/// Keepers' numbers that went to new logs.
pub const RENEWED: usize = 15;

/// Of how many kinds there is a number.
const KINDS: usize = 16;

/// How often something happened, of each kind.
#[derive(Clone, Copy)]
pub struct LiveTally {
    many: [u64; KINDS],
}

impl LiveTally {
    /// Nothing happened.
    pub fn new() -> LiveTally {
        LiveTally { many: [0; KINDS] }
    }

    /// So many more of the kind.
    pub fn add(&mut self, kind: usize, more: u64) {
        if let Some(many) = self.many.get_mut(kind) {
            *many = many.saturating_add(more);
        }
    }

    /// Adds what happened in a list.
    pub fn add_list(&mut self, list: &LiveTally) {
        for kind in 0..KINDS {
            self.add(kind, list.many[kind]);
        }
    }

    /// Whether each of these numbers is reached.
    pub fn reaches(&self, least: &[(usize, u64)]) -> bool {
        for (kind, least) in least {
            match self.many.get(*kind) {
                Some(many) if many >= least => {}
                _ => return false,
            }
        }
        true
    }
}
